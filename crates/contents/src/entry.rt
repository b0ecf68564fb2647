// One entry.
ghost use Rattle.std.specs.Prelude.{◌≡◌, ℕ};
ghost use Rattle.contents_format.specs.Layout.{mode_number};
ghost use Rattle.sheet_format.specs.Sizes.{block_length};
ghost use Rattle.contents.specs.Entries.{body_in, bytes_in, name_of};

use super::parts::start_length;
use sheet_format::{CipherKind, Mode};

// How many bytes an entry has.
pub const ENTRY: usize = 56;

// What contents say of one body. START is the first bytes of `start`, as many as cipher and mode want, and the name the first
// `name_length` bytes of `name`; behind them stand zeros. The zeros are kept, since the bytes of an entry have them.
#[derive(Clone, Copy)]
pub struct Entry {
    pub mode: Mode,
    pub length: u32,
    pub start: [u8; 16],
    pub name_length: u8,
    pub name: [u8; 32],
}

// No `From`: neither type is one of this crate.
fn mode_number(mode: Mode) -> u8
    ensures { result ≡ mode_number mode }
{
    match mode {
        Mode::Ctr => 1,
        Mode::Cbc => 2,
    }
}

impl Entry {
    // The name.
    pub fn name<'a>(&'a self) -> &'a [u8]
        ensures { result.now ≡ name_of self.now }
    {
        let end = (self.name_length as usize).min(32);
        &self.name[..end]
    }

    // START, under that cipher.
    pub fn start<'a>(&'a self, cipher: CipherKind) -> &'a [u8]
        ensures { result.now ≡ (body_in (block_length cipher) self.now).start }
    {
        &self.start[..start_length(self.mode, cipher)]
    }

    // The bytes, each field at its place.
    pub fn bytes(&self) -> [u8; 56]
        ensures { result ≡ bytes_in self.now }
    {
        let mut out = [0u8; ENTRY];
        out[0] = mode_number(self.mode);
        out[1] = self.name_length;
        out[4..8].copy_from_slice(&self.length.to_be_bytes());
        out[8..24].copy_from_slice(&self.start);
        out[24..56].copy_from_slice(&self.name);
        out
    }
}
