// The parts of contents.
ghost use Rattle.std.specs.Prelude.{◌≡◌, ℕ, ◌≤◌, length};
ghost use Rattle.sheet_format.specs.Sizes.{block_length};
ghost use Rattle.contents_format.specs.BlockLengths.{bytes_of as length_of};
ghost use Rattle.contents_format.specs.Layout.{start_length};
ghost use Rattle.contents.specs.Models.{said_by};

use super::Contents;
use contents_format::BlockLength;
use sheet_format::{CipherKind, Mode};

// How many bytes START has.
pub fn start_length(mode: Mode, cipher: CipherKind) -> usize
    ensures value { result ≡ start_length mode (block_length cipher) }
    ensures room { result ≤ 16 }
{
    mode.start_digits(cipher) / 2
}

impl Contents {
    // The body cipher.
    pub fn cipher(&self) -> CipherKind
        ensures { result ≡ (said_by self.now).order.cipher }
    {
        self.cipher
    }

    // The block length of the tag cipher.
    pub fn tag_block(&self) -> BlockLength
        ensures { length_of result ≡ (said_by self.now).tag }
    {
        self.tag_block
    }

    // How many bodies.
    pub fn bodies(&self) -> usize
        ensures value { result ≡ length (said_by self.now).order.bodies }
        ensures some { 1 ≤ result }
        ensures few { result ≤ 32 }
    {
        self.entries.as_slice().len()
    }
}
