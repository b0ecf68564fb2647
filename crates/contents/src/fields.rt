// The fields of an entry as bytes.
ghost use Rattle.std.specs.Prelude.{◌≡◌, ℕ, ◌≤◌, true, length, IfSome};
ghost use Rattle.std.specs.Option.{option_map};
ghost use Rattle.sheet_format.specs.Sizes.{block_length};
ghost use Rattle.contents_format.specs.Reading.{all_zero, entry_read, fields_hold, mode_numbered};
ghost use Rattle.contents.specs.Entries.{body_in, is_held};

use super::entry::Entry;
use super::parts::start_length;
use sheet_format::{CipherKind, MAX_LENGTH, MAX_NAME, Mode, is_name};

const START_FIELD: usize = 16;

// No `TryFrom`: neither type is one of this crate.
fn read_mode(number: u8) -> Option<Mode>
    ensures { result ≡ mode_numbered number }
{
    match number {
        1 => Some(Mode::Ctr),
        2 => Some(Mode::Cbc),
        _ => None,
    }
}

// The crate modes has this line of std too, for its own fillings: a crate for it would be no plainer.
fn all_zero(bytes: &[u8]) -> bool
    ensures { result ≡ all_zero bytes.now }
{
    bytes.iter().all(|b| *b == 0)
}

// Whether the name field is a name of that length, and START and name are filled up with zeros.
fn fields_hold(start: &[u8], start_length: usize, name: &[u8], name_length: usize) -> bool
    requires start { start_length ≤ length start.now }
    requires name { name_length ≤ length name.now }
    ensures { result ≡ fields_hold start.now start_length name.now name_length }
{
    let (_, start_filling) = start.split_at(start_length);
    let (word, name_filling) = name.split_at(name_length);
    is_name(word) && all_zero(start_filling) && all_zero(name_filling)
}

// What the 56 bytes of an entry say, `None` where no body has them for its entry.
pub fn read_entry(cipher: CipherKind, bytes: &[u8; 56]) -> Option<Entry>
    ensures value { option_map (body_in (block_length cipher)) result ≡ entry_read (block_length cipher) bytes.now }
    ensures held { IfSome result (λ e. is_held (block_length cipher) e ≡ true) }
{
    let [number, name_length, y, z, a, b, c, d, fields @ ..] = bytes.as_slice() else {
        return None;
    };
    let mode = read_mode(*number)?;
    let length = u32::from_be_bytes([*a, *b, *c, *d]);
    let used = usize::from(*name_length);
    if *y != 0 || *z != 0 || length > MAX_LENGTH || used > MAX_NAME {
        return None;
    }
    let (start_field, name_field) = fields.split_at(START_FIELD);
    if !fields_hold(start_field, start_length(mode, cipher), name_field, used) {
        return None;
    }
    let mut start = [0u8; START_FIELD];
    start.copy_from_slice(start_field);
    let mut name = [0u8; MAX_NAME];
    name.copy_from_slice(name_field);
    Some(Entry {
        mode,
        length,
        start,
        name_length: *name_length,
        name,
    })
}
