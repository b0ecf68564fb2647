// The contents of a set: what they hold, made from a sheet, written and read.
#![tactic(auto)]

ghost use Rattle.std.specs.Prelude.{◌≡◌, true};
ghost use Rattle.contents.specs.Entries.{entries_in, is_contents};

use contents_format::BlockLength;
use entries::Entries;
use sheet_format::CipherKind;

mod entries;
mod entry;
mod fields;
mod from_sheet;
mod parts;
mod reading;
mod writing;

pub use entry::Entry;
pub use reading::read_contents;

// What opens a set: the body cipher, the block length of the tag cipher, and an entry for each body. A value of this type is
// always that of a sheet that passes.
#[derive(Clone, Copy)]
pub struct Contents {
    cipher: CipherKind,
    tag_block: BlockLength,
    entries: Entries,
    ghost sound: { is_contents cipher (entries_in entries) ≡ true },
}
