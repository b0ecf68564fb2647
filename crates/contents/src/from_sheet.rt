// Contents, made from a sheet that passes.
ghost use Rattle.std.specs.Prelude.{◌≡◌, ℕ, ◌/◌, ◌≤◌, true, [], map, length, take, IfOk};
ghost use Rattle.hex_digits.specs.Hex.{hex_bytes, is_hex};
ghost use Rattle.sheet.specs.Checking.{after_check};
ghost use Rattle.sheet_format.specs.Lines.{lines_of};
ghost use Rattle.sheet_format.specs.Orders.{bodies_in as bodies_named, map_ok, ordered};
ghost use Rattle.sheet_format.specs.Sizes.{block_length};
ghost use Rattle.sheet_laws.specs.Passes.{Passes};
ghost use Rattle.sheet_lines.specs.Models.{body_model};
ghost use Rattle.contents_format.specs.Layout.{filled};
ghost use Rattle.contents_laws.specs.BodyLines.{FitLine, FitLines};
ghost use Rattle.contents.specs.Entries.{are_held, bodies_in, body_in, entries_in, is_held};
ghost use Rattle.contents.specs.Models.{ordered_by, said_by};

use super::Contents;
use super::entries::Entries;
use super::entry::Entry;
use contents_format::BlockLength;
use hex_digits::read_hex;
use sheet::check;
use sheet_format::{CipherKind, SheetFault};
use sheet_lines::line::{BodyLine, LineKind};
use sheet_lines::reader::Lines;

// The bytes that digits mean, filled up with zeros.
fn start_field(digits: &[u8]) -> [u8; 16]
    requires room { length digits.now ≤ 32 }
    requires hex { is_hex (length digits.now / 2) digits.now ≡ true }
    ensures { result ≡ filled 16 (hex_bytes digits.now) }
{
    let mut field = [0u8; 16];
    read_hex(digits, &mut field[..digits.len() / 2]).unwrap();
    field
}

// A name, filled up with zeros.
fn name_field(name: &[u8]) -> [u8; 32]
    requires { length name.now ≤ 32 }
    ensures { result ≡ filled 32 name.now }
{
    let mut field = [0u8; 32];
    field[..name.len()].copy_from_slice(name);
    field
}

// The entry of a body line.
fn entry_of(cipher: CipherKind, body: BodyLine<'_>) -> Entry
    requires { FitLine (block_length cipher) (body_model body) }
    ensures value { body_in (block_length cipher) result ≡ ordered (body_model body.entry) }
    ensures held { is_held (block_length cipher) result ≡ true }
{
    let start = start_field(body.start);
    let name = name_field(body.name);
    Entry {
        mode: body.mode,
        length: body.length.value,
        start,
        name_length: body.name.len() as u8,
        name,
    }
}

// Puts the entries of the bodies that a sheet names into a place that is lent.
fn put_entries(cipher: CipherKind, sheet: &[u8], entries: &mut Entries)
    requires none { entries_in entries.old ≡ [] }
    requires fit { FitLines (block_length cipher) (bodies_named (lines_of sheet.now)) }
    ensures value { bodies_in (block_length cipher) (entries_in entries.new) ≡ map ordered (bodies_named (lines_of sheet.now)) }
    ensures held { are_held (block_length cipher) (entries_in entries.new) ≡ true }
{
    for item in Lines::new(sheet) {
        if let Ok(line) = item
            && let LineKind::Body(body) = line.kind
        {
            entries.push(entry_of(cipher, body));
        }
    }
}

impl Contents {
    // The contents that a sheet orders, with the block length of the tag cipher, or the fault for which `check` refuses the
    // sheet. The work area is afterwards as after `check`.
    pub fn of_sheet(
        sheet: &[u8],
        work: &mut [u8],
        tag_block: BlockLength,
    ) -> Result<Contents, SheetFault>
        ensures answer { map_ok said_by result ≡ ordered_by (length work.old) sheet.now tag_block }
        ensures passes { IfOk result (λ c. Passes sheet.now (said_by c).order) }
        ensures work { work.new ≡ after_check work.old }
    {
        let checked = check(sheet, work)?;
        let cipher = CipherKind::try_from(checked.block_length).unwrap();
        let mut entries = Entries::new();
        put_entries(cipher, sheet, &mut entries);
        Ok(Contents {
            cipher,
            tag_block,
            entries,
        })
    }
}
