// Contents, read from their bytes.
ghost use Rattle.std.specs.Prelude.{◌≡◌, ℕ, ◌+◌, ◌*◌, ◌≤◌, true, ◌&&◌, List, [], ◌∷◌, ◌++◌, length, length as list_length, take, IfSome, IfOk, OnOk};
ghost use Rattle.std.specs.Option.{option_map};
ghost use Rattle.std.specs.List.{list_any};
ghost use Rattle.std.specs.Str.{bytes_eq};
ghost use Rattle.sheet_format.specs.Orders.{is_ctr, map_ok, total_blocks};
ghost use Rattle.sheet_format.specs.Sizes.{block_length, cipher_with};
ghost use Rattle.contents_format.specs.BlockLengths.{with_bytes};
ghost use Rattle.contents_format.specs.Reading.{bodies_from, contents_read, ctr_start_in, framed, is_frame, name_in, next_body};
ghost use Rattle.contents_laws.specs.Belonging.{ReadLaw};
ghost use Rattle.contents.specs.Entries.{are_held, bodies_in, body_in, entries_in, is_held, name_of};
ghost use Rattle.contents.specs.Models.{bytes_of, said_by};

use super::Contents;
use super::entries::Entries;
use super::entry::{ENTRY, Entry};
use super::fields::read_entry;
use contents_format::{BlockLength, ContentsFault};
use sheet_format::{CipherKind, MAX_BLOCKS, MAX_BODIES, Mode};

fn has_name(entry: &Entry, name: &[u8]) -> bool
    ensures { result ≡ bytes_eq (name_of entry.now) name.now }
{
    entry.name() == name
}

// Whether one of the entries has the name.
fn name_taken(earlier: &[Entry], name: &[u8]) -> bool
    ensures { result ≡ list_any (λ e. bytes_eq (name_of e) name.now) earlier.now }
{
    earlier.iter().any(|e| has_name(e, name))
}

// Whether an entry is in ctr and has the START.
fn has_ctr_start(cipher: CipherKind, entry: &Entry, start: &[u8]) -> bool
    ensures { result ≡ (is_ctr entry.now.mode && bytes_eq (body_in (block_length cipher) entry.now).start start.now) }
{
    entry.mode == Mode::Ctr && entry.start(cipher) == start
}

// Whether one of the entries is in ctr and has the START.
fn start_taken(cipher: CipherKind, earlier: &[Entry], start: &[u8]) -> bool
    ensures { result ≡ list_any (λ e. is_ctr e.mode && bytes_eq (body_in (block_length cipher) e).start start.now) earlier.now }
{
    earlier.iter().any(|e| has_ctr_start(cipher, e, start))
}

// Whether the entry is in ctr, and an earlier one is too and has its START.
fn shares_start(cipher: CipherKind, earlier: &[Entry], entry: &Entry) -> bool
    ensures { result ≡ (is_ctr entry.now.mode && ctr_start_in (body_in (block_length cipher) entry.now).start (bodies_in (block_length cipher) earlier.now)) }
{
    match entry.mode {
        Mode::Ctr => start_taken(cipher, earlier, entry.start(cipher)),
        Mode::Cbc => false,
    }
}

// The entry behind the earlier ones, and the blocks of all bodies with it; `None` where no body with that entry may follow.
fn read_next(
    cipher: CipherKind,
    earlier: &[Entry],
    blocks: u64,
    bytes: &[u8; 56],
) -> Option<(Entry, u64)>
    requires blocks { blocks ≡ total_blocks (block_length cipher) (bodies_in (block_length cipher) earlier.now) }
    requires limit { blocks ≤ 1000000 }
    ensures value { option_map (λ p. body_in (block_length cipher) p.0) result ≡ next_body (block_length cipher) (bodies_in (block_length cipher) earlier.now) bytes.now }
    ensures held { IfSome result (λ p. is_held (block_length cipher) p.0 ≡ true) }
    ensures total { IfSome result (λ p. p.1 ≡ total_blocks (block_length cipher) (bodies_in (block_length cipher) earlier.now ++ body_in (block_length cipher) p.0 ∷ [])) }
    ensures limit { IfSome result (λ p. p.1 ≤ 1000000) }
{
    let entry = read_entry(cipher, bytes)?;
    if name_taken(earlier, entry.name()) {
        return None;
    }
    if shares_start(cipher, earlier, &entry) {
        return None;
    }
    let more = entry.mode.blocks(cipher, entry.length);
    if more > MAX_BLOCKS - blocks {
        return None;
    }
    Some((entry, blocks + more))
}

// Whether edition, number of bodies and total length are right.
fn is_frame(edition: u8, count: usize, length: usize) -> bool
    ensures value { (xs : List ℕ) → length ≡ list_length xs → result ≡ is_frame edition count xs }
{
    edition == 1 && 1 <= count && count <= MAX_BODIES && length == ENTRY * count
}

// The entries, one after the other; of a fault the number of the first that may not stand there. They go into a place that is lent:
// each time so large a value is handed on, it is copied.
fn read_entries(
    cipher: CipherKind,
    count: usize,
    bytes: &[u8],
    entries: &mut Entries,
) -> Result<(), ContentsFault>
    requires none { entries_in entries.old ≡ [] }
    requires count { count ≤ 32 }
    requires long { length bytes.now ≡ 56 * count }
    ensures value { map_ok (λ _. bodies_in (block_length cipher) (entries_in entries.new)) result ≡ bodies_from (block_length cipher) [] count bytes.now }
    ensures held { OnOk result (are_held (block_length cipher) (entries_in entries.new) ≡ true) }
{
    let mut blocks = 0;
    let (chunks, _) = bytes.as_chunks::<ENTRY>();
    for (i, chunk) in chunks.iter().enumerate() {
        // no `ok_or(..)?`: the proof with it did not close
        let Some((entry, total)) = read_next(cipher, entries.as_slice(), blocks, chunk) else {
            return Err(ContentsFault::Entry { number: i + 1 });
        };
        entries.push(entry);
        blocks = total;
    }
    Ok(())
}

// What contents with this header say.
fn read_framed(
    edition: u8,
    n: u8,
    count: u8,
    m: u8,
    entries: &[u8],
) -> Result<Contents, ContentsFault>
    ensures { map_ok said_by result ≡ framed edition count (cipher_with n) (with_bytes m) entries.now }
{
    let cipher = CipherKind::try_from(usize::from(n))?;
    let tag_block = BlockLength::try_from(usize::from(m))?;
    let count = usize::from(count);
    if !is_frame(edition, count, entries.len()) {
        return Err(ContentsFault::Header);
    }
    let mut rows = Entries::new();
    read_entries(cipher, count, entries, &mut rows)?;
    Ok(Contents {
        cipher,
        tag_block,
        entries: rows,
    })
}

// What contents say, or the place at which they show that no sheet that passes has them.
pub fn read_contents(contents: &[u8]) -> Result<Contents, ContentsFault>
    ensures answer { map_ok said_by result ≡ contents_read contents.now }
    ensures law { ReadLaw contents.now (map_ok said_by result) }
    ensures bytes { IfOk result (λ c. bytes_of c ≡ contents.now) }
{
    let [edition, n, count, m, entries @ ..] = contents else {
        return Err(ContentsFault::Header);
    };
    read_framed(*edition, *n, *count, *m, entries)
}
