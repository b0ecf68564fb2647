// Contents, written.
ghost use Rattle.std.specs.Prelude.{◌≡◌, ℕ, ◌+◌, ◌*◌, ◌≤◌, [], ◌∷◌, ◌++◌, length, length as list_length, Ok};
ghost use Rattle.std.specs.Option.{option_map};
ghost use Rattle.sheet_format.specs.Sizes.{block_length};
ghost use Rattle.contents_format.specs.Layout.{entry_of, header_of};
ghost use Rattle.contents_format.specs.Reading.{contents_read};
ghost use Rattle.contents_laws.specs.Belonging.{FromSheet};
ghost use Rattle.contents.specs.Entries.{body_in};
ghost use Rattle.contents.specs.Models.{body_at, bytes_of, said_by, written, written_length};

use super::Contents;
use super::entry::{ENTRY, Entry};

const EDITION: u8 = 1;

const HEADER: usize = 4;

impl Contents {
    // The entry of the body with that number, from 0.
    pub fn entry(&self, number: usize) -> Option<Entry>
        ensures { option_map (body_in (block_length self.now.cipher)) result ≡ body_at self.now number }
    {
        self.entries.as_slice().get(number).copied()
    }

    // The bytes of that entry.
    pub fn entry_bytes(&self, number: usize) -> Option<[u8; 56]>
        ensures { result ≡ option_map entry_of (body_at self.now number) }
    {
        let entry = self.entries.as_slice().get(number)?;
        Some(entry.bytes())
    }

    // The four bytes in front of the entries.
    pub fn header(&self) -> [u8; 4]
        ensures { result ≡ header_of (said_by self.now).order (said_by self.now).tag }
    {
        [
            EDITION,
            self.cipher.block_length() as u8,
            self.bodies() as u8,
            self.tag_block.bytes() as u8,
        ]
    }

    // How many bytes contents have.
    pub fn length(&self) -> usize
        ensures value { result ≡ list_length (bytes_of self.now) }
        ensures entries { result ≡ 4 + 56 * list_length (said_by self.now).order.bodies }
    {
        HEADER + ENTRY * self.bodies()
    }

    // Writes contents to the front of an output, and answers how many bytes they are; `None` where the output is too short,
    // which is then unchanged.
    pub fn write(&self, out: &mut [u8]) -> Option<usize>
        ensures answer { result ≡ written_length (bytes_of self.now) (list_length out.old) }
        ensures output { out.new ≡ written (bytes_of self.now) out.old }
        ensures belongs { FromSheet (bytes_of self.now) (said_by self.now) }
        ensures read { contents_read (bytes_of self.now) ≡ Ok (said_by self.now) }
    {
        let length = self.length();
        if out.len() < length {
            return None;
        }
        let header = self.header();
        out[..HEADER].copy_from_slice(&header);
        for (i, entry) in self.entries.as_slice().iter().enumerate() {
            let at = HEADER + ENTRY * i;
            out[at..at + ENTRY].copy_from_slice(&entry.bytes());
        }
        Some(length)
    }
}
