// The entries of contents.
ghost use Rattle.std.specs.Prelude.{◌≡◌, ◌<◌, ◌≤◌, [], ◌∷◌, ◌++◌, length};

use super::entry::Entry;
use sheet_format::{MAX_BODIES, Mode};

// Up to 32 entries: in place, since the core allocates nothing.
#[derive(Clone, Copy)]
pub struct Entries {
    rows: [Entry; MAX_BODIES],
    count: usize,
    ghost within: { count ≤ 32 },
}

impl Entries {
    ghost use Rattle.contents.specs.Entries.{entries_in};

    // None.
    pub fn new() -> Entries
        ensures { entries_in result ≡ [] }
    {
        let none = Entry {
            mode: Mode::Ctr,
            length: 0,
            start: [0; 16],
            name_length: 0,
            name: [0; 32],
        };
        Entries {
            rows: [none; MAX_BODIES],
            count: 0,
        }
    }

    pub fn as_slice(&self) -> &[Entry]
        ensures { result.now ≡ entries_in self.now }
    {
        &self.rows[..self.count]
    }

    // Puts one more behind the others.
    pub fn push(&mut self, entry: Entry)
        requires { length (entries_in self.old) < 32 }
        ensures { entries_in self.new ≡ entries_in self.old ++ entry ∷ [] }
    {
        self.rows[self.count] = entry;
        self.count += 1;
    }
}
