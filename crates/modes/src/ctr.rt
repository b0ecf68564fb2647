// The counter mode, as a stream.
ghost use Rattle.std.specs.Prelude.{◌≡◌, ℕ, ◌+◌, ◌-◌, ◌/◌, ◌%◌, ◌^◌, ◌<◌, ◌≤◌, min, List, [], ◌++◌, length, take, drop};
ghost use Rattle.block.specs.Blocks.{Meaning, Lawful, Same};
ghost use Rattle.modes_spec.specs.Texts.{joined_front};
ghost use Rattle.modes_spec.specs.Ctr.{counter_block};
ghost use Rattle.modes.specs.CtrState.{BegunCtr, JoinedCtr};

use crate::blocks::encipher;
use crate::bytes::{are_bytes, join_front, write_number};
use block::{BlockCipher, block_length};

// A ctr stream at some place of its text: START, the number of the next counter block, the current block of the keystream
// and how much of it is used up; an array of the longest block, since nothing allocates.
#[derive(Clone, Copy)]
pub struct CtrStream {
    start: [u8; 16],
    next: u64,
    keystream: [u8; 16],
    used: usize,
}

// Puts E of a counter block into the front of `block`.
fn encipher_counter<C: BlockCipher>(cipher: &mut C, start: &[u8], number: u64, block: &mut [u8])
    requires begun { length start.now ≡ 16 }
    requires long { length block.old ≡ 16 }
    ensures made { take (C.BlockCipher.meaning cipher.old).size block.new ≡ (C.BlockCipher.meaning cipher.old).forward (counter_block (C.BlockCipher.meaning cipher.old).size (take ((C.BlockCipher.meaning cipher.old).size / 2) start.now) number) }
    ensures same { Same (C.BlockCipher.meaning cipher.old) (C.BlockCipher.meaning cipher.new) }
{
    let n = block_length(cipher);
    let half = n / 2;
    block[0..half].copy_from_slice(&start[0..half]);
    write_number(number, &mut block[half..n]);
    encipher(cipher, &mut block[0..n]);
}

impl CtrStream {
    // A stream at the beginning of its text. START is the first n/2 bytes.
    pub fn new(start: &[u8; 16]) -> CtrStream
        ensures { BegunCtr start.now result }
    {
        are_bytes(start);
        CtrStream {
            start: *start,
            next: 0,
            keystream: [0; 16],
            used: 16,
        }
    }

    // Makes the next block of the keystream.
    fn refill<C: BlockCipher>(&mut self, cipher: &mut C)
        ensures made { take (C.BlockCipher.meaning cipher.old).size self.new.keystream ≡ (C.BlockCipher.meaning cipher.old).forward (counter_block (C.BlockCipher.meaning cipher.old).size (take ((C.BlockCipher.meaning cipher.old).size / 2) self.old.start) self.old.next) }
        ensures kept { (self.new.start ≡ self.old.start) × (self.new.used ≡ 0) × (self.new.next ≡ (self.old.next + 1) % 2 ^ 64) }
        ensures long { length self.new.keystream ≡ 16 }
        ensures same { Same (C.BlockCipher.meaning cipher.old) (C.BlockCipher.meaning cipher.new) }
    {
        encipher_counter(cipher, &self.start, self.next, &mut self.keystream);
        self.next = self.next.wrapping_add(1);
        self.used = 0;
    }

    // Joins bytes with what is left of the current block of the keystream; answers how many.
    fn join_run(&mut self, n: usize, bytes: &mut [u8]) -> usize
        requires within { self.old.used ≤ n }
        requires short { n ≤ 16 }
        ensures count { result ≡ min (n - self.old.used) (length bytes.old) }
        ensures joined { bytes.new ≡ joined_front bytes.old (take result (drop self.old.used self.old.keystream)) }
        ensures kept { (self.new.start ≡ self.old.start) × (self.new.next ≡ self.old.next) × (self.new.keystream ≡ self.old.keystream) × (self.new.used ≡ self.old.used + result) }
    {
        let run = (n - self.used).min(bytes.len());
        join_front(bytes, &self.keystream[self.used..self.used + run]);
        self.used += run;
        run
    }

    // Enciphers or deciphers the next bytes of the text, in place.
    pub fn apply<C: BlockCipher>(&mut self, cipher: &mut C, bytes: &mut [u8])
        ensures joined { JoinedCtr (C.BlockCipher.meaning cipher.old) self.old bytes.old self.new bytes.new }
        ensures same { Same (C.BlockCipher.meaning cipher.old) (C.BlockCipher.meaning cipher.new) }
    {
        let n = block_length(cipher);
        // by place: of a rest that moves on, a proof does not see what was written in front of it
        let mut at = 0;
        while at < bytes.len() {
            if self.used >= n {
                self.refill(cipher);
            }
            at += self.join_run(n, &mut bytes[at..]);
        }
    }
}
