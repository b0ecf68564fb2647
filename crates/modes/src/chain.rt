// The chaining register of cbc and of the MAC.
ghost use Rattle.std.specs.Prelude.{◌≡◌, ℕ, ◌+◌, ◌-◌, ◌≤◌, min, ◌++◌, length, take, drop};
ghost use Rattle.block.specs.Blocks.{Same};
ghost use Rattle.modes_spec.specs.Texts.{joined_front};

use crate::blocks::encipher;
use crate::bytes::join_front;
use block::{BlockCipher, block_length};

// The register, to which the bytes of the current block are joined as they come, and how many of them there are. It is an array of
// the longest block: nothing allocates, and only the cipher knows n.
#[derive(Clone, Copy)]
pub struct Chain {
    pub register: [u8; 16],
    pub filled: usize,
}

impl Chain {
    // Joins the front of a piece, up to the end of the block; answers how many bytes. n is handed in, as the cipher says it at run
    // time: a type of its own for one bound would be no plainer.
    pub fn join(&mut self, n: usize, piece: &[u8]) -> usize
        requires within { self.old.filled ≤ n }
        requires short { n ≤ 16 }
        ensures count { result ≡ min (n - self.old.filled) (length piece.now) }
        ensures filled { self.new.filled ≡ self.old.filled + result }
        ensures joined { self.new.register ≡ take self.old.filled self.old.register ++ joined_front (drop self.old.filled self.old.register) (take result piece.now) }
    {
        let run = (n - self.filled).min(piece.len());
        let from = self.filled;
        join_front(&mut self.register[from..], &piece[0..run]);
        self.filled += run;
        run
    }

    // Replaces the register by its E; the next block begins.
    pub fn advance<C: BlockCipher>(&mut self, cipher: &mut C)
        ensures made { take (C.BlockCipher.meaning cipher.old).size self.new.register ≡ (C.BlockCipher.meaning cipher.old).forward (take (C.BlockCipher.meaning cipher.old).size self.old.register) }
        ensures long { length self.new.register ≡ 16 }
        ensures begun { self.new.filled ≡ 0 }
        ensures same { Same (C.BlockCipher.meaning cipher.old) (C.BlockCipher.meaning cipher.new) }
    {
        let n = block_length(cipher);
        encipher(cipher, &mut self.register[0..n]);
        self.filled = 0;
    }
}
