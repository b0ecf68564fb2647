// Sealed bytes, with the MAC of them as they come.
ghost use Rattle.std.specs.Prelude.{◌≡◌, ℕ, ◌-◌, List, [], ◌++◌, OnOk};
ghost use Rattle.block.specs.Blocks.{Lawful, Meaning, Same};
ghost use Rattle.modes_spec.specs.Mac.{mac};
ghost use Rattle.modes_spec.specs.Texts.{zeros};
ghost use Rattle.mode_tests.specs.Runs.{TaggedAt, TaggedWith};

use block::BlockCipher;
use modes::mac::Mac;
use std::alloc::{AllocError, Global};

// What is sealed so far.
#[derive(Drop)]
pub struct Tagged {
    bytes: Vec<u8>,
    mac: Mac,
}

// What is sealed, and its tag: n bytes, and zeros behind them.
#[derive(Drop)]
pub struct Sealed {
    pub bytes: Vec<u8>,
    pub tag: [u8; 16],
}

impl Tagged {
    // Nothing.
    pub fn new(heap: Global) -> Tagged
        ensures { (m : Meaning) → Lawful m → TaggedAt m [] result }
    {
        Tagged {
            bytes: Vec::new(heap),
            mac: Mac::new(),
        }
    }

    // Puts bytes behind the others.
    pub fn push<T: BlockCipher>(
        &mut self,
        tag_cipher: &mut T,
        piece: &[u8],
    ) -> Result<(), AllocError>
        ensures pushed { OnOk result ((m : Meaning) (bytes : List ℕ) → Same m (T.BlockCipher.meaning tag_cipher.old) → TaggedAt m bytes self.old → TaggedAt m (bytes ++ piece.now) self.new) }
        ensures same { Same (T.BlockCipher.meaning tag_cipher.old) (T.BlockCipher.meaning tag_cipher.new) }
    {
        self.mac.absorb(tag_cipher, piece);
        self.bytes.extend_from_slice(piece)?;
        Ok(())
    }

    // All of it, with the tag.
    pub fn finish<T: BlockCipher>(self, tag_cipher: &mut T) -> Sealed
        ensures finished { (m : Meaning) (bytes : List ℕ) → Same m (T.BlockCipher.meaning tag_cipher.old) → TaggedAt m bytes self → TaggedWith m bytes result }
        ensures same { Same (T.BlockCipher.meaning tag_cipher.old) (T.BlockCipher.meaning tag_cipher.new) }
    {
        let Tagged { bytes, mac } = self;
        let tag = mac.finish(tag_cipher);
        Sealed { bytes, tag }
    }
}
