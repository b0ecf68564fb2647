// The block cipher Kuznyechik, plain: each transformation of the standard is a function.
#![tactic(auto)]

ghost use Rattle.std.specs.Prelude.{◌≡◌};
ghost use Rattle.block.specs.Blocks.{Same};
ghost use Rattle.kuznyechik_spec.specs.Kuznyechik.{kuznyechik};
ghost use Rattle.kuznyechik.specs.Meanings.{meaning_of};
ghost use Rattle.kuznyechik_spec.proofs.KeyBlocks.{blocks_from};
ghost use Rattle.kuznyechik_spec.proofs.Lawful.{lawful-blocks};

use block::{BlockCipher, BlockFault};
use keys::{decipher_block, encipher_block, round_keys};

mod keys;
mod transformations;

pub use keys::{Halves, RoundKeys, feistel_round, iteration_constant, key_schedule};
pub use transformations::{
    add_key, inverse_l, inverse_s, lsx, substitution_inverse, transform_l, transform_r, transform_s,
};

// Kuznyechik, prepared with its key.
#[derive(Drop)]
pub struct Kuznyechik {
    keys: RoundKeys,
}

impl Kuznyechik {
    pub fn prepare(key: &[u8; 32]) -> Kuznyechik
        ensures { Same (meaning_of result) (kuznyechik key.now) }
    {
        let keys = round_keys(key);
        Kuznyechik { keys }
    }
}

impl BlockCipher for Kuznyechik {
    const N: usize = 16;

    type PreparedKey = RoundKeys;

    ghost meaning = { meaning_of };

    ghost lawful = { λ c. lawful-blocks c.keys.keys (blocks_from c.keys.keys c.keys.ok) };

    fn block_length(&self) -> usize {
        Self::N
    }

    fn encipher(&mut self, block: &mut [u8]) -> Result<(), BlockFault> {
        let a = block.as_mut_array().ok_or(BlockFault::BlockLength)?;
        *a = encipher_block(&self.keys, *a);
        Ok(())
    }

    fn decipher(&mut self, block: &mut [u8]) -> Result<(), BlockFault> {
        let a = block.as_mut_array().ok_or(BlockFault::BlockLength)?;
        *a = decipher_block(&self.keys, *a);
        Ok(())
    }
}
