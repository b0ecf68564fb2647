// The block cipher Kuznyechik by two tables: the same E and D as the plain one, faster.
#![tactic(auto)]

ghost use Rattle.std.specs.Prelude.{map, ◌≡◌};
ghost use Rattle.block.specs.Blocks.{Same};
ghost use Rattle.kuznyechik_spec.specs.Kuznyechik.{block_of, decipher, encipher, kuznyechik};
ghost use Rattle.kuznyechik_tables.specs.Meanings.{meaning_of};
ghost use Rattle.kuznyechik_spec.proofs.Lawful.{lawful-blocks};
ghost use Rattle.kuznyechik_spec.proofs.Words.{are-blocks};

use block::{BlockCipher, BlockFault};
use kuznyechik::key_schedule;
use tables::{inverse_round, lsx, to_block, to_number};

mod tables;

// E. The block is held as its number through the rounds.
fn encipher_block(keys: &[u128; 10], a: [u8; 16]) -> [u8; 16]
    ensures { result ≡ encipher (map block_of keys.now) a }
{
    let b = keys.iter().take(9).fold(to_number(a), |b, k| lsx(b, *k));
    to_block(b ^ keys[9])
}

// D.
fn decipher_block(keys: &[u128; 10], a: [u8; 16]) -> [u8; 16]
    ensures { result ≡ decipher (map block_of keys.now) a }
{
    let b = to_number(a) ^ keys[9];
    let rounds = keys[..9].iter().rev();
    to_block(rounds.fold(b, |b, k| inverse_round(b, *k)))
}

// Kuznyechik by tables, prepared with its key. The round keys are held as numbers.
#[derive(Drop)]
pub struct KuznyechikTables {
    keys: [u128; 10],
}

impl KuznyechikTables {
    // Prepares the cipher with a key of 32 bytes, the highest first.
    pub fn prepare(key: &[u8; 32]) -> KuznyechikTables
        ensures { Same (meaning_of result) (kuznyechik key.now) }
    {
        let rows = key_schedule(key);
        let keys = rows.map(to_number);
        KuznyechikTables { keys }
    }
}

impl BlockCipher for KuznyechikTables {
    const N: usize = 16;

    type PreparedKey = [u128; 10];

    ghost meaning = { meaning_of };

    ghost lawful = { λ c. lawful-blocks (map block_of c.keys) (are-blocks c.keys) };

    fn block_length(&self) -> usize {
        Self::N
    }

    fn encipher(&mut self, block: &mut [u8]) -> Result<(), BlockFault> {
        let a = block.as_mut_array().ok_or(BlockFault::BlockLength)?;
        *a = encipher_block(&self.keys, *a);
        Ok(())
    }

    fn decipher(&mut self, block: &mut [u8]) -> Result<(), BlockFault> {
        let a = block.as_mut_array().ok_or(BlockFault::BlockLength)?;
        *a = decipher_block(&self.keys, *a);
        Ok(())
    }
}
