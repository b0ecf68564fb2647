// A cipher on one test vector, both ways.
ghost use Rattle.std.specs.Prelude.{◌≡◌, ◌↔◌, true, IfOk, Ok};
ghost use Rattle.cipher_tests.specs.Agreement.{Confirms};

use super::table::Vector;
use block::{BlockCipher, BlockFault};
use std::alloc::Global;
use test_digits::bytes_of;

// Which ways a cipher agrees with a vector.
#[derive(Clone, Copy)]
pub struct Trial {
    pub enciphers: bool,
    pub deciphers: bool,
}

// Whether a call was not refused and left the block as it should be.
fn is_made(answer: Result<(), BlockFault>, block: &[u8], expected: &[u8]) -> bool
    ensures { result ≡ true ↔ (answer ≡ Ok tt) × (block.now ≡ expected.now) }
{
    answer.is_ok() && *block == *expected
}

pub fn both_ways<C: BlockCipher>(
    heap: Global,
    cipher: &mut C,
    vector: Vector<'_>,
) -> anyhow::Result<Trial>
    ensures { IfOk result (λ t. Confirms t (C.BlockCipher.meaning cipher.old) vector.entry) }
{
    let plain = bytes_of(heap, vector.plain)?;
    let mut ciphertext = bytes_of(heap, vector.ciphertext)?;
    let mut forward = Vec::from_slice(heap, plain.as_slice())?;
    let block = forward.as_mut_slice();
    let answer = cipher.encipher(block);
    let enciphers = is_made(answer, block, ciphertext.as_slice());
    let block = ciphertext.as_mut_slice();
    let answer = cipher.decipher(block);
    let deciphers = is_made(answer, block, plain.as_slice());
    Ok(Trial {
        enciphers,
        deciphers,
    })
}
