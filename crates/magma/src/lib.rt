// The block cipher Magma.
#![tactic(auto)]

pub mod tables;

ghost use Rattle.std.specs.Prelude.{◌≡◌, ℕ, ◌+◌, ◌<◌, ◌≤◌, List, length, slice_index};
ghost use Rattle.block.specs.Blocks.{Same};
ghost use Rattle.magma.specs.Magma.{composed, deciphered, enciphered, halves, joined_halves, key_words, last_g, magma, round_g, round_key_at, round_keys, word_at};
ghost use Rattle.magma.specs.Prepared.{meaning_of};
ghost use Rattle.magma.specs.Theorems.{MagmaLaws};
ghost use Rattle.magma.specs.Laws;

use crate::tables::round_function;
use block::{BlockCipher, BlockFault};
use std::array::from_fn;

// The prepared key: the key's eight words in order.
#[derive(Drop)]
pub struct MagmaKey {
    words: [u32; 8],
}

// Magma, prepared with a key.
#[derive(Drop)]
pub struct Magma {
    key: MagmaKey,
}

// The word at place i, its highest byte first.
fn word_at(bytes: &[u8], i: usize) -> u32
    requires { i + 4 ≤ length bytes.now }
    ensures { result ≡ word_at bytes.now i }
{
    u32::from_be_bytes([bytes[i], bytes[i + 1], bytes[i + 2], bytes[i + 3]])
}

// The key of round i + 1: the words in order three times, then reversed.
fn round_key(words: &[u32; 8], i: usize) -> u32
    requires { i < 32 }
    ensures { result ≡ slice_index (round_keys words.now) i }
{
    if i < 24 { words[i % 8] } else { words[31 - i] }
}

// The words a1 and a0 of a block.
fn halves(block: [u8; 8]) -> (u32, u32)
    ensures { (result.0, result.1) ≡ halves block }
{
    let [a, b, c, d, e, f, g, h] = block;
    (
        u32::from_be_bytes([a, b, c, d]),
        u32::from_be_bytes([e, f, g, h]),
    )
}

// The block of the words a1 and a0.
fn joined_halves(a1: u32, a0: u32) -> [u8; 8]
    ensures { result ≡ joined_halves (a1, a0) }
{
    let [a, b, c, d] = a1.to_be_bytes();
    let [e, f, g, h] = a0.to_be_bytes();
    [a, b, c, d, e, f, g, h]
}

// G[k], one round, on the words a1 and a0, as the standard writes them: two words beside each other are no more than a struct of
// them would be.
pub fn round(k: u32, a1: u32, a0: u32) -> (u32, u32)
    ensures { (result.0, result.1) ≡ round_g k (a1, a0) }
{
    (a0, round_function(k, a0) ^ a1)
}

// The last round, which does not exchange the words.
pub fn last_round(k: u32, a1: u32, a0: u32) -> (u32, u32)
    ensures { (result.0, result.1) ≡ last_g k (a1, a0) }
{
    (round_function(k, a0) ^ a1, a0)
}

// G with each round key but the last, and G* with the last. key_at(i) is the key of round i + 1.
fn composed<F: Fn(usize) -> u32>(key_at: F, block: [u8; 8]) -> [u8; 8]
    requires { (i : ℕ) → i < 32 → F.pre key_at i }
    ensures { (ks : List ℕ) → length ks ≡ 32 → ((i k : ℕ) → i < 32 → F.post key_at i k → k ≡ slice_index ks i) → result ≡ joined_halves (composed ks (halves block)) }
{
    let (mut a1, mut a0) = halves(block);
    // i is what the key is asked for
    for i in 0..31 {
        (a1, a0) = round(key_at(i), a1, a0);
    }
    let (a1, a0) = last_round(key_at(31), a1, a0);
    joined_halves(a1, a0)
}

// E.
fn forward(words: &[u32; 8], block: [u8; 8]) -> [u8; 8]
    ensures { result ≡ enciphered words.now block }
{
    composed(|i| round_key(words, i), block)
}

// D: E with the round keys reversed.
fn inverse(words: &[u32; 8], block: [u8; 8]) -> [u8; 8]
    ensures { result ≡ deciphered words.now block }
{
    composed(|i| round_key(words, 31 - i), block)
}

impl Magma {
    // Prepares a key of 32 bytes.
    pub fn prepare(key: &[u8; 32]) -> Magma
        ensures { Same (meaning_of result) (magma key.now) }
    {
        let words = key_words(key);
        Magma {
            key: MagmaKey { words },
        }
    }
}

// The key's eight words.
fn key_words(key: &[u8; 32]) -> [u32; 8]
    ensures { result ≡ key_words key.now }
{
    from_fn(|i| word_at(key, 4 * i))
}

// The key of round i + 1 under a key of 32 bytes, for i below 32.
pub fn round_key_of(key: &[u8; 32], i: usize) -> Option<u32>
    ensures { result ≡ round_key_at key.now i }
{
    if i < 32 {
        Some(round_key(&key_words(key), i))
    } else {
        None
    }
}

impl BlockCipher for Magma {
    const N: usize = 8;

    type PreparedKey = MagmaKey;

    ghost meaning = { meaning_of };

    ghost lawful = { λ c. Laws.lawful c.key.words };

    fn block_length(&self) -> usize {
        Self::N
    }

    fn encipher(&mut self, block: &mut [u8]) -> Result<(), BlockFault> {
        let a = block.as_mut_array().ok_or(BlockFault::BlockLength)?;
        *a = forward(&self.key.words, *a);
        Ok(())
    }

    fn decipher(&mut self, block: &mut [u8]) -> Result<(), BlockFault> {
        let a = block.as_mut_array().ok_or(BlockFault::BlockLength)?;
        *a = inverse(&self.key.words, *a);
        Ok(())
    }
}

// Under every key Magma is a lawful block cipher.
pub fn magma_is_lawful()
    ensures { MagmaLaws }
{}
