// The MAC of a whole block, fed in pieces.
ghost use Rattle.std.specs.Prelude.{◌≡◌, ℕ, ◌+◌, ◌-◌, ◌<◌, ◌≤◌, List, [], ◌++◌, length, if◌then◌else◌};
ghost use Rattle.block.specs.Blocks.{Meaning, Same};
ghost use Rattle.modes_spec.specs.Mac.{constant_b, doubled, subkey1, subkey2};
ghost use Rattle.modes_spec.specs.Texts.{zeros};
ghost use Rattle.modes.specs.MacState.{AbsorbedMac, BegunMac, FinishedMac};

use crate::blocks::encipher;
use crate::bytes::{are_bytes, join_front};
use crate::chain::Chain;
use block::{BlockCipher, block_length};

// The constant B.
fn constant_b(n: usize) -> u8
    ensures { result ≡ constant_b n }
{
    if n == 8 { 0x1b } else { 0x87 }
}

// Shifts a block left by one bit, and joins B to it if the bit that falls off was set.
fn double(block: &mut [u8])
    requires { 0 < length block.old }
    ensures { block.new ≡ doubled (length block.old) block.old }
{
    let n = block.len();
    let high = block[0] >= 128;
    // by index: a byte takes a bit of the next one, and a proof does not see what `iter_mut().rev()` writes
    for i in 0..n - 1 {
        block[i] = (block[i] % 128) * 2 + block[i + 1] / 128;
    }
    block[n - 1] = (block[n - 1] % 128) * 2;
    if high {
        block[n - 1] ^= constant_b(n);
    }
}

// Puts K1 for a text that ends on a whole block, else K2, over a block.
fn write_subkey<C: BlockCipher>(cipher: &mut C, whole: bool, block: &mut [u8])
    requires { length block.old ≡ (C.BlockCipher.meaning cipher.old).size }
    ensures made { block.new ≡ (if whole then subkey1 (C.BlockCipher.meaning cipher.old) else subkey2 (C.BlockCipher.meaning cipher.old)) }
    ensures same { Same (C.BlockCipher.meaning cipher.old) (C.BlockCipher.meaning cipher.new) }
{
    block.fill(0);
    encipher(cipher, block);
    double(block);
    if !whole {
        double(block);
    }
}

// The same subkey, with zeros behind it.
fn subkey<C: BlockCipher>(cipher: &mut C, whole: bool) -> [u8; 16]
    ensures made { result ≡ (if whole then subkey1 (C.BlockCipher.meaning cipher.old) else subkey2 (C.BlockCipher.meaning cipher.old)) ++ zeros (16 - (C.BlockCipher.meaning cipher.old).size) }
    ensures same { Same (C.BlockCipher.meaning cipher.old) (C.BlockCipher.meaning cipher.new) }
{
    let n = block_length(cipher);
    let mut key = [0u8; 16];
    write_subkey(cipher, whole, &mut key[0..n]);
    key
}

// The MAC of a text so far. The last block is held back, since it is treated in a way of its own.
#[derive(Clone, Copy)]
pub struct Mac {
    chain: Chain,
}

impl Mac {
    // The MAC of a text of which nothing is there yet.
    pub fn new() -> Mac
        ensures { BegunMac result }
    {
        Mac {
            chain: Chain {
                register: [0; 16],
                filled: 0,
            },
        }
    }

    // Takes the next bytes of the text in.
    pub fn absorb<C: BlockCipher>(&mut self, cipher: &mut C, piece: &[u8])
        ensures absorbed { AbsorbedMac (C.BlockCipher.meaning cipher.old) self.old piece.now self.new }
        ensures same { Same (C.BlockCipher.meaning cipher.old) (C.BlockCipher.meaning cipher.new) }
    {
        are_bytes(piece);
        let n = block_length(cipher);
        let mut rest = piece;
        while !rest.is_empty() {
            if self.chain.filled >= n {
                self.chain.advance(cipher);
            }
            let run = self.chain.join(n, rest);
            rest = &rest[run..];
        }
    }

    // The MAC of the whole text: n bytes, and zeros behind them.
    pub fn finish<C: BlockCipher>(self, cipher: &mut C) -> [u8; 16]
        ensures mac { FinishedMac (C.BlockCipher.meaning cipher.old) self result }
        ensures same { Same (C.BlockCipher.meaning cipher.old) (C.BlockCipher.meaning cipher.new) }
    {
        let n = block_length(cipher);
        let mut chain = self.chain;
        let whole = chain.filled >= n;
        if !whole {
            chain.register[chain.filled] ^= 0x80;
        }
        let key = subkey(cipher, whole);
        join_front(&mut chain.register, &key);
        chain.advance(cipher);
        let mut tag = [0u8; 16];
        tag[0..n].copy_from_slice(&chain.register[0..n]);
        tag
    }
}
