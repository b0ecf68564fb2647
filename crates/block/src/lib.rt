// What a block cipher is, and the text of a key.
#![tactic(auto)]

ghost use Rattle.std.specs.Prelude.{◌≡◌, ℕ, ◌+◌, ◌/◌, ◌≤◌, List, length, replicate};
ghost use Rattle.block.specs.Blocks.{Lawful, Meaning, Same, block_after, block_answer};
ghost use Rattle.block.specs.Keys.{code_of, key_of};
ghost use Rattle.block.specs.declared.BlockFault.TheVariants.{KeyText};

use fault::FaultCode;
use hex_digits::{NotHex, hex_byte};

// Why a block or a key text is refused.
#[derive(Clone, Copy, PartialEq, Eq, Debug)]
pub enum BlockFault {
    // a block is not n bytes
    BlockLength,
    // a key text is not 64 digits 0-9 a-f
    KeyText,
}

// Layer, number and place.
impl From<BlockFault> for FaultCode {
    ghost from_gives = { λ f r. r ≡ code_of f };

    fn from(fault: BlockFault) -> FaultCode {
        let number = match fault {
            BlockFault::BlockLength => 18,
            BlockFault::KeyText => 19,
        };
        FaultCode {
            layer: 1,
            number,
            place: 0,
        }
    }
}

// A block cipher, prepared with its key. Its meaning is the block length n, and E and D on blocks of n bytes.
pub trait BlockCipher {
    // the block length n, in bytes
    const N: usize;

    // the key as this cipher keeps it for its rounds
    type PreparedKey;

    ghost meaning: { Self → Meaning };

    // n, at run time
    fn block_length(&self) -> usize
        ensures { result ≡ (meaning self.now).size };

    // Replaces a block by its E.
    fn encipher(&mut self, block: &mut [u8]) -> Result<(), BlockFault>
        ensures answer { result ≡ block_answer (meaning self.old).size (length block.old) }
        ensures after { block.new ≡ block_after (meaning self.old).size (meaning self.old).forward block.old }
        ensures same { Same (meaning self.old) (meaning self.new) };

    // Replaces a block by its D.
    fn decipher(&mut self, block: &mut [u8]) -> Result<(), BlockFault>
        ensures answer { result ≡ block_answer (meaning self.old).size (length block.old) }
        ensures after { block.new ≡ block_after (meaning self.old).size (meaning self.old).inverse block.old }
        ensures same { Same (meaning self.old) (meaning self.new) };

    ghost lawful: { (c : Self) → Lawful (meaning c) };
}

// The block length n, with what the law of block ciphers says of it.
pub fn block_length<C: BlockCipher>(cipher: &C) -> usize
    ensures value { result ≡ (C.BlockCipher.meaning cipher.now).size }
    ensures low { 8 ≤ result }
    ensures high { result ≤ 16 }
    ensures even { result / 2 + result / 2 ≡ result }
{
    cipher.block_length()
}

// Clears the key text that it holds when it ends.
struct ClearText<'a>(&'a mut [u8]);

impl Drop for ClearText<'_> {
    fn drop(self)
        ensures { self.exit.0.now ≡ replicate (length self.entry.0.now) 0 }
    {
        self.0.fill(0);
        let ClearText(_) = self;
    }
}

// A text that is no key.
impl From<NotHex> for BlockFault {
    ghost from_gives = { λ _ r. r ≡ KeyText };

    fn from(_text: NotHex) -> BlockFault {
        BlockFault::KeyText
    }
}

fn key_bytes(text: &[u8]) -> Result<[u8; 32], BlockFault>
    ensures { result ≡ key_of text.now }
{
    if text.len() != 64 {
        return Err(BlockFault::KeyText);
    }
    // in one pass, where `read_hex` looks at all digits before it writes: the array is this call's own
    let mut key = [0u8; 32];
    let mut rest = text;
    for b in key.iter_mut() {
        if let [high, low, tail @ ..] = rest {
            *b = hex_byte(*high, *low).ok_or(NotHex)?;
            rest = tail;
        }
    }
    Ok(key)
}

// The 32 bytes that a key text of 64 digits means. The text is all zeros afterwards, also if it is refused.
pub fn read_key(text: &mut [u8]) -> Result<[u8; 32], BlockFault>
    ensures value { result ≡ key_of text.old }
    ensures cleared { text.new ≡ replicate (length text.old) 0 }
{
    let guard = ClearText(text);
    key_bytes(&*guard.0)
}
