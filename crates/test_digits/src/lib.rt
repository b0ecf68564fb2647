// Bytes and keys of test tables, which are written in hexadecimal digits.
#![tactic(auto)]

ghost use Rattle.std.specs.Prelude.{◌≡◌, IfOk};
ghost use Rattle.hex_digits.specs.Hex.{hex_bytes};

use anyhow::anyhow;
use hex_digits::hex_byte;
use std::alloc::Global;

// The bytes that pairs of digits mean.
pub fn bytes_of(heap: Global, digits: &str) -> anyhow::Result<Vec<u8>>
    ensures { IfOk result (λ v. v.items ≡ hex_bytes digits.now) }
{
    let mut bytes = Vec::new(heap);
    let mut rest = digits.as_bytes();
    while let [high, low, tail @ ..] = rest {
        // no `context(..)?`: it hands a whole error about for each byte
        let Some(byte) = hex_byte(*high, *low) else {
            return Err(anyhow!("a character that is no digit"));
        };
        bytes.push(byte)?;
        rest = tail;
    }
    if !rest.is_empty() {
        return Err(anyhow!("a digit stands alone"));
    }
    Ok(bytes)
}

// The key that 64 digits mean.
pub fn key_of(heap: Global, digits: &str) -> anyhow::Result<[u8; 32]>
    ensures { IfOk result (λ key. key ≡ hex_bytes digits.now) }
{
    let mut text = Vec::from_slice(heap, digits.as_bytes())?;
    block::read_key(text.as_mut_slice()).map_err(|_| anyhow!("a key that is not 64 digits"))
}
