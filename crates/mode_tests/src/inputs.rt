// The bytes that a vector is written in.
ghost use Rattle.std.specs.Prelude.{◌≡◌, IfOk};
ghost use Rattle.hex_digits.specs.Hex.{hex_bytes};
ghost use Rattle.mode_tests.specs.Agreement.{MacInputOf, SealedInputOf, padded};

use super::table::{MacVector, SealedVector};
use anyhow::anyhow;
use std::alloc::Global;
use test_digits::bytes_of;

// START and the tag have zeros behind them.
#[derive(Drop)]
pub struct SealedInput {
    pub start: [u8; 16],
    pub cutting: Vec<u8>,
    pub other_cutting: Vec<u8>,
    pub text: Vec<u8>,
    pub sealed: Vec<u8>,
    pub tag: [u8; 16],
}

// The MAC has zeros behind it.
#[derive(Drop)]
pub struct MacInput {
    pub cutting: Vec<u8>,
    pub other_cutting: Vec<u8>,
    pub text: Vec<u8>,
    pub mac: [u8; 16],
}

// The bytes that a word means; `-` stands for none.
fn word_bytes(heap: Global, word: &str) -> anyhow::Result<Vec<u8>>
    ensures { IfOk result (λ v. v.items ≡ hex_bytes word.now) }
{
    if let [b'-'] = word.as_bytes() {
        return Ok(Vec::new(heap));
    }
    bytes_of(heap, word)
}

// At most sixteen bytes, with zeros behind them.
fn block_of(heap: Global, word: &str) -> anyhow::Result<[u8; 16]>
    ensures { IfOk result (λ b. b ≡ padded (hex_bytes word.now)) }
{
    let bytes = word_bytes(heap, word)?;
    let count = bytes.len();
    if count > 16 {
        return Err(anyhow!("more bytes than a block has"));
    }
    let mut block = [0u8; 16];
    block[0..count].copy_from_slice(bytes.as_slice());
    Ok(block)
}

pub fn sealed_input(heap: Global, vector: SealedVector<'_>) -> anyhow::Result<SealedInput>
    ensures { IfOk result (SealedInputOf vector.entry) }
{
    let start = block_of(heap, vector.start)?;
    let cutting = word_bytes(heap, vector.cutting)?;
    let other_cutting = word_bytes(heap, vector.other_cutting)?;
    let text = word_bytes(heap, vector.text)?;
    let sealed = word_bytes(heap, vector.sealed)?;
    let tag = block_of(heap, vector.tag)?;
    Ok(SealedInput {
        start,
        cutting,
        other_cutting,
        text,
        sealed,
        tag,
    })
}

pub fn mac_input(heap: Global, vector: MacVector<'_>) -> anyhow::Result<MacInput>
    ensures { IfOk result (MacInputOf vector.entry) }
{
    let cutting = word_bytes(heap, vector.cutting)?;
    let other_cutting = word_bytes(heap, vector.other_cutting)?;
    let text = word_bytes(heap, vector.text)?;
    let mac = block_of(heap, vector.mac)?;
    Ok(MacInput {
        cutting,
        other_cutting,
        text,
        mac,
    })
}
