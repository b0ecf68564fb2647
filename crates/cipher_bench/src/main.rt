// Measures the block ciphers: `cipher_bench MEGABYTES` prints how many megabytes a second each of them enciphers and deciphers.
// With no argument it says so, and measures nothing.
#![tactic(auto)]

ghost use Rattle.std.specs.Prelude.{◌≡◌, ◌<◌, ◌^◌, length, IsOk, IsErr};
ghost use Rattle.block.specs.Blocks.{Same, block_after, block_answer};
ghost use Rattle.cipher_bench.specs.Ways.{way_of};

use anyhow::anyhow;
use bench_speed::{Turn, measure, turns_of};
use block::{BlockCipher, BlockFault};
use kuznyechik::Kuznyechik;
use kuznyechik_tables::KuznyechikTables;
use magma::Magma;
use std::env;

// Which of the two functions of a cipher is measured. Two impls of `Turn` in its place are no plainer: each would have the walk over
// the blocks.
#[derive(Clone, Copy)]
enum Way {
    Encipher,
    Decipher,
}

// One block, replaced by its E or D.
fn replace<C: BlockCipher>(cipher: &mut C, way: Way, block: &mut [u8]) -> Result<(), BlockFault>
    ensures answer { result ≡ block_answer (C.BlockCipher.meaning cipher.old).size (length block.old) }
    ensures after { block.new ≡ block_after (C.BlockCipher.meaning cipher.old).size (way_of way (C.BlockCipher.meaning cipher.old)) block.old }
    ensures same { Same (C.BlockCipher.meaning cipher.old) (C.BlockCipher.meaning cipher.new) }
{
    match way {
        Way::Encipher => cipher.encipher(block),
        Way::Decipher => cipher.decipher(block),
    }
}

// Blocks of N bytes that lie one behind the other. They are refused exactly if the cipher's block length is another.
fn replace_all<C: BlockCipher, const N: usize>(
    cipher: &mut C,
    way: Way,
    blocks: &mut [[u8; N]],
) -> Result<(), BlockFault>
    ensures refused { IsErr result → ((C.BlockCipher.meaning cipher.old).size ≡ N → ⊥) }
    ensures run { IsOk result → 0 < length blocks.old → (C.BlockCipher.meaning cipher.old).size ≡ N }
    ensures same { Same (C.BlockCipher.meaning cipher.old) (C.BlockCipher.meaning cipher.new) }
{
    for block in blocks.iter_mut() {
        replace(cipher, way, block)?;
    }
    Ok(())
}

// A turn goes over all its blocks.
#[derive(Drop)]
struct Blocks<'a, const N: usize> {
    way: Way,
    blocks: &'a mut [[u8; N]],
    ghost fits: { N < 2 ^ 63 },
}

impl<C: BlockCipher, const N: usize> Turn<C> for Blocks<'_, N> {
    fn turn(&mut self, cipher: &mut C) -> anyhow::Result<()>
        ensures refused { IsErr result → ((C.BlockCipher.meaning cipher.old).size ≡ N → ⊥) }
        ensures run { IsOk result → 0 < length self.old.blocks.now → (C.BlockCipher.meaning cipher.old).size ≡ N }
        ensures same { Same (C.BlockCipher.meaning cipher.old) (C.BlockCipher.meaning cipher.new) }
    {
        replace_all(cipher, self.way, &mut *self.blocks).map_err(|_| anyhow!("a block was refused"))
    }
}

// Both ways of a cipher over the blocks, turn after turn. It means the same afterwards.
fn run_cipher<C: BlockCipher, const N: usize>(
    rt: &HostRuntime,
    name: &str,
    cipher: &mut C,
    turns: u64,
    blocks: &mut [[u8; N]],
) -> anyhow::Result<()>
    requires { N < 2 ^ 63 }
    ensures { Same (C.BlockCipher.meaning cipher.old) (C.BlockCipher.meaning cipher.new) }
{
    let mut turn = Blocks {
        way: Way::Encipher,
        blocks,
    };
    let forward = measure(rt, cipher, turns, &mut turn)?;
    turn.way = Way::Decipher;
    let inverse = measure(rt, cipher, turns, &mut turn)?;
    println!(rt; "{name} {forward} {inverse}")?;
    Ok(())
}

fn run(rt: &HostRuntime, megabytes: u64) -> anyhow::Result<()> {
    let key = [0x5au8; 32];
    let turns = turns_of(megabytes);
    let mut long = [[0u8; 16]; 256];
    let mut short = [[0u8; 8]; 512];
    let mut tables = KuznyechikTables::prepare(&key);
    run_cipher(rt, "kuznyechik-tables", &mut tables, turns, &mut long)?;
    run_cipher(rt, "magma", &mut Magma::prepare(&key), turns, &mut short)?;
    run_cipher(
        rt,
        "kuznyechik",
        &mut Kuznyechik::prepare(&key),
        turns / 64,
        &mut long,
    )
}

fn main(rt: HostRuntime) -> anyhow::Result<()> {
    let mut args = env::args(&rt)?;
    let _program = args.next();
    match args.next() {
        Some(word) => run(&rt, word.as_str().parse::<u64>()?),
        None => {
            println!(rt; "cipher_bench MEGABYTES")?;
            Ok(())
        }
    }
}
