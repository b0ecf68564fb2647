// Measures the modes and the MAC: `mode_bench MEGABYTES` prints how many megabytes a second each of them goes over, in pieces of
// 4,096 bytes. With no argument it says so, and measures nothing.
#![tactic(auto)]

ghost use Rattle.block.specs.Blocks.{Same};

use anyhow::anyhow;
use bench_speed::{Turn, measure, speed, turns_of};
use block::BlockCipher;
use kuznyechik_tables::KuznyechikTables;
use magma::Magma;
use modes::cbc::CbcSealer;
use modes::ctr::CtrStream;
use modes::mac::Mac;
use modes::opening::CbcOpener;
use std::env;
use std::time::Instant;

const START: [u8; 16] = [0x5a; 16];

#[derive(Drop)]
struct Ctr<'a> {
    stream: CtrStream,
    piece: &'a mut [u8],
}

impl<C: BlockCipher> Turn<C> for Ctr<'_> {
    fn turn(&mut self, cipher: &mut C) -> anyhow::Result<()> {
        self.stream.apply(cipher, &mut *self.piece);
        Ok(())
    }
}

#[derive(Drop)]
struct CbcSealing<'a> {
    sealer: CbcSealer,
    piece: &'a [u8],
    out: &'a mut [u8],
}

impl<C: BlockCipher> Turn<C> for CbcSealing<'_> {
    fn turn(&mut self, cipher: &mut C) -> anyhow::Result<()> {
        self.sealer
            .feed(cipher, self.piece, &mut *self.out)
            .map_err(|_| anyhow!("cbc refuses a piece"))?;
        Ok(())
    }
}

#[derive(Drop)]
struct CbcOpening<'a> {
    opener: CbcOpener,
    piece: &'a [u8],
    out: &'a mut [u8],
}

impl<C: BlockCipher> Turn<C> for CbcOpening<'_> {
    fn turn(&mut self, cipher: &mut C) -> anyhow::Result<()> {
        self.opener
            .take(cipher, self.piece, &mut *self.out)
            .map_err(|_| anyhow!("cbc refuses a piece of a sealed text"))?;
        Ok(())
    }
}

#[derive(Drop)]
struct Tag<'a> {
    mac: Mac,
    piece: &'a [u8],
}

impl<C: BlockCipher> Turn<C> for Tag<'_> {
    fn turn(&mut self, cipher: &mut C) -> anyhow::Result<()> {
        self.mac.absorb(cipher, self.piece);
        Ok(())
    }
}

// ctr, and the MAC of what it makes, under another key. It is no `Turn`, since it promises the same of two ciphers.
fn measure_tagged_ctr<C: BlockCipher>(
    rt: &HostRuntime,
    cipher: &mut C,
    tag_cipher: &mut C,
    turns: u64,
    piece: &mut [u8],
) -> anyhow::Result<u128>
    ensures same { Same (C.BlockCipher.meaning cipher.old) (C.BlockCipher.meaning cipher.new) }
    ensures tag_same { Same (C.BlockCipher.meaning tag_cipher.old) (C.BlockCipher.meaning tag_cipher.new) }
{
    let mut stream = CtrStream::new(&START);
    let mut mac = Mac::new();
    let start = Instant::now(rt)?;
    for _ in 0..turns {
        stream.apply(cipher, piece);
        mac.absorb(tag_cipher, piece);
    }
    let nanoseconds = start.elapsed(rt)?.as_nanos();
    let _tag = mac.finish(tag_cipher);
    Ok(speed(turns, nanoseconds))
}

// ctr, cbc sealed and opened, the MAC, and ctr with the MAC. Both ciphers mean the same afterwards.
fn run_cipher<C: BlockCipher>(
    rt: &HostRuntime,
    name: &str,
    cipher: &mut C,
    tag_cipher: &mut C,
    turns: u64,
    piece: &mut [u8],
    out: &mut [u8],
) -> anyhow::Result<()>
    ensures same { Same (C.BlockCipher.meaning cipher.old) (C.BlockCipher.meaning cipher.new) }
    ensures tag_same { Same (C.BlockCipher.meaning tag_cipher.old) (C.BlockCipher.meaning tag_cipher.new) }
{
    let stream = CtrStream::new(&START);
    let mut turn = Ctr {
        stream,
        piece: &mut *piece,
    };
    let ctr = measure(rt, cipher, turns, &mut turn)?;
    println!(rt; "{name} ctr {ctr}")?;
    let sealer = CbcSealer::new(&START);
    let mut turn = CbcSealing {
        sealer,
        piece: &*piece,
        out: &mut *out,
    };
    let sealing = measure(rt, cipher, turns, &mut turn)?;
    println!(rt; "{name} cbc-seal {sealing}")?;
    let opener = CbcOpener::new(&START, u32::MAX);
    let mut turn = CbcOpening {
        opener,
        piece: &*piece,
        out,
    };
    let opening = measure(rt, cipher, turns, &mut turn)?;
    println!(rt; "{name} cbc-open {opening}")?;
    let mut turn = Tag {
        mac: Mac::new(),
        piece: &*piece,
    };
    let mac = measure(rt, cipher, turns, &mut turn)?;
    let _tag = turn.mac.finish(cipher);
    println!(rt; "{name} mac {mac}")?;
    let tagged = measure_tagged_ctr(rt, cipher, tag_cipher, turns, piece)?;
    println!(rt; "{name} ctr+mac {tagged}")?;
    Ok(())
}

fn run(rt: &HostRuntime, megabytes: u64) -> anyhow::Result<()> {
    let key = [0x5au8; 32];
    let tag_key = [0xa5u8; 32];
    let turns = turns_of(megabytes);
    let mut piece = [0u8; 4_096];
    let mut out = [0u8; 4_112];
    let mut tables = KuznyechikTables::prepare(&key);
    let mut tables_tag = KuznyechikTables::prepare(&tag_key);
    run_cipher(
        rt,
        "kuznyechik",
        &mut tables,
        &mut tables_tag,
        turns,
        &mut piece,
        &mut out,
    )?;
    let mut magma = Magma::prepare(&key);
    let mut magma_tag = Magma::prepare(&tag_key);
    run_cipher(
        rt,
        "magma",
        &mut magma,
        &mut magma_tag,
        turns,
        &mut piece,
        &mut out,
    )
}

fn main(rt: HostRuntime) -> anyhow::Result<()> {
    let mut args = env::args(&rt)?;
    let _program = args.next();
    match args.next() {
        Some(word) => run(&rt, word.as_str().parse::<u64>()?),
        None => {
            println!(rt; "mode_bench MEGABYTES")?;
            Ok(())
        }
    }
}
