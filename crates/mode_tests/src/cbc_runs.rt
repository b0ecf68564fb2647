// cbc over a text that is fed in pieces.
ghost use Rattle.std.specs.Prelude.{◌≡◌, take, IfOk, OnOk};
ghost use Rattle.block.specs.Blocks.{Same};
ghost use Rattle.modes_spec.specs.Cbc.{cbc_sealed};
ghost use Rattle.mode_tests.specs.Runs.{CbcEnds, CbcGoesOn, OpenedAs, OpeningEnds, OpeningGoesOn, SealedAs};

use super::pieces::{Feed, cut_off};
use super::tagged::{Sealed, Tagged};
use anyhow::anyhow;
use block::BlockCipher;
use modes::cbc::{CbcFault, CbcSealer};
use modes::opening::CbcOpener;
use std::alloc::{AllocError, Global};

// Seals one piece, and takes what became whole into the MAC.
fn seal_piece<C: BlockCipher, T: BlockCipher>(
    heap: Global,
    cipher: &mut C,
    tag_cipher: &mut T,
    sealer: &mut CbcSealer,
    out: &mut Tagged,
    piece: &[u8],
) -> anyhow::Result<()>
    ensures sealed { OnOk result (CbcGoesOn (C.BlockCipher.meaning cipher.old) (T.BlockCipher.meaning tag_cipher.old) piece.now sealer.old out.old sealer.new out.new) }
    ensures same { Same (C.BlockCipher.meaning cipher.old) (C.BlockCipher.meaning cipher.new) }
    ensures tag_same { Same (T.BlockCipher.meaning tag_cipher.old) (T.BlockCipher.meaning tag_cipher.new) }
{
    let mut blocks = vec![in heap; 0u8; piece.len().saturating_add(16)]?;
    // no `map_err(..)?`, here and below: the proof with it did not close
    let Ok(count) = sealer.feed(cipher, piece, blocks.as_mut_slice()) else {
        return Err(anyhow!("cbc refuses a piece"));
    };
    blocks.truncate(count);
    out.push(tag_cipher, blocks.as_slice())?;
    Ok(())
}

// Seals the filled block.
fn seal_end<C: BlockCipher, T: BlockCipher>(
    heap: Global,
    cipher: &mut C,
    tag_cipher: &mut T,
    sealer: CbcSealer,
    out: &mut Tagged,
) -> anyhow::Result<()>
    ensures sealed { OnOk result (CbcEnds (C.BlockCipher.meaning cipher.old) (T.BlockCipher.meaning tag_cipher.old) sealer out.old out.new) }
    ensures same { Same (C.BlockCipher.meaning cipher.old) (C.BlockCipher.meaning cipher.new) }
    ensures tag_same { Same (T.BlockCipher.meaning tag_cipher.old) (T.BlockCipher.meaning tag_cipher.new) }
{
    let mut block = vec![in heap; 0u8; 16]?;
    let Ok(count) = sealer.finish(cipher, block.as_mut_slice()) else {
        return Err(anyhow!("cbc refuses the end of a text"));
    };
    block.truncate(count);
    out.push(tag_cipher, block.as_slice())?;
    Ok(())
}

// Seals a text, and makes the tag of the outcome under another cipher.
pub fn seal<C: BlockCipher, T: BlockCipher>(
    heap: Global,
    cipher: &mut C,
    tag_cipher: &mut T,
    feed: Feed<'_>,
) -> anyhow::Result<Sealed>
    ensures sealed { IfOk result (SealedAs (C.BlockCipher.meaning cipher.old) (T.BlockCipher.meaning tag_cipher.old) (λ m. cbc_sealed m (take m.size feed.entry.start.now) feed.entry.text.now)) }
    ensures same { Same (C.BlockCipher.meaning cipher.old) (C.BlockCipher.meaning cipher.new) }
    ensures tag_same { Same (T.BlockCipher.meaning tag_cipher.old) (T.BlockCipher.meaning tag_cipher.new) }
{
    let mut sealer = CbcSealer::new(feed.start);
    let mut out = Tagged::new(heap);
    let mut rest = feed.text;
    for cut in feed.cutting {
        let (piece, tail) = cut_off(rest, *cut);
        seal_piece(heap, cipher, tag_cipher, &mut sealer, &mut out, piece)?;
        rest = tail;
    }
    seal_piece(heap, cipher, tag_cipher, &mut sealer, &mut out, rest)?;
    seal_end(heap, cipher, tag_cipher, sealer, &mut out)?;
    Ok(out.finish(tag_cipher))
}

// A sealed text of which so many blocks stand before the last, and `rest` bytes of the last are text.
#[derive(Clone, Copy)]
pub struct Extent {
    pub before: u32,
    pub rest: usize,
}

// Why a sealed text is not opened.
#[derive(Clone, Copy)]
pub enum OpenError {
    Refused(CbcFault),
    OutOfMemory(AllocError),
}

impl From<CbcFault> for OpenError {
    fn from(fault: CbcFault) -> OpenError {
        OpenError::Refused(fault)
    }
}

impl From<AllocError> for OpenError {
    fn from(error: AllocError) -> OpenError {
        OpenError::OutOfMemory(error)
    }
}

// Opens one piece of a sealed text.
fn open_piece<C: BlockCipher>(
    heap: Global,
    cipher: &mut C,
    opener: &mut CbcOpener,
    out: &mut Vec<u8>,
    piece: &[u8],
) -> Result<(), OpenError>
    ensures opened { OnOk result (OpeningGoesOn (C.BlockCipher.meaning cipher.old) piece.now opener.old out.old.items opener.new out.new.items) }
    ensures same { Same (C.BlockCipher.meaning cipher.old) (C.BlockCipher.meaning cipher.new) }
{
    let mut blocks = vec![in heap; 0u8; piece.len().saturating_add(16)]?;
    let count = opener.take(cipher, piece, blocks.as_mut_slice())?;
    blocks.truncate(count);
    out.extend_from_slice(blocks.as_slice())?;
    Ok(())
}

// Opens the last block, of which `rest` bytes are text.
fn open_end<C: BlockCipher>(
    heap: Global,
    cipher: &mut C,
    opener: CbcOpener,
    rest: usize,
    out: &mut Vec<u8>,
) -> Result<(), OpenError>
    ensures opened { OnOk result (OpeningEnds (C.BlockCipher.meaning cipher.old) opener rest out.old.items out.new.items) }
    ensures same { Same (C.BlockCipher.meaning cipher.old) (C.BlockCipher.meaning cipher.new) }
{
    let last = opener.finish(cipher, rest)?;
    let mut bytes = Vec::from_slice(heap, &last)?;
    bytes.truncate(rest);
    out.extend_from_slice(bytes.as_slice())?;
    Ok(())
}

// Opens a sealed text of that extent.
pub fn open<C: BlockCipher>(
    heap: Global,
    cipher: &mut C,
    feed: Feed<'_>,
    extent: Extent,
) -> Result<Vec<u8>, OpenError>
    ensures opened { IfOk result (λ v. OpenedAs (C.BlockCipher.meaning cipher.old) feed.entry.start.now extent.before extent.rest feed.entry.text.now v.items) }
    ensures same { Same (C.BlockCipher.meaning cipher.old) (C.BlockCipher.meaning cipher.new) }
{
    let mut opener = CbcOpener::new(feed.start, extent.before);
    let mut out = Vec::new(heap);
    let mut left = feed.text;
    for cut in feed.cutting {
        let (piece, tail) = cut_off(left, *cut);
        open_piece(heap, cipher, &mut opener, &mut out, piece)?;
        left = tail;
    }
    open_piece(heap, cipher, &mut opener, &mut out, left)?;
    open_end(heap, cipher, opener, extent.rest, &mut out)?;
    Ok(out)
}
