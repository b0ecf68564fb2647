// ctr over a text that is fed in pieces.
ghost use Rattle.std.specs.Prelude.{◌≡◌, ◌/◌, take, IfOk, OnOk};
ghost use Rattle.block.specs.Blocks.{Same};
ghost use Rattle.modes_spec.specs.Ctr.{ctr};
ghost use Rattle.mode_tests.specs.Runs.{CtrGoesOn, SealedAs};

use super::pieces::{Feed, cut_off};
use super::tagged::{Sealed, Tagged};
use block::BlockCipher;
use modes::ctr::CtrStream;
use std::alloc::Global;

// One piece, and the MAC of what became of it. In cbc a piece can be refused, and what it makes is shorter than the room.
fn run_piece<C: BlockCipher, T: BlockCipher>(
    heap: Global,
    cipher: &mut C,
    tag_cipher: &mut T,
    stream: &mut CtrStream,
    out: &mut Tagged,
    piece: &[u8],
) -> anyhow::Result<()>
    ensures sealed { OnOk result (CtrGoesOn (C.BlockCipher.meaning cipher.old) (T.BlockCipher.meaning tag_cipher.old) piece.now stream.old out.old stream.new out.new) }
    ensures same { Same (C.BlockCipher.meaning cipher.old) (C.BlockCipher.meaning cipher.new) }
    ensures tag_same { Same (T.BlockCipher.meaning tag_cipher.old) (T.BlockCipher.meaning tag_cipher.new) }
{
    let mut bytes = Vec::from_slice(heap, piece)?;
    stream.apply(cipher, bytes.as_mut_slice());
    out.push(tag_cipher, bytes.as_slice())?;
    Ok(())
}

// Enciphers or deciphers a text, and makes the tag of the outcome under another cipher.
pub fn run<C: BlockCipher, T: BlockCipher>(
    heap: Global,
    cipher: &mut C,
    tag_cipher: &mut T,
    feed: Feed<'_>,
) -> anyhow::Result<Sealed>
    ensures sealed { IfOk result (SealedAs (C.BlockCipher.meaning cipher.old) (T.BlockCipher.meaning tag_cipher.old) (λ m. ctr m (take (m.size / 2) feed.entry.start.now) feed.entry.text.now)) }
    ensures same { Same (C.BlockCipher.meaning cipher.old) (C.BlockCipher.meaning cipher.new) }
    ensures tag_same { Same (T.BlockCipher.meaning tag_cipher.old) (T.BlockCipher.meaning tag_cipher.new) }
{
    let mut stream = CtrStream::new(feed.start);
    let mut out = Tagged::new(heap);
    let mut rest = feed.text;
    for cut in feed.cutting {
        let (piece, tail) = cut_off(rest, *cut);
        run_piece(heap, cipher, tag_cipher, &mut stream, &mut out, piece)?;
        rest = tail;
    }
    run_piece(heap, cipher, tag_cipher, &mut stream, &mut out, rest)?;
    Ok(out.finish(tag_cipher))
}
