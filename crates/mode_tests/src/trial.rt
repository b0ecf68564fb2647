// The modes and the MAC on one vector of the table.
ghost use Rattle.std.specs.Prelude.{◌≡◌, ℕ, ◌/◌, ◌%◌, true, IfSome, IfOk};
ghost use Rattle.block.specs.Blocks.{Same};
ghost use Rattle.mode_tests.specs.Agreement.{ConfirmsMac, ConfirmsSealed, OpenedBy, sealed_by};
ghost use Rattle.mode_tests.specs.Runs.{SealedAs};

use super::cbc_runs::{Extent, OpenError};
use super::inputs::{MacInput, SealedInput};
use super::pieces::Feed;
use super::tagged::Sealed;
use super::{cbc_runs, ctr_runs, macs};
use anyhow::anyhow;
use block::BlockCipher;
use sheet_format::Mode;
use std::alloc::Global;

// Whether the text is sealed as the table says, its tag is that of the table, and the sealed text opens to it in both cuttings.
#[derive(Clone, Copy)]
pub struct SealedTrial {
    pub seals: bool,
    pub tags: bool,
    pub opens: bool,
}

// Whether the MAC is that of the table, in the one cutting and in the other.
#[derive(Clone, Copy)]
pub struct MacTrial {
    pub first: bool,
    pub other: bool,
}

fn seal<C: BlockCipher, T: BlockCipher>(
    heap: Global,
    mode: Mode,
    cipher: &mut C,
    tag_cipher: &mut T,
    feed: Feed<'_>,
) -> anyhow::Result<Sealed>
    ensures sealed { IfOk result (SealedAs (C.BlockCipher.meaning cipher.old) (T.BlockCipher.meaning tag_cipher.old) (λ m. sealed_by mode m feed.entry.start.now feed.entry.text.now)) }
    ensures same { Same (C.BlockCipher.meaning cipher.old) (C.BlockCipher.meaning cipher.new) }
    ensures tag_same { Same (T.BlockCipher.meaning tag_cipher.old) (T.BlockCipher.meaning tag_cipher.new) }
{
    match mode {
        Mode::Ctr => ctr_runs::run(heap, cipher, tag_cipher, feed),
        Mode::Cbc => cbc_runs::seal(heap, cipher, tag_cipher, feed),
    }
}

// None if the sealed text is refused.
fn open<C: BlockCipher, T: BlockCipher>(
    heap: Global,
    mode: Mode,
    cipher: &mut C,
    tag_cipher: &mut T,
    feed: Feed<'_>,
    extent: Extent,
) -> anyhow::Result<Option<Vec<u8>>>
    ensures { IfOk result (λ o. IfSome o (λ v. OpenedBy mode (C.BlockCipher.meaning cipher.old) feed.entry.start.now extent.before extent.rest feed.entry.text.now v.items)) }
{
    match mode {
        Mode::Ctr => {
            let outcome = ctr_runs::run(heap, cipher, tag_cipher, feed)?;
            let Sealed { bytes, tag: _ } = outcome;
            Ok(Some(bytes))
        }
        Mode::Cbc => match cbc_runs::open(heap, cipher, feed, extent) {
            Ok(bytes) => Ok(Some(bytes)),
            Err(OpenError::Refused(_)) => Ok(None),
            Err(OpenError::OutOfMemory(error)) => Err(error.into()),
        },
    }
}

// How a text of that length lies in its last block.
fn extent_of(n: usize, length: usize) -> anyhow::Result<Extent>
    ensures { IfOk result (λ e. (e.before ≡ length / n) × (e.rest ≡ length % n)) }
{
    if n == 0 {
        return Err(anyhow!("a cipher with no block"));
    }
    let before = u32::try_from(length / n).map_err(|_| anyhow!("a text that is too long"))?;
    Ok(Extent {
        before,
        rest: length % n,
    })
}

// Whether the sealed text opens to the text.
fn opens<C: BlockCipher, T: BlockCipher>(
    heap: Global,
    mode: Mode,
    cipher: &mut C,
    tag_cipher: &mut T,
    input: &SealedInput,
    cutting: &[u8],
) -> anyhow::Result<bool>
    ensures { IfOk result (λ b. (b ≡ true → (before rest : ℕ) × OpenedBy mode (C.BlockCipher.meaning cipher.old) input.now.start before rest input.now.sealed.items input.now.text.items)) }
{
    let extent = extent_of(cipher.block_length(), input.text.len())?;
    let sealed = input.sealed.as_slice();
    let feed = Feed {
        start: &input.start,
        cutting,
        text: sealed,
    };
    let opened = open(heap, mode, cipher, tag_cipher, feed, extent)?;
    match opened {
        Some(bytes) => Ok(*bytes.as_slice() == *input.text.as_slice()),
        None => Ok(false),
    }
}

pub fn try_sealed<C: BlockCipher, T: BlockCipher>(
    heap: Global,
    mode: Mode,
    cipher: &mut C,
    tag_cipher: &mut T,
    input: &SealedInput,
) -> anyhow::Result<SealedTrial>
    ensures { IfOk result (ConfirmsSealed mode (C.BlockCipher.meaning cipher.old) (T.BlockCipher.meaning tag_cipher.old) input.now) }
{
    let cutting = input.cutting.as_slice();
    let text = input.text.as_slice();
    let feed = Feed {
        start: &input.start,
        cutting,
        text,
    };
    let sealed = seal(heap, mode, cipher, tag_cipher, feed)?;
    let seals = *sealed.bytes.as_slice() == *input.sealed.as_slice();
    let tags = sealed.tag == input.tag;
    let first = opens(heap, mode, cipher, tag_cipher, input, cutting)?;
    let other_cutting = input.other_cutting.as_slice();
    let other = opens(heap, mode, cipher, tag_cipher, input, other_cutting)?;
    Ok(SealedTrial {
        seals,
        tags,
        opens: first && other,
    })
}

pub fn try_mac<C: BlockCipher>(cipher: &mut C, input: &MacInput) -> MacTrial
    ensures { ConfirmsMac (C.BlockCipher.meaning cipher.old) input.now result }
{
    let text = input.text.as_slice();
    let first = macs::mac_of(cipher, input.cutting.as_slice(), text);
    let other = macs::mac_of(cipher, input.other_cutting.as_slice(), text);
    MacTrial {
        first: first == input.mac,
        other: other == input.mac,
    }
}
