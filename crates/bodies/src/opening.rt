// One body, opened: its sealed bytes taken into the tag's text, and deciphered in its mode.
ghost use Rattle.std.specs.Prelude.{◌≡◌, ℕ, ◌+◌, ◌≤◌, List, [], ◌++◌, length};
ghost use Rattle.block.specs.Blocks.{Lawful, Meaning, Same};
ghost use Rattle.bodies.specs.SealingState.{start_of};
ghost use Rattle.bodies.specs.declared.opening.TakeFault.TheVariants as take;
ghost use Rattle.bodies.specs.OpeningState.{BegunOpening, EndedMode, ModeOpenAt, TakenBody, TakenMode, end_fault_of, fault_of, rest_length, take_answer};

use crate::body::{Body, begin_tag};
use crate::sealing::{ShortOutput, feed_ctr};
use block::BlockCipher;
use modes::cbc::CbcFault;
use modes::ctr::CtrStream;
use modes::opening::CbcOpener;
use sheet_format::Mode;

// Why sealed bytes of a body are refused.
#[derive(Clone, Copy, PartialEq, Eq, Debug)]
pub enum TakeFault {
    // the output has no room for what the call has to write
    ShortOutput,
    // more bytes than the body has
    TooLong,
}

// Why the end of a body is refused.
#[derive(Clone, Copy, PartialEq, Eq, Debug)]
pub enum ProveFault {
    // the output has no room for what the call has to write
    ShortOutput,
    // the tag differs, or its length
    Tag,
    // the tag is right, and the filling is wrong
    Filling,
    // sealed bytes are missing
    Incomplete,
}

// A refusal of ctr, as one of a body.
impl From<ShortOutput> for TakeFault {
    ghost from_gives = { λ _ r. r ≡ take.ShortOutput };

    fn from(_fault: ShortOutput) -> TakeFault {
        TakeFault::ShortOutput
    }
}

// A refusal of cbc, as one of a body: the last block is not looked at yet.
impl From<CbcFault> for TakeFault {
    ghost from_gives = { λ f r. r ≡ fault_of f };

    fn from(fault: CbcFault) -> TakeFault {
        match fault {
            CbcFault::TooLong => TakeFault::TooLong,
            _ => TakeFault::ShortOutput,
        }
    }
}

// A refusal of cbc's last block, as one of a body's end.
impl From<CbcFault> for ProveFault {
    ghost from_gives = { λ f r. r ≡ end_fault_of f };

    fn from(fault: CbcFault) -> ProveFault {
        match fault {
            CbcFault::Filling => ProveFault::Filling,
            _ => ProveFault::Incomplete,
        }
    }
}

// The mode of a body, with its state so far.
#[derive(Clone, Copy)]
pub enum OpeningMode {
    Ctr(CtrStream),
    Cbc(CbcOpener),
}

impl OpeningMode {
    // A mode that has taken nothing in, of a body with so many whole blocks before the last.
    fn new(mode: Mode, start: &[u8; 16], before_last: u32) -> Self
        ensures { (c : Meaning) → Lawful c → ModeOpenAt mode c (start_of mode c.size start.now) before_last [] result }
    {
        match mode {
            Mode::Ctr => OpeningMode::Ctr(CtrStream::new(start)),
            Mode::Cbc => OpeningMode::Cbc(CbcOpener::new(start, before_last)),
        }
    }

    // Takes a piece in, whole or not at all, and writes what becomes plain; answers how many bytes.
    fn take<C: BlockCipher>(
        &mut self,
        cipher: &mut C,
        piece: &[u8],
        out: &mut [u8],
    ) -> Result<usize, TakeFault>
        ensures answer { result ≡ take_answer (C.BlockCipher.meaning cipher.old).size self.old (length piece.now) (length out.old) }
        ensures after { TakenMode (C.BlockCipher.meaning cipher.old) self.old piece.now out.old result self.new out.new }
        ensures same { Same (C.BlockCipher.meaning cipher.old) (C.BlockCipher.meaning cipher.new) }
    {
        match self {
            OpeningMode::Ctr(stream) => Ok(feed_ctr(stream, cipher, piece, out)?),
            OpeningMode::Cbc(opener) => Ok(opener.take(cipher, piece, out)?),
        }
    }

    // How many bytes of text the last block holds back.
    fn rest_length(&self, rest: usize) -> usize
        ensures { result ≡ rest_length self.now rest }
    {
        match self {
            OpeningMode::Ctr(_) => 0,
            OpeningMode::Cbc(_) => rest,
        }
    }

    // Writes the text of the last block, of `rest` bytes; answers how many bytes.
    fn finish<C: BlockCipher>(
        self,
        cipher: &mut C,
        rest: usize,
        out: &mut [u8],
    ) -> Result<usize, ProveFault>
        requires { rest_length self rest ≤ length out.old }
        ensures last { EndedMode (C.BlockCipher.meaning cipher.old) self rest out.old result out.new }
        ensures same { Same (C.BlockCipher.meaning cipher.old) (C.BlockCipher.meaning cipher.new) }
    {
        match self {
            OpeningMode::Ctr(_) => Ok(0),
            OpeningMode::Cbc(opener) => {
                let last = opener.finish(cipher, rest)?;
                out[0..rest].copy_from_slice(&last[0..rest]);
                Ok(rest)
            }
        }
    }
}

// A body that is being opened.
impl Body<OpeningMode> {
    // A body of which nothing is there yet. `front` is what the tag covers before the sealed bytes, and `before_last` is how
    // many whole blocks the body has, of which none in cbc is the last.
    pub fn new<T: BlockCipher>(
        tag: &mut T,
        mode: Mode,
        start: &[u8; 16],
        before_last: u32,
        front: &[u8],
    ) -> Self
        ensures begun { BegunOpening (T.BlockCipher.meaning tag.old) mode start.now before_last front.now result }
        ensures same { Same (T.BlockCipher.meaning tag.old) (T.BlockCipher.meaning tag.new) }
    {
        let mode = OpeningMode::new(mode, start, before_last);
        let mac = begin_tag(tag, front);
        Body { mode, mac }
    }

    // Takes a piece in, whole or not at all, and writes what becomes plain; answers how many bytes.
    pub fn take<C: BlockCipher, T: BlockCipher>(
        &mut self,
        cipher: &mut C,
        tag: &mut T,
        piece: &[u8],
        out: &mut [u8],
    ) -> Result<usize, TakeFault>
        ensures answer { result ≡ take_answer (C.BlockCipher.meaning cipher.old).size self.old.mode (length piece.now) (length out.old) }
        ensures after { TakenBody (C.BlockCipher.meaning cipher.old) (T.BlockCipher.meaning tag.old) self.old piece.now out.old result self.new out.new }
        ensures same { Same (C.BlockCipher.meaning cipher.old) (C.BlockCipher.meaning cipher.new) × Same (T.BlockCipher.meaning tag.old) (T.BlockCipher.meaning tag.new) }
    {
        let written = self.mode.take(cipher, piece, out)?;
        self.mac.absorb(tag, piece);
        Ok(written)
    }
}
