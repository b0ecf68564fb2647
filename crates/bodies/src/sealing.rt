// One body, sealed: its pieces enciphered in its mode, and the sealed bytes taken into the tag's text.
ghost use Rattle.std.specs.Prelude.{◌≡◌, ℕ, ◌+◌, ◌≤◌, List, [], ◌++◌, length, take, drop, IfOk};
ghost use Rattle.block.specs.Blocks.{Lawful, Meaning, Same};
ghost use Rattle.bodies.specs.SealingState.{BegunSealing, ClosedBody, FedBody, FedCtr, FedMode, FinishedMode, ModeAt, close_writes, feed_writes, last_length, room_answer, start_of};

use crate::body::{Body, begin_tag};
use block::{BlockCipher, block_length};
use modes::cbc::CbcSealer;
use modes::ctr::CtrStream;
use sheet_format::Mode;

// The output has no room for what the call has to write.
#[derive(Clone, Copy, PartialEq, Eq, Debug)]
pub struct ShortOutput;

// The mode of a body, with its state so far.
#[derive(Clone, Copy)]
pub enum SealingMode {
    Ctr(CtrStream),
    Cbc(CbcSealer),
}

// Enciphers a piece in ctr into the front of an output; answers how many bytes.
pub(crate) fn feed_ctr<C: BlockCipher>(
    stream: &mut CtrStream,
    cipher: &mut C,
    piece: &[u8],
    out: &mut [u8],
) -> Result<usize, ShortOutput>
    ensures answer { result ≡ room_answer (length piece.now) (length out.old) }
    ensures after { FedCtr (C.BlockCipher.meaning cipher.old) stream.old piece.now out.old result stream.new out.new }
    ensures same { Same (C.BlockCipher.meaning cipher.old) (C.BlockCipher.meaning cipher.new) }
{
    let len = piece.len();
    if out.len() < len {
        return Err(ShortOutput);
    }
    out[0..len].copy_from_slice(piece);
    stream.apply(cipher, &mut out[0..len]);
    Ok(len)
}

impl SealingMode {
    // A mode that has taken nothing in.
    fn new(mode: Mode, start: &[u8; 16]) -> Self
        ensures { (c : Meaning) → Lawful c → ModeAt mode c (start_of mode c.size start.now) [] result }
    {
        match mode {
            Mode::Ctr => SealingMode::Ctr(CtrStream::new(start)),
            Mode::Cbc => SealingMode::Cbc(CbcSealer::new(start)),
        }
    }

    // Takes a piece in, whole or not at all, and writes what becomes sealed; answers how many bytes.
    fn feed<C: BlockCipher>(
        &mut self,
        cipher: &mut C,
        piece: &[u8],
        out: &mut [u8],
    ) -> Result<usize, ShortOutput>
        ensures answer { result ≡ room_answer (feed_writes (C.BlockCipher.meaning cipher.old).size self.old (length piece.now)) (length out.old) }
        ensures within { IfOk result (λ k. k ≤ length out.old) }
        ensures after { FedMode (C.BlockCipher.meaning cipher.old) self.old piece.now out.old result self.new out.new }
        ensures same { Same (C.BlockCipher.meaning cipher.old) (C.BlockCipher.meaning cipher.new) }
    {
        match self {
            SealingMode::Ctr(stream) => feed_ctr(stream, cipher, piece, out),
            SealingMode::Cbc(sealer) => sealer.feed(cipher, piece, out).map_err(|_| ShortOutput),
        }
    }

    // How many bytes are left to seal at the end.
    fn last_length<C: BlockCipher>(&self, cipher: &C) -> usize
        ensures value { result ≡ last_length (C.BlockCipher.meaning cipher.now).size self.now }
        ensures small { result ≤ 16 }
    {
        match self {
            SealingMode::Ctr(_) => 0,
            SealingMode::Cbc(_) => block_length(cipher),
        }
    }

    // Writes what is left to seal; answers how many bytes.
    fn finish<C: BlockCipher>(self, cipher: &mut C, out: &mut [u8]) -> usize
        requires { last_length (C.BlockCipher.meaning cipher.old).size self ≤ length out.old }
        ensures count { result ≡ last_length (C.BlockCipher.meaning cipher.old).size self }
        ensures sealed { FinishedMode (C.BlockCipher.meaning cipher.old) self (take result out.new) }
        ensures rest { drop result out.new ≡ drop result out.old }
        ensures same { Same (C.BlockCipher.meaning cipher.old) (C.BlockCipher.meaning cipher.new) }
    {
        match self {
            SealingMode::Ctr(_) => 0,
            SealingMode::Cbc(sealer) => match sealer.finish(cipher, out) {
                Ok(written) => written,
                Err(_) => unreachable(),
            },
        }
    }
}

// A body that is being sealed.
impl Body<SealingMode> {
    // A body of which nothing is there yet. `front` is what the tag covers before the sealed bytes.
    pub fn new<T: BlockCipher>(tag: &mut T, mode: Mode, start: &[u8; 16], front: &[u8]) -> Self
        ensures begun { BegunSealing (T.BlockCipher.meaning tag.old) mode start.now front.now result }
        ensures same { Same (T.BlockCipher.meaning tag.old) (T.BlockCipher.meaning tag.new) }
    {
        let mode = SealingMode::new(mode, start);
        let mac = begin_tag(tag, front);
        Body { mode, mac }
    }

    // Takes a piece in, whole or not at all, and writes what becomes sealed; answers how many bytes. The two ciphers are lent apart,
    // since each is lent on alone.
    pub fn feed<C: BlockCipher, T: BlockCipher>(
        &mut self,
        cipher: &mut C,
        tag: &mut T,
        piece: &[u8],
        out: &mut [u8],
    ) -> Result<usize, ShortOutput>
        ensures answer { result ≡ room_answer (feed_writes (C.BlockCipher.meaning cipher.old).size self.old.mode (length piece.now)) (length out.old) }
        ensures after { FedBody (C.BlockCipher.meaning cipher.old) (T.BlockCipher.meaning tag.old) self.old piece.now out.old result self.new out.new }
        ensures same { Same (C.BlockCipher.meaning cipher.old) (C.BlockCipher.meaning cipher.new) × Same (T.BlockCipher.meaning tag.old) (T.BlockCipher.meaning tag.new) }
    {
        let written = self.mode.feed(cipher, piece, out)?;
        self.mac.absorb(tag, &out[0..written]);
        Ok(written)
    }

    // Writes what is left to seal, and then the tag; answers how many bytes.
    pub fn close<C: BlockCipher, T: BlockCipher>(
        self,
        cipher: &mut C,
        tag: &mut T,
        out: &mut [u8],
    ) -> Result<usize, ShortOutput>
        ensures answer { result ≡ room_answer (close_writes (C.BlockCipher.meaning cipher.old).size (T.BlockCipher.meaning tag.old).size self.mode) (length out.old) }
        ensures after { ClosedBody (C.BlockCipher.meaning cipher.old) (T.BlockCipher.meaning tag.old) self out.old result out.new }
        ensures same { Same (C.BlockCipher.meaning cipher.old) (C.BlockCipher.meaning cipher.new) × Same (T.BlockCipher.meaning tag.old) (T.BlockCipher.meaning tag.new) }
    {
        let tag_length = block_length(tag);
        if out.len() < self.mode.last_length(cipher) + tag_length {
            return Err(ShortOutput);
        }
        let written = self.mode.finish(cipher, out);
        let mut mac = self.mac;
        mac.absorb(tag, &out[0..written]);
        let value = mac.finish(tag);
        out[written..written + tag_length].copy_from_slice(&value[0..tag_length]);
        Ok(written + tag_length)
    }
}
