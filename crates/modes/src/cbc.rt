// Cipher block chaining, fed in pieces: sealing.
ghost use Rattle.std.specs.Prelude.{◌≡◌, ℕ, ◌+◌, ◌-◌, ◌*◌, ◌/◌, ◌%◌, ◌<◌, ◌≤◌, cond, List, [], ◌++◌, length, take, drop};
ghost use Rattle.block.specs.Blocks.{Meaning, Same};
ghost use Rattle.modes.specs.CbcState.{BegunCbc, FinishedCbc, SealedCbc, out_answer, sealed_next, FedCbc};

use crate::bytes::are_bytes;
use crate::chain::Chain;
use block::{BlockCipher, block_length};

// Why a piece or the end of a text is refused.
#[derive(Clone, Copy, PartialEq, Eq, Debug)]
pub enum CbcFault {
    // the output has no room for what the call has to write
    ShortOutput,
    // the piece is longer than what the text lacks
    TooLong,
    // the last block is not whole
    Incomplete,
    // the last block is not filled by procedure 2
    Filling,
}

// cbc of a text so far: the register, with the bytes of the current block joined to it.
#[derive(Clone, Copy)]
pub struct CbcSealer {
    chain: Chain,
}

impl CbcSealer {
    // A text of which nothing is there yet. The register begins as the first n bytes of START.
    pub fn new(start: &[u8; 16]) -> CbcSealer
        ensures { BegunCbc start.now result }
    {
        are_bytes(start);
        CbcSealer {
            chain: Chain {
                register: *start,
                filled: 0,
            },
        }
    }

    // Takes a piece in and writes each block that becomes whole; answers how many bytes.
    fn seal_piece<C: BlockCipher>(&mut self, cipher: &mut C, piece: &[u8], out: &mut [u8]) -> usize
        requires within { self.old.chain.filled < (C.BlockCipher.meaning cipher.old).size }
        requires room { sealed_next (C.BlockCipher.meaning cipher.old).size self.old.chain.filled (length piece.now) ≤ length out.old }
        ensures count { result ≡ sealed_next (C.BlockCipher.meaning cipher.old).size self.old.chain.filled (length piece.now) }
        ensures sealed { SealedCbc (C.BlockCipher.meaning cipher.old) self.old piece.now self.new (take result out.new) }
        ensures rest { drop result out.new ≡ drop result out.old }
        ensures same { Same (C.BlockCipher.meaning cipher.old) (C.BlockCipher.meaning cipher.new) }
    {
        are_bytes(piece);
        let n = block_length(cipher);
        let mut rest = piece;
        let mut written = 0;
        while !rest.is_empty() {
            let run = self.chain.join(n, rest);
            rest = &rest[run..];
            if self.chain.filled >= n {
                self.chain.advance(cipher);
                out[written..written + n].copy_from_slice(&self.chain.register[0..n]);
                written += n;
            }
        }
        written
    }

    // Takes a piece in, whole or not at all, and writes each block that becomes whole; answers how many bytes.
    pub fn feed<C: BlockCipher>(
        &mut self,
        cipher: &mut C,
        piece: &[u8],
        out: &mut [u8],
    ) -> Result<usize, CbcFault>
        ensures answer { result ≡ out_answer (sealed_next (C.BlockCipher.meaning cipher.old).size (self.old.chain.filled % (C.BlockCipher.meaning cipher.old).size) (length piece.now)) (length out.old) }
        ensures after { FedCbc (C.BlockCipher.meaning cipher.old) self.old piece.now out.old result self.new out.new }
        ensures same { Same (C.BlockCipher.meaning cipher.old) (C.BlockCipher.meaning cipher.new) }
    {
        let n = block_length(cipher);
        // a block never stays whole here, so the remainder is what it is anyway
        let filled = self.chain.filled % n;
        if out.len() < (filled + piece.len()) / n * n {
            return Err(CbcFault::ShortOutput);
        }
        self.chain.filled = filled;
        Ok(self.seal_piece(cipher, piece, out))
    }

    // Fills the last block by procedure 2 and writes it; answers how many bytes.
    pub fn finish<C: BlockCipher>(self, cipher: &mut C, out: &mut [u8]) -> Result<usize, CbcFault>
        ensures answer { result ≡ out_answer (C.BlockCipher.meaning cipher.old).size (length out.old) }
        ensures after { FinishedCbc (C.BlockCipher.meaning cipher.old) self out.old result out.new }
        ensures same { Same (C.BlockCipher.meaning cipher.old) (C.BlockCipher.meaning cipher.new) }
    {
        let n = block_length(cipher);
        if out.len() < n {
            return Err(CbcFault::ShortOutput);
        }
        let mut chain = self.chain;
        chain.register[chain.filled % n] ^= 0x80;
        chain.advance(cipher);
        out[0..n].copy_from_slice(&chain.register[0..n]);
        Ok(n)
    }
}
