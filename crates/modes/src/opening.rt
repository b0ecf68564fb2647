// Cipher block chaining, fed in pieces: opening.
ghost use Rattle.std.specs.Prelude.{◌≡◌, ℕ, ◌+◌, ◌-◌, ◌*◌, ◌/◌, ◌%◌, ◌<◌, ◌≤◌, min, cond, List, [], ◌++◌, length, take, drop, OnOk};
ghost use Rattle.block.specs.Blocks.{Same};
ghost use Rattle.modes_spec.specs.Texts.{◌⊕◌, zeros};
ghost use Rattle.modes.specs.OpenState.{BegunOpening, LastOpened, OpenedCbc, TakenCbc, all_zeros, fills, opened_next, settled_fill, take_answer};

use crate::blocks::decipher;
use crate::bytes::{are_bytes, join_front};
use crate::cbc::CbcFault;
use block::{BlockCipher, block_length};

fn all_zeros(bytes: &[u8]) -> bool
    ensures { result ≡ all_zeros bytes.now }
{
    bytes.iter().all(|b| *b == 0)
}

// Whether a last block is `rest` bytes of text and their filling.
fn is_filled(block: &[u8], rest: usize) -> bool
    ensures { result ≡ fills (length block.now) rest block.now }
{
    rest < block.len() && block[rest] == 0x80 && all_zeros(&block[rest + 1..])
}

// cbc of a cipher text so far: the block before the current one, the current one as far as it has come, and how many blocks
// before the last are still to be opened. The last block is held back: its filling is looked at before its text goes out.
// Blocks are arrays of the longest, since nothing allocates.
#[derive(Clone, Copy)]
pub struct CbcOpener {
    previous: [u8; 16],
    block: [u8; 16],
    filled: usize,
    left: u32,
}

impl CbcOpener {
    // A cipher text of which nothing is there yet, and that has so many blocks before its last. The register begins as the
    // first n bytes of START.
    pub fn new(start: &[u8; 16], before_last: u32) -> CbcOpener
        ensures { BegunOpening start.now before_last result }
    {
        are_bytes(start);
        CbcOpener {
            previous: *start,
            block: [0; 16],
            filled: 0,
            left: before_last,
        }
    }

    // Copies the front of a piece into the current block; answers how many bytes.
    fn collect(&mut self, n: usize, piece: &[u8]) -> usize
        requires within { self.old.filled ≤ n }
        requires short { n ≤ 16 }
        ensures count { result ≡ min (n - self.old.filled) (length piece.now) }
        ensures filled { self.new.filled ≡ self.old.filled + result }
        ensures copied { (take (self.old.filled + result) self.new.block ≡ take self.old.filled self.old.block ++ take result piece.now) × (length self.new.block ≡ 16) }
        ensures kept { (self.new.previous ≡ self.old.previous) × (self.new.left ≡ self.old.left) }
    {
        let run = (n - self.filled).min(piece.len());
        let from = self.filled;
        self.block[from..from + run].copy_from_slice(&piece[0..run]);
        self.filled += run;
        run
    }

    // Puts the current block, opened, over `out`.
    fn open_block<C: BlockCipher>(&self, cipher: &mut C, out: &mut [u8])
        requires { length out.old ≡ (C.BlockCipher.meaning cipher.old).size }
        ensures opened { out.new ≡ (C.BlockCipher.meaning cipher.old).inverse (take (C.BlockCipher.meaning cipher.old).size self.now.block) ⊕ take (C.BlockCipher.meaning cipher.old).size self.now.previous }
        ensures same { Same (C.BlockCipher.meaning cipher.old) (C.BlockCipher.meaning cipher.new) }
    {
        let n = block_length(cipher);
        out.copy_from_slice(&self.block[0..n]);
        decipher(cipher, out);
        join_front(out, &self.previous[0..n]);
    }

    // Goes on behind a block that is opened.
    fn next_block(&mut self)
        requires { 0 < self.old.left }
        ensures { (self.new.previous ≡ self.old.block) × (self.new.block ≡ self.old.block) × (self.new.filled ≡ 0) × (self.new.left + 1 ≡ self.old.left) }
    {
        let block = self.block;
        self.previous = block;
        self.filled = 0;
        self.left -= 1;
    }

    // Takes a piece in and writes each block that becomes whole, but the last; answers how many bytes.
    fn open_piece<C: BlockCipher>(&mut self, cipher: &mut C, piece: &[u8], out: &mut [u8]) -> usize
        requires within { self.old.filled ≤ (C.BlockCipher.meaning cipher.old).size }
        requires current { 0 < self.old.left → self.old.filled < (C.BlockCipher.meaning cipher.old).size }
        requires fits { self.old.filled + length piece.now ≤ (C.BlockCipher.meaning cipher.old).size * (self.old.left + 1) }
        requires room { opened_next (C.BlockCipher.meaning cipher.old).size self.old.filled self.old.left (length piece.now) ≤ length out.old }
        ensures count { result ≡ opened_next (C.BlockCipher.meaning cipher.old).size self.old.filled self.old.left (length piece.now) }
        ensures opened { OpenedCbc (C.BlockCipher.meaning cipher.old) self.old piece.now self.new (take result out.new) }
        ensures rest { drop result out.new ≡ drop result out.old }
        ensures same { Same (C.BlockCipher.meaning cipher.old) (C.BlockCipher.meaning cipher.new) }
    {
        are_bytes(piece);
        let n = block_length(cipher);
        let mut rest = piece;
        let mut written = 0;
        while !rest.is_empty() && self.left > 0 {
            let run = self.collect(n, rest);
            rest = &rest[run..];
            if self.filled >= n {
                self.open_block(cipher, &mut out[written..written + n]);
                self.next_block();
                written += n;
            }
        }
        let _ = self.collect(n, rest);
        written
    }

    // What is filled of the current block: a whole block stays only where it is the last.
    fn settled(&self, n: usize) -> usize
        requires { 0 < n }
        ensures { result ≡ settled_fill n self.now.left self.now.filled }
    {
        match self.left {
            0 => self.filled.min(n),
            _ => self.filled % n,
        }
    }

    // Takes a piece in, whole or not at all, and writes each block that becomes whole, but the last; answers how many bytes.
    pub fn take<C: BlockCipher>(
        &mut self,
        cipher: &mut C,
        piece: &[u8],
        out: &mut [u8],
    ) -> Result<usize, CbcFault>
        ensures answer { result ≡ take_answer (C.BlockCipher.meaning cipher.old).size (settled_fill (C.BlockCipher.meaning cipher.old).size self.old.left self.old.filled) self.old.left (length piece.now) (length out.old) }
        ensures after { TakenCbc (C.BlockCipher.meaning cipher.old) self.old piece.now out.old result self.new out.new }
        ensures same { Same (C.BlockCipher.meaning cipher.old) (C.BlockCipher.meaning cipher.new) }
    {
        let n = block_length(cipher);
        let filled = self.settled(n);
        let left = self.left as usize;
        let come = filled + piece.len();
        if n * (left + 1) < come {
            return Err(CbcFault::TooLong);
        }
        if out.len() < n * (come / n).min(left) {
            return Err(CbcFault::ShortOutput);
        }
        self.filled = filled;
        Ok(self.open_piece(cipher, piece, out))
    }

    // The last block, opened, with zeros behind it.
    fn last_block<C: BlockCipher>(&self, cipher: &mut C) -> [u8; 16]
        ensures opened { result ≡ ((C.BlockCipher.meaning cipher.old).inverse (take (C.BlockCipher.meaning cipher.old).size self.now.block) ⊕ take (C.BlockCipher.meaning cipher.old).size self.now.previous) ++ zeros (16 - (C.BlockCipher.meaning cipher.old).size) }
        ensures same { Same (C.BlockCipher.meaning cipher.old) (C.BlockCipher.meaning cipher.new) }
    {
        let n = block_length(cipher);
        let mut last = [0u8; 16];
        self.open_block(cipher, &mut last[0..n]);
        last
    }

    // The last block, if it is whole and is `rest` bytes of text with their filling; zeros stand behind its n bytes.
    pub fn finish<C: BlockCipher>(self, cipher: &mut C, rest: usize) -> Result<[u8; 16], CbcFault>
        ensures last { LastOpened (C.BlockCipher.meaning cipher.old) self rest result }
        ensures within { OnOk result (rest < 16) }
        ensures same { Same (C.BlockCipher.meaning cipher.old) (C.BlockCipher.meaning cipher.new) }
    {
        let n = block_length(cipher);
        if self.left > 0 || self.filled < n {
            return Err(CbcFault::Incomplete);
        }
        let last = self.last_block(cipher);
        if !is_filled(&last[0..n], rest) {
            return Err(CbcFault::Filling);
        }
        Ok(last)
    }
}
