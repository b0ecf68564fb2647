// What an order sheet speaks of: ciphers, modes, lengths, names, and the faults for which a sheet is refused.
#![tactic(auto)]

ghost use Rattle.std.specs.Prelude.{◌≡◌, ℕ, ◌*◌, ◌^◌, ◌<◌, Some};
ghost use Rattle.std.specs.Option.{ok_or};
ghost use Rattle.sheet_format.specs.Sizes.{block_length, blocks_of, cipher_with, sealed_length, start_digits};
ghost use Rattle.sheet_format.specs.Faults.{code_of};
ghost use Rattle.sheet_format.specs.Lines.{all_graphic, is_name};
ghost use Rattle.sheet_format.specs.Words.{cipher_word, mode_word};

use fault::FaultCode;
use std::fmt;

// How many bytes a sheet may have.
pub const MAX_SHEET: usize = 4_096;

// How many bodies a sheet may order.
pub const MAX_BODIES: usize = 32;

// How many bytes a body may have.
pub const MAX_LENGTH: u32 = 1_048_576;

// How many blocks all bodies together may have.
pub const MAX_BLOCKS: u64 = 1_000_000;

// How many bytes a name may have.
pub const MAX_NAME: usize = 32;

// How many bytes of the work area `check` uses: 56 for each of 32 bodies.
pub const WORK_LENGTH: usize = 1_792;

// The block cipher that a sheet orders.
#[derive(Clone, Copy, PartialEq, Eq, Debug)]
pub enum CipherKind {
    Kuznyechik,
    Magma,
}

impl CipherKind {
    // The block length n, in bytes.
    pub fn block_length(self) -> usize
        ensures { result ≡ block_length self }
    {
        match self {
            CipherKind::Kuznyechik => 16,
            CipherKind::Magma => 8,
        }
    }
}

// That a number is the block length of no cipher.
#[derive(Clone, Copy, PartialEq, Eq, Debug)]
pub struct NoCipher;

// The cipher that has a block length.
impl TryFrom<usize> for CipherKind {
    type Error = NoCipher;

    ghost try_from_gives = { λ n r. r ≡ ok_or (cipher_with n) (record {}) };

    fn try_from(n: usize) -> Result<CipherKind, NoCipher> {
        match n {
            8 => Ok(CipherKind::Magma),
            16 => Ok(CipherKind::Kuznyechik),
            _ => Err(NoCipher),
        }
    }
}

// The word of a cipher line.
impl fmt::Display for CipherKind {
    ghost output = { λ c. Some (cipher_word c) };

    fn fmt<W: fmt::Write>(&self, f: &mut fmt::Formatter<W>) -> fmt::Result {
        f.write_str(match self {
            CipherKind::Kuznyechik => "kuz",
            CipherKind::Magma => "magma",
        })
    }
}

// The mode of operation of one body.
#[derive(Clone, Copy, PartialEq, Eq, Debug)]
pub enum Mode {
    Ctr,
    Cbc,
}

// The word of a body line.
impl fmt::Display for Mode {
    ghost output = { λ m. Some (mode_word m) };

    fn fmt<W: fmt::Write>(&self, f: &mut fmt::Formatter<W>) -> fmt::Result {
        f.write_str(match self {
            Mode::Ctr => "ctr",
            Mode::Cbc => "cbc",
        })
    }
}

impl Mode {
    // How many hexadecimal digits START has.
    pub fn start_digits(self, cipher: CipherKind) -> usize
        ensures { result ≡ start_digits self (block_length cipher) }
    {
        match self {
            Mode::Ctr => cipher.block_length(),
            Mode::Cbc => 2 * cipher.block_length(),
        }
    }

    // How many blocks a body of that length has.
    pub fn blocks(self, cipher: CipherKind, length: u32) -> u64
        ensures { result ≡ blocks_of self (block_length cipher) length }
    {
        let n = cipher.block_length() as u64;
        let length = u64::from(length);
        match self {
            Mode::Ctr => length.div_ceil(n),
            Mode::Cbc => length / n + 1,
        }
    }

    // How many bytes a body of that length has once it is enciphered.
    pub fn sealed_length(self, cipher: CipherKind, length: u32) -> u64
        ensures { result ≡ sealed_length self (block_length cipher) length }
    {
        match self {
            Mode::Ctr => u64::from(length),
            Mode::Cbc => cipher.block_length() as u64 * self.blocks(cipher, length),
        }
    }
}

fn all_graphic(text: &[u8]) -> bool
    ensures { result ≡ all_graphic text.now }
{
    text.iter().all(|b| matches!(*b, 33..=126))
}

// 1 to 32 bytes from 33 to 126.
pub fn is_name(text: &[u8]) -> bool
    ensures { result ≡ is_name text.now }
{
    !text.is_empty() && text.len() <= MAX_NAME && all_graphic(text)
}

// A decimal number as it is written: its value, and whether a needless zero stands in front. Each number has both, so neither is
// an error of reading.
#[derive(Clone, Copy, PartialEq, Eq, Debug)]
pub struct Decimal {
    pub value: u32,
    pub padded: bool,
}

// What `check` answers of a sheet that passes: the block length n, how many bodies, and how many blocks they have.
#[derive(Clone, Copy, PartialEq, Eq, Debug)]
pub struct Checked {
    pub block_length: usize,
    pub bodies: usize,
    pub blocks: u64,
}

// Why a sheet is refused. A line is named by its number, from 1.
#[derive(Clone, Copy, PartialEq, Eq, Debug)]
pub enum SheetFault {
    // the sheet is over 4,096 bytes
    TooLong,
    // the line has a byte that is not 10 or 32 to 126, the first of the sheet
    BadByte { line: usize },
    // the line has no form, or no byte 10 at its end
    NoForm { line: usize },
    // the first line that counts is no cipher line, the line is a second one, or there is none
    MisplacedCipher { line: usize },
    // the line is a 33rd body, or there is none
    BodyCount { line: usize },
    // the body is over 1,048,576 bytes, or its length has a needless zero in front
    BadLength { line: usize },
    // START has too many or too few digits
    StartDigits { line: usize },
    // an earlier body has the name
    RepeatedName { line: usize },
    // an earlier ctr body has the START of this ctr body
    RepeatedStart { line: usize },
    // the bodies so far have over 1,000,000 blocks
    TooManyBlocks { line: usize },
    // the work area is under 1,792 bytes
    ShortWorkArea,
}

// Layer, number and place.
impl From<SheetFault> for FaultCode {
    ghost from_gives = { λ f r. r ≡ code_of f };

    fn from(fault: SheetFault) -> FaultCode {
        let (number, place) = match fault {
            SheetFault::TooLong => (1, 0),
            SheetFault::BadByte { line } => (1, line),
            SheetFault::NoForm { line } => (2, line),
            SheetFault::MisplacedCipher { line } => (3, line),
            SheetFault::BodyCount { line } => (4, line),
            SheetFault::BadLength { line } => (5, line),
            SheetFault::StartDigits { line } => (6, line),
            SheetFault::RepeatedName { line } => (7, line),
            SheetFault::RepeatedStart { line } => (8, line),
            SheetFault::TooManyBlocks { line } => (9, line),
            SheetFault::ShortWorkArea => (10, 0),
        };
        FaultCode {
            layer: 2,
            number,
            place,
        }
    }
}
