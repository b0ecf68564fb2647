// What the contents of a set speak of: block lengths, and the fault for which contents are refused.
#![tactic(auto)]

ghost use Rattle.std.specs.Prelude.{◌≡◌, ℕ, ◌⊎◌};
ghost use Rattle.std.specs.Option.{ok_or};
ghost use Rattle.contents_format.specs.declared.ContentsFault.TheVariants.{Header};
ghost use Rattle.contents_format.specs.BlockLengths.{bytes_of, nearest_to, with_bytes};
ghost use Rattle.contents_format.specs.Faults.{code_of};

use fault::FaultCode;
use sheet_format::NoCipher;

// The block length of a cipher: 8 or 16 bytes.
#[derive(Clone, Copy, PartialEq, Eq, Debug)]
pub enum BlockLength {
    Eight,
    Sixteen,
}

impl BlockLength {
    // How many bytes.
    pub fn bytes(self) -> usize
        ensures { result ≡ bytes_of self }
    {
        match self {
            BlockLength::Eight => 8,
            BlockLength::Sixteen => 16,
        }
    }

    // Of a block cipher that has this block length, which its law says is 8 or 16: for these two nothing is lost.
    pub fn of_cipher(bytes: usize) -> Self
        ensures value { result ≡ nearest_to bytes }
        ensures exact { (bytes ≡ 8) ⊎ (bytes ≡ 16) → bytes_of result ≡ bytes }
    {
        if bytes < 16 {
            BlockLength::Eight
        } else {
            BlockLength::Sixteen
        }
    }
}

// That a number is no block length.
#[derive(Clone, Copy, PartialEq, Eq, Debug)]
pub struct NoBlockLength;

// The block length of so many bytes.
impl TryFrom<usize> for BlockLength {
    type Error = NoBlockLength;

    ghost try_from_gives = { λ n r. r ≡ ok_or (with_bytes n) (record {}) };

    fn try_from(bytes: usize) -> Result<BlockLength, NoBlockLength> {
        match bytes {
            8 => Ok(BlockLength::Eight),
            16 => Ok(BlockLength::Sixteen),
            _ => Err(NoBlockLength),
        }
    }
}

// Why contents are refused: no sheet that passes has them.
#[derive(Clone, Copy, PartialEq, Eq, Debug)]
pub enum ContentsFault {
    // the header is bad, or the total length
    Header,
    // no sheet that passes has the first `number` entries, and one has each smaller number of them
    Entry { number: usize },
}

// Layer, number and place.
impl From<ContentsFault> for FaultCode {
    ghost from_gives = { λ f r. r ≡ code_of f };

    fn from(fault: ContentsFault) -> FaultCode {
        let place = match fault {
            ContentsFault::Header => 0,
            ContentsFault::Entry { number } => number,
        };
        FaultCode {
            layer: 4,
            number: 14,
            place,
        }
    }
}

// A header with a length that is none of a cipher, or none of a tag.
impl From<NoCipher> for ContentsFault {
    ghost from_gives = { λ _ r. r ≡ Header };

    fn from(_fault: NoCipher) -> ContentsFault {
        ContentsFault::Header
    }
}

impl From<NoBlockLength> for ContentsFault {
    ghost from_gives = { λ _ r. r ≡ Header };

    fn from(_fault: NoBlockLength) -> ContentsFault {
        ContentsFault::Header
    }
}
