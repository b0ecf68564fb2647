// The MAC of a text that is fed in pieces.
ghost use Rattle.std.specs.Prelude.{◌≡◌, ◌-◌, ◌++◌};
ghost use Rattle.block.specs.Blocks.{Meaning, Same};
ghost use Rattle.modes_spec.specs.Mac.{mac};
ghost use Rattle.modes_spec.specs.Texts.{zeros};

use super::pieces::cut_off;
use block::BlockCipher;
use modes::mac::Mac;

// n bytes, and zeros behind them.
pub fn mac_of<C: BlockCipher>(cipher: &mut C, cutting: &[u8], text: &[u8]) -> [u8; 16]
    ensures value { (m : Meaning) → Same m (C.BlockCipher.meaning cipher.old) → result ≡ mac m text.now ++ zeros (16 - m.size) }
    ensures same { Same (C.BlockCipher.meaning cipher.old) (C.BlockCipher.meaning cipher.new) }
{
    let mut state = Mac::new();
    let mut rest = text;
    for cut in cutting {
        let (piece, tail) = cut_off(rest, *cut);
        state.absorb(cipher, piece);
        rest = tail;
    }
    state.absorb(cipher, rest);
    state.finish(cipher)
}
