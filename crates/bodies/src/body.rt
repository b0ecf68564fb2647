// One body on its way, in either direction.
ghost use Rattle.std.specs.Prelude.{◌≡◌};
ghost use Rattle.block.specs.Blocks.{Lawful, Meaning, Same};
ghost use Rattle.modes.specs.MacState.{MacAt};

use block::BlockCipher;
use modes::mac::Mac;

// A body: its mode, with its state so far, and the MAC of the tag's text so far.
#[derive(Clone, Copy)]
pub struct Body<M> {
    pub(crate) mode: M,
    pub(crate) mac: Mac,
}

// The MAC of a tag's text that begins with what the tag covers before the sealed bytes.
pub(crate) fn begin_tag<T: BlockCipher>(tag: &mut T, front: &[u8]) -> Mac
    ensures begun { (t : Meaning) → Lawful t → Same t (T.BlockCipher.meaning tag.old) → MacAt t front.now result }
    ensures same { Same (T.BlockCipher.meaning tag.old) (T.BlockCipher.meaning tag.new) }
{
    let mut mac = Mac::new();
    mac.absorb(tag, front);
    mac
}
