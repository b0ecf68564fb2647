// Calls on a cipher with a block of its length, which it never refuses.
ghost use Rattle.std.specs.Prelude.{◌≡◌, length};
ghost use Rattle.block.specs.Blocks.{Same};

use block::BlockCipher;

// Replaces a block by its E.
pub fn encipher<C: BlockCipher>(cipher: &mut C, block: &mut [u8])
    requires { length block.old ≡ (C.BlockCipher.meaning cipher.old).size }
    ensures made { block.new ≡ (C.BlockCipher.meaning cipher.old).forward block.old }
    ensures same { Same (C.BlockCipher.meaning cipher.old) (C.BlockCipher.meaning cipher.new) }
{
    let Ok(()) = cipher.encipher(block) else {
        unreachable()
    };
}

// Replaces a block by its D.
pub fn decipher<C: BlockCipher>(cipher: &mut C, block: &mut [u8])
    requires { length block.old ≡ (C.BlockCipher.meaning cipher.old).size }
    ensures made { block.new ≡ (C.BlockCipher.meaning cipher.old).inverse block.old }
    ensures same { Same (C.BlockCipher.meaning cipher.old) (C.BlockCipher.meaning cipher.new) }
{
    let Ok(()) = cipher.decipher(block) else {
        unreachable()
    };
}
