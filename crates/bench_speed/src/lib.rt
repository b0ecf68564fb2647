// How fast a program goes over pieces of 4,096 bytes.
#![tactic(auto)]

ghost use Rattle.std.specs.Prelude.{◌≡◌, ◌-◌, ◌*◌, ◌/◌, ◌^◌, ◌≤◌, min, max, IfOk};
ghost use Rattle.block.specs.Blocks.{Same};

use block::BlockCipher;
use std::time::Instant;

// The bytes of one turn, as the disk delivers them.
const PIECE: u64 = 4_096;

// Megabytes a second.
pub fn speed(turns: u64, nanoseconds: u128) -> u128
    ensures { result ≡ turns * 4096000 / max nanoseconds 1 }
{
    u128::from(turns) * u128::from(PIECE * 1_000) / nanoseconds.max(1)
}

// The pieces of so many megabytes.
pub fn turns_of(megabytes: u64) -> u64
    ensures { result ≡ min (megabytes * 256) (2 ^ 64 - 1) }
{
    megabytes.saturating_mul(256)
}

// What is measured of a cipher. It is a trait and no closure: of what a closure borrows, a proof knows nothing afterwards.
pub trait Turn<C: BlockCipher> {
    // Goes over one piece. The cipher means the same afterwards.
    fn turn(&mut self, cipher: &mut C) -> anyhow::Result<()>
        ensures { Same (C.BlockCipher.meaning cipher.old) (C.BlockCipher.meaning cipher.new) };
}

// How many megabytes a second so many turns go over.
pub fn measure<C: BlockCipher, T: Turn<C>>(
    rt: &HostRuntime,
    cipher: &mut C,
    turns: u64,
    piece: &mut T,
) -> anyhow::Result<u128>
    ensures speed { IfOk result (λ s. s ≤ turns * 4096000) }
    ensures same { Same (C.BlockCipher.meaning cipher.old) (C.BlockCipher.meaning cipher.new) }
{
    let start = Instant::now(rt)?;
    for _ in 0..turns {
        piece.turn(cipher)?;
    }
    Ok(speed(turns, start.elapsed(rt)?.as_nanos()))
}
