// What all modes need: joining bytes, a number in bytes.
ghost use Rattle.std.specs.Prelude.{◌≡◌, ◌≤◌, length};
ghost use Rattle.block.specs.Blocks.{Bytes};
ghost use Rattle.modes_spec.specs.Texts.{big_endian, joined_front};

// Each byte is below 256: a fact of its type, which proofs above cite.
pub fn are_bytes(bytes: &[u8])
    ensures { Bytes bytes.now }
{
    let _ = bytes.is_empty();
}

// Joins `more` by exclusive or to the front of `bytes`.
pub fn join_front(bytes: &mut [u8], more: &[u8])
    requires { length more.now ≤ length bytes.old }
    ensures { bytes.new ≡ joined_front bytes.old more.now }
{
    for (i, b) in more.iter().enumerate() {
        bytes[i] ^= *b;
    }
}

// Writes a number over a part of up to 8 bytes, its highest byte first.
pub fn write_number(number: u64, part: &mut [u8])
    requires { length part.old ≤ 8 }
    ensures { part.new ≡ big_endian (length part.old) number }
{
    let bytes = number.to_be_bytes();
    part.copy_from_slice(&bytes[8 - part.len()..]);
}
