// The key schedule of section 4.3 of the standard, and E and D of section 4.4 with round keys.
ghost use Rattle.std.specs.Prelude.{true, ◌≡◌, ◌<◌};
ghost use Rattle.kuznyechik_spec.specs.Kuznyechik.{add_key, are_blocks, decipher, encipher, feistel_round, feistel_rounds, inverse_l, inverse_s, iteration_constant, lsx, round_keys};
ghost use Rattle.kuznyechik.specs.Pairs.{halves_of};

use crate::transformations::{add_key, inverse_l, inverse_s, lsx, transform_l};
use std::array::from_fn;

// C_i.
pub fn iteration_constant(i: u8) -> [u8; 16]
    ensures { result ≡ iteration_constant i }
{
    let mut c = [0u8; 16];
    c[15] = i;
    transform_l(c)
}

// The two blocks on which F works.
#[derive(Clone, Copy)]
pub struct Halves {
    pub left: [u8; 16],
    pub right: [u8; 16],
}

// F[C_i].
pub fn feistel_round(i: u8, t: Halves) -> Halves
    ensures { halves_of result ≡ feistel_round (iteration_constant i) (halves_of t) }
{
    let Halves { left, right } = t;
    let sum = add_key(right, lsx(left, iteration_constant(i)));
    Halves {
        left: sum,
        right: left,
    }
}

// F[C_(first+7)] .. F[C_first].
fn feistel_rounds(first: u8, t: Halves) -> Halves
    requires { first < 200 }
    ensures { halves_of result ≡ feistel_rounds 8 first (halves_of t) }
{
    (first..first + 8).fold(
        t,
        |t, i|
            ensures { halves_of result ≡ feistel_round (iteration_constant i) (halves_of t) }
        { feistel_round(i, t) },
    )
}

// The key schedule: K1 to K10.
pub fn key_schedule(key: &[u8; 32]) -> [[u8; 16]; 10]
    ensures { result ≡ round_keys key.now }
{
    let k1 = from_fn(|i| key[i]);
    let k2 = from_fn(|i| key[16 + i]);
    let first = Halves {
        left: k1,
        right: k2,
    };
    let second @ Halves {
        left: k3,
        right: k4,
    } = feistel_rounds(1, first);
    let third @ Halves {
        left: k5,
        right: k6,
    } = feistel_rounds(9, second);
    let fourth @ Halves {
        left: k7,
        right: k8,
    } = feistel_rounds(17, third);
    let Halves {
        left: k9,
        right: k10,
    } = feistel_rounds(25, fourth);
    [k1, k2, k3, k4, k5, k6, k7, k8, k9, k10]
}

// Ten round keys, each of them a block.
#[derive(Drop)]
pub struct RoundKeys {
    keys: [[u8; 16]; 10],
    ghost ok: { are_blocks keys ≡ true },
}

// The round keys of a key.
pub fn round_keys(key: &[u8; 32]) -> RoundKeys
    ensures { result.keys ≡ round_keys key.now }
{
    let keys = key_schedule(key);
    RoundKeys { keys }
}

// E.
pub fn encipher_block(keys: &RoundKeys, a: [u8; 16]) -> [u8; 16]
    ensures { result ≡ encipher keys.now.keys a }
{
    let b = keys.keys.iter().take(9).fold(
        a,
        |b, k|
            ensures { result ≡ lsx k.now b }
        { lsx(b, *k) },
    );
    add_key(b, keys.keys[9])
}

// D.
pub fn decipher_block(keys: &RoundKeys, a: [u8; 16]) -> [u8; 16]
    ensures { result ≡ decipher keys.now.keys a }
{
    let b = add_key(a, keys.keys[9]);
    keys.keys.iter().rev().skip(1).fold(
        b,
        |b, k|
            ensures { result ≡ add_key k.now (inverse_s (inverse_l b)) }
        { add_key(inverse_s(inverse_l(b)), *k) },
    )
}
