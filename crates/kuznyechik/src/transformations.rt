// The transformations of sections 4.1 and 4.2 of the standard.
ghost use Rattle.std.specs.Prelude.{◌≡◌, ℕ, List};
ghost use Rattle.kuznyechik_spec.specs.Field.{multiply, times_x};
ghost use Rattle.kuznyechik_spec.specs.Kuznyechik.{InverseTable, add_key, inverse_l, inverse_r, inverse_s, linear, lsx, repeated, substitution, substitution_inverse, transform_l, transform_r, transform_s};

use std::array::from_fn;

// The coefficients of l, that of a15 first.
const COEFFICIENTS: [u8; 16] = [
    148, 32, 133, 16, 194, 192, 1, 251, 1, 192, 194, 16, 133, 32, 148, 1,
];

// π.
const SUBSTITUTION: [u8; 256] = [
    252, 238, 221, 17, 207, 110, 49, 22, 251, 196, 250, 218, 35, 197, 4, 77, 233, 119, 240, 219,
    147, 46, 153, 186, 23, 54, 241, 187, 20, 205, 95, 193, 249, 24, 101, 90, 226, 92, 239, 33, 129,
    28, 60, 66, 139, 1, 142, 79, 5, 132, 2, 174, 227, 106, 143, 160, 6, 11, 237, 152, 127, 212,
    211, 31, 235, 52, 44, 81, 234, 200, 72, 171, 242, 42, 104, 162, 253, 58, 206, 204, 181, 112,
    14, 86, 8, 12, 118, 18, 191, 114, 19, 71, 156, 183, 93, 135, 21, 161, 150, 41, 16, 123, 154,
    199, 243, 145, 120, 111, 157, 158, 178, 177, 50, 117, 25, 61, 255, 53, 138, 126, 109, 84, 198,
    128, 195, 189, 13, 87, 223, 245, 36, 169, 62, 168, 67, 201, 215, 121, 214, 246, 124, 34, 185,
    3, 224, 15, 236, 222, 122, 148, 176, 188, 220, 232, 40, 80, 78, 51, 10, 74, 167, 151, 96, 115,
    30, 0, 98, 68, 26, 184, 56, 130, 100, 159, 38, 65, 173, 69, 70, 146, 39, 94, 85, 47, 140, 163,
    165, 125, 105, 213, 149, 59, 7, 88, 179, 64, 134, 172, 29, 247, 48, 55, 107, 228, 136, 217,
    231, 137, 225, 27, 131, 73, 76, 63, 248, 254, 141, 83, 170, 144, 202, 216, 133, 97, 32, 113,
    103, 164, 45, 43, 9, 91, 203, 155, 37, 208, 190, 229, 108, 82, 89, 166, 116, 210, 230, 244,
    180, 192, 209, 102, 175, 194, 57, 75, 99, 182,
];

// The inverse of π.
const SUBSTITUTION_INVERSE: [u8; 256] = [
    165, 45, 50, 143, 14, 48, 56, 192, 84, 230, 158, 57, 85, 126, 82, 145, 100, 3, 87, 90, 28, 96,
    7, 24, 33, 114, 168, 209, 41, 198, 164, 63, 224, 39, 141, 12, 130, 234, 174, 180, 154, 99, 73,
    229, 66, 228, 21, 183, 200, 6, 112, 157, 65, 117, 25, 201, 170, 252, 77, 191, 42, 115, 132,
    213, 195, 175, 43, 134, 167, 177, 178, 91, 70, 211, 159, 253, 212, 15, 156, 47, 155, 67, 239,
    217, 121, 182, 83, 127, 193, 240, 35, 231, 37, 94, 181, 30, 162, 223, 166, 254, 172, 34, 249,
    226, 74, 188, 53, 202, 238, 120, 5, 107, 81, 225, 89, 163, 242, 113, 86, 17, 106, 137, 148,
    101, 140, 187, 119, 60, 123, 40, 171, 210, 49, 222, 196, 95, 204, 207, 118, 44, 184, 216, 46,
    54, 219, 105, 179, 20, 149, 190, 98, 161, 59, 22, 102, 233, 92, 108, 109, 173, 55, 97, 75, 185,
    227, 186, 241, 160, 133, 131, 218, 71, 197, 176, 51, 250, 150, 111, 110, 194, 246, 80, 255, 93,
    169, 142, 23, 27, 151, 125, 236, 88, 247, 31, 251, 124, 9, 13, 122, 103, 69, 135, 220, 232, 79,
    29, 78, 4, 235, 248, 243, 62, 61, 189, 138, 136, 221, 205, 11, 19, 152, 2, 147, 128, 144, 208,
    36, 52, 203, 237, 244, 206, 153, 16, 68, 64, 146, 58, 1, 38, 18, 26, 72, 104, 245, 129, 139,
    199, 214, 32, 10, 8, 0, 76, 215, 116,
];

// The product of a by x in the field.
fn times_x(a: u8) -> u8
    ensures { result ≡ times_x a }
{
    if a < 128 {
        a * 2
    } else {
        ((a - 128) * 2) ^ 195
    }
}

// The product in the field.
fn multiply(c: u8, a: u8) -> u8
    ensures { result ≡ multiply c a }
{
    let mut sum = 0u8;
    let mut rest = c;
    let mut term = a;
    for _ in 0..8u8 {
        if rest % 2 == 1 {
            sum ^= term;
        }
        rest /= 2;
        term = times_x(term);
    }
    sum
}

// l.
fn linear(a: [u8; 16]) -> u8
    ensures { result ≡ linear a }
{
    COEFFICIENTS
        .iter()
        .zip(a.iter())
        .fold(0, |sum, (c, x)| sum ^ multiply(*c, *x))
}

// R.
pub fn transform_r(a: [u8; 16]) -> [u8; 16]
    ensures { result ≡ transform_r a }
{
    let mut b = a;
    b.rotate_right(1);
    b[0] = linear(a);
    b
}

// The inverse of R.
fn inverse_r(a: [u8; 16]) -> [u8; 16]
    ensures { result ≡ inverse_r a }
{
    let mut b = a;
    b.rotate_left(1);
    b[15] = linear(b);
    b
}

// Sixteen steps, one after the other.
fn sixteen_steps<F: Fn([u8; 16]) -> [u8; 16]>(step: F, a: [u8; 16]) -> [u8; 16]
    requires { F.IsAlwaysCallable step }
    ensures { (f : List ℕ → List ℕ) → ((x y : List ℕ) → F.post step x y → y ≡ f x) → result ≡ repeated 16 f a }
{
    let mut b = a;
    for _ in 0..16u8 {
        // in two steps: the checker does not cover an array that is replaced by a call on it
        let next = step(b);
        b = next;
    }
    b
}

// L.
pub fn transform_l(a: [u8; 16]) -> [u8; 16]
    ensures { result ≡ transform_l a }
{
    sixteen_steps(transform_r, a)
}

// The inverse of L.
pub fn inverse_l(a: [u8; 16]) -> [u8; 16]
    ensures { result ≡ inverse_l a }
{
    sixteen_steps(inverse_r, a)
}

// π of a byte.
fn substitution(x: u8) -> u8
    ensures { result ≡ substitution x }
{
    SUBSTITUTION[x as usize]
}

// The inverse of π as a table, tested once for all its entries.
fn inverse_table() -> &'static [u8; 256]
    ensures { InverseTable result.now }
{
    &SUBSTITUTION_INVERSE
}

// The inverse of π of a byte.
pub fn substitution_inverse(x: u8) -> u8
    ensures { result ≡ substitution_inverse x }
{
    inverse_table()[x as usize]
}

// S.
pub fn transform_s(a: [u8; 16]) -> [u8; 16]
    ensures { result ≡ transform_s a }
{
    a.map(substitution)
}

// The inverse of S.
pub fn inverse_s(a: [u8; 16]) -> [u8; 16]
    ensures { result ≡ inverse_s a }
{
    a.map(substitution_inverse)
}

// X[k].
pub fn add_key(a: [u8; 16], k: [u8; 16]) -> [u8; 16]
    ensures { result ≡ add_key k a }
{
    from_fn(|i| a[i] ^ k[i])
}

// LSX[k], one whole round.
pub fn lsx(a: [u8; 16], k: [u8; 16]) -> [u8; 16]
    ensures { result ≡ lsx k a }
{
    transform_l(transform_s(add_key(a, k)))
}
