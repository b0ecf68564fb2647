// A text that is fed in pieces. Each run walks over the cutting itself: of a cipher that a closure borrows, a proof knows nothing
// afterwards.
ghost use Rattle.std.specs.Prelude.{◌≡◌, min, ◌++◌, length};

// A text, or a sealed text, with its START and the lengths of the pieces in which it is fed.
#[derive(Clone, Copy)]
pub struct Feed<'a> {
    pub start: &'a [u8; 16],
    pub cutting: &'a [u8],
    pub text: &'a [u8],
}

// The next piece, as long as the cutting says or as far as the text goes, and what is left behind it.
pub fn cut_off<'a>(rest: &'a [u8], cut: u8) -> (&'a [u8], &'a [u8])
    ensures joined { rest.now ≡ result.0.now ++ result.1.now }
    ensures long { length result.0.now ≡ min cut (length rest.now) }
{
    rest.split_at(usize::from(cut).min(rest.len()))
}
