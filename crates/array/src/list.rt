// Tests on a list of words.
ghost use Rattle.std.specs.Prelude.{◌≡◌};
ghost use Rattle.array.specs.Words.{all_below};

use crate::Word;

// Whether every word of xs is below p. A search that stops at the first word that is not takes one word at a time; all are compared many at a time.
pub fn below(p: u32, xs: &[Word]) -> bool
    ensures { result ≡ all_below p xs.now }
{
    let mut tested = true;
    for x in xs {
        tested &= *x < p;
    }
    tested
}
