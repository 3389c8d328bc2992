// Sums and differences of words, wrapped at 32 bits.
ghost use Rattle.std.specs.Prelude.{◌≡◌, ◌+◌, ◌%◌};
ghost use Rattle.array.specs.Words.{word_bound};

use array::Word;

// a + b.
pub fn plus(a: Word, b: Word) -> Word
    ensures { result ≡ (a + b) % word_bound }
{
    a.wrapping_add(b)
}

// a − b: the word to which b is added to make a.
pub fn minus(a: Word, b: Word) -> Word
    ensures { (result + b) % word_bound ≡ a }
{
    a.wrapping_sub(b)
}
