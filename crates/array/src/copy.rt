// A residue of n words, each of 32 bits, in an array of 16 words of 64 bits.
ghost use Rattle.std.specs.Prelude.{◌≡◌, ◌≤◌, length, take};
ghost use Rattle.array.specs.Array.{padded, Holds};
ghost use Rattle.array.specs.Words.{word_bound};

use crate::Word;

// The words of xs, and zeros after them.
pub fn load(xs: &[Word]) -> [u64; 16]
    requires { length xs.now ≤ 16 }
    ensures { result ≡ padded xs.now }
{
    let mut w = [0; 16];
    for (i, x) in xs.iter().enumerate() {
        w[i] = *x as u64;
    }
    w
}

// The first words of w, as many as xs has, into xs.
pub fn store(w: &[u64; 16], xs: &mut [Word])
    requires { (length xs.old ≤ 16) × Holds word_bound (length xs.old) w.now }
    ensures { xs.new ≡ take (length xs.old) w.now }
{
    for (i, x) in xs.iter_mut().enumerate() {
        *x = w[i] as Word;
    }
}
