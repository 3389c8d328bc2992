// The lower words of all multiples of D of one degree, as numbers in base p, by the higher words: one word after the other, from the highest down.
ghost use Rattle.std.specs.Prelude.{◌≡◌, ◌+◌, ◌*◌, ◌^◌, ◌≤◌, ◌<◌, length, take};
ghost use Rattle.sieve.specs.Clauses.{WordsBelow, Collected, Lows};

use crate::plane::{add, narrow, plane};
use residue::modulus::Modulus;

// The number with the digits of a, and b for one more, the lowest.
fn append(p: u16, a: u16, b: u16) -> u16
    requires { (p ≤ 256) × (a < 256) × (b < p) }
    ensures { result ≡ a * p + b }
{
    a * p + b
}

// One more digit, the lowest: each number becomes p times it plus the word of the plane, to which s is added.
fn collect(p: u16, count: usize, s: u16, xs: &[u16; 32768], codes: &mut [u16; 32768])
    requires sizes { (2 ≤ p) × (p ≤ 256) × (s < p) × (count ≤ 32768) × (length codes.old ≡ 32768) }
    requires words_below { WordsBelow p count xs.now × WordsBelow 256 count codes.old }
    ensures { Collected p count s xs.now codes.old codes.new }
{
    for h in 0..count {
        codes[h] = append(p, codes[h], add(p, xs[h], s));
    }
}

// Zeros in place of the first words.
fn clear(count: usize, codes: &mut [u16; 32768])
    requires { (count ≤ 32768) × (length codes.old ≡ 32768) }
    ensures { WordsBelow 1 count codes.new }
{
    codes[..count].fill(0);
}

// The lower words of the multiples of D of degree n + k: the number for the higher words h, an integer below p^k. The array xs is lent for the words.
pub fn lows(t: &Modulus, k: usize, count: usize, xs: &mut [u16; 32768], codes: &mut [u16; 32768])
    requires sizes { (t.now.n ≤ k) × (t.now.n + k ≤ 16) × (t.now.d.p ^ (t.now.n + k) ≤ 65536) × (count ≡ t.now.d.p ^ k) }
    requires rooms { (length xs.old ≡ 32768) × (length codes.old ≡ 32768) }
    ensures room_after { length xs.new ≡ 32768 }
    ensures lows { Lows t.now.d.p (take t.now.n t.now.words) k 0 codes.new }
{
    clear(count, codes);
    for j in (0..t.n).rev() {
        let s = plane(t, k, j, xs);
        collect(narrow(t.d.p), count, s, xs, codes);
    }
}
