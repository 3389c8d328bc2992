// The traces of X, X^2, …, X^n modulo T = X^n + t[n−1]·X^(n−1) + … + t[0], by Newton's identities:
//   Tr(X^k) = −(k·t[n−k] + t[n−k+1]·Tr(X) + … + t[n−1]·Tr(X^(k−1))) for k up to n.
// Only the size of the words is promised: the polynomial that rests on them is a guess.
ghost use Rattle.std.specs.Prelude.{◌+◌, ◌*◌, ◌≤◌, ◌<◌};
ghost use Rattle.array.specs.Array.{Holds};

use modular::barrett::times;
use residue::modulus::Modulus;

// Tr(X^(k+1)), from the k traces before it: the sum is reduced once, and its opposite is taken as it comes, which is at most 2·p. The last of the k traces,
// or 0 where there is none, is handed over by itself: read from the array, where it has just been written, it would come later.
fn trace(k: usize, last: u64, t: &Modulus, s: &[u64; 16]) -> u64
    requires sizes { (k < t.now.n) × (last ≤ 2 * t.now.d.p) }
    requires holds { Holds (2 * t.now.d.p + 1) k s.now }
    ensures { result ≤ 2 * t.now.d.p }
{
    let first = t.n - k - 1;
    let mut sum = times(k as u64 + 1, t.words[first]);
    for j in 1..k {
        sum += times(s[j - 1], t.words[first + j]);
    }
    t.d.opposite(sum + times(last, t.words[t.n - 1]))
}

// The traces of X, …, X^n, each at most 2·p.
pub fn traces(t: &Modulus) -> [u64; 16]
    ensures { Holds (2 * t.now.d.p + 1) t.now.n result }
{
    let mut s = [0; 16];
    let mut last = 0;
    for k in 0..t.n {
        last = trace(k, last, t, &s);
        s[k] = last;
    }
    s
}
