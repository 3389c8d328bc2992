// Word j of H·D modulo D, where D stands for its lower words, for all lists H of k words at once: that for the list with the number x in base p is word x of an array. With each
// further word of H there are p times as many, in p blocks: block a has the words so far, each plus a times word j of X^k·D.
ghost use Rattle.std.specs.Prelude.{◌≡◌, ◌+◌, ◌*◌, ◌%◌, ◌^◌, ◌≤◌, ◌<◌, length, get_or, take};
ghost use Rattle.array.specs.Array.{Holds};
ghost use Rattle.matrix.specs.Matrix.{multiple};
ghost use Rattle.sieve.specs.Clauses.{WordsBelow, Block, Extended, Plane};

use residue::modulus::Modulus;
use residue::ring::times_x;

// a + b modulo p.
pub fn add(p: u16, a: u16, b: u16) -> u16
    requires { (p ≤ 256) × (a < p) × (b < p) }
    ensures { (result ≡ (a + b) % p) × (result < p) }
{
    let sum = a + b;
    if sum < p { sum } else { sum - p }
}

// A word below 2^16 in 16 bits.
pub fn narrow(x: u64) -> u16
    requires { x < 65536 }
    ensures { result ≡ x }
{
    x as u16
}

// The block from word `to` on: the first words, each plus v.
fn add_block(p: u16, size: usize, to: usize, v: u16, xs: &mut [u16; 32768])
    requires sizes { (p ≤ 256) × (v < p) × (size ≤ to) × (to + size ≤ 32768) }
    requires words_below { WordsBelow p size xs.old }
    ensures { Block p size to v xs.old xs.new }
{
    for x in 0..size {
        xs[to + x] = add(p, xs[x], v);
    }
}

// The p blocks for one more word, of which the first is there: block a has the first words plus a·c. In each turn all blocks that are there are added to at once, so that their number
// doubles; in the last turn only as many as are left. Handed back is how many words there are then.
fn extend(p: u16, size: usize, c: u16, xs: &mut [u16; 32768]) -> usize
    requires sizes { (2 ≤ p) × (p ≤ 256) × (c < p) × (1 ≤ size) × (p * size ≤ 32768) }
    requires words_below { WordsBelow p size xs.old }
    ensures value { result ≡ p * size }
    ensures extended { Extended p p size c xs.old xs.new }
{
    let end = p as usize * size;
    let mut v = c;
    let mut to = size;
    while to < end {
        let more = to.min(end - to);
        add_block(p, more, to, v, xs);
        v = add(p, v, v);
        to += more;
    }
    end
}

// Word j of a residue, in 16 bits.
fn word(p: u64, n: usize, j: usize, w: &[u64; 16]) -> u16
    requires { (p ≤ 256) × (j < n) × (n ≤ 16) × Holds p n w.now }
    ensures { (result ≡ get_or w.now j 0) × (result < p) }
{
    narrow(w[j])
}

// Word j of H·D modulo D for all H of k words. Handed back is word j of X^k·D.
pub fn plane(t: &Modulus, k: usize, j: usize, xs: &mut [u16; 32768]) -> u16
    requires sizes { (t.now.d.p ≤ 256) × (j < t.now.n) × (t.now.d.p ^ k ≤ 32768) }
    requires room { length xs.old ≡ 32768 }
    ensures plane { Plane t.now.d.p (take t.now.n t.now.words) k j xs.new }
    ensures value { result ≡ get_or (multiple t.now.d.p (take t.now.n t.now.words) (take t.now.n t.now.words) k) j 0 }
{
    let p = narrow(t.d.p);
    let mut w = t.words;
    let mut size = 1;
    xs[0] = 0;
    for _ in 0..k {
        size = extend(p, size, word(t.d.p, t.n, j, &w), xs);
        times_x(t, &mut w);
    }
    word(t.d.p, t.n, j, &w)
}
