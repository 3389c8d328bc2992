// The product of two residues modulo T by Horner's rule, two steps at a time. What the words of u with an even index bring in is added into the array e, what those
// with an odd index bring in into o, one place lower than it counts: so rows are added at even places only, and no word is moved from step to step. The top word
// of each step goes out as a multiple of T; all others are reduced once, at the end.
ghost use Rattle.std.specs.Prelude.{◌≡◌, ◌∷◌, ◌+◌, ◌-◌, ◌*◌, ◌/◌, ◌%◌, ◌^◌, ◌≤◌, ◌<◌, length, get_or, set, take, drop, replicate};
ghost use Rattle.quotient.specs.Residue.{times_x, product};
ghost use Rattle.array.specs.Array.{padded, Holds};
ghost use Rattle.residue.specs.Delayed.{reduced, joined, Added, Half, Halves};

use crate::modulus::Modulus;
use modular::barrett::{Barrett, times};

// x + c·v + q·t.
fn plus_products(x: u64, c: u64, v: u64, q: u64, t: u64) -> u64
    requires { (x ≤ 2 ^ 60) × (c < 2 ^ 20) × (v < 2 ^ 20) × (q ≤ 2 ^ 21) × (t < 2 ^ 20) }
    ensures { (result ≡ x + c * v + q * t) × (result ≤ 2 ^ 62) }
{
    x + times(c, v) + times(q, t)
}

// Adds c·v[j] + q·t[j] to word i + j of z.
fn add_at(i: usize, j: usize, c: u64, v: &[u64; 16], q: u64, t: &[u64; 16], z: &mut [u64; 32])
    requires inside { (i < 16) × (j < 16) × (length v.now ≡ 16) × (length t.now ≡ 16) × (length z.old ≡ 32) }
    requires small { (c < 2 ^ 20) × (get_or v.now j 0 < 2 ^ 20) × (q ≤ 2 ^ 21) × (get_or t.now j 0 < 2 ^ 20) × (get_or z.old (i + j) 0 ≤ 2 ^ 60) }
    ensures { z.new ≡ set z.old (i + j) (get_or z.old (i + j) 0 + c * get_or v.now j 0 + q * get_or t.now j 0) }
{
    let k = i + j;
    z[k] = plus_products(z[k], c, v[j], q, t[j]);
}

// Adds c·v + q·t to the words of e from word i on, and b·v + r·t to those of o.
fn add_rows(
    i: usize,
    t: &Modulus,
    v: &[u64; 16],
    c: u64,
    q: u64,
    b: u64,
    r: u64,
    e: &mut [u64; 32],
    o: &mut [u64; 32],
)
    requires index { i < t.now.n }
    requires factors { (c < t.now.d.p) × (q ≤ 2 * t.now.d.p) × (b < t.now.d.p) × (r ≤ 2 * t.now.d.p) }
    requires holds { Holds t.now.d.p t.now.n v.now }
    requires half { Half t.now.d.p t.now.n 16 i e.old × Half t.now.d.p t.now.n 16 i o.old }
    ensures even_row { Added i c q v.now t.now.words t.now.n e.old e.new }
    ensures odd_row { Added i b r v.now t.now.words t.now.n o.old o.new }
{
    for j in 0..t.n {
        add_at(i, j, c, v, q, &t.words, e);
        add_at(i, j, b, v, r, &t.words, o);
    }
}

// The top word between the two steps: that of X·w + b·v, after the top word of w has gone out as r·t. The words of w are the joined ones from word i + 2 on.
fn middle_top(
    i: usize,
    b: u64,
    v: &[u64; 16],
    r: u64,
    t: &Modulus,
    e: &[u64; 32],
    o: &[u64; 32],
) -> u64
    requires sizes { (i + 2 ≤ t.now.n) × (b < t.now.d.p) × (r ≤ 2 * t.now.d.p) }
    requires holds { Holds t.now.d.p t.now.n v.now }
    requires half { Half t.now.d.p t.now.n 16 (i + 2) e.now × Half t.now.d.p t.now.n 16 (i + 2) o.now }
    ensures { result ≡ get_or e.now (i + t.now.n) 0 + (get_or o.now (i + t.now.n - 1) 0 + b * get_or v.now (t.now.n - 1) 0 + r * get_or t.now.words (t.now.n - 1) 0) }
{
    e[i + t.n] + plus_products(o[i + t.n - 1], b, v[t.n - 1], r, t.words[t.n - 1])
}

// The top word after both steps. It is worked out before the others, because the next step waits for it alone.
fn next_top(
    i: usize,
    c: u64,
    b: u64,
    v: &[u64; 16],
    q: u64,
    r: u64,
    t: &Modulus,
    e: &[u64; 32],
    o: &[u64; 32],
) -> u64
    requires sizes { (i + 2 ≤ t.now.n) × (c < t.now.d.p) × (b < t.now.d.p) × (q ≤ 2 * t.now.d.p) × (r ≤ 2 * t.now.d.p) }
    requires holds { Holds t.now.d.p t.now.n v.now }
    requires half { Half t.now.d.p t.now.n 16 (i + 2) e.now × Half t.now.d.p t.now.n 16 (i + 2) o.now }
    ensures { result ≡ get_or e.now (i + t.now.n - 1) 0 + c * get_or v.now (t.now.n - 1) 0 + q * get_or t.now.words (t.now.n - 1) 0 + (get_or o.now (i + t.now.n - 2) 0 + b * get_or v.now (t.now.n - 2) 0 + r * get_or t.now.words (t.now.n - 2) 0) }
{
    plus_products(e[i + t.n - 1], c, v[t.n - 1], q, t.words[t.n - 1])
        + plus_products(o[i + t.n - 2], b, v[t.n - 2], r, t.words[t.n - 2])
}

// Two steps of Horner's rule: from the product of the words of u from word i + 2 on, whose top word is h, to that of the words from word i on, whose top word is
// handed back.
#[inline(always)]
fn two_steps(
    i: usize,
    t: &Modulus,
    u: &[u64; 16],
    v: &[u64; 16],
    h: u64,
    e: &mut [u64; 32],
    o: &mut [u64; 32],
) -> u64
    requires index { i + 2 ≤ t.now.n }
    requires holds { Holds t.now.d.p t.now.n u.now × Holds t.now.d.p t.now.n v.now }
    requires halves { Halves t.now.d.p t.now.n (t.now.n - (i + 2)) (i + 2) (product t.now.d.p (take t.now.n t.now.words) (drop (i + 2) (take t.now.n u.now)) (take t.now.n v.now)) e.old o.old }
    requires top_word { h ≡ get_or (joined t.now.n (i + 2) e.old o.old) (t.now.n - 1) 0 }
    ensures halves_after { Halves t.now.d.p t.now.n (t.now.n - i) i (product t.now.d.p (take t.now.n t.now.words) (drop i (take t.now.n u.now)) (take t.now.n v.now)) e.new o.new }
    ensures value { result ≡ get_or (joined t.now.n i e.new o.new) (t.now.n - 1) 0 }
{
    let c = u[i];
    let b = u[i + 1];
    let r = t.d.opposite(h);
    let x = middle_top(i, b, v, r, t, e, o);
    let q = t.d.opposite(x);
    let top = next_top(i, c, b, v, q, r, t, e, o);
    add_rows(i, t, v, c, q, b, r, e, o);
    top
}

// Where n is odd, one step by itself: the product of the top word of u and v, whose top word is handed back. Where n is even, nothing.
fn start(t: &Modulus, u: &[u64; 16], v: &[u64; 16], e: &mut [u64; 32], o: &mut [u64; 32]) -> u64
    requires holds { Holds t.now.d.p t.now.n u.now × Holds t.now.d.p t.now.n v.now }
    requires zeros { (e.old ≡ replicate 32 0) × (o.old ≡ replicate 32 0) }
    ensures halves { Halves t.now.d.p t.now.n (t.now.n - 2 * (t.now.n / 2)) (2 * (t.now.n / 2)) (product t.now.d.p (take t.now.n t.now.words) (drop (2 * (t.now.n / 2)) (take t.now.n u.now)) (take t.now.n v.now)) e.new o.new }
    ensures value { result ≡ get_or (joined t.now.n (2 * (t.now.n / 2)) e.new o.new) (t.now.n - 1) 0 }
{
    let n = t.n;
    if n % 2 == 0 {
        return 0;
    }
    let c = u[n - 1];
    add_rows(n - 1, t, v, c, 0, 0, 0, e, o);
    times(c, v[n - 1])
}

// u·v modulo T into e and o, which are 0; the words are not reduced. Handed back is the top word.
#[inline(always)]
fn accumulate(
    t: &Modulus,
    u: &[u64; 16],
    v: &[u64; 16],
    e: &mut [u64; 32],
    o: &mut [u64; 32],
) -> u64
    requires holds { Holds t.now.d.p t.now.n u.now × Holds t.now.d.p t.now.n v.now }
    requires zeros { (e.old ≡ replicate 32 0) × (o.old ≡ replicate 32 0) }
    ensures halves { Halves t.now.d.p t.now.n t.now.n 0 (product t.now.d.p (take t.now.n t.now.words) (take t.now.n u.now) (take t.now.n v.now)) e.new o.new }
    ensures value { result ≡ get_or (joined t.now.n 0 e.new o.new) (t.now.n - 1) 0 }
{
    let mut h = start(t, u, v, e, o);
    for k in (0..t.n / 2).rev() {
        h = two_steps(2 * k, t, u, v, h, e, o);
    }
    h
}

// Word j of the joined words of e and o.
fn joined_word(p: u64, n: usize, j: usize, e: &[u64; 32], o: &[u64; 32]) -> u64
    requires sizes { (p ≤ 2 ^ 20) × (n ≤ 16) × (j < n) }
    requires halves { Halves p n n 0 (reduced p (take n (joined n 0 e.now o.now))) e.now o.now }
    ensures { (result ≡ get_or (joined n 0 e.now o.now) j 0) × (result ≤ 64 * (p * p)) }
{
    if j == 0 {
        return e[0];
    }
    e[j] + o[j - 1]
}

// The joined words of e and o, each modulo p, into w, which is 0.
fn reduce_joined(d: Barrett, n: usize, e: &[u64; 32], o: &[u64; 32], w: &mut [u64; 16])
    requires degree { n ≤ 16 }
    requires halves { Halves d.p n n 0 (reduced d.p (take n (joined n 0 e.now o.now))) e.now o.now }
    requires zeros { w.old ≡ replicate 16 0 }
    ensures { w.new ≡ padded (reduced d.p (take n (joined n 0 e.now o.now))) }
{
    for j in 0..n {
        w[j] = d.reduce(joined_word(d.p, n, j, e, o));
    }
}

// Word j of X times the joined words of e and o, whose top word goes out as q·t.
fn shifted_word(j: usize, q: u64, t: &Modulus, e: &[u64; 32], o: &[u64; 32]) -> u64
    requires sizes { (j < t.now.n) × (q ≤ 2 * t.now.d.p) }
    requires halves { Halves t.now.d.p t.now.n t.now.n 0 (reduced t.now.d.p (take t.now.n (joined t.now.n 0 e.now o.now))) e.now o.now }
    ensures { (result ≡ get_or (0 ∷ joined t.now.n 0 e.now o.now) j 0 + q * get_or t.now.words j 0) × (result ≤ 64 * (t.now.d.p * t.now.d.p)) }
{
    if j == 0 {
        return times(q, t.words[0]);
    }
    joined_word(t.d.p, t.n, j - 1, e, o) + times(q, t.words[j])
}

// X times the joined words of e and o, modulo T, into w, which is 0; q is the opposite of their top word.
fn reduce_shifted(q: u64, t: &Modulus, e: &[u64; 32], o: &[u64; 32], w: &mut [u64; 16])
    requires opposite { (q ≤ 2 * t.now.d.p) × ((q + get_or (joined t.now.n 0 e.now o.now) (t.now.n - 1) 0) % t.now.d.p ≡ 0) }
    requires halves { Halves t.now.d.p t.now.n t.now.n 0 (reduced t.now.d.p (take t.now.n (joined t.now.n 0 e.now o.now))) e.now o.now }
    requires zeros { w.old ≡ replicate 16 0 }
    ensures { w.new ≡ padded (times_x t.now.d.p (take t.now.n t.now.words) (reduced t.now.d.p (take t.now.n (joined t.now.n 0 e.now o.now)))) }
{
    for j in 0..t.n {
        w[j] = t.d.reduce(shifted_word(j, q, t, e, o));
    }
}

// u·v modulo T into w, which is 0: the words of the sum are reduced once, at the end. The two
// arrays are made here, and `accumulate` and `two_steps` are put in their place, so that the
// compiler sees that the arrays overlap with no other; called, the two take a third longer.
pub fn multiply_into(t: &Modulus, u: &[u64; 16], v: &[u64; 16], w: &mut [u64; 16])
    requires holds { Holds t.now.d.p t.now.n u.now × Holds t.now.d.p t.now.n v.now }
    requires zeros { w.old ≡ replicate 16 0 }
    ensures { w.new ≡ padded (product t.now.d.p (take t.now.n t.now.words) (take t.now.n u.now) (take t.now.n v.now)) }
{
    let mut e = [0; 32];
    let mut o = [0; 32];
    accumulate(t, u, v, &mut e, &mut o);
    reduce_joined(t.d, t.n, &e, &o, w);
}

// X·u·v modulo T into w, which is 0, likewise.
pub fn multiply_times_x_into(t: &Modulus, u: &[u64; 16], v: &[u64; 16], w: &mut [u64; 16])
    requires holds { Holds t.now.d.p t.now.n u.now × Holds t.now.d.p t.now.n v.now }
    requires zeros { w.old ≡ replicate 16 0 }
    ensures { w.new ≡ padded (times_x t.now.d.p (take t.now.n t.now.words) (product t.now.d.p (take t.now.n t.now.words) (take t.now.n u.now) (take t.now.n v.now))) }
{
    let mut e = [0; 32];
    let mut o = [0; 32];
    let top = accumulate(t, u, v, &mut e, &mut o);
    reduce_shifted(t.d.opposite(top), t, &e, &o, w);
}
