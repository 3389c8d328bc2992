// The smallest c with c^n·a2 = a1 modulo a prime p, where n divides p − 1: one solution, times the n-th roots of unity, and the least of these.
ghost use Rattle.std.specs.Prelude.{◌≡◌, ◌*◌, ◌%◌, ◌^◌, ◌≤◌, ◌<◌, eqb};
ghost use Rattle.roots.specs.Roots.{root_of_ratio, Admissible, OrderModulo, Solvable};

use modular::word::{inverse, mul, power};

// m without the primes that it shares with n.
fn coprime_part(m: u64, n: u64) -> u64
    requires { (1 ≤ m) × (m ≤ 1048576) × (n ≤ 16) }
    ensures { (1 ≤ result) × (result ≤ 1048576) }
{
    let mut r = m;
    for q in 2..=n {
        while n % q == 0 && r % q == 0 {
            r /= q;
        }
    }
    r
}

// The inverse of n modulo m, for m prime to n: (1 + k·m)/n for the one k below n that makes it whole. Nothing is promised of it: what comes
// of it is a candidate, which is tried and not trusted.
fn inverse_of_degree(m: u64, n: u64) -> u64
    requires { (m ≤ 1048576) × (1 ≤ n) × (n ≤ 16) }
{
    let mut x = 1;
    for _k in 0..n {
        if x % n == 0 {
            return x / n;
        }
        x += m;
    }
    0
}

// The first of y, y·h, …, y·h^(q − 1) whose power with exponent k is x.
fn adjust(p: u64, k: u64, x: u64, h: u64, q: u64, y: u64) -> u64
    requires { (0 < p) × (p ≤ 1048576) × (h < p) × (q ≤ 16) × (y < p) }
    ensures { result < p }
{
    let mut r = y;
    for _j in 0..q {
        if power(p, r, k) == x {
            return r;
        }
        r = mul(p, r, h);
    }
    r
}

// What the search for roots needs of p and n: let p − 1 = n·m·d, m prime to n and every prime of d one of n. The exponent is the inverse of n modulo m, and the
// generator g^m, for a g of which g^((p − 1)/n) has order n: it has order n·d. Nothing is promised of these numbers but their size.
#[derive(Clone, Copy)]
pub struct Group {
    pub exponent: u64,
    pub generator: u64,
    pub index: u64,
}

// The numbers for g, worked out once for all roots.
pub fn prepare(p: u64, n: u64, g: u64) -> Group
    requires admissible { Admissible p n }
    requires below { g < p }
    ensures { (result.generator < p) × (result.index ≤ 1048576) }
{
    let k = (p - 1) / n;
    let m = coprime_part(k, n);
    Group {
        exponent: inverse_of_degree(m, n),
        generator: power(p, g, m),
        index: k / m,
    }
}

// A number that is tried as a solution y of y^n = b. If r is the inverse of n modulo m, y = b^r has (b/y^n)^d = 1. And y times a power of the generator h with exponent below
// a prime q of d satisfies the same with d/q for d; then h^q takes the place of h.
fn candidate(p: u64, n: u64, by: Group, b: u64) -> u64
    requires admissible { Admissible p n }
    requires group { (by.generator < p) × (by.index ≤ 1048576) × (b < p) }
    ensures { result < p }
{
    let mut y = power(p, b, by.exponent);
    let mut h = by.generator;
    let mut d = by.index;
    for q in 2..=n {
        while d > 1 && d % q == 0 {
            d /= q;
            y = adjust(p, n * d, power(p, b, d), h, q, y);
            h = power(p, h, q);
        }
    }
    y
}

// Whether c^n·a2 = a1.
fn solves(p: u64, n: u64, a1: u64, a2: u64, c: u64) -> bool
    requires { (0 < p) × (p ≤ 1048576) × (a2 < p) × (c < p) }
    ensures { result ≡ eqb (c ^ n * a2 % p) a1 }
{
    mul(p, power(p, c, n), a2) == a1
}

// Some c with c^n·a2 = a1: the candidate, or else the first that a scan finds.
fn solution(p: u64, n: u64, by: Group, a1: u64, a2: u64) -> u64
    requires admissible { Admissible p n }
    requires group { (by.generator < p) × (by.index ≤ 1048576) }
    requires solvable { Solvable p n a1 a2 }
    ensures { (result < p) × (result ^ n * a2 % p ≡ a1) }
{
    let y = candidate(p, n, by, mul(p, a1, inverse(p, a2)));
    if solves(p, n, a1, a2, y) {
        return y;
    }
    let mut c = 1;
    while !solves(p, n, a1, a2, c) {
        c += 1;
    }
    c
}

// The smallest c with c^n·a2 = a1, given ζ and the group's numbers.
pub fn root_of_ratio(p: u64, n: u64, z: u64, by: Group, a1: u64, a2: u64) -> u64
    requires admissible { Admissible p n }
    requires group { (by.generator < p) × (by.index ≤ 1048576) }
    requires order { (z < p) × OrderModulo p n z }
    requires solvable { Solvable p n a1 a2 }
    ensures { (result ≡ root_of_ratio p n a1 a2) × (result < p) }
{
    let mut x = solution(p, n, by, a1, a2);
    let mut least = x;
    for _k in 1..n {
        x = mul(p, x, z);
        if x < least {
            least = x;
        }
    }
    least
}
