// Arithmetic modulo p on words below p, for p up to 2^20. Only this repository calls these functions, so they state what they require.
ghost use Rattle.std.specs.Prelude.{◌≡◌, ◌+◌, ◌-◌, ◌*◌, ◌%◌, ◌^◌, ◌≤◌, ◌<◌, ◌⊎◌};
ghost use Rattle.algebra.specs.Prime.{Prime};
ghost use Rattle.modular.specs.Inverse.{inverse as inverse_of};

use crate::barrett::Barrett;

// a + b modulo p.
pub fn add(p: u64, a: u64, b: u64) -> u64
    requires { (p ≤ 1048576) × (a < p) × (b < p) }
    ensures { (result ≡ (a + b) % p) × (result < p) }
{
    let sum = a + b;
    if sum < p { sum } else { sum - p }
}

// a − b modulo p.
pub fn sub(p: u64, a: u64, b: u64) -> u64
    requires { (p ≤ 1048576) × (a < p) × (b < p) }
    ensures { (result ≡ (a + (p - b)) % p) × (result < p) }
{
    if b <= a { a - b } else { a + (p - b) }
}

// x modulo p, for a number x of any size. One that is below p is not divided.
pub fn remainder(p: u64, x: u64) -> u64
    requires { 0 < p }
    ensures { (result ≡ x % p) × (result < p) }
{
    if x < p { x } else { x % p }
}

// a·b modulo p.
pub fn mul(p: u64, a: u64, b: u64) -> u64
    requires { (0 < p) × (a ≤ 1048576) × (b ≤ 1048576) }
    ensures { (result ≡ (a * b) % p) × (result < p) }
{
    a * b % p
}

// a^k modulo p. In each turn r·b^e = a^k, and e is halved; r and b are below 2·p, and only the last is reduced.
pub fn power(p: u64, a: u64, k: u64) -> u64
    requires { (0 < p) × (p ≤ 1048576) × (a ≤ 1048576) }
    ensures { (result ≡ (a ^ k) % p) × (result < p) }
{
    if p < 2 {
        return 0;
    }
    let d = Barrett::new(p);
    let mut r = 1;
    let mut b = remainder(p, a);
    let mut e = k;
    while e > 0 {
        if e % 2 == 1 {
            r = d.near(r * b);
        }
        b = d.near(b * b);
        e = e / 2;
    }
    d.reduce(r)
}

// Some t with a·t = 1 or a·t = −1 modulo p, by Euclid's algorithm on p and a. In each turn x·t + y·s = p, and a·t = y, a·s = −x modulo p
// or both with the other sign. So a common divisor of x and y divides p, and y is never 0.
fn cofactor(p: u64, a: u64) -> u64
    requires prime { Prime p }
    requires p_bound { (p ≤ 1048576) × (0 < a) × (a < p) }
    ensures { (result < p) × (((a * result) % p ≡ 1) ⊎ ((a * (p - result)) % p ≡ 1)) }
{
    let mut x = p;
    let mut s = 0;
    let mut y = a;
    let mut t = 1;
    while y != 1 {
        let q = x / y;
        let rest = x - q * y;
        let next = s + q * t;
        x = y;
        y = rest;
        s = t;
        t = next;
    }
    t
}

// The inverse of a modulo p. One product tells which sign the cofactor has.
pub fn inverse(p: u64, a: u64) -> u64
    requires prime { Prime p }
    requires p_bound { (p ≤ 1048576) × (0 < a) × (a < p) }
    ensures { (result ≡ inverse_of p a) × (result < p) }
{
    let t = cofactor(p, a);
    if mul(p, a, t) == 1 { t } else { p - t }
}
