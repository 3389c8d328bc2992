// A table of the powers a^k modulo p of the numbers below 128, for one exponent k. A word is 0 until its power is known. The power of a number with a
// factor 2, 3, 5 or 7 is the product of two powers, and those of the primes are worked out four at a time.
ghost use Rattle.std.specs.Prelude.{◌≡◌, ◌%◌, ◌^◌, ◌≤◌, ◌<◌, IfSome};
ghost use Rattle.character.specs.Table.{Table, Ascending};
ghost use Rattle.character.specs.Four.{Low};

use crate::four::powers;
use modular::barrett::Barrett;
use modular::word::power;

// The four primes from i on where i is 2, 11, 23, …, so that all primes up to 131 come in turn.
fn primes_from(i: u64) -> Option<[u64; 4]>
    ensures { IfSome result (λ x. Ascending x) }
{
    match i {
        2 => Some([2, 3, 5, 7]),
        11 => Some([11, 13, 17, 19]),
        23 => Some([23, 29, 31, 37]),
        41 => Some([41, 43, 47, 53]),
        59 => Some([59, 61, 67, 71]),
        73 => Some([73, 79, 83, 89]),
        97 => Some([97, 101, 103, 107]),
        109 => Some([109, 113, 127, 131]),
        _ => None,
    }
}

// The first of 2, 3, 5 and 7 that divides i, or 1.
fn small_factor(i: usize) -> usize
    ensures { (1 ≤ result) × (result < 8) × (i % result ≡ 0) }
{
    if i % 2 == 0 {
        return 2;
    }
    if i % 3 == 0 {
        return 3;
    }
    if i % 5 == 0 {
        return 5;
    }
    if i % 7 == 0 {
        return 7;
    }
    1
}

// The power of i as a product of two words of the table: 0 where one of these is 0.
fn product(m: Barrett, k: u64, i: usize, c: &[u64; 128]) -> u64
    requires index { i < 128 }
    requires table { Table m.p k c.now }
    ensures { ((result ≡ 0 → ⊥) → result ≡ i ^ k % m.p) × (result < m.p) }
{
    let q = small_factor(i);
    m.reduce(c[q] * c[i / q])
}

// The power of a number: from the table, or from two words of it, or by products.
fn value(m: Barrett, k: u64, a: u64, c: &[u64; 128]) -> u64
    requires below { a < m.p }
    requires table { Table m.p k c.now }
    ensures { (result ≡ a ^ k % m.p) × (result < m.p) }
{
    if a < 128 {
        let i = a as usize;
        if c[i] != 0 {
            return c[i];
        }
        let r = product(m, k, i, c);
        if r != 0 {
            return r;
        }
    }
    power(m.p, a, k)
}

// Writes one power into the table, if it has a place for it.
fn write(p: u64, k: u64, a: u64, r: u64, c: &mut [u64; 128])
    requires power { (r ≡ a ^ k % p) × (r < p) }
    requires table { Table p k c.old }
    ensures { Table p k c.new }
{
    if a >= 128 {
        return;
    }
    c[a as usize] = r;
}

// Writes the powers of four numbers into the table.
fn enter(m: Barrett, k: u64, x: [u64; 4], c: &mut [u64; 128])
    requires low { Low m.p x }
    requires table { Table m.p k c.old }
    ensures { Table m.p k c.new }
{
    let r = powers(m, k, x);
    for i in 0..4 {
        write(m.p, k, x[i], r[i], c);
    }
}

// Writes the powers of the four primes from a on into the table, if four come together there and are below p.
fn extend(m: Barrett, k: u64, a: u64, c: &mut [u64; 128])
    requires table { Table m.p k c.old }
    ensures { Table m.p k c.new }
{
    match primes_from(a) {
        Some(x) if x[3] < m.p => enter(m, k, x, c),
        _ => {}
    }
}

// The power of the number a; the table holds it afterwards, if it has a place for it.
pub fn next(m: Barrett, k: u64, a: u64, c: &mut [u64; 128]) -> u64
    requires below { a < m.p }
    requires table { Table m.p k c.old }
    ensures value { (result ≡ a ^ k % m.p) × (result < m.p) }
    ensures table_after { Table m.p k c.new }
{
    extend(m, k, a, c);
    let r = value(m, k, a, c);
    write(m.p, k, a, r, c);
    r
}
