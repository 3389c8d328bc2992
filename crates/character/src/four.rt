// The powers of four numbers at once. In one power each product waits for the one before; four powers
// fill that time with one another's products. The loops have a known number of turns, so that the
// compiler unrolls them.
ghost use Rattle.std.specs.Prelude.{ℕ, ◌≡◌, ◌%◌, ◌^◌, ◌<◌, slice_index};
ghost use Rattle.character.specs.Four.{Product, Step, Low};

use modular::barrett::Barrett;

// The products of the numbers of x with those of y modulo p, below 2·p.
fn multiply(m: Barrett, x: [u64; 4], y: [u64; 4]) -> [u64; 4]
    requires { Low m.p x × Low m.p y }
    ensures { Product m.p x y result }
{
    let mut r = [0; 4];
    for i in 0..4 {
        r[i] = m.near(x[i] * y[i]);
    }
    r
}

// The products where the exponent is odd, else x.
fn step(m: Barrett, odd: bool, x: [u64; 4], y: [u64; 4]) -> [u64; 4]
    requires { Low m.p x × Low m.p y }
    ensures { Step m.p odd x y result }
{
    if odd { multiply(m, x, y) } else { x }
}

// The four numbers modulo p.
fn reduced(m: Barrett, x: [u64; 4]) -> [u64; 4]
    requires { Low m.p x }
    ensures value { (i : ℕ) → i < 4 → slice_index result i ≡ slice_index x i % m.p }
    ensures below { (i : ℕ) → i < 4 → slice_index result i < m.p }
{
    let mut r = [0; 4];
    for i in 0..4 {
        r[i] = m.reduce(x[i]);
    }
    r
}

// The powers with exponent k, modulo p. In each turn r·b^e = x^k, and e is halved.
pub fn powers(m: Barrett, k: u64, x: [u64; 4]) -> [u64; 4]
    requires { Low m.p x }
    ensures value { (i : ℕ) → i < 4 → slice_index result i ≡ slice_index x i ^ k % m.p }
    ensures below { (i : ℕ) → i < 4 → slice_index result i < m.p }
{
    let mut r = [1; 4];
    let mut b = x;
    let mut e = k;
    while e > 0 {
        let product = step(m, e % 2 == 1, r, b);
        let square = multiply(m, b, b);
        r = product;
        b = square;
        e /= 2;
    }
    reduced(m, r)
}
