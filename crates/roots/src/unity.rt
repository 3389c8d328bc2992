// Roots of unity modulo a prime p, where n divides p − 1: an element of order n, and ζ, the smallest of them.
ghost use Rattle.std.specs.Prelude.{◌≡◌, ◌≤◌, ◌<◌};
ghost use Rattle.roots.specs.Roots.{zeta, Admissible, OrderModulo};
ghost use Rattle.algebra.specs.Search.{Decides};

use modular::word::{mul, power};

// Whether w has order n.
fn has_order(p: u64, n: u64, w: u64) -> bool
    requires { (2 ≤ p) × (p ≤ 1048576) × (1 ≤ n) × (w < p) }
    ensures { Decides result (OrderModulo p n w) }
{
    let mut x = w;
    for _m in 1..n {
        if x == 1 {
            return false;
        }
        x = mul(p, x, w);
    }
    x == 1
}

// An element of order n: the first of the powers g^((p − 1)/n) that has it, for g = 31415, 31416, … modulo p. To start at 1 would be slower:
// if the smallest primes are n-th powers, so are the products of them, and these are most of the first numbers.
fn element_of_order(p: u64, n: u64) -> u64
    requires { Admissible p n }
    ensures { (result < p) × OrderModulo p n result }
{
    let k = (p - 1) / n;
    let mut g = 31415;
    let mut w = power(p, g % p, k);
    while !has_order(p, n, w) {
        g += 1;
        w = power(p, g % p, k);
    }
    w
}

// ζ, the smallest of the powers w, w², …, w^n of an element w of order n that have order n.
pub fn zeta(p: u64, n: u64) -> u64
    requires { Admissible p n }
    ensures { (result ≡ zeta p n) × (result < p) }
{
    let w = element_of_order(p, n);
    let mut least = w;
    let mut x = w;
    for _k in 1..n {
        x = mul(p, x, w);
        if x < least && has_order(p, n, x) {
            least = x;
        }
    }
    least
}
