// The number a of which both eigenvectors become n-th roots: the smallest with a^((p − 1)/n) = ζ modulo a prime p, where n divides p − 1.
ghost use Rattle.std.specs.Prelude.{true, ◌≡◌, ◌-◌, ◌/◌, ◌%◌, ◌^◌, ◌<◌};
ghost use Rattle.roots.specs.Roots.{radicand, Admissible, OrderModulo, Radicand};

use character::table::next;
use modular::barrett::Barrett;
use modular::word::power;

// Whether a^((p − 1)/n) = z.
pub fn is_radicand(p: u64, n: u64, z: u64, a: u64) -> bool
    requires admissible { Admissible p n }
    requires below { a < p }
    ensures { result ≡ true → a ^ ((p - 1) / n) % p ≡ z }
{
    power(p, a, (p - 1) / n) == z
}

// The smallest a, given ζ: the numbers are tried from 1 on, and about one in n is right. In each turn w = a^((p − 1)/n).
pub fn radicand(p: u64, n: u64, z: u64) -> u64
    requires admissible { Admissible p n }
    requires order { (z < p) × OrderModulo p n z }
    ensures { (result ≡ radicand p n z) × Radicand p n z result }
{
    let d = Barrett::new(p);
    let k = (p - 1) / n;
    let mut table = [0; 128];
    let mut a = 1;
    let mut w = 1;
    while w != z {
        a += 1;
        w = next(d, k, a, &mut table);
    }
    a
}
