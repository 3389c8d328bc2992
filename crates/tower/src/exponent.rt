// The exponent k with n = p^k.
ghost use Rattle.std.specs.Prelude.{◌≡◌, ◌^◌, ◌≤◌, MatchOption};
ghost use Rattle.galois.specs.Tower.{exponent};

// The k ≥ 1 with n = p^k: the first power of p that is not below n is n, or none is.
pub fn exponent(p: u64, n: u64) -> Option<u64>
    requires { (2 ≤ p) × (p ≤ 2 ^ 20) × (1 ≤ n) × (n ≤ 16) }
    ensures { MatchOption result (exponent p n ≡ 0) (λ k. (1 ≤ k) × (k ≡ exponent p n)) }
{
    let mut k = 1;
    let mut q = p;
    while q < n {
        q *= p;
        k += 1;
    }
    if q == n { Some(k) } else { None }
}
