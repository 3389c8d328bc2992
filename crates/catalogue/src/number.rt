// The refusals by p and n: 1, 2 and 29.
ghost use Rattle.std.specs.Prelude.{◌≡◌, not, ◌^◌, ltb};
ghost use Rattle.catalogue.specs.Catalogue.{most_polynomials, count_number};
ghost use Rattle.refusal.specs.Number.{number_of};

use modular::prime::is_prime;
use refusal::Refusal;
use refusal::sent::is_degree;

// The largest p^n.
const MOST: u64 = 65536;

// Whether p^n is at most 65,536.
fn fits(p: u64, n: u32) -> bool
    ensures { result ≡ not (ltb most_polynomials (p ^ n)) }
{
    match p.checked_pow(n) {
        Some(size) => size <= MOST,
        None => false,
    }
}

// 1, 2 and 29.
pub fn check_size(p: u32, n: u32) -> Result<(), Refusal>
    ensures { number_of result ≡ count_number p n }
{
    if !is_prime(p) {
        return Err(Refusal::Prime);
    }
    if !is_degree(n) {
        return Err(Refusal::Degree);
    }
    if !fits(p as u64, n) {
        return Err(Refusal::Polynomials);
    }
    Ok(())
}
