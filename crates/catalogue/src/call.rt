// The public calls. On a refusal the list lent for the models is as found.
ghost use Rattle.std.specs.Prelude.{◌≡◌, IfOk};
ghost use Rattle.catalogue.specs.Catalogue.{count_number, model_count, list_number, list_output};
ghost use Rattle.refusal.specs.Number.{number_of};

use crate::marks::{count_unmarked, write_unmarked};
use crate::number::check_size;
use array::Word;
use refusal::Refusal;
use sieve::digits::power;
use sieve::sieve::sieve;

// How many monic polynomials of degree n modulo p have no monic divisor of degree 1 to n − 1.
pub fn count_models(p: u32, n: u32) -> Result<u32, Refusal>
    ensures number_value { number_of result ≡ count_number p n }
    ensures count_value { IfOk result (λ c. c ≡ model_count p n) }
{
    check_size(p, n)?;
    // The size that the largest p^n needs, since nothing is allocated.
    let mut marks = [0; 131072];
    sieve(p, n as usize, &mut marks);
    Ok(count_unmarked(power(p as usize, n as usize), &marks))
}

// The lower words of each of them, n words each, in ascending order, coefficients compared from the highest power down.
pub fn list_models(p: u32, n: u32, out: &mut [Word]) -> Result<(), Refusal>
    ensures value { number_of result ≡ list_number p n out.old }
    ensures out_after { out.new ≡ list_output p n out.old }
{
    check_size(p, n)?;
    let mut marks = [0; 131072];
    sieve(p, n as usize, &mut marks);
    let size = power(p as usize, n as usize);
    let count = count_unmarked(size, &marks);
    if out.len() as u64 != n as u64 * count as u64 {
        return Err(Refusal::Length);
    }
    write_unmarked(p, n as usize, size, &marks, out);
    Ok(())
}
