// The call for one modulus, with its refusals.
ghost use Rattle.std.specs.Prelude.{not, ◌≡◌};
ghost use Rattle.quotient.specs.DivisorTest.{has_divisor};
ghost use Rattle.refusal.specs.Models.{Model};
ghost use Rattle.refusal.specs.Number.{number_of};
ghost use Rattle.irreducible.specs.Irreducible.{irreducible_number};

use crate::rabin::is_irreducible;
use array::Word;
use refusal::Refusal;
use refusal::sent::sent;
use residue::modulus::Modulus;

// Whether T has no monic divisor of degree 1 to n − 1, for a model to which no other refusal applies.
pub fn is_field(p: u32, n: u32, t: &[Word]) -> bool
    requires { Model p n t.now }
    ensures { result ≡ not (has_divisor p t.now) }
{
    is_irreducible(&Modulus::load(p, n, t))
}

// Succeeds where T has no monic divisor of degree 1 to n − 1, and then every residue but 0 has an inverse; else the first refusal that applies.
pub fn irreducible(p: u32, n: u32, t: &[Word]) -> Result<(), Refusal>
    ensures { number_of result ≡ irreducible_number p n t.now }
{
    sent(p, n, &[t], &[t])?;
    if !is_field(p, n, t) {
        return Err(Refusal::FirstModulus);
    }
    Ok(())
}
