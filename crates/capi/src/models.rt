// Every model of a size: how many there are, and the list of them.
ghost use Rattle.std.specs.Prelude.{◌≡◌};
ghost use Rattle.catalogue.specs.Catalogue.{count_number, model_count, list_number, list_output};

use array::Word;
use refusal::number_of;

// The answer of the first call; refused, the count is 0.
#[repr(C)]
#[derive(Clone, Copy)]
pub struct CountValue {
    pub number: u32,
    pub count: u32,
}

// How many monic polynomials of degree n modulo p have no monic divisor of degree 1 to n − 1: 0, or 1, 2, 29.
#[unsafe(no_mangle)]
pub extern "C" fn yokebean_catalogue_count(p: u32, n: u32) -> CountValue
    ensures number_value { result.number ≡ count_number p n }
    ensures count_value { result.count ≡ model_count p n }
{
    match catalogue::call::count_models(p, n) {
        Ok(count) => CountValue { number: 0, count },
        Err(refusal) => CountValue {
            number: refusal.into(),
            count: 0,
        },
    }
}

// Their lower words, n words each, in ascending order, into a lent list of exactly n words for each: 0, or 1, 2, 29, 3.
#[unsafe(no_mangle)]
pub extern "C" fn yokebean_catalogue_list(p: u32, n: u32, out: &mut [Word]) -> u32
    ensures value { result ≡ list_number p n out.old }
    ensures out_after { out.new ≡ list_output p n out.old }
{
    number_of(catalogue::call::list_models(p, n, out))
}
