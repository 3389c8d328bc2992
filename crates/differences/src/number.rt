// The refusals of both calls, which store a table and restore it.
ghost use Rattle.std.specs.Prelude.{◌≡◌};
ghost use Rattle.differences.specs.Differences.{differences_number};
ghost use Rattle.refusal.specs.Number.{number_of};

use array::Word;
use refusal::Refusal;
use refusal::sent::is_degree;
use table::number::lengths;

// 2, 9 and 10.
pub fn check_differences(n: u32, table: &[Word], out: &[Word]) -> Result<(), Refusal>
    ensures { number_of result ≡ differences_number n table.now out.now }
{
    if !is_degree(n) {
        return Err(Refusal::Degree);
    }
    lengths(n as usize, table, out)
}
