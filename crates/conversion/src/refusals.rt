// The refusals of a conversion.
ghost use Rattle.std.specs.Prelude.{true, ◌≡◌};
ghost use Rattle.refusal.specs.Number.{number_of};
ghost use Rattle.held.specs.Held.{valid_held};
ghost use Rattle.conversion.specs.Conversion.{convert_number};

use array::Word;
use refusal::Refusal;
use table::number::check_table;
use work::Work;
use work::state::{check_room, check_state};

// 21, 22, 27, 9, 10, 4, 25; `count` records count.
pub fn check(work: Work, count: u32, table: &[Word], out: &[Word]) -> Result<(), Refusal>
    requires { valid_held work.held ≡ true }
    ensures { number_of result ≡ convert_number work count table.now out.now }
{
    check_state(work)?;
    check_table(work.held.p, work.held.n as usize, table, out)?;
    check_room(count)
}
