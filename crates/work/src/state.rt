// The refusals by where a session is, of the calls on tables.
ghost use Rattle.std.specs.Prelude.{true, ◌≡◌};
ghost use Rattle.refusal.specs.Number.{number_of};
ghost use Rattle.held.specs.Held.{valid_held};
ghost use Rattle.work.specs.Number.{state_number, full_number};

use crate::Work;
use crate::counted::is_open;
use held::State;
use ledger::Ledger;
use refusal::Refusal;

// Of begin, forward and back: 21, 22, 27.
pub fn check_state(work: Work) -> Result<(), Refusal>
    requires { valid_held work.held ≡ true }
    ensures { number_of result ≡ state_number work }
{
    match work.held.state {
        State::Empty => Err(Refusal::Empty),
        State::Loaded => Err(Refusal::NoPair),
        State::Paired => {
            if is_open(work.table) {
                return Err(Refusal::TableOpen);
            }
            Ok(())
        }
    }
}

// 25 where 512 records count.
pub fn check_room(count: u32) -> Result<(), Refusal>
    ensures { number_of result ≡ full_number count }
{
    if count == Ledger::RECORDS as u32 {
        return Err(Refusal::LedgerFull);
    }
    Ok(())
}
