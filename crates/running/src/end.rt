// End: the open table is closed.
ghost use Rattle.std.specs.Prelude.{◌≡◌};
ghost use Rattle.held.specs.Held.{view};
ghost use Rattle.work.specs.Step.{Records};
ghost use Rattle.running.specs.Running.{held_after, end};

use held::view::counts_as;
use held::{Held, State};
use refusal::Refusal;
use work::{Recorded, Table, Work};

// What is held after the table: a paired waiting session, or else what was held. Two arms for the
// latter, so that a wrong version can change the one of a loaded session alone.
fn held_after(held: Held, waiting: Held) -> Held
    ensures { result ≡ held_after (view waiting) waiting held }
{
    match counts_as(waiting) {
        State::Empty => held,
        State::Loaded => held,
        State::Paired => waiting,
    }
}

// Closes the table, and gives its record: 26.
pub fn end(work: Work) -> Result<Recorded, Refusal>
    ensures { Records result (end work) }
{
    match work.table {
        Table::Closed => Err(Refusal::NoTable),
        Table::Open(entry) => {
            let next = Work {
                held: held_after(work.held, work.waiting),
                table: Table::Closed,
                waiting: Held::new(),
            };
            Ok(Recorded { work: next, entry })
        }
    }
}
