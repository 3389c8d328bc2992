// The session that load, propose and find act on: the waiting one while a table is open.
ghost use Rattle.std.specs.Prelude.{◌≡◌};
ghost use Rattle.work.specs.Work.{addressed, with_addressed};

use crate::{Table, Work};
use held::Held;

// That session.
pub fn addressed(work: Work) -> Held
    ensures { result ≡ addressed work }
{
    match work.table {
        Table::Closed => work.held,
        Table::Open(_) => work.waiting,
    }
}

// The value with another in its place.
pub fn with_addressed(work: Work, held: Held) -> Work
    ensures { result ≡ with_addressed work held }
{
    match work.table {
        Table::Closed => Work { held, ..work },
        Table::Open(_) => Work {
            waiting: held,
            ..work
        },
    }
}
