// Begin: a table is opened in one direction, with an empty waiting session.
ghost use Rattle.std.specs.Prelude.{true, ◌≡◌};
ghost use Rattle.held.specs.Held.{valid_held};
ghost use Rattle.work.specs.Step.{Answers};
ghost use Rattle.running.specs.Running.{begin};

use held::Held;
use ledger::{Direction, Record};
use refusal::Refusal;
use work::state::{check_room, check_state};
use work::{Table, Work};

// Opens a table to which nothing was fed: 21, 22, 27, 25; `count` records count.
pub fn begin(direction: Direction, work: Work, count: u32) -> Result<Work, Refusal>
    requires { valid_held work.held ≡ true }
    ensures { Answers result (begin direction work count) }
{
    check_state(work)?;
    check_room(count)?;
    let entry = Record {
        direction,
        residues: 0,
    };
    Ok(Work {
        held: work.held,
        table: Table::Open(entry),
        waiting: Held::new(),
    })
}
