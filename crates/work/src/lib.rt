// A session without its ledger (document 02, S-8): what is held, the open table and the waiting session.
//   counted     what a value counts as
//   addressed   the session that load, propose and find act on
//   state       the refusals by where a session is
#![tactic(auto)]

pub mod addressed;
pub mod counted;
pub mod state;

ghost use Rattle.std.specs.Prelude.{◌≡◌};
ghost use Rattle.work.specs.Work.{new_work};

use held::Held;
use ledger::Record;

// No table is open; or one is, and this is the record that its end adds: its direction, and the residues fed so far.
#[derive(Clone, Copy)]
pub enum Table {
    Closed,
    Open(Record),
}

// The waiting session counts while a table is open.
#[derive(Clone, Copy)]
pub struct Work {
    pub held: Held,
    pub table: Table,
    pub waiting: Held,
}

// What a call that adds a record gives: the next value, and the record.
#[derive(Clone, Copy)]
pub struct Recorded {
    pub work: Work,
    pub entry: Record,
}

impl Work {
    // Nothing is held, and no table is open.
    pub fn new() -> Work
        ensures { result ≡ new_work }
    {
        let nothing = Held::new();
        Work {
            held: nothing,
            table: Table::Closed,
            waiting: nothing,
        }
    }
}
