// What a value counts as, where k records count: one made otherwise counts as a new one.
ghost use Rattle.std.specs.Prelude.{true, ◌≡◌};
ghost use Rattle.held.specs.Held.{view, valid_held};
ghost use Rattle.work.specs.Work.{is_paired, is_open, may_be_open, valid_work, looked};
ghost use Rattle.work.specs.Counted.{counted_as};

use crate::{Table, Work};
use held::view::is_valid as held_is_valid;
use held::{Held, State};
use ledger::Ledger;

// What a value counts as: whether it is itself, or else a new one, without records. No Option: the
// calls act on `work` and `count` in either case.
#[derive(Clone, Copy)]
pub struct CountsAs {
    pub valid: bool,
    pub work: Work,
    pub count: u32,
}

// Whether a valid value is paired.
fn is_paired(held: Held) -> bool
    requires { valid_held held ≡ true }
    ensures { result ≡ is_paired (view held) }
{
    held.state == State::Paired
}

// Whether a table is open.
pub fn is_open(table: Table) -> bool
    ensures { result ≡ is_open table }
{
    matches!(table, Table::Open(_))
}

// Whether a table may be open: over a pair, with room for its record, and 1, 2 and 4 refuse no item of the waiting session.
fn may_be_open(held: Held, count: u32, waiting: Held) -> bool
    requires { valid_held held ≡ true }
    ensures { result ≡ may_be_open held count waiting }
{
    if !is_paired(held) {
        return false;
    }
    if count == Ledger::RECORDS as u32 {
        return false;
    }
    held_is_valid(waiting)
}

// Whether the value counts as itself.
fn is_valid(work: Work, count: u32) -> bool
    ensures { result ≡ valid_work work count }
{
    if count > Ledger::RECORDS as u32 {
        return false;
    }
    if !held_is_valid(work.held) {
        return false;
    }
    if !is_open(work.table) {
        return true;
    }
    may_be_open(work.held, count, work.waiting)
}

// The value without a waiting session where no table is open.
fn looked(work: Work) -> Work
    ensures { result ≡ looked work }
{
    match work.table {
        Table::Closed => Work {
            waiting: Held::new(),
            ..work
        },
        Table::Open(_) => work,
    }
}

// What the value counts as, where `count` records count.
pub fn counted(work: Work, count: u32) -> CountsAs
    ensures { result ≡ counted_as work count }
{
    if !is_valid(work, count) {
        return CountsAs {
            valid: false,
            work: Work::new(),
            count: 0,
        };
    }
    CountsAs {
        valid: true,
        work: looked(work),
        count,
    }
}
