// The session of a value, and what it counts as: one made otherwise counts as a new one.
ghost use Rattle.std.specs.Prelude.{◌≡◌};
ghost use Rattle.cvalue.specs.Values.{made, work_of, session_of};
ghost use Rattle.cvalue.specs.Inner.{counts_value};

use crate::SessionValue;
use crate::holdings::held_of;
use crate::records::{have_directions, records_of};
use crate::tables::{is_table, table_of};
use ledger::Ledger;
use session::Session;
use work::Work;
use work::counted::{CountsAs, counted};

// Whether the numbers of the value stand for something: its state, its table, how many records count, and their directions.
fn is_made(v: SessionValue) -> bool
    ensures { result ≡ made v }
{
    if v.held.state > 2 {
        return false;
    }
    if !is_table(v.table, v.waiting.state) {
        return false;
    }
    if v.records > 512 {
        return false;
    }
    have_directions(v)
}

// All of the value but its ledger.
fn work_of(v: SessionValue) -> Work
    ensures { result ≡ work_of v }
{
    Work {
        held: held_of(v.held),
        table: table_of(v.table, v.fed),
        waiting: held_of(v.waiting),
    }
}

// What the value counts as.
pub fn counted_value(v: SessionValue) -> CountsAs
    ensures { result ≡ counts_value v }
{
    if !is_made(v) {
        return CountsAs {
            valid: false,
            work: Work::new(),
            count: 0,
        };
    }
    counted(work_of(v), v.records)
}

// The session of a value.
pub fn session_of(v: SessionValue) -> Session
    ensures { result ≡ session_of v }
{
    if !is_made(v) {
        return Session::new();
    }
    let work = work_of(v);
    let records = records_of(v);
    let ledger = Ledger {
        count: v.records,
        records,
    };
    Session { work, ledger }
}
