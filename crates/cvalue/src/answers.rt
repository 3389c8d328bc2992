// The answers of calls as values: the next value where the call succeeds, else the value that was
// taken. C has a number beside a value, and no Result.
ghost use Rattle.std.specs.Prelude.{◌≡◌};
ghost use Rattle.refusal.specs.Number.{number_of};
ghost use Rattle.work.specs.Step.{WorkStep, RecordStep, Answers, Records};
ghost use Rattle.session.specs.Session.{step_with, record_with};
ghost use Rattle.cvalue.specs.Values.{session_of, value_with, step_of};
ghost use Rattle.cvalue.specs.Inner.{valid_value, Recordable};

use crate::holdings::held_value;
use crate::records::record_value;
use crate::tables::{fed_number, open_number};
use crate::{SessionValue, StepValue};
use refusal::Refusal;
use work::{Recorded, Work};

// The value with another for all but its ledger, of which so many records count: changed in place,
// which copies the ledger once less.
fn with_work(mut v: SessionValue, work: Work, records: u32) -> SessionValue
    ensures { result ≡ value_with work records v.ledger }
{
    v.held = held_value(work.held);
    v.records = records;
    v.table = open_number(work.table);
    v.fed = fed_number(work.table);
    v.waiting = held_value(work.waiting);
    v
}

// The answer of a call that changes all but the ledger; a value that counts as a new one has no records.
pub fn work_answers(v: SessionValue, valid: bool, answer: Result<Work, Refusal>) -> StepValue
    requires { valid ≡ valid_value v }
    ensures { (y : WorkStep) → Answers answer y → result ≡ step_of v (step_with (session_of v) y) }
{
    match answer {
        Ok(work) if valid => StepValue {
            number: 0,
            session: with_work(v, work, v.records),
        },
        Ok(work) => StepValue {
            number: 0,
            session: with_work(v, work, 0),
        },
        Err(refusal) => StepValue {
            number: refusal.into(),
            session: v,
        },
    }
}

// The answer of a call that adds a record: it stands behind those that count. It returns early; as a
// match that gives the answer, the end of a table took a tenth longer.
pub fn record_answers(mut v: SessionValue, answer: Result<Recorded, Refusal>) -> StepValue
    requires { Recordable v (number_of answer) }
    ensures { (y : RecordStep) → Records answer y → result ≡ step_of v (record_with (session_of v) y) }
{
    let recorded = match answer {
        Ok(recorded) => recorded,
        Err(refusal) => {
            return StepValue {
                number: refusal.into(),
                session: v,
            };
        }
    };
    v.ledger[v.records as usize] = record_value(recorded.entry);
    StepValue {
        number: 0,
        session: with_work(v, recorded.work, v.records + 1),
    }
}
