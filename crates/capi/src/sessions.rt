// The session, as C has it. A value made otherwise counts as a new session.
ghost use Rattle.std.specs.Prelude.{◌≡◌, length};
ghost use Rattle.cvalue.specs.Values.{new_value, session_of, step_of, given_back};
ghost use Rattle.ledger.specs.declared.Direction.TheVariants.{Forward, Back};
ghost use Rattle.session.specs.Session.{load, propose, find, convert, convert_output, begin, feed, feed_output, end, report, report_text, report_output, clear};

use array::Word;
use conversion::convert::convert as convert_table;
use cvalue::answers::{record_answers, work_answers};
use cvalue::sessions::{counted_value, session_of};
use cvalue::{HeldValue, RecordValue, SessionValue, StepValue};
use ledger::Direction;
use pairing::find::find as find_held;
use pairing::load::load as load_held;
use pairing::propose::propose as propose_held;
use running::begin::begin as begin_table;
use running::end::end as end_table;
use running::feed::feed as feed_table;
use session::holding::placed;
use work::Work;
use work::addressed::addressed;

// A new session: empty, without records and without an open table.
#[unsafe(no_mangle)]
pub extern "C" fn yokebean_session_new() -> SessionValue
    ensures { result ≡ new_value }
{
    let nothing = HeldValue {
        state: 0,
        p: 0,
        n: 0,
        t1: [0; 16],
        t2: [0; 16],
        s: [0; 16],
        r: [0; 16],
    };
    SessionValue {
        held: nothing,
        records: 0,
        ledger: [RecordValue {
            direction: 0,
            residues: 0,
        }; 512],
        table: 0,
        fed: 0,
        waiting: nothing,
    }
}

// Empty to loaded: 0, or 23, 1 to 4. This call, propose and find act on the waiting session while a table is open.
#[unsafe(no_mangle)]
pub extern "C" fn yokebean_session_load(
    session: SessionValue,
    p: u32,
    n: u32,
    t1: &[Word],
    t2: &[Word],
) -> StepValue
    ensures { result ≡ step_of session (load (session_of session) p n t1.now t2.now) }
{
    let x = counted_value(session);
    let held = load_held(addressed(x.work), p, n, t1, t2);
    work_answers(session, x.valid, placed(x.work, held))
}

// Loaded to paired, if the checker accepts: 0, or 21, 24, 3, 4, 6, 7, 8.
#[unsafe(no_mangle)]
pub extern "C" fn yokebean_session_propose(
    session: SessionValue,
    s: &[Word],
    r: &[Word],
) -> StepValue
    ensures { result ≡ step_of session (propose (session_of session) s.now r.now) }
{
    let x = counted_value(session);
    let held = propose_held(addressed(x.work), s, r);
    work_answers(session, x.valid, placed(x.work, held))
}

// Loaded to paired, with the finder's pair: 0, or 21, 24, 5, 6, 7.
#[unsafe(no_mangle)]
pub extern "C" fn yokebean_session_find(session: SessionValue) -> StepValue
    ensures { result ≡ step_of session (find (session_of session)) }
{
    let x = counted_value(session);
    let held = find_held(addressed(x.work));
    work_answers(session, x.valid, placed(x.work, held))
}

// out := the images of a table of residues modulo T1, by S, modulo T2: 0, or 21, 22, 27, 9, 10, 4, 25.
#[unsafe(no_mangle)]
pub extern "C" fn yokebean_session_forward(
    session: SessionValue,
    table: &[Word],
    out: &mut [Word],
) -> StepValue
    ensures value { result ≡ step_of session (convert Forward (session_of session) table.now out.old) }
    ensures out_after { out.new ≡ convert_output Forward (session_of session) table.now out.old }
{
    let x = counted_value(session);
    let answer = convert_table(Direction::Forward, x.work, x.count, table, out);
    record_answers(session, answer)
}

// out := the images of a table of residues modulo T2, by R, modulo T1: 0, or 21, 22, 27, 9, 10, 4, 25.
#[unsafe(no_mangle)]
pub extern "C" fn yokebean_session_back(
    session: SessionValue,
    table: &[Word],
    out: &mut [Word],
) -> StepValue
    ensures value { result ≡ step_of session (convert Back (session_of session) table.now out.old) }
    ensures out_after { out.new ≡ convert_output Back (session_of session) table.now out.old }
{
    let x = counted_value(session);
    let answer = convert_table(Direction::Back, x.work, x.count, table, out);
    record_answers(session, answer)
}

// Opens a table of residues modulo T1, for images by S modulo T2: 0, or 21, 22, 27, 25.
#[unsafe(no_mangle)]
pub extern "C" fn yokebean_session_begin_forward(session: SessionValue) -> StepValue
    ensures { result ≡ step_of session (begin Forward (session_of session)) }
{
    let x = counted_value(session);
    let answer = begin_table(Direction::Forward, x.work, x.count);
    work_answers(session, x.valid, answer)
}

// Opens a table of residues modulo T2, for images by R modulo T1: 0, or 21, 22, 27, 25.
#[unsafe(no_mangle)]
pub extern "C" fn yokebean_session_begin_back(session: SessionValue) -> StepValue
    ensures { result ≡ step_of session (begin Back (session_of session)) }
{
    let x = counted_value(session);
    let answer = begin_table(Direction::Back, x.work, x.count);
    work_answers(session, x.valid, answer)
}

// out := the images of a part of the open table, by the pair with which it began: 0, or 26, 9, 10, 4.
#[unsafe(no_mangle)]
pub extern "C" fn yokebean_session_feed(
    session: SessionValue,
    table: &[Word],
    out: &mut [Word],
) -> StepValue
    ensures value { result ≡ step_of session (feed (session_of session) table.now out.old) }
    ensures out_after { out.new ≡ feed_output (session_of session) table.now out.old }
{
    let x = counted_value(session);
    work_answers(session, x.valid, feed_table(x.work, table, out))
}

// Closes the open table, with one record of all its residues; a paired waiting session becomes the current one: 0, or 26.
#[unsafe(no_mangle)]
pub extern "C" fn yokebean_session_end(session: SessionValue) -> StepValue
    ensures { result ≡ step_of session (end (session_of session)) }
{
    let x = counted_value(session);
    record_answers(session, end_table(x.work))
}

// How long the report is.
#[unsafe(no_mangle)]
pub extern "C" fn yokebean_session_report_length(session: SessionValue) -> usize
    ensures { result ≡ length (report_text (session_of session)) }
{
    session_of(session).report_length()
}

// out := the records, a line each, and the two totals; the session is given back: 0, or 3.
#[unsafe(no_mangle)]
pub extern "C" fn yokebean_session_report(session: SessionValue, out: &mut [u8]) -> StepValue
    ensures value { result ≡ given_back session (report (session_of session) out.old) }
    ensures out_after { out.new ≡ report_output (session_of session) out.old }
{
    let number = match session_of(session).report(out) {
        Ok(_) => 0,
        Err(refused) => refused.refusal.into(),
    };
    StepValue { number, session }
}

// Any state to empty, without the open table and the waiting session, with the records: always 0.
#[unsafe(no_mangle)]
pub extern "C" fn yokebean_session_clear(session: SessionValue) -> StepValue
    ensures { result ≡ step_of session (clear (session_of session)) }
{
    let x = counted_value(session);
    work_answers(session, x.valid, Ok(Work::new()))
}
