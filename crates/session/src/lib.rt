// The session: a value around what is held, the open table, the waiting session and the ledger (document 01, "The session"; document 02, S-2 and
// S-8). The calls take a session and give the next one; none requires anything. They go by what is held and by how many records count; the records
// themselves, some four thousand bytes, are handed on only where they are needed.
//   holding   Session::load, Session::propose and Session::find
//   tables    Session::forward and Session::back; Session::begin, Session::feed and Session::end for a table in parts
//   report    Session::report and Session::report_length: the ledger's text
#![tactic(auto)]

pub mod holding;
mod report;
mod tables;

ghost use Rattle.std.specs.Prelude.{◌≡◌, Ok};
ghost use Rattle.work.specs.Step.{WorkStep, Answers};
ghost use Rattle.session.specs.Session.{new_session, valid_session, step_with, clear};
ghost use Rattle.session.specs.Step.{step_of};

use ledger::Ledger;
use refusal::Refusal;
use work::Work;
use work::counted::counted;

// All but the ledger, and the ledger with the conversions that succeeded and the tables that were ended.
#[derive(Clone, Copy)]
pub struct Session {
    pub work: Work,
    pub ledger: Ledger,
}

// What a refused call gives: why, and the session that was taken, as it came.
#[derive(Clone, Copy)]
pub struct Refused {
    pub refusal: Refusal,
    pub session: Session,
}

impl Session {
    // The largest degree, the most words that one conversion takes, and the most records.
    pub const DEGREE: usize = held::DEGREE;

    pub const WORDS: usize = table::WORDS;

    pub const RECORDS: usize = Ledger::RECORDS;

    // A new session starts empty, without records.
    pub fn new() -> Session
        ensures { result ≡ new_session }
    {
        Session {
            work: Work::new(),
            ledger: Ledger::new(),
        }
    }

    // The answer of a call that changes all but the ledger: the next session, or the session that was taken.
    fn step_with(self, valid: bool, answer: Result<Work, Refusal>) -> Result<Session, Refused>
        requires { valid ≡ valid_session self }
        ensures { (y : WorkStep) → Answers answer y → step_of result ≡ step_with self y }
    {
        match answer {
            Ok(work) if valid => Ok(Session { work, ..self }),
            Ok(work) => Ok(Session {
                work,
                ledger: Ledger::new(),
            }),
            Err(refusal) => Err(Refused {
                refusal,
                session: self,
            }),
        }
    }

    // Empty, and no table is open; with the records. It never refuses.
    pub fn clear(self) -> Session
        ensures { step_of (Ok result) ≡ clear self }
    {
        let x = counted(self.work, self.ledger.count);
        let empty = Work::new();
        if !x.valid {
            return Session::new();
        }
        Session {
            work: empty,
            ..self
        }
    }
}
