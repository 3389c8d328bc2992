// Load, propose and find act on what is held, or on the waiting session while a table is open.
ghost use Rattle.std.specs.Prelude.{◌≡◌};
ghost use Rattle.pairing.specs.Step.{HeldStep, Answers as AnswersHeld};
ghost use Rattle.work.specs.Step.{Answers};
ghost use Rattle.session.specs.Session.{placed, load, propose, find};
ghost use Rattle.session.specs.Step.{step_of};

use crate::{Refused, Session};
use array::Word;
use held::Held;
use pairing::find::find as find_held;
use pairing::load::load as load_held;
use pairing::propose::propose as propose_held;
use refusal::Refusal;
use work::Work;
use work::addressed::{addressed, with_addressed};
use work::counted::counted;

// The answer of the session that the call acts on, in its place.
pub fn placed(work: Work, answer: Result<Held, Refusal>) -> Result<Work, Refusal>
    ensures { (y : HeldStep) → AnswersHeld answer y → Answers result (placed work y) }
{
    let held = answer?;
    Ok(with_addressed(work, held))
}

impl Session {
    // Two models: 23, 1 to 4.
    pub fn load(self, p: u32, n: u32, t1: &[Word], t2: &[Word]) -> Result<Session, Refused>
        ensures { step_of result ≡ load self p n t1.now t2.now }
    {
        let x = counted(self.work, self.ledger.count);
        let held = load_held(addressed(x.work), p, n, t1, t2);
        self.step_with(x.valid, placed(x.work, held))
    }

    // A pair that the checker accepts: 21, 24, 3, 4, 6, 7, 8.
    pub fn propose(self, s: &[Word], r: &[Word]) -> Result<Session, Refused>
        ensures { step_of result ≡ propose self s.now r.now }
    {
        let x = counted(self.work, self.ledger.count);
        let held = propose_held(addressed(x.work), s, r);
        self.step_with(x.valid, placed(x.work, held))
    }

    // The finder's pair: 21, 24, 5, 6, 7.
    pub fn find(self) -> Result<Session, Refused>
        ensures { step_of result ≡ find self }
    {
        let x = counted(self.work, self.ledger.count);
        let held = find_held(addressed(x.work));
        self.step_with(x.valid, placed(x.work, held))
    }
}
