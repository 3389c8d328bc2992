// Propose S, R: loaded to paired, if the checker accepts.
ghost use Rattle.refusal.specs.Models.{Models};
ghost use Rattle.held.specs.Held.{loaded};
ghost use Rattle.pairing.specs.Pairing.{propose_from, propose};
ghost use Rattle.pairing.specs.Step.{Answers};
ghost use Rattle.held.specs.declared.Held.{Held};

use array::Word;
use held::value::{front, paired};
use held::view::counts_as;
use held::{Held, State};
use pair::checker::check;
use refusal::Refusal;

// The answer where a value counts as loaded with two models.
fn propose_pair(
    p: u32,
    n: u32,
    t1: &[Word],
    t2: &[Word],
    s: &[Word],
    r: &[Word],
) -> Result<Held, Refusal>
    requires { Models p n t1.now t2.now }
    ensures { (x : Held) → Answers result (propose_from (loaded p n t1.now t2.now) x s.now r.now) }
{
    check(p, n, t1, t2, s, r)?;
    Ok(paired(p, n, t1, t2, s, r))
}

// The models with a pair that the checker accepts: 21, 24, 3, 4, 6, 7, 8.
pub fn propose(x: Held, s: &[Word], r: &[Word]) -> Result<Held, Refusal>
    ensures { Answers result (propose x s.now r.now) }
{
    match counts_as(x) {
        State::Empty => Err(Refusal::Empty),
        State::Loaded => {
            let t1 = front(&x.t1, x.n);
            let t2 = front(&x.t2, x.n);
            propose_pair(x.p, x.n, t1, t2, s, r)
        }
        State::Paired => Err(Refusal::Paired),
    }
}
