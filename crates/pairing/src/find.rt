// Find: loaded to paired, with the finder's pair.
ghost use Rattle.refusal.specs.Models.{Models};
ghost use Rattle.held.specs.Held.{loaded};
ghost use Rattle.pairing.specs.Pairing.{find_from, find};
ghost use Rattle.pairing.specs.Step.{Answers};
ghost use Rattle.held.specs.declared.Held.{Held};

use array::Word;
use finder::find::find as find_into;
use held::value::{front, paired};
use held::view::counts_as;
use held::{DEGREE, Held, State};
use refusal::Refusal;

// The answer where a value counts as loaded with two models.
fn find_pair(p: u32, n: u32, t1: &[Word], t2: &[Word]) -> Result<Held, Refusal>
    requires { Models p n t1.now t2.now }
    ensures { (x : Held) → Answers result (find_from (loaded p n t1.now t2.now) x) }
{
    let mut s = [0; DEGREE];
    let mut r = [0; DEGREE];
    let s = &mut s[..n as usize];
    let r = &mut r[..n as usize];
    find_into(p, n, t1, t2, s, r)?;
    Ok(paired(p, n, t1, t2, s, r))
}

// The models with the finder's pair: 21, 24, 5, 6, 7.
pub fn find(x: Held) -> Result<Held, Refusal>
    ensures { Answers result (find x) }
{
    match counts_as(x) {
        State::Empty => Err(Refusal::Empty),
        State::Loaded => {
            let t1 = front(&x.t1, x.n);
            let t2 = front(&x.t2, x.n);
            find_pair(x.p, x.n, t1, t2)
        }
        State::Paired => Err(Refusal::Paired),
    }
}
