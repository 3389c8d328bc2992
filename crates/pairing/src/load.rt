// Load: empty to loaded.
ghost use Rattle.pairing.specs.Pairing.{load};
ghost use Rattle.pairing.specs.Step.{Answers};

use array::Word;
use held::value::loaded;
use held::view::counts_as;
use held::{Held, State};
use refusal::Refusal;
use refusal::sent::sent;

// Two models: 23, 1 to 4.
pub fn load(x: Held, p: u32, n: u32, t1: &[Word], t2: &[Word]) -> Result<Held, Refusal>
    ensures { Answers result (load x p n t1.now t2.now) }
{
    match counts_as(x) {
        State::Empty => {
            sent(p, n, &[t1, t2], &[t1, t2])?;
            Ok(loaded(p, n, t1, t2))
        }
        State::Loaded | State::Paired => Err(Refusal::NotEmpty),
    }
}
