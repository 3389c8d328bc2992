// What a session holds: nothing, two models, or two models and a pair (document 01, "The session").
//   view      what a value counts as
//   value     the values that the calls make
#![tactic(auto)]

pub mod value;
pub mod view;

ghost use Rattle.std.specs.Prelude.{◌≡◌};
ghost use Rattle.held.specs.Held.{new_held};

use array::Word;

// The largest degree: each array has as many words.
pub const DEGREE: usize = refusal::sent::DEGREE as usize;

// Nothing; p, n, T1 and T2; also S and R.
#[derive(Clone, Copy, Debug, PartialEq, Eq)]
pub enum State {
    Empty,
    Loaded,
    Paired,
}

// The first n words of each array count, and of a state that does not have an item nothing of it
// counts. The state stands beside the arrays, and no enum has the lists in it, since a value made
// otherwise is given back as it came, whatever its fields hold (`RefusalChangesNothing` of runs).
#[derive(Clone, Copy)]
pub struct Held {
    pub state: State,
    pub p: u32,
    pub n: u32,
    pub t1: [Word; DEGREE],
    pub t2: [Word; DEGREE],
    pub s: [Word; DEGREE],
    pub r: [Word; DEGREE],
}

impl Held {
    // A new session starts empty.
    pub fn new() -> Held
        ensures { result ≡ new_held }
    {
        Held {
            state: State::Empty,
            p: 0,
            n: 0,
            t1: [0; DEGREE],
            t2: [0; DEGREE],
            s: [0; DEGREE],
            r: [0; DEGREE],
        }
    }
}
