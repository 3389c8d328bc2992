// What is held to values with a number for the state, and back. Only C has these numbers: a `From`
// would have to stand in held, and each function has a definition of its own in specs.
ghost use Rattle.std.specs.Prelude.{◌≡◌};
ghost use Rattle.cvalue.specs.Values.{state_of, number_of, held_of, held_value};

use crate::HeldValue;
use held::{Held, State};

// The state with this number.
fn state_of(number: u32) -> State
    ensures { result ≡ state_of number }
{
    match number {
        0 => State::Empty,
        1 => State::Loaded,
        _ => State::Paired,
    }
}

// The number of a state: 0 is empty, 1 loaded, 2 paired.
fn number_of(state: State) -> u32
    ensures { result ≡ number_of state }
{
    match state {
        State::Empty => 0,
        State::Loaded => 1,
        State::Paired => 2,
    }
}

// What a value holds.
pub fn held_of(v: HeldValue) -> Held
    ensures { result ≡ held_of v }
{
    let HeldValue {
        state,
        p,
        n,
        t1,
        t2,
        s,
        r,
    } = v;
    Held {
        state: state_of(state),
        p,
        n,
        t1,
        t2,
        s,
        r,
    }
}

// The value of what is held.
pub fn held_value(held: Held) -> HeldValue
    ensures { result ≡ held_value held }
{
    let Held {
        state,
        p,
        n,
        t1,
        t2,
        s,
        r,
    } = held;
    HeldValue {
        state: number_of(state),
        p,
        n,
        t1,
        t2,
        s,
        r,
    }
}
