// What a value counts as: one with a p, n or coefficient, of those that its state has, that 1, 2 or 4 refuses counts as a new one.
ghost use Rattle.std.specs.Prelude.{not, [], ◌∷◌, ◌≡◌, ◌≤◌, take};
ghost use Rattle.refusal.specs.Refusal.{bad_word, largest_degree};
ghost use Rattle.held.specs.ViewState.{view_state};
ghost use Rattle.held.specs.Held.{view, valid, valid_held};

use crate::value::front;
use crate::{DEGREE, Held, State};
use array::Word;
use modular::prime::is_prime;
use refusal::sent::{have_words, is_degree};

// Whether 4 refuses none of the first n words of two arrays.
fn both_below(p: u32, n: u32, a: [Word; DEGREE], b: [Word; DEGREE]) -> bool
    requires { n ≤ largest_degree }
    ensures { result ≡ not (bad_word p (take n a ∷ take n b ∷ [])) }
{
    have_words(p, &[front(&a, n), front(&b, n)])
}

// Whether 1, 2 and 4 refuse neither p nor n nor a word of T1 and T2.
fn models_valid(p: u32, n: u32, t1: [Word; DEGREE], t2: [Word; DEGREE]) -> bool
    ensures { result ≡ valid p n (take n t1 ∷ take n t2 ∷ []) }
{
    is_prime(p) && is_degree(n) && both_below(p, n, t1, t2)
}

// The same of S and R too.
fn pair_valid(
    p: u32,
    n: u32,
    t1: [Word; DEGREE],
    t2: [Word; DEGREE],
    s: [Word; DEGREE],
    r: [Word; DEGREE],
) -> bool
    ensures { result ≡ valid p n (take n t1 ∷ take n t2 ∷ take n s ∷ take n r ∷ []) }
{
    models_valid(p, n, t1, t2) && both_below(p, n, s, r)
}

// Whether 1, 2 and 4 refuse no item that the state of x has.
pub fn is_valid(x: Held) -> bool
    ensures { result ≡ valid_held x }
{
    match x.state {
        State::Empty => true,
        State::Loaded => models_valid(x.p, x.n, x.t1, x.t2),
        State::Paired => pair_valid(x.p, x.n, x.t1, x.t2, x.s, x.r),
    }
}

// The state of what a value counts as.
pub fn counts_as(x: Held) -> State
    ensures { result ≡ view_state (view x) }
{
    if is_valid(x) { x.state } else { State::Empty }
}
