// The values that the calls make: two models, and a pair too. Each list stands in an array, with zeros after it.
ghost use Rattle.std.specs.Prelude.{◌≡◌, ◌≤◌, length, take};
ghost use Rattle.array.specs.Array.{padded};
ghost use Rattle.refusal.specs.Models.{Models, Given};
ghost use Rattle.refusal.specs.Refusal.{largest_degree};
ghost use Rattle.held.specs.Held.{loaded_held, paired_held};

use crate::{DEGREE, Held, State};
use array::Word;

// The first n words of an array.
pub fn front(xs: &[Word], n: u32) -> &[Word]
    requires { n ≤ length xs.now }
    ensures { result.now ≡ take n xs.now }
{
    &xs[..n as usize]
}

// The words of xs, and zeros after them.
fn array(xs: &[Word]) -> [Word; DEGREE]
    requires { length xs.now ≤ largest_degree }
    ensures { result ≡ padded xs.now }
{
    let mut words = [0; DEGREE];
    words[..xs.len()].copy_from_slice(xs);
    words
}

// Two models.
pub fn loaded(p: u32, n: u32, t1: &[Word], t2: &[Word]) -> Held
    requires { Models p n t1.now t2.now }
    ensures { result ≡ loaded_held p n t1.now t2.now }
{
    Held {
        state: State::Loaded,
        p,
        n,
        t1: array(t1),
        t2: array(t2),
        s: [0; DEGREE],
        r: [0; DEGREE],
    }
}

// Two models and a pair.
pub fn paired(p: u32, n: u32, t1: &[Word], t2: &[Word], s: &[Word], r: &[Word]) -> Held
    requires { Given p n t1.now t2.now s.now r.now }
    ensures { result ≡ paired_held p n t1.now t2.now s.now r.now }
{
    Held {
        state: State::Paired,
        p,
        n,
        t1: array(t1),
        t2: array(t2),
        s: array(s),
        r: array(r),
    }
}
