// The tests behind 1 to 4: of p, of n, and of the lists that a call is lent.
ghost use Rattle.std.specs.List.{All};
ghost use Rattle.std.specs.Prelude.{not, true, ◌≡◌, ◌↔◌, IsTrue, length, map};
ghost use Rattle.array.specs.Words.{all_below};
ghost use Rattle.refusal.specs.Number.{number_of};
ghost use Rattle.refusal.specs.Refusal.{is_degree, refuse_sent, refuse_sent_or};

use crate::Refusal;
use array::Word;
use array::list::below;
use modular::prime::is_prime;

// The largest degree.
pub const DEGREE: u32 = 16;

// Whether n is 1 to 16.
pub fn is_degree(n: u32) -> bool
    ensures { result ≡ is_degree n }
{
    n >= 1 && n <= DEGREE
}

// Whether each of the lists has n words, and the other lists are exact.
fn have_length(n: u32, exact: bool, lists: &[&[Word]]) -> bool
    ensures { IsTrue result ↔ (exact ≡ true) × All (λ xs. length xs.now ≡ n) lists.now }
{
    exact && lists.iter().all(|xs| xs.len() == n as usize)
}

// Whether all words of the lists are below p.
pub fn have_words(p: u32, lists: &[&[Word]]) -> bool
    ensures { IsTrue result ↔ All (λ xs. all_below p xs.now ≡ true) lists.now }
{
    lists.iter().all(|xs| below(p, xs))
}

// The first of 1 to 4 that applies to a call that is lent `lists`, and reads those of `read`; `exact` says whether its lists that are not to have n words
// have the right lengths.
pub fn sent_with(
    p: u32,
    n: u32,
    exact: bool,
    lists: &[&[Word]],
    read: &[&[Word]],
) -> Result<(), Refusal>
    ensures { number_of result
        ≡ refuse_sent_or (not exact) p n (map (λ xs. xs.now) lists.now) (map (λ xs. xs.now) read.now) 0 }
{
    if !is_prime(p) {
        return Err(Refusal::Prime);
    }
    if !is_degree(n) {
        return Err(Refusal::Degree);
    }
    if !have_length(n, exact, lists) {
        return Err(Refusal::Length);
    }
    if !have_words(p, read) {
        return Err(Refusal::Word);
    }
    Ok(())
}

// The same for a call all of whose lists are to have n words.
pub fn sent(p: u32, n: u32, lists: &[&[Word]], read: &[&[Word]]) -> Result<(), Refusal>
    ensures { number_of result ≡ refuse_sent p n (map (λ xs. xs.now) lists.now) (map (λ xs. xs.now) read.now) 0 }
{
    sent_with(p, n, true, lists, read)
}
