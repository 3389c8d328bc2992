// What the program prints for a card.
ghost use Rattle.std.specs.Prelude.{◌≡◌, ◌≤◌, length, replicate, take};
ghost use Rattle.card.specs.Card.{card, card_length, write_number};
ghost use Rattle.refusal.specs.Models.{Models, Given};
ghost use Rattle.answer.specs.Answer.{answer_text, job_text, pair_card_text, pair_text, part};
ghost use Rattle.text.specs.Text.{Begins};

use answer::job::{find_pair, write_card};
use answer::lines::{put_pair, put_refusal, put_ring, put_valid};
use array::Word;
use card::kind::Kind;
use pair::checker::{check, congruences_hold};
use reader::reader::read;

// The line of the pair card of the words, to which no refusal of the writer applies.
fn print_card(p: u32, n: u32, words: &[Word], text: &mut [u8]) -> usize
    requires { (write_number p n 2 words.now (replicate (card_length p n 2) 0) ≡ 0) × (338 ≤ length text.old) }
    ensures { Begins (pair_text (card p n 2 words.now)) text.new result }
{
    let mut bytes = [0u8; 166];
    let size = write_card(p, n, words, &mut bytes);
    put_pair(text, &bytes[..size])
}

// A job: the words begin with T1 and T2.
fn answer_job(p: u32, n: u32, words: &mut [Word], text: &mut [u8]) -> usize
    requires { (n ≤ 16) × (length words.old ≡ 64) × (338 ≤ length text.old) × Models p n (part n words.old 0) (part n words.old 1) }
    ensures { Begins (job_text p n (part n words.old 0) (part n words.old 1)) text.new result }
{
    match find_pair(p, n, words) {
        Ok(()) => print_card(p, n, &words[..4 * n as usize], text),
        Err(refusal) => put_refusal(text, refusal.into()),
    }
}

// What is printed for T1, T2, S and R, to which 1 to 4 do not apply.
fn print_pair(
    p: u32,
    n: u32,
    t1: &[Word],
    t2: &[Word],
    s: &[Word],
    r: &[Word],
    text: &mut [u8],
) -> usize
    requires { (338 ≤ length text.old) × Given p n t1.now t2.now s.now r.now }
    ensures { Begins (pair_card_text p t1.now t2.now s.now r.now) text.new result }
{
    match check(p, n, t1, t2, s, r) {
        Ok(()) => put_valid(text),
        Err(refusal) => {
            if congruences_hold(p, n, t1, t2, s, r) {
                put_ring(text)
            } else {
                put_refusal(text, refusal.into())
            }
        }
    }
}

// A pair card: the words begin with T1, T2, S and R.
fn answer_pair(p: u32, n: u32, words: &[Word], text: &mut [u8]) -> usize
    requires { (n ≤ 16) × (length words.now ≡ 64) × (338 ≤ length text.old)
        × Given p n (part n words.now 0) (part n words.now 1) (part n words.now 2) (part n words.now 3) }
    ensures { Begins
        (pair_card_text p (part n words.now 0) (part n words.now 1) (part n words.now 2) (part n words.now 3))
        text.new result }
{
    let k = n as usize;
    print_pair(
        p,
        n,
        &words[..k],
        &words[k..2 * k],
        &words[2 * k..3 * k],
        &words[3 * k..4 * k],
        text,
    )
}

// What is printed for the card: the first r bytes of the text.
pub fn answer(card: &[u8], text: &mut [u8; 338]) -> usize
    ensures text { take result text.new ≡ answer_text card.now }
    ensures count { (result ≤ length text.new) × (result ≡ length (take result text.new)) }
{
    let mut words = [0; 64];
    match read(card, &mut words) {
        Ok(said) => match said.kind {
            Kind::Job => answer_job(said.p, said.n, &mut words, text),
            Kind::Pair => answer_pair(said.p, said.n, &words, text),
        },
        Err(refusal) => put_refusal(text, refusal.into()),
    }
}
