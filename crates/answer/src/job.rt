// The pair card of a job: the finder's pair behind T1 and T2, and the card that the writer makes of the four lists.
ghost use Rattle.std.specs.Prelude.{◌++◌, ◌≡◌, ◌+◌, ◌≤◌, length, replicate};
ghost use Rattle.card.specs.Card.{card, card_length, write_number};
ghost use Rattle.finder.specs.Finder.{find_number, find_output_s, find_output_r};
ghost use Rattle.refusal.specs.Models.{Models};
ghost use Rattle.refusal.specs.Number.{number_of};
ghost use Rattle.answer.specs.Answer.{part};
ghost use Rattle.answer.specs.JobWords.{JobWords};
ghost use Rattle.text.specs.Text.{Appended, Begins};

use array::Word;
use card::kind::Kind;
use card::layout::byte_count;
use finder::find::find;
use refusal::Refusal;
use text::bytes::put;
use writer::writer::write;

// The words of s and then those of r from the place `at` on.
fn put_both(words: &mut [Word], at: usize, s: &[Word], r: &[Word]) -> usize
    requires { at + (length s.now + length r.now) ≤ length words.old }
    ensures { Appended at (s.now ++ r.now) words.old words.new result }
{
    let end = put(words, at, s);
    put(words, end, r)
}

// The finder's call for T1 and T2, the first two parts of the words.
fn find_in(p: u32, n: u32, words: &[Word], s: &mut [Word], r: &mut [Word]) -> Result<(), Refusal>
    requires { (n ≤ 16) × (length words.now ≡ 64) }
    ensures value { number_of result ≡ find_number p n (part n words.now 0) (part n words.now 1) s.old r.old }
    ensures s_after { s.new ≡ find_output_s p n (part n words.now 0) (part n words.now 1) s.old r.old }
    ensures r_after { r.new ≡ find_output_r p n (part n words.now 0) (part n words.now 1) s.old r.old }
{
    let k = n as usize;
    find(p, n, &words[..k], &words[k..2 * k], s, r)
}

// The finder's pair for T1 and T2, by way of two lists of n words, behind T1 and T2.
fn find_behind(
    p: u32,
    n: u32,
    words: &mut [Word],
    s: &mut [Word],
    r: &mut [Word],
) -> Result<(), Refusal>
    requires { (n ≤ 16) × (length words.old ≡ 64) × (length s.old ≡ n) × (length r.old ≡ n)
        × Models p n (part n words.old 0) (part n words.old 1) }
    ensures { JobWords p n words.old words.new (number_of result) }
{
    find_in(p, n, words, s, r)?;
    put_both(words, 2 * n as usize, s, r);
    Ok(())
}

// The finder's pair for T1 and T2, the first words, behind them.
pub fn find_pair(p: u32, n: u32, words: &mut [Word]) -> Result<(), Refusal>
    requires { (n ≤ 16) × (length words.old ≡ 64) × Models p n (part n words.old 0) (part n words.old 1) }
    ensures { JobWords p n words.old words.new (number_of result) }
{
    let k = n as usize;
    let mut s = [0; 16];
    let mut r = [0; 16];
    find_behind(p, n, words, &mut s[..k], &mut r[..k])
}

// The pair card of the words, to which no refusal of the writer applies: how many bytes it has.
pub fn write_card(p: u32, n: u32, words: &[Word], out: &mut [u8]) -> usize
    requires { (write_number p n 2 words.now (replicate (card_length p n 2) 0) ≡ 0) × (length out.old ≡ 166) }
    ensures { Begins (card p n 2 words.now) out.new result }
{
    let size = byte_count(p, words.len());
    let kind = u32::from(Kind::Pair);
    write(p, n, kind, words, &mut out[..size]).unwrap();
    size
}
