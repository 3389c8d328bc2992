// The writer of cards. Every byte is a function of its place, and nothing is written before the last refusal is decided.
// A kind is its number here: the caller gives it so, and the card has its bits.
ghost use Rattle.std.specs.Prelude.{[], ◌≡◌, ◌≤◌, ◌<◌, length, get_or};
ghost use Rattle.refusal.specs.Number.{number_of};
ghost use Rattle.card.specs.Bits.{unpacked};
ghost use Rattle.card.specs.Card.{layout, header_bits, is_over, width, all_bits, header, card, write_number, write_output};

use array::Word;
use array::list::below;
use card::kind::Kind;
use card::layout::{byte_count, digit, header_bits, layout_of, width};
use modular::prime::is_prime;
use refusal::Refusal;
use refusal::sent::is_degree;

// Bit i of the words, of w bits each, and 0 after the last.
fn word_bit(w: usize, words: &[Word], i: usize) -> u32
    requires { (1 ≤ w) × (w ≤ 20) }
    ensures { (result ≡ get_or (all_bits w words.now) i 0) × (result < 2) }
{
    match words.get(i / w) {
        Some(word) => digit(*word, (w - 1 - i % w) as u32),
        None => 0,
    }
}

// Bit i of the header.
fn header_bit(p: u32, n: u32, kind: u32, i: usize) -> u32
    requires { (1 ≤ n) × (i < header_bits (layout (is_over p))) }
    ensures { (result ≡ get_or (header (layout (is_over p)) p n kind []) i 0) × (result < 2) }
{
    let l = layout_of(p > 65535);
    let place = l.before + l.digits;
    if i < l.before {
        return 0;
    }
    if i < place {
        return digit(p, (place - 1 - i) as u32);
    }
    if i < place + 4 {
        return digit(n - 1, (place + 3 - i) as u32);
    }
    if i < place + 8 {
        return digit(kind, (place + 7 - i) as u32);
    }
    0
}

// Bit i of the card, where w is the width of p. Most are bits of words, which are looked for first.
fn bit(p: u32, n: u32, kind: u32, w: usize, words: &[Word], i: usize) -> u32
    requires { (1 ≤ n) × (1 ≤ w) × (w ≤ 20) × (w ≡ width p) }
    ensures { (result ≡ get_or (unpacked (card p n kind words.now)) i 0) × (result < 2) }
{
    let start = header_bits(p > 65535);
    if start <= i {
        return word_bit(w, words, i - start);
    }
    header_bit(p, n, kind, i)
}

// Byte k of the card.
fn byte(p: u32, n: u32, kind: u32, w: usize, words: &[Word], k: usize) -> u8
    requires { (1 ≤ n) × (1 ≤ w) × (w ≤ 20) × (w ≡ width p) × (k < length (card p n kind words.now)) × (k ≤ 166) }
    ensures { result ≡ get_or (card p n kind words.now) k 0 }
{
    let mut value = 0;
    for j in 0..8 {
        value = value * 2 + bit(p, n, kind, w, words, 8 * k + j);
    }
    value as u8
}

// Writes the card into the lent bytes, which are as many as it has.
fn write_bytes(p: u32, n: u32, kind: u32, w: usize, words: &[Word], out: &mut [u8])
    requires { (1 ≤ n) × (1 ≤ w) × (w ≤ 20) × (w ≡ width p) × (length out.old ≡ length (card p n kind words.now)) × (length out.old ≤ 166) }
    ensures { out.new ≡ card p n kind words.now }
{
    for (k, slot) in out.iter_mut().enumerate() {
        *slot = byte(p, n, kind, w, words, k);
    }
}

// The refusals, in their order.
fn accept(p: u32, n: u32, kind: u32, words: &[Word], out: &[u8]) -> Result<(), Refusal>
    ensures { number_of result ≡ write_number p n kind words.now out.now }
{
    if !is_prime(p) {
        return Err(Refusal::Prime);
    }
    if !is_degree(n) {
        return Err(Refusal::Degree);
    }
    let count = Kind::try_from(kind)?.word_count(n);
    if words.len() != count {
        return Err(Refusal::Length);
    }
    if out.len() != byte_count(p, count) {
        return Err(Refusal::Length);
    }
    if !below(p, words) {
        return Err(Refusal::Word);
    }
    Ok(())
}

// Writes the card of p, n, kind and its words in card order into a list of exactly its length.
pub fn write(p: u32, n: u32, kind: u32, words: &[Word], out: &mut [u8]) -> Result<(), Refusal>
    ensures number { number_of result ≡ write_number p n kind words.now out.old }
    ensures output { out.new ≡ write_output p n kind words.now out.old }
{
    accept(p, n, kind, words, out)?;
    write_bytes(p, n, kind, width(p), words, out);
    Ok(())
}
