// The reader of cards. Nothing is written before the last refusal is decided.
ghost use Rattle.std.specs.Prelude.{◌≡◌, false, ◌&&◌, not, ◌∷◌, [], ◌+◌, ◌-◌, ◌*◌, ◌/◌, ◌^◌, ◌≤◌, ◌<◌, ltb, eqb, length, IfOk};
ghost use Rattle.algebra.specs.Lists.{all};
ghost use Rattle.array.specs.Words.{all_below};
ghost use Rattle.modular.specs.Prime.{largest_prime};
ghost use Rattle.refusal.specs.Number.{number_of};
ghost use Rattle.refusal.specs.Refusal.{refuse, bad_word};
ghost use Rattle.card.specs.Bits.{unpacked};
ghost use Rattle.card.specs.Card.{layout, header_bits, width, field_at, fields_at, is_wide, card_prime, card_degree, card_kind, bad_header, fill_of, read_number, read_prime, read_degree, read_kind, read_output};
ghost use Rattle.card.specs.Kind.{kind_number};

use array::Word;
use card::kind::Kind;
use card::layout::{bit_count, header_bits, layout_of, width};
use modular::prime::is_prime;
use refusal::Refusal;

// What a card says.
#[derive(Clone, Copy, Debug, PartialEq, Eq)]
pub struct Card {
    pub p: u32,
    pub n: u32,
    pub kind: Kind,
}

// The fields of a header: p, n, and the number of the kind.
#[derive(Clone, Copy)]
struct Fields {
    p: u32,
    n: u32,
    kind: u32,
}

// The number in the bytes from place `first` to before place `end`, of which there are at most four.
fn whole_bytes(card: &[u8], first: usize, end: usize) -> u32
    requires { (first ≤ end) × (end ≤ first + 4) × (end ≤ length card.now) }
    ensures { result ≡ field_at (unpacked card.now) (8 * first) (8 * (end - first)) }
{
    let mut value = 0;
    for byte in &card[first..end] {
        value = value * 256 + *byte as u32;
    }
    value
}

// The number in the w bits from place i on: that in the bytes which have them, without the bits behind them and before them.
fn field(card: &[u8], i: usize, w: usize) -> u32
    requires { (w ≤ 20) × (i + w ≤ 8 * length card.now) × (i ≤ 1328) }
    ensures { (result ≡ field_at (unpacked card.now) i w) × (result < 2 ^ w) × (result < 2 ^ 20) }
{
    let end = (i + w + 7) / 8;
    let value = whole_bytes(card, i / 8, end);
    (value >> (8 * end - (i + w)) as u32) % (1 << w as u32)
}

// Whether the card starts with 16 zero bits, as wide cards do.
fn is_wide(card: &[u8]) -> bool
    requires { 2 ≤ length card.now }
    ensures { result ≡ is_wide card.now }
{
    field(card, 0, 16) == 0
}

// Whether the card has fewer bytes than a header.
fn is_short(card: &[u8]) -> bool
    ensures { result ≡ bad_header card.now }
{
    card.len() < 3 || is_wide(card) && card.len() < 6
}

// Whether a p that has room in a narrow card stands in a wide one.
fn is_misplaced(wide: bool, p: u32) -> bool
    ensures { result ≡ (wide && ltb p 65536) }
{
    wide && p < 65536
}

// What the header says: p, n and kind.
fn header(card: &[u8], wide: bool) -> Fields
    requires { (wide ≡ is_wide card.now) × (bad_header card.now ≡ false) }
    ensures prime { (result.p ≡ card_prime card.now) × (result.p ≤ largest_prime) }
    ensures degree { (result.n ≡ card_degree card.now) × (1 ≤ result.n) × (result.n ≤ 16) }
    ensures kind { result.kind ≡ card_kind card.now }
{
    let l = layout_of(wide);
    let place = l.before + l.digits;
    let p = field(card, l.before, l.digits);
    let n = field(card, place, 4) + 1;
    let kind = field(card, place + 4, 4);
    Fields { p, n, kind }
}

// Whether the bits that count as fill are 0: those of the header after kind, and those of the last byte from place `end` on.
fn is_filled(card: &[u8], wide: bool, end: usize) -> bool
    requires { (end ≤ 1328) × (header_bits (layout wide) ≤ end) × (length card.now ≡ (end + 7) / 8) }
    ensures { result ≡ all (λ b. eqb b 0) (fill_of (layout wide) end (unpacked card.now)) }
{
    let l = layout_of(wide);
    let between = field(card, l.before + l.digits + 8, l.after);
    let last = field(card, end, 8 * card.len() - end);
    (between == 0) & (last == 0)
}

// Word k, which follows the `start` bits of the header and k words of w bits.
fn word(card: &[u8], start: usize, w: usize, k: usize) -> u32
    requires { (start ≤ 48) × (w ≤ 20) × (k < 64) × (start + k * w + w ≤ 8 * length card.now) }
    ensures { (result ≡ field_at (unpacked card.now) (start + k * w) w) × (result < 2 ^ 20) }
{
    field(card, bit_count(start, w, k), w)
}

// Whether each of the first `count` words is below p.
fn words_below(card: &[u8], p: u32, start: usize, w: usize, count: usize) -> bool
    requires { (start ≤ 48) × (w ≤ 20) × (count ≤ 64) × (start + count * w ≤ 8 * length card.now) }
    ensures { result ≡ all_below p (fields_at (unpacked card.now) start w count) }
{
    // A `for`: what `(0..count).all(..)` answers has no proof here.
    for k in 0..count {
        if word(card, start, w, k) >= p {
            return false;
        }
    }
    true
}

// Writes the words of the card into as many lent ones.
fn copy_words(card: &[u8], start: usize, w: usize, words: &mut [Word])
    requires { (start ≤ 48) × (w ≤ 20) × (length words.old ≤ 64) × (start + length words.old * w ≤ 8 * length card.now) }
    ensures { words.new ≡ fields_at (unpacked card.now) start w (length words.old) }
{
    for (k, slot) in words.iter_mut().enumerate() {
        *slot = word(card, start, w, k);
    }
}

// What follows the header is refused by 11 (length), 13, 4.
fn body(card: &[u8], wide: bool, p: u32, count: usize) -> Result<(), Refusal>
    requires { (p ≤ largest_prime) × (count ≤ 64) }
    ensures { number_of result ≡
        refuse 11 (not (eqb (length card.now) ((header_bits (layout wide) + count * width p + 7) / 8)))
        (refuse 13 (not (all (λ b. eqb b 0) (fill_of (layout wide) (header_bits (layout wide) + count * width p) (unpacked card.now))))
        (refuse 4 (bad_word p (fields_at (unpacked card.now) (header_bits (layout wide)) (width p) count ∷ [])) 0)) }
{
    let w = width(p);
    let start = header_bits(wide);
    let end = bit_count(start, w, count);
    if card.len() != (end + 7) / 8 {
        return Err(Refusal::CardLength);
    }
    if !is_filled(card, wide, end) {
        return Err(Refusal::Fill);
    }
    if !words_below(card, p, start, w, count) {
        return Err(Refusal::Word);
    }
    Ok(())
}

// What the card says, or the first refusal that applies.
fn accept(card: &[u8], words: &[Word]) -> Result<Card, Refusal>
    ensures number { number_of result ≡ read_number card.now words.now }
    ensures said { IfOk result (λ c. (c.p ≡ card_prime card.now) × (c.n ≡ card_degree card.now) × (kind_number c.kind ≡ card_kind card.now) × (c.n ≤ 16)) }
{
    if words.len() != 64 {
        return Err(Refusal::Length);
    }
    if is_short(card) {
        return Err(Refusal::CardLength);
    }
    let wide = is_wide(card);
    let said = header(card, wide);
    if !is_prime(said.p) {
        return Err(Refusal::Prime);
    }
    if is_misplaced(wide, said.p) {
        return Err(Refusal::WideCard);
    }
    let kind = Kind::try_from(said.kind)?;
    body(card, wide, said.p, kind.word_count(said.n))?;
    Ok(Card {
        p: said.p,
        n: said.n,
        kind,
    })
}

// Reads a card: p, n and kind, and its words in card order into 64 lent words, the rest 0.
pub fn read(card: &[u8], words: &mut [Word]) -> Result<Card, Refusal>
    ensures number { number_of result ≡ read_number card.now words.old }
    ensures said { IfOk result (λ c. (c.p ≡ read_prime card.now words.old) × (c.n ≡ read_degree card.now words.old)
        × (kind_number c.kind ≡ read_kind card.now words.old)) }
    ensures words { words.new ≡ read_output card.now words.old }
{
    let said = accept(card, words)?;
    let start = header_bits(is_wide(card));
    let (given, rest) = words.split_at_mut(said.kind.word_count(said.n));
    copy_words(card, start, width(said.p), given);
    rest.fill(0);
    Ok(said)
}
