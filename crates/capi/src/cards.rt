// The reader and the writer of cards.
ghost use Rattle.std.specs.Prelude.{◌≡◌};
ghost use Rattle.card.specs.Card.{read_number, read_prime, read_degree, read_kind, read_output, write_number, write_output};

use array::Word;
use refusal::number_of;

// The reader's answer; refused, every field but the number is 0.
#[repr(C)]
#[derive(Clone, Copy)]
pub struct CardValue {
    pub number: u32,
    pub p: u32,
    pub n: u32,
    pub kind: u32,
}

// Reads a card; its coefficients go into the first of 64 lent words, the rest become 0: 0, or 3, 11, 1, 28, 12, 11, 13, 4.
#[unsafe(no_mangle)]
pub extern "C" fn yokebean_card_read(bytes: &[u8], words: &mut [Word]) -> CardValue
    ensures number_value { result.number ≡ read_number bytes.now words.old }
    ensures p_value { result.p ≡ read_prime bytes.now words.old }
    ensures n_value { result.n ≡ read_degree bytes.now words.old }
    ensures kind_value { result.kind ≡ read_kind bytes.now words.old }
    ensures words_after { words.new ≡ read_output bytes.now words.old }
{
    match reader::reader::read(bytes, words) {
        Ok(card) => CardValue {
            number: 0,
            p: card.p,
            n: card.n,
            kind: card.kind.into(),
        },
        Err(refusal) => CardValue {
            number: refusal.into(),
            p: 0,
            n: 0,
            kind: 0,
        },
    }
}

// Writes a card into a lent list of exactly its length: 0, or 1, 2, 12, 3, 4.
#[unsafe(no_mangle)]
pub extern "C" fn yokebean_card_write(
    p: u32,
    n: u32,
    kind: u32,
    words: &[Word],
    bytes: &mut [u8],
) -> u32
    ensures value { result ≡ write_number p n kind words.now bytes.old }
    ensures bytes_after { bytes.new ≡ write_output p n kind words.now bytes.old }
{
    number_of(writer::writer::write(p, n, kind, words, bytes))
}
