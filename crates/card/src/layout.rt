// The layout of a card: a header, wide or narrow, then words of w bits each. Only this repository calls these functions, so they state what
// they require.
ghost use Rattle.std.specs.Prelude.{◌≡◌, ◌+◌, ◌*◌, ◌/◌, ◌%◌, ◌^◌, ◌≤◌, ◌<◌};
ghost use Rattle.modular.specs.Prime.{largest_prime};
ghost use Rattle.card.specs.Card.{layout, header_bits, is_over, width};

// A header: zero bits, p, then n − 1 and kind in 4 bits each, and zero bits that count as fill.
#[derive(Clone, Copy)]
pub struct Layout {
    pub before: usize,
    pub digits: usize,
    pub after: usize,
}

// The header of a wide card, which has room for primes of twenty bits, or of a narrow one. `wide` is
// a bool, since it is what one test says, of p in the writer and of 16 bits in the reader.
pub fn layout_of(wide: bool) -> Layout
    ensures { (result ≡ layout wide) × (result.digits ≤ 20) × (result.after ≤ 4) × (result.before + result.digits + 8 + result.after ≤ 48) }
{
    if wide {
        Layout {
            before: 16,
            digits: 20,
            after: 4,
        }
    } else {
        Layout {
            before: 0,
            digits: 16,
            after: 0,
        }
    }
}

// How many bits the header has.
pub fn header_bits(wide: bool) -> usize
    ensures { (result ≡ header_bits (layout wide)) × (result ≤ 48) }
{
    if wide { 48 } else { 24 }
}

// Bit k of v, counted from the least significant.
pub fn digit(v: u32, k: u32) -> u32
    requires { k < 32 }
    ensures { (result ≡ v / 2 ^ k % 2) × (result < 2) }
{
    (v >> k) % 2
}

// The number of binary digits of p − 1: the words of a card have as many bits.
pub fn width(p: u32) -> usize
    requires { p ≤ largest_prime }
    ensures { (result ≡ width p) × (result ≤ 20) }
{
    (u32::BITS - p.saturating_sub(1).leading_zeros()) as usize
}

// The bits of a card before those that fill the last byte: `start` of its header and `count` words of w bits.
pub fn bit_count(start: usize, w: usize, count: usize) -> usize
    requires { (start ≤ 48) × (w ≤ 20) × (count ≤ 64) }
    ensures { (result ≡ start + count * w) × (result ≤ 1328) }
{
    start + count * w
}

// The bytes of the card of p with `count` words.
pub fn byte_count(p: u32, count: usize) -> usize
    requires { (p ≤ largest_prime) × (count ≤ 64) }
    ensures { (result ≡ (header_bits (layout (is_over p)) + count * width p + 7) / 8) × (result ≤ 166) }
{
    (bit_count(header_bits(p > 65535), width(p), count) + 7) / 8
}
