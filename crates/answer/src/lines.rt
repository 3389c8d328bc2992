// The lines that the program prints, written from the start of the text.
ghost use Rattle.std.specs.Prelude.{◌≤◌, length};
ghost use Rattle.text.specs.Text.{Begins};
ghost use Rattle.answer.specs.Answer.{pair_text, refused_text, ring_text, valid_text};

use text::bytes::{put, put_byte};
use text::decimal::put_decimal;
use text::hexadecimal::put_hexadecimal;

// `PAIR `, the card and a newline: at most 338 bytes.
pub fn put_pair(text: &mut [u8], card: &[u8]) -> usize
    requires { (length card.now ≤ 166) × (338 ≤ length text.old) }
    ensures { Begins (pair_text card.now) text.new result }
{
    let start = put(text, 0, b"PAIR ");
    let end = put_hexadecimal(text, start, card);
    put_byte(text, end, b'\n')
}

// `VALID` and a newline.
pub fn put_valid(text: &mut [u8]) -> usize
    requires { 338 ≤ length text.old }
    ensures { Begins valid_text text.new result }
{
    put(text, 0, b"VALID\n")
}

// `RING` and a newline.
pub fn put_ring(text: &mut [u8]) -> usize
    requires { 338 ≤ length text.old }
    ensures { Begins ring_text text.new result }
{
    put(text, 0, b"RING\n")
}

// `REFUSED `, the number and a newline.
pub fn put_refusal(text: &mut [u8], number: u32) -> usize
    requires { 338 ≤ length text.old }
    ensures { Begins (refused_text number) text.new result }
{
    let start = put(text, 0, b"REFUSED ");
    let end = put_decimal(text, start, number as u64);
    put_byte(text, end, b'\n')
}
