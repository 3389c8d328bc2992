// Numbers with their sign, right-justified in columns, and the blanks that fill a line.
ghost use Rattle.std.specs.Prelude.{◌≡◌, ◌+◌, ◌^◌, ◌≤◌, ◌<◌, nat_abs, length};
ghost use Rattle.text.specs.Columns.{blanks, signed_decimal, right_justified};
ghost use Rattle.text.specs.Text.{Appended};

use crate::bytes::put_byte;
use crate::decimal::{decimal_length, put_decimal};

// k blanks.
pub fn put_blanks(text: &mut [u8], at: usize, k: usize) -> usize
    requires { at + k ≤ length text.old }
    ensures { Appended at (blanks k) text.old text.new result }
{
    let end = at + k;
    text[at..end].fill(b' ');
    end
}

// The number x without its sign.
fn magnitude(x: i32) -> u64
    requires { nat_abs x < 2 ^ 31 }
    ensures { result ≡ nat_abs x }
{
    x.unsigned_abs() as u64
}

// How many columns x takes with its sign.
fn signed_length(x: i32) -> usize
    requires { nat_abs x < 2 ^ 31 }
    ensures { result ≡ length (signed_decimal x) }
{
    let digits = decimal_length(magnitude(x));
    if x < 0 { digits + 1 } else { digits }
}

// The decimal digits of x, behind a minus where x is negative.
fn put_signed(text: &mut [u8], at: usize, x: i32) -> usize
    requires { (nat_abs x < 2 ^ 31) × (at + length (signed_decimal x) ≤ length text.old) }
    ensures { Appended at (signed_decimal x) text.old text.new result }
{
    if x < 0 {
        let end = put_byte(text, at, b'-');
        return put_decimal(text, end, magnitude(x));
    }
    put_decimal(text, at, magnitude(x))
}

// x at the right of `width` columns, which it does not exceed.
pub fn put_right(text: &mut [u8], at: usize, width: usize, x: i32) -> usize
    requires { (nat_abs x < 2 ^ 31) × (length (signed_decimal x) ≤ width) × (at + width ≤ length text.old) }
    ensures { Appended at (right_justified width (signed_decimal x)) text.old text.new result }
{
    let end = put_blanks(text, at, width - signed_length(x));
    put_signed(text, end, x)
}
