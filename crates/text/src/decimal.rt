// Numbers in decimal.
ghost use Rattle.std.specs.Prelude.{◌≡◌, ◌+◌, ◌≤◌, length};
ghost use Rattle.text.specs.Digits.{decimal};
ghost use Rattle.text.specs.Text.{Appended};

use crate::bytes::put_byte;

// How many decimal digits k has.
pub fn decimal_length(k: u64) -> usize
    ensures { result ≡ length (decimal k) }
{
    if k < 10 {
        return 1;
    }
    decimal_length(k / 10) + 1
}

// The decimal digits of k: those of k / 10, and the last.
pub fn put_decimal(text: &mut [u8], at: usize, k: u64) -> usize
    requires { at + length (decimal k) ≤ length text.old }
    ensures { Appended at (decimal k) text.old text.new result }
{
    if k < 10 {
        return put_byte(text, at, (48 + k) as u8);
    }
    let end = put_decimal(text, at, k / 10);
    put_byte(text, end, (48 + k % 10) as u8)
}
