// Bytes in upper-case hexadecimal, two digits each.
ghost use Rattle.std.specs.Prelude.{◌∷◌, [], ◌≡◌, ◌+◌, ◌*◌, ◌≤◌, ◌<◌, length};
ghost use Rattle.text.specs.Digits.{hexadecimal, hexadecimal_digit};
ghost use Rattle.text.specs.Text.{Appended};

use crate::bytes::put_byte;

// The hexadecimal digit of d.
pub fn hexadecimal_digit(d: u8) -> u8
    requires { d < 16 }
    ensures { result ≡ hexadecimal_digit d }
{
    if d < 10 { 48 + d } else { 55 + d }
}

// The two digits of a byte.
pub fn put_digits(text: &mut [u8], at: usize, byte: u8) -> usize
    requires { at + 2 ≤ length text.old }
    ensures { Appended at (hexadecimal (byte ∷ [])) text.old text.new result }
{
    let end = put_byte(text, at, hexadecimal_digit(byte / 16));
    put_byte(text, end, hexadecimal_digit(byte % 16))
}

// The digits of each byte.
pub fn put_hexadecimal(text: &mut [u8], at: usize, bytes: &[u8]) -> usize
    requires { at + 2 * length bytes.now ≤ length text.old }
    ensures { Appended at (hexadecimal bytes.now) text.old text.new result }
{
    let mut end = at;
    for byte in bytes {
        end = put_digits(text, end, *byte);
    }
    end
}
