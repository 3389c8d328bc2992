// The lines of one of the four lists.
ghost use Rattle.std.specs.Prelude.{◌≡◌, ◌+◌, ◌*◌, ◌/◌, ◌^◌, ◌≤◌, length};
ghost use Rattle.array.specs.Words.{Words};
ghost use Rattle.text.specs.Text.{Appended};
ghost use Rattle.sheet.specs.Sheet.{line, polynomial};

use crate::coefficient::put_coefficients;
use array::Word;
use text::bytes::{put, put_byte};
use text::columns::put_blanks;

// A line: the name, up to eight coefficients, blanks, a newline.
fn put_line(text: &mut [u8], at: usize, p: u32, name: &[u8], u: &[Word]) -> usize
    requires { (p ≤ 2 ^ 20) × Words p (length u.now) u.now × (length u.now ≤ 8) × (length name.now ≡ 3) × (at + 60 ≤ length text.old) }
    ensures { Appended at (line p name.now u.now) text.old text.new result }
{
    let start = put(text, at, name);
    let end = put_coefficients(text, start, p, u);
    let last = put_blanks(text, end, 56 - 7 * u.len());
    put_byte(text, last, b'\n')
}

// The line with the name, and another where there are more than eight coefficients.
pub fn put_polynomial(text: &mut [u8], at: usize, p: u32, name: &[u8], u: &[Word]) -> usize
    requires { (p ≤ 2 ^ 20) × Words p (length u.now) u.now × (1 ≤ length u.now) × (length u.now ≤ 16) × (length name.now ≡ 3)
        × (at + (length u.now + 7) / 8 * 60 ≤ length text.old) }
    ensures { Appended at (polynomial p (length u.now) name.now u.now) text.old text.new result }
{
    if u.len() <= 8 {
        return put_line(text, at, p, name, u);
    }
    let end = put_line(text, at, p, name, &u[..8]);
    put_line(text, end, p, b"   ", &u[8..])
}
