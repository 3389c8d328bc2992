// Coefficients as signed numbers, small in magnitude.
ghost use Rattle.std.specs.Prelude.{◌≡◌, ◌+◌, ◌*◌, ◌^◌, ◌≤◌, ◌<◌, length};
ghost use Rattle.array.specs.Words.{Words};
ghost use Rattle.text.specs.Text.{Appended};
ghost use Rattle.sheet.specs.Sheet.{centred, columns};

use array::Word;
use text::columns::put_right;

// The word v, less p where it is above half of p.
pub fn centred(p: u32, v: u32) -> i32
    requires { (v < p) × (p ≤ 2 ^ 20) }
    ensures { result ≡ centred p v }
{
    if v <= p / 2 {
        return v as i32;
    }
    v as i32 - p as i32
}

// The coefficients u, each in 7 columns.
pub fn put_coefficients(text: &mut [u8], at: usize, p: u32, u: &[Word]) -> usize
    requires { (p ≤ 2 ^ 20) × Words p (length u.now) u.now × (at + 7 * length u.now ≤ length text.old) }
    ensures { Appended at (columns 7 p u.now) text.old text.new result }
{
    let mut end = at;
    for v in u {
        end = put_right(text, end, 7, centred(p, *v));
    }
    end
}
