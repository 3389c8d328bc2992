// The call that prints a pair.
ghost use Rattle.std.specs.Prelude.{◌≡◌, length};
ghost use Rattle.sheet.specs.Sheet.{sheet_text, sheet_length, sheet_number, sheet_output};
ghost use Rattle.refusal.specs.Models.{Given};
ghost use Rattle.refusal.specs.Number.{number_of};

use crate::lines::put_polynomial;
use array::Word;
use pair::checker::check_with_output;
use refusal::Refusal;

// The length of the sheet for coefficient lists of n words.
pub fn sheet_length(n: u32) -> usize
    ensures { result ≡ sheet_length n }
{
    4 * ((n as usize + 7) / 8) * 60
}

// The four lists, in their order.
fn put_sheet(p: u32, n: u32, t1: &[Word], t2: &[Word], s: &[Word], r: &[Word], out: &mut [u8])
    requires { Given p n t1.now t2.now s.now r.now × (length out.old ≡ sheet_length n) }
    ensures { out.new ≡ sheet_text p n t1.now t2.now s.now r.now }
{
    let second = put_polynomial(out, 0, p, b"T1 ", t1);
    let third = put_polynomial(out, second, p, b"T2 ", t2);
    let fourth = put_polynomial(out, third, p, b"S  ", s);
    put_polynomial(out, fourth, p, b"R  ", r);
}

// Prints T1, T2, S and R into `out`, for an accepted pair and a list of the sheet's length.
pub fn sheet(
    p: u32,
    n: u32,
    t1: &[Word],
    t2: &[Word],
    s: &[Word],
    r: &[Word],
    out: &mut [u8],
) -> Result<(), Refusal>
    ensures value { number_of result ≡ sheet_number p n t1.now t2.now s.now r.now out.old }
    ensures out_after { out.new ≡ sheet_output p n t1.now t2.now s.now r.now out.old }
{
    let checked = check_with_output(p, n, t1, t2, s, r, out.len() == sheet_length(n));
    if checked == Ok(()) {
        put_sheet(p, n, t1, t2, s, r, out);
    }
    checked
}
