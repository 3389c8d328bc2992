// A table as differences. On a refusal the list lent for them is as found.
ghost use Rattle.std.specs.Prelude.{◌≡◌, length};
ghost use Rattle.differences.specs.Clauses.{Begun};
ghost use Rattle.differences.specs.Differences.{differences, differences_number, differences_output};
ghost use Rattle.refusal.specs.Number.{number_of};

use crate::number::check_differences;
use crate::wrapped::minus;
use array::Word;
use refusal::Refusal;

// The first n words; an empty table has none.
fn keep_first(n: usize, table: &[Word], out: &mut [Word])
    requires { length out.old ≡ length table.now }
    ensures { Begun n table.now out.new }
{
    // Word by word: `copy_from_slice` calls the C library's memmove.
    for k in 0..n.min(table.len()) {
        out[k] = table[k];
    }
}

// Each word after the first n minus the word of the table n places before.
fn subtract_earlier(n: usize, table: &[Word], out: &mut [Word])
    requires { Begun n table.now out.old }
    ensures { out.new ≡ differences n table.now }
{
    for k in n..table.len() {
        out[k] = minus(table[k], table[k - n]);
    }
}

// The first n words of a table, and each later word minus the word n places before.
pub fn differences(n: u32, table: &[Word], out: &mut [Word]) -> Result<(), Refusal>
    ensures value { number_of result ≡ differences_number n table.now out.old }
    ensures out_after { out.new ≡ differences_output n table.now out.old }
{
    check_differences(n, table, out)?;
    keep_first(n as usize, table, out);
    subtract_earlier(n as usize, table, out);
    Ok(())
}
