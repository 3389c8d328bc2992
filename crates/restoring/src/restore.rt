// A table from its differences. On a refusal the list lent for it is as found.
ghost use Rattle.std.specs.Prelude.{◌≡◌};
ghost use Rattle.differences.specs.Differences.{differences_number, restore_output};
ghost use Rattle.refusal.specs.Number.{number_of};

use crate::columns::restore_columns;
use array::Word;
use differences::number::check_differences;
use refusal::Refusal;

// The table whose differences are lent: each word is the sum of their words in its place and n, 2·n, … places before.
pub fn restore(n: u32, table: &[Word], out: &mut [Word]) -> Result<(), Refusal>
    ensures value { number_of result ≡ differences_number n table.now out.old }
    ensures out_after { out.new ≡ restore_output n table.now out.old }
{
    check_differences(n, table, out)?;
    restore_columns(n as usize, table, out);
    Ok(())
}
