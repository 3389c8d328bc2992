// The refusals by the table and the list lent for its image.
ghost use Rattle.std.specs.Prelude.{◌≡◌, ◌≤◌};
ghost use Rattle.refusal.specs.Number.{number_of};
ghost use Rattle.table.specs.Table.{refuse_table, table_number};

use crate::WORDS;
use array::Word;
use array::list::below;
use refusal::Refusal;

// 9 and 10: whether the table is whole groups of n words, not too many, and the list lent has its length.
pub fn lengths(n: usize, table: &[Word], out: &[Word]) -> Result<(), Refusal>
    requires { 1 ≤ n }
    ensures { number_of result ≡ refuse_table n table.now out.now 0 }
{
    if table.len() > WORDS || table.len() % n != 0 {
        return Err(Refusal::TableLength);
    }
    if out.len() != table.len() {
        return Err(Refusal::OutputLength);
    }
    Ok(())
}

// 9, 10 and 4: the lengths, and then the table's words.
pub fn check_table(p: u32, n: usize, table: &[Word], out: &[Word]) -> Result<(), Refusal>
    requires { 1 ≤ n }
    ensures { number_of result ≡ table_number p n table.now out.now }
{
    lengths(n, table, out)?;
    if !below(p, table) {
        return Err(Refusal::Word);
    }
    Ok(())
}
