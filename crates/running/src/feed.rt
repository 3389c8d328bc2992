// Feed: a part of the open table is converted, by the pair and in the direction with which the table began.
ghost use Rattle.std.specs.Prelude.{true, ◌≡◌, ◌≤◌};
ghost use Rattle.refusal.specs.Number.{number_of};
ghost use Rattle.held.specs.Held.{view};
ghost use Rattle.work.specs.Step.{Answers};
ghost use Rattle.work.specs.Work.{is_paired};
ghost use Rattle.work.specs.declared.Table.TheVariants.{Open};
ghost use Rattle.running.specs.OverPair.{OverPair};
ghost use Rattle.running.specs.Running.{part_number, feed_as, feed_output_as, feed, feed_output};

use array::Word;
use conversion::images::images;
use ledger::Record;
use refusal::Refusal;
use table::number::check_table;
use work::{Table, Work};

// 9, 10 and 4 of a part, where so many residues have been fed: 9 also where the table would have more than 32 bits can count.
fn check_part(p: u32, n: u32, fed: u32, table: &[Word], out: &[Word]) -> Result<(), Refusal>
    requires { 1 ≤ n }
    ensures { number_of result ≡ part_number p n fed table.now out.now }
{
    let residues = table.len() / n as usize;
    let left = u32::MAX - fed;
    if residues > left as usize {
        return Err(Refusal::TableLength);
    }
    check_table(p, n as usize, table, out)
}

// The answer where a table is open.
fn feed_open(work: Work, entry: Record, table: &[Word], out: &mut [Word]) -> Result<Work, Refusal>
    requires { (is_paired (view work.held) ≡ true) × (work.table ≡ Open entry) }
    ensures value { Answers result (feed_as (Open entry) work table.now out.old) }
    ensures out_after { out.new ≡ feed_output_as (Open entry) work.held table.now out.old }
{
    let held = work.held;
    check_part(held.p, held.n, entry.residues, table, out)?;
    images(entry.direction, work.held, table, out);
    let residues = table.len() / held.n as usize;
    let fed = Record {
        direction: entry.direction,
        residues: entry.residues + residues as u32,
    };
    Ok(Work {
        table: Table::Open(fed),
        ..work
    })
}

// Each group of n words of the part becomes its image: 26, 9, 10, 4.
pub fn feed(work: Work, table: &[Word], out: &mut [Word]) -> Result<Work, Refusal>
    requires { OverPair work }
    ensures value { Answers result (feed work table.now out.old) }
    ensures out_after { out.new ≡ feed_output work table.now out.old }
{
    match work.table {
        Table::Closed => Err(Refusal::NoTable),
        Table::Open(entry) => feed_open(work, entry, table, out),
    }
}
