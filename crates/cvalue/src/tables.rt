// The open table to numbers, and back: 0 is no table, 1 a forward one, 2 one back. Only C has these
// numbers: a `From` would have to stand in work, and each function has a definition of its own in
// specs.
ghost use Rattle.std.specs.Prelude.{◌≡◌};
ghost use Rattle.cvalue.specs.Values.{table_of, open_in, open_number, fed_number, table_made};

use ledger::{Direction, Record};
use work::Table;

// The table with this number, to which so many residues were fed.
pub fn table_of(number: u32, fed: u32) -> Table
    ensures { result ≡ table_of number fed }
{
    match number {
        0 => Table::Closed,
        1 => Table::Open(Record {
            direction: Direction::Forward,
            residues: fed,
        }),
        _ => Table::Open(Record {
            direction: Direction::Back,
            residues: fed,
        }),
    }
}

// The number of a table that is open in this direction.
fn open_in(direction: Direction) -> u32
    ensures { result ≡ open_in direction }
{
    match direction {
        Direction::Forward => 1,
        Direction::Back => 2,
    }
}

// The number of a table.
pub fn open_number(table: Table) -> u32
    ensures { result ≡ open_number table }
{
    match table {
        Table::Closed => 0,
        Table::Open(entry) => open_in(entry.direction),
    }
}

// The residues fed to it so far.
pub fn fed_number(table: Table) -> u32
    ensures { result ≡ fed_number table }
{
    match table {
        Table::Closed => 0,
        Table::Open(entry) => entry.residues,
    }
}

// Whether these numbers stand for something: no table is open; or one is, and the session that waits has a state.
pub fn is_table(number: u32, waiting: u32) -> bool
    ensures { result ≡ table_made number waiting }
{
    number == 0 || (number <= 2 && waiting <= 2)
}
