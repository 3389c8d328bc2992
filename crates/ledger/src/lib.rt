// The ledger of conversions (document 02, S-2): up to 512 records by value, each a direction and a number of residues. Only this repository calls
// these functions, so they state what they require.
//   total    the residues of the records of one direction, together
//   report   the report's text and its length
#![tactic(auto)]

pub mod report;
pub mod total;

ghost use Rattle.std.specs.Prelude.{◌≡◌, ◌≤◌, ◌<◌};
ghost use Rattle.ledger.specs.Ledger.{most_records, new_ledger, records_of, added};

// The direction of a conversion.
#[derive(Clone, Copy, Debug, PartialEq, Eq)]
pub enum Direction {
    Forward,
    Back,
}

// A conversion that succeeded: its direction, and how many residues it had.
#[derive(Clone, Copy, Debug, PartialEq, Eq)]
pub struct Record {
    pub direction: Direction,
    pub residues: u32,
}

// The first `count` records count. It is an array, since a session has fixed memory and no heap.
#[derive(Clone, Copy)]
pub struct Ledger {
    pub count: u32,
    pub records: [Record; Ledger::RECORDS],
}

impl Ledger {
    // The most records.
    pub const RECORDS: usize = 512;

    // No records.
    pub fn new() -> Ledger
        ensures { result ≡ new_ledger }
    {
        let none = Record {
            direction: Direction::Forward,
            residues: 0,
        };
        Ledger {
            count: 0,
            records: [none; Ledger::RECORDS],
        }
    }

    // The records that count.
    pub fn records(&self) -> &[Record]
        requires { self.now.count ≤ most_records }
        ensures { result.now ≡ records_of self.now }
    {
        &self.records[..self.count as usize]
    }

    // One record more.
    pub fn add(mut self, entry: Record) -> Ledger
        requires { self.count < most_records }
        ensures { result ≡ added self entry }
    {
        let at = self.count as usize;
        self.records[at] = entry;
        self.count += 1;
        self
    }
}
