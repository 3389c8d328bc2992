// Tables of residues by what is held: forward and back in one call, or in parts between begin and end. Each is a record of the ledger.
ghost use Rattle.std.specs.Prelude.{◌≡◌};
ghost use Rattle.refusal.specs.Number.{number_of};
ghost use Rattle.ledger.specs.declared.Direction.TheVariants.{Forward, Back};
ghost use Rattle.work.specs.Step.{RecordStep, Records};
ghost use Rattle.session.specs.Room.{Room};
ghost use Rattle.session.specs.Session.{record_with, convert, convert_output, begin, feed, feed_output, end};
ghost use Rattle.session.specs.Step.{step_of};

use crate::{Refused, Session};
use array::Word;
use conversion::convert::convert;
use ledger::Direction;
use refusal::Refusal;
use running::begin::begin as begin_table;
use running::end::end as end_table;
use running::feed::feed as feed_table;
use work::Recorded;
use work::counted::counted;

impl Session {
    // The answer of a call that adds a record.
    fn record_with(self, answer: Result<Recorded, Refusal>) -> Result<Session, Refused>
        requires { Room (number_of answer) self }
        ensures { (y : RecordStep) → Records answer y → step_of result ≡ record_with self y }
    {
        match answer {
            Ok(recorded) => {
                let work = recorded.work;
                let ledger = self.ledger.add(recorded.entry);
                Ok(Session { work, ledger })
            }
            Err(refusal) => Err(Refused {
                refusal,
                session: self,
            }),
        }
    }

    // Each group of n words of the table becomes its image under u ↦ u(S) modulo T2: 21, 22, 27, 9, 10, 4, 25.
    pub fn forward(self, table: &[Word], out: &mut [Word]) -> Result<Session, Refused>
        ensures value { step_of result ≡ convert Forward self table.now out.old }
        ensures out_after { out.new ≡ convert_output Forward self table.now out.old }
    {
        let x = counted(self.work, self.ledger.count);
        self.record_with(convert(Direction::Forward, x.work, x.count, table, out))
    }

    // The same under u ↦ u(R) modulo T1: two calls and no direction, as document 01 names them.
    pub fn back(self, table: &[Word], out: &mut [Word]) -> Result<Session, Refused>
        ensures value { step_of result ≡ convert Back self table.now out.old }
        ensures out_after { out.new ≡ convert_output Back self table.now out.old }
    {
        let x = counted(self.work, self.ledger.count);
        self.record_with(convert(Direction::Back, x.work, x.count, table, out))
    }

    // Opens a table in one direction: 21, 22, 27, 25.
    pub fn begin(self, direction: Direction) -> Result<Session, Refused>
        ensures { step_of result ≡ begin direction self }
    {
        let x = counted(self.work, self.ledger.count);
        self.step_with(x.valid, begin_table(direction, x.work, x.count))
    }

    // Converts a part of the open table, by the pair with which it began: 26, 9, 10, 4.
    pub fn feed(self, table: &[Word], out: &mut [Word]) -> Result<Session, Refused>
        ensures value { step_of result ≡ feed self table.now out.old }
        ensures out_after { out.new ≡ feed_output self table.now out.old }
    {
        let x = counted(self.work, self.ledger.count);
        self.step_with(x.valid, feed_table(x.work, table, out))
    }

    // Closes the open table, with one record of all its residues; a paired waiting session becomes the current one: 26.
    pub fn end(self) -> Result<Session, Refused>
        ensures { step_of result ≡ end self }
    {
        let x = counted(self.work, self.ledger.count);
        self.record_with(end_table(x.work))
    }
}
