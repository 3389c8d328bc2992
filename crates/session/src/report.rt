// The report: the ledger's records and totals, allowed in every state.
ghost use Rattle.std.specs.Prelude.{◌≡◌, length};
ghost use Rattle.session.specs.Session.{counted, report_text, report, report_output};
ghost use Rattle.session.specs.Step.{step_of};

use crate::{Refused, Session};
use ledger::report::{put_report, report_length as length_of};
use refusal::Refusal;
use work::counted::counted as counts_as;

impl Session {
    // The session itself, or a new one.
    fn counted(self) -> Session
        ensures { result ≡ counted self }
    {
        let x = counts_as(self.work, self.ledger.count);
        if !x.valid {
            return Session::new();
        }
        Session {
            work: x.work,
            ..self
        }
    }

    // How long the report is.
    pub fn report_length(self) -> usize
        ensures { result ≡ length (report_text self) }
    {
        let x = self.counted();
        length_of(x.ledger)
    }

    // Each record as `F` or `B`, a blank, the number of residues and a newline; then the forward and the back total, a line each. 3 where `out` is not of
    // exactly that length. The session is given back.
    pub fn report(self, out: &mut [u8]) -> Result<Session, Refused>
        ensures value { step_of result ≡ report self out.old }
        ensures out_after { out.new ≡ report_output self out.old }
    {
        let x = self.counted();
        if out.len() != length_of(x.ledger) {
            return Err(Refused {
                refusal: Refusal::Length,
                session: self,
            });
        }
        put_report(out, x.ledger);
        Ok(self)
    }
}
