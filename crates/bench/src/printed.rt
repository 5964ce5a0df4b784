//! What is printed of a record.
ghost use Rattle.std.specs.Prelude.{◌≡◌, ◌++◌, Some, string_bytes, OnOk};
ghost use Rattle.bench.specs.Printing.{text_of, line_of};

use codec::Report;
use refusal::Refusal;
use std::fmt;

/// What became of a record: of an accepted frame its report, otherwise nothing to tell, or why it was refused.
pub type Answer = Result<Option<Report>, Refusal>;

/// The kind of a record, and what became of it.
#[derive(Clone, Copy, PartialEq, Eq, Debug)]
pub struct Printed {
    /// As the head says it, also where no kind has this number; 0 where the record is cut.
    // A number and no Option<Kind>: the line has the number itself, the 0 of a cut record too.
    pub kind: u16,
    pub answer: Answer,
}

impl fmt::Display for Printed {
    ghost output = { λ printed. Some (text_of printed) };

    #[tactic(auto, using(crate::proofs::Texts::text_done, crate::proofs::Texts::text_accepted))]
    fn fmt<W: fmt::Write>(&self, f: &mut fmt::Formatter<W>) -> fmt::Result {
        let kind = self.kind;
        match self.answer {
            Ok(None) => write!(f, "{kind} 0"),
            Ok(
                Some(
                    Report {
                        symbol,
                        places,
                        invalid,
                        ..
                    },
                ),
            ) => write!(f, "{kind} 0 {symbol} {places} {invalid}"),
            Err(Refusal { number, .. }) => write!(f, "{kind} {number}"),
        }
    }
}

/// Adds the line that is printed of a record to what was printed before.
pub fn print_line(printed: Printed, out: &mut String) -> fmt::Result
    ensures adds_the_line { OnOk result (string_bytes out.new ≡ string_bytes out.old ++ line_of printed) }
{
    // Writing to a String answers an allocation's error, which the `?` converts.
    writeln!(out, "{printed}")?;
    Ok(())
}
