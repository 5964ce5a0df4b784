//! What is asked of an end, and what it answers.
ghost use Rattle.std.specs.Prelude.{◌≡◌};
ghost use Rattle.codec.specs.Calls.{done, accepted};

use crate::faults::EndFault;
use crate::report::Report;

/// A call on an end, with its buffers.
// Vecs of numbers: the calls take such, and those of any length, as the refusals say.
#[derive(Drop)]
pub enum Request {
    Send {
        characters: Vec<u16>,
        symbol: u16,
        line: Vec<i8>,
    },
    SenderRest {
        line: Vec<i8>,
    },
    Receive {
        line: Vec<i8>,
        characters: Vec<u16>,
        places: Vec<u16>,
    },
    ReceiverRest,
}

/// How a call came out.
// No Option<Result<Option<Report>, EndFault>>: two of its cases would have no name.
#[derive(Clone, Copy, PartialEq, Eq, Debug)]
pub enum Outcome {
    Unanswered,
    Done,
    Accepted { report: Report },
    Refused { fault: EndFault },
}

/// The outcome of a send or a rest.
impl From<Result<(), EndFault>> for Outcome {
    ghost from_gives = { λ x y. y ≡ done x };

    fn from(answer: Result<(), EndFault>) -> Outcome {
        match answer {
            Ok(()) => Outcome::Done,
            Err(fault) => Outcome::Refused { fault },
        }
    }
}

/// The outcome of a receive.
// Two conversions and no generic one: what an answer holds decides the case.
impl From<Result<Report, EndFault>> for Outcome {
    ghost from_gives = { λ x y. y ≡ accepted x };

    fn from(answer: Result<Report, EndFault>) -> Outcome {
        match answer {
            Ok(report) => Outcome::Accepted { report },
            Err(fault) => Outcome::Refused { fault },
        }
    }
}

/// A call, and its outcome once its turn has come.
#[derive(Drop)]
pub struct Turn {
    pub request: Request,
    pub outcome: Outcome,
}
