//! Why a bench record is refused.
ghost use Rattle.std.specs.Prelude.{◌≡◌};
ghost use Rattle.bench.specs.Refusals.{bench_refusal};
ghost use Rattle.bench.specs.declared.faults.BenchFault.{BenchFault};

use codec::EndFault;
use refusal::{Fault, Layer, Refusal};
use std::error::Error;
use std::fmt;

/// Why a record is refused: by the bench itself, or by an end that it drives.
#[derive(Clone, Copy, PartialEq, Eq, Debug)]
pub enum BenchFault {
    /// The record of this number has an unknown kind, a length that its kind does not have, or a hit out of range.
    BadRecord { record: usize },
    /// The file ends inside the record of this number.
    CutRecord { record: usize },
    /// An end refuses what the record asks for.
    End { fault: EndFault },
}

// By hand: the From that `thiserror` derives has no contract.
impl From<EndFault> for BenchFault {
    ghost from_gives = { λ fault e. e ≡ BenchFault.End fault };

    fn from(fault: EndFault) -> BenchFault {
        BenchFault::End { fault }
    }
}

impl Fault for BenchFault {
    ghost told = { bench_refusal };

    fn refusal(self) -> Refusal {
        match self {
            BenchFault::BadRecord { record } => Refusal::new(11, Layer::Bench, record),
            BenchFault::CutRecord { record } => Refusal::new(12, Layer::Bench, record),
            BenchFault::End { fault } => fault.refusal(),
        }
    }
}

// By hand: `thiserror` would print the same, without a contract for what is printed.
impl fmt::Display for BenchFault {
    ghost use Rattle.std.specs.Prelude.{Some};
    ghost use Rattle.bench.specs.Refusals.{bench_fault_text};

    ghost output = { λ fault. Some (bench_fault_text fault) };

    fn fmt<W: fmt::Write>(&self, f: &mut fmt::Formatter<W>) -> fmt::Result {
        match self {
            BenchFault::BadRecord { record } => write!(
                f,
                "record {record} is not as any kind has it"
            ),
            BenchFault::CutRecord { record } => write!(f, "record {record} is cut"),
            BenchFault::End { fault } => write!(f, "{fault}"),
        }
    }
}

impl Error for BenchFault {}
