//! Why a part of an end is not made, and what a caller is told then.
ghost use Rattle.lines.specs.Making.{making_refusal};

use refusal::{Fault, Layer, Refusal};
use std::fmt;

/// Why a part of an end is not made.
#[derive(Clone, Copy, PartialEq, Eq, Debug)]
pub enum MakingFault {
    /// No scrambler can start at the seed: it is 0, or it has more than fifteen bits.
    Seed,
}

impl Fault for MakingFault {
    ghost told = { making_refusal };

    fn refusal(self) -> Refusal {
        match self {
            MakingFault::Seed => Refusal::new(1, Layer::Making, 0),
        }
    }
}

// By hand: `thiserror` would print the same, without a contract for what is printed.
impl fmt::Display for MakingFault {
    ghost use Rattle.std.specs.Prelude.{Some, codes};

    ghost output = { λ _. Some (codes "a seed of 0 or of more than fifteen bits") };

    fn fmt<W: fmt::Write>(&self, f: &mut fmt::Formatter<W>) -> fmt::Result {
        f.write_str(match self {
            MakingFault::Seed => "a seed of 0 or of more than fifteen bits",
        })
    }
}

impl std::error::Error for MakingFault {}
