//! Why a word is refused.
ghost use Rattle.std.specs.Prelude.{◌≡◌};
ghost use Rattle.code.specs.Faults.{code_refusal};
ghost use Rattle.code.specs.declared.fault.CodeFault.{CodeFault};

use refusal::{Fault, Layer, Refusal};
use std::error::Error;
use std::fmt;

/// Why a word is neither completed nor repaired.
#[derive(Clone, Copy, PartialEq, Eq, Debug)]
pub enum CodeFault {
    /// Not 450 symbols.
    Length,
    /// The first symbol above 511 stands at this place.
    SymbolTooLarge { place: usize },
    /// No codeword differs in 22 symbols or fewer.
    BeyondRepair,
}

/// No codeword differs from a word in 22 symbols or fewer: all that repairing a word can come to but its codeword.
#[derive(Clone, Copy, PartialEq, Eq, Debug)]
pub struct BeyondRepair;

// By hand: the From that `thiserror` derives has no contract, and the proofs cite this one's.
impl From<BeyondRepair> for CodeFault {
    ghost from_gives = { λ _ fault. fault ≡ CodeFault.BeyondRepair };

    fn from(_: BeyondRepair) -> Self {
        Self::BeyondRepair
    }
}

impl Fault for CodeFault {
    ghost told = { code_refusal };

    fn refusal(self) -> Refusal
        ensures number_layer_and_place { result ≡ code_refusal self }
        // The same under the name by which users of the code know it.
        ensures told { result ≡ code_refusal self }
    {
        match self {
            CodeFault::Length => Refusal::new(3, Layer::Code, 0),
            CodeFault::SymbolTooLarge { place } => Refusal::new(6, Layer::Code, place),
            CodeFault::BeyondRepair => Refusal::new(7, Layer::Code, 0),
        }
    }
}

// By hand: `thiserror` would print the same, without a contract for what is printed.
impl fmt::Display for CodeFault {
    ghost use Rattle.std.specs.Prelude.{Some};
    ghost use Rattle.code.specs.Faults.{code_fault_text};

    ghost output = { λ fault. Some (code_fault_text fault) };

    fn fmt<W: fmt::Write>(&self, f: &mut fmt::Formatter<W>) -> fmt::Result {
        match self {
            CodeFault::Length => f.write_str("a word of the wrong length"),
            CodeFault::SymbolTooLarge { place } => {
                write!(f, "a symbol above 511 at place {place}")
            }
            CodeFault::BeyondRepair => write!(f, "{BeyondRepair}"),
        }
    }
}

impl Error for CodeFault {}

impl fmt::Display for BeyondRepair {
    ghost use Rattle.std.specs.Prelude.{Some};
    ghost use Rattle.code.specs.Faults.{beyond_repair_text};

    ghost output = { λ _. Some beyond_repair_text };

    fn fmt<W: fmt::Write>(&self, f: &mut fmt::Formatter<W>) -> fmt::Result {
        f.write_str("no codeword within reach")
    }
}

impl Error for BeyondRepair {}
