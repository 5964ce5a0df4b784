//! Why a call of the block or cycle layer is refused.
ghost use Rattle.blocks.specs.Faults.{block_refusal, cycle_refusal};

use refusal::{Fault, Layer, Refusal};
use std::error::Error;
use std::fmt;

/// Why a block is neither written nor read.
#[derive(Clone, Copy, PartialEq, Eq, Debug)]
pub enum BlockFault {
    /// The buffer to read has the wrong length.
    InputLength,
    /// The buffer to write has the wrong length.
    OutputLength,
    /// The first number that is no character stands at this place.
    NoCharacter { place: usize },
    /// An invalid pointer begins at this octet.
    InvalidPointer { octet: usize },
    /// The control of this octet has a reserved code.
    ReservedCode { octet: usize },
}

/// Why cycles do not become characters.
#[derive(Clone, Copy, PartialEq, Eq, Debug)]
pub enum CycleFault {
    /// The list of cycles has the wrong length.
    InputLength,
    /// The character buffer has the wrong length.
    OutputLength,
    /// The first reserved transmit request stands at this place.
    ReservedRequest { place: usize },
}

impl Fault for BlockFault {
    ghost told = { block_refusal };

    fn refusal(self) -> Refusal {
        match self {
            BlockFault::InputLength => Refusal::new(3, Layer::Block, 0),
            BlockFault::OutputLength => Refusal::new(3, Layer::Block, 1),
            BlockFault::NoCharacter { place } => Refusal::new(5, Layer::Block, place),
            BlockFault::InvalidPointer { octet } => Refusal::new(8, Layer::Block, octet),
            BlockFault::ReservedCode { octet } => Refusal::new(9, Layer::Block, octet),
        }
    }
}

impl Fault for CycleFault {
    ghost told = { cycle_refusal };

    fn refusal(self) -> Refusal {
        match self {
            CycleFault::InputLength => Refusal::new(3, Layer::Cycle, 0),
            CycleFault::OutputLength => Refusal::new(3, Layer::Cycle, 1),
            CycleFault::ReservedRequest { place } => Refusal::new(10, Layer::Cycle, place),
        }
    }
}

// By hand: `thiserror` would print the same, without a contract for what is printed.
impl fmt::Display for BlockFault {
    ghost use Rattle.std.specs.Prelude.{Some};
    ghost use Rattle.blocks.specs.Texts.{block_fault_text};

    ghost output = { λ fault. Some (block_fault_text fault) };

    fn fmt<W: fmt::Write>(&self, f: &mut fmt::Formatter<W>) -> fmt::Result {
        match self {
            BlockFault::InputLength => f.write_str("the buffer to read has the wrong length"),
            BlockFault::OutputLength => f.write_str("the buffer to write has the wrong length"),
            BlockFault::NoCharacter { place } => write!(f, "no character at place {place}"),
            BlockFault::InvalidPointer { octet } => write!(f, "invalid pointer at octet {octet}"),
            BlockFault::ReservedCode { octet } => write!(f, "reserved code at octet {octet}"),
        }
    }
}

impl fmt::Display for CycleFault {
    ghost use Rattle.std.specs.Prelude.{Some};
    ghost use Rattle.blocks.specs.Texts.{cycle_fault_text};

    ghost output = { λ fault. Some (cycle_fault_text fault) };

    fn fmt<W: fmt::Write>(&self, f: &mut fmt::Formatter<W>) -> fmt::Result {
        match self {
            CycleFault::InputLength => f.write_str("the list of cycles has the wrong length"),
            CycleFault::OutputLength => f.write_str("the character buffer has the wrong length"),
            CycleFault::ReservedRequest { place } => write!(f, "reserved request at place {place}"),
        }
    }
}

impl Error for BlockFault {}

impl Error for CycleFault {}
