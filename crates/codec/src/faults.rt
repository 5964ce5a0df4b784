//! Why a call on an end is refused, and what a caller is told then.
ghost use Rattle.std.specs.Prelude.{◌≡◌};
ghost use Rattle.blocks.specs.Faults.{block_refusal};
ghost use Rattle.codec.specs.declared.faults.EndFault.{EndFault};
ghost use Rattle.codec.specs.Refusals.{line_refusal, frame_refusal, end_refusal};

use blocks::BlockFault;
use code::CodeFault;
use refusal::{Fault, Layer, Refusal};
use std::error::Error;
use std::fmt;

/// Why a line is no list of line symbols.
#[derive(Clone, Copy, PartialEq, Eq, Debug)]
pub enum LineFault {
    /// The first number that is no line symbol stands at this place.
    NoLineSymbol { place: usize },
}

/// The fault of a block, with the block's number in its frame.
#[derive(Clone, Copy, PartialEq, Eq, Debug)]
pub struct FrameFault {
    pub block: usize,
    pub fault: BlockFault,
}

/// Why a call on an end is refused.
#[derive(Clone, Copy, PartialEq, Eq, Debug)]
pub enum EndFault {
    /// The receiver has lost lock.
    NoLock,
    /// The buffer of this number has the wrong length.
    // A number and no name for each buffer: it is the place that the refusal tells, counted over the buffers of the call that was made.
    Length { buffer: usize },
    /// The management symbol is above 511.
    ManagementSymbol,
    Block { fault: BlockFault },
    Line { fault: LineFault },
    Code { fault: CodeFault },
}

// A From of the pair: a block's fault alone does not know its block, and faults go from layer to layer by From.
impl From<(usize, BlockFault)> for FrameFault {
    ghost from_gives = { λ x y. y ≡ record { block = x.0; fault = x.1 } };

    fn from(found: (usize, BlockFault)) -> FrameFault {
        let (block, fault) = found;
        FrameFault { block, fault }
    }
}

// One From for each layer, by hand: those that `thiserror` derives have no contract, and the clauses say which fault comes of which.
impl From<BlockFault> for EndFault {
    ghost from_gives = { λ x y. y ≡ EndFault.Block x };

    fn from(fault: BlockFault) -> EndFault {
        EndFault::Block { fault }
    }
}

impl From<LineFault> for EndFault {
    ghost from_gives = { λ x y. y ≡ EndFault.Line x };

    fn from(fault: LineFault) -> EndFault {
        EndFault::Line { fault }
    }
}

impl From<CodeFault> for EndFault {
    ghost from_gives = { λ x y. y ≡ EndFault.Code x };

    fn from(fault: CodeFault) -> EndFault {
        EndFault::Code { fault }
    }
}

impl Fault for LineFault {
    ghost told = { line_refusal };

    fn refusal(self) -> Refusal {
        match self {
            LineFault::NoLineSymbol { place } => Refusal::new(6, Layer::Line, place),
        }
    }
}

impl Fault for FrameFault {
    ghost told = { frame_refusal };

    /// The refusal of the block; its place is the octet in that block.
    fn refusal(self) -> Refusal
        ensures that_of_the_block { result ≡ block_refusal self.fault }
    {
        self.fault.refusal()
    }
}

impl Fault for EndFault {
    ghost told = { end_refusal };

    /// A fault of a layer below keeps that layer's refusal.
    fn refusal(self) -> Refusal {
        match self {
            EndFault::NoLock => Refusal::new(2, Layer::End, 0),
            EndFault::Length { buffer } => Refusal::new(3, Layer::End, buffer),
            EndFault::ManagementSymbol => Refusal::new(4, Layer::End, 0),
            EndFault::Block { fault } => fault.refusal(),
            EndFault::Line { fault } => fault.refusal(),
            EndFault::Code { fault } => fault.refusal(),
        }
    }
}

// By hand: `thiserror` would print the same, without a contract for what is printed.
impl fmt::Display for LineFault {
    ghost use Rattle.std.specs.Prelude.{Some};
    ghost use Rattle.codec.specs.Texts.{line_fault_text};

    ghost output = { λ fault. Some (line_fault_text fault) };

    fn fmt<W: fmt::Write>(&self, f: &mut fmt::Formatter<W>) -> fmt::Result {
        match self {
            LineFault::NoLineSymbol { place } => write!(f, "no line symbol at place {place}"),
        }
    }
}

impl Error for LineFault {}

impl fmt::Display for FrameFault {
    ghost use Rattle.std.specs.Prelude.{Some};
    ghost use Rattle.codec.specs.Texts.{frame_fault_text};

    ghost output = { λ fault. Some (frame_fault_text fault) };

    fn fmt<W: fmt::Write>(&self, f: &mut fmt::Formatter<W>) -> fmt::Result {
        write!(f, "block {}: {}", self.block, self.fault)
    }
}

impl Error for FrameFault {}

impl fmt::Display for EndFault {
    ghost use Rattle.std.specs.Prelude.{Some};
    ghost use Rattle.codec.specs.Texts.{end_fault_text};

    ghost output = { λ fault. Some (end_fault_text fault) };

    fn fmt<W: fmt::Write>(&self, f: &mut fmt::Formatter<W>) -> fmt::Result {
        match self {
            EndFault::NoLock => f.write_str("no lock"),
            EndFault::Length { buffer } => write!(f, "buffer {buffer} has the wrong length"),
            EndFault::ManagementSymbol => f.write_str("the management symbol is above 511"),
            EndFault::Block { fault } => write!(f, "{fault}"),
            EndFault::Line { fault } => write!(f, "{fault}"),
            EndFault::Code { fault } => write!(f, "{fault}"),
        }
    }
}

impl Error for EndFault {}
