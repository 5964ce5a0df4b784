//! The line codec: frames, ends and exchanges, with the calls of the layers below.
//! Calls on ends take numbers and hand them out, as `write_block` and `read_block` do, since callers have such and the refusals
//! speak of them.
// The sizes of buffers, 450, 2,700 and 22, stand as numbers here and in the crates above, as the promises, callers and recordings have
// them.
#![tactic(auto)]

mod checks;
mod ends;
mod exchanges;
mod faults;
mod frame;
#[cfg(test)]
mod frame_tests;
mod line;
#[cfg(test)]
mod line_tests;
mod lock;
mod received;
mod receiver;
mod repair;
mod report;
mod request;
mod sender;
mod worked;

pub use blocks::{
    BlockFault, Character, Control, Cycle, CycleFault, NoCharacter, NoControl, block_laws, decode,
    encode, parse, read_block, read_cycle, read_cycles, write_block,
};
pub use ends::{Receiver, Sender};
pub use exchanges::exchange;
pub use faults::{EndFault, FrameFault, LineFault};
pub use lines::{
    Exchanged, LineCode, MakingFault, NoSymbol, Ordered, Ring, Role, Scrambler, Seed, Silent,
    Stream, Symbol, Turned,
};
pub use lock::Lock;
pub use receiver::Receiving;
pub use refusal::Fault;
pub use report::Report;
pub use request::{Outcome, Request, Turn};
pub use sender::Sending;
pub use worked::worked_values;
