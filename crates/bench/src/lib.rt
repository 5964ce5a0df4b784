//! The bench: records that drive two ends over a line, and the lines that are printed of them.
//! It stands on the codec, and calls its ends as anyone may.
//! It does not know where octets come from and where lines go.
#![tactic(auto)]

mod bench;
mod faults;
mod head;
mod link;
mod payload;
mod printed;
mod record;
mod standard;
#[cfg(test)]
mod tests;

pub use bench::{Bench, Step};
pub use faults::BenchFault;
pub use head::{Head, Kind, read_head};
pub use payload::{Hit, read_hit, read_send};
pub use printed::{Answer, Printed, print_line};
pub use refusal::Fault;
pub use standard::standard_bench;
