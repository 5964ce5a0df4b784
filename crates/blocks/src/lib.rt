//! Characters, the blocks that carry them, and the cycles that become them.
// The sizes 10, 11 and 450 stand as numbers, as the promises and callers have them.
#![tactic(auto)]

mod ahead;
mod block;
mod character;
mod cycle;
mod faults;
mod laws;
#[cfg(test)]
mod tests;

pub use block::{decode, encode, read_block, write_block};
pub use character::{Character, Control, NoCharacter, NoControl, first_no_character, parse};
pub use cycle::{Cycle, read_cycle, read_cycles};
pub use faults::{BlockFault, CycleFault};
pub use laws::block_laws;
pub use refusal::Fault;
