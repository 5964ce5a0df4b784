//! What every refusal says: its number, the layer that refuses, and the place.
#![tactic(auto)]

mod fault;
mod kinds;

pub use fault::Fault;
pub use kinds::{Layer, Refusal};
