//! Streams of masks and line codes.
#![tactic(auto)]

mod layers;
mod line_code;
#[cfg(test)]
mod line_tests;
mod making;
mod ordered;
mod ring;
mod role;
mod scrambler;
mod seed;
mod stream;
mod symbol;

pub use layers::{Exchanged, Turned};
pub use line_code::LineCode;
pub use making::MakingFault;
pub use ordered::Ordered;
pub use refusal::Fault;
pub use ring::Ring;
pub use role::Role;
pub use scrambler::Scrambler;
pub use seed::Seed;
pub use stream::{Silent, Stream};
pub use symbol::{NoSymbol, Symbol};
