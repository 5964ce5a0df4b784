//! A code of words of 450 symbols, 44 of them checks, over any field of 512 elements.
#![tactic(auto)]

mod code;
mod fault;
mod locator;
mod mending;
mod register;
mod roots;
mod shapes;
mod sizes;
mod syndromes;
mod tables;
mod word;

pub use code::Code;
pub use fault::{BeyondRepair, CodeFault};
pub use refusal::Fault;
pub use word::Word;
