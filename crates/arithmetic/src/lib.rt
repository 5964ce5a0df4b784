//! Field arithmetic: an interface with laws, and two arithmetics of one field that agree.
#![tactic(auto)]

ghost use Rattle.std.specs.Prelude.{◌≡◌, ℕ, ◌<◌};
ghost use Rattle.arithmetic.specs.Laws.{Operations, Lawful, elements};

mod agreement;
mod polynomials;
mod shifting;
mod tabled;
mod tables;
#[cfg(test)]
mod tests;
mod worked;

pub use agreement::arithmetics_agree;
pub use shifting::Shifting;
pub use tabled::Tabled;
pub use worked::{WorkedValues, worked_values};

/// The elements are the numbers below this one.
// A u16, as the answers are. Tables have 512 as a length, a usize, and so has the code: it would make its own by a cast from a public one,
// so that no name would go.
pub(crate) const ELEMENTS: u16 = 512;

/// After as many powers of α the first one comes again.
pub(crate) const ROUND: u16 = 511;

/// α is x, the number 2.
pub(crate) const ALPHA: u16 = 2;

/// A field whose elements are the numbers below 512; a larger argument counts modulo 512.
// Arguments and answers are numbers, as callers have them: a type of elements would be wrapped and unwrapped at each sum. That an answer
// is an element is its clause `below`.
pub trait Arithmetic {
    // What it means: its sum, product and inverse, and α.
    ghost field: { Self → Operations };

    fn sum(&self, a: u16, b: u16) -> u16
        ensures value { result ≡ (field self.now).plus a b }
        ensures below { result < elements };

    fn product(&self, a: u16, b: u16) -> u16
        ensures value { result ≡ (field self.now).times a b }
        ensures below { result < elements };

    // Of 0 it is 0, and no None: the format has it so, and a quotient asks for no case of its own.
    fn inverse(&self, a: u16) -> u16
        ensures value { result ≡ (field self.now).inverse a }
        ensures below { result < elements };

    fn alpha(&self) -> u16
        ensures value { result ≡ (field self.now).alpha }
        ensures below { result < elements };

    ghost lawful: { (s : Self) → Lawful (field s) };
}
