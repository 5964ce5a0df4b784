//! What a code holds, and what the search for a codeword works with.
ghost use Rattle.std.specs.Prelude.{ℕ, ◌<◌, ◌≤◌};
ghost use Rattle.arithmetic.specs.Laws.{elements};
ghost use Rattle.code.specs.Words.{reach};
ghost use Rattle.code.specs.Polynomials.{reads};

use crate::sizes::{ELEMENTS, PARITY, REACH, SYMBOLS};

/// What a code prepares over its arithmetic.
#[derive(Drop)]
pub(crate) struct Tables {
    /// The powers of alpha.
    pub(crate) points: [u16; SYMBOLS],
    /// The row k is k times the generator polynomial without its leading term, from the highest coefficient.
    pub(crate) rows: [[u16; PARITY]; ELEMENTS],
    /// The row j has the products of the power j of alpha and each element.
    pub(crate) steps: [[u16; ELEMENTS]; PARITY],
}

/// The sums 0 to 43 of a word.
// Registers, remainders and terms have no such type, nor have these sums while they are worked out (`horner_step`): it would be wrapped
// and unwrapped at each call.
#[derive(Clone, Copy)]
pub(crate) struct Syndromes {
    pub(crate) sums: [u16; PARITY],
    ghost small: { (j : ℕ) → reads sums j < elements },
}

/// A monic polynomial: its degree, and the coefficients below the leading 1, from the lowest.
// An ArrayVec is no plainer: it is no Copy, so each step clones it, and a shift and a sum are written into an array of zeros.
#[derive(Clone, Copy)]
pub(crate) struct Monic {
    pub(crate) degree: usize,
    pub(crate) low: [u16; REACH],
    ghost within: { degree ≤ reach },
}

/// How far the search for a locator has come.
#[derive(Clone, Copy)]
pub(crate) struct Recurrence {
    pub(crate) current: Monic,
    pub(crate) windows: usize,
    pub(crate) previous: Monic,
    pub(crate) scale: u16,
}
