//! The sizes of the code.

/// The elements are the numbers below this one, as the arithmetic says of its answers.
// Beside the arithmetic's own, a u16: this one would only be a cast of it.
pub(crate) const ELEMENTS: usize = 512;

/// The symbols of a word.
// Not public: the clause of the library for C and the definitions of codec have 450 all the same, so its name would be one more to look
// up.
pub(crate) const SYMBOLS: usize = 450;

/// The sums that vanish in a codeword, and the symbols that completing a word writes.
pub(crate) const PARITY: usize = 44;

/// The symbols that completing a word leaves.
pub(crate) const MESSAGE: usize = SYMBOLS - PARITY;

/// The symbols that repairing a word may change.
pub(crate) const REACH: usize = PARITY / 2;

/// The terms of a polynomial whose degree is within reach.
pub(crate) const TERMS: usize = REACH + 1;
