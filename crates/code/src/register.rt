//! The register of 44 symbols that divides a word by the generator polynomial.
ghost use Rattle.std.specs.Prelude.{◌≡◌, ℕ, ◌<◌, true, take, slice_index};
ghost use Rattle.arithmetic.specs.Laws.{power, elements};
ghost use Rattle.code.specs.Words.{parity, message_length};
ghost use Rattle.code.specs.Polynomials.{value, advanced};
ghost use Rattle.code.specs.Prepared.{Divided};

use crate::code::Code;
use crate::sizes::{MESSAGE, PARITY, SYMBOLS};
use arithmetic::Arithmetic;
use std::array;

/// Moves the register up by two places, and adds a row after each move.
pub(crate) fn advance_twice<A: Arithmetic>(
    a: &A,
    register: &mut [u16; PARITY],
    first: &[u16; PARITY],
    second: &[u16; PARITY],
)
    ensures { let f = A.field a.now in
        register.new ≡ advanced f (advanced f register.old first.now) second.now }
{
    // Each place takes from two places ahead of it: an index is plainer than three slices that start apart.
    for k in 0..PARITY - 2 {
        register[k] = a.sum(a.sum(register[k + 2], first[k + 1]), second[k]);
    }
    register[PARITY - 2] = a.sum(a.sum(0, first[PARITY - 1]), second[PARITY - 2]);
    register[PARITY - 1] = a.sum(0, second[PARITY - 1]);
}

/// Whether all coefficients are zero.
pub(crate) fn is_zero(p: &[u16]) -> bool
    ensures zero { result ≡ true → (k : ℕ) → slice_index p.now k ≡ 0 }
    ensures only { ((k : ℕ) → slice_index p.now k ≡ 0) → result ≡ true }
{
    p.iter().all(|c| *c == 0)
}

impl<A: Arithmetic> Code<A> {
    /// The 44 check symbols of the message that a word begins with, two symbols of it at a time.
    pub(crate) fn divide(&self, word: &[u16; SYMBOLS]) -> [u16; PARITY]
        ensures small { (k : ℕ) → slice_index result k < elements }
        ensures worth { Divided (A.field self.now.arithmetic) parity (take message_length word.now) result }
    {
        let a = &self.arithmetic;
        let (pairs, _) = word[..MESSAGE].as_chunks::<2>();
        let mut register = [0u16; PARITY];
        for [x, y] in pairs {
            let k = a.sum(register[0], *x);
            let first = &self.tables.rows[usize::from(k)];
            let head = a.sum(register[1], first[0]);
            let next = a.sum(head, *y);
            let second = &self.tables.rows[usize::from(next)];
            advance_twice(a, &mut register, first, second);
        }
        register
    }

    /// A polynomial of degree below 44 with the values of a word at the first powers of alpha, from the highest coefficient.
    pub(crate) fn remainder(&self, word: &[u16; SYMBOLS]) -> [u16; PARITY]
        ensures small { (k : ℕ) → slice_index result k < elements }
        ensures right { let f = A.field self.now.arithmetic in
            (j : ℕ) → j < parity → value f (power f f.alpha j) result ≡ value f (power f f.alpha j) word.now }
    {
        let register = self.divide(word);
        array::from_fn(|k| self.arithmetic.sum(register[k], word[MESSAGE + k]))
    }
}
