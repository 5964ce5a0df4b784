//! An arithmetic that works each answer out.
ghost use Rattle.arithmetic.specs.Polynomials.{polynomials};
ghost use Rattle.arithmetic.specs.Inverses.{polynomials_lawful};

use crate::polynomials::{double, sum};
use crate::{ALPHA, Arithmetic, ELEMENTS};

/// Works each answer out, and stores nothing.
// Beside `Tabled` and no twin of it: products and inverses come about another way. What both have alike is named in each impl, and
// stands once, in polynomials.rt and lib.rt.
#[derive(Clone, Copy, Debug)]
pub struct Shifting;

impl Arithmetic for Shifting {
    ghost field = { λ _. polynomials };

    ghost lawful = { λ s. polynomials_lawful };

    fn sum(&self, a: u16, b: u16) -> u16 {
        sum(a, b)
    }

    fn product(&self, a: u16, b: u16) -> u16 {
        let mut moved = a % ELEMENTS;
        let mut rest = b % ELEMENTS;
        let mut total = 0;
        // The nine bits of b: a count of steps, and no index.
        for bit in 0u16..9 {
            total ^= rest % 2 * moved;
            moved = double(moved);
            rest /= 2;
        }
        total
    }

    /// The power 510, which undoes a since 511 powers make a round, and leaves 0 as it is.
    fn inverse(&self, a: u16) -> u16 {
        let mut square = a % ELEMENTS;
        let mut total = 1;
        // The eight higher bits of 510: a count of steps, and no index.
        for turn in 0u16..8 {
            square = self.product(square, square);
            total = self.product(total, square);
        }
        total
    }

    fn alpha(&self) -> u16 {
        ALPHA
    }
}
