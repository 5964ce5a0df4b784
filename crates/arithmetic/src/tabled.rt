//! An arithmetic that looks products and inverses up.
ghost use Rattle.std.specs.Prelude.{◌≡◌, ◌<◌, ◌≤◌};
ghost use Rattle.arithmetic.specs.Laws.{power as raised};
ghost use Rattle.arithmetic.specs.Polynomials.{polynomials};
ghost use Rattle.arithmetic.specs.Inverses.{polynomials_lawful};

use crate::polynomials::sum;
use crate::tables::tables;
use crate::{ALPHA, Arithmetic, ELEMENTS, ROUND};

/// α to the power k.
// That an exponent is at most 511 stands here and at the two below: in a struct it would be taken out at each sum and difference.
pub(crate) fn power(k: u16) -> u16
    requires { k ≤ 511 }
    ensures value { result ≡ raised polynomials 2 k }
{
    tables().powers[usize::from(k)]
}

/// The k with α to the power k equal to a; of 0 it says nothing but that it can be looked up.
fn logarithm(a: u16) -> u16
    requires { a < 512 }
    ensures at_most_a_round { result ≤ 511 }
    ensures power_back { 0 < a → raised polynomials 2 result ≡ a }
{
    tables().logarithms[usize::from(a)]
}

/// A power from 0 to 511 that is the same as the power k.
fn wrapped(k: u16) -> u16
    requires { k ≤ 1022 }
    ensures at_most_a_round { result ≤ 511 }
    ensures same_power { raised polynomials 2 result ≡ raised polynomials 2 k }
{
    if k < ROUND { k } else { k - ROUND }
}

/// Looks each answer up.
#[derive(Clone, Copy, Debug)]
pub struct Tabled;

impl Arithmetic for Tabled {
    ghost field = { λ _. polynomials };

    ghost lawful = { λ s. polynomials_lawful };

    fn sum(&self, a: u16, b: u16) -> u16 {
        sum(a, b)
    }

    fn product(&self, a: u16, b: u16) -> u16 {
        let x = a % ELEMENTS;
        let y = b % ELEMENTS;
        // Looked up in any case, so that no branch is left.
        let found = power(wrapped(logarithm(x) + logarithm(y)));
        if x == 0 || y == 0 { 0 } else { found }
    }

    fn inverse(&self, a: u16) -> u16 {
        match a % ELEMENTS {
            0 => 0,
            x => power(ROUND - logarithm(x)),
        }
    }

    fn alpha(&self) -> u16 {
        ALPHA
    }
}
