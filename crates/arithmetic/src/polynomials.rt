//! Numbers as polynomials over two elements, modulo x⁹ + x⁴ + 1: the sum, which both arithmetics have, and doubling.
ghost use Rattle.std.specs.Prelude.{◌≡◌, ◌<◌};
ghost use Rattle.arithmetic.specs.Laws.{elements};
ghost use Rattle.arithmetic.specs.Polynomials.{sum as sum_of, twice};

use crate::ELEMENTS;

/// The sum: coefficients are added modulo 2.
pub(crate) fn sum(a: u16, b: u16) -> u16
    ensures value { result ≡ sum_of a b }
    ensures below { result < elements }
{
    a % ELEMENTS ^ b % ELEMENTS
}

/// x times a. Bit 8 moves to x⁹, which is x⁴ + 1; without a branch, so that products of many numbers run side by side.
pub(crate) fn double(a: u16) -> u16
    ensures value { result ≡ twice a }
{
    (a % 256 * 2) ^ (a / 256 % 2 * 17)
}
