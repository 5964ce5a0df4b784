//! Values by which another implementation can be tried.
ghost use Rattle.std.specs.Prelude.{◌≡◌};
ghost use Rattle.arithmetic.specs.Polynomials.{polynomials};
ghost use Rattle.arithmetic.specs.Worked.{Worked};

use crate::Arithmetic;
use crate::tabled::{Tabled, power};

/// Three answers.
#[derive(Clone, Copy, PartialEq, Eq, Debug)]
pub struct WorkedValues {
    pub ninth_power: u16,
    pub fourteenth_power: u16,
    pub inverse_of_two: u16,
}

/// The powers 9 and 14 of α, and the inverse of 2.
pub fn worked_values() -> WorkedValues
    ensures answers_are_those { (result.ninth_power ≡ 17) × (result.fourteenth_power ≡ 49) × (result.inverse_of_two ≡ 264) }
    ensures worked_values_hold { Worked polynomials }
{
    WorkedValues {
        ninth_power: power(9),
        fourteenth_power: power(14),
        inverse_of_two: Tabled.inverse(2),
    }
}
