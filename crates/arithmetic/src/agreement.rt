//! That the two arithmetics agree.
ghost use Rattle.std.specs.Prelude.{◌≡◌, true};
ghost use Rattle.arithmetic.specs.Laws.{Agree};
ghost use Rattle.arithmetic.specs.contracts.shifting.ShiftingArithmetic.TheImpl.{ghosts as shifting_meaning};
ghost use Rattle.arithmetic.specs.contracts.tabled.TabledArithmetic.TheImpl.{ghosts as tabled_meaning};

use crate::Arithmetic;
use crate::shifting::Shifting;
use crate::tabled::Tabled;

/// Whether both arithmetics answer the same at a and b: they always do.
pub fn arithmetics_agree(tabled: &Tabled, shifting: &Shifting, a: u16, b: u16) -> bool
    ensures same_answers { result ≡ true }
    ensures fields_agree { Agree (tabled_meaning.field tabled.now) (shifting_meaning.field shifting.now) }
{
    tabled.sum(a, b) == shifting.sum(a, b)
        && tabled.product(a, b) == shifting.product(a, b)
        && tabled.inverse(a) == shifting.inverse(a)
        && tabled.alpha() == shifting.alpha()
}
