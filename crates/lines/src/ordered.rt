//! The ordered code: the nine pairs in counting order, without (0, 0).
ghost use Rattle.std.specs.Prelude.{◌≡◌, ◌/◌, ◌%◌, ◌<◌, ◌-ℤ◌, pos};
ghost use Rattle.lines.specs.LineCodes.{ordered_pair};
ghost use Rattle.std.proofs.Common.{rules};

use crate::line_code::LineCode;
use crate::symbol::Symbol;

// (0, 0) is number 4 of the nine pairs.
const TWO_ZEROS: u8 = 4;

/// The pair with this number among the nine, counted from (-1, -1), second symbol fastest.
// A number, since the code is asked for by division and remainder.
fn pair_of(number: u8) -> (Symbol, Symbol)
    requires one_of_nine { number < 9 }
    ensures first_by_division { result.0.value ≡ pos (number / 3) -ℤ pos 1 }
    ensures second_by_remainder { result.1.value ≡ pos (number % 3) -ℤ pos 1 }
{
    let first = (number / 3) as i8 - 1;
    let second = (number % 3) as i8 - 1;
    (Symbol::of(first), Symbol::of(second))
}

/// The number of this pair among the nine.
pub(crate) fn number_of(first: Symbol, second: Symbol) -> u8
    ensures one_of_nine { result < 9 }
    ensures first_by_division { first.value ≡ pos (result / 3) -ℤ pos 1 }
    ensures second_by_remainder { second.value ≡ pos (result % 3) -ℤ pos 1 }
{
    let (first, second) = (i8::from(first), i8::from(second));
    3 * (first + 1) as u8 + (second + 1) as u8
}

/// Counts through the pairs from (-1, -1), second symbol fastest.
#[derive(Clone, Copy, Debug)]
pub struct Ordered;

impl LineCode for Ordered {
    ghost pair = { λ _ w. ordered_pair w };

    ghost ternary = { Prim.search rules };

    ghost live = { Prim.search rules };

    ghost distinct = { Prim.search rules };

    fn write_symbols(&self, word: u8) -> (Symbol, Symbol) {
        let word = word % 8;
        pair_of(if word < TWO_ZEROS { word } else { word + 1 })
    }

    fn read_symbols(&self, first: Symbol, second: Symbol) -> Option<u8> {
        let number = number_of(first, second);
        if number < TWO_ZEROS {
            Some(number)
        } else if number == TWO_ZEROS {
            None
        } else {
            Some(number - 1)
        }
    }
}
