//! Line symbols.
ghost use Rattle.std.specs.Prelude.{◌≡◌, T};
ghost use Rattle.lines.specs.LineCodes.{is_line_symbol};

use std::fmt;
use std::ops::Neg;

/// A line symbol: the number -1, 0 or 1.
// An enum was tried: its tag is not the number, and a frame took a tenth longer to send.
#[derive(Clone, Copy, PartialEq, Eq, Debug)]
pub struct Symbol {
    value: i8,
    ghost one_of_three: { T (is_line_symbol value) },
}

/// A number that is no line symbol.
#[derive(Clone, Copy, PartialEq, Eq, Debug)]
pub struct NoSymbol(pub i8);

impl Symbol {
    /// -1
    pub const MINUS: Symbol = Symbol { value: -1 };

    /// 0
    pub const ZERO: Symbol = Symbol { value: 0 };

    /// 1
    pub const PLUS: Symbol = Symbol { value: 1 };

    // The symbol of a number that is known to be one: try_from would answer an Err that cannot occur.
    pub(crate) fn of(value: i8) -> Symbol
        requires one_of_three { T (is_line_symbol value) }
        ensures has_the_value { result.value ≡ value }
    {
        Symbol { value }
    }
}

impl TryFrom<i8> for Symbol {
    ghost use Rattle.std.specs.Prelude.{MatchResult};

    type Error = NoSymbol;

    ghost try_from_gives = { λ n r. MatchResult r (λ s. s.value ≡ n) (λ e. (e.0 ≡ n) × (T (is_line_symbol n) → ⊥)) };

    fn try_from(number: i8) -> Result<Self, NoSymbol> {
        match number {
            -1..=1 => Ok(Symbol { value: number }),
            _ => Err(NoSymbol(number)),
        }
    }
}

impl From<Symbol> for i8 {
    ghost from_gives = { λ s n. n ≡ s.value };

    fn from(symbol: Symbol) -> i8 {
        symbol.value
    }
}

impl Neg for Symbol {
    ghost use Rattle.std.specs.Prelude.{neg_ℤ};

    type Output = Symbol;

    ghost neg_gives = { λ s t. t.value ≡ neg_ℤ s.value };

    fn neg(self) -> Symbol {
        Symbol { value: -self.value }
    }
}

impl fmt::Display for Symbol {
    ghost use Rattle.std.specs.Prelude.{Some};
    ghost use Rattle.std.specs.Fmt.{signed_decimal};

    ghost output = { λ s. Some (signed_decimal s.value) };

    fn fmt<W: fmt::Write>(&self, f: &mut fmt::Formatter<W>) -> fmt::Result {
        write!(f, "{}", self.value)
    }
}

// By hand: `thiserror` would print the same, without a contract for what is printed.
impl fmt::Display for NoSymbol {
    ghost use Rattle.std.specs.Prelude.{Some, codes, ◌++◌};
    ghost use Rattle.std.specs.Fmt.{signed_decimal};

    ghost output = { λ e. Some (signed_decimal e.0 ++ codes " is no line symbol") };

    fn fmt<W: fmt::Write>(&self, f: &mut fmt::Formatter<W>) -> fmt::Result {
        write!(f, "{} is no line symbol", self.0)
    }
}

impl std::error::Error for NoSymbol {}
