//! The ring code: a table of eight pairs, read in both directions.
ghost use Rattle.lines.specs.LineCodes.{ring_pair};
ghost use Rattle.std.proofs.Common.{rules};

use crate::line_code::LineCode;
use crate::ordered::number_of;
use crate::symbol::Symbol;

const PAIRS: [(Symbol, Symbol); 8] = [
    (Symbol::MINUS, Symbol::MINUS),
    (Symbol::MINUS, Symbol::ZERO),
    (Symbol::ZERO, Symbol::PLUS),
    (Symbol::MINUS, Symbol::PLUS),
    (Symbol::ZERO, Symbol::MINUS),
    (Symbol::PLUS, Symbol::MINUS),
    (Symbol::PLUS, Symbol::PLUS),
    (Symbol::PLUS, Symbol::ZERO),
];

/// Writes the pairs of a table around the ring.
// Beside `Ordered` and no twin of it: that one counts its pairs out, this one has them in a table; two formats
// are asked for, in these two forms.
#[derive(Clone, Copy, Debug)]
pub struct Ring;

impl LineCode for Ring {
    ghost pair = { λ _ w. ring_pair w };

    ghost ternary = { Prim.search rules };

    ghost live = { Prim.search rules };

    ghost distinct = { Prim.search rules };

    fn write_symbols(&self, word: u8) -> (Symbol, Symbol) {
        PAIRS[usize::from(word % 8)]
    }

    fn read_symbols(&self, first: Symbol, second: Symbol) -> Option<u8> {
        // By the pairs' numbers: compared symbol by symbol, which branches on each, a send and a receive took 40 % longer. A loop, since the
        // proof for `position` didn't close.
        let number = number_of(first, second);
        for (word, (x, y)) in PAIRS.iter().enumerate() {
            if number_of(*x, *y) == number {
                return Some(word as u8);
            }
        }
        None
    }
}
