//! Layers: line codes made of the line code below them.
ghost use Rattle.lines.specs.LineCodes.{turned, exchanged};
ghost use Rattle.std.proofs.Common.{rules};

use crate::line_code::LineCode;
use crate::symbol::Symbol;

/// Turns both signs of the code below, as swapped wires do.
#[derive(Clone, Copy, Debug)]
pub struct Turned<L>(pub L);

impl<L: LineCode> LineCode for Turned<L> {
    ghost pair = { λ s w. turned (L.LineCode.pair s.0 w) };

    ghost ternary = { Prim.search rules };

    ghost live = { Prim.search rules };

    ghost distinct = { Prim.search rules };

    fn write_symbols(&self, word: u8) -> (Symbol, Symbol) {
        let (first, second) = self.0.write_symbols(word);
        (-first, -second)
    }

    fn read_symbols(&self, first: Symbol, second: Symbol) -> Option<u8> {
        self.0.read_symbols(-first, -second)
    }
}

/// Exchanges the two symbols of the code below.
// Beside `Turned` and no twin of it: what each does to a pair is all that it is; one type for both would need a field for which.
#[derive(Clone, Copy, Debug)]
pub struct Exchanged<L>(pub L);

impl<L: LineCode> LineCode for Exchanged<L> {
    ghost pair = { λ s w. exchanged (L.LineCode.pair s.0 w) };

    ghost ternary = { Prim.search rules };

    ghost live = { Prim.search rules };

    ghost distinct = { Prim.search rules };

    fn write_symbols(&self, word: u8) -> (Symbol, Symbol) {
        let (first, second) = self.0.write_symbols(word);
        (second, first)
    }

    fn read_symbols(&self, first: Symbol, second: Symbol) -> Option<u8> {
        self.0.read_symbols(second, first)
    }
}
