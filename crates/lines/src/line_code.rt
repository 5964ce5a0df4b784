//! Line codes: how three bits become two line symbols.
ghost use Rattle.std.specs.Prelude.{◌≡◌, ℕ, ◌%◌, ◌<◌, ℤ, ◌≢◌};
ghost use Rattle.lines.specs.LineCodes.{LinePair, two_zeros, Reads};

use crate::symbol::Symbol;

/// Gives each word 0..7 a pair of line symbols, each -1, 0 or 1.
// A word is a number of three bits: a type for it would be wrapped and unwrapped at each pair.
pub trait LineCode {
    // The pair that a word below 8 writes.
    ghost pair: { Self → ℕ → ℤ × ℤ };

    /// Answers the two symbols of a word; a larger word counts modulo 8.
    fn write_symbols(&self, word: u8) -> (Symbol, Symbol)
        ensures symbols_of_the_word { (result.0.value, result.1.value) ≡ pair self.now (word % 8) };

    // Two symbols side by side, as they stand on a line: a pair would be put together for each call.
    /// Answers the word that writes these symbols, and none where no word does.
    fn read_symbols(&self, first: Symbol, second: Symbol) -> Option<u8>
        ensures word_of_the_symbols { Reads (pair self.now) (first.value, second.value) result };

    ghost ternary: { (s : Self) (w : ℕ) → w < 8 → LinePair (pair s w) };

    ghost live: { (s : Self) (w : ℕ) → w < 8 → pair s w ≢ two_zeros };

    ghost distinct: { (s : Self) (v w : ℕ) → v < 8 → w < 8 → pair s v ≡ pair s w → v ≡ w };

    // `write` and `read` are the same over numbers, for callers who have line symbols as numbers; no line code writes them again.

    /// Answers the pair of a word; a larger word counts modulo 8.
    final fn write(&self, word: u8) -> (i8, i8)
        ensures pair_of_the_word { result ≡ pair self.now (word % 8) }
    {
        let (first, second) = self.write_symbols(word);
        (first.into(), second.into())
    }

    /// Answers the word that writes this pair, and none where no word does.
    final fn read(&self, first: i8, second: i8) -> Option<u8>
        ensures word_of_the_pair { Reads (pair self.now) (first, second) result }
    {
        // Both errors become None: what is no line symbol no word writes.
        match (Symbol::try_from(first), Symbol::try_from(second)) {
            (Ok(first), Ok(second)) => self.read_symbols(first, second),
            _ => None,
        }
    }
}
