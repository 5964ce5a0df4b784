//! What was read from a line: the symbols of its groups.
ghost use Rattle.std.specs.Prelude.{◌≡◌, ℕ, ◌<◌, ◌≤◌, Some, None, length, MatchResult, slice_index_or};
ghost use Rattle.codec.specs.Demapping.{changed, filled};

use arrayvec::ArrayVec;
use code::{BeyondRepair, Word};

/// As many groups of a line may differ from a codeword's line frame.
// Beside the reach of the code, which counts the symbols of a word: an erased group counts here; there it is a symbol like others.
pub(crate) const REACH: usize = 22;

/// The symbols of the groups of a line, and none for an erasure: a group that no word writes.
#[derive(Clone, Copy)]
pub(crate) struct Received {
    pub(crate) symbols: [Option<u16>; 450],
    ghost nine_bits: { (k c : ℕ) → slice_index_or symbols k None ≡ Some c → c < 512 },
}

impl Received {
    /// The word of the symbols, 0 for each erasure.
    pub(crate) fn fill_erasures(&self) -> Word
        ensures { result.symbols ≡ filled self.now.symbols }
    {
        let mut symbols = [0u16; 450];
        // A loop: `map` takes the symbols by value, copies them first, and was slower; `array::from_fn` was tried, and the proof didn't close.
        for (k, symbol) in self.symbols.iter().enumerate() {
            symbols[k] = symbol.unwrap_or(0);
        }
        Word { symbols }
    }

    /// Lists the groups that are erased or carry another symbol than the word's; beyond repair where there are more than 22.
    pub(crate) fn list_places(&self, word: &Word) -> Result<ArrayVec<u16, REACH>, BeyondRepair>
        ensures { MatchResult result
            (λ places. (places.items ≡ changed self.now.symbols word.now.symbols) × (length places.items ≤ 22))
            (λ _. 22 < length (changed self.now.symbols word.now.symbols)) }
    {
        let mut places = ArrayVec::new();
        // The word by index: `zip` under `enumerate` was tried, and the proof didn't close, since the
        // invariant of that loop can't speak of k.
        for (k, symbol) in self.symbols.iter().enumerate() {
            if *symbol != Some(word.symbols[k]) {
                if places.is_full() {
                    return Err(BeyondRepair);
                }
                places.push(k as u16);
            }
        }
        Ok(places)
    }
}
