//! Words: 450 symbols, each an element.
ghost use Rattle.std.specs.Prelude.{◌≡◌, ℕ, ◌<◌, MatchOption, MatchResult, slice_index};
ghost use Rattle.arithmetic.specs.Laws.{elements};
ghost use Rattle.code.specs.Words.{word_length, Word as IsWord};
ghost use Rattle.code.specs.Faults.{FirstTooLarge, Misshapen, code_refusal};

use crate::fault::CodeFault;
use crate::sizes::{ELEMENTS, SYMBOLS};

/// A word: 450 symbols below 512, c449 first.
#[derive(Clone, Copy, PartialEq, Eq, Debug)]
pub struct Word {
    pub symbols: [u16; SYMBOLS],
    ghost elements: { IsWord symbols },
}

/// The place of the first symbol above 511.
fn first_too_large(symbols: &[u16; SYMBOLS]) -> Option<usize>
    ensures { MatchOption result
        ((k : ℕ) → k < word_length → slice_index symbols.now k < elements)
        (λ place. FirstTooLarge symbols.now place) }
{
    // The largest is found without a branch for each symbol, and nearly every word is right. A fold: `max()` answers an Option, whose None
    // no word has.
    let largest = symbols.iter().fold(0, |most, symbol| (*symbol).max(most));
    if usize::from(largest) < ELEMENTS {
        return None;
    }
    symbols
        .iter()
        .position(|symbol| usize::from(*symbol) >= ELEMENTS)
}

/// The symbols of a list that is a word.
pub(crate) fn check(list: &[u16]) -> Result<&[u16; SYMBOLS], CodeFault>
    ensures { MatchResult result
        (λ symbols. (symbols.now ≡ list.now) × IsWord list.now)
        (λ e. Misshapen list.now (code_refusal e)) }
{
    let symbols = list.as_array().ok_or(CodeFault::Length)?;
    match first_too_large(symbols) {
        Some(place) => Err(CodeFault::SymbolTooLarge { place }),
        None => Ok(symbols),
    }
}

/// The word of 450 symbols, each an element.
impl TryFrom<&[u16]> for Word {
    type Error = CodeFault;

    ghost try_from_gives = { λ symbols r. MatchResult r (λ word. word.symbols ≡ symbols.now) (λ e. Misshapen symbols.now (code_refusal e)) };

    fn try_from(symbols: &[u16]) -> Result<Self, CodeFault> {
        let symbols = check(symbols)?;
        Ok(Word { symbols: *symbols })
    }
}
