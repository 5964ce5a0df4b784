//! The code over the tabled arithmetic, for callers in C: words of 450 symbols, one after the other.
#![tactic(auto)]

ghost use Rattle.std.specs.Prelude.{ℕ, ◌+◌, ◌*◌, ◌<◌, ◌≤◌, length, slice_index};
ghost use Rattle.arithmetic.specs.Polynomials.{polynomials};
ghost use Rattle.code_c.specs.Batches.{word_at, Answered};

use arithmetic::Tabled;
use code::Code;

/// The symbols of a word.
// As the code has it for itself: a public name would be one more to look up, since the clause says 450 all the same.
const SYMBOLS: usize = 450;

/// What is answered in place of a number of symbols when a word is refused.
// No Option: a caller in C gets a number for each word.
const REFUSED: usize = 1000;

/// Completes or repairs a word; answers how many symbols the repair changed.
// The bool as a caller in C hands it over, see `code_run_words`.
fn run_one(code: &Code<Tabled>, word: &mut [u16], completing: bool) -> usize
    ensures { Answered polynomials completing word.old word.new result }
{
    let changed = if completing {
        code.complete(word).map(|()| 0)
    } else {
        code.repair(word)
    };
    changed.unwrap_or(REFUSED)
}

/// Completes or repairs each word, and writes its answer at its place.
// A bool chooses the step, the words stand one after the other in one slice and their answers in another: that is what a caller in C
// can hand over.
#[unsafe(no_mangle)]
pub extern "C" fn code_run_words(words: &mut [u16], answers: &mut [usize], completing: bool)
    ensures each { (k : ℕ) → k < length answers.old → 450 * k + 450 ≤ length words.old → Answered polynomials completing (word_at words.old k) (word_at words.new k) (slice_index answers.new k) }
{
    let code = Code::new(Tabled);
    let count = answers.len().min(words.len() / SYMBOLS);
    // By index: a zip with `chunks_exact_mut` was tried, which says nothing of what the words end as.
    for (k, answer) in answers[..count].iter_mut().enumerate() {
        let word = &mut words[SYMBOLS * k..SYMBOLS * k + SYMBOLS];
        *answer = run_one(&code, word, completing);
    }
}
