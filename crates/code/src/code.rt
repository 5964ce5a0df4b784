//! A code over an arithmetic: completing a word and repairing it.
ghost use Rattle.std.specs.Prelude.{◌≡◌, ℕ, ◌<◌, IfOk, OnErr, MatchResult};
ghost use Rattle.arithmetic.specs.Laws.{power};
ghost use Rattle.code.specs.Faults.{code_refusal};
ghost use Rattle.code.specs.Outcomes.{Completed, CompleteRefused, Repaired, Astray, RepairRefused};
ghost use Rattle.code.specs.Polynomials.{value};
ghost use Rattle.code.specs.Prepared.{Ready};
ghost use Rattle.code.specs.Words.{parity};

use crate::fault::{BeyondRepair, CodeFault};
use crate::mending::changes;
use crate::register::is_zero;
use crate::shapes::Tables;
use crate::sizes::{MESSAGE, PARITY, REACH};
use crate::word::{Word, check};
use arithmetic::Arithmetic;

/// A code over an arithmetic, with what it prepared.
#[derive(Drop)]
pub struct Code<A: Arithmetic> {
    pub(crate) arithmetic: A,
    pub(crate) tables: Tables,
    ghost ready: { Ready (A.field arithmetic) tables.points tables.rows tables.steps },
}

// Each clause names the field of the code's arithmetic, as `f` where it stands more than twice: a definition for it would be one more
// name to look up.
impl<A: Arithmetic> Code<A> {
    /// The code over an arithmetic.
    pub fn new(arithmetic: A) -> Code<A>
        ensures over { result.arithmetic ≡ arithmetic }
    {
        let tables = Tables::new(&arithmetic);
        Code { arithmetic, tables }
    }

    // `complete` and `repair` go over numbers, as callers have them and the refusals name them; `encode` and `decode` go by words. Neither
    // pair goes by way of the other: a `Word` made of each list and written back took 2 % more instructions.
    /// Writes the last 44 symbols so that the word is a codeword.
    pub fn complete(&self, word: &mut [u16]) -> Result<(), CodeFault>
        ensures completes { MatchResult result
            (λ _. Completed (A.field self.now.arithmetic) word.old word.new)
            (λ e. CompleteRefused word.old word.new (code_refusal e)) }
    {
        let register = self.divide(check(word)?);
        word[MESSAGE..].copy_from_slice(&register);
        Ok(())
    }

    /// The same of a word that is known to be one: nothing is refused.
    pub fn encode(&self, word: &mut Word)
        ensures codeword_of_its_message { Completed (A.field self.now.arithmetic) word.old.symbols word.new.symbols }
    {
        let register = self.divide(&word.symbols);
        word.symbols[MESSAGE..].copy_from_slice(&register);
    }

    /// Makes the word the codeword within 22 symbols, and answers how many symbols changed.
    pub fn repair(&self, word: &mut [u16]) -> Result<usize, CodeFault>
        ensures repairs { MatchResult result
            (λ changed. Repaired (A.field self.now.arithmetic) word.old word.new changed)
            (λ e. RepairRefused (A.field self.now.arithmetic) word.old word.new (code_refusal e)) }
    {
        let received = check(word)?;
        let left = self.remainder(received);
        if is_zero(&left) {
            return Ok(0);
        }
        let mut repaired = Word { symbols: *received };
        let changed = self.correct(&left, &mut repaired)?;
        word.copy_from_slice(&repaired.symbols);
        Ok(changed)
    }

    /// The same of a word that is known to be one: only that no codeword is within 22 symbols refuses it.
    pub fn decode(&self, word: &mut Word) -> Result<usize, BeyondRepair>
        ensures codeword_within_reach { IfOk result (λ changed. Repaired (A.field self.now.arithmetic) word.old.symbols word.new.symbols changed) }
        ensures none_within_reach { OnErr result (Astray (A.field self.now.arithmetic) word.old.symbols) }
        ensures refusal_writes_nothing { OnErr result (word.new ≡ word.old) }
    {
        let left = self.remainder(&word.symbols);
        if is_zero(&left) {
            return Ok(0);
        }
        self.correct(&left, word)
    }

    /// Makes a damaged word the codeword within 22 symbols, by its remainder.
    fn correct(&self, left: &[u16; PARITY], word: &mut Word) -> Result<usize, BeyondRepair>
        requires { let f = A.field self.now.arithmetic in
            (j : ℕ) → j < parity → value f (power f f.alpha j) left.now ≡ value f (power f f.alpha j) word.old.symbols }
        ensures { MatchResult result
            (λ changed. Repaired (A.field self.now.arithmetic) word.old.symbols word.new.symbols changed)
            (λ _. Astray (A.field self.now.arithmetic) word.old.symbols × (word.new ≡ word.old)) }
    {
        let s = self.syndromes(left);
        let mended = self.candidate(&s, word);
        let differing = changes(word, &mended);
        if differing > REACH || !is_zero(&self.remainder(&mended.symbols)) {
            return Err(BeyondRepair);
        }
        *word = mended;
        Ok(differing)
    }
}
