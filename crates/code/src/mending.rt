//! The candidate for a repair: the word with corrections at the suspected places.
ghost use Rattle.std.specs.Prelude.{◌≡◌, ℕ, ◌<◌, ◌≤◌, List, slice_index};
ghost use Rattle.code.specs.Words.{parity, reach, word_length, coefficient, distance, syndrome, Codeword};
ghost use Rattle.code.specs.Polynomials.{reads, correction as corrects};
ghost use Rattle.code.specs.Locating.{poly, restored};

use crate::code::Code;
use crate::shapes::{Monic, Syndromes};
use crate::sizes::SYMBOLS;
use crate::word::Word;
use arithmetic::Arithmetic;

/// In how many places two words differ.
pub(crate) fn changes(u: &Word, v: &Word) -> usize
    ensures { result ≡ distance u.now.symbols v.now.symbols }
{
    let mut count = 0;
    // A loop: `filter(..).count()` was tried, branches at each symbol, and a repair took 1 to 3 % more instructions.
    for (x, y) in u.symbols.iter().zip(&v.symbols) {
        count += usize::from(*x != *y);
    }
    count
}

impl<A: Arithmetic> Code<A> {
    /// What is to be added at the place i, where p is the product over all suspected places (Forney's rule).
    // The sums and the product side by side: a struct would be made for this call and `mend` alone.
    fn correction(&self, s: &Syndromes, p: &Monic, i: usize) -> u16
        requires some { 0 < p.now.degree }
        requires within { i < word_length }
        ensures { result ≡ corrects (A.field self.now.arithmetic) (reads s.now.sums) (poly p.now) i }
    {
        let a = &self.arithmetic;
        let x = self.tables.points[i];
        let mut value = 1;
        let mut numerator = s.sums[p.degree - 1];
        let mut denominator = 1;
        // From the highest coefficient down, each with the sum one place below.
        let coefficients = &p.low[1..p.degree];
        let sums = &s.sums[..p.degree - 1];
        for (coefficient, sum) in coefficients.iter().rev().zip(sums.iter().rev()) {
            value = a.sum(*coefficient, a.product(x, value));
            numerator = a.sum(a.product(value, *sum), numerator);
            denominator = a.sum(value, a.product(x, denominator));
        }
        a.product(numerator, a.inverse(denominator))
    }

    /// Adds the corrections where the values are zero.
    fn mend(&self, values: &[u16; SYMBOLS], p: &Monic, s: &Syndromes, word: &mut Word)
        requires { (i : ℕ) → i < word_length → slice_index values.now i ≡ 0 → 0 < p.now.degree }
        ensures { let f = A.field self.now.arithmetic in
            (i : ℕ) → i < word_length → coefficient word.new.symbols i ≡ restored f values.now s.now.sums (poly p.now) word.old.symbols i }
    {
        // By number: the coefficient i stands i places before the end, and the place is what the correction asks for, so that a zip with
        // the symbols from the end would count it as well.
        for (i, value) in values.iter().enumerate() {
            if *value == 0 {
                let change = self.correction(s, p, i);
                let symbol = &mut word.symbols[SYMBOLS - 1 - i];
                *symbol = self.arithmetic.sum(*symbol, change);
            }
        }
    }

    /// A word that is the codeword within 22 places, if there is one.
    pub(crate) fn candidate(&self, s: &Syndromes, word: &Word) -> Word
        requires { let f = A.field self.now.arithmetic in
            (j : ℕ) → j < parity → reads s.now.sums j ≡ syndrome f word.now.symbols j }
        ensures { let f = A.field self.now.arithmetic in
            (v : List ℕ) → Codeword f v → distance word.now.symbols v ≤ reach → v ≡ result.symbols }
    {
        let values = self.values(&s.locator(&self.arithmetic));
        let product = self.product_over_zeros(&values);
        let mut mended = *word;
        self.mend(&values, &product, s, &mut mended);
        mended
    }
}
