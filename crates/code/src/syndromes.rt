//! The 44 sums of a word, from its remainder.
ghost use Rattle.std.specs.Prelude.{◌≡◌, ℕ, ◌<◌, ◌≤◌, length, slice_index};
ghost use Rattle.arithmetic.specs.Laws.{power, elements};
ghost use Rattle.code.specs.Words.{parity};
ghost use Rattle.code.specs.Polynomials.{value, reads};

use crate::code::Code;
use crate::shapes::Syndromes;
use crate::sizes::PARITY;
use arithmetic::Arithmetic;

impl<A: Arithmetic> Code<A> {
    /// Multiplies the number at each place by alpha to the power of that place, by the table.
    pub(crate) fn times_powers(&self, numbers: &mut [u16])
        requires few { length numbers.old ≤ parity }
        requires fits { (k : ℕ) → k < length numbers.old → slice_index numbers.old k < elements }
        ensures { let f = A.field self.now.arithmetic in
            (k : ℕ) → k < length numbers.old → slice_index numbers.new k ≡ f.times (power f f.alpha k) (slice_index numbers.old k) }
    {
        // Tried as `numbers.iter_mut().zip(&self.tables.steps)`: of what is written under that adapter a proof knows nothing.
        for (k, number) in numbers.iter_mut().enumerate() {
            let row = &self.tables.steps[k];
            *number = row[usize::from(*number)];
        }
    }

    /// One step of Horner's rule at each of the first powers of alpha.
    // Totals and no `Syndromes`: see there.
    fn horner_step(&self, totals: &mut [u16; PARITY], c: u16)
        requires { (j : ℕ) → j < parity → slice_index totals.old j < elements }
        ensures small { (j : ℕ) → j < parity → slice_index totals.new j < elements }
        ensures right { let f = A.field self.now.arithmetic in
            (j : ℕ) → j < parity → slice_index totals.new j ≡ f.plus c (f.times (power f f.alpha j) (slice_index totals.old j)) }
    {
        self.times_powers(totals);
        for total in totals.iter_mut() {
            *total = self.arithmetic.sum(c, *total);
        }
    }

    /// The sums of a word that has the values of a polynomial p, its coefficients from the highest.
    pub(crate) fn syndromes(&self, p: &[u16; PARITY]) -> Syndromes
        ensures { let f = A.field self.now.arithmetic in
            (j : ℕ) → j < parity → reads result.sums j ≡ value f (power f f.alpha j) p.now }
    {
        let mut sums = [0u16; PARITY];
        for c in p {
            self.horner_step(&mut sums, *c);
        }
        Syndromes { sums }
    }
}
