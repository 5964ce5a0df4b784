//! The places at which a polynomial vanishes (Chien's search), and the polynomial that vanishes just there.
ghost use Rattle.std.specs.Prelude.{◌≡◌, ℕ, ◌+◌, ◌<◌, ◌≤◌, length, filter, slice_index};
ghost use Rattle.std.specs.List.{AllByRecursion};
ghost use Rattle.arithmetic.specs.Laws.{power};
ghost use Rattle.code.specs.Words.{reach, word_length, below};
ghost use Rattle.code.specs.Polynomials.{eval_monic, total};
ghost use Rattle.code.specs.Locating.{poly, whole, Terms, zero_at};

use crate::code::Code;
use crate::shapes::Monic;
use crate::sizes::{REACH, SYMBOLS, TERMS};
use crate::tables::times_root;
use arithmetic::Arithmetic;

/// The coefficients of a polynomial, which are its terms at the point 1.
fn first_terms<A: Arithmetic>(a: &A, p: &Monic) -> [u16; TERMS]
    ensures { Terms (A.field a.now) (whole p.now) 1 result }
{
    let mut terms = [0u16; TERMS];
    // Tried as `terms.iter_mut().zip(..)`: of what is written under that adapter a proof knows nothing. `array::from_fn` would ask
    // of each place whether it is below the degree, at it or above it.
    for (k, c) in p.low[..p.degree].iter().enumerate() {
        terms[k] = a.product(*c, 1);
    }
    terms[p.degree] = a.product(1, 1);
    terms
}

/// The sum of terms.
fn total_of<A: Arithmetic>(a: &A, terms: &[u16]) -> u16
    ensures { result ≡ total (A.field a.now) terms.now }
{
    terms.iter().fold(0, |sum, term| a.sum(sum, *term))
}

impl<A: Arithmetic> Code<A> {
    /// The values of a polynomial at the points of all places.
    pub(crate) fn values(&self, p: &Monic) -> [u16; SYMBOLS]
        ensures { let f = A.field self.now.arithmetic in
            (i : ℕ) → i < word_length → slice_index result i ≡ eval_monic f (poly p.now) (power f f.alpha i) }
    {
        let mut all = first_terms(&self.arithmetic, p);
        // The terms that there are, of an array for as many as there may be: no memory is asked for. An `ArrayVec` is no plainer: the terms
        // are made at once, and their number stays.
        let terms = &mut all[..=p.degree];
        let mut values = [0u16; SYMBOLS];
        for value in values.iter_mut() {
            *value = total_of(&self.arithmetic, terms);
            self.times_powers(terms);
        }
        values
    }

    /// The product of x + alpha^i over the places i at which the values are zero.
    pub(crate) fn product_over_zeros(&self, values: &[u16; SYMBOLS]) -> Monic
        requires { length (filter (zero_at values.now) (below (length values.now))) ≤ reach }
        ensures degree { result.degree ≡ length (filter (zero_at values.now) (below (length values.now))) }
        ensures zeros { let f = A.field self.now.arithmetic in
            AllByRecursion (λ i. eval_monic f (poly result) (power f f.alpha i) ≡ 0)
            (filter (zero_at values.now) (below (length values.now))) }
    {
        // Tried as one `Monic` whose fields the loop writes: once a part of its array was lent and its degree written, the proof
        // had no fact of the array any more. The degree is counted since it is a part of the answer.
        let mut low = [0u16; REACH];
        let mut degree = 0;
        for (value, point) in values.iter().zip(&self.tables.points) {
            if *value == 0 {
                times_root(&self.arithmetic, *point, &mut low[..=degree]);
                degree += 1;
            }
        }
        Monic { degree, low }
    }
}
