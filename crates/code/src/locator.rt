//! A polynomial that the sums of a word annul: every damaged place is one of its roots (Berlekamp and Massey's search).
ghost use Rattle.std.specs.Prelude.{◌≡◌, ℕ, ◌+◌, ◌<◌, ◌≤◌, ◌++◌, length, replicate};
ghost use Rattle.code.specs.Words.{parity, reach};
ghost use Rattle.code.specs.Polynomials.{dot_monic, plus_monic, reads};
ghost use Rattle.code.specs.Locating.{poly, Found};

use crate::shapes::{Monic, Recurrence, Syndromes};
use crate::sizes::REACH;
use arithmetic::Arithmetic;

/// Adds k times p to q, both monic, p of the lower degree.
fn add_multiple<A: Arithmetic>(a: &A, k: u16, p: &[u16], q: &mut [u16])
    requires { length p.now < length q.old }
    ensures { q.new ≡ plus_monic (A.field a.now) k p.now q.old }
{
    // Tried as `q.iter_mut().zip(p)`: of what is written under that adapter a proof knows nothing.
    for (i, c) in p.iter().enumerate() {
        q[i] = a.sum(q[i], a.product(k, *c));
    }
    let end = p.len();
    q[end] = a.sum(q[end], k);
}

impl Monic {
    /// The sum of the polynomial and k times one of lower degree.
    fn reduced<A: Arithmetic>(self, a: &A, other: &Monic, k: u16) -> Monic
        requires { other.now.degree < self.degree }
        ensures same { result.degree ≡ self.degree }
        ensures sum { poly result ≡ plus_monic (A.field a.now) k (poly other.now) (poly self) }
    {
        let mut low = self.low;
        add_multiple(a, k, &other.low[..other.degree], &mut low[..self.degree]);
        Monic {
            degree: self.degree,
            low,
        }
    }

    /// The polynomial times x^by.
    fn raised(&self, by: usize) -> Monic
        requires { by + self.now.degree ≤ reach }
        ensures degree { result.degree ≡ by + self.now.degree }
        ensures shifted { poly result ≡ replicate by 0 ++ poly self.now }
    {
        let mut low = [0u16; REACH];
        low[by..by + self.degree].copy_from_slice(&self.low[..self.degree]);
        Monic {
            degree: by + self.degree,
            low,
        }
    }
}

impl Syndromes {
    /// The coefficients of a polynomial against the sums from the place j, its window j.
    fn window<A: Arithmetic>(&self, a: &A, p: &Monic, j: usize) -> u16
        requires { j + p.now.degree < parity }
        ensures { result ≡ dot_monic (A.field a.now) (poly p.now) (reads self.now.sums) j }
    {
        p.low[..p.degree].iter().zip(&self.sums[j..]).fold(
            self.sums[j + p.degree],
            |sum, (c, x)| a.sum(sum, a.product(*c, *x)),
        )
    }

    /// One step of the search: one more window is annulled, or the degree grows.
    fn step<A: Arithmetic>(&self, a: &A, r: Recurrence) -> Recurrence
        requires found { Found (A.field a.now) self.now.sums r }
        requires open { r.windows < reach }
        ensures found { Found (A.field a.now) self.now.sums result }
        ensures further { result.windows + result.current.degree ≡ r.windows + r.current.degree + 1 }
    {
        let value = self.window(a, &r.current, r.windows);
        if value == 0 {
            return Recurrence {
                windows: r.windows + 1,
                ..r
            };
        }
        let factor = a.product(value, r.scale);
        if r.windows < r.current.degree {
            let lift = r.previous.raised(r.current.degree - 1 - r.windows);
            return Recurrence {
                current: r.current.reduced(a, &lift, factor),
                windows: r.windows + 1,
                ..r
            };
        }
        let lift = r.current.raised(r.windows + 1 - r.current.degree);
        Recurrence {
            current: lift.reduced(a, &r.previous, factor),
            windows: r.current.degree,
            previous: r.current,
            scale: a.inverse(value),
        }
    }

    /// A polynomial that annuls the first 22 windows of the sums.
    pub(crate) fn locator<A: Arithmetic>(&self, a: &A) -> Monic
        ensures { (j : ℕ) → j < reach → dot_monic (A.field a.now) (poly result) (reads self.now.sums) j ≡ 0 }
    {
        let one = Monic {
            degree: 0,
            low: [0; REACH],
        };
        let mut r = Recurrence {
            current: one,
            windows: 0,
            previous: one,
            scale: 1,
        };
        // No count: a step may take windows back while the degree grows.
        while r.windows < REACH {
            r = self.step(a, r);
        }
        r.current
    }
}
