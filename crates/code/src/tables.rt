//! What a code prepares: the powers of alpha, the multiples of the generator polynomial, and the products with powers of alpha.
ghost use Rattle.std.specs.Prelude.{◌≡◌, ℕ, ◌+◌, ◌-◌, ◌<◌, length, take, slice_index};
ghost use Rattle.arithmetic.specs.Laws.{power};
ghost use Rattle.code.specs.Words.{parity};
ghost use Rattle.code.specs.Polynomials.{value, eval, times_linear};
ghost use Rattle.code.specs.Prepared.{Powers, Vanishes, Multiples, Steps, Ready};

use crate::shapes::Tables;
use crate::sizes::{ELEMENTS, PARITY, SYMBOLS};
use arithmetic::Arithmetic;
use std::array;

// There is no code yet that could hold these facts of its tables, so that each function asks for those that it needs: a type for a table
// would have to hold the arithmetic, and the code would take it apart again.

fn powers<A: Arithmetic>(a: &A) -> [u16; SYMBOLS]
    ensures { Powers (A.field a.now) result }
{
    let mut points = [0u16; SYMBOLS];
    let alpha = a.alpha();
    let mut point = 1;
    for place in points.iter_mut() {
        *place = point;
        point = a.product(alpha, point);
    }
    points
}

/// Multiplies a monic polynomial by x + y: its coefficients from the lowest, and a place for the one more that the product has.
pub(crate) fn times_root<A: Arithmetic>(a: &A, y: u16, p: &mut [u16])
    requires { 0 < length p.old }
    ensures { p.new ≡ times_linear (A.field a.now) y 0 (take (length p.old - 1) p.old) }
{
    let last = p.len() - 1;
    let mut carried = 0;
    for c in p[..last].iter_mut() {
        let old = *c;
        *c = a.sum(carried, a.product(y, old));
        carried = old;
    }
    p[last] = a.sum(carried, y);
}

/// The coefficients below the leading 1 of the product of x + alpha^j, from the lowest.
fn generator<A: Arithmetic>(a: &A, points: &[u16; SYMBOLS]) -> [u16; PARITY]
    requires { Powers (A.field a.now) points.now }
    ensures { let f = A.field a.now in Vanishes f (power f f.alpha) parity result }
{
    let mut g = [0u16; PARITY];
    // The number is the degree so far.
    for (degree, point) in points[..PARITY].iter().enumerate() {
        times_root(a, *point, &mut g[..=degree]);
    }
    g
}

/// k times a polynomial, from the highest coefficient.
fn multiple<A: Arithmetic>(a: &A, k: u16, g: &[u16; PARITY]) -> [u16; PARITY]
    ensures { let f = A.field a.now in (x : ℕ) → value f x result ≡ f.times k (eval f g.now x) }
{
    array::from_fn(|i| a.product(k, g[PARITY - 1 - i]))
}

/// The multiples of the generator polynomial without its leading term.
// Filled as `steps` is: one function for both sizes and facts has longer clauses than the loops. `array::from_fn(|k| multiple(a, k as u16, g))`
// proves only with a contract on the closure (its index is in range, what it holds stays as it is, the length of the row, the row), since
// nothing else is known of a closure over a type parameter that calls a function of ours. The cast: `u16::try_from` would answer an Err
// that cannot occur.
fn multiples<A: Arithmetic>(a: &A, g: &[u16; PARITY]) -> [[u16; PARITY]; ELEMENTS]
    requires { let f = A.field a.now in Vanishes f (power f f.alpha) parity g.now }
    ensures { Multiples (A.field a.now) parity result }
{
    let mut rows = [[0u16; PARITY]; ELEMENTS];
    for (k, row) in rows.iter_mut().enumerate() {
        *row = multiple(a, k as u16, g);
    }
    rows
}

/// The products of an element and all elements.
fn products<A: Arithmetic>(a: &A, x: u16) -> [u16; ELEMENTS]
    ensures { (k : ℕ) → k < 512 → slice_index result k ≡ (A.field a.now).times x k }
{
    array::from_fn(|k| a.product(x, k as u16))
}

/// The products of the first powers of alpha and all elements.
// Tried as `rows.iter_mut().zip(points)`: of what is written under that adapter a proof knows nothing.
fn steps<A: Arithmetic>(a: &A, points: &[u16; SYMBOLS]) -> [[u16; ELEMENTS]; PARITY]
    requires { Powers (A.field a.now) points.now }
    ensures { Steps (A.field a.now) parity result }
{
    let mut rows = [[0u16; ELEMENTS]; PARITY];
    for (j, row) in rows.iter_mut().enumerate() {
        *row = products(a, points[j]);
    }
    rows
}

impl Tables {
    /// The tables of an arithmetic.
    pub(crate) fn new<A: Arithmetic>(a: &A) -> Tables
        ensures { Ready (A.field a.now) result.points result.rows result.steps }
    {
        let points = powers(a);
        let g = generator(a, &points);
        Tables {
            rows: multiples(a, &g),
            steps: steps(a, &points),
            points,
        }
    }
}
