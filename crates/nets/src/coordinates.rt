// One group's net over the frame of the coordinates: each entry is the coefficient of its monomial, times L
// divided by the multinomial of the monomial. Coefficients and entries are rows of `width` numbers.
ghost use Rattle.std.specs.Prelude.{◌≡◌, ◌+◌, ◌*◌, ◌-◌, ◌/◌, ◌<◌, ◌≤◌, pos, nat_abs, ◌*ℤ◌, length};
ghost use Rattle.polar.specs.Order.{monomials};
ghost use Rattle.polar.specs.Scale.{factorial, multinomial, scale};
ghost use Rattle.entries.specs.Entries.{place_of};
ghost use Rattle.entries.specs.Rows.{size};
ghost use Rattle.nets.specs.Rows.{place_at, written};
ghost use Rattle.nets.specs.Coordinates.{
  exponents_at,
  Monomial,
  denominator,
  Scales,
  ScalesRow,
  scaled_row,
  Limited,
  coordinate_at,
  Coordinates,
};

use crate::levels::{next_row, next_third};
use crate::rows::place;

// k!, for k from 0 to 10.
pub(crate) fn factorial_of(k: usize) -> u64
    requires { k ≤ 10 }
    ensures { result ≡ factorial k }
{
    let mut product = 1;
    for i in 0..k {
        product *= i as u64 + 1;
    }
    product
}

// ---- scaled coefficients

// The product of the factorials that the multinomial of a monomial divides by: h of the first coordinate, l of
// the second where there is one, and what is left of the degree.
pub(crate) fn factorials_of(dimension: usize, degree: usize, h: usize, l: usize) -> u64
    requires { Monomial dimension degree h l }
    ensures { (result ≡ denominator dimension degree h l) × (result ≤ 3628800) }
{
    factorial_of(h) * factorial_of(l) * factorial_of(degree - h - l)
}

// The scale divided by the multinomial of a monomial, `whole` being the degree's factorial. The multinomial
// is `whole` divided by the smaller factorials, so one division is enough.
pub(crate) fn factor(
    all: u64,
    whole: u64,
    dimension: usize,
    degree: usize,
    h: usize,
    l: usize,
) -> i64
    requires { Monomial dimension degree h l × (all ≤ 2520) × (whole ≡ factorial degree) }
    ensures { (result ≡ pos (all / multinomial degree (exponents_at dimension h l))) × (nat_abs result ≤ 2520) }
{
    let parts = factorials_of(dimension, degree, h, l);
    (all * parts / whole) as i64
}

// The place of a monomial among the monomials: with two coordinates they stand in rows of one h each.
pub(crate) fn monomial_place(dimension: usize, degree: usize, h: usize, l: usize) -> usize
    requires { Monomial dimension degree h l }
    ensures { result ≡ place_of (exponents_at dimension h l) (monomials dimension degree) }
{
    if dimension == 1 {
        return h;
    }
    let rest = degree - h;
    h * (h + 2 * rest + 3) / 2 + l
}

// One scaled coefficient.
pub(crate) fn scaled(a: i64, factor: i64) -> i64
    requires { (nat_abs a ≤ 281474976710656) × (nat_abs factor ≤ 2520) }
    ensures { result ≡ a *ℤ factor }
{
    a * factor
}

// Puts the numbers of a row, scaled, into another place. A copy of a row, which scales nothing, is
// `copy_row`: by the factor 1 it would multiply.
pub(crate) fn scale_numbers(
    out: &mut [i64],
    to: usize,
    coefficients: &[i64],
    from: usize,
    width: usize,
    factor: i64,
)
    requires { ScalesRow width to from factor out.old coefficients.now }
    ensures { out.new ≡ scaled_row width out.old to coefficients.now from factor }
{
    let p = width * to;
    let q = width * from;
    for c in 0..width {
        out[p + c] = scaled(coefficients[q + c], factor);
    }
}

// Puts the numbers of a monomial, scaled, into the place of an entry. Where they are four, the compiler is
// told so.
pub(crate) fn put_scaled(
    out: &mut [i64],
    to: usize,
    coefficients: &[i64],
    from: usize,
    width: usize,
    factor: i64,
)
    requires { ScalesRow width to from factor out.old coefficients.now }
    ensures { out.new ≡ scaled_row width out.old to coefficients.now from factor }
{
    if width == 4 {
        scale_numbers(out, to, coefficients, from, 4, factor);
        return;
    }
    scale_numbers(out, to, coefficients, from, width, factor);
}

// ---- the net over the frame of the coordinates

// The entry with i copies of the vertices after the first, k of them of the third.
pub(crate) fn put_entry(
    out: &mut [i64],
    all: u64,
    whole: u64,
    dimension: usize,
    degree: usize,
    width: usize,
    coefficients: &[i64],
    i: usize,
    k: usize,
)
    requires { Limited width dimension degree coefficients.now × Scales dimension degree all whole × (size width dimension degree ≤ length out.old) × (i ≤ degree) × (k ≤ (dimension - 1) * i) }
    ensures { out.new ≡ written out.old (width * place_at dimension i k) width (coordinate_at width dimension degree coefficients.now) }
{
    let to = place(dimension, i, k);
    let h = i - k;
    let from = monomial_place(dimension, degree, h, k);
    let times = factor(all, whole, dimension, degree, h, k);
    put_scaled(out, to, coefficients, from, width, times);
}

// All entries of the net over the frame of the coordinates; `all` is the scale. Two loops, of rows and in a
// row, were tried: they take a curve's first net up to 6 in a hundred more instructions.
pub(crate) fn coordinate_numbers(
    out: &mut [i64],
    all: u64,
    dimension: usize,
    degree: usize,
    width: usize,
    coefficients: &[i64],
)
    requires { Limited width dimension degree coefficients.now × (all ≡ scale dimension degree) × (size width dimension degree ≤ length out.old) }
    ensures { Coordinates width dimension degree coefficients.now out.new × (length out.new ≡ length out.old) }
{
    let whole = factorial_of(degree);
    let mut i = 0;
    let mut k = 0;
    while i <= degree {
        put_entry(
            &mut *out,
            all,
            whole,
            dimension,
            degree,
            width,
            coefficients,
            i,
            k,
        );
        let row = next_row(dimension, i, k);
        k = next_third(dimension, i, k);
        i = row;
    }
}
