// Numbers in rows: copies, and de Casteljau steps in place.
//
// The functions of this crate below the calls see one group of a net: 1 + dimension vertices, a degree,
// and a row of `width` numbers for each entry, whatever the kind is.
ghost use Rattle.std.specs.Prelude.{◌≡◌, pred, max, ◌+◌, ◌*◌, ◌-◌, ◌<◌, ◌≤◌, ◌^◌, pos, nat_abs, ◌+ℤ◌, ◌*ℤ◌, [], ◌∷◌, length, get_or};
ghost use Rattle.integers.specs.Largest.{largest_of};
ghost use Rattle.integers.specs.Test.{within, all};
ghost use Rattle.polar.specs.Order.{counts};
ghost use Rattle.entries.specs.Rows.{size, offset};
ghost use Rattle.machine.specs.Calls.{weight_list};
ghost use Rattle.nets.specs.Rows.{
  written,
  mixed,
  BlendsLeft,
  weight_sum,
  Bounded,
  Whole,
  Sized,
  place_at,
  rows_blended,
  blended,
  Leaves,
};

use integers::{is_within, magnitude};
use machine::Weights;

// How many places the entries of a net have.
pub(crate) const PLACES: usize = 180;

// How many numbers a small net has at most: a curve of degree 5 or a patch of degree 2.
pub(crate) const FEW: usize = 24;

// And one of middling size: a rectangular patch of degrees (2, 5).
pub(crate) const SOME: usize = 72;

// The largest absolute value of a number of a net, in its entries, its frame and the polar values that calls name: 2
// to the 48th.
pub(crate) const LIMIT: u64 = 281474976710656;

// ---- limits

// Whether four numbers are within a limit.
pub(crate) fn four_within(a: i64, b: i64, c: i64, d: i64, limit: u64) -> bool
    ensures { result ≡ all (within limit) (a ∷ b ∷ c ∷ d ∷ []) }
{
    is_within(a, limit) && is_within(b, limit) && is_within(c, limit) && is_within(d, limit)
}

// Whether the numbers of whole entries are within a limit: four a turn, which takes less time than one.
pub(crate) fn entries_within(numbers: &[i64], limit: u64) -> bool
    requires { Whole (length numbers.now) }
    ensures { result ≡ all (within limit) numbers.now }
{
    for entry in 0..numbers.len() / 4 {
        let i = 4 * entry;
        if !four_within(
            numbers[i],
            numbers[i + 1],
            numbers[i + 2],
            numbers[i + 3],
            limit,
        ) {
            return false;
        }
    }
    true
}

// ---- the largest

// The largest absolute value of four numbers.
pub(crate) fn four_largest(a: i64, b: i64, c: i64, d: i64) -> u64
    ensures { result ≡ largest_of (a ∷ b ∷ c ∷ d ∷ []) }
{
    magnitude(a)
        .max(magnitude(b))
        .max(magnitude(c).max(magnitude(d)))
}

// The largest absolute value among the numbers of whole entries.
pub(crate) fn entries_largest(numbers: &[i64]) -> u64
    requires { Whole (length numbers.now) }
    ensures { result ≡ largest_of numbers.now }
{
    let mut largest = 0;
    for entry in 0..numbers.len() / 4 {
        let i = 4 * entry;
        let four = four_largest(numbers[i], numbers[i + 1], numbers[i + 2], numbers[i + 3]);
        largest = largest.max(four);
    }
    largest
}

// ---- copies

// Copies the first `count` numbers.
pub(crate) fn copy(to: &mut [i64], from: &[i64], count: usize)
    requires { (count ≤ length to.old) × (count ≤ length from.now) }
    ensures { to.new ≡ written to.old 0 count (λ i. get_or from.now i (pos 0)) }
{
    for i in 0..count {
        to[i] = from[i];
    }
}

// ---- one row

// One blended number.
pub(crate) fn mix(a: i64, x: i64, b: i64, y: i64, c: i64, z: i64) -> i64
    requires { nat_abs a * nat_abs x + nat_abs b * nat_abs y + nat_abs c * nat_abs z < 2 ^ 63 }
    ensures { result ≡ a *ℤ x +ℤ (b *ℤ y +ℤ c *ℤ z) }
{
    a * x + (b * y + c * z)
}

// Blends a row in place, each number with those d and e places further on, which are not blended yet. The
// first blended number beyond the limit ends the work. The loop ends by a test for equality, which takes the
// compiled code one instruction less for each number than a `for`, which tests for less.
pub(crate) fn blend_row(
    xs: &mut [i64],
    from: usize,
    count: usize,
    d: usize,
    e: usize,
    a: i64,
    b: i64,
    c: i64,
    limit: u64,
) -> bool
    requires { (1 ≤ d) × (d ≤ e) × (from + count + e ≤ length xs.old) × Bounded xs.old from (from + count + e) (nat_abs a + nat_abs b + nat_abs c) }
    ensures { BlendsLeft limit (mixed xs.old d e a b c) from count xs.old result xs.new }
{
    let end = from + count;
    let mut f = from;
    while f != end {
        let v = mix(a, xs[f], b, xs[f + d], c, xs[f + e]);
        xs[f] = v;
        if !is_within(v, limit) {
            return false;
        }
        f += 1;
    }
    true
}

// ---- places

// How many numbers the rows of a group have.
pub(crate) fn numbers(dimension: usize, degree: usize, width: usize) -> usize
    requires { Sized width dimension degree }
    ensures { result ≡ size width dimension degree }
{
    if dimension == 1 {
        return width * (degree + 1);
    }
    width * ((degree + 1) * (degree + 2) / 2)
}

// The place of the entry that has i copies of the vertices after the first, k of them of the third.
pub(crate) fn place(dimension: usize, i: usize, k: usize) -> usize
    requires { (1 ≤ dimension) × (dimension ≤ 2) × (i ≤ 180) × (k ≤ i) }
    ensures { result ≡ place_at dimension i k }
{
    if dimension == 1 {
        return i;
    }
    i * (i + 1) / 2 + k
}

// ---- one step

// Blends the rows of a triangle in place, each with the next one, as far as they are within the limit.
pub(crate) fn blend_rows(
    xs: &mut [i64],
    degree: usize,
    width: usize,
    weights: Weights,
    limit: u64,
) -> bool
    requires { Sized width 2 degree × (size width 2 degree ≤ length xs.old) × Bounded xs.old 0 (size width 2 degree) (weight_sum weights) }
    ensures { Leaves limit (width * offset (counts 1) degree) (rows_blended width xs.old weights degree) result xs.new }
{
    let mut from = 0;
    for i in 0..degree {
        let count = width * (i + 1);
        let next = count + width;
        if !blend_row(
            &mut *xs, from, count, count, next, weights.r, weights.s, weights.t, limit,
        ) {
            return false;
        }
        from += count;
    }
    true
}

// One de Casteljau step on a group: every polar value with one more copy of the point that the weights
// name, as far as the values are within the limit. The answer is whether all of them are.
pub(crate) fn blend(
    xs: &mut [i64],
    dimension: usize,
    degree: usize,
    width: usize,
    weights: Weights,
    limit: u64,
) -> bool
    requires { Sized width dimension degree × (1 ≤ degree) × (size width dimension degree ≤ length xs.old) × Bounded xs.old 0 (size width dimension degree) (weight_sum weights) }
    ensures { Leaves limit (size width dimension (pred degree)) (blended width dimension (pred degree) (weight_list weights) xs.old) result xs.new }
{
    if dimension == 1 {
        return blend_row(
            &mut *xs,
            0,
            width * degree,
            width,
            width,
            weights.r,
            weights.s,
            0,
            limit,
        );
    }
    blend_rows(xs, degree, width, weights, limit)
}
