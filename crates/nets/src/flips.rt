// Flips: the sign of an entry changes where the vertex is taken an odd number of times. Vertices are
// counted from 0 here.
ghost use Rattle.std.specs.Prelude.{◌≡◌, ◌+◌, ◌*◌, ◌-◌, ◌≤◌, nat_abs, length, get_or};
ghost use Rattle.entries.specs.Entries.{signed};
ghost use Rattle.nets.specs.Flips.{counts_at, signed_row, flipped_list, InRange, Flips};

use crate::levels::{next_row, next_third};

// How often a vertex is taken in the entry with i copies of the vertices after the first, k of them
// of the third.
pub(crate) fn copies(dimension: usize, vertex: usize, degree: usize, i: usize, k: usize) -> usize
    requires { (1 ≤ dimension) × (dimension ≤ 2) × (vertex ≤ dimension) × (i ≤ degree) × (k ≤ (dimension - 1) * i) }
    ensures { result ≡ get_or (counts_at dimension degree i k) vertex 0 }
{
    if vertex == 0 {
        return degree - i;
    }
    if vertex == 1 {
        return i - k;
    }
    k
}

// The number or its negative, by whether the count is odd.
pub(crate) fn sign(x: i64, count: usize) -> i64
    requires { nat_abs x ≤ 281474976710656 }
    ensures { result ≡ signed count x }
{
    if count % 2 == 0 {
        return x;
    }
    -x
}

// Changes the sign of the numbers of a row where the count is odd.
pub(crate) fn sign_numbers(xs: &mut [i64], p: usize, width: usize, count: usize)
    requires { (width * p + width ≤ length xs.old) × InRange xs.old (width * p) (width * p + width) }
    ensures { xs.new ≡ signed_row width xs.old p count }
{
    let from = width * p;
    for i in from..from + width {
        xs[i] = sign(xs[i], count);
    }
}

// The same. Where the numbers are four, the compiler is told so.
pub(crate) fn sign_row(xs: &mut [i64], p: usize, width: usize, count: usize)
    requires { (width * p + width ≤ length xs.old) × InRange xs.old (width * p) (width * p + width) }
    ensures { xs.new ≡ signed_row width xs.old p count }
{
    if width == 4 {
        sign_numbers(xs, p, 4, count);
        return;
    }
    sign_numbers(xs, p, width, count);
}

// Flips a vertex in the rows of a net. Entry p has i copies of the vertices after the first, k of them of
// the third. Two loops, of rows and in a row, were tried: they take a curve up to 9 in a hundred more
// instructions.
pub(crate) fn flip_entries(
    xs: &mut [i64],
    dimension: usize,
    vertex: usize,
    degree: usize,
    width: usize,
)
    requires { Flips width dimension degree vertex xs.old }
    ensures { xs.new ≡ flipped_list width dimension degree vertex xs.old }
{
    let mut p = 0;
    let mut i = 0;
    let mut k = 0;
    while i <= degree {
        let count = copies(dimension, vertex, degree, i, k);
        sign_row(&mut *xs, p, width, count);
        p += 1;
        let row = next_row(dimension, i, k);
        k = next_third(dimension, i, k);
        i = row;
    }
}
