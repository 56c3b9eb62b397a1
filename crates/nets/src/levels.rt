// Levels of de Casteljau steps: with each level one more copy of the point q that the weights name. Where
// the first vertex is replaced by q, the steps in place leave the new net: an entry is last written on the
// level that has as many copies of q as the entry has of the vertex. Other vertices are replaced from their own side,
// in sides.rt. Vertices are counted from 0 here.
ghost use Rattle.std.specs.Prelude.{◌≡◌, ◌+◌, ◌*◌, ◌-◌, ◌≤◌, length};
ghost use Rattle.machine.specs.Calls.{weight_list};
ghost use Rattle.nets.specs.Rows.{next_row, next_third};
ghost use Rattle.nets.specs.Levels.{copied_row, Descends, Descended};

use crate::rows::{LIMIT, blend};
use machine::Weights;

// Copies a row.
pub(crate) fn copy_row(out: &mut [i64], to: usize, xs: &[i64], from: usize, width: usize)
    requires { (width * to + width ≤ length out.old) × (width * from + width ≤ length xs.now) }
    ensures { out.new ≡ copied_row width out.old to xs.now from }
{
    let p = width * to;
    let q = width * from;
    for c in 0..width {
        out[p + c] = xs[q + c];
    }
}

// How many copies of the third vertex there are at most where the vertices after the first have m.
pub(crate) fn spread(dimension: usize, m: usize) -> usize
    requires { (1 ≤ dimension) × (dimension ≤ 2) }
    ensures { result ≡ (dimension - 1) * m }
{
    if dimension == 1 {
        return 0;
    }
    m
}

// The entry after the one with i copies of the vertices after the first, k of them of the third, is the next
// one of its row or the first of the next row. Its copies of the vertices after the first:
pub(crate) fn next_row(dimension: usize, i: usize, k: usize) -> usize
    requires { (1 ≤ dimension) × (dimension ≤ 2) × (i ≤ 180) }
    ensures { result ≡ next_row dimension i k }
{
    if k < spread(dimension, i) {
        return i;
    }
    i + 1
}

// And those of the third.
pub(crate) fn next_third(dimension: usize, i: usize, k: usize) -> usize
    requires { (1 ≤ dimension) × (dimension ≤ 2) }
    ensures { result ≡ next_third dimension i k }
{
    if k < spread(dimension, i) {
        return k + 1;
    }
    0
}

// ---- levels

// Goes down all levels in place; the last one has one row, the point, at the front. The work ends with
// the first number that is out of range.
pub(crate) fn descend(
    cur: &mut [i64],
    dimension: usize,
    degree: usize,
    width: usize,
    weights: Weights,
) -> bool
    requires { Descends width dimension degree weights cur.old }
    ensures { Descended width dimension degree (weight_list weights) cur.old result cur.new }
{
    for h in 0..degree {
        if !blend(&mut *cur, dimension, degree - h, width, weights, LIMIT) {
            return false;
        }
    }
    true
}
