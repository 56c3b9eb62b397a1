// Vertices of lines and triangles replaced in place, level by level. With each level every entry that has more copies of
// the vertex than there were levels gets one more copy of the point q that the weights name, in place of one of the
// vertex: a blend of the entry with those that have one copy of the vertex less and one of another more. So the entries
// with more copies go first. For the first vertex these are the levels of a point, in levels.rt. Vertices are counted
// from 0 here, and the rows of a triangle have four numbers.
ghost use Rattle.std.specs.Prelude.{◌+◌, ◌-◌, ◌≤◌, nat_abs, length};
ghost use Rattle.machine.specs.Calls.{weight_list};
ghost use Rattle.nets.specs.Rows.{BlendsLeft, Bounded};
ghost use Rattle.nets.specs.Levels.{Descends, ReplacedInPlace};
ghost use Rattle.nets.specs.Sides.{mixed_across, mixed_down, LevelAsked, Levelled};

use crate::levels::descend;
use crate::rows::{LIMIT, mix};
use integers::is_within;
use machine::Weights;

// ---- one row

// Blends some numbers in place, from the first to the last, each with the one d places before, which is not
// blended, and the one e places further on, which is not blended yet. The first blended number beyond the
// limit ends the work.
pub(crate) fn blend_across(
    xs: &mut [i64],
    from: usize,
    count: usize,
    d: usize,
    e: usize,
    a: i64,
    b: i64,
    c: i64,
    limit: u64,
) -> bool
    requires { (d ≤ from) × (count ≤ d) × (1 ≤ e) × (from + count + e ≤ length xs.old) × Bounded xs.old (from - d) (from + count + e) (nat_abs a + nat_abs b + nat_abs c) }
    ensures { BlendsLeft limit (mixed_across xs.old d e a b c) from count xs.old result xs.new }
{
    for k in 0..count {
        let f = from + k;
        let v = mix(a, xs[f], b, xs[f - d], c, xs[f + e]);
        xs[f] = v;
        if !is_within(v, limit) {
            return false;
        }
    }
    true
}

// Blends some numbers in place, from the last to the first, each with those d and e places before, which
// are not blended yet. The first blended number beyond the limit ends the work. Beside `blend_across` the
// order and the side of the partners differ, and the bounds with them.
pub(crate) fn blend_down(
    xs: &mut [i64],
    from: usize,
    count: usize,
    d: usize,
    e: usize,
    a: i64,
    b: i64,
    c: i64,
    limit: u64,
) -> bool
    requires { (1 ≤ e) × (e ≤ d) × (d ≤ from) × (from + count ≤ length xs.old) × Bounded xs.old (from - d) (from + count) (nat_abs a + nat_abs b + nat_abs c) }
    ensures { BlendsLeft limit (mixed_down xs.old d e a b c) from count xs.old result xs.new }
{
    for k in (0..count).rev() {
        let f = from + k;
        let v = mix(a, xs[f], b, xs[f - d], c, xs[f - e]);
        xs[f] = v;
        if !is_within(v, limit) {
            return false;
        }
    }
    true
}

// ---- one level of a triangle

// Level 1 + h of the second or the third vertex. Row i has the entries with i copies of these two together;
// the partners of an entry are in the row before and in its own, further on for the second vertex and before
// it for the third. The rows are counted by hand: under a `for` each blended number of the third vertex
// takes more instructions.
pub(crate) fn level_side<const VERTEX: usize>(
    xs: &mut [i64],
    degree: usize,
    h: usize,
    weights: Weights,
) -> bool
    requires { LevelAsked degree h weights xs.old × (1 ≤ VERTEX) × (VERTEX ≤ 2) }
    ensures { Levelled 4 2 degree (weight_list weights) VERTEX h xs.old result xs.new }
{
    let mut i = degree;
    while h < i {
        let row = 2 * i * (i + 1);
        let count = 4 * (i - h);
        let all_within = if VERTEX == 1 {
            blend_across(
                &mut *xs,
                row,
                count,
                4 * i,
                4,
                weights.s,
                weights.r,
                weights.t,
                LIMIT,
            )
        } else {
            blend_down(
                &mut *xs,
                row + 4 * (h + 1),
                count,
                4 * (i + 1),
                4,
                weights.t,
                weights.r,
                weights.s,
                LIMIT,
            )
        };
        if !all_within {
            return false;
        }
        i -= 1;
    }
    true
}

// ---- all levels of a line

// Replaces the second vertex of a line in place. Row i has the entry with i copies of it, and the partner of an entry is
// the row before. The work ends with the first number that is out of range.
pub(crate) fn descend_back(cur: &mut [i64], degree: usize, width: usize, weights: Weights) -> bool
    requires { Descends width 1 degree weights cur.old }
    ensures { ReplacedInPlace width 1 degree (weight_list weights) 1 cur.old result cur.new }
{
    let end = width * (degree + 1);
    for h in 0..degree {
        let from = width * (h + 1);
        if !blend_down(
            &mut *cur,
            from,
            end - from,
            width,
            width,
            weights.s,
            weights.r,
            0,
            LIMIT,
        ) {
            return false;
        }
    }
    true
}

// Replaces a vertex of a line in place.
pub(crate) fn descend_line(
    xs: &mut [i64],
    vertex: usize,
    degree: usize,
    width: usize,
    weights: Weights,
) -> bool
    requires { Descends width 1 degree weights xs.old × (vertex ≤ 1) }
    ensures { ReplacedInPlace width 1 degree (weight_list weights) vertex xs.old result xs.new }
{
    if vertex == 0 {
        return descend(xs, 1, degree, width, weights);
    }
    descend_back(xs, degree, width, weights)
}

// ---- all levels of a triangle

// Replaces the second or the third vertex of a triangle in place. The work ends with the first number that
// is out of range.
pub(crate) fn descend_side<const VERTEX: usize>(
    xs: &mut [i64],
    degree: usize,
    weights: Weights,
) -> bool
    requires { Descends 4 2 degree weights xs.old × (1 ≤ VERTEX) × (VERTEX ≤ 2) }
    ensures { ReplacedInPlace 4 2 degree (weight_list weights) VERTEX xs.old result xs.new }
{
    for h in 0..degree {
        if !level_side::<VERTEX>(&mut *xs, degree, h, weights) {
            return false;
        }
    }
    true
}

// Replaces a vertex of a triangle in place.
pub(crate) fn descend_triangle(
    xs: &mut [i64],
    vertex: usize,
    degree: usize,
    weights: Weights,
) -> bool
    requires { Descends 4 2 degree weights xs.old × (vertex ≤ 2) }
    ensures { ReplacedInPlace 4 2 degree (weight_list weights) vertex xs.old result xs.new }
{
    if vertex == 0 {
        return descend(xs, 2, degree, 4, weights);
    }
    if vertex == 1 {
        return descend_side::<1>(xs, degree, weights);
    }
    descend_side::<2>(xs, degree, weights)
}
