// The first net. Over the frame of the coordinates the entries are the scaled coefficients; each step
// with a vertex of the frame fixes one point of its polar values. Entries that share points share the
// steps: the rows are made from the last to the first, each from the net with its copies of the first
// vertex fixed, and in a row each entry from the net with its copies of the third fixed too.
ghost use Rattle.std.specs.Prelude.{◌≡◌, pred, ◌+◌, ◌*◌, ◌-◌, ◌≤◌, cond, eqb, pos, length, get_or};
ghost use Rattle.machine.specs.Refusals.{first_failed};
ghost use Rattle.machine.specs.Numbers.{answered};
ghost use Rattle.kinds.specs.Heads.{head_groups};
ghost use Rattle.entries.specs.Entries.{number_count};
ghost use Rattle.integers.specs.Largest.{largest_of};
ghost use Rattle.machine.specs.First.{first_net};
ghost use Rattle.machine.specs.Lent.{put_at, polynomials_from};
ghost use Rattle.entries.specs.Rows.{size};
ghost use Rattle.nets.specs.Rows.{Sized, blended, level};
ghost use Rattle.nets.specs.Levels.{copied_row};
ghost use Rattle.nets.specs.FirstNet.{
  Room,
  Stepping,
  VertexStep,
  vertex_weights,
  EntryPut,
  RowPut,
  NetPut,
  Framing,
  Spare,
  PartsFramed,
  LaterFraming,
  LaterFramed,
  framed,
  framed_list,
};
ghost use Rattle.nets.specs.Parts.{in_parts};
ghost use Rattle.nets.specs.Calls.{before_first, FirstAsked, Rooms};

use crate::coordinates::coordinate_numbers;
use crate::levels::{copy_row, spread};
use crate::rows::{blend, copy, entries_largest, entries_within, numbers, place};
use kinds::{Head, dimension_of, frame_allowed, group_scale, later_dimension};
use machine::{Refusal, Weights};

// No step is refused here: what fits 64 bits is within this limit. Only the entries made are judged.
const WIDEST: u64 = 9223372036854775807;

// The largest absolute value of a coefficient, 2 to the 20th.
const COEFFICIENT: u64 = 1048576;

// ---- steps with vertices

// The number after the first of a vertex whose numbers begin at a place; with one coordinate besides Z
// that one is Z, and there is no second coordinate: 0.
pub(crate) fn second_number(dimension: usize, frame: &[i64], at: usize) -> i64
    requires { at + 2 ≤ length frame.now }
    ensures { result ≡ cond (eqb dimension 1) (pos 0) (get_or frame.now (at + 1) (pos 0)) }
{
    if dimension == 1 {
        return 0;
    }
    frame[at + 1]
}

// One step with a vertex of the frame. A vertex has one number more than the dimension, Z the last.
pub(crate) fn blend_vertex(
    cur: &mut [i64],
    dimension: usize,
    degree: usize,
    width: usize,
    frame: &[i64],
    v: usize,
)
    requires { VertexStep width dimension degree v frame.now cur.old }
    ensures { cur.new ≡ blended width dimension (pred degree) (vertex_weights dimension frame.now v) cur.old }
{
    let at = (dimension + 1) * v;
    let weights = Weights {
        r: frame[at + dimension],
        s: frame[at],
        t: second_number(dimension, frame, at),
        u: 0,
    };
    blend(cur, dimension, degree, width, weights, WIDEST);
}

// Steps with the second vertex until one row is left, at the front. Unlike `descend`, it judges no number.
pub(crate) fn blend_second(
    cur: &mut [i64],
    dimension: usize,
    degree: usize,
    width: usize,
    frame: &[i64],
)
    requires { Stepping width dimension degree frame.now cur.old }
    ensures { cur.new ≡ level width dimension degree (vertex_weights dimension frame.now 1) degree cur.old }
{
    for h in 0..degree {
        blend_vertex(&mut *cur, dimension, degree - h, width, frame, 1);
    }
}

// ---- entries
//
// The contracts speak of any form G whose values a net holds: the polar value with some points fixed.

// Copies the first row of `cur` into a place. Where it has four numbers, the compiler is told so: it then
// moves them one by one, as they were written just before.
pub(crate) fn put_front(out: &mut [i64], to: usize, cur: &[i64], width: usize)
    requires { (width * to + width ≤ length out.old) × (width * 0 + width ≤ length cur.now) }
    ensures { out.new ≡ copied_row width out.old to cur.now 0 }
{
    if width == 4 {
        copy_row(out, to, cur, 0, 4);
        return;
    }
    copy_row(out, to, cur, 0, width);
}

// Puts the entry with i copies of the vertices after the first, k of them of the third, into its place.
// `cur` is the net with the other points fixed; it is used up.
pub(crate) fn last_entry(
    out: &mut [i64],
    cur: &mut [i64],
    dimension: usize,
    width: usize,
    frame: &[i64],
    i: usize,
    k: usize,
)
    requires { Sized width dimension i × (k ≤ (dimension - 1) * i) × Room width dimension i out.old × Stepping width dimension (i - k) frame.now cur.old }
    ensures { EntryPut width dimension i k frame.now cur.old out.old out.new }
{
    blend_second(&mut *cur, dimension, i - k, width, frame);
    let p = place(dimension, i, k);
    put_front(out, p, cur, width);
}

// The same, with `cur` as it was and `work` used up.
pub(crate) fn put_entry(
    out: &mut [i64],
    work: &mut [i64],
    cur: &[i64],
    dimension: usize,
    width: usize,
    frame: &[i64],
    i: usize,
    k: usize,
)
    requires { Sized width dimension i × (k ≤ (dimension - 1) * i) × Room width dimension i out.old × Room width dimension i work.old × Stepping width dimension (i - k) frame.now cur.now }
    ensures { EntryPut width dimension i k frame.now cur.now out.old out.new }
{
    let count = numbers(dimension, i - k, width);
    copy(&mut *work, cur, count);
    last_entry(out, work, dimension, width, frame, i, k);
}

// Puts the entries with i copies of the vertices after the first into their places. `cur` is the net
// with the copies of the first vertex fixed; it is used up, and so is `work`.
pub(crate) fn put_row(
    out: &mut [i64],
    work: &mut [i64],
    cur: &mut [i64],
    dimension: usize,
    width: usize,
    frame: &[i64],
    i: usize,
)
    requires { Room width dimension i out.old × Room width dimension i work.old × Stepping width dimension i frame.now cur.old }
    ensures { RowPut width dimension i frame.now cur.old out.old out.new }
{
    let last = spread(dimension, i);
    for k in 0..last {
        put_entry(&mut *out, &mut *work, cur, dimension, width, frame, i, k);
        blend_vertex(&mut *cur, dimension, i - k, width, frame, 2);
    }
    last_entry(out, cur, dimension, width, frame, i, last);
}

// Puts all entries into their places, the last row first. `base` is the net over the frame of the
// coordinates; it is used up, and so are `cur` and `work`.
pub(crate) fn put_rows(
    out: &mut [i64],
    work: &mut [i64],
    cur: &mut [i64],
    base: &mut [i64],
    dimension: usize,
    width: usize,
    frame: &[i64],
    degree: usize,
)
    requires { Room width dimension degree out.old × Room width dimension degree work.old × Room width dimension degree cur.old × Stepping width dimension degree frame.now base.old }
    ensures { NetPut width dimension degree frame.now base.old out.old out.new }
{
    for before in (0..degree).rev() {
        let i = before + 1;
        let count = numbers(dimension, i, width);
        copy(&mut *cur, base, count);
        put_row(&mut *out, &mut *work, &mut *cur, dimension, width, frame, i);
        blend_vertex(&mut *base, dimension, i, width, frame, 0);
    }
    put_row(out, work, base, dimension, width, frame, 0);
}

// ---- the net

// What is refused of polynomials and a frame before a net is made.
pub(crate) fn judge_first(head: Head, frame: &[i64; 9], coefficients: &[i64]) -> Result<(), Refusal>
    requires { 180 ≤ length coefficients.now }
    ensures { answered result ≡ first_failed (before_first (polynomials_from head.kind head.degree head.second coefficients.now) frame.now) }
{
    if !head.is_known() {
        return Err(Refusal::Kind);
    }
    if !frame_allowed(head.kind, frame) {
        return Err(Refusal::Frame);
    }
    if !entries_within(&coefficients[..head.number_count()], COEFFICIENT) {
        return Err(Refusal::Coefficient);
    }
    Ok(())
}

// Makes one group's net over its frame from the coefficients of polynomials, both in rows. The work is done in
// three rooms.
pub(crate) fn make_rows(
    out: &mut [i64],
    work: &mut [i64],
    cur: &mut [i64],
    base: &mut [i64],
    dimension: usize,
    degree: u8,
    width: usize,
    frame: &[i64],
    coefficients: &[i64],
)
    requires { Framing width dimension degree frame.now coefficients.now × Room width dimension degree out.old × Spare width dimension degree work.old cur.old base.old }
    ensures { out.new ≡ framed_list width dimension degree frame.now coefficients.now out.old }
{
    let all = group_scale(dimension, degree);
    let m = degree as usize;
    coordinate_numbers(&mut *base, all, dimension, m, width, coefficients);
    put_rows(out, work, cur, base, dimension, width, frame, m);
}

// The same in place: the entries of the net are put where the coefficients stood. Both in one would lend
// the same numbers twice.
pub(crate) fn make_part(
    part: &mut [i64],
    work: &mut [i64],
    cur: &mut [i64],
    base: &mut [i64],
    dimension: usize,
    degree: u8,
    frame: &[i64],
)
    requires { Framing 4 dimension degree frame.now part.old × Room 4 dimension degree part.old × Spare 4 dimension degree work.old cur.old base.old }
    ensures { part.new ≡ framed_list 4 dimension degree frame.now part.old part.old }
{
    let all = group_scale(dimension, degree);
    let m = degree as usize;
    coordinate_numbers(&mut *base, all, dimension, m, 4, part);
    put_rows(part, work, cur, base, dimension, 4, frame, m);
}

// The same in each of several parts.
pub(crate) fn make_parts(
    out: &mut [i64],
    work: &mut [i64],
    cur: &mut [i64],
    base: &mut [i64],
    parts: usize,
    dimension: usize,
    degree: u8,
    frame: &[i64],
)
    requires { PartsFramed dimension degree parts frame.now out.old × Spare 4 dimension degree work.old cur.old base.old }
    ensures { out.new ≡ in_parts (framed 4 dimension degree frame.now) (size 4 dimension degree) parts out.old }
{
    let length = numbers(dimension, degree as usize, 4);
    for k in 0..parts {
        let from = length * k;
        make_part(
            &mut out[from..from + length],
            &mut *work,
            &mut *cur,
            &mut *base,
            dimension,
            degree,
            frame,
        );
    }
}

// The same for the second group, in each part of the numbers that one entry of the first group has; where
// there is no second group nothing is done. Where there is one, the first group's frame has four numbers.
pub(crate) fn make_later(
    out: &mut [i64],
    work: &mut [i64],
    cur: &mut [i64],
    base: &mut [i64],
    head: Head,
    frame: &[i64],
)
    requires { LaterFraming head frame.now out.old work.old cur.old base.old }
    ensures { LaterFramed head frame.now out.old out.new }
{
    let later = later_dimension(head.kind);
    if later == 0 {
        return;
    }
    make_parts(
        out,
        work,
        cur,
        base,
        head.degree as usize + 1,
        later,
        head.second,
        &frame[4..9],
    );
}

// Makes the entries of the first net of accepted polynomials over an accepted frame, in the first of some
// places, and tells the largest component: they are in range where that is. The work is done in three
// rooms. The groups are gone through one after the other: the first group's polar values are the
// coefficients of the second group's polynomials.
pub(crate) fn make_entries(
    out: &mut [i64],
    work: &mut [i64],
    cur: &mut [i64],
    base: &mut [i64],
    head: Head,
    frame: &[i64],
    coefficients: &[i64],
) -> u64
    requires { FirstAsked head frame.now coefficients.now × Rooms head work.old cur.old base.old out.old }
    ensures made { out.new ≡ put_at 0 (first_net (polynomials_from head.kind head.degree head.second coefficients.now) frame.now).entries out.old }
    ensures largest { result ≡ largest_of (first_net (polynomials_from head.kind head.degree head.second coefficients.now) frame.now).entries }
{
    make_rows(
        &mut *out,
        &mut *work,
        &mut *cur,
        &mut *base,
        dimension_of(head.kind),
        head.degree,
        head.later_count(),
        frame,
        coefficients,
    );
    make_later(&mut *out, work, cur, base, head, frame);
    entries_largest(&out[..head.number_count()])
}
