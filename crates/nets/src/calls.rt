// Calls on a net: what is refused of them for its entries and their arguments, and what they do to its entries. The
// functions here get the part of the lent places that holds the entries, beside kind and degrees.
ghost use Rattle.std.specs.Prelude.{◌≡◌, ℕ, ◌*◌, ◌≤◌, [], ◌∷◌, pos, length, get_or};
ghost use Rattle.integers.specs.Test.{all};
ghost use Rattle.projection.specs.Projection.{is_zero};
ghost use Rattle.entries.specs.Rows.{size};
ghost use Rattle.kinds.specs.Kinds.{group, groups_of, dimension_of};
ghost use Rattle.kinds.specs.Heads.{head_groups};
ghost use Rattle.entries.specs.Entries.{number_count};
ghost use Rattle.machine.specs.Refusals.{◌else◌, first_failed};
ghost use Rattle.machine.specs.Numbers.{answered};
ghost use Rattle.machine.specs.Calls.{weight_list, own_tests};
ghost use Rattle.machine.specs.Nets.{handed_tests};
ghost use Rattle.nets.specs.Levels.{Descends, Replaces, ReplacedInPlace};
ghost use Rattle.nets.specs.Flips.{flipped_list};
ghost use Rattle.nets.specs.Parts.{
  in_parts,
  PartsReplaced,
  ReplacesParts,
  AllOrNone,
  PartsFlipped,
};
ghost use Rattle.nets.specs.Calls.{
  net_from,
  weights_fit,
  InOrder,
  Stepped,
  FirstDescends,
  FirstDescended,
  later_weights,
  LaterDescends,
  LaterDescended,
  Pointed,
};

use crate::flips::flip_entries;
use crate::levels::descend;
use crate::rows::{FEW, LIMIT, PLACES, SOME, copy, entries_within, four_within, numbers};
use crate::sides::{descend_line, descend_triangle};
use crate::zeros::put_projected;
use integers::is_within;
use kinds::{Head, dimension_of, later_dimension};
use machine::{Call, Refusal, Weights};

// The largest absolute value of a weight.
const WEIGHT: u64 = 4096;

// ---- weights

// Whether every weight is within its limit and those that no vertex has are 0.
fn weights_fit(weights: Weights, dimension: usize) -> bool
    requires { (1 ≤ dimension) × (dimension ≤ 2) }
    ensures { result ≡ weights_fit dimension (weight_list weights) }
{
    if !is_within(weights.r, WEIGHT) || !is_within(weights.s, WEIGHT) || weights.u != 0 {
        return false;
    }
    if dimension == 1 {
        return weights.t == 0;
    }
    is_within(weights.t, WEIGHT)
}

// The weight of a vertex, counted from 0.
fn weight_at(weights: Weights, v: usize) -> i64
    ensures { result ≡ get_or (weight_list weights) v (pos 0) }
{
    match v {
        0 => weights.r,
        1 => weights.s,
        2 => weights.t,
        3 => weights.u,
        _ => 0,
    }
}

// Whether all weights are 0.
fn all_zero(weights: Weights) -> bool
    ensures { result ≡ all is_zero (weight_list weights) }
{
    weights.r == 0 && weights.s == 0 && weights.t == 0 && weights.u == 0
}

// ---- refusals
//
// With `inline` the compiler is told to put a judgement where it is asked, with every call.

// What is refused of a move for its own arguments, on a net of one group of any degree.
fn judge_move(dimension: usize, operation: u8, vertex: u8, weights: Weights) -> Result<(), Refusal>
    requires { (1 ≤ dimension) × (dimension ≤ 2) }
    ensures { (m : ℕ) → answered result ≡ first_failed (own_tests (group dimension m ∷ []) (Call.Move operation vertex weights)) }
{
    if vertex == 0 {
        return Err(Refusal::Argument);
    }
    let v = vertex as usize - 1;
    if dimension < v {
        return Err(Refusal::Argument);
    }
    if !weights_fit(weights, dimension) {
        return Err(Refusal::Argument);
    }
    match operation {
        1 if weight_at(weights, v) == 0 => Err(Refusal::NoWeight),
        1 => Ok(()),
        2 if all_zero(weights) => Ok(()),
        _ => Err(Refusal::Argument),
    }
}

// What is refused of a point for its own weights, on a net of one group of any degree.
fn judge_point(dimension: usize, weights: Weights) -> Result<(), Refusal>
    requires { (1 ≤ dimension) × (dimension ≤ 2) }
    ensures { (m : ℕ) → answered result ≡ first_failed (own_tests (group dimension m ∷ []) (Call.Point weights)) }
{
    if !weights_fit(weights, dimension) {
        return Err(Refusal::Argument);
    }
    if all_zero(weights) {
        return Err(Refusal::NoWeight);
    }
    Ok(())
}

// What is refused of a move for its own arguments: it is judged in the group of its vertex. Where there is a
// second group, the first has two vertices.
#[inline]
pub(crate) fn judge_vertex(
    kind: u8,
    operation: u8,
    vertex: u8,
    weights: Weights,
) -> Result<(), Refusal>
    requires { 1 ≤ dimension_of kind }
    ensures { (p q : ℕ) → answered result ≡ first_failed (own_tests (groups_of kind p q) (Call.Move operation vertex weights)) }
{
    let later = later_dimension(kind);
    if later == 0 || vertex <= 2 {
        return judge_move(dimension_of(kind), operation, vertex, weights);
    }
    judge_move(later, operation, vertex - 2, weights)
}

// Whether two numbers are both 0.
fn both_zero(a: i64, b: i64) -> bool
    ensures { result ≡ all is_zero (a ∷ b ∷ []) }
{
    a == 0 && b == 0
}

// What is refused of a point for its own weights, on a net of two groups of two vertices.
fn judge_pairs(weights: Weights) -> Result<(), Refusal>
    ensures { (p q : ℕ) → answered result ≡ first_failed (own_tests (group 1 p ∷ group 1 q ∷ []) (Call.Point weights)) }
{
    if !four_within(weights.r, weights.s, weights.t, weights.u, WEIGHT) {
        return Err(Refusal::Argument);
    }
    if both_zero(weights.r, weights.s) {
        return Err(Refusal::NoWeight);
    }
    if both_zero(weights.t, weights.u) {
        return Err(Refusal::NoWeight);
    }
    Ok(())
}

// What is refused of a point for its own weights.
#[inline]
pub(crate) fn judge_weights(kind: u8, weights: Weights) -> Result<(), Refusal>
    requires { 1 ≤ dimension_of kind }
    ensures { (p q : ℕ) → answered result ≡ first_failed (own_tests (groups_of kind p q) (Call.Point weights)) }
{
    if later_dimension(kind) == 0 {
        return judge_point(dimension_of(kind), weights);
    }
    judge_pairs(weights)
}

// What is refused of a handed net before the call is looked at.
#[inline]
pub(crate) fn judge_net(entries: &[i64], head: Head) -> Result<(), Refusal>
    requires { length entries.now ≡ 180 }
    ensures { answered result ≡ first_failed (handed_tests (net_from head entries.now)) }
{
    if !head.is_known() {
        return Err(Refusal::Kind);
    }
    let count = head.number_count();
    if !entries_within(&entries[0..count], LIMIT) {
        return Err(Refusal::Range);
    }
    Ok(())
}

// ---- what calls do

// Replaces a vertex by q in place. The rows of a net with three vertices have four numbers. Where those of
// one with two vertices have four too, the compiler is told so.
fn descend_vertex(
    xs: &mut [i64],
    dimension: usize,
    vertex: usize,
    degree: usize,
    width: usize,
    weights: Weights,
) -> bool
    requires { Descends width dimension degree weights xs.old × (vertex ≤ dimension) × (dimension ≡ 2 → width ≡ 4) }
    ensures { ReplacedInPlace width dimension degree (weight_list weights) vertex xs.old result xs.new }
{
    if dimension == 2 {
        return descend_triangle(xs, vertex, degree, weights);
    }
    if width == 4 {
        return descend_line(xs, vertex, degree, 4, weights);
    }
    descend_line(xs, vertex, degree, width, weights)
}

// Replaces a vertex by q, or leaves the rows as they are where a named polar value is out of range: they are
// saved in a room of N places and put back.
fn replace_in<const N: usize>(
    entries: &mut [i64],
    dimension: usize,
    vertex: usize,
    degree: usize,
    width: usize,
    weights: Weights,
) -> bool
    requires { Descends width dimension degree weights entries.old × (vertex ≤ dimension) × (dimension ≡ 2 → width ≡ 4) × (size width dimension degree ≤ N) × (N ≤ 180) }
    ensures { Replaces width dimension degree (weight_list weights) vertex entries.old result entries.new }
{
    let mut room = [0; N];
    let count = numbers(dimension, degree, width);
    copy(&mut room, entries, count);
    if descend_vertex(
        &mut entries[0..count],
        dimension,
        vertex,
        degree,
        width,
        weights,
    ) {
        return true;
    }
    copy(entries, &room, count);
    false
}

// The same in a small room where it is enough, which takes less time to clear.
pub(crate) fn replace_entries(
    entries: &mut [i64],
    dimension: usize,
    vertex: usize,
    degree: usize,
    width: usize,
    weights: Weights,
) -> bool
    requires { Descends width dimension degree weights entries.old × (vertex ≤ dimension) × (dimension ≡ 2 → width ≡ 4) }
    ensures { Replaces width dimension degree (weight_list weights) vertex entries.old result entries.new }
{
    let count = numbers(dimension, degree, width);
    if count <= FEW {
        return replace_in::<FEW>(entries, dimension, vertex, degree, width, weights);
    }
    if count <= SOME {
        return replace_in::<SOME>(entries, dimension, vertex, degree, width, weights);
    }
    replace_in::<PLACES>(entries, dimension, vertex, degree, width, weights)
}

// Replaces a vertex of the second group, which has two, in each part of the numbers that one entry of the first group
// has, one part after the other, until a named polar value is out of range. Numbers past the parts stay. With
// `inline(never)` the compiled code has this apart from all other moves, so that its loops keep the weights in
// registers; it has no room of its own, so the stack of a move does not grow.
#[inline(never)]
pub(crate) fn replace_parts(
    entries: &mut [i64],
    parts: usize,
    vertex: usize,
    degree: usize,
    weights: Weights,
) -> bool
    requires { PartsReplaced degree vertex parts weights entries.old }
    ensures { ReplacesParts degree (weight_list weights) vertex parts entries.old result entries.new }
{
    let length = numbers(1, degree, 4);
    for k in 0..parts {
        let from = length * k;
        if !descend_line(
            &mut entries[from..from + length],
            vertex,
            degree,
            4,
            weights,
        ) {
            return false;
        }
    }
    true
}

// The same, or nothing at all where a named polar value is out of range: the numbers are saved in a room of
// N places and put back.
fn replace_saved<const N: usize>(
    entries: &mut [i64],
    parts: usize,
    vertex: usize,
    degree: usize,
    weights: Weights,
) -> bool
    requires { PartsReplaced degree vertex parts weights entries.old × (size 4 1 degree * parts ≤ N) × (N ≤ 180) }
    ensures { AllOrNone degree (weight_list weights) vertex parts entries.old result entries.new }
{
    let mut saved = [0; N];
    let count = numbers(1, degree, 4) * parts;
    copy(&mut saved, entries, count);
    if replace_parts(&mut *entries, parts, vertex, degree, weights) {
        return true;
    }
    copy(entries, &saved, count);
    false
}

// The same in a small room where it is enough.
pub(crate) fn replace_later(
    entries: &mut [i64],
    parts: usize,
    vertex: usize,
    degree: usize,
    weights: Weights,
) -> bool
    requires { PartsReplaced degree vertex parts weights entries.old }
    ensures { AllOrNone degree (weight_list weights) vertex parts entries.old result entries.new }
{
    if numbers(1, degree, 4) * parts <= FEW {
        return replace_saved::<FEW>(entries, parts, vertex, degree, weights);
    }
    replace_saved::<PLACES>(entries, parts, vertex, degree, weights)
}

// Flips a vertex of the second group in each part of the numbers that one entry of the first group has.
pub(crate) fn flip_parts(
    entries: &mut [i64],
    parts: usize,
    dimension: usize,
    vertex: usize,
    degree: usize,
)
    requires { PartsFlipped dimension degree vertex parts entries.old }
    ensures { entries.new ≡ in_parts (flipped_list 4 dimension degree vertex) (size 4 dimension degree) parts entries.old }
{
    let length = numbers(dimension, degree, 4);
    for k in 0..parts {
        let from = length * k;
        flip_entries(
            &mut entries[from..from + length],
            dimension,
            vertex,
            degree,
            4,
        );
    }
}

// A refusal for size, unless the polar values that a call names are all in range.
fn judge_size(in_range: bool) -> Result<(), Refusal>
    ensures { answered result ≡ first_failed (in_range else 10 ∷ []) }
{
    if in_range {
        Ok(())
    } else {
        Err(Refusal::Range)
    }
}

// What a replace that is not refused for its own arguments does: the vertex is replaced, unless its size
// refuses it. Seen from the first group, a net has a row of the later groups' numbers for each entry. Where
// there is a second group, both have two vertices.
pub(crate) fn replace_vertex(
    entries: &mut [i64],
    head: Head,
    operation: u8,
    vertex: u8,
    weights: Weights,
) -> Result<(), Refusal>
    requires { InOrder head entries.old (Call.Move operation vertex weights) × (operation ≡ 1) }
    ensures { Stepped (net_from head entries.old) (Call.Move operation vertex weights) (answered result) entries.old entries.new }
{
    let n = dimension_of(head.kind);
    let m = head.degree as usize;
    let v = vertex as usize - 1;
    if v <= n {
        let width = head.later_count();
        return judge_size(replace_entries(entries, n, v, m, width, weights));
    }
    judge_size(replace_later(entries, m + 1, v - 2, head.second as usize, weights))
}

// What a flip that is not refused for its own arguments does.
pub(crate) fn flip_vertex(
    entries: &mut [i64],
    head: Head,
    operation: u8,
    vertex: u8,
    weights: Weights,
)
    requires { InOrder head entries.old (Call.Move operation vertex weights) × (operation ≡ 1 → ⊥) }
    ensures { Stepped (net_from head entries.old) (Call.Move operation vertex weights) 0 entries.old entries.new }
{
    let n = dimension_of(head.kind);
    let m = head.degree as usize;
    let v = vertex as usize - 1;
    if v <= n {
        flip_entries(entries, n, v, m, head.later_count());
        return;
    }
    flip_parts(
        entries,
        m + 1,
        later_dimension(head.kind),
        v - 2,
        head.second as usize,
    );
}

// What a move that is not refused for its own arguments does: it is made, unless its size refuses it.
pub(crate) fn make_move(
    entries: &mut [i64],
    head: Head,
    operation: u8,
    vertex: u8,
    weights: Weights,
) -> Result<(), Refusal>
    requires { InOrder head entries.old (Call.Move operation vertex weights) }
    ensures { Stepped (net_from head entries.old) (Call.Move operation vertex weights) (answered result) entries.old entries.new }
{
    if operation == 1 {
        return replace_vertex(entries, head, operation, vertex, weights);
    }
    flip_vertex(entries, head, operation, vertex, weights);
    Ok(())
}

// The weights of the second of two groups of two vertices.
fn later_weights(weights: Weights) -> Weights
    ensures { weight_list result ≡ later_weights weights }
{
    Weights {
        r: weights.t,
        s: weights.u,
        t: 0,
        u: 0,
    }
}

// Goes down the first group's levels in place. Without a second group the rows have four numbers, and the
// compiler is told so; it is to put this where it is called.
#[inline]
pub(crate) fn descend_first(cur: &mut [i64], head: Head, weights: Weights) -> bool
    requires { FirstDescends head weights cur.old }
    ensures { FirstDescended head weights cur.old result cur.new }
{
    let n = dimension_of(head.kind);
    let m = head.degree as usize;
    if later_dimension(head.kind) == 0 {
        return descend(cur, n, m, 4, weights);
    }
    descend(cur, n, m, head.later_count(), weights)
}

// Goes down the second group's levels in place, on the row that the first group's levels left; where there
// is no second group nothing is done.
fn descend_later(cur: &mut [i64], head: Head, weights: Weights) -> bool
    requires { LaterDescends head weights cur.old }
    ensures { LaterDescended head weights cur.old result cur.new }
{
    let later = later_dimension(head.kind);
    if later == 0 {
        return true;
    }
    descend(cur, later, head.second as usize, 4, later_weights(weights))
}

// The point that weights name which are not refused: the first group's levels, and then the second group's
// on the one row that they leave. Its four numbers go into `found`, and the numbers projected, unless its
// size refuses it. The work is done in a room of N places, on a copy of the entries.
pub(crate) fn point_in<const N: usize>(
    entries: &[i64],
    head: Head,
    weights: Weights,
    found: &mut [i64],
) -> Result<(), Refusal>
    requires { InOrder head entries.now (Call.Point weights) × (8 ≤ length found.old) × (number_count (head_groups head) ≤ N) × (N ≤ 180) }
    ensures { Pointed (net_from head entries.now) (Call.Point weights) (answered result) found.old found.new }
{
    let mut cur = [0; N];
    copy(&mut cur, entries, head.number_count());
    judge_size(descend_first(&mut cur, head, weights))?;
    judge_size(descend_later(&mut cur, head, weights))?;
    copy(&mut *found, &cur, 4);
    put_projected(&mut cur, entries, head, weights, found);
    Ok(())
}

// The same in a small room where it is enough.
pub(crate) fn make_point(
    entries: &[i64],
    head: Head,
    weights: Weights,
    found: &mut [i64],
) -> Result<(), Refusal>
    requires { InOrder head entries.now (Call.Point weights) × (8 ≤ length found.old) }
    ensures { Pointed (net_from head entries.now) (Call.Point weights) (answered result) found.old found.new }
{
    if head.number_count() <= FEW {
        return point_in::<FEW>(entries, head, weights, found);
    }
    point_in::<PLACES>(entries, head, weights, found)
}
