// The frame of a net. Its numbers stand in the places from 3 on: group after group and vertex after vertex, as many
// numbers for each vertex as its group has vertices. What is refused of it, and what a move does to it.
ghost use Rattle.std.specs.Prelude.{◌≡◌, ℕ, ◌+◌, ◌*◌, ◌≤◌, [], ◌∷◌, nat_abs, length, take, drop};
ghost use Rattle.integers.specs.Test.{all};
ghost use Rattle.projection.specs.Projection.{in_range};
ghost use Rattle.kinds.specs.Kinds.{groups_of, dimension_of};
ghost use Rattle.kinds.specs.Frames.{vertex_count, frame_count};
ghost use Rattle.machine.specs.Calls.{weight_list};
ghost use Rattle.machine.specs.Lent.{put_at};
ghost use Rattle.nets.specs.Frames.{
  Small,
  Blends,
  OwnVertex,
  of_two,
  of_three,
  NewVertex,
  point_at,
  new_weights,
  new_vertex,
  padded,
};

use crate::FRAME;
use crate::rows::{LIMIT, four_within, mix};
use integers::is_within;
use kinds::{dimension_of, later_dimension};
use machine::Weights;

// ---- refusals

// Whether the four numbers from a place on are within the limit.
fn four_in_range(net: &[i64], at: usize) -> bool
    requires { at + 4 ≤ length net.now }
    ensures { result ≡ all in_range (take 4 (drop at net.now)) }
{
    four_within(net[at], net[at + 1], net[at + 2], net[at + 3], LIMIT)
}

// Whether every number of the frame is within the limit: a curve has four of them, a rectangular patch
// eight and a patch nine. It is asked with every call, and one after the other takes less time than a loop.
pub(crate) fn frame_within(net: &[i64], kind: u8) -> bool
    requires { (12 ≤ length net.now) × (1 ≤ dimension_of kind) }
    ensures { (p q : ℕ) → result ≡ all in_range (take (frame_count (groups_of kind p q)) (drop 3 net.now)) }
{
    four_in_range(net, FRAME)
        && (kind == 1
            || four_in_range(net, FRAME + 4) && (kind == 3 || is_within(net[FRAME + 8], LIMIT)))
}

// The numbers of a vertex; the third of two is 0.
#[derive(Clone, Copy)]
pub(crate) struct Vertex {
    pub(crate) first: i64,
    pub(crate) second: i64,
    pub(crate) third: i64,
}

impl Vertex {
    // Whether they are within the limit.
    pub(crate) fn is_within(self) -> bool
        ensures { result ≡ all in_range (self.first ∷ self.second ∷ self.third ∷ []) }
    {
        four_within(self.first, self.second, self.third, 0, LIMIT)
    }
}

// ---- the place of a vertex

// A vertex in its group: where the group's frame begins in the places of the net, how many vertices the group has,
// and which of them it is, counted from 0.
#[derive(Clone, Copy)]
pub(crate) struct Own {
    pub(crate) start: usize,
    pub(crate) count: usize,
    pub(crate) index: usize,
}

// A vertex that is counted from 1 through the groups. Where there is a second group, the first has two vertices.
pub(crate) fn own_vertex(kind: u8, vertex: u8) -> Own
    requires { (1 ≤ vertex) × (1 ≤ dimension_of kind) × ((p q : ℕ) → vertex ≤ vertex_count (groups_of kind p q)) }
    ensures { (p q : ℕ) → OwnVertex (groups_of kind p q) vertex result.start result.count result.index }
{
    let v = vertex as usize - 1;
    let n = dimension_of(kind);
    if v <= n {
        return Own {
            start: FRAME,
            count: n + 1,
            index: v,
        };
    }
    Own {
        start: FRAME + 4,
        count: later_dimension(kind) + 1,
        index: v - 2,
    }
}

// ---- the new vertex

// A number of the point that the weights name in a group of two vertices; that of the first stands at `at`.
fn of_two(net: &[i64], at: usize, r: i64, s: i64) -> i64
    requires { (at + 3 ≤ length net.now) × (nat_abs r + nat_abs s ≤ 12288) × Small net.now at × Small net.now (at + 2) }
    ensures { result ≡ of_two net.now r s at }
{
    mix(r, net[at], s, net[at + 2], 0, 0)
}

// The same in a group of three: another place for each vertex, and one weight more.
fn of_three(net: &[i64], at: usize, r: i64, s: i64, t: i64) -> i64
    requires { (at + 7 ≤ length net.now) × (nat_abs r + nat_abs s + nat_abs t ≤ 12288) × Small net.now at × Small net.now (at + 3) × Small net.now (at + 6) }
    ensures { result ≡ of_three net.now r s t at }
{
    mix(r, net[at], s, net[at + 3], t, net[at + 6])
}

// The point q that the weights name in a group of two or three vertices.
fn point_at(net: &[i64], own: Own, weights: Weights) -> Vertex
    requires { Blends net.now own.start own.count weights }
    ensures { result.first ∷ result.second ∷ result.third ∷ [] ≡ padded (point_at own.start own.count (weight_list weights) net.now) }
{
    let Own { start, count, .. } = own;
    let Weights { r, s, t, .. } = weights;
    if count == 2 {
        return Vertex {
            first: of_two(net, start, r, s),
            second: of_two(net, start + 1, r, s),
            third: 0,
        };
    }
    Vertex {
        first: of_three(net, start, r, s, t),
        second: of_three(net, start + 1, r, s, t),
        third: of_three(net, start + 2, r, s, t),
    }
}

// The weights that name what a move puts in a vertex's place: those of a replace, and for a flip -1 of the vertex
// alone, which names its negative.
fn new_weights(operation: u8, index: usize, weights: Weights) -> Weights
    requires { index ≤ 2 }
    ensures { weight_list result ≡ new_weights operation index weights }
{
    if operation == 1 {
        return weights;
    }
    let none = Weights {
        r: 0,
        s: 0,
        t: 0,
        u: 0,
    };
    match index {
        0 => Weights { r: -1, ..none },
        1 => Weights { s: -1, ..none },
        _ => Weights { t: -1, ..none },
    }
}

// What a replace or a flip puts in a vertex's place.
pub(crate) fn new_vertex(net: &[i64], own: Own, operation: u8, weights: Weights) -> Vertex
    requires { NewVertex net.now own.start own.count own.index weights }
    ensures { result.first ∷ result.second ∷ result.third ∷ [] ≡ padded (new_vertex own.start own.count own.index operation weights net.now) }
{
    point_at(net, own, new_weights(operation, own.index, weights))
}

// Puts a vertex's numbers into their places.
pub(crate) fn put_vertex(net: &mut [i64], own: Own, vertex: Vertex)
    requires { (2 ≤ own.count) × (own.count ≤ 3) × (own.start + own.count * own.index + own.count ≤ length net.old) }
    ensures { net.new ≡ put_at (own.start + own.count * own.index) (take own.count (vertex.first ∷ vertex.second ∷ vertex.third ∷ [])) net.old }
{
    let at = own.start + own.count * own.index;
    net[at] = vertex.first;
    net[at + 1] = vertex.second;
    if own.count == 2 {
        return;
    }
    net[at + 2] = vertex.third;
}
