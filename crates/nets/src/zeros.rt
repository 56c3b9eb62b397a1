// The numbers projected: a point's own or, where these are four zeros on a curve, what is left there: the
// first of the polar values with more and more copies of the other vertex that is not four zeros. They stand
// in the net with one vertex replaced by q.
ghost use Rattle.std.specs.Prelude.{◌≡◌, [], ◌∷◌, ◌+◌, ◌*◌, ◌≤◌, length};
ghost use Rattle.projection.specs.Projection.{four_numbers, is_four_zeros};
ghost use Rattle.machine.specs.Lent.{put_at};
ghost use Rattle.machine.specs.Carried.{four_at};
ghost use Rattle.nets.specs.Zeros.{
  replaced_vertex,
  value_place,
  places_projected,
  line_projected,
  LineAsked,
  ProjectedAsked,
  projected_put,
};

use crate::four_at;
use crate::rows::copy;
use crate::sides::descend_line;
use kinds::Head;
use machine::Weights;

// Whether four numbers that stand one after the other are all 0.
fn zeros_at(numbers: &[i64], at: usize) -> bool
    requires { at + 4 ≤ length numbers.now }
    ensures { result ≡ is_four_zeros (four_at at numbers.now) }
{
    four_at(numbers, at).is_zeros()
}

// The vertex of a line that is replaced by q: the second, or the first where q's weight of the second is 0.
fn replaced_vertex(weights: Weights) -> usize
    ensures { result ≡ replaced_vertex weights }
{
    if weights.s == 0 {
        return 0;
    }
    1
}

// Where the entry with d copies of the other vertex stands then.
fn value_place(vertex: usize, degree: usize, d: usize) -> usize
    requires { (d ≤ degree) × (degree ≤ 10) }
    ensures { result ≡ value_place vertex degree d }
{
    if vertex == 0 {
        return 4 * d;
    }
    4 * (degree - d)
}

// The place of the first of these entries, d from 1 on, that is not four zeros; where all are, the last
// one's.
#[tactic(auto, using(crate::proofs::ZeroPlaces::left_steps))]
fn first_place(room: &[i64], vertex: usize, degree: usize) -> usize
    requires { (1 ≤ degree) × (degree ≤ 10) × (4 * (degree + 1) ≤ length room.now) }
    ensures { (result + 4 ≤ 4 * (degree + 1)) × (four_at result room.now ≡ places_projected vertex degree room.now) }
{
    for d in 1..degree {
        let at = value_place(vertex, degree, d);
        if !zeros_at(room, at) {
            return at;
        }
    }
    value_place(vertex, degree, degree)
}

// Puts what is left of a line at a common zero behind a point's numbers. In a room one vertex is replaced by
// q in a copy of the entries; nothing is out of range, for the point has passed the test of its size.
fn put_at_zero(
    room: &mut [i64],
    entries: &[i64],
    degree: usize,
    weights: Weights,
    found: &mut [i64],
)
    requires { LineAsked degree weights entries.now room.old × (8 ≤ length found.old) }
    ensures { found.new ≡ put_at 4 (four_numbers (line_projected degree weights entries.now)) found.old }
{
    let vertex = replaced_vertex(weights);
    copy(&mut *room, entries, 4 * (degree + 1));
    descend_line(&mut *room, vertex, degree, 4, weights);
    let at = first_place(room, vertex, degree);
    found[4..8].copy_from_slice(&room[at..at + 4]);
}

// Puts the numbers projected behind a point's: the point's own or, where they are four zeros on a curve, what
// is left. The work is done in a room.
pub(crate) fn put_projected(
    room: &mut [i64],
    entries: &[i64],
    head: Head,
    weights: Weights,
    found: &mut [i64],
)
    requires { ProjectedAsked head.kind head.degree weights entries.now room.old found.old }
    ensures { found.new ≡ projected_put head.kind head.degree weights entries.now found.old }
{
    if head.kind != 1 || !zeros_at(found, 0) {
        found.copy_within(0..4, 4);
        return;
    }
    put_at_zero(room, entries, head.degree as usize, weights, found);
}
