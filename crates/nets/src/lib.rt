// First nets and calls on nets, which stand in places that the caller lends: 193 numbers or more, as
// specs/Lent.antt of the crate machine lays them out. Any numbers whatever are taken. What a call answers
// and leaves is the step that the theorem of demand 3 is about.
#![tactic(auto)]

mod calls;
mod coordinates;
mod first;
mod flips;
mod frames;
mod levels;
mod rows;
mod sides;
mod zeros;

ghost use Rattle.std.specs.Prelude.{◌≡◌, [], ◌∷◌, ◌+◌, ◌^◌, ◌<◌, ◌≤◌, pos, length, get_or};
ghost use Rattle.projection.specs.Projection.{found_projection};
ghost use Rattle.projection.specs.Accuracy.{AccuratePoint};
ghost use Rattle.machine.specs.Carried.{four_at};
ghost use Rattle.machine.specs.Lent.{
  byte_of,
  head_at,
  put_at,
  polynomials_from,
  made_number,
  made_places,
  call_number,
  call_places,
  call_found,
};
ghost use Rattle.machine.specs.Numbers.{answered};
ghost use Rattle.entries.specs.Entries.{number_count};
ghost use Rattle.kinds.specs.Heads.{head_groups};
ghost use Rattle.nets.specs.Calls.{
  net_in,
  MoveAsked,
  Moved,
  net_with,
  FirstAsked,
  Stores,
  Stored,
  FirstStored,
  MovedEntries,
  largest_in,
};

use crate::calls::{judge_net, judge_vertex, judge_weights, make_move, make_point};
use crate::first::{judge_first, make_entries};
use crate::frames::{frame_within, new_vertex, own_vertex, put_vertex};
use crate::rows::{FEW, LIMIT, PLACES, copy, entries_largest};
use kinds::{Head, frame_count};
use machine::{Call, Refusal, Weights};
use projection::{Four, Projection, project_found};

// How many places a net has: kind and degrees, nine for a frame, the entries, and one for the largest
// component.
pub const NET: usize = 193;

// Where the frame begins, and where the entries begin and end; the largest component stands behind them.
pub const FRAME: usize = 3;

pub const ENTRIES: usize = 12;

const END: usize = 192;

// A number as a byte; 255 where it is none, which is no kind and no degree. It is asked three times with every
// call: `u8::try_from` takes twice as many instructions, and a range's `contains` three more than this `match`.
fn byte_of(v: i64) -> u8
    ensures { result ≡ byte_of v }
{
    match v {
        0..=255 => v as u8,
        _ => 255,
    }
}

// The head of the net in lent places: kind and degrees from the first three. A place that is not there counts as
// 0.
pub fn head_at(net: &[i64]) -> Head
    ensures { result ≡ head_at net.now }
{
    Head {
        kind: byte_of(number_at(net, 0)),
        degree: byte_of(number_at(net, 1)),
        second: byte_of(number_at(net, 2)),
    }
}

// Puts kind and degrees into the first three places.
fn put_head(net: &mut [i64], head: Head)
    requires { 3 ≤ length net.old }
    ensures { net.new ≡ put_at 0 (pos head.kind ∷ pos head.degree ∷ pos head.second ∷ []) net.old }
{
    net[0] = i64::from(head.kind);
    net[1] = i64::from(head.degree);
    net[2] = i64::from(head.second);
}

// Puts the largest component behind the entries.
fn put_largest(net: &mut [i64], largest: u64)
    requires { (193 ≤ length net.old) × (largest ≤ 281474976710656) }
    ensures { net.new ≡ put_at 192 (pos largest ∷ []) net.old }
{
    net[END] = largest as i64;
}

// Stores a net, unless its largest component is out of range.
fn store(
    net: &mut [i64],
    largest: u64,
    head: Head,
    frame: &[i64],
    entries: &[i64],
) -> Result<(), Refusal>
    requires { Stores head largest net.old frame.now entries.now }
    ensures { Stored (net_with head frame.now entries.now) net.old (answered result) net.new }
{
    let beyond = LIMIT < largest;
    if beyond {
        return Err(Refusal::FirstNet);
    }
    put_largest(net, largest);
    copy(&mut net[ENTRIES..END], entries, head.number_count());
    copy(&mut net[FRAME..ENTRIES], frame, frame_count(head.kind));
    put_head(net, head);
    Ok(())
}

// Makes the first net of accepted polynomials over an accepted frame in rooms of N places, and stores it.
fn make_in<const N: usize>(
    net: &mut [i64],
    head: Head,
    frame: &[i64],
    coefficients: &[i64],
) -> Result<(), Refusal>
    requires { FirstAsked head frame.now coefficients.now × (193 ≤ length net.old) × (number_count (head_groups head) ≤ N) × (N ≤ 180) }
    ensures { FirstStored (polynomials_from head.kind head.degree head.second coefficients.now) frame.now net.old (answered result) net.new }
{
    let mut entries = [0; N];
    let mut work = [0; N];
    let mut cur = [0; N];
    let mut base = [0; N];
    let largest = make_entries(
        &mut entries,
        &mut work,
        &mut cur,
        &mut base,
        head,
        frame,
        coefficients,
    );
    store(net, largest, head, frame, &entries)
}

// The same in small rooms where they are enough, which take less time to clear.
fn make_first(
    net: &mut [i64],
    head: Head,
    frame: &[i64],
    coefficients: &[i64],
) -> Result<(), Refusal>
    requires { FirstAsked head frame.now coefficients.now × (193 ≤ length net.old) }
    ensures { FirstStored (polynomials_from head.kind head.degree head.second coefficients.now) frame.now net.old (answered result) net.new }
{
    if head.number_count() <= FEW {
        return make_in::<FEW>(net, head, frame, coefficients);
    }
    make_in::<PLACES>(net, head, frame, coefficients)
}

// Makes the first net of polynomials over a frame, in places that the caller lends; or refuses, and the
// places stay as they were. The frame has nine numbers or more, of which a curve takes four, and the
// coefficients are 180 or more, of which kind and degrees take the first ones, four to a monomial.
pub fn first_net(
    net: &mut [i64],
    head: Head,
    frame: &[i64],
    coefficients: &[i64],
) -> Result<(), Refusal>
    ensures number { answered result ≡ made_number head.kind head.degree head.second frame.now coefficients.now net.old }
    ensures places { net.new ≡ made_places head.kind head.degree head.second frame.now coefficients.now net.old }
{
    let Some(corners) = frame.first_chunk::<9>() else {
        return Err(Refusal::Short);
    };
    if coefficients.len() < PLACES || net.len() < NET {
        return Err(Refusal::Short);
    }
    judge_first(head, corners, coefficients)?;
    make_first(net, head, corners, coefficients)
}

// Puts the largest component after a move: that of a replace's entries, which are in range, is worked out, and a flip
// hands on the number that stands there.
fn move_largest(net: &mut [i64], head: Head, operation: u8)
    requires { MovedEntries head operation net.old }
    ensures { net.new ≡ put_at 192 (largest_in head operation net.old ∷ []) net.old }
{
    let flips = operation != 1;
    if flips {
        return;
    }
    let count = head.number_count();
    let largest = entries_largest(&net[ENTRIES..ENTRIES + count]);
    put_largest(net, largest);
}

// Makes a move that only its q and its size may refuse. The new vertex is put in its place when the entries are
// made.
fn make_moved(
    net: &mut [i64],
    head: Head,
    operation: u8,
    vertex: u8,
    weights: Weights,
) -> Result<(), Refusal>
    requires { MoveAsked head net.old (Call.Move operation vertex weights) }
    ensures { Moved (net_in head net.old) (Call.Move operation vertex weights) (answered result) net.old net.new }
{
    let own = own_vertex(head.kind, vertex);
    let moved = new_vertex(net, own, operation, weights);
    if !moved.is_within() {
        return Err(Refusal::FrameRange);
    }
    make_move(&mut net[ENTRIES..END], head, operation, vertex, weights)?;
    move_largest(net, head, operation);
    put_vertex(net, own, moved);
    Ok(())
}

// Makes a move on a net; a refused one leaves every place as it was. The tests are in the order of the table.
pub fn take_move(
    net: &mut [i64],
    operation: u8,
    vertex: u8,
    weights: Weights,
) -> Result<(), Refusal>
    ensures number { answered result ≡ call_number (Call.Move operation vertex weights) net.old [] }
    ensures places { net.new ≡ call_places (Call.Move operation vertex weights) net.old [] }
{
    if net.len() < NET {
        return Err(Refusal::Short);
    }
    let head = head_at(net);
    judge_net(&net[ENTRIES..END], head)?;
    judge_vertex(head.kind, operation, vertex, weights)?;
    if !frame_within(net, head.kind) {
        return Err(Refusal::FrameRange);
    }
    make_moved(net, head, operation, vertex, weights)
}

// Finds a point of a net: x, y, z and w go into the first four places of `found` and the numbers projected
// into the next four, or nothing does. The tests are in the order of the table.
pub fn find_point(net: &[i64], weights: Weights, found: &mut [i64]) -> Result<(), Refusal>
    ensures number { answered result ≡ call_number (Call.Point weights) net.now found.old }
    ensures found { found.new ≡ call_found (Call.Point weights) net.now found.old }
{
    if net.len() < NET || found.len() < 8 {
        return Err(Refusal::Short);
    }
    let head = head_at(net);
    judge_net(&net[ENTRIES..END], head)?;
    judge_weights(head.kind, weights)?;
    if !frame_within(net, head.kind) {
        return Err(Refusal::FrameRange);
    }
    make_point(&net[ENTRIES..END], head, weights, found)
}

// A number among some; one that is not there counts as 0.
fn number_at(numbers: &[i64], place: usize) -> i64
    ensures { result ≡ get_or numbers.now place (pos 0) }
{
    numbers.get(place).copied().unwrap_or(0)
}

// The four numbers that stand from a place on.
fn four_at(numbers: &[i64], at: usize) -> Four
    requires { at + 3 < 2 ^ 64 }
    ensures { result ≡ four_at at numbers.now }
{
    Four {
        x: number_at(numbers, at),
        y: number_at(numbers, at + 1),
        z: number_at(numbers, at + 2),
        w: number_at(numbers, at + 3),
    }
}

// Projects the point that `find_point` found, by its eight numbers; one that is not there counts as 0.
pub fn project_point(found: &[i64]) -> Projection
    ensures answer { result ≡ found_projection (four_at 0 found.now) (four_at 4 found.now) }
    ensures accurate { AccuratePoint (four_at 4 found.now) result }
{
    project_found(four_at(found, 0), four_at(found, 4))
}
