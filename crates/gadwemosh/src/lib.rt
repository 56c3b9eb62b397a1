// The library for callers in C and Rust: eight functions under plain names, each over one of the
// library's own. A net is lent as 193 numbers or more, as specs/Lent.antt of the crate machine lays them
// out. specs/Demand3.antt carries demand 3 to these functions. The crate gadwemosh_c puts them into the static
// library, by the same names and with the same clauses.
#![tactic(auto)]

mod answers;
mod positions;

ghost use Rattle.std.specs.Prelude.{◌≡◌, []};
ghost use Rattle.projection.specs.Projection.{four, projection_of};
ghost use Rattle.machine.specs.Lent.{
  made_number,
  made_places,
  call_number,
  call_places,
  call_found,
};
ghost use Rattle.opening.specs.Opening.{refusal_in, field_extent, opened_in, places_in};
ghost use Rattle.text.specs.Text.{text_of, written_of, written_number, written_bytes, buffer_of};
ghost use Rattle.gadwemosh.specs.Calls.{move_call, point_call};
ghost use Rattle.gadwemosh.specs.Projections.{projection_returned, found_returned, AccuratePatterns, AccurateFound};

use crate::answers::{answered, return_projection};
use kinds::Head;
use machine::{Refusal, Weights};
use nets::{NET, find_point, first_net, project_point, take_move};
use opening::open;
use projection::{Four, project};
use records::{extent_of, no_fields};
use text::write_text;

// Opens a record: its first net goes into the lent places, or nothing does, and `offset` is that of the
// refusal.
#[unsafe(no_mangle)]
pub extern "C" fn gadwemosh_open(input: &[u8], net: &mut [i64], offset: &mut u64) -> u8
    ensures number { result ≡ (opened_in input.now net.old).refusal.number }
    ensures offset { offset.new ≡ (opened_in input.now net.old).refusal.offset }
    ensures net { net.new ≡ places_in input.now net.old }
{
    match open(input, net) {
        Ok(_) => {
            *offset = 0;
            0
        }
        Err(refused) => {
            *offset = refused.offset as u64;
            u8::from(refused.refusal)
        }
    }
}

// Where the value of a record's field stands: its offset and its length. Nothing, after the last byte,
// stands where the record has no such field or is refused, or where the number is no tag. The answer is the
// record's refusal, as `gadwemosh_open` has it with places enough.
#[unsafe(no_mangle)]
pub extern "C" fn gadwemosh_field(input: &[u8], tag: u8, start: &mut u64, length: &mut u64) -> u8
    ensures number { result ≡ (refusal_in input.now).number }
    ensures start { start.new ≡ (field_extent input.now tag).start }
    ensures length { length.new ≡ (field_extent input.now tag).length }
{
    let mut net = [0i64; NET];
    let opened = open(input, &mut net);
    let layout = opened.unwrap_or(no_fields(input));
    let extent = extent_of(layout, input, tag);
    *start = extent.start as u64;
    *length = extent.length as u64;
    match opened {
        Ok(_) => 0,
        Err(answer) => u8::from(answer.refusal),
    }
}

// Makes the first net of polynomials over a frame, without a record: nine numbers of a frame, of which a
// curve takes four and a rectangular patch eight, and 180 coefficients, of which kind and degrees take the
// first ones. Only a rectangular patch has a second degree; that of the others is 0.
#[unsafe(no_mangle)]
pub extern "C" fn gadwemosh_first(
    kind: u8,
    degree: u8,
    second: u8,
    frame: &[i64],
    coefficients: &[i64],
    net: &mut [i64],
) -> u8
    ensures number { result ≡ made_number kind degree second frame.now coefficients.now net.old }
    ensures net { net.new ≡ made_places kind degree second frame.now coefficients.now net.old }
{
    let head = Head {
        kind,
        degree,
        second,
    };
    answered(first_net(net, head, frame, coefficients))
}

// Makes a move on a lent net; a refused one leaves every place as it was.
#[unsafe(no_mangle)]
pub extern "C" fn gadwemosh_move(
    net: &mut [i64],
    operation: u8,
    vertex: u8,
    r: i64,
    s: i64,
    t: i64,
    u: i64,
) -> u8
    ensures number { result ≡ call_number (move_call operation vertex r s t u) net.old [] }
    ensures net { net.new ≡ call_places (move_call operation vertex r s t u) net.old [] }
{
    answered(take_move(net, operation, vertex, Weights { r, s, t, u }))
}

// Finds a point on a lent net: x, y, z and w go into the first four places of `found`, and the numbers
// projected into the four behind them.
#[unsafe(no_mangle)]
pub extern "C" fn gadwemosh_point(
    net: &[i64],
    r: i64,
    s: i64,
    t: i64,
    u: i64,
    found: &mut [i64],
) -> u8
    ensures number { result ≡ call_number (point_call r s t u) net.now found.old }
    ensures found { found.new ≡ call_found (point_call r s t u) net.now found.old }
{
    answered(find_point(net, Weights { r, s, t, u }, found))
}

// Projects four numbers: `outcome` is 1 for a finite point, whose three bit patterns go into `bits`, 2 for a
// direction, whose three numbers go into `direction` with its length behind them, and 3 for nowhere. A refusal
// has outcome 0. What is not written stays.
#[unsafe(no_mangle)]
pub extern "C" fn gadwemosh_project(
    x: i64,
    y: i64,
    z: i64,
    w: i64,
    outcome: &mut u8,
    bits: &mut [u64],
    direction: &mut [i64],
) -> u8
    ensures number { result ≡ (projection_returned (projection_of x y z w) bits.old direction.old).number }
    ensures outcome { outcome.new ≡ (projection_returned (projection_of x y z w) bits.old direction.old).outcome }
    ensures bits { bits.new ≡ (projection_returned (projection_of x y z w) bits.old direction.old).bits }
    ensures direction { direction.new ≡ (projection_returned (projection_of x y z w) bits.old direction.old).direction }
    ensures accurate { AccuratePatterns (four x y z w) outcome.new bits.new }
{
    let projection = project(Four { x, y, z, w });
    answered(return_projection(outcome, bits, direction, projection))
}

// Projects what `gadwemosh_point` found, by its eight numbers: as `gadwemosh_project` does the second four,
// but a direction has length 1 where the first four are zeros.
#[unsafe(no_mangle)]
pub extern "C" fn gadwemosh_project_found(
    found: &[i64],
    outcome: &mut u8,
    bits: &mut [u64],
    direction: &mut [i64],
) -> u8
    ensures number { result ≡ (found_returned found.now bits.old direction.old).number }
    ensures outcome { outcome.new ≡ (found_returned found.now bits.old direction.old).outcome }
    ensures bits { bits.new ≡ (found_returned found.now bits.old direction.old).bits }
    ensures direction { direction.new ≡ (found_returned found.now bits.old direction.old).direction }
    ensures accurate { AccurateFound found.now outcome.new bits.new }
{
    let few = found.len() < 8;
    if few {
        *outcome = 0;
        return u8::from(Refusal::Short);
    }
    let projection = project_point(found);
    answered(return_projection(outcome, bits, direction, projection))
}

// Writes the text of a record; `length` is how many bytes it has, and 0 where the buffer is too short.
#[unsafe(no_mangle)]
pub extern "C" fn gadwemosh_text(input: &[u8], out: &mut [u8], length: &mut u64) -> u8
    ensures number { result ≡ written_number (written_of (text_of input.now) out.old) }
    ensures length { length.new ≡ written_bytes (written_of (text_of input.now) out.old) }
    ensures buffer { out.new ≡ buffer_of (text_of input.now) out.old }
{
    match write_text(input, out) {
        Ok(n) => {
            *length = n as u64;
            0
        }
        Err(refusal) => {
            *length = 0;
            u8::from(refusal)
        }
    }
}
