// A record opened: its first net, in places that the caller lends, and its fields, or the refusal with its
// offset. This is where demand 3 starts: specs/Demand3.antt states it from the bytes of an accepted record
// on.
#![tactic(auto)]

ghost use Rattle.std.specs.Prelude.{◌≡◌, true};
ghost use Rattle.kinds.specs.Kinds.{known};
ghost use Rattle.machine.specs.Lent.{enough_places};
ghost use Rattle.machine.specs.Numbers.{answered};
ghost use Rattle.decoding.specs.Parts.{Lies};
ghost use Rattle.records.specs.Reading.{bytes_of, Inside};
ghost use Rattle.opening.specs.Opening.{
  field_extent,
  opened_told,
  opened_in,
  places_in,
  FirstMade,
};

use decoding::{frame_numbers, part_from, read_coefficients};
use machine::Refusal;
use nets::{NET, first_net};
use records::{Extent, Layout, RefusedAt, extent_of, no_fields, read, value};

// How many coefficients there are at most.
const COEFFICIENTS: usize = 180;

// Makes the first net of a record with this layout. The coefficient reader gets the part of the record that
// begins with field 3's value.
fn make_first(input: &[u8], layout: Layout, net: &mut [i64]) -> Result<(), Refusal>
    requires { (enough_places net.old ≡ true)
        × (known layout.said.kind layout.said.degree layout.said.second ≡ true) }
    ensures { FirstMade layout input.now net.old (answered result) net.new }
{
    let head = layout.said;
    let frame = frame_numbers(value(input, layout.frame));
    let start = layout.coefficients.start;
    let count = head.number_count();
    let mut coefficients = [0i64; COEFFICIENTS];
    read_coefficients(part_from(input, start), &mut coefficients[0..count]);
    first_net(net, head, &frame, &coefficients)
}

// Opens a record: any bytes at all give a first net, and where the record's fields stand, or a refusal. A
// refusal leaves the lent places as they were.
#[tactic(auto, unfolding(crate::specs::Opening::opened_in, crate::specs::Opening::places_in))]
pub fn open(input: &[u8], net: &mut [i64]) -> Result<Layout, RefusedAt>
    ensures opened { opened_told input.now result ≡ opened_in input.now net.old }
    ensures places { net.new ≡ places_in input.now net.old }
{
    if net.len() < NET {
        return Err(RefusedAt {
            refusal: Refusal::Short,
            offset: 0,
        });
    }
    let layout = read(input)?;
    make_first(input, layout, net).map_err(|refusal| RefusedAt {
        refusal,
        offset: layout.coefficients.field,
    })?;
    Ok(layout)
}

// Where the value of the field with the tag stands: nothing, after the last byte, where the record has no
// such field or is refused, or where the number is no tag. The record is opened for it; `open` hands back
// where all fields stand.
pub fn field_extent(input: &[u8], tag: u8) -> Extent
    ensures extent { result ≡ field_extent input.now tag }
    ensures inside { Inside input.now result }
{
    let mut net = [0i64; NET];
    let layout = open(input, &mut net).unwrap_or(no_fields(input));
    extent_of(layout, input, tag)
}

// The value of a field, a slice of the record: it begins at the extent's start, where it lies in the
// record, and is as long as the extent says.
pub fn field(input: &[u8], tag: u8) -> &[u8]
    ensures bytes { result.now ≡ bytes_of (field_extent input.now tag) input.now }
    ensures place { Lies result.ref_ptr input.entry.ref_ptr (field_extent input.now tag).start }
{
    value(input, field_extent(input, tag))
}
