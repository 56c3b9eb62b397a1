// The reader of records (docs/RECORDS.md, 'The bytes'). `read` says of any bytes at all whether they are a
// record, and gives its layout or the refusal with its offset; `value` gives a field's value, a slice of the
// record, by where the layout says that it stands. All of them are defined for every input. A record that the
// reader does not refuse may still be refused for its first net: the fields of any bytes are handed out by
// the crate opening.
//
// The reader goes from slot to slot, and one function takes every slot. The definitions are those of
// specs/: Table (the slots, and a row for each field: tag, lengths, tests), Reading (one slot, and then
// all) and Causes (the table of refusals as propositions). What bytes make of numbers is the crate
// decoding's, and what is accepted of a kind and a frame is kinds'.
#![tactic(auto)]

ghost use Rattle.std.specs.Prelude.{◌≡◌, true, ◌||◌, [], ◌∷◌, ◌+◌, ◌<◌, ◌≤◌, eqb, length};
ghost use Rattle.machine.specs.Refusals.{◌else◌, first_failed};
ghost use Rattle.machine.specs.Numbers.{number_of, answered};
ghost use Rattle.decoding.specs.Parts.{Lies, to_end};
ghost use Rattle.records.specs.Table.{
  slots,
  tag_of,
  required,
  head_in,
  head_allowed,
  moves_length_allowed,
  field_row,
};
ghost use Rattle.records.specs.Reading.{
  bytes_left,
  length_at,
  head_of,
  field_number,
  standing,
  missing_number,
  end_extent,
  stay,
  read_standing,
  progress_told,
  reading_told,
  reading_of,
  reading_number,
  reading_values,
  no_fields,
  extent_among,
  bytes_of,
};
ghost use Rattle.records.specs.Causes.{TableVerdict};

use decoding::{byte_at, coefficients_within, first_part, frame_numbers, part_from};
use kinds::{Head, frame_allowed, frame_count, later_dimension, vertex_count};
use machine::Refusal;

// Where a field stands: the offset of the field itself, the offset of its value, and the value's
// length. An absent field has the empty value at the record's end.
#[derive(Clone, Copy, Debug, PartialEq, Eq)]
pub struct Extent {
    pub field: usize,
    pub start: usize,
    pub length: usize,
}

// The layout of a record that the reader does not refuse: the kind and the degrees that field 1 says, and
// where what stands in each slot is. A kind of one group has the second degree 0.
#[derive(Clone, Copy, Debug, PartialEq, Eq)]
pub struct Layout {
    pub said: Head,
    pub head: Extent,
    pub frame: Extent,
    pub coefficients: Extent,
    pub moves: Extent,
    pub point: Extent,
}

// Why a record is refused, and the offset that is returned with it.
#[derive(Clone, Copy, Debug, PartialEq, Eq)]
pub struct RefusedAt {
    pub refusal: Refusal,
    pub offset: usize,
}

// The slots of a record, in their order: each may have one field, or must.
#[derive(Clone, Copy, Debug, PartialEq, Eq)]
pub enum Slot {
    KindSlot,
    FrameSlot,
    CoefficientsSlot,
    MovesSlot,
    PointSlot,
}

// The fields, each with its tag byte. Callers give a tag by its number; the definitions name it.
#[derive(Clone, Copy, Debug, PartialEq, Eq)]
pub enum Tag {
    Kind = 1,
    Frame = 2,
    Coefficients = 3,
    Moves = 4,
    Point = 5,
}

// A slot that the reader has passed: the offset where it stands then, and where what stood in the slot is.
#[derive(Clone, Copy, Debug, PartialEq, Eq)]
pub struct Passed {
    pub next: usize,
    pub extent: Extent,
}

// The largest absolute value of a coefficient, 2 to the 20th.
const COEFFICIENT_LIMIT: usize = 1048576;

// ---- the table of fields

// The field that the slot is for.
fn tag_of(slot: Slot) -> Tag
    ensures { result ≡ tag_of slot }
{
    match slot {
        Slot::KindSlot => Tag::Kind,
        Slot::FrameSlot => Tag::Frame,
        Slot::CoefficientsSlot => Tag::Coefficients,
        Slot::MovesSlot => Tag::Moves,
        Slot::PointSlot => Tag::Point,
    }
}

// Whether a field must stand in the slot.
fn is_required(slot: Slot) -> bool
    ensures { result ≡ required slot }
{
    matches!(
        slot,
        Slot::KindSlot | Slot::FrameSlot | Slot::CoefficientsSlot
    )
}

// Field 1 has one degree or two.
fn head_length_allowed(n: usize) -> bool
    ensures { result ≡ (eqb n 2 || eqb n 3) }
{
    matches!(n, 2 | 3)
}

// Whole moves of 8 bytes, at most 32.
fn moves_length_allowed(n: usize) -> bool
    ensures { result ≡ moves_length_allowed n }
{
    n % 8 == 0 && n <= 256
}

// Whether the table allows the length n for the field, by what field 1 says.
fn length_allowed(tag: Tag, head: Head, n: usize) -> bool
    ensures { result ≡ (field_row tag).length_allowed head n }
{
    match tag {
        Tag::Kind => head_length_allowed(n),
        Tag::Frame => n == 2 * frame_count(head.kind),
        Tag::Coefficients => n == 4 * head.number_count(),
        Tag::Moves => moves_length_allowed(n),
        Tag::Point => n == 2 * vertex_count(head.kind),
    }
}

// What the value of field 1 says: a byte that it does not have is 0.
fn head_in(value: &[u8]) -> Head
    ensures { result ≡ head_in value.now }
{
    Head {
        kind: byte_at(value, 0),
        degree: byte_at(value, 1),
        second: byte_at(value, 2),
    }
}

// Whether the value of field 1 has a kind with its degrees, one for each group. A kind has one group, or
// two.
fn head_allowed(value: &[u8]) -> bool
    ensures { result ≡ head_allowed value.now }
{
    let head = head_in(value);
    let length = if later_dimension(head.kind) == 0 {
        2
    } else {
        3
    };
    head.is_known() && value.len() == length
}

// A refusal unless the test passes.
fn unless(test: bool, refusal: Refusal) -> Result<(), Refusal>
    ensures { answered result ≡ first_failed (test else number_of refusal ∷ []) }
{
    if test { Ok(()) } else { Err(refusal) }
}

// The first test that a field's value fails, by its refusal. Moves and the point are not judged here.
#[tactic(auto, unfolding(decoding::specs::Numbers::coefficients_of))]
fn judge_value(tag: Tag, head: Head, value: &[u8]) -> Result<(), Refusal>
    ensures { answered result ≡ first_failed ((field_row tag).tests head value.now) }
{
    match tag {
        Tag::Kind => unless(head_allowed(value), Refusal::Kind),
        Tag::Frame => unless(
            frame_allowed(head.kind, &frame_numbers(value)),
            Refusal::Frame,
        ),
        Tag::Coefficients => unless(
            coefficients_within(value, head.number_count(), COEFFICIENT_LIMIT),
            Refusal::Coefficient,
        ),
        Tag::Moves | Tag::Point => Ok(()),
    }
}

// ---- one field

// How many bytes are left from `at` on.
fn bytes_left(input: &[u8], at: usize) -> usize
    ensures { result ≡ bytes_left input.now at }
{
    input.len().saturating_sub(at)
}

// The two-byte length of the field at `at`.
#[tactic(auto, using(decoding::proofs::Numbers::two_bytes), unfolding(crate::specs::Reading::length_at))]
fn length_at(input: &[u8], at: usize) -> usize
    requires { at + 3 ≤ length input.now }
    ensures value { result ≡ length_at input.now at }
    ensures below { result < 65536 }
{
    usize::from(u16::from_be_bytes([input[at + 1], input[at + 2]]))
}

// What field 1 says, which the record begins with. Where there are no three bytes, nothing is left that
// its value could have.
#[tactic(auto, unfolding(crate::specs::Reading::head_of))]
fn head_of(input: &[u8]) -> Head
    ensures { result ≡ head_of input.now }
{
    let rest = part_from(input, 3);
    if input.len() < 3 {
        return head_in(rest);
    }
    head_in(first_part(rest, length_at(input, 0)))
}

// Whether the field at `at`, n bytes long, is refused. The tests go by the specification's order: the length,
// then whether the value is whole, then the value.
#[tactic(auto, unfolding(crate::specs::Reading::field_number))]
fn judge_field(tag: Tag, head: Head, input: &[u8], at: usize, n: usize) -> Result<(), Refusal>
    requires { (at + 3 ≤ length input.now) × (n ≡ length_at input.now at) }
    ensures { answered result ≡ field_number tag head input.now at }
{
    if !length_allowed(tag, head, n) {
        return Err(Refusal::Length);
    }
    let start = at + 3;
    if input.len() - start < n {
        return Err(Refusal::CutShort);
    }
    judge_value(tag, head, first_part(part_from(input, start), n))
}

// ---- one slot

// The field that stands in the slot: three bytes are left, the first of which is a tag of the slot.
#[tactic(auto, unfolding(crate::specs::Reading::standing))]
fn stands(slot: Slot, input: &[u8], at: usize) -> Option<Tag>
    ensures { result ≡ standing slot input.now at }
{
    let tag = tag_of(slot);
    let there = 3 <= bytes_left(input, at) && input[at] == tag as u8;
    there.then_some(tag)
}

// No tag that may come next stands where the reader does. That is refused if a field is due: as cut short
// where one or two bytes are left, and else for its tag.
fn judge_missing(due: bool, input: &[u8], at: usize) -> Result<(), Refusal>
    ensures { answered result ≡ missing_number due input.now at }
{
    if !due {
        return Ok(());
    }
    match bytes_left(input, at) {
        1 | 2 => Err(Refusal::CutShort),
        _ => Err(Refusal::Tag),
    }
}

// The extent of an absent field.
fn end_extent(input: &[u8]) -> Extent
    ensures { result ≡ end_extent input.now }
{
    Extent {
        field: input.len(),
        start: input.len(),
        length: 0,
    }
}

// Takes the field at `at`, or refuses it.
#[tactic(auto, unfolding(crate::specs::Reading::read_standing))]
fn read_field(tag: Tag, head: Head, input: &[u8], at: usize) -> Result<Passed, RefusedAt>
    requires { at + 3 ≤ length input.now }
    ensures { (slot : Slot) → progress_told input.now result ≡ read_standing (Some tag) slot head input.now at }
{
    let n = length_at(input, at);
    judge_field(tag, head, input, at, n).map_err(|refusal| RefusedAt {
        refusal,
        offset: at,
    })?;
    let start = at + 3;
    Ok(Passed {
        next: start + n,
        extent: Extent {
            field: at,
            start,
            length: n,
        },
    })
}

// Stays at the offset, where no tag that may come next stands; or refuses the record there.
fn read_nothing(due: bool, input: &[u8], at: usize) -> Result<Passed, RefusedAt>
    ensures { progress_told input.now result ≡ stay (missing_number due input.now at) input.now at }
{
    judge_missing(due, input, at).map_err(|refusal| RefusedAt {
        refusal,
        offset: at,
    })?;
    Ok(Passed {
        next: at,
        extent: end_extent(input),
    })
}

// Comes to a slot.
#[tactic(auto, unfolding(crate::specs::Reading::read_standing, crate::specs::Reading::standing))]
fn read_slot(slot: Slot, head: Head, input: &[u8], at: usize) -> Result<Passed, RefusedAt>
    ensures { progress_told input.now result ≡ read_standing (standing slot input.now at) slot head input.now at }
{
    match stands(slot, input, at) {
        Some(tag) => read_field(tag, head, input, at),
        None => read_nothing(is_required(slot), input, at),
    }
}

// ---- all slots

// Reads a record: the slots are taken in their order, and so the fields front to back, and at the end nothing
// may be left. Number and values are those of the table: kind and degrees, or a row's number with the
// offset.
#[tactic(auto, unfolding(crate::specs::Reading::reading_of))]
pub fn read(input: &[u8]) -> Result<Layout, RefusedAt>
    ensures reading { reading_told result ≡ reading_of input.now }
    ensures verdict { TableVerdict input.now (reading_number (reading_told result))
        (reading_values (reading_told result)) }
{
    let said = head_of(input);
    let head = read_slot(Slot::KindSlot, said, input, 0)?;
    let frame = read_slot(Slot::FrameSlot, said, input, head.next)?;
    let coefficients = read_slot(Slot::CoefficientsSlot, said, input, frame.next)?;
    let moves = read_slot(Slot::MovesSlot, said, input, coefficients.next)?;
    let point = read_slot(Slot::PointSlot, said, input, moves.next)?;
    read_nothing(0 < bytes_left(input, point.next), input, point.next)?;
    Ok(Layout {
        said,
        head: head.extent,
        frame: frame.extent,
        coefficients: coefficients.extent,
        moves: moves.extent,
        point: point.extent,
    })
}

// ---- one field's value

// The layout of a refused record: of no kind, with every field absent.
pub fn no_fields(input: &[u8]) -> Layout
    ensures { result ≡ no_fields input.now }
{
    let end = end_extent(input);
    Layout {
        said: Head {
            kind: 0,
            degree: 0,
            second: 0,
        },
        head: end,
        frame: end,
        coefficients: end,
        moves: end,
        point: end,
    }
}

// Where the field with the tag stands, by a layout; a number that is no tag is an absent field.
pub fn extent_of(layout: Layout, input: &[u8], tag: u8) -> Extent
    ensures { result ≡ extent_among slots input.now layout tag }
{
    match tag {
        1 => layout.head,
        2 => layout.frame,
        3 => layout.coefficients,
        4 => layout.moves,
        5 => layout.point,
        _ => end_extent(input),
    }
}

// The part of the record that an extent names: no copy, but the bytes from the extent's start on, where
// they lie in the record. An extent past the end gives the empty part at the end.
pub fn value(input: &[u8], extent: Extent) -> &[u8]
    ensures bytes { result.now ≡ bytes_of extent input.now }
    ensures place { Lies result.ref_ptr input.entry.ref_ptr (to_end input.now extent.start) }
{
    first_part(part_from(input, extent.start), extent.length)
}
