// Numbers, parts and moves out of a record's bytes. Every function is defined for every slice and
// every number, and none copies a slice: a part is a slice of the one that was handed in.
//
// The definitions are those of specs/: Numbers (how bytes make numbers), Parts (where a part lies) and
// Moves (how bytes make a move or the weights of a point).
#![tactic(auto)]

ghost use Rattle.std.specs.Prelude.{◌≡◌, length, drop, take, get_or};
ghost use Rattle.integers.specs.Test.{within, all};
ghost use Rattle.decoding.specs.Numbers.{
  item,
  number_at,
  numbers_to,
  frame_numbers,
};
ghost use Rattle.decoding.specs.Parts.{Lies, to_end, item_place};
ghost use Rattle.decoding.specs.Moves.{weights_of, proper, move_at, call_at, call_of};

use machine::Weights;

// A move of a record, decoded. It is proper where its operation is 1 or 2 and its vertex 1, 2, 3 or 4: no
// kind takes another one. A proper move is judged when it is made, like any call. An improper one is no error
// without a value: `move_at` promises its numbers too, by `call_of`.
#[derive(Clone, Copy)]
pub enum Move {
    Proper {
        operation: u8,
        vertex: u8,
        weights: Weights,
    },
    Improper {
        operation: u8,
        vertex: u8,
        weights: Weights,
    },
}

// ---- parts of a slice

// The part from `start` on; past the end nothing is left, and the part stands at the end.
pub fn part_from(part: &[u8], start: usize) -> &[u8]
    ensures bytes { result.now ≡ drop start part.now }
    ensures place { Lies result.ref_ptr part.entry.ref_ptr (to_end part.now start) }
{
    if part.len() < start {
        return &part[part.len()..];
    }
    &part[start..]
}

// The first `count` bytes, or all where there are fewer.
pub fn first_part(part: &[u8], count: usize) -> &[u8]
    ensures bytes { result.now ≡ take count part.now }
    ensures place { Lies result.ref_ptr part.entry.ref_ptr 0 }
{
    if part.len() < count {
        return part;
    }
    &part[0..count]
}

// Byte k, 0 past the end.
pub fn byte_at(part: &[u8], k: usize) -> u8
    ensures { result ≡ get_or part.now k 0 }
{
    part.get(k).copied().unwrap_or(0)
}

// The eight bytes of move k; where the part does not have them all, the empty part at its end. `part_from` and
// `first_part` after it would give what is left of them.
fn move_bytes(part: &[u8], k: usize) -> &[u8]
    ensures bytes { result.now ≡ item 8 part.now k }
    ensures place { Lies result.ref_ptr part.entry.ref_ptr (item_place 8 part.now k) }
{
    if part.len() / 8 <= k {
        return &part[part.len()..];
    }
    let start = 8 * k;
    &part[start..start + 8]
}

// ---- numbers

// Signed number k of two bytes, 0 where the part does not have them.
fn short_at(part: &[u8], k: usize) -> i64
    ensures { result ≡ number_at 2 part.now k }
{
    let (numbers, _) = part.as_chunks();
    match numbers.get(k) {
        Some(bytes) => i64::from(i16::from_be_bytes(*bytes)),
        None => 0,
    }
}

// Signed number k of four bytes, 0 where the part does not have them. A const parameter for the width could
// not choose the integer type, so there are two of them.
fn long_at(part: &[u8], k: usize) -> i64
    ensures { result ≡ number_at 4 part.now k }
{
    let (numbers, _) = part.as_chunks();
    match numbers.get(k) {
        Some(bytes) => i64::from(i32::from_be_bytes(*bytes)),
        None => 0,
    }
}

// The numbers of a frame, where the part begins with field 2's value. A place whose two bytes the part
// does not have is 0.
pub fn frame_numbers(part: &[u8]) -> [i64; 9]
    ensures { result ≡ frame_numbers part.now }
{
    std::array::from_fn(|k| short_at(part, k))
}

// ---- coefficients

// Writes a coefficient into each of the lent places, where the part begins with field 3's value. A place
// whose four bytes the part does not have is 0; what the places held before does not matter.
pub fn read_coefficients(part: &[u8], out: &mut [i64])
    ensures { out.new ≡ numbers_to (length out.old) (number_at 4 part.now) }
{
    for (k, place) in out.iter_mut().enumerate() {
        *place = long_at(part, k);
    }
}

// Whether the first `count` coefficients are from -limit to limit, where the part begins with field
// 3's value. A coefficient whose bytes the part does not have is 0, and within every limit.
pub fn coefficients_within(part: &[u8], count: usize, limit: usize) -> bool
    ensures { result ≡ all (within limit) (numbers_to count (number_at 4 part.now)) }
{
    let (numbers, _) = part.as_chunks();
    numbers.iter().take(count).all(|bytes| {
        let coefficient = i32::from_be_bytes(*bytes);
        coefficient.unsigned_abs() as usize <= limit
    })
}

// ---- moves and points

// The weights, where the part begins with them: field 5's value, or a move after its first two bytes.
// A weight whose two bytes the part does not have is 0: the third and fourth of a curve's point, the
// fourth of a patch's, and that of every move.
#[tactic(auto, unfolding(crate::specs::Moves::weights_of))]
pub fn point_weights(part: &[u8]) -> Weights
    ensures { result ≡ weights_of part.now }
{
    Weights {
        r: short_at(part, 0),
        s: short_at(part, 1),
        t: short_at(part, 2),
        u: short_at(part, 3),
    }
}

// Whether some kind has the operation and the vertex.
fn is_proper(operation: u8, vertex: u8) -> bool
    ensures { result ≡ proper operation vertex }
{
    (1..=4).contains(&vertex) && (operation == 1 || operation == 2)
}

// Move k of field 4's value. Past the last move all its numbers are 0, and it is improper.
#[tactic(auto, unfolding(crate::specs::Moves::move_at, crate::specs::Moves::call_at))]
pub fn move_at(value: &[u8], k: usize) -> Move
    ensures decoded { result ≡ move_at value.now k }
    ensures numbers { call_of result ≡ call_at value.now k }
{
    let bytes = move_bytes(value, k);
    let operation = byte_at(bytes, 0);
    let vertex = byte_at(bytes, 1);
    let weights = point_weights(part_from(bytes, 2));
    if is_proper(operation, vertex) {
        return Move::Proper {
            operation,
            vertex,
            weights,
        };
    }
    Move::Improper {
        operation,
        vertex,
        weights,
    }
}
