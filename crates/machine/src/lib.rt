// Calls: what the library's functions are asked, and why they refuse. What a call does to a net, the
// comparison machine and the theorem about every list of calls are in specs/ and proofs/; the code is in
// the crate nets.
#![tactic(auto)]

ghost use Rattle.std.specs.Prelude.{◌≡◌};
ghost use Rattle.machine.specs.Numbers.{number_of};

// Why a record, a call or a lent buffer is refused: the rows of the table (docs/RECORDS.md, 'Refusals'), each
// with its number there.
#[derive(Clone, Copy, Debug, PartialEq, Eq)]
pub enum Refusal {
    // The bytes end too soon.
    CutShort = 1,
    // A field must not stand there, or one is missing.
    Tag = 2,
    // A length that the field cannot have.
    Length = 3,
    // A kind or degree that no net has.
    Kind = 4,
    // A number of the first frame is out of bounds, or a determinant is 0.
    Frame = 5,
    // A coefficient is out of bounds.
    Coefficient = 6,
    // A number of the first net is out of range.
    FirstNet = 7,
    // An operation, a vertex or a weight is out of bounds, or an unused weight is not 0.
    Argument = 8,
    // The weight of a replaced vertex is 0, or all weights of a point or of a pair are.
    NoWeight = 9,
    // An entry, a component or a polar value is out of range.
    Range = 10,
    // A lent buffer has too few places.
    Short = 11,
    // A number of a frame or of a new vertex is out of range.
    FrameRange = 12,
}

// The number that the table has for it.
impl From<Refusal> for u8 {
    ghost from_gives = { λ refusal number. number ≡ number_of refusal };

    fn from(refusal: Refusal) -> u8 {
        refusal as u8
    }
}

// The weights of a call, in the order of the vertices: of r, s and t, or of r1, s1, r2 and s2 at a point
// of a rectangular patch. Those of a move are of the vertices of its pair, or of all in other kinds.
#[derive(Clone, Copy, Debug, PartialEq, Eq)]
pub struct Weights {
    pub r: i64,
    pub s: i64,
    pub t: i64,
    pub u: i64,
}

// A call with its arguments other than the net. Any numbers at all may stand in it: operation and vertex
// are bytes, since the table refuses those that are none, and the theorem is about every list of calls.
#[derive(Clone, Copy, Debug, PartialEq, Eq)]
pub enum Call {
    // 1 replaces the vertex by the point that the weights name, 2 flips it. The vertices are 1 to 4.
    Move {
        operation: u8,
        vertex: u8,
        weights: Weights,
    },
    // The point that the weights name is asked for.
    Point(Weights),
}
