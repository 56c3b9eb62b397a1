// What depends on the kind of a net: its limits, its numbers of vertices, frame numbers, monomials and
// entries, which frames it accepts, and its scale. Each function is held to the table of specs/Kinds.antt,
// which also says what to touch to add a kind.
//
// A kind is a byte and no enum, since every function promises an answer for every number; a byte that is no
// kind has no vertices. What depends on the degrees too is asked of a head. The functions of a kind alone are
// the columns of the table, one for each, as each has its own edits and its own promise.
#![tactic(auto)]

ghost use Rattle.std.specs.Prelude.{◌≡◌, true, ◌&&◌, ℕ, suc, ◌*◌, ◌≤◌, leb, eqb, nat_abs, ◌+ℤ◌, ◌-ℤ◌, ◌*ℤ◌, length, take};
ghost use Rattle.integers.specs.Test.{within, all};
ghost use Rattle.entries.specs.Entries.{number_count};
ghost use Rattle.kinds.specs.Kinds.{
  groups_of,
  known,
  dimension_of,
  later_groups,
  later_dimension,
};
ghost use Rattle.kinds.specs.Heads.{head_groups};
ghost use Rattle.kinds.specs.Frames.{
  frame_of,
  determinant,
  frame_allowed,
  vertex_count,
  frame_count,
  frames_allowed,
};
ghost use Rattle.kinds.specs.Counts.{NumberCount};
ghost use Rattle.kinds.specs.Scales.{scale_of, scale_row, at_degree};

use integers::all_within;

// The largest absolute value of a number of a frame.
const FRAME_LIMIT: u64 = 4;

// The scales of curves of degree 1 to 10: the row of dimension 1.
const CURVES: [u64; 10] = [1, 2, 3, 12, 10, 60, 105, 280, 252, 2520];

// The scales of patches of degree 1 to 8: the row of dimension 2.
const PATCHES: [u64; 8] = [1, 2, 6, 12, 60, 180, 420, 1680];

// ---- kinds and degrees

// The head of a record, a text or a net: a kind and its degrees. Any three bytes may stand there.
#[derive(Clone, Copy, Debug, PartialEq, Eq)]
pub struct Head {
    pub kind: u8,
    pub degree: u8,
    pub second: u8,
}

impl Head {
    // Whether the kind is one and has the degrees.
    pub fn is_known(self) -> bool
        ensures { result ≡ known self.kind self.degree self.second }
    {
        match self.kind {
            1 => one_degree(10, self.degree, self.second),
            2 => one_degree(8, self.degree, self.second),
            3 => two_degrees(5, self.degree, self.second),
            _ => false,
        }
    }

    // How many numbers the entries have, four to an entry, and how many the coefficients, four to a monomial:
    // the two are the same. A byte that is no kind has one of each.
    pub fn number_count(self) -> usize
        ensures { NumberCount (head_groups self) result }
    {
        let m = self.degree as usize;
        match self.kind {
            1 => 4 * (m + 1),
            2 => 2 * (m + 1) * (m + 2),
            3 => 4 * (m + 1) * (self.second as usize + 1),
            _ => 4,
        }
    }

    // How many numbers the groups after the first have: so many stand in a row, seen from the first group.
    pub fn later_count(self) -> usize
        ensures { result ≡ number_count (later_groups self.kind self.second) }
    {
        match self.kind {
            3 => 4 * (self.second as usize + 1),
            _ => 4,
        }
    }

    // The scale, the product of the groups' scales; 0 where there is no such kind, or where it has no such
    // degrees.
    pub fn scale(self) -> u64
        ensures { result ≡ scale_of self.kind self.degree self.second }
    {
        if !self.is_known() {
            return 0;
        }
        let first = group_scale(dimension_of(self.kind), self.degree);
        let later = later_dimension(self.kind);
        if later == 0 {
            return first;
        }
        first * group_scale(later, self.second)
    }
}

// Whether a degree is from 1 to the highest.
fn up_to(highest: u8, degree: u8) -> bool
    ensures { result ≡ (leb 1 degree && leb degree highest) }
{
    (1..=highest).contains(&degree)
}

// Whether a kind of one group has the degrees: there is no second degree, and 0 stands there.
fn one_degree(highest: u8, degree: u8, second: u8) -> bool
    ensures { result ≡ ((leb 1 degree && leb degree highest) && (eqb second 0 && true)) }
{
    second == 0 && up_to(highest, degree)
}

// Whether a kind of two groups with the same highest degree has the degrees.
fn two_degrees(highest: u8, degree: u8, second: u8) -> bool
    ensures { result ≡ ((leb 1 degree && leb degree highest) && ((leb 1 second && leb second highest) && true)) }
{
    up_to(highest, degree) && up_to(highest, second)
}

// The number of coordinates before Z in the first group, which is that of the vertices after its first;
// 0 for a byte that is no kind.
pub fn dimension_of(kind: u8) -> usize
    ensures { result ≡ dimension_of kind }
{
    match kind {
        1 => 1,
        2 => 2,
        3 => 1,
        _ => 0,
    }
}

// The same in the group after the first; 0 where there is none.
pub fn later_dimension(kind: u8) -> usize
    ensures { result ≡ later_dimension kind }
{
    if kind == 3 {
        return 1;
    }
    0
}

// ---- how many there are

// How many vertices there are, whatever the degrees are.
pub fn vertex_count(kind: u8) -> usize
    ensures { (p q : ℕ) → result ≡ vertex_count (groups_of kind p q) }
{
    match kind {
        1 => 2,
        2 => 3,
        3 => 4,
        _ => 0,
    }
}

// How many numbers the frames have: in each group as many for each vertex as it has vertices.
pub fn frame_count(kind: u8) -> usize
    ensures { (p q : ℕ) → result ≡ frame_count (groups_of kind p q) }
{
    match kind {
        1 => 4,
        2 => 9,
        3 => 8,
        _ => 0,
    }
}

// ---- frames

// The determinant of the rows a b and c d. It is at most 32 in absolute value, so nothing wraps.
fn two_rows(a: i64, b: i64, c: i64, d: i64) -> i64
    requires { (nat_abs a ≤ 4) × (nat_abs b ≤ 4) × (nat_abs c ≤ 4) × (nat_abs d ≤ 4) }
    ensures { result ≡ a *ℤ d -ℤ b *ℤ c }
{
    a * d - b * c
}

// The numbers a, b, c of a row times their minors x, y, z, the signs alternating. The sum is at most
// 384 in absolute value.
fn along_row(a: i64, x: i64, b: i64, y: i64, c: i64, z: i64) -> i64
    requires { (nat_abs a ≤ 4) × (nat_abs x ≤ 32) × (nat_abs b ≤ 4) × (nat_abs y ≤ 32) × (nat_abs c ≤ 4) × (nat_abs z ≤ 32) }
    ensures { result ≡ a *ℤ x -ℤ b *ℤ y +ℤ c *ℤ z }
{
    a * x - b * y + c * z
}

// The determinant of the rows a b c, d e f and g h i, by the first of them.
fn three_rows(a: i64, b: i64, c: i64, d: i64, e: i64, f: i64, g: i64, h: i64, i: i64) -> i64
    requires { (nat_abs a ≤ 4) × (nat_abs b ≤ 4) × (nat_abs c ≤ 4) × (nat_abs d ≤ 4) × (nat_abs e ≤ 4) × (nat_abs f ≤ 4) × (nat_abs g ≤ 4) × (nat_abs h ≤ 4) × (nat_abs i ≤ 4) }
    ensures { result ≡ a *ℤ (e *ℤ i -ℤ f *ℤ h) -ℤ b *ℤ (d *ℤ i -ℤ f *ℤ g) +ℤ c *ℤ (d *ℤ h -ℤ e *ℤ g) }
{
    let x = two_rows(e, f, h, i);
    let y = two_rows(d, f, g, i);
    let z = two_rows(d, e, g, h);
    along_row(a, x, b, y, c, z)
}

// The determinant of the frame of one group, whose numbers are within their limit.
fn frame_determinant(dimension: usize, numbers: &[i64]) -> i64
    requires { (1 ≤ dimension) × (dimension ≤ 2) × (suc dimension * suc dimension ≤ length numbers.now) × (all (within 4) (take (suc dimension * suc dimension) numbers.now) ≡ true) }
    ensures { result ≡ determinant (suc dimension) (frame_of (suc dimension) numbers.now) }
{
    if dimension == 1 {
        return two_rows(numbers[0], numbers[1], numbers[2], numbers[3]);
    }
    three_rows(
        numbers[0], numbers[1], numbers[2], numbers[3], numbers[4], numbers[5], numbers[6],
        numbers[7], numbers[8],
    )
}

// Whether the numbers of one group's frame are within their limit and its determinant is not 0.
fn group_allowed(dimension: usize, numbers: &[i64]) -> bool
    requires { (1 ≤ dimension) × (dimension ≤ 2) × (suc dimension * suc dimension ≤ length numbers.now) }
    ensures { result ≡ frame_allowed (suc dimension) numbers.now }
{
    let vertices = dimension + 1;
    all_within(&numbers[..vertices * vertices], FRAME_LIMIT)
        && frame_determinant(dimension, numbers) != 0
}

// Whether the numbers of all frames are within their limit and no determinant is 0, whatever the degrees
// are. Where there is a second group, the first has two vertices and its frame four numbers.
pub fn frame_allowed(kind: u8, numbers: &[i64; 9]) -> bool
    ensures { (p q : ℕ) → result ≡ frames_allowed (groups_of kind p q) numbers.now }
{
    let n = dimension_of(kind);
    if n == 0 {
        return true;
    }
    let later = later_dimension(kind);
    group_allowed(n, numbers) && (later == 0 || group_allowed(later, &numbers[4..]))
}

// ---- scales

// The number of a row at a degree, degree 1 being its first; 0 where the row has none.
fn at_degree(row: &[u64], degree: u8) -> u64
    ensures { result ≡ at_degree row.now degree }
{
    if degree == 0 {
        return 0;
    }
    row.get(usize::from(degree) - 1).copied().unwrap_or(0)
}

// The scale of one group, read off the row of its dimension; 0 where there is no such row or no such degree.
pub fn group_scale(dimension: usize, degree: u8) -> u64
    ensures { result ≡ at_degree (scale_row dimension) degree }
{
    match dimension {
        1 => at_degree(&CURVES, degree),
        2 => at_degree(&PATCHES, degree),
        _ => 0,
    }
}
