// The projection of a found point (x, y, z, w) (docs/SPECIFICATION.md, 'Projection'): a finite point, a direction, nowhere, or
// out of range. `project` is what callers use, and it answers `projection_of` of
// specs/Projection.antt for all numbers; `bits` is for the callers who print a coordinate. The other
// functions are parts of `project`: those that require numbers in range are called after the test
// of the range.
#![tactic(auto)]

ghost use Rattle.std.specs.Prelude.{◌≡◌, ◌≤◌, false, [], ◌∷◌, pos, nat_abs};
ghost use Rattle.std.specs.Float.{binary64};
ghost use Rattle.std.specs.Float.Ieee.{to_bits};
ghost use Rattle.projection.specs.Gcd.{gcd};
ghost use Rattle.projection.specs.Accuracy.{AccuratePoint};
ghost use Rattle.projection.specs.Projection.{
  limit,
  in_range,
  all_in_range,
  all_zero,
  is_negative,
  first_nonzero,
  quotient_of,
  coords_of,
  negated_if,
  gcd_of,
  direction_of,
  projection_of_four,
  Projected,
  is_four_zeros,
  without_length,
  found_projection,
};

use integers::is_within;

// The largest absolute value of a component in range, 2 to the 48th.
const LIMIT: u64 = 281474976710656;

// What stands for every NaN: an exponent of ones, then a fraction that begins with its only one.
const NAN_BITS: u64 = 0x7ff8000000000000;

// The four numbers of a point.
#[derive(Clone, Copy, Debug, PartialEq, Eq)]
pub struct Four {
    pub x: i64,
    pub y: i64,
    pub z: i64,
    pub w: i64,
}

// A finite point.
#[derive(Clone, Copy, Debug, PartialEq)]
pub struct Coords {
    pub x: f64,
    pub y: f64,
    pub z: f64,
}

// A vector of whole numbers, reduced: its direction x, y, z, of greatest common divisor 1 and with the
// first nonzero one positive, and its length, the positive divisor that was taken out.
#[derive(Clone, Copy, Debug, PartialEq, Eq)]
pub struct ReducedVector {
    pub x: i64,
    pub y: i64,
    pub z: i64,
    pub length: i64,
}

// What a point is projected to: an enum of these cases (docs/DECISIONS.md, 'Forms'). `projection_of` and the
// theorems speak of all four as one value, so out of range is one of them and no error beside them.
#[derive(Clone, Copy, Debug, PartialEq)]
pub enum Projection {
    // The weight is not 0.
    Finite(Coords),
    // The weight is 0 and another component is not.
    Direction(ReducedVector),
    // All four components are 0.
    Nowhere,
    // A component is out of range: refusal 10.
    OutOfRange,
}

// ---- tests

// Whether a component is in range, from -LIMIT to LIMIT.
pub fn in_range(v: i64) -> bool
    ensures { result ≡ in_range v }
{
    is_within(v, LIMIT)
}

// Whether three numbers are all 0.
pub fn all_zero(x: i64, y: i64, z: i64) -> bool
    ensures { result ≡ all_zero x y z }
{
    x == 0 && y == 0 && z == 0
}

// ---- the finite case

// One coordinate. A zero numerator is answered first: divided by a negative weight it would give
// negative zero. Both numbers are in range, so neither conversion loses anything.
fn quotient(v: i64, w: i64) -> f64
    requires { (nat_abs v ≤ limit) × (nat_abs w ≤ limit) }
    ensures { result ≡ quotient_of v w }
{
    if v == 0 {
        return 0.0;
    }
    v as f64 / w as f64
}

// ---- the direction

// Euclid's algorithm. Each turn leaves the common divisors of the two numbers as they were.
fn gcd_of_two(a: u64, b: u64) -> u64
    ensures { result ≡ gcd (a ∷ b ∷ []) }
{
    let mut m = a;
    let mut n = b;
    while n != 0 {
        let rest = m % n;
        m = n;
        n = rest;
    }
    m
}

// A number in range has a negation in range.
fn negated_if(negative: bool, v: i64) -> i64
    requires { nat_abs v ≤ limit }
    ensures { result ≡ negated_if negative v }
{
    if negative {
        return -v;
    }
    v
}

// ---- the four numbers

impl Four {
    // Whether each of the four is in range.
    pub fn is_in_range(self) -> bool
        ensures { result ≡ all_in_range self.x self.y self.z self.w }
    {
        in_range(self.x) && in_range(self.y) && in_range(self.z) && in_range(self.w)
    }

    // Whether the four are all 0.
    pub fn is_zeros(self) -> bool
        ensures { result ≡ is_four_zeros self }
    {
        all_zero(self.x, self.y, self.z) && self.w == 0
    }

    // The finite point: the weight divides each of the three.
    #[tactic(auto, unfolding(crate::specs::Projection::coords_of))]
    fn coords(self) -> Coords
        requires { (nat_abs self.x ≤ limit) × (nat_abs self.y ≤ limit) × (nat_abs self.z ≤ limit)
            × (nat_abs self.w ≤ limit) }
        ensures { result ≡ coords_of self.x self.y self.z self.w }
    {
        Coords {
            x: quotient(self.x, self.w),
            y: quotient(self.y, self.w),
            z: quotient(self.z, self.w),
        }
    }

    // Whether the first nonzero one of x, y and z is negative.
    fn leads_negative(self) -> bool
        ensures { result ≡ is_negative (first_nonzero self.x self.y self.z) }
    {
        if self.x != 0 {
            return self.x < 0;
        }
        if self.y != 0 {
            return self.y < 0;
        }
        self.z < 0
    }

    // The greatest common divisor of x, y and z: that of the last two stands for both.
    fn divisor(self) -> i64
        requires { (nat_abs self.x ≤ limit) × (nat_abs self.y ≤ limit) × (nat_abs self.z ≤ limit) }
        ensures { result ≡ pos (gcd_of self.x self.y self.z) }
    {
        let last_two = gcd_of_two(self.y.unsigned_abs(), self.z.unsigned_abs());
        gcd_of_two(self.x.unsigned_abs(), last_two) as i64
    }

    // The vector (x, y, z) reduced. One of the three is not 0, so the divisor is not 0, and nothing is left
    // over. The sign that makes the first nonzero one positive goes into the number that divides, not into
    // the length.
    fn direction(self) -> ReducedVector
        requires { (nat_abs self.x ≤ limit) × (nat_abs self.y ≤ limit) × (nat_abs self.z ≤ limit)
            × (all_zero self.x self.y self.z ≡ false) }
        ensures { result ≡ direction_of self.x self.y self.z }
    {
        let length = self.divisor();
        let negative = self.leads_negative();
        let signed = negated_if(negative, length);
        ReducedVector {
            x: self.x / signed,
            y: self.y / signed,
            z: self.z / signed,
            length,
        }
    }
}

// ---- the projection

// The tests stand in the specification's order: the range, the weight, the other components. With `inline`
// the four numbers of a point stay in registers; handed over in memory they take nearly twice the time.
#[inline]
pub fn project(point: Four) -> Projection
    ensures answer { result ≡ projection_of_four point }
    ensures told { Projected point.x point.y point.z point.w result }
    ensures accurate { AccuratePoint point result }
{
    if !point.is_in_range() {
        return Projection::OutOfRange;
    }
    if point.w != 0 {
        return Projection::Finite(point.coords());
    }
    if all_zero(point.x, point.y, point.z) {
        return Projection::Nowhere;
    }
    Projection::Direction(point.direction())
}

// ---- what is left at a common zero

// A direction without a length of its own.
fn without_length(projection: Projection) -> Projection
    ensures { result ≡ without_length projection }
{
    match projection {
        Projection::Direction(d) => Projection::Direction(ReducedVector { length: 1, ..d }),
        other => other,
    }
}

// The projection of a found point by the numbers projected: the same four or, where these are zeros, what is
// left there.
#[tactic(auto, unfolding(crate::specs::Projection::found_projection))]
pub fn project_found(found: Four, projected: Four) -> Projection
    ensures answer { result ≡ found_projection found projected }
    ensures accurate { AccuratePoint projected result }
{
    let projection = project(projected);
    if found.is_zeros() {
        without_length(projection)
    } else {
        projection
    }
}

// ---- bit patterns

// The bit pattern of a float. `to_bits` is defined only off a NaN.
pub fn bits(x: f64) -> u64
    ensures { result ≡ to_bits binary64 x }
{
    let nan = x.is_nan();
    if nan {
        return NAN_BITS;
    }
    f64::to_bits(x)
}
