// What comes back to callers who have no enum: numbers of the table, and of a projection its outcome, and its
// values in lent places.
ghost use Rattle.std.specs.Prelude.{◌≡◌, ◌≤◌, [], ◌∷◌, length};
ghost use Rattle.std.specs.Float.{binary64};
ghost use Rattle.std.specs.Float.Ieee.{to_bits};
ghost use Rattle.machine.specs.Lent.{put_at};
ghost use Rattle.machine.specs.Numbers.{answered};
ghost use Rattle.gadwemosh.specs.Projections.{projection_with_room, projection_returned};

use machine::Refusal;
use projection::{Coords, Projection, ReducedVector, bits};

// The number of an answer, which is 0 where nothing is refused.
pub(crate) fn answered(answer: Result<(), Refusal>) -> u8
    ensures { result ≡ answered answer }
{
    match answer {
        Ok(()) => 0,
        Err(refusal) => u8::from(refusal),
    }
}

// The bit patterns of a finite point, into the first three places.
fn put_bits(patterns: &mut [u64], p: Coords)
    requires { 3 ≤ length patterns.old }
    ensures { patterns.new ≡ put_at 0 (to_bits binary64 p.x ∷ to_bits binary64 p.y ∷ to_bits binary64 p.z ∷ []) patterns.old }
{
    patterns[0] = bits(p.x);
    patterns[1] = bits(p.y);
    patterns[2] = bits(p.z);
}

// The numbers of a direction and its length, into the first four places.
fn put_direction(direction: &mut [i64], d: ReducedVector)
    requires { 4 ≤ length direction.old }
    ensures { direction.new ≡ put_at 0 (d.x ∷ d.y ∷ d.z ∷ d.length ∷ []) direction.old }
{
    direction[0] = d.x;
    direction[1] = d.y;
    direction[2] = d.z;
    direction[3] = d.length;
}

// The outcome of a projection, and its bit patterns or its direction, put into their places; or its refusal.
fn write_projection(
    outcome: &mut u8,
    patterns: &mut [u64],
    direction: &mut [i64],
    projection: Projection,
) -> Result<(), Refusal>
    requires { (3 ≤ length patterns.old) × (4 ≤ length direction.old) }
    ensures number { answered result ≡ (projection_with_room projection patterns.old direction.old).number }
    ensures outcome { outcome.new ≡ (projection_with_room projection patterns.old direction.old).outcome }
    ensures patterns { patterns.new ≡ (projection_with_room projection patterns.old direction.old).bits }
    ensures direction { direction.new ≡ (projection_with_room projection patterns.old direction.old).direction }
{
    match projection {
        Projection::Finite(p) => {
            put_bits(patterns, p);
            *outcome = 1;
            Ok(())
        }
        Projection::Direction(d) => {
            put_direction(direction, d);
            *outcome = 2;
            Ok(())
        }
        Projection::Nowhere => {
            *outcome = 3;
            Ok(())
        }
        Projection::OutOfRange => {
            *outcome = 0;
            Err(Refusal::Range)
        }
    }
}

// The same where the places lent for bit patterns and for a direction are enough; else nothing is put there.
pub(crate) fn return_projection(
    outcome: &mut u8,
    patterns: &mut [u64],
    direction: &mut [i64],
    projection: Projection,
) -> Result<(), Refusal>
    ensures number { answered result ≡ (projection_returned projection patterns.old direction.old).number }
    ensures outcome { outcome.new ≡ (projection_returned projection patterns.old direction.old).outcome }
    ensures patterns { patterns.new ≡ (projection_returned projection patterns.old direction.old).bits }
    ensures direction { direction.new ≡ (projection_returned projection patterns.old direction.old).direction }
{
    *outcome = 0;
    let few = direction.len() < 4;
    if patterns.len() < 3 || few {
        return Err(Refusal::Short);
    }
    write_projection(outcome, patterns, direction, projection)
}
