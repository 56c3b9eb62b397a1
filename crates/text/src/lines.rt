// The lines of the text that hold no net: a refused move, and a point. Each is a word or two with numbers.
ghost use Rattle.machine.specs.Numbers.{number_of, answered};
ghost use Rattle.text.specs.Words.{Room, Writes};
ghost use Rattle.text.specs.Text.{move_line, point_refused_line, projection_line};

use crate::words::Page;
use machine::Refusal;
use projection::{Coords, Projection, ReducedVector};

// Move k, by its answer; a move that is taken has no line.
pub(crate) fn write_move(page: &mut Page, k: usize, answer: Result<(), Refusal>)
    requires { Room page.old (move_line k (answered answer)) }
    ensures { Writes page.old page.new (move_line k (answered answer)) }
{
    let Err(refusal) = answer else {
        return;
    };
    let number = u8::from(refusal);
    page.put_pair(b"move ", k as u64, b" refused ", number as u64);
}

// ---- a point

pub(crate) fn write_point_refused(page: &mut Page, refusal: Refusal)
    requires { Room page.old (point_refused_line (number_of refusal)) }
    ensures { Writes page.old page.new (point_refused_line (number_of refusal)) }
{
    let number = u8::from(refusal);
    page.put_labelled(b"point refused ", number as u64);
    page.put(b"\n");
}

pub(crate) fn write_finite(page: &mut Page, p: Coords)
    requires { Room page.old (projection_line (Projection.Finite p)) }
    ensures { Writes page.old page.new (projection_line (Projection.Finite p)) }
{
    page.put_bits(b"at ", p.x);
    page.put_bits(b" ", p.y);
    page.put_bits(b" ", p.z);
    page.put(b"\n");
}

pub(crate) fn write_direction(page: &mut Page, d: ReducedVector)
    requires { Room page.old (projection_line (Projection.Direction d)) }
    ensures { Writes page.old page.new (projection_line (Projection.Direction d)) }
{
    page.put_line(b"far", &[d.x, d.y, d.z, d.length]);
}

// A found point by its projection. A point out of range is none that a call finds.
pub(crate) fn write_projection(page: &mut Page, p: Projection)
    requires { Room page.old (projection_line p) }
    ensures { Writes page.old page.new (projection_line p) }
{
    match p {
        Projection::Finite(coords) => write_finite(page, coords),
        Projection::Direction(direction) => write_direction(page, direction),
        Projection::Nowhere => page.put(b"nowhere\n"),
        Projection::OutOfRange => write_point_refused(page, Refusal::Range),
    }
}
