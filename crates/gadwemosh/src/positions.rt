// The exported functions called by position, as a caller in C calls them. Nobody calls these: they are here
// for their contracts, in which the arguments stand in the order of include/gadwemosh.h. The contract of an
// exported function names its arguments, and so does not say in which order they are handed over. Those of
// gadwemosh_open, gadwemosh_project_found and gadwemosh_text differ in their types. The crate gadwemosh_c has
// the same of its own exports, whose edits only they refuse.
ghost use Rattle.std.specs.Prelude.{◌≡◌, []};
ghost use Rattle.projection.specs.Projection.{projection_of};
ghost use Rattle.machine.specs.Lent.{made_number, call_number};
ghost use Rattle.opening.specs.Opening.{field_extent};
ghost use Rattle.gadwemosh.specs.Calls.{move_call, point_call};
ghost use Rattle.gadwemosh.specs.Projections.{projection_returned};

use crate::{gadwemosh_field, gadwemosh_first, gadwemosh_move, gadwemosh_point, gadwemosh_project};

fn field_at(input: &[u8], a: u8, b: &mut u64, c: &mut u64)
    ensures second { b.new ≡ (field_extent input.now a).start }
    ensures third { c.new ≡ (field_extent input.now a).length }
{
    gadwemosh_field(input, a, b, c);
}

fn first_at(a: u8, b: u8, c: u8, d: &[i64], e: &[i64], net: &mut [i64]) -> u8
    ensures { result ≡ made_number a b c d.now e.now net.old }
{
    gadwemosh_first(a, b, c, d, e, net)
}

fn move_at(net: &mut [i64], a: u8, b: u8, c: i64, d: i64, e: i64, f: i64) -> u8
    ensures { result ≡ call_number (move_call a b c d e f) net.old [] }
{
    gadwemosh_move(net, a, b, c, d, e, f)
}

fn point_at(net: &[i64], a: i64, b: i64, c: i64, d: i64, found: &mut [i64]) -> u8
    ensures { result ≡ call_number (point_call a b c d) net.now found.old }
{
    gadwemosh_point(net, a, b, c, d, found)
}

fn project_at(a: i64, b: i64, c: i64, d: i64, outcome: &mut u8, e: &mut [u64], f: &mut [i64]) -> u8
    ensures { result ≡ (projection_returned (projection_of a b c d) e.old f.old).number }
{
    gadwemosh_project(a, b, c, d, outcome, e, f)
}
