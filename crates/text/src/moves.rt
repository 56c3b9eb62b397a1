// The moves and the point of a record: made in their order, with the lines that they leave. The net stands
// in lent places, and a move changes it there.
ghost use Rattle.std.specs.Prelude.{◌+◌, ◌≤◌, length};
ghost use Rattle.machine.specs.Numbers.{answered};
ghost use Rattle.decoding.specs.Moves.{call_at};
ghost use Rattle.opening.specs.Opening.{moves_of};
ghost use Rattle.text.specs.Words.{Room, Writes};
ghost use Rattle.text.specs.Parts.{Stands, Made, Answered, moves_text, point_text};

use crate::lines::{write_move, write_point_refused, write_projection};
use crate::words::Page;
use decoding::{Move, move_at, point_weights};
use machine::Refusal;
use nets::{find_point, project_point, take_move};

// Makes move k of a record's value, the moves being counted from 0. A move that is no proper one is refused
// unmade; any other is judged as it is made.
pub(crate) fn make_move(net: &mut [i64], value: &[u8], k: usize) -> Result<(), Refusal>
    requires { Stands net.old × (k + 1 ≤ length value.now) }
    ensures { Answered (call_at value.now k) net.old net.new (answered result) }
{
    let Move::Proper {
        operation,
        vertex,
        weights,
    } = move_at(value, k)
    else {
        return Err(Refusal::Argument);
    };
    take_move(net, operation, vertex, weights)
}

// Makes the moves of a record's value, one after the other, with a line for each that is refused.
pub(crate) fn write_moves(page: &mut Page, net: &mut [i64], value: &[u8])
    requires { Stands net.old × Room page.old (moves_text net.old value.now) }
    ensures lines { Writes page.old page.new (moves_text net.old value.now) }
    ensures net { Made (moves_of value.now) net.old net.new }
{
    let count = value.len() / 8;
    for k in 0..count {
        let answer = make_move(net, value, k);
        write_move(page, k + 1, answer);
    }
}

// Finds the point of a record's value, if there is one, and writes where it is or why it is refused.
pub(crate) fn write_point(page: &mut Page, net: &[i64], value: &[u8])
    requires { Stands net.now × Room page.old (point_text net.now value.now) }
    ensures { Writes page.old page.new (point_text net.now value.now) }
{
    if value.is_empty() {
        return;
    }
    let mut found = [0i64; 8];
    if let Err(refusal) = find_point(net, point_weights(value), &mut found) {
        return write_point_refused(page, refusal);
    }
    write_projection(page, project_point(&found));
}
