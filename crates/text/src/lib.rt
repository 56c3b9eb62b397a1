// The text of netprint: from the bytes of a record, whatever they are, into a lent buffer.
#![tactic(auto)]

mod kind;
mod lines;
mod moves;
mod net;
mod words;

ghost use Rattle.std.specs.Prelude.{◌≡◌, ◌+◌, ◌≤◌, length};
ghost use Rattle.machine.specs.Lent.{net_at};
ghost use Rattle.machine.specs.Numbers.{number_of};
ghost use Rattle.opening.specs.Opening.{moves_of, point_of};
ghost use Rattle.text.specs.Longest.{longest_text};
ghost use Rattle.text.specs.Words.{over, Room, Writes};
ghost use Rattle.text.specs.Told.{Told};
ghost use Rattle.text.specs.Parts.{Stands, net_text};
ghost use Rattle.text.specs.Text.{refused_line, text_of, written_of, buffer_of};

use crate::moves::{write_moves, write_point};
use crate::net::{write_first, write_net};
use crate::words::Page;
use machine::Refusal;
use nets::NET;
use opening::open;
use records::{RefusedAt, value};

// No text has more bytes.
const LONGEST: usize = 4183;

// Makes the one line of a refused record.
fn write_refusal(page: &mut Page, refused: RefusedAt)
    requires { page.old.at + longest_text ≤ length page.old.out.now }
    ensures { Writes page.old page.new (refused_line (number_of refused.refusal) refused.offset) }
{
    let number = u8::from(refused.refusal);
    page.put_pair(b"refused ", number as u64, b" at ", refused.offset as u64);
}

// Makes the text of an accepted record, whose first net stands in the lent places: the first line, the moves
// that are refused, the net that the moves leave, and the point.
fn write_accepted(page: &mut Page, net: &mut [i64], moves: &[u8], point: &[u8])
    requires { Stands net.old
        × Room page.old (net_text (net_at net.old) (moves_of moves.now) (point_of point.now)) }
    ensures { Writes page.old page.new (net_text (net_at net.old) (moves_of moves.now) (point_of point.now)) }
{
    write_first(page, net);
    write_moves(page, net, moves);
    write_net(page, net);
    write_point(page, net, point);
}

// Writes the text on a page that every text fits on.
fn write_record(page: &mut Page, input: &[u8])
    requires { page.old.at + longest_text ≤ length page.old.out.now }
    ensures { Writes page.old page.new (text_of input.now) }
{
    let mut net = [0i64; NET];
    match open(input, &mut net) {
        Ok(layout) => {
            let moves = value(input, layout.moves);
            let point = value(input, layout.point);
            write_accepted(page, &mut net, moves, point)
        }
        Err(refused) => write_refusal(page, refused),
    }
}

// Makes the text at the front of a buffer that every text fits into, and answers how many bytes it has.
fn make_text(out: &mut [u8], input: &[u8]) -> usize
    requires { longest_text ≤ length out.old }
    ensures buffer { out.new ≡ over out.old 0 (text_of input.now) }
    ensures count { result ≡ length (text_of input.now) }
{
    let mut page = Page { out, at: 0 };
    write_record(&mut page, input);
    page.at
}

// Writes the text of a record into a buffer that may be too short for it: the text is made beside it
// first, and put there where it fits.
fn write_where_it_fits(input: &[u8], out: &mut [u8]) -> Result<usize, Refusal>
    ensures answer { result ≡ written_of (text_of input.now) out.old }
    ensures told { Told (text_of input.now) out.old out.new result }
    ensures buffer { out.new ≡ buffer_of (text_of input.now) out.old }
{
    let mut text = [0u8; LONGEST];
    let n = make_text(&mut text, input);
    if out.len() < n {
        return Err(Refusal::Short);
    }
    out[..n].copy_from_slice(&text[..n]);
    Ok(n)
}

// Writes the text of a record. A buffer that is too short is not touched; behind the text the buffer
// is as it was. Where the longest text fits, it is made in the buffer itself.
pub fn write_text(input: &[u8], out: &mut [u8]) -> Result<usize, Refusal>
    ensures answer { result ≡ written_of (text_of input.now) out.old }
    ensures told { Told (text_of input.now) out.old out.new result }
    ensures buffer { out.new ≡ buffer_of (text_of input.now) out.old }
{
    if out.len() < LONGEST {
        return write_where_it_fits(input, out);
    }
    Ok(make_text(out, input))
}
