// The lines of a net: the first line, that of the frame, and one for each entry in the specification's order. The
// entries go by the counts of the first group and, where these are the same, by those of the group after it, if there
// is one. In row h of the first group the vertices after its first are taken h times together, and k of them are the
// third.
ghost use Rattle.std.specs.Prelude.{◌≡◌, true, suc, ◌*◌, ◌<◌, ◌≤◌, length};
ghost use Rattle.polar.specs.Groups.{counts_over};
ghost use Rattle.entries.specs.Entries.{number_count};
ghost use Rattle.kinds.specs.Kinds.{dimension_of, later_groups, later_dimension, known};
ghost use Rattle.kinds.specs.Heads.{head_groups};
ghost use Rattle.machine.specs.Lent.{net_at};
ghost use Rattle.text.specs.Words.{Room, Writes};
ghost use Rattle.text.specs.Text.{entry_lines, frame_line, net_lines};
ghost use Rattle.text.specs.Parts.{
  TwoOrThree,
  name_text,
  entry_text,
  lines_under,
  last_of,
  row_lines,
  Stands,
  net_head,
};

use crate::kind::{put_later, write_head};
use crate::words::Page;
use kinds::{Head, dimension_of, frame_count};
use nets::{ENTRIES, FRAME, head_at};

// The indices of a group by the counts of its vertices: of two vertices the copies of the second, of three
// those of all.
pub(crate) fn put_name(page: &mut Page, counts: &[usize])
    requires { TwoOrThree counts.now × Room page.old (name_text counts.now) }
    ensures { Writes page.old page.new (name_text counts.now) }
{
    if counts.len() == 2 {
        return page.put_decimal(counts[1] as u64);
    }
    page.put_decimal(counts[0] as u64);
    page.put_labelled(b" ", counts[1] as u64);
    page.put_labelled(b" ", counts[2] as u64);
}

// The entry with these counts of the first group and l of the second vertex of the group after it, if there
// is one, and these numbers.
pub(crate) fn write_entry(page: &mut Page, counts: &[usize], kind: u8, l: usize, numbers: &[i64])
    requires { TwoOrThree counts.now
        × Room page.old (entry_text counts.now (later_dimension kind) l numbers.now) }
    ensures { Writes page.old page.new (entry_text counts.now (later_dimension kind) l numbers.now) }
{
    put_name(page, counts);
    put_later(page, kind, l);
    page.put_line(b"", numbers);
}

// The entries with these counts of the first group: l rises. Without a group after the first it is one entry.
pub(crate) fn write_under(page: &mut Page, counts: &[usize], head: Head, numbers: &[i64])
    requires counts { TwoOrThree counts.now }
    requires second { later_dimension head.kind ≡ 0 → head.second ≡ 0 }
    requires numbers { length numbers.now ≡ number_count (later_groups head.kind head.second) }
    requires room { Room page.old (lines_under counts.now (later_groups head.kind head.second) numbers.now) }
    ensures { Writes page.old page.new
        (lines_under counts.now (later_groups head.kind head.second) numbers.now) }
{
    let count = head.second as usize + 1;
    for l in 0..count {
        let p = 4 * l;
        write_entry(page, counts, head.kind, l, &numbers[p..p + 4]);
    }
}

// How many entries row h of the first group has; two vertices leave no third, and so one entry.
pub(crate) fn row_length(dimension: usize, h: usize) -> usize
    requires { h < 256 }
    ensures { result ≡ suc (last_of dimension h) }
{
    if dimension < 2 {
        return 1;
    }
    h + 1
}

// The entries of row h: k rises.
pub(crate) fn write_row(page: &mut Page, head: Head, h: usize, numbers: &[i64])
    requires known { known head.kind head.degree head.second ≡ true }
    requires row { h ≤ head.degree }
    requires numbers { length numbers.now
        ≡ number_count (later_groups head.kind head.second) * suc (last_of (dimension_of head.kind) h) }
    requires room { Room page.old (row_lines head h numbers.now) }
    ensures { Writes page.old page.new (row_lines head h numbers.now) }
{
    let dimension = dimension_of(head.kind);
    let width = head.later_count();
    let count = row_length(dimension, h);
    let first = head.degree as usize - h;
    for k in 0..count {
        let counts = [first, h - k, k];
        let p = k * width;
        write_under(page, &counts[..dimension + 1], head, &numbers[p..p + width]);
    }
}

// All entries, row after row: the numbers of row h begin at p.
pub(crate) fn write_entries(page: &mut Page, head: Head, numbers: &[i64])
    requires known { known head.kind head.degree head.second ≡ true }
    requires numbers { length numbers.now ≡ number_count (head_groups head) }
    requires room { Room page.old (entry_lines (counts_over (head_groups head)) numbers.now) }
    ensures { Writes page.old page.new (entry_lines (counts_over (head_groups head)) numbers.now) }
{
    let dimension = dimension_of(head.kind);
    let width = head.later_count();
    let rows = head.degree as usize + 1;
    let mut p = 0;
    for h in 0..rows {
        let end = p + width * row_length(dimension, h);
        write_row(page, head, h, &numbers[p..end]);
        p = end;
    }
}

// The first line of the net that stands in the places.
pub(crate) fn write_first(page: &mut Page, net: &[i64])
    requires { Stands net.now × Room page.old (net_head (net_at net.now)) }
    ensures { Writes page.old page.new (net_head (net_at net.now)) }
{
    write_head(page, head_at(net));
}

// The line of its frame.
pub(crate) fn write_frame(page: &mut Page, net: &[i64])
    requires { Stands net.now × Room page.old (frame_line (net_at net.now)) }
    ensures { Writes page.old page.new (frame_line (net_at net.now)) }
{
    let end = FRAME + frame_count(head_at(net).kind);
    page.put_line(b"frame", &net[FRAME..end]);
}

// That line, and the lines of its entries.
pub(crate) fn write_net(page: &mut Page, net: &[i64])
    requires { Stands net.now × Room page.old (net_lines (net_at net.now)) }
    ensures { Writes page.old page.new (net_lines (net_at net.now)) }
{
    write_frame(page, net);
    let head = head_at(net);
    let end = ENTRIES + head.number_count();
    write_entries(page, head, &net[ENTRIES..end]);
}
