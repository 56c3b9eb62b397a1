// What the text says by the kind of a net: the word of its first line, and what there is of a group after
// the first. To add a kind, add its word here and to specs/Text.antt.
ghost use Rattle.std.specs.Prelude.{◌≡◌, true};
ghost use Rattle.kinds.specs.Kinds.{known, later_dimension};
ghost use Rattle.text.specs.Words.{Room, Writes};
ghost use Rattle.text.specs.Text.{kind_word, head_line};
ghost use Rattle.text.specs.Parts.{later_text};

use crate::words::Page;
use kinds::{Head, later_dimension};

// The word of a kind.
pub(crate) fn put_word(page: &mut Page, kind: u8)
    requires { Room page.old (kind_word kind) }
    ensures { Writes page.old page.new (kind_word kind) }
{
    match kind {
        1 => page.put(b"curve"),
        2 => page.put(b"patch"),
        _ => page.put(b"rect"),
    }
}

// A number of the group after the first, after a space; nothing where the kind has no such group.
pub(crate) fn put_later(page: &mut Page, kind: u8, n: usize)
    requires { Room page.old (later_text (later_dimension kind) n) }
    ensures { Writes page.old page.new (later_text (later_dimension kind) n) }
{
    if later_dimension(kind) == 0 {
        return;
    }
    page.put_labelled(b" ", n as u64);
}

// The first line: the kind's word, the degree of each group and the scale.
pub(crate) fn write_head(page: &mut Page, head: Head)
    requires known { known head.kind head.degree head.second ≡ true }
    requires room { Room page.old (head_line head.kind head.degree head.second) }
    ensures { Writes page.old page.new (head_line head.kind head.degree head.second) }
{
    let scale = head.scale();
    put_word(page, head.kind);
    page.put_labelled(b" ", head.degree as u64);
    put_later(page, head.kind, head.second as usize);
    page.put_labelled(b" ", scale);
    page.put(b"\n");
}
