// Reads a record from standard input and writes its text: why the record is refused, or the net
// that its moves reach, and its point. The text is that of write_text, whose contract says what it is.
//
// An answer about bytes that were not all read is never printed. No contract can say which bytes a
// call of the system reads or writes, so nothing is decided beside such a call: `read_input` hands on
// what the last read answered, `main` what the write answered, and `answer` and `complaint`, which read
// and write nothing, say from these what goes to standard output and to standard error.
//
// What reads and writes takes any reader or writer, and its contract names the bytes where the reader or the
// writer says which they are. A call that fails has failed whatever the reason, and no call is made
// again. The exit status is 0 in each case.
#![tactic(auto)]

ghost use Rattle.std.specs.Prelude.{◌≡◌, ◌-◌, ◌<◌, ◌≤◌, length, take, drop, IfSome, IsTrue};
ghost use Rattle.std.specs.Io.KnownBytes.{Consumes, Appends, IsAtEnd};
ghost use Rattle.text.specs.Longest.{longest_text};
ghost use Rattle.netprint.specs.Process.{
  Moved,
  gave_bytes,
  Stopped,
  ReadOf,
  most_read,
  OutputReady,
  error_for,
};

use std::io::{Read, Write};
use text::write_text;

// Where reading stopped.
#[derive(Clone, Copy, Debug, PartialEq, Eq)]
struct Stop {
    // How many bytes were read.
    bytes: usize,
    // What the last read answered: nothing where it failed, 0 at the end of the input, else how many bytes
    // it gave.
    last: Option<usize>,
}

// One read, into the places from `done` on. It answers nothing where it failed, 0 at the end of the input,
// else how many bytes it gave. The bytes before them stay. Where it is known which bytes the reader has
// left, it gives the first of these, and at the answer 0 to one place or more none is left.
fn read_on<R: Read>(from: &mut R, input: &mut [u8], done: usize) -> Option<usize>
    requires { done ≤ length input.old }
    ensures moved { Moved (length input.old - done) result }
    ensures kept { take done input.new ≡ take done input.old }
    ensures bytes { Consumes (R.remaining from.old) (R.remaining from.new)
        (take (gave_bytes result) (drop done input.new)) }
    ensures end { result ≡ Some 0 → done < length input.old → IsAtEnd (R.remaining from.new) }
{
    from.read(&mut input[done..]).ok()
}

// Reads until the input ends, `input` is full or a read fails. A read gives as many bytes as it likes, so
// no `for` counts them. Where it is known which bytes the reader has left, these are the whole input of
// which what is read is a part.
fn read_input<R: Read>(from: &mut R, input: &mut [u8]) -> Stop
    ensures stopped { Stopped result input.new }
    ensures read { 0 < length input.old → IfSome (R.remaining from.old)
        (λ whole. ReadOf result input.new whole) }
{
    let mut done = 0;
    loop {
        let last = read_on(from, input, done);
        let more = last.unwrap_or(0);
        done += more;
        if more == 0 || done == input.len() {
            return Stop { bytes: done, last };
        }
    }
}

// Puts what goes to standard output into `out` and answers how many bytes that is: the text of the
// bytes that were read, and nothing where a read failed. So many bytes are read that this is the text
// of the whole input, and `out` has room for every text, so that it is always there whole.
fn answer(stop: Stop, input: &[u8], out: &mut [u8]) -> usize
    requires stopped { Stopped stop input.now }
    requires input { length input.now ≡ most_read }
    requires out { longest_text ≤ length out.old }
    ensures { OutputReady stop input.now out.old out.new result }
{
    if stop.last.is_none() {
        return 0;
    }
    let n = stop.bytes;
    write_text(&input[..n], out).unwrap_or(0)
}

// What goes to standard error: one of two lines, `unread` where a read failed and `unwritten` where a
// write failed, and else nothing.
fn complaint<'a>(
    last: Option<usize>,
    wrote: bool,
    unread: &'a [u8],
    unwritten: &'a [u8],
) -> &'a [u8]
    ensures { result.now ≡ error_for last wrote unread.now unwritten.now }
{
    if last.is_none() {
        return unread;
    }
    if wrote {
        return b"";
    }
    unwritten
}

// Writes all the bytes and answers true, or stops at the first write that takes nothing or fails, and answers
// false. Of no bytes at all it makes no call and answers true. std's `write_all` makes an interrupted call
// again.
fn write_whole<W: Write>(to: &mut W, bytes: &[u8]) -> bool
    ensures { IsTrue result → Appends (W.contents to.old) (W.contents to.new) bytes.now }
{
    let mut done = 0;
    while done < bytes.len() {
        match to.write(&bytes[done..]) {
            Ok(n) if n > 0 => done += n,
            _ => return false,
        }
    }
    true
}

// `answer` gets the places that it demands. 2048 bytes suffice, what comes after them is not read: the text
// of any input is that of its first bytes (crates/text/specs/Longest.antt). No text is longer than 4183
// bytes, so write_text does not refuse here.
fn main(rt: HostRuntime) {
    let mut input = [0u8; 2048];
    let stop = read_input(&mut rt.stdin(), &mut input);
    let mut out = [0u8; 4183];
    let n = answer(stop, &input, &mut out);
    let wrote = write_whole(&mut rt.stdout(), &out[..n]);
    let unread = b"netprint: standard input could not be read\n";
    let unwritten = b"netprint: standard output could not be written\n";
    write_whole(
        &mut rt.stderr(),
        complaint(stop.last, wrote, unread, unwritten),
    );
}
