// Runs write_text on packed records and compares each text with the one that is expected.
//
// Standard input is vector after vector, with nothing between them: a label (one byte with its
// length, then its letters), a record (two bytes with its length, the high one first, then its
// bytes) and the expected text (in the same way). The script tests/published/pack.py makes this
// input and the output that it must give.
//
// For each vector there is a line `LABEL equal` or `LABEL differs at N`, N being the place of the
// first byte that is not the expected one; a last line has both counts. `equal` says four things:
// - in a buffer of 4183 bytes the text is the expected one, byte for byte;
// - the rest of that buffer is as it was before;
// - a buffer one byte shorter than the text is refused with 11, and not a byte of it is written;
// - a buffer of exactly the text's length is filled with the text, and the answer is that length.
// Where the text is right and one of the other three fails, the line says which.
#![tactic(auto)]

mod compare;
mod packed;

use crate::compare::{Difference, judge};
use crate::packed::{one_byte, part, two_bytes};
use std::io::{Read, Write};

// How many vectors are read at most. Nothing says that an input ends, and a proved loop must.
const MOST: u64 = 65536;

// Writes the bytes. A write that fails is not told: the output then lacks them.
fn write_bytes<W: Write>(to: &mut W, bytes: &[u8]) {
    let _ = to.write_all(bytes);
}

// Writes the number's decimal digits.
fn write_number<W: Write>(to: &mut W, number: u64) {
    let _ = write!(to, "{number}");
}

// Writes what stands after the label. Each piece is a write of its own, tried whatever came of those before
// it: a `write!` of them all would end at the first that fails.
fn write_verdict<W: Write>(to: &mut W, verdict: Result<(), Difference>) {
    match verdict {
        Ok(()) => write_bytes(to, b" equal\n"),
        Err(Difference::At(place)) => {
            write_bytes(to, b" differs at ");
            write_number(to, place as u64);
            write_bytes(to, b"\n");
        }
        Err(Difference::PastTheText) => write_bytes(to, b" writes past its text\n"),
        Err(Difference::ShortBuffer) => write_bytes(to, b" is not refused in a short buffer\n"),
        Err(Difference::ExactBuffer) => write_bytes(to, b" does not fill a buffer of its length\n"),
    }
}

// Reads and judges one vector, and answers what came of it; nothing where there is none. No label has
// length 0, and a length that is not there reads as 0: so a label of length 0 is the end.
fn one_vector<R: Read, W: Write>(from: &mut R, to: &mut W) -> Option<Result<(), Difference>> {
    let mut label = [0u8; 255];
    let letters = one_byte(from);
    let l = part(from, letters, &mut label);
    if l == 0 {
        return None;
    }
    let mut record = [0u8; 4096];
    let bytes = two_bytes(from);
    let r = part(from, bytes, &mut record);
    let mut expected = [0u8; 4183];
    let bytes = two_bytes(from);
    let e = part(from, bytes, &mut expected);
    write_bytes(to, &label[..l]);
    let verdict = judge(&record[..r], &expected[..e]);
    write_verdict(to, verdict);
    Some(verdict)
}

fn write_counts<W: Write>(to: &mut W, equal: u64, different: u64) {
    write_number(to, equal);
    write_bytes(to, b" equal, ");
    write_number(to, different);
    write_bytes(to, b" different\n");
}

fn main(rt: HostRuntime) {
    let mut from = rt.stdin();
    let mut to = rt.stdout();
    let mut equal: u64 = 0;
    let mut different: u64 = 0;
    for _ in 0..MOST {
        match one_vector(&mut from, &mut to) {
            Some(Ok(())) => equal += 1,
            Some(Err(_)) => different += 1,
            None => break,
        }
    }
    write_counts(&mut to, equal, different);
}
