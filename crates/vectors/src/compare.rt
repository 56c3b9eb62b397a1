// One record's text against the expected one.
ghost use Rattle.io.specs.Counts.{IsPrefixLen};
ghost use Rattle.vectors.specs.Compared.{FirstDifference, AllMarks};

use machine::Refusal;
use text::write_text;

// The byte that fills a buffer before it is lent. No text has it: it is no
// letter, digit, sign, space or line feed.
const MARK: u8 = 0;

// What is wrong with a record's text.
#[derive(Clone, Copy, Debug, PartialEq, Eq)]
pub(crate) enum Difference {
    At(usize),
    PastTheText,
    ShortBuffer,
    ExactBuffer,
}

// The first place where two lists of bytes differ; where one begins with the other, the length of
// the shorter.
pub(crate) fn first_difference(a: &[u8], b: &[u8]) -> usize
    ensures { FirstDifference a.now b.now result }
{
    let shorter = a.len().min(b.len());
    for i in 0..shorter {
        if a[i] != b[i] {
            return i;
        }
    }
    shorter
}

// Whether every byte is the mark.
pub(crate) fn all_marks(s: &[u8]) -> bool
    ensures { AllMarks s.now result }
{
    s.iter().all(|b| *b == MARK)
}

// Whether a buffer one byte shorter than a text of n bytes is refused for that and left as it was.
// The buffer is the front of `out`, which has only marks. No text is empty.
fn short_is_refused(record: &[u8], n: usize, out: &mut [u8]) -> bool {
    if n == 0 {
        return false;
    }
    let short = n - 1;
    if out.len() < short {
        return false;
    }
    write_text(record, &mut out[..short]) == Err(Refusal::Short) && all_marks(out)
}

// Whether a buffer of exactly the expected text's length is filled with it and answered with that length. The
// buffer is the front of `out`, which has only marks; what lies behind it keeps them.
fn exact_is_filled(record: &[u8], expected: &[u8], out: &mut [u8]) -> bool {
    let n = expected.len();
    if out.len() < n {
        return false;
    }
    write_text(record, &mut out[..n]) == Ok(n)
        && first_difference(out, expected) == n
        && all_marks(&out[n..])
}

// The first n bytes of a buffer against the expected text, and the bytes past them against the mark.
fn judge_text(record: &[u8], out: &[u8], n: usize, expected: &[u8]) -> Result<(), Difference>
    requires { IsPrefixLen n out.now }
{
    let place = first_difference(&out[..n], expected);
    if place < n || place < expected.len() {
        return Err(Difference::At(place));
    }
    if !all_marks(&out[n..]) {
        return Err(Difference::PastTheText);
    }
    let mut other = [0u8; 4183];
    if !short_is_refused(record, n, &mut other) {
        return Err(Difference::ShortBuffer);
    }
    if !exact_is_filled(record, expected, &mut other) {
        return Err(Difference::ExactBuffer);
    }
    Ok(())
}

// The record's text in a buffer of 4183 bytes, judged. A refusal counts as a text with no byte.
pub(crate) fn judge(record: &[u8], expected: &[u8]) -> Result<(), Difference> {
    let mut out = [0u8; 4183];
    match write_text(record, &mut out) {
        Ok(n) => judge_text(record, &out, n, expected),
        Err(_) => Err(Difference::At(0)),
    }
}
