// The parts of a vector, read however their bytes arrive.
ghost use Rattle.std.specs.Prelude.{◌<◌};
ghost use Rattle.io.specs.Counts.{IsPrefixLen};

use std::io::Read;

// Reads until the buffer is full, the input ends or a read fails, and answers how many bytes it put to the
// start of the buffer. Of an empty buffer it makes no call. Each read gives as many bytes as it likes, so
// there is nothing that a `for` could count.
fn read_full<R: Read>(from: &mut R, buf: &mut [u8]) -> usize
    ensures { IsPrefixLen result buf.new }
{
    let mut done = 0;
    while done < buf.len() {
        match from.read(&mut buf[done..]) {
            Ok(n) if n > 0 => done += n,
            _ => return done,
        }
    }
    done
}

// The next byte, or 0 where the input has ended.
pub(crate) fn one_byte<R: Read>(from: &mut R) -> usize
    ensures { result < 256 }
{
    let mut bytes = [0u8; 1];
    read_full(from, &mut bytes);
    usize::from(bytes[0])
}

// The number in the next two bytes, the high one first. Bytes past the end of the input count as 0.
pub(crate) fn two_bytes<R: Read>(from: &mut R) -> usize {
    let high = one_byte(from);
    let low = one_byte(from);
    high * 256 + low
}

// Reads n bytes to the start of the buffer and answers how many there were: fewer where the input
// ends, and none where the buffer is too short for n.
pub(crate) fn part<R: Read>(from: &mut R, n: usize, buf: &mut [u8]) -> usize
    ensures { IsPrefixLen result buf.new }
{
    if buf.len() < n {
        return 0;
    }
    read_full(from, &mut buf[..n])
}
