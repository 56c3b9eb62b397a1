// Words and numbers written on a page, which is a lent buffer and the place in it where the next byte goes.
// Each function writes from that place on, leaves all else as it was, and puts the place behind what it
// wrote. That there is room is the caller's to show: whether a whole text fits is known before its first
// byte is written.
ghost use Rattle.std.specs.Prelude.{◌≡◌, ◌<◌, ◌++◌, length};
ghost use Rattle.std.specs.Float.{binary64};
ghost use Rattle.std.specs.Float.Ieee.{to_bits};
ghost use Rattle.text.specs.Words.{Room, Writes, digit, decimal, signed_decimal, hex_bits};
ghost use Rattle.text.specs.Parts.{pair_text, numbers_text};

use integers::magnitude;
use projection::bits;

// A lent buffer, and the place where the next byte goes.
#[derive(Drop)]
pub(crate) struct Page<'a> {
    pub(crate) out: &'a mut [u8],
    pub(crate) at: usize,
}

// A digit's code.
pub(crate) fn digit_of(d: u64) -> u8
    requires { d < 10 }
    ensures { result ≡ digit d }
{
    b'0' + d as u8
}

// How many digits a number has in base ten. No index is counted: what is left of the number is divided.
pub(crate) fn digit_count(n: u64) -> usize
    ensures { result ≡ length (decimal n) }
{
    let mut left = n;
    let mut count = 1;
    while left > 9 {
        left = left / 10;
        count += 1;
    }
    count
}

impl Page<'_> {
    // ---- words and numbers

    // A word.
    pub(crate) fn put(&mut self, word: &[u8])
        requires { Room self.old word.now }
        ensures { Writes self.old self.new word.now }
    {
        let end = self.at + word.len();
        self.out[self.at..end].copy_from_slice(word);
        self.at = end;
    }

    // A number in base ten, straight into the buffer: from its last digit, whose place is known by their
    // count, to its first. What std prints of a number stands in a text of its own, and would then be copied.
    pub(crate) fn put_decimal(&mut self, n: u64)
        requires { Room self.old (decimal n) }
        ensures { Writes self.old self.new (decimal n) }
    {
        let end = self.at + digit_count(n);
        let mut place = end - 1;
        let mut left = n;
        while left > 9 {
            self.out[place] = digit_of(left % 10);
            place -= 1;
            left = left / 10;
        }
        self.out[place] = digit_of(left);
        self.at = end;
    }

    // A label and a number in base ten.
    pub(crate) fn put_labelled(&mut self, label: &[u8], n: u64)
        requires { Room self.old (label.now ++ decimal n) }
        ensures { Writes self.old self.new (label.now ++ decimal n) }
    {
        self.put(label);
        self.put_decimal(n);
    }

    // A number in base ten, with a minus sign where it is negative.
    pub(crate) fn put_signed(&mut self, v: i64)
        requires { Room self.old (signed_decimal v) }
        ensures { Writes self.old self.new (signed_decimal v) }
    {
        if v < 0 {
            return self.put_labelled(b"-", magnitude(v));
        }
        self.put_decimal(magnitude(v));
    }

    // A label and the bit pattern of a float in 16 hexadecimal digits.
    pub(crate) fn put_bits(&mut self, label: &[u8], x: f64)
        requires { Room self.old (label.now ++ hex_bits (to_bits binary64 x)) }
        ensures { Writes self.old self.new (label.now ++ hex_bits (to_bits binary64 x)) }
    {
        let width = 16;
        let mut digits = [0u8; 16];
        io::hex(bits(x), width, &mut digits);
        self.put(label);
        self.put(&digits[..width]);
    }

    // ---- whole lines

    // Two numbers, each after its label, and the end of the line.
    pub(crate) fn put_pair(&mut self, first: &[u8], n: u64, second: &[u8], m: u64)
        requires { Room self.old (pair_text first.now n second.now m) }
        ensures { Writes self.old self.new (pair_text first.now n second.now m) }
    {
        self.put_labelled(first, n);
        self.put_labelled(second, m);
        self.put(b"\n");
    }

    // A word, numbers, each after a space, and the end of the line. Inlined, so that the page stays in
    // registers.
    #[inline(always)]
    pub(crate) fn put_line(&mut self, word: &[u8], numbers: &[i64])
        requires { Room self.old (word.now ++ numbers_text numbers.now) }
        ensures { Writes self.old self.new (word.now ++ numbers_text numbers.now) }
    {
        self.put(word);
        for number in numbers {
            self.put(b" ");
            self.put_signed(*number);
        }
        self.put(b"\n");
    }
}
