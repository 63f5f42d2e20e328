// Writing byte by byte.
ghost use Rattle.std.specs.Prelude.{◌≡◌, ◌∷◌, [], ◌+◌, ◌≤◌, length, take};

use crate::keys::{COMMA, MINUS};
use crate::placing::number_at;

// A lent buffer into which a line, or a whole text, is put piece by piece; `at` is the place behind the last byte that was put.
// Room is asked of the caller, so that putting cannot fail, as writing to a `Cursor` can.
#[derive(Drop)]
pub struct Writer<'a> {
    pub out: &'a mut [u8],
    pub at: usize,
    ghost within: { at ≤ length out.now },
}

impl<'a> Writer<'a> {
    ghost use Rattle.plan_text.specs.Digits.{digits};
    ghost use Rattle.plan_text.specs.Form.{comma};
    ghost use Rattle.plan_text.specs.Lines.{signed};
    ghost use Rattle.plan_text.specs.Plans.{Puts, HasRoom};

    // At the front of the buffer.
    pub fn new(out: &'a mut [u8]) -> Writer<'a>
        ensures same_buffer { result.out.ghost_name ≡ out.entry.ghost_name }
        ensures held { result.out.now ≡ out.old }
        ensures at_front { result.at ≡ 0 }
    {
        Writer { out, at: 0 }
    }

    // The bytes up to the place.
    pub fn written(&self) -> &[u8]
        ensures { result.now ≡ take self.now.at self.now.out.now }
    {
        &self.out[..self.at]
    }

    // Puts one byte.
    pub fn put_byte(&mut self, byte: u8)
        requires { HasRoom self.old (byte ∷ []) }
        ensures { Puts self.old (byte ∷ []) self.new }
    {
        self.out[self.at] = byte;
        self.at += 1;
    }

    // Puts bytes one after the other.
    pub fn put_bytes(&mut self, bytes: &[u8])
        requires { HasRoom self.old bytes.now }
        ensures { Puts self.old bytes.now self.new }
    {
        let end = self.at + bytes.len();
        self.out[self.at..end].copy_from_slice(bytes);
        self.at = end;
    }

    // Puts a number in its digits, the leading ones first.
    pub fn put_number(&mut self, n: u64)
        requires { HasRoom self.old (digits n) }
        ensures { Puts self.old (digits n) self.new }
    {
        self.at = number_at(self.out, self.at, n);
    }

    // Puts a number after a comma.
    pub(crate) fn put_after_comma(&mut self, n: u64)
        requires { HasRoom self.old (comma ∷ digits n) }
        ensures { Puts self.old (comma ∷ digits n) self.new }
    {
        self.put_byte(COMMA);
        self.put_number(n);
    }

    // Puts a signed number: a minus sign where it is below zero, then its digits.
    pub fn put_signed(&mut self, n: i32)
        requires { HasRoom self.old (signed n) }
        ensures { Puts self.old (signed n) self.new }
    {
        let size = n.unsigned_abs();
        if n < 0 {
            self.put_byte(MINUS);
        }
        self.put_number(u64::from(size));
    }
}
