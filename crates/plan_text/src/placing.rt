// Bytes put into a buffer from a place on. The place goes in and the one behind the bytes comes back, so that it need not be read again from
// a writer's field after each byte: most of what is put goes through here.
ghost use Rattle.std.specs.Prelude.{◌≡◌, ◌∷◌, [], ◌+◌, ◌%◌, ◌<◌, ◌≤◌, length};
ghost use Rattle.plan_text.specs.Digits.{digits};
ghost use Rattle.plan_text.specs.Lines.{joined_tail};
ghost use Rattle.plan_text.specs.Plans.{Put};

use crate::keys::COMMA;

// Puts one byte.
fn byte_at(out: &mut [u8], at: usize, byte: u8) -> usize
    requires { at < length out.old }
    ensures { Put out.old at (byte ∷ []) out.new result }
{
    out[at] = byte;
    at + 1
}

// The byte of a number's last digit.
fn last_digit(n: u64) -> u8
    ensures { result ≡ 48 + n % 10 }
{
    b'0' + (n % 10) as u8
}

// Puts a number in its digits, the leading ones first. A number of one digit goes by without a call of its own.
pub fn number_at(out: &mut [u8], at: usize, n: u64) -> usize
    requires { at + length (digits n) ≤ length out.old }
    ensures { Put out.old at (digits n) out.new result }
{
    if n < 10 {
        return byte_at(out, at, last_digit(n));
    }
    let last = number_at(out, at, n / 10);
    byte_at(out, last, last_digit(n))
}

// Puts entries, each after a comma.
pub fn tail_at(out: &mut [u8], at: usize, row: &[u8]) -> usize
    requires { at + length (joined_tail row.now) ≤ length out.old }
    ensures { Put out.old at (joined_tail row.now) out.new result }
{
    let mut next = at;
    for &entry in row {
        let number = byte_at(out, next, COMMA);
        next = number_at(out, number, u64::from(entry));
    }
    next
}
