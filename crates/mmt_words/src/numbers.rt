//! Numbers behind a label.

ghost use Rattle.std.specs.Prelude.{◌≡◌, ◌+◌, ◌%◌, ◌≤◌, ◌++◌, length, decimal, vec_len, vec_capacity};

use itoa::Buffer;
use mmt_fields::put_bytes;

// The last decimal digit of a number.
fn last_digit(number: u64) -> u8
    ensures { result ≡ 48 + number % 10 }
{
    48 + (number % 10) as u8
}

// Appends a number of more than four digits in decimal digits.
#[inline(never)]
fn put_long(digits: &mut Buffer, out: &mut Vec<u8>, number: u64)
    requires room { vec_len out.old + 20 ≤ vec_capacity out.old }
    ensures items { out.new.items ≡ out.old.items ++ decimal number }
    ensures grows { vec_len out.old ≤ vec_len out.new }
    ensures len { vec_len out.new ≤ vec_len out.old + 20 }
    ensures capacity { vec_capacity out.old ≤ vec_capacity out.new }
{
    put_bytes(out, digits.format(number).as_bytes());
}

// Appends a number of at least two digits in decimal digits. Up to four are written at once: most of
// the numbers of a line are so short.
fn put_digits(digits: &mut Buffer, out: &mut Vec<u8>, number: u64)
    requires several { 10 ≤ number }
    requires room { vec_len out.old + 20 ≤ vec_capacity out.old }
    ensures items { out.new.items ≡ out.old.items ++ decimal number }
    ensures grows { vec_len out.old ≤ vec_len out.new }
    ensures len { vec_len out.new ≤ vec_len out.old + 20 }
    ensures capacity { vec_capacity out.old ≤ vec_capacity out.new }
{
    let (tens, hundreds, thousands) = (number / 10, number / 10 / 10, number / 10 / 10 / 10);
    if hundreds == 0 {
        put_bytes(out, &[last_digit(tens), last_digit(number)]);
    } else if thousands == 0 {
        let bytes = [last_digit(hundreds), last_digit(tens), last_digit(number)];
        put_bytes(out, &bytes);
    } else if thousands < 10 {
        let (first, second) = (last_digit(thousands), last_digit(hundreds));
        put_bytes(out, &[first, second, last_digit(tens), last_digit(number)]);
    } else {
        put_long(digits, out, number);
    }
}

/// Appends a label of at most 16 bytes and a number in decimal digits, at most 20 of them. One digit is
/// written where it is called.
#[inline(always)]
pub fn put_number(digits: &mut Buffer, out: &mut Vec<u8>, label: &[u8], number: u64)
    requires short { length label.now ≤ 16 }
    requires room { vec_len out.old + 36 ≤ vec_capacity out.old }
    ensures items { out.new.items ≡ out.old.items ++ (label.now ++ decimal number) }
    ensures grows { vec_len out.old ≤ vec_len out.new }
    ensures len { vec_len out.new ≤ vec_len out.old + 36 }
    ensures capacity { vec_capacity out.old ≤ vec_capacity out.new }
{
    put_bytes(out, label);
    if number < 10 {
        put_bytes(out, &[48 + number as u8]);
    } else {
        put_digits(digits, out, number);
    }
}
