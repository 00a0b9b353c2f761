// Numbers in decimal, written three digits at a time from the front.

ghost use Rattle.std.specs.Prelude.{◌≡◌, ℕ, ◌<◌, ◌≤◌, ◌+◌, ◌/◌, ◌%◌, ◌++◌, length, take, drop, decimal};
ghost use Rattle.fit_text.specs.declared.writing.decimal.digits.TheConstants.{DIGITS};
ghost use Rattle.fit_text.specs.Pen.{Places, three};

mod digits;

use digits::DIGITS;

/// Places the digits of a number, and returns the place after them. It may change some of the bytes after that.
#[inline]
pub fn place_number(bytes: &mut [u8], at: usize, number: u64) -> usize
    requires { at + 21 ≤ length bytes.old }
    ensures { Places bytes.old bytes.new at (decimal number) result }
{
    if number < 1000 {
        return place_first(bytes, at, number as u32);
    }
    place_long(bytes, at, number)
}

// A number of any length.
#[inline(never)]
fn place_long(bytes: &mut [u8], at: usize, number: u64) -> usize
    requires { at + 21 ≤ length bytes.old }
    ensures { Places bytes.old bytes.new at (decimal number) result }
{
    if number < 1_000_000 {
        return place_short(bytes, at, number as u32);
    }
    if number < 1_000_000_000 {
        return place_nine(bytes, at, number as u32);
    }
    place_longest(bytes, at, number)
}

// A number of ten digits and more.
#[inline(never)]
fn place_longest(bytes: &mut [u8], at: usize, number: u64) -> usize
    requires long { 1000000000 ≤ number }
    requires room { at + 21 ≤ length bytes.old }
    ensures { Places bytes.old bytes.new at (decimal number) result }
{
    if number < 1_000_000_000_000 {
        return place_twelve(bytes, at, number);
    }
    let at = place_twelve(bytes, at, number / 1_000_000_000_000);
    let at = place_six(bytes, at, (number / 1_000_000 % 1_000_000) as u32);
    place_six(bytes, at, (number % 1_000_000) as u32)
}

// A number of at most twelve digits.
fn place_twelve(bytes: &mut [u8], at: usize, number: u64) -> usize
    requires short { number < 1000000000000 }
    requires room { at + 13 ≤ length bytes.old }
    ensures { Places bytes.old bytes.new at (decimal number) result }
{
    if number < 1_000_000 {
        return place_short(bytes, at, number as u32);
    }
    let at = place_short(bytes, at, (number / 1_000_000) as u32);
    place_six(bytes, at, (number % 1_000_000) as u32)
}

// A number of seven to nine digits.
#[inline]
fn place_nine(bytes: &mut [u8], at: usize, number: u32) -> usize
    requires long { 1000000 ≤ number }
    requires short { number < 1000000000 }
    requires room { at + 10 ≤ length bytes.old }
    ensures { Places bytes.old bytes.new at (decimal number) result }
{
    let at = place_first(bytes, at, number / 1_000_000);
    place_six(bytes, at, number % 1_000_000)
}

// Six digits.
#[inline]
fn place_six(bytes: &mut [u8], at: usize, number: u32) -> usize
    requires short { number < 1000000 }
    requires room { at + 7 ≤ length bytes.old }
    ensures { Places bytes.old bytes.new at (three (number / 1000)
        ++ three (number % 1000)) result }
{
    let at = place_three(bytes, at, number / 1000);
    place_three(bytes, at, number % 1000)
}

// A number of at most six digits.
#[inline]
fn place_short(bytes: &mut [u8], at: usize, number: u32) -> usize
    requires short { number < 1000000 }
    requires room { at + 7 ≤ length bytes.old }
    ensures { Places bytes.old bytes.new at (decimal number) result }
{
    if number < 1000 {
        return place_first(bytes, at, number);
    }
    let at = place_first(bytes, at, number / 1000);
    place_three(bytes, at, number % 1000)
}

// A number of at most three digits.
#[inline]
fn place_first(bytes: &mut [u8], at: usize, number: u32) -> usize
    requires short { number < 1000 }
    requires room { at + 4 ≤ length bytes.old }
    ensures { Places bytes.old bytes.new at (decimal number) result }
{
    let digits = 1 + usize::from(number >= 10) + usize::from(number >= 100);
    copy_digits(bytes, at, 3 * number as usize + 3 - digits);
    at + digits
}

// Three digits.
#[inline]
fn place_three(bytes: &mut [u8], at: usize, number: u32) -> usize
    requires short { number < 1000 }
    requires room { at + 4 ≤ length bytes.old }
    ensures { Places bytes.old bytes.new at (three number) result }
{
    copy_digits(bytes, at, 3 * number as usize);
    at + 3
}

// Copies four digits, from this place of the table on. Four bytes at a known place are one move.
#[inline]
fn copy_digits(bytes: &mut [u8], at: usize, from: usize)
    requires digits { from + 4 ≤ 3003 }
    requires room { at + 4 ≤ length bytes.old }
    ensures { (n : ℕ) → n ≤ 4
        → take (at + n) bytes.new ≡ take at bytes.old ++ take n (drop from DIGITS) }
{
    let four = [
        DIGITS[from],
        DIGITS[from + 1],
        DIGITS[from + 2],
        DIGITS[from + 3],
    ];
    bytes[at..at + 4].copy_from_slice(&four);
}
