// Numbers, fields and words: read from a slice, and written into a lent one.
#![tactic(auto)]

ghost use Rattle.std.specs.Prelude.{◌≡◌, true, false, ◌+◌, ◌≤◌, length};
ghost use Rattle.lists.specs.Lists.{same, up_to};
ghost use Rattle.text.specs.Digits.{digits};
ghost use Rattle.text.specs.Number.{of_number, read_number};
ghost use Rattle.text.specs.Line.{of_line, read_line, fields, field, after_field};
ghost use Rattle.text.specs.Write.{room_for, Writes, WritesNumber};
ghost use Rattle.text.specs.Steps.{bad_start, read_from, read_digit, at_least};

use refusal::Refusal;

// A line: how many bytes stand before its line feed.
#[derive(Clone, Copy)]
pub struct Line {
    pub length: usize,
}

// ---- reading

// The place of the first byte b, or the length.
pub fn find(s: &[u8], b: u8) -> usize
    ensures { result ≡ up_to b s.now }
{
    s.iter().position(|x| *x == b).unwrap_or(s.len())
}

// Whether the bytes are those of a word.
pub fn same(s: &[u8], word: &[u8]) -> bool
    ensures { result ≡ same s.now word.now }
{
    s == word
}

impl Line {
    // The bytes that a line has at most, without its line feed.
    pub const LIMIT: usize = 64;

    // The line that s is, with its line feed, or 1.
    pub fn read(s: &[u8]) -> Result<Line, Refusal>
        ensures { of_line result ≡ read_line s.now }
    {
        let n = find(s, b'\n');
        if n > Line::LIMIT {
            return Err(Refusal::Form);
        }
        if n + 1 == s.len() {
            Ok(Line { length: n })
        } else {
            Err(Refusal::Form)
        }
    }
}

// The bytes before the first tab.
pub fn first_field(s: &[u8]) -> &[u8]
    ensures { result.now ≡ field s.now 0 }
{
    let start = 0;
    let end = find(s, b'\t');
    &s[start..end]
}

// The bytes after the first tab.
pub fn after_field(s: &[u8]) -> &[u8]
    ensures { result.now ≡ after_field s.now }
{
    let tab = find(s, b'\t');
    if tab < s.len() {
        let start = tab + 1;
        &s[start..]
    } else {
        &s[tab..]
    }
}

// How many fields the tabs part.
pub fn field_count(s: &[u8]) -> usize
    ensures { result ≡ length (fields s.now) }
{
    let mut n: usize = 1;
    for x in s {
        n += usize::from(*x == b'\t');
    }
    n
}

// No byte at all, or a 0 before another byte.
fn bad_start(s: &[u8]) -> bool
    ensures { result ≡ bad_start s.now }
{
    if s.len() == 0 {
        return true;
    }
    if s.len() == 1 {
        return false;
    }
    s[0] == b'0'
}

// The number n with one digit more, at most the greatest. No product or sum here exceeds it.
fn read_digit(n: u64, x: u8, greatest: u64) -> Result<u64, Refusal>
    ensures { of_number result ≡ read_digit greatest n x }
{
    if x < b'0' {
        return Err(Refusal::Number);
    }
    if x > b'9' {
        return Err(Refusal::Number);
    }
    if n > greatest / 10 {
        return Err(Refusal::Number);
    }
    let digit = (x - b'0') as u64;
    if digit > greatest - n * 10 {
        return Err(Refusal::Number);
    }
    Ok(n * 10 + digit)
}

fn read_digits(s: &[u8], greatest: u64) -> Result<u64, Refusal>
    ensures { of_number result ≡ read_from greatest 0 s.now }
{
    let mut n: u64 = 0;
    for x in s {
        n = read_digit(n, *x, greatest)?;
    }
    Ok(n)
}

fn at_least(n: u64, least: u64) -> Result<u64, Refusal>
    ensures { of_number result ≡ at_least least n }
{
    if n < least {
        Err(Refusal::Number)
    } else {
        Ok(n)
    }
}

// The number that a whole field writes, from the least to the greatest.
pub fn read_number(s: &[u8], least: u64, greatest: u64) -> Result<u64, Refusal>
    ensures { of_number result ≡ read_number least greatest s.now }
{
    if bad_start(s) {
        return Err(Refusal::Number);
    }
    let n = read_digits(s, greatest)?;
    at_least(n, least)
}

// ---- writing

// Whether n bytes fit into a slice that has room for so many, from the place `at` on.
pub fn fits(room: usize, at: usize, n: usize) -> bool
    ensures { result ≡ room_for room at n }
{
    if at > room { false } else { n <= room - at }
}

// How many digits n has.
pub fn width(n: u64) -> usize
    ensures { result ≡ length (digits n) }
{
    if n < 10 { 1 } else { width(n / 10) + 1 }
}

// The most digits that a number has.
const DIGITS: usize = 20;

// Whether the digits of n fit. They are counted only where the most that a number has would not.
fn digits_fit(room: usize, at: usize, n: u64) -> bool
    ensures { result ≡ room_for room at (length (digits n)) }
{
    if fits(room, at, DIGITS) {
        true
    } else {
        fits(room, at, width(n))
    }
}

// The digits of n, where they fit.
fn put_digits(out: &mut [u8], at: usize, n: u64) -> usize
    requires { at + length (digits n) ≤ length out.old }
    ensures { Writes out.old at (digits n) (Ok result) out.new }
{
    if n < 10 {
        out[at] = b'0' + (n % 10) as u8;
        at + 1
    } else {
        let last = put_digits(out, at, n / 10);
        out[last] = b'0' + (n % 10) as u8;
        last + 1
    }
}

// The digits of n into the slice, or 9 and no byte changed.
pub fn write_number(out: &mut [u8], at: usize, n: u64) -> Result<usize, Refusal>
    ensures { WritesNumber out.old at n result out.new }
{
    if digits_fit(out.len(), at, n) {
        Ok(put_digits(out, at, n))
    } else {
        Err(Refusal::Short)
    }
}

// The bytes of a word, where they fit.
fn put_bytes(out: &mut [u8], at: usize, word: &[u8]) -> usize
    requires { at + length word.now ≤ length out.old }
    ensures { Writes out.old at word.now (Ok result) out.new }
{
    let end = at + word.len();
    out[at..end].copy_from_slice(word);
    end
}

// The bytes of a word into the slice, or 9 and no byte changed.
pub fn write_bytes(out: &mut [u8], at: usize, word: &[u8]) -> Result<usize, Refusal>
    ensures { Writes out.old at word.now result out.new }
{
    if fits(out.len(), at, word.len()) {
        Ok(put_bytes(out, at, word))
    } else {
        Err(Refusal::Short)
    }
}
