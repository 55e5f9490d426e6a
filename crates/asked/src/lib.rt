// What the test programs share: a file read into a buffer, its lines, the numbers of a line, and an
// answer printed.
#![tactic(auto)]

ghost use Rattle.std.specs.Prelude.{◌≡◌, ◌+◌, ◌<◌, ◌≤◌, length, drop, IfOk, IfSome};
ghost use Rattle.std.specs.Io.{ReadsAtMost};
ghost use Rattle.asked.specs.Lines.{number_in, letter_in, first_line, after_line};

use refusal::Refusal;
use std::io::Read;
use std::rt::Files;
use std::{fs, io};

// ---- the numbers of a line

// The number that a field writes, up to the greatest.
pub fn number(field: &[u8], greatest: u64) -> Option<u64>
    ensures value { result ≡ number_in greatest field.now }
    ensures n_le_greatest { IfSome result (λ n. n ≤ greatest) }
{
    match text::read_number(field, 0, greatest) {
        Ok(n) => Some(n),
        Err(_) => None,
    }
}

// ---- the lines of a file

// The letter that is a line's first field.
pub fn letter(line: &[u8]) -> Option<u8>
    ensures { result ≡ letter_in line.now }
{
    match text::first_field(line) {
        [letter] => Some(*letter),
        _ => None,
    }
}

// The first line of s, without its line feed.
pub fn first_line(s: &[u8]) -> &[u8]
    ensures line { result.now ≡ first_line s.now }
    ensures within { length result.now ≤ length s.now }
{
    let end = text::find(s, b'\n');
    &s[..end]
}

// What follows a line that ends at the place `end`, and its line feed.
fn after(s: &[u8], end: usize) -> &[u8]
    requires { end ≤ length s.now }
    ensures rest { result.now ≡ drop (end + 1) s.now }
    ensures within { length result.now ≤ length s.now }
    ensures shorter { 0 < length s.now → length result.now < length s.now }
{
    if end < s.len() {
        &s[end + 1..]
    } else {
        &s[end..]
    }
}

// What follows the first line and its line feed.
pub fn after_line(s: &[u8]) -> &[u8]
    ensures rest { result.now ≡ after_line s.now }
    ensures within { length result.now ≤ length s.now }
    ensures shorter { 0 < length s.now → length result.now < length s.now }
{
    after(s, text::find(s, b'\n'))
}

// Asks of each line, and of what begins with it in the file. Where a line ends is looked for once.
pub fn each_line<F: FnMut(&[u8], &[u8]) -> io::Result<()>>(
    file: &[u8],
    mut ask: F,
) -> io::Result<()>
    requires { F.IsAlwaysCallable ask }
{
    let mut tail = file;
    while !tail.is_empty() {
        let line = first_line(tail);
        ask(line, tail)?;
        tail = after(tail, line.len());
    }
    Ok(())
}

// ---- a file

// Reads until buf is full or the input ends, and answers how many bytes it put at the start of buf.
pub fn read_full(from: &mut impl Read, buf: &mut [u8]) -> io::Result<usize>
    ensures { ReadsAtMost result buf.new }
{
    let mut done = 0;
    while done < buf.len() {
        let n = from.read(&mut buf[done..])?;
        if n == 0 {
            break;
        }
        done += n;
    }
    Ok(done)
}

// Reads a file as read_full does, and closes it; none where it cannot be opened.
pub fn load(rt: &impl Files, name: &str, buf: &mut [u8]) -> io::Result<Option<usize>>
    ensures { IfOk result (λ read. IfSome read (λ n. n ≤ length buf.new)) }
{
    let Ok(mut file) = fs::open(rt, name) else {
        return Ok(None);
    };
    let n = read_full(&mut file, buf)?;
    drop(file);
    Ok(Some(n))
}

// ---- an answer

// All refusals, in the order of document 01.
pub const REFUSALS: [Refusal; 15] = [
    Refusal::Form,
    Refusal::Number,
    Refusal::Timecode,
    Refusal::Place,
    Refusal::Taken,
    Refusal::Servers,
    Refusal::Period,
    Refusal::Identity,
    Refusal::Short,
    Refusal::Past,
    Refusal::Down,
    Refusal::Up,
    Refusal::Role,
    Refusal::Link,
    Refusal::DayOver,
];

// Prints the answer that stands in `out`, or `otherwise` where it did not fit.
pub fn print(
    rt: &impl Print,
    out: &[u8],
    written: Result<usize, Refusal>,
    otherwise: &[u8],
) -> io::Result<()> {
    let answer = written.ok().and_then(|n| out.get(..n));
    rt.write_all(answer.unwrap_or(otherwise))
}
