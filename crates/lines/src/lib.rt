// The sheet's lines about servers, written or only counted.
#![tactic(auto)]

ghost use Rattle.std.specs.Prelude.{◌≡◌, true, ◌++◌, ◌+◌, ◌^◌, ◌≤◌, ◌<◌, length};
ghost use Rattle.lists.specs.Choice.{choose};
ghost use Rattle.text.specs.Digits.{digits};
ghost use Rattle.text.specs.Write.{room_for, Writes};
ghost use Rattle.text.specs.Steps.{Pieces};
ghost use Rattle.roles.specs.Words.{word_bytes};
ghost use Rattle.lines.specs.Lines.{line_end, line, lines_of, refused_word, refused_line, Says};

use refusal::Refusal;
use roles::{Said, Word};
use timecode::Timecode;

// No line of an event has more bytes.
pub const LONGEST: usize = 27;

fn word_length(word: Word) -> usize
    ensures { result ≡ length (word_bytes word) }
{
    match word {
        Word::Sync => 4,
        Word::Backup => 6,
        Word::Prospect => 8,
        Word::Primary => 7,
        Word::Idle => 4,
        Word::Down => 4,
        Word::Beat => 4,
        Word::Reveal => 6,
        Word::Pass => 4,
        Word::Lower => 5,
        Word::Cut => 3,
        Word::Mended => 6,
    }
}

fn line_length(frame: u32, identity: u16, word: Word) -> usize
    ensures { (result ≡ length (line frame identity (word_bytes word))) × (result ≤ 42) }
{
    text::width(identity as u64) + word_length(word) + 14
}

fn said_length(frame: u32, identity: u16, said: Said) -> usize
    ensures { result ≡ length (lines_of frame identity said) }
{
    match said {
        Said::Nothing => 0,
        Said::One(w) => line_length(frame, identity, w),
        Said::Two(v, w) => line_length(frame, identity, v) + line_length(frame, identity, w),
    }
}

// ---- the pieces of a line, where they fit: nothing is tested again

// Bytes. Where their number is fixed, the compiler sees that they fit this part of the slice.
fn put_bytes(out: &mut [u8], at: usize, bytes: &[u8]) -> usize
    requires { at + length bytes.now ≤ length out.old }
    ensures { Writes out.old at bytes.now (Ok result) out.new }
{
    let end = at + bytes.len();
    out[at..end].copy_from_slice(bytes);
    end
}

// A number, by the digit writer of `text`.
fn put_number(out: &mut [u8], at: usize, n: u16) -> usize
    requires { at + length (digits n) ≤ length out.old }
    ensures { Writes out.old at (digits n) (Ok result) out.new }
{
    text::write_number(out, at, n as u64).unwrap()
}

// The tab, the word and the line feed.
fn put_end(out: &mut [u8], at: usize, word: Word) -> usize
    requires { at + length (line_end (word_bytes word)) ≤ length out.old }
    ensures { Writes out.old at (line_end (word_bytes word)) (Ok result) out.new }
{
    match word {
        Word::Sync => put_bytes(out, at, b"\tsync\n"),
        Word::Backup => put_bytes(out, at, b"\tbackup\n"),
        Word::Prospect => put_bytes(out, at, b"\tprospect\n"),
        Word::Primary => put_bytes(out, at, b"\tprimary\n"),
        Word::Idle => put_bytes(out, at, b"\tidle\n"),
        Word::Down => put_bytes(out, at, b"\tdown\n"),
        Word::Beat => put_bytes(out, at, b"\tbeat\n"),
        Word::Reveal => put_bytes(out, at, b"\treveal\n"),
        Word::Pass => put_bytes(out, at, b"\tpass\n"),
        Word::Lower => put_bytes(out, at, b"\tlower\n"),
        Word::Cut => put_bytes(out, at, b"\tcut\n"),
        Word::Mended => put_bytes(out, at, b"\tmended\n"),
    }
}

fn put_line(out: &mut [u8], at: usize, frame: u32, identity: u16, word: Word) -> usize
    requires { at + length (line frame identity (word_bytes word)) ≤ length out.old }
    ensures { Writes out.old at (line frame identity (word_bytes word)) (Ok result) out.new }
{
    let label = Timecode::label_of(frame);
    let a = put_bytes(out, at, &label);
    let b = put_bytes(out, a, b"\t");
    let c = put_number(out, b, identity);
    put_end(out, c, word)
}

fn put_two(out: &mut [u8], at: usize, frame: u32, identity: u16, v: Word, w: Word) -> usize
    requires { at + length (line frame identity (word_bytes v) ++ line frame identity (word_bytes w)) ≤ length out.old }
    ensures { Writes out.old at (line frame identity (word_bytes v) ++ line frame identity (word_bytes w)) (Ok result) out.new }
{
    let next = put_line(out, at, frame, identity, v);
    put_line(out, next, frame, identity, w)
}

// ---- the lines about a server

// The place after n bytes in a slice that has `end` of them; one past the end where they do not
// fit.
fn place(end: usize, at: usize, n: usize) -> usize
    requires { end + 1 < 2 ^ 64 }
    ensures { result ≡ choose (room_for end at n) (at + n) (end + 1) }
{
    if text::fits(end, at, n) {
        at + n
    } else {
        end + 1
    }
}

fn write_one(out: &mut [u8], at: usize, frame: u32, identity: u16, w: Word) -> usize
    ensures { Says true out.old at (line frame identity (word_bytes w)) result out.new }
{
    if text::fits(out.len(), at, line_length(frame, identity, w)) {
        put_line(out, at, frame, identity, w)
    } else {
        out.len() + 1
    }
}

fn write_two(out: &mut [u8], at: usize, frame: u32, identity: u16, v: Word, w: Word) -> usize
    ensures { Says true out.old at (line frame identity (word_bytes v) ++ line frame identity (word_bytes w)) result out.new }
{
    let n = line_length(frame, identity, v) + line_length(frame, identity, w);
    if text::fits(out.len(), at, n) {
        put_two(out, at, frame, identity, v, w)
    } else {
        out.len() + 1
    }
}

fn write(out: &mut [u8], at: usize, frame: u32, identity: u16, said: Said) -> usize
    ensures { Says true out.old at (lines_of frame identity said) result out.new }
{
    match said {
        Said::Nothing => place(out.len(), at, 0),
        Said::One(w) => write_one(out, at, frame, identity, w),
        Said::Two(v, w) => write_two(out, at, frame, identity, v, w),
    }
}

// The lines of what happened to a server, if they fit: written at the place, or only counted where
// `wet` is not set. Answers the place after them; one past the end of the slice where they do not
// fit, and then no byte is changed.
pub fn say(out: &mut [u8], wet: bool, at: usize, frame: u32, identity: u16, said: Said) -> usize
    ensures { Says wet out.old at (lines_of frame identity said) result out.new }
{
    if wet {
        write(out, at, frame, identity, said)
    } else {
        place(out.len(), at, said_length(frame, identity, said))
    }
}

// ---- the line of a refusal

fn refused_length(identity: u16, n: u8) -> usize
    ensures { result ≡ length (digits identity) + length (refused_word n) + 14 }
{
    text::width(identity as u64) + text::width(n as u64) + 22
}

fn put_refused(out: &mut [u8], frame: u32, identity: u16, n: u8) -> Result<usize, Refusal>
    ensures { Pieces out.old 0 (line frame identity (refused_word n)) result out.new }
{
    let label = Timecode::label_of(frame);
    let time = text::write_bytes(out, 0, &label)?;
    let tab = text::write_bytes(out, time, b"\t")?;
    let server = text::write_number(out, tab, identity as u64)?;
    let word = text::write_bytes(out, server, b"\trefused-")?;
    let number = text::write_number(out, word, n as u64)?;
    text::write_bytes(out, number, b"\n")
}

// The line of a refused call of a server, at the slice's start; 9.
pub fn write_refused(
    out: &mut [u8],
    frame: u32,
    identity: u16,
    refusal: Refusal,
) -> Result<usize, Refusal>
    ensures { Writes out.old 0 (refused_line frame identity refusal) result out.new }
{
    let n = refusal.number();
    if text::fits(out.len(), 0, refused_length(identity, n)) {
        put_refused(out, frame, identity, n)
    } else {
        Err(Refusal::Short)
    }
}
