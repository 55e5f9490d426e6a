// Asks the leaf functions the cases of the file `cases` and prints an answer line for each. The
// head of make.py tells the forms of a case and of its answer.
#![tactic(auto)]

use heartbeat::{Heartbeat, Rank};
use refusal::Refusal;
use std::io;
use text::Line;
use timecode::Timecode;

// Where an answer ends.
type Answer = Result<usize, Refusal>;

// ---- the fields of a case

// The number that a field writes, if the type has it.
fn number<N: TryFrom<u64, Error: Drop>>(field: &[u8]) -> Option<N> {
    N::try_from(asked::number(field, u64::MAX)?).ok()
}

// The first line of s and `more` bytes after it, or as many as there are.
fn line_and_more(s: &[u8], more: usize) -> &[u8] {
    let n = asked::first_line(s).len();
    if more <= s.len() - n {
        &s[..n + more]
    } else {
        s
    }
}

// ---- answers

fn value(n: u64, out: &mut [u8]) -> Answer {
    let at = text::write_bytes(out, 0, b"0\t")?;
    text::write_number(out, at, n)
}

// One value more, after those that end at the place `at`.
fn also(at: usize, n: u64, out: &mut [u8]) -> Answer {
    let after_tab = text::write_bytes(out, at, b"\t")?;
    text::write_number(out, after_tab, n)
}

// What `tell` writes of what was read, or the number of the refusal.
fn said<T, F: FnOnce(T, &mut [u8]) -> Answer>(
    read: Result<T, Refusal>,
    out: &mut [u8],
    tell: F,
) -> Answer
    requires { F.IsAlwaysCallable tell }
{
    match read {
        Ok(x) => tell(x, out),
        Err(k) => text::write_number(out, 0, u64::from(k.number())),
    }
}

fn values(h: Heartbeat, out: &mut [u8]) -> Answer {
    let bs = value(u64::from(h.bs), out)?;
    let priority = also(bs, u64::from(h.priority), out)?;
    let tiebreaker = also(priority, u64::from(h.tiebreaker), out)?;
    also(tiebreaker, u64::from(h.reveals()), out)
}

// A writer's answer, and the slice as it is now.
fn wrote(written: Answer, slice: &[u8], out: &mut [u8]) -> Answer {
    let answer = said(written, out, |n, out| value(n as u64, out))?;
    let at = text::write_bytes(out, answer, b"\t")?;
    text::write_bytes(out, at, slice)
}

// ---- readers: none of a case that makes no sense

// n LEAST GREATEST TEXT
fn read_number(s: &[u8], out: &mut [u8]) -> Option<Answer> {
    let s2 = text::after_field(s);
    let least = number(text::first_field(s))?;
    let greatest = number(text::first_field(s2))?;
    let read = text::read_number(text::after_field(s2), least, greatest);
    Some(said(read, out, value))
}

fn timecode(read: Result<Timecode, Refusal>, out: &mut [u8]) -> Answer {
    said(read, out, |t, out| value(u64::from(t.frame()), out))
}

// f FRAME
fn of_frame(s: &[u8], out: &mut [u8]) -> Option<Answer> {
    Some(timecode(Timecode::of_frame(number(s)?), out))
}

// h MORE TEXT, l MORE TEXT: s goes on to the end of the file. What they read.
fn text_on(s: &[u8]) -> Option<&[u8]> {
    let more = asked::number(text::first_field(s), 2)?;
    Some(line_and_more(text::after_field(s), more as usize))
}

fn read_heartbeat(s: &[u8], out: &mut [u8]) -> Option<Answer> {
    Some(said(Heartbeat::read(text_on(s)?), out, values))
}

fn read_line(s: &[u8], out: &mut [u8]) -> Option<Answer> {
    let read = Line::read(text_on(s)?);
    Some(said(read, out, |l, out| value(l.length as u64, out)))
}

// ---- writers: each into a slice, at a place

fn write_number(s: &[u8], slice: &mut [u8], at: usize) -> Option<Answer> {
    Some(text::write_number(slice, at, number(s)?))
}

fn write_bytes(s: &[u8], slice: &mut [u8], at: usize) -> Option<Answer> {
    Some(text::write_bytes(slice, at, s))
}

fn write_label(read: Result<Timecode, Refusal>, slice: &mut [u8], at: usize) -> Answer {
    read?.write(slice, at)
}

fn write_timecode(s: &[u8], slice: &mut [u8], at: usize) -> Option<Answer> {
    Some(write_label(Timecode::of_frame(number(s)?), slice, at))
}

fn write_heartbeat(s: &[u8], slice: &mut [u8], at: usize) -> Option<Answer> {
    let s2 = text::after_field(s);
    let s3 = text::after_field(s2);
    let h = Heartbeat {
        bs: number(text::first_field(s))?,
        priority: number(text::first_field(s2))?,
        tiebreaker: number(text::first_field(s3))?,
        reveal: number(text::after_field(s3))?,
    };
    Some(h.write(slice, at))
}

// w LENGTH AT NUMBER, s LENGTH AT TEXT, g LENGTH AT FRAME, b LENGTH AT BS PRIORITY TIEBREAKER
// REVEAL
fn write_into<F: FnOnce(&[u8], &mut [u8], usize) -> Option<Answer>>(
    s: &[u8],
    out: &mut [u8],
    write: F,
) -> Option<Answer>
    requires { F.IsAlwaysCallable write }
{
    let s2 = text::after_field(s);
    let length = asked::number(text::first_field(s), 64)?;
    let at = number(text::first_field(s2))?;
    let mut dots = [b'.'; 64];
    let slice = &mut dots[..length as usize];
    let written = write(text::after_field(s2), slice, at)?;
    Some(wrote(written, slice, out))
}

// ---- the others

// r P I Q J
fn higher(s: &[u8], out: &mut [u8]) -> Option<Answer> {
    let s2 = text::after_field(s);
    let s3 = text::after_field(s2);
    let a = Rank {
        priority: number(text::first_field(s))?,
        identity: number(text::first_field(s2))?,
    };
    let b = Rank {
        priority: number(text::first_field(s3))?,
        identity: number(text::after_field(s3))?,
    };
    Some(value(u64::from(a.higher(b)), out))
}

// e A B
fn same(s: &[u8], out: &mut [u8]) -> Answer {
    let is = text::same(text::first_field(s), text::after_field(s));
    value(u64::from(is), out)
}

// k
fn numbers(out: &mut [u8]) -> Answer {
    let mut at = text::write_bytes(out, 0, b"0")?;
    for k in asked::REFUSALS {
        at = also(at, u64::from(k.number()), out)?;
    }
    Ok(at)
}

// ---- the file

// What a case asks.
#[derive(Clone, Copy)]
enum Kind {
    ReadNumber,
    ReadTimecode,
    OfFrame,
    ReadHeartbeat,
    ReadLine,
    WriteNumber,
    WriteBytes,
    WriteTimecode,
    WriteHeartbeat,
    Higher,
    FieldCount,
    Same,
    Numbers,
}

impl Kind {
    fn of(letter: u8) -> Option<Kind> {
        match letter {
            b'n' => Some(Kind::ReadNumber),
            b't' => Some(Kind::ReadTimecode),
            b'f' => Some(Kind::OfFrame),
            b'h' => Some(Kind::ReadHeartbeat),
            b'l' => Some(Kind::ReadLine),
            b'w' => Some(Kind::WriteNumber),
            b's' => Some(Kind::WriteBytes),
            b'g' => Some(Kind::WriteTimecode),
            b'b' => Some(Kind::WriteHeartbeat),
            b'r' => Some(Kind::Higher),
            b'c' => Some(Kind::FieldCount),
            b'e' => Some(Kind::Same),
            b'k' => Some(Kind::Numbers),
            _ => None,
        }
    }

    // How many fields a case has, its letter among them; its last may hold tabs.
    fn fields(self) -> usize {
        match self {
            Kind::ReadTimecode | Kind::OfFrame | Kind::FieldCount => 2,
            Kind::ReadHeartbeat | Kind::ReadLine | Kind::Same => 3,
            Kind::ReadNumber | Kind::WriteNumber | Kind::WriteBytes | Kind::WriteTimecode => 4,
            Kind::Higher => 5,
            Kind::WriteHeartbeat => 7,
            Kind::Numbers => 1,
        }
    }

    // s is the case after its letter, tail the file from there.
    fn ask(self, s: &[u8], tail: &[u8], out: &mut [u8]) -> Option<Answer> {
        match self {
            Kind::ReadNumber => read_number(s, out),
            Kind::ReadTimecode => Some(timecode(Timecode::read(s), out)),
            Kind::OfFrame => of_frame(s, out),
            Kind::ReadHeartbeat => read_heartbeat(tail, out),
            Kind::ReadLine => read_line(tail, out),
            Kind::WriteNumber => write_into(s, out, write_number),
            Kind::WriteBytes => write_into(s, out, write_bytes),
            Kind::WriteTimecode => write_into(s, out, write_timecode),
            Kind::WriteHeartbeat => write_into(s, out, write_heartbeat),
            Kind::Higher => higher(s, out),
            Kind::FieldCount => Some(value(text::field_count(s) as u64, out)),
            Kind::Same => Some(same(s, out)),
            Kind::Numbers => Some(numbers(out)),
        }
    }
}

fn answer(line: &[u8], tail: &[u8], out: &mut [u8]) -> Option<Answer> {
    let kind = Kind::of(asked::letter(line)?)?;
    if text::field_count(line) < kind.fields() {
        return None;
    }
    kind.ask(text::after_field(line), text::after_field(tail), out)
}

// The answer, with a line feed.
fn answer_line(line: &[u8], tail: &[u8], out: &mut [u8]) -> Answer {
    let said = match answer(line, tail, out) {
        Some(said) => said?,
        None => text::write_bytes(out, 0, b"case?")?,
    };
    text::write_bytes(out, said, b"\n")
}

// Answers the case of a line, with which tail begins.
fn one(rt: &impl Print, line: &[u8], tail: &[u8]) -> io::Result<()> {
    let mut out = [0u8; 256];
    let written = answer_line(line, tail, &mut out);
    asked::print(rt, &out, written, b"long?\n")
}

fn run(rt: &impl Print, file: &[u8]) -> io::Result<()> {
    if file.len() < 65536 {
        asked::each_line(file, |line, tail| one(rt, line, tail))
    } else {
        println!(rt; "cases: more than 65,535 bytes")
    }
}

fn main(rt: HostRuntime) -> io::Result<()> {
    let mut buffer = [0; 65536];
    match asked::load(&rt, "cases", &mut buffer)? {
        Some(n) => run(&rt, &buffer[..n]),
        None => println!(&rt; "cases: cannot be opened"),
    }
}
