// The sheet of a day that comes in pieces, printed as far as it is known and there is room: the
// loop over a feed.
#![tactic(auto)]

ghost use Rattle.std.specs.Prelude.{◌≡◌};
ghost use Rattle.printer.specs.Answers.{written_bytes, PrintsIn};
ghost use Rattle.printer.specs.Steps.{Steps, Ends, TurnsIn, RunsIn};

use feed::{Feed, Step};
use group::Links;
use places::Packed;
use refusal::Refusal;

// How many bytes of the piece were taken, how many were written, and whether the sheet is over; 9
// where the slice is too short for the next lines, and then the feed as it was.
#[derive(Clone, Copy)]
pub struct Printed {
    pub written: Result<usize, Refusal>,
    pub used: usize,
    pub over: bool,
    pub feed: Feed,
}

// A turn: how many bytes of the piece it took, and how many it wrote; none where there was nothing
// to do, and 9 where the slice is too short for its lines.
#[derive(Clone, Copy)]
struct Turned {
    written: Result<Option<usize>, Refusal>,
    used: usize,
    feed: Feed,
}

// Turns, what they took and wrote; 9 where the slice is too short for the first.
#[derive(Clone, Copy)]
struct Ran {
    written: Result<usize, Refusal>,
    used: usize,
    feed: Feed,
}

// How many bytes were written; 0 where that was refused.
pub fn bytes(written: Result<usize, Refusal>) -> usize
    ensures { result ≡ written_bytes written }
{
    written.unwrap_or(0)
}

// A turn that was a step.
fn stepped(step: Step) -> Turned
    ensures { Steps step result }
{
    Turned {
        written: step.written.map(Some),
        used: 0,
        feed: step.feed,
    }
}

// The end of the input, where no byte is left.
fn end(feed: Feed, line: &[u8; Feed::LINE], last: bool, out: &mut [u8]) -> Turned
    ensures { Ends feed line.now last out.old result out.new }
{
    if !last | feed.over() {
        return Turned {
            written: Ok(None),
            used: 0,
            feed,
        };
    }
    let step = feed.finish(line, out);
    stepped(step)
}

// Steps where a whole line is to be done, else bytes of the piece, else the end of the input.
fn turn(
    feed: Feed,
    line: &mut [u8; Feed::LINE],
    words: &mut Packed,
    whole: &mut Links,
    piece: &[u8],
    last: bool,
    out: &mut [u8],
) -> Turned
    ensures { TurnsIn feed line.old words.old whole.old piece.now last out.old result line.new words.new whole.new out.new }
{
    if feed.waits(line) {
        let step = feed.steps(line, words, whole, out);
        return stepped(step);
    }
    if piece.is_empty() {
        return end(feed, line, last, out);
    }
    let taken = feed.take(line, piece);
    let wrote = (!feed.over()).then_some(0);
    Turned {
        written: Ok(wrote),
        used: taken.used,
        feed: taken.feed,
    }
}

// All turns that fit, one after the other.
fn run(
    feed: Feed,
    line: &mut [u8; Feed::LINE],
    words: &mut Packed,
    whole: &mut Links,
    piece: &[u8],
    last: bool,
    out: &mut [u8],
) -> Ran
    ensures { RunsIn feed line.old words.old whole.old piece.now last out.old result line.new words.new whole.new out.new }
{
    let mut now = feed;
    let mut used: usize = 0;
    let mut at: usize = 0;
    let mut first = true;
    loop {
        let turned = turn(
            now,
            line,
            words,
            whole,
            &piece[used..],
            last,
            &mut out[at..],
        );
        now = turned.feed;
        used += turned.used;
        match turned.written {
            Ok(Some(n)) => at += n,
            Ok(None) => return Ran {
                written: Ok(at),
                used,
                feed: now,
            },
            Err(k) if first => return Ran {
                written: Err(k),
                used,
                feed: now,
            },
            Err(_) => return Ran {
                written: Ok(at),
                used,
                feed: now,
            },
        }
        first = false;
    }
}

// As much of the sheet as is known and fits, at the slice's start: what the pieces so far and this
// one say, and where it is the last, what the end of the input says; 9.
pub fn print(
    feed: Feed,
    line: &mut [u8; Feed::LINE],
    words: &mut Packed,
    whole: &mut Links,
    piece: &[u8],
    last: bool,
    out: &mut [u8],
) -> Printed
    ensures { PrintsIn feed line.old words.old whole.old piece.now last out.old result line.new words.new whole.new out.new }
{
    let ran = run(feed, line, words, whole, piece, last, out);
    Printed {
        written: ran.written,
        used: ran.used,
        over: ran.feed.over(),
        feed: ran.feed,
    }
}
