// A day on standard input, its sheet on standard output.
//
// What is printed is the printer's; this program only reads, calls it and writes. A proved loop has
// to end, and nothing says that an input does, so each loop has a number of turns that no run uses
// up.
#![tactic(auto)]

ghost use Rattle.std.specs.Prelude.{◌≡◌, ◌*◌, length};
ghost use Rattle.feeding.specs.Bound.{step_bytes};

use feed::Feed;
use group::{Links, Table};
use places::Packed;
use refusal::Refusal;
use std::fmt::{self, Display, Formatter};
use std::io::{Error, ErrorKind, Read};
use std::process::ExitCode;

// What keeps the sheet from being whole.
#[derive(Drop)]
enum Trouble {
    Read(Error),
    Write(Error),
    Place,
    Short,
    Turns,
}

impl Display for Trouble {
    fn fmt<W: fmt::Write>(&self, f: &mut Formatter<W>) -> fmt::Result {
        match self {
            Trouble::Read(why) => write!(f, "the day cannot be read: {why}"),
            Trouble::Write(why) => write!(f, "the sheet cannot be written: {why}"),
            Trouble::Place => f.write_str("the sheet cannot be written"),
            Trouble::Short => f.write_str("the next lines do not fit"),
            Trouble::Turns => f.write_str("the day takes more turns than can be counted"),
        }
    }
}

// Room for what one call prints: twice what a step needs, so that no call gets 9.
fn room() -> [u8; 2 * Feed::STEP]
    ensures { 2 * step_bytes ≡ length result }
{
    [0; 2 * Feed::STEP]
}

// Room for what one read brings.
fn piece_room() -> [u8; 65536]
    ensures { 65536 ≡ length result }
{
    [0; 65536]
}

// Writes what was printed. With so much room nothing is refused; were it so, that would be said.
fn put(rt: &impl Print, written: Result<usize, Refusal>, out: &[u8]) -> Result<(), Trouble> {
    let n = written.map_err(|_| Trouble::Short)?;
    let bytes = out.get(..n).ok_or(Trouble::Place)?;
    rt.write_all(bytes).map_err(Trouble::Write)
}

// A day under way: where it stands, and what is lent to its feed.
#[derive(Drop)]
struct Day {
    feed: Feed,
    line: [u8; Feed::LINE],
    words: Packed,
    whole: Links,
}

impl Day {
    // All of a piece, and where it is the last, the end of the input.
    fn print_all(
        &mut self,
        rt: &impl Print,
        piece: &[u8],
        last: bool,
        out: &mut [u8],
    ) -> Result<(), Trouble> {
        let mut used: usize = 0;
        for _ in 0..u64::MAX {
            if self.feed.over() | (!last & (used >= piece.len())) {
                return Ok(());
            }
            let printed = printer::print(
                self.feed,
                &mut self.line,
                &mut self.words,
                &mut self.whole,
                &piece[used..],
                last,
                out,
            );
            put(rt, printed.written, out)?;
            self.feed = printed.feed;
            used += printed.used;
        }
        Err(Trouble::Turns)
    }

    // Reads once, and does what came: whether the day goes on. A read that a signal cut short is
    // made again.
    fn read_on(
        &mut self,
        rt: &impl Print,
        input: &mut impl Read,
        piece: &mut [u8],
        out: &mut [u8],
    ) -> Result<bool, Trouble> {
        match input.read(piece) {
            Ok(n) => {
                self.print_all(rt, &piece[..n], n == 0, out)?;
                Ok((n > 0) & !self.feed.over())
            }
            Err(why) if why.kind() == ErrorKind::Interrupted => Ok(true),
            Err(why) => Err(Trouble::Read(why)),
        }
    }

    // The whole input.
    fn read_all(
        &mut self,
        rt: &impl Print,
        input: &mut impl Read,
        piece: &mut [u8],
        out: &mut [u8],
    ) -> Result<(), Trouble> {
        for _ in 0..u64::MAX {
            if !self.read_on(rt, input, piece, out)? {
                return Ok(());
            }
        }
        Err(Trouble::Turns)
    }
}

// The sheet of the day on the input.
fn sheet(rt: &impl Print, input: &mut impl Read) -> Result<(), Trouble> {
    let mut out = room();
    let mut piece = piece_room();
    let begun = Feed::begin(&mut out);
    put(rt, begun.written, &out)?;
    let mut day = Day {
        feed: begun.feed,
        line: [0; Feed::LINE],
        words: [0; places::PACKED],
        whole: [true; Table::LINKS],
    };
    day.read_all(rt, input, &mut piece, &mut out)
}

// The status is 0 where all went well, else 1, and then what went wrong was said.
fn main(rt: HostRuntime) -> ExitCode {
    let mut input = rt.reader();
    match sheet(&rt, &mut input) {
        Ok(()) => ExitCode::SUCCESS,
        Err(trouble) => {
            // Where that cannot be said either, the status is left.
            let _ = eprintln!(rt; "sheet: {trouble}");
            ExitCode::FAILURE
        }
    }
}
