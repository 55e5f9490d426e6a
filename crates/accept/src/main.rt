// A day in the file `day` and a sheet in the file `sheet`: prints `same` where the sheet is the
// day's, else the number of the first line that departs.
//
// What is found is the judge's; this program only reads, calls it and prints. The day is read where
// the judge asks for it and the sheet otherwise, both no further than it takes to decide. A file
// that cannot be opened, and a folder, count as empty. A proved loop has to end, and nothing says
// that an input does, so the loop has a number of turns that no run uses up.
#![tactic(auto)]

ghost use Rattle.std.specs.Prelude.{◌≡◌, ◌+◌, ◌≤◌, length, Ok};
ghost use Rattle.accept.specs.Steps.{Holds};

use departure::Departure;
use feed::Feed;
use group::{Links, Table};
use judge::Judge;
use places::Packed;
use std::fmt::{self, Display, Formatter};
use std::fs::File;
use std::io::{Error, ErrorKind, Read};
use std::process::ExitCode;
use std::rt::Files;

// Why there is no answer.
#[derive(Drop)]
enum Trouble {
    Day(Error),
    Sheet(Error),
    Answer(Error),
    Turns,
}

impl Display for Trouble {
    fn fmt<W: fmt::Write>(&self, f: &mut Formatter<W>) -> fmt::Result {
        match self {
            Trouble::Day(why) => {
                write!(
                    f,
                    "the day cannot be read (check the file, run again): {why}"
                )
            }
            Trouble::Sheet(why) => {
                write!(
                    f,
                    "the sheet cannot be read (check the file, run again): {why}"
                )
            }
            Trouble::Answer(why) => write!(f, "the answer cannot be written: {why}"),
            Trouble::Turns => f.write_str("more turns than can be counted"),
        }
    }
}

// An input, beside its file and its buffer: what was read of it and not taken, from a place of the
// buffer to another; and whether it has ended.
#[derive(Clone, Copy)]
struct Source {
    from: usize,
    to: usize,
    ended: bool,
}

impl Source {
    // So many bytes were read, and none is taken.
    fn of(to: usize, ended: bool) -> Source
        ensures { (result.from ≡ 0) × (result.to ≡ to) }
    {
        Source { from: 0, to, ended }
    }

    // A read of no byte is the end. One that a signal cut short is made again, and a folder has
    // ended.
    fn read(file: &mut Option<impl Read>, buffer: &mut [u8]) -> Result<Source, Error>
        ensures { (x : Source) → result ≡ Ok x → Holds buffer.new x }
    {
        let Some(file) = file else {
            return Ok(Source::of(0, true));
        };
        match file.read(buffer) {
            Ok(n) => Ok(Source::of(n, n == 0)),
            Err(why) => match why.kind() {
                ErrorKind::Interrupted => Ok(Source::of(0, false)),
                ErrorKind::IsADirectory => Ok(Source::of(0, true)),
                _ => Err(why),
            },
        }
    }

    // Reads once where more is wanted, all was taken and the input has not ended.
    fn filled(
        self,
        wanted: bool,
        file: &mut Option<impl Read>,
        buffer: &mut [u8],
    ) -> Result<Source, Error>
        requires { Holds buffer.old self }
        ensures { (x : Source) → result ≡ Ok x → Holds buffer.new x }
    {
        if !wanted | self.ended | (self.from < self.to) {
            return Ok(self);
        }
        Source::read(file, buffer)
    }

    // n bytes more are taken.
    fn without(self, n: usize) -> Source
        requires { self.from + n ≤ self.to }
        ensures { (result.from ≡ self.from + n) × (result.to ≡ self.to) }
    {
        Source {
            from: self.from + n,
            ..self
        }
    }
}

// What is lent to the judge.
#[derive(Drop)]
struct Lent {
    line: [u8; Feed::LINE],
    words: Packed,
    whole: Links,
    due: [u8; Judge::DUE],
}

// Where the judge and both inputs stand.
#[derive(Clone, Copy)]
struct Run {
    judge: Judge,
    day: Source,
    sheet: Source,
}

impl Run {
    // Gives the judge what there is of the day, and reads on where it asks for more: lines that
    // have come may print much, and need no byte for it.
    fn give_day(
        self,
        lent: &mut Lent,
        file: &mut Option<impl Read>,
        buffer: &mut [u8],
    ) -> Result<Run, Trouble>
        requires { Holds buffer.old self.day }
        ensures { (r : Run) → result ≡ Ok r → Holds buffer.new r.day × (r.sheet ≡ self.sheet) }
    {
        let source = self.day;
        let given = self.judge.take_day(
            &mut lent.line,
            &mut lent.words,
            &mut lent.whole,
            &mut lent.due,
            &buffer[source.from..source.to],
            source.ended,
        );
        let judge = given.judge;
        let rest = source.without(given.used);
        let wanted = judge.asks(&lent.due);
        let day = rest.filled(wanted, file, buffer).map_err(Trouble::Day)?;
        Ok(Run { judge, day, ..self })
    }

    // Gives the judge what there is of the sheet.
    fn give_sheet(
        self,
        due: &[u8; Judge::DUE],
        file: &mut Option<impl Read>,
        buffer: &mut [u8],
    ) -> Result<Run, Trouble>
        requires { Holds buffer.old self.sheet }
        ensures { (r : Run) → result ≡ Ok r → Holds buffer.new r.sheet × (r.day ≡ self.day) }
    {
        let source = self.sheet;
        let sheet = source.filled(true, file, buffer).map_err(Trouble::Sheet)?;
        let given = self
            .judge
            .take_sheet(due, &buffer[sheet.from..sheet.to], sheet.ended);
        Ok(Run {
            judge: given.judge,
            sheet: sheet.without(given.used),
            ..self
        })
    }

    // The day where the judge asks for it, else the sheet.
    fn turn(
        self,
        lent: &mut Lent,
        day_file: &mut Option<impl Read>,
        sheet_file: &mut Option<impl Read>,
        day: &mut [u8],
        sheet: &mut [u8],
    ) -> Result<Run, Trouble>
        requires { Holds day.old self.day × Holds sheet.old self.sheet }
        ensures { (r : Run) → result ≡ Ok r → Holds day.new r.day × Holds sheet.new r.sheet }
    {
        if self.judge.asks(&lent.due) {
            self.give_day(lent, day_file, day)
        } else {
            self.give_sheet(&lent.due, sheet_file, sheet)
        }
    }

    // Turns until it is decided.
    fn finish(
        self,
        lent: &mut Lent,
        day_file: &mut Option<impl Read>,
        sheet_file: &mut Option<impl Read>,
        day: &mut [u8],
        sheet: &mut [u8],
    ) -> Result<Departure, Trouble>
        requires { Holds day.old self.day × Holds sheet.old self.sheet }
    {
        let mut now = self;
        for _ in 0..u64::MAX {
            if let Some(departure) = now.judge.judgement() {
                return Ok(departure);
            }
            now = now.turn(lent, day_file, sheet_file, day, sheet)?;
        }
        Err(Trouble::Turns)
    }
}

// Room for what one read brings.
fn room() -> [u8; 65536]
    ensures { 65536 ≡ length result }
{
    [0; 65536]
}

// The file of that name, if it can be opened.
fn opened<R: Files>(rt: &R, path: &str) -> Option<R::File> {
    File::open(rt, path).ok()
}

// Whether the sheet is the day's, or where it departs.
fn found(rt: &impl Files) -> Result<Departure, Trouble> {
    let mut lent = Lent {
        line: [0; Feed::LINE],
        words: [0; places::PACKED],
        whole: [true; Table::LINKS],
        due: [0; Judge::DUE],
    };
    let mut day = room();
    let mut sheet = room();
    let judge = Judge::begin(&mut lent.due);
    let mut day_file = opened(rt, "day");
    let mut sheet_file = opened(rt, "sheet");
    let run = Run {
        judge,
        day: Source::of(0, day_file.is_none()),
        sheet: Source::of(0, sheet_file.is_none()),
    };
    run.finish(
        &mut lent,
        &mut day_file,
        &mut sheet_file,
        &mut day,
        &mut sheet,
    )
}

// The answer, with a line feed.
fn print(rt: &impl Print, departure: Departure) -> Result<(), Error> {
    match departure {
        Departure::Same => rt.println("same"),
        Departure::At(line) => rt.println(line),
    }
}

// Prints what was found.
fn tell(rt: &(impl Files + Print)) -> Result<(), Trouble> {
    let departure = found(rt)?;
    print(rt, departure).map_err(Trouble::Answer)
}

// The status is 0 where an answer was printed, else 1, and then what went wrong was said.
fn main(rt: HostRuntime) -> ExitCode {
    match tell(&rt) {
        Ok(()) => ExitCode::SUCCESS,
        Err(trouble) => {
            // Where that cannot be said either, the status is left.
            let _ = eprintln!(rt; "accept: {trouble}");
            ExitCode::FAILURE
        }
    }
}
