// Whether a sheet is that of a day, in one call on both.
#![tactic(auto)]

ghost use Rattle.std.specs.Prelude.{◌≡◌};
ghost use Rattle.departure.specs.Departure.{judged};
ghost use Rattle.dayjudge.specs.Steps.{Turns};

use departure::Departure;
use feed::Feed;
use group::{Links, Table};
use judge::Judge;
use places::Packed;

// How many bytes of the day and of the sheet were taken, and the judge then.
#[derive(Clone, Copy)]
struct Turned {
    day: usize,
    sheet: usize,
    judge: Judge,
}

// The rest of the day where it is asked for, else the rest of the sheet.
fn turn(
    judge: Judge,
    line: &mut [u8; Feed::LINE],
    words: &mut Packed,
    whole: &mut Links,
    due: &mut [u8; Judge::DUE],
    day: &[u8],
    sheet: &[u8],
) -> Turned
    ensures { Turns judge line.old words.old whole.old due.old day.now sheet.now result line.new words.new whole.new due.new }
{
    if judge.asks(due) {
        let given = judge.take_day(line, words, whole, due, day, true);
        let next = given.judge;
        return Turned {
            day: given.used,
            sheet: 0,
            judge: next,
        };
    }
    let given = judge.take_sheet(due, sheet, true);
    let next = given.judge;
    Turned {
        day: 0,
        sheet: given.used,
        judge: next,
    }
}

// Whether a sheet is that of a day, or the number of the first line that departs.
pub fn departure(day: &[u8], sheet: &[u8]) -> Departure
    ensures { result ≡ judged day.now sheet.now }
{
    let mut due = [0; Judge::DUE];
    let mut line = [0; Feed::LINE];
    let mut words = [0; places::PACKED];
    let mut whole = [true; Table::LINKS];
    let mut judge = Judge::begin(&mut due);
    let mut i: usize = 0;
    let mut j: usize = 0;
    while judge.is_open() {
        let turned = turn(
            judge,
            &mut line,
            &mut words,
            &mut whole,
            &mut due,
            &day[i..],
            &sheet[j..],
        );
        let next = turned.judge;
        judge = next;
        i += turned.day;
        j += turned.sheet;
    }
    judge.judgement().unwrap_or(Departure::Same)
}
