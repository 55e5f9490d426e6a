// The sheet of a whole day, in one call.
#![tactic(auto)]

ghost use Rattle.std.specs.Prelude.{◌≡◌, ◌≤◌, leb, length};
ghost use Rattle.text.specs.Write.{Writes};
ghost use Rattle.day.specs.Sheet.{sheet};
ghost use Rattle.feeding.specs.Bound.{step_bytes};
ghost use Rattle.daysheet.specs.Steps.{Spends};

use feed::Feed;
use group::Table;
use refusal::Refusal;

// What is left where the bytes written fit into it.
fn spend(written: Result<usize, Refusal>, left: usize) -> Option<usize>
    ensures { Spends written left result }
{
    let n = written.ok()?;
    left.checked_sub(n)
}

// Whether the sheet of a day fits into so many bytes; the scratch slice has room for a step.
fn fits(day: &[u8], scratch: &mut [u8], room: usize) -> bool
    requires { step_bytes ≤ length scratch.old }
    ensures { result ≡ leb (length (sheet day.now)) room }
{
    let begun = Feed::begin(scratch);
    let Some(mut left) = spend(begun.written, room) else {
        return false;
    };
    let mut line = [0; Feed::LINE];
    let mut words = [0; places::PACKED];
    let mut whole = [true; Table::LINKS];
    let mut feed = begun.feed;
    let mut i: usize = 0;
    while !feed.over() {
        let printed = printer::print(
            feed,
            &mut line,
            &mut words,
            &mut whole,
            &day[i..],
            true,
            scratch,
        );
        let Some(rest) = spend(printed.written, left) else {
            return false;
        };
        left = rest;
        i += printed.used;
        feed = printed.feed;
    }
    true
}

// The sheet of a day into a slice in which it fits: its length.
fn write(day: &[u8], out: &mut [u8]) -> usize
    requires { length (sheet day.now) ≤ length out.old }
    ensures { Writes out.old 0 (sheet day.now) (Ok result) out.new }
{
    let begun = Feed::begin(out);
    let header = begun.written;
    let at = printer::bytes(header);
    let mut line = [0; Feed::LINE];
    let mut words = [0; places::PACKED];
    let mut whole = [true; Table::LINKS];
    let printed = printer::print(
        begun.feed,
        &mut line,
        &mut words,
        &mut whole,
        day,
        true,
        &mut out[at..],
    );
    at + printer::bytes(printed.written)
}

// The sheet of a whole day, at the slice's start; 9 where it does not fit, and then no byte is
// changed.
pub fn sheet(day: &[u8], out: &mut [u8]) -> Result<usize, Refusal>
    ensures { Writes out.old 0 (sheet day.now) result out.new }
{
    let mut scratch = [0; Feed::STEP];
    if fits(day, &mut scratch, out.len()) {
        Ok(write(day, out))
    } else {
        Err(Refusal::Short)
    }
}
