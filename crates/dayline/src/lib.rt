// A line of a day, read.
#![tactic(auto)]

ghost use Rattle.std.specs.Prelude.{◌≡◌, [], ◌∷◌, length};
ghost use Rattle.lists.specs.Choice.{choose};
ghost use Rattle.lists.specs.Lists.{up_to, same};
ghost use Rattle.refusal.specs.Answer.{accepted, in_turn};
ghost use Rattle.text.specs.Line.{field, after_field};
ghost use Rattle.timecode.specs.Read.{read_timecode};
ghost use Rattle.heartbeat.specs.Rank.{read_identity, read_priority};
ghost use Rattle.day.specs.Read.{called, when_good, verb_named, body_read, line_read};
ghost use Rattle.dayline.specs.DayLine.{of_day_line};
ghost use Rattle.dayline.specs.Steps.{of_named, counted, period_of, server_of, end_of, entry_of, read_period, read_second, entry_read, fields_of, entry_named};

use heartbeat::Rank;
use periods::Period;
use refusal::Refusal;
use roles::Verb;
use text::Line;
use timecode::Timecode;

// What a line says. A verb of one identity has 0 as the second.
#[derive(Clone, Copy)]
pub enum DayLine {
    Period(u32),
    Server {
        identity: u16,
        priority: u8,
    },
    Entry {
        time: u32,
        verb: Verb,
        first: u16,
        second: u16,
    },
    End(u32),
}

// ---- words

// The verb where s is its word, else what the words after it found.
fn called(s: &[u8], word: &[u8], verb: Verb, other: Option<Verb>) -> Option<Verb>
    ensures { of_named result ≡ choose (same s.now word.now) (called verb) (of_named other) }
{
    if text::same(s, word) {
        Some(verb)
    } else {
        other
    }
}

// The verb that s names, by the words from the last to the first.
fn verb_named(s: &[u8]) -> Option<Verb>
    ensures { of_named result ≡ verb_named s.now }
{
    let mend = called(s, b"mend", Verb::Mend, None);
    let cut = called(s, b"cut", Verb::Cut, mend);
    let restart = called(s, b"restart", Verb::Restart, cut);
    let crash = called(s, b"crash", Verb::Crash, restart);
    let pass = called(s, b"pass", Verb::Pass, crash);
    let unready = called(s, b"unready", Verb::Unready, pass);
    let ready = called(s, b"ready", Verb::Ready, unready);
    called(s, b"start", Verb::Start, ready)
}

// ---- a field and what follows it, by the place of the first tab, which is looked for once

fn field_to(s: &[u8], tab: usize) -> &[u8]
    requires { tab ≡ up_to 9 s.now }
    ensures { result.now ≡ field s.now 0 }
{
    let start = 0;
    &s[start..tab]
}

fn field_from(s: &[u8], tab: usize) -> &[u8]
    requires { tab ≡ up_to 9 s.now }
    ensures { result.now ≡ after_field s.now }
{
    if tab < s.len() {
        let start = tab + 1;
        &s[start..]
    } else {
        &s[tab..]
    }
}

// ---- the fields after the line's word

fn read_period(s: &[u8]) -> Result<DayLine, Refusal>
    ensures { of_day_line result ≡ when_good (read_period (field s.now 0)) period_of }
{
    let frames = text::read_number(text::first_field(s), Period::MIN as u64, Period::MAX as u64)?;
    Ok(DayLine::Period(frames as u32))
}

fn read_server(s: &[u8]) -> Result<DayLine, Refusal>
    ensures { of_day_line result ≡ when_good (in_turn (read_identity (field s.now 0)) (read_priority (field s.now 1))) server_of }
{
    let identity = Rank::read_identity(text::first_field(s))?;
    let rest = text::after_field(s);
    let priority = Rank::read_priority(text::first_field(rest))?;
    Ok(DayLine::Server {
        identity: identity as u16,
        priority: priority as u8,
    })
}

fn read_end(s: &[u8]) -> Result<DayLine, Refusal>
    ensures { of_day_line result ≡ when_good (read_timecode (field s.now 0)) end_of }
{
    let time = Timecode::read(text::first_field(s))?;
    Ok(DayLine::End(time.frame()))
}

// ---- the fields of an entry: its time, and s after its verb

fn from_second(verb: Verb, time: u32, first: u16, s: &[u8]) -> Result<DayLine, Refusal>
    ensures { of_day_line result ≡ when_good (in_turn (accepted (time ∷ first ∷ [])) (read_identity (field s.now 0))) (entry_of verb) }
{
    let second = Rank::read_identity(text::first_field(s))?;
    Ok(DayLine::Entry {
        time,
        verb,
        first,
        second: second as u16,
    })
}

fn after_first(verb: Verb, time: u32, first: u16, s: &[u8]) -> Result<DayLine, Refusal>
    ensures { of_day_line result ≡ when_good (in_turn (accepted (time ∷ first ∷ [])) (read_second verb (field s.now 0))) (entry_of verb) }
{
    if roles::paired(verb) {
        from_second(verb, time, first, s)
    } else {
        Ok(DayLine::Entry {
            time,
            verb,
            first,
            second: 0,
        })
    }
}

fn from_first(verb: Verb, time: u32, s: &[u8]) -> Result<DayLine, Refusal>
    ensures { of_day_line result ≡ when_good (in_turn (accepted (time ∷ [])) (in_turn (read_identity (field s.now 0)) (read_second verb (field s.now 1)))) (entry_of verb) }
{
    let tab = text::find(s, b'\t');
    let first = Rank::read_identity(field_to(s, tab))?;
    after_first(verb, time, first as u16, field_from(s, tab))
}

fn read_entry(verb: Verb, time: &[u8], s: &[u8]) -> Result<DayLine, Refusal>
    ensures { of_day_line result ≡ when_good (entry_read verb time.now s.now) (entry_of verb) }
{
    let time = Timecode::read(time)?;
    from_first(verb, time.frame(), s)
}

// ---- the count of fields comes before what they say

fn counted(count: usize, due: usize, line: Result<DayLine, Refusal>) -> Result<DayLine, Refusal>
    ensures { of_day_line result ≡ counted count due (of_day_line line) }
{
    if count == due {
        line
    } else {
        Err(Refusal::Form)
    }
}

fn fields_of(verb: Verb) -> usize
    ensures { result ≡ fields_of verb }
{
    if roles::paired(verb) { 4 } else { 3 }
}

// An entry of so many fields; s is what follows its time.
fn from_verb(time: &[u8], s: &[u8], count: usize) -> Result<DayLine, Refusal>
    ensures { of_day_line result ≡ entry_named (verb_named (field s.now 0)) time.now (after_field s.now) count }
{
    let tab = text::find(s, b'\t');
    let verb = verb_named(field_to(s, tab)).ok_or(Refusal::Form)?;
    counted(
        count,
        fields_of(verb),
        read_entry(verb, time, field_from(s, tab)),
    )
}

fn read_body(s: &[u8]) -> Result<DayLine, Refusal>
    ensures { of_day_line result ≡ body_read s.now }
{
    let count = text::field_count(s);
    let tab = text::find(s, b'\t');
    let first = field_to(s, tab);
    let rest = field_from(s, tab);
    if text::same(first, b"period") {
        return counted(count, 2, read_period(rest));
    }
    if text::same(first, b"server") {
        return counted(count, 3, read_server(rest));
    }
    if text::same(first, b"end") {
        return counted(count, 2, read_end(rest));
    }
    from_verb(first, rest, count)
}

impl DayLine {
    // What a line says, its line feed included: 1, then 2 and 3 field by field.
    pub fn read(line: &[u8]) -> Result<DayLine, Refusal>
        ensures { of_day_line result ≡ line_read line.now }
    {
        let whole = Line::read(line)?;
        read_body(&line[..whole.length])
    }
}
