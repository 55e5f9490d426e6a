// A day fed in pieces, and its sheet line by line. The line under way, the servers' numbers and the
// links are lent, and changed in place.
#![tactic(auto)]

ghost use Rattle.std.specs.Prelude.{◌≡◌, true, [], ◌+◌, ◌-◌, ◌≤◌, ◌<◌, length, take};
ghost use Rattle.refusal.specs.Answer.{of_verdict, number_of};
ghost use Rattle.text.specs.Write.{Writes};
ghost use Rattle.text.specs.Steps.{Pieces};
ghost use Rattle.periods.specs.Period.{least_period, greatest_period, beat_limit};
ghost use Rattle.group.specs.Table.{empty, is_table, fresh_refusal, fresh};
ghost use Rattle.places.specs.Words.{servers_of};
ghost use Rattle.day.specs.Read.{entry, end, line_read};
ghost use Rattle.day.specs.Day.{on, atServers, stop, period_effect, add_effect, server_effect, call_effect, entry_effect, end_effect, last_line, beyond};
ghost use Rattle.day.specs.Sheet.{input_refusal, finish};
ghost use Rattle.dayline.specs.DayLine.{of_said, of_day_line};
ghost use Rattle.feeding.specs.Fed.{whole_line};
ghost use Rattle.feeding.specs.Moves.{ended, stopping, going, effect_move, frames_now, advancing, placed_move, line_move, step_move, steps_move};
ghost use Rattle.feeding.specs.Steps.{on_move, Sized};
ghost use Rattle.feed.specs.Answers.{fed_of, Begins, Waits, IsOver, TakesTo, MakesIn, Finishes};
ghost use Rattle.feed.specs.Steps.{with_length, Fills, Made, Does, Keeps, Becomes, IsOf, FollowsAll, turned, Puts, refusing, RefusesCall, Opens};

use dayline::DayLine;
use group::{Links, State, Table};
use periods::Period;
use places::Packed;
use refusal::Refusal;
use roles::Verb;
use server::Server;
use text::Line;

// Which lines have come.
#[derive(Clone, Copy)]
pub enum Stage {
    AtPeriod,
    AtServers,
    AtEntries,
    AtClose,
}

// Where a day stands: whether its sheet is over; the number of the line under way, and how many
// bytes of it are there; which lines have come; the frame and the period. The rest is lent: the
// line's bytes, the servers as numbers (`places`), the links.
#[derive(Clone, Copy)]
pub struct Feed {
    over: bool,
    number: u32,
    length: usize,
    stage: Stage,
    frame: u32,
    period: Period,
}

// How many bytes of a piece were taken.
#[derive(Clone, Copy)]
pub struct Taken {
    pub used: usize,
    pub feed: Feed,
}

// How many bytes were written, and the feed afterwards; 9 where the slice is too short, and then
// the feed as it was, or for `begin` one that has printed no header.
#[derive(Clone, Copy)]
pub struct Step {
    pub written: Result<usize, Refusal>,
    pub feed: Feed,
}

impl Feed {
    // So many bytes of a line are looked at: one more than a line may have makes it too long.
    pub const LINE: usize = Line::LIMIT + 1;

    // Lines of a day, at most.
    pub const LINES: u32 = 65535;

    // So many bytes are enough for every step of a feed that began, took and stepped: no frame
    // prints more.
    pub const STEP: usize = Table::SERVERS
        * (2 * lines::LONGEST * (Table::SERVERS * (Server::BEATS as usize + 2))
            + 6 * lines::LONGEST);

    // The header, and the day before its first line; 9.
    pub fn begin(out: &mut [u8]) -> Step
        ensures { Begins out.old result out.new }
    {
        let written = text::write_bytes(out, 0, b"time\tserver\twhat\n");
        let period = Period::shortest();
        let feed = Feed {
            over: false,
            number: 1,
            length: 0,
            stage: Stage::AtPeriod,
            frame: 0,
            period,
        };
        Step { written, feed }
    }
}

// ---- bytes

// How many of the first n bytes of a slice there are.
fn present(line: &[u8], n: usize) -> usize
    ensures { result ≡ length (take n line.now) }
{
    let all = line.len();
    if n < all { n } else { all }
}

// Whether all that is looked at of a line is there, of which n bytes are.
fn is_whole(line: &[u8], n: usize) -> bool
    ensures { result ≡ whole_line (take n line.now) }
{
    let m = present(line, n);
    if m >= Feed::LINE {
        return true;
    }
    if m == 0 {
        return false;
    }
    line[m - 1] == b'\n'
}

// A line with bytes of a piece in it.
#[derive(Clone, Copy)]
struct Filled {
    line: [u8; Feed::LINE],
    used: usize,
    feed: Feed,
}

impl Feed {
    // Whether a whole line is to be done.
    pub fn waits(self, line: &[u8; Feed::LINE]) -> bool
        ensures { Waits self line.now result }
    {
        !self.over & is_whole(line, self.length)
    }

    // Whether the sheet is over.
    pub fn over(self) -> bool
        ensures { IsOver self result }
    {
        self.over
    }

    // A line with so many bytes more.
    fn filled(self, line: [u8; Feed::LINE], used: usize) -> Filled
        requires { self.length + used < 18446744073709551616 }
        ensures line { result.line ≡ line }
        ensures used { result.used ≡ used }
        ensures feed { result.feed ≡ with_length self (self.length + used) }
    {
        let mut feed = self;
        feed.length += used;
        Filled { line, used, feed }
    }

    fn fill(self, bytes: [u8; Feed::LINE], piece: &[u8]) -> Filled
        ensures { Fills self bytes piece.now result }
    {
        let mut line = bytes;
        if self.over | is_whole(&bytes, self.length) {
            return self.filled(line, 0);
        }
        for (i, &x) in piece.iter().enumerate() {
            let n = self.length + i;
            line[n] = x;
            if (n + 1 >= Feed::LINE) | (x == b'\n') {
                return self.filled(line, i + 1);
            }
        }
        self.filled(line, piece.len())
    }

    // Bytes of a piece, up to the line feed of the line under way or until it is too long; none
    // where a whole line is to be done, or the sheet is over.
    pub fn take(self, line: &mut [u8; Feed::LINE], piece: &[u8]) -> Taken
        ensures { TakesTo self line.old piece.now result line.new }
    {
        let filled = self.fill(*line, piece);
        let after = filled.line;
        *line = after;
        let feed = filled.feed;
        Taken {
            used: filled.used,
            feed,
        }
    }
}

// ---- the line of an input refusal

fn refusal_length(number: u32, n: u8) -> usize
    ensures { result ≡ length (input_refusal number n) }
{
    text::width(number as u64) + text::width(n as u64) + 15
}

fn put_refusal(out: &mut [u8], number: u32, n: u8) -> Result<usize, Refusal>
    ensures { Pieces out.old 0 (input_refusal number n) result out.new }
{
    let line = text::write_bytes(out, 0, b"line\t")?;
    let count = text::write_number(out, line, number as u64)?;
    let word = text::write_bytes(out, count, b"\trefused-")?;
    let refusal = text::write_number(out, word, n as u64)?;
    text::write_bytes(out, refusal, b"\n")
}

// At the slice's start; 9.
fn write_refusal(out: &mut [u8], number: u32, refusal: Refusal) -> Result<usize, Refusal>
    ensures { Writes out.old 0 (input_refusal number (number_of refusal)) result out.new }
{
    let n = refusal.number();
    if text::fits(out.len(), 0, refusal_length(number, n)) {
        put_refusal(out, number, n)
    } else {
        Err(Refusal::Short)
    }
}

// ---- what a feed becomes

impl Feed {
    // The feed after a write, or the same one where that was refused.
    fn put(self, after: Feed, written: Result<usize, Refusal>) -> Step
        ensures { Puts self after written result }
    {
        match written {
            Ok(n) => Step {
                written: Ok(n),
                feed: after,
            },
            Err(k) => Step {
                written: Err(k),
                feed: self,
            },
        }
    }

    // The line is refused, and the sheet over; 9.
    fn stop(self, k: Refusal, out: &mut [u8]) -> Step
        ensures { Keeps self (λ f c. stopping f (number_of k)) out.old result out.new }
    {
        let written = write_refusal(out, self.number, k);
        let mut after = self;
        after.over = true;
        self.put(after, written)
    }

    // The next line.
    fn turned(self, stage: Stage) -> Feed
        requires { self.number ≤ last_line }
        ensures { result ≡ turned self stage }
    {
        let period = self.period;
        Feed {
            over: self.over,
            number: self.number + 1,
            length: 0,
            stage,
            frame: self.frame,
            period,
        }
    }
}

// ---- lines before the entries

impl Feed {
    // The next line, on the fresh channel of a table.
    fn listed(self, words: &mut Packed, whole: &mut Links, table: Table, period: Period) -> Step
        requires { (self.number ≤ last_line) × (is_table table.servers ≡ true) }
        ensures { Becomes self words.old whole.old (λ f c. going f [] (on atServers (fresh table (beat_limit period)))) result words.new whole.new }
    {
        let servers = table.servers();
        *words = places::words_of(servers);
        *whole = [true; Table::LINKS];
        let mut next = self.turned(Stage::AtServers);
        next.frame = 0;
        next.period = period;
        Step {
            written: Ok(0),
            feed: next,
        }
    }

    fn first_line(self, words: &mut Packed, whole: &mut Links, period: u32, out: &mut [u8]) -> Step
        requires { (self.number ≤ last_line) × (least_period ≤ period) × (period ≤ greatest_period) }
        ensures { Does self words.old whole.old (λ f c. going f [] (on atServers (fresh empty period))) out.old result words.new whole.new out.new }
    {
        let table = Table::empty();
        match Period::of(period) {
            Ok(p) => self.listed(words, whole, table, p),
            Err(k) => self.stop(k, out),
        }
    }

    // `period`: 4.
    fn set_period(self, words: &mut Packed, whole: &mut Links, period: u32, out: &mut [u8]) -> Step
        requires { (self.number ≤ last_line) × (least_period ≤ period) × (period ≤ greatest_period) }
        ensures { Does self words.old whole.old (λ f c. effect_move f (period_effect f.day.stage period)) out.old result words.new whole.new out.new }
    {
        let stage = self.stage;
        match stage {
            Stage::AtPeriod => self.first_line(words, whole, period, out),
            Stage::AtServers => self.stop(Refusal::Place, out),
            Stage::AtEntries => self.stop(Refusal::Place, out),
            Stage::AtClose => self.stop(Refusal::Place, out),
        }
    }

    // 5, 6.
    fn add_to(
        self,
        words: &mut Packed,
        whole: &mut Links,
        table: Table,
        identity: u16,
        priority: u8,
        out: &mut [u8],
    ) -> Step
        requires { (self.number ≤ last_line) × (table.servers ≡ servers_of words.old) }
        ensures { Does self words.old whole.old (λ f c. effect_move f (add_effect c identity priority)) out.old result words.new whole.new out.new }
    {
        let added = table.add(identity, priority);
        let verdict = added.verdict;
        let longer = added.table;
        let period = self.period;
        match verdict {
            Ok(()) => self.listed(words, whole, longer, period),
            Err(k) => self.stop(k, out),
        }
    }

    // The same, of the servers so far.
    fn add(
        self,
        words: &mut Packed,
        whole: &mut Links,
        identity: u16,
        priority: u8,
        out: &mut [u8],
    ) -> Step
        requires { self.number ≤ last_line }
        ensures { Does self words.old whole.old (λ f c. effect_move f (add_effect c identity priority)) out.old result words.new whole.new out.new }
    {
        let made = Table::of(places::servers_of(words));
        let verdict = made.verdict;
        let table = made.table;
        match verdict {
            Ok(()) => self.add_to(words, whole, table, identity, priority, out),
            Err(k) => self.stop(k, out),
        }
    }

    // `server`: 4.
    fn add_server(
        self,
        words: &mut Packed,
        whole: &mut Links,
        identity: u16,
        priority: u8,
        out: &mut [u8],
    ) -> Step
        requires { self.number ≤ last_line }
        ensures { Does self words.old whole.old (λ f c. effect_move f (server_effect f.day.stage f.day.channel identity priority)) out.old result words.new whole.new out.new }
    {
        let stage = self.stage;
        match stage {
            Stage::AtPeriod => self.stop(Refusal::Place, out),
            Stage::AtServers => self.add(words, whole, identity, priority, out),
            Stage::AtEntries => self.stop(Refusal::Place, out),
            Stage::AtClose => self.stop(Refusal::Place, out),
        }
    }
}

// ---- entries and `end`

impl Feed {
    // 6, 7.
    fn complete(self, words: &Packed) -> Result<(), Refusal>
        ensures { of_verdict result ≡ fresh_refusal (record { servers = servers_of words.now }) (beat_limit self.period) }
    {
        let made = Table::of(places::servers_of(words));
        made.verdict?;
        self.opens(made.table)
    }

    fn opens(self, table: Table) -> Result<(), Refusal>
        ensures { of_verdict result ≡ fresh_refusal table (beat_limit self.period) }
    {
        let period = self.period;
        let opened = State::fresh(table, period.beat_limit());
        opened.verdict
    }

    // Whether entries may come: 4, 6, 7.
    fn open(self, words: &Packed) -> Result<(), Refusal>
        ensures { Opens self words.now result }
    {
        let stage = self.stage;
        match stage {
            Stage::AtPeriod => Err(Refusal::Place),
            Stage::AtServers => self.complete(words),
            Stage::AtEntries => Ok(()),
            Stage::AtClose => Err(Refusal::Place),
        }
    }

    // The line of a refusal from the state; 9.
    fn refuse(self, identity: u16, k: Refusal, out: &mut [u8]) -> Step
        requires { (self.number ≤ last_line) × Made self.stage }
        ensures { Keeps self (refusing identity (number_of k)) out.old result out.new }
    {
        let written = lines::write_refused(out, self.frame, identity, k);
        let after = self.turned(Stage::AtEntries);
        self.put(after, written)
    }

    // As many frames towards a later time as fit; 9.
    fn advance(self, words: &mut Packed, whole: &Links, time: u32, out: &mut [u8]) -> Step
        requires { (self.frame < time) × Made self.stage }
        ensures { Does self words.old whole.now (λ f c. advancing f c (frames_now c (time - c.frame) (length out.old))) out.old result words.new whole.now out.new }
    {
        let period = self.period;
        let ran = frames::run_within(words, whole, period, self.frame, time, out);
        match ran.written {
            Ok(written) => {
                let next = Feed {
                    over: self.over,
                    number: self.number,
                    length: self.length,
                    stage: Stage::AtEntries,
                    frame: ran.frame,
                    period,
                };
                Step {
                    written: Ok(written),
                    feed: next,
                }
            }
            Err(k) => Step {
                written: Err(k),
                feed: self,
            },
        }
    }

    // The number of a refused verb; 9.
    fn refuse_call(self, identity: u16, k: Refusal, out: &mut [u8]) -> Step
        requires { (self.number ≤ last_line) × Made self.stage }
        ensures { RefusesCall self identity k out.old result out.new }
    {
        if k == Refusal::Short {
            Step {
                written: Err(k),
                feed: self,
            }
        } else {
            self.refuse(identity, k, out)
        }
    }

    // The verb of an entry at the present time; 9.
    fn call(
        self,
        words: &mut Packed,
        whole: &mut Links,
        verb: Verb,
        a: u16,
        b: u16,
        out: &mut [u8],
    ) -> Step
        requires { (self.number ≤ last_line) × Made self.stage }
        ensures { Does self words.old whole.old (λ f c. effect_move f (call_effect [] c verb a b)) out.old result words.new whole.new out.new }
    {
        match verbs::act(words, whole, self.frame, verb, a, b, out) {
            Ok(written) => Step {
                written: Ok(written),
                feed: self.turned(Stage::AtEntries),
            },
            Err(k) => self.refuse_call(a, k, out),
        }
    }

    // An entry on the channel: 8, 11, its time, its verb.
    fn enter(
        self,
        words: &mut Packed,
        whole: &mut Links,
        time: u32,
        verb: Verb,
        a: u16,
        b: u16,
        out: &mut [u8],
    ) -> Step
        requires { (self.number ≤ last_line) × Made self.stage }
        ensures { Does self words.old whole.old (λ f c. on_move f (length out.old) c (entry time verb a b) (entry_effect c time verb a b)) out.old result words.new whole.new out.new }
    {
        if !verbs::knows(words, verb, a, b) {
            return self.stop(Refusal::Identity, out);
        }
        if time < self.frame {
            return self.refuse(a, Refusal::Past, out);
        }
        if self.frame < time {
            return self.advance(words, whole, time, out);
        }
        self.call(words, whole, verb, a, b, out)
    }

    // `end` on the channel: 11, its time.
    fn end(self, words: &mut Packed, whole: &Links, time: u32, out: &mut [u8]) -> Step
        requires { (self.number ≤ last_line) × Made self.stage }
        ensures { Does self words.old whole.now (λ f c. on_move f (length out.old) c (end time) (end_effect c time)) out.old result words.new whole.now out.new }
    {
        let frame = self.frame;
        if time < frame {
            return self.refuse(0, Refusal::Past, out);
        }
        if frame < time {
            return self.advance(words, whole, time, out);
        }
        Step {
            written: Ok(0),
            feed: self.turned(Stage::AtClose),
        }
    }

    // An entry: 4, 6, 7 before all else.
    fn enter_open(
        self,
        words: &mut Packed,
        whole: &mut Links,
        time: u32,
        verb: Verb,
        a: u16,
        b: u16,
        out: &mut [u8],
    ) -> Step
        requires { self.number ≤ last_line }
        ensures { Does self words.old whole.old (λ f c. placed_move f (length out.old) (entry time verb a b)) out.old result words.new whole.new out.new }
    {
        let verdict = self.open(words);
        match verdict {
            Ok(()) => self.enter(words, whole, time, verb, a, b, out),
            Err(k) => self.stop(k, out),
        }
    }

    // `end`: 4, 6, 7 before all else.
    fn end_open(self, words: &mut Packed, whole: &Links, time: u32, out: &mut [u8]) -> Step
        requires { self.number ≤ last_line }
        ensures { Does self words.old whole.now (λ f c. placed_move f (length out.old) (end time)) out.old result words.new whole.now out.new }
    {
        let verdict = self.open(words);
        match verdict {
            Ok(()) => self.end(words, whole, time, out),
            Err(k) => self.stop(k, out),
        }
    }
}

// ---- a step

// The refusal of a line beyond the last.
fn beyond(line: Result<DayLine, Refusal>) -> Refusal
    ensures { beyond (of_day_line line) ≡ stop (number_of result) }
{
    match line {
        Ok(_) => Refusal::Place,
        Err(k) => k,
    }
}

// What the first n bytes of a line say.
fn read(line: &[u8], n: usize) -> Result<DayLine, Refusal>
    ensures { of_day_line result ≡ line_read (take n line.now) }
{
    let end = present(line, n);
    DayLine::read(&line[..end])
}

impl Feed {
    // A line of the first 65,535.
    fn perform(self, words: &mut Packed, whole: &mut Links, line: DayLine, out: &mut [u8]) -> Step
        requires { (self.number ≤ last_line) × Sized (of_said line) }
        ensures { Does self words.old whole.old (λ f c. placed_move f (length out.old) (of_said line)) out.old result words.new whole.new out.new }
    {
        match line {
            DayLine::Period(period) => self.set_period(words, whole, period, out),
            DayLine::Server { identity, priority } => {
                self.add_server(words, whole, identity, priority, out)
            }
            DayLine::Entry {
                time,
                verb,
                first,
                second,
            } => self.enter_open(words, whole, time, verb, first, second, out),
            DayLine::End(time) => self.end_open(words, whole, time, out),
        }
    }

    // A line.
    fn go(
        self,
        words: &mut Packed,
        whole: &mut Links,
        line: Result<DayLine, Refusal>,
        out: &mut [u8],
    ) -> Step
        requires { Sized (of_day_line line) }
        ensures { Does self words.old whole.old (λ f c. line_move f (length out.old) (of_day_line line)) out.old result words.new whole.new out.new }
    {
        if self.number > Feed::LINES {
            return self.stop(beyond(line), out);
        }
        match line {
            Ok(line) => self.perform(words, whole, line, out),
            Err(k) => self.stop(k, out),
        }
    }

    // What a whole line does, as far as the slice has room: as many frames as fit of those before
    // its time, and where there are none, the line itself. Nothing where no whole line is there; 9.
    pub fn step(
        self,
        line: &[u8; Feed::LINE],
        words: &mut Packed,
        whole: &mut Links,
        out: &mut [u8],
    ) -> Step
        ensures { MakesIn self line.now words.old whole.old step_move out.old result words.new whole.new out.new }
    {
        if !self.waits(line) {
            return Step {
                written: Ok(0),
                feed: self,
            };
        }
        let read = read(line, self.length);
        self.go(words, whole, read, out)
    }

    // A second step after n bytes, of a line that was read, if it is still to be done and there is
    // room.
    fn second(
        self,
        line: &[u8; Feed::LINE],
        words: &mut Packed,
        whole: &mut Links,
        read: Result<DayLine, Refusal>,
        n: usize,
        out: &mut [u8],
    ) -> Step
        requires { (n ≤ length out.old) × Sized (of_day_line read) × IsOf read (fed_of self line.now words.old whole.old) }
        ensures { FollowsAll self line.now words.old whole.old n out.old result.written result.feed words.new whole.new out.new }
    {
        if !self.waits(line) {
            return Step {
                written: Ok(n),
                feed: self,
            };
        }
        let more = self.go(words, whole, read, &mut out[n..]);
        let written = more.written;
        let next = more.feed;
        match written {
            Ok(m) => Step {
                written: Ok(n + m),
                feed: next,
            },
            Err(_) => Step {
                written: Ok(n),
                feed: next,
            },
        }
    }

    // A step, and a second one where the line is still to be done and there is room for it; 9.
    pub fn steps(
        self,
        line: &[u8; Feed::LINE],
        words: &mut Packed,
        whole: &mut Links,
        out: &mut [u8],
    ) -> Step
        ensures { MakesIn self line.now words.old whole.old steps_move out.old result words.new whole.new out.new }
    {
        if !self.waits(line) {
            return Step {
                written: Ok(0),
                feed: self,
            };
        }
        let read = read(line, self.length);
        let first = self.go(words, whole, read, out);
        let written = first.written;
        let next = first.feed;
        match written {
            Ok(n) => next.second(line, words, whole, read, n, out),
            Err(k) => Step {
                written: Err(k),
                feed: next,
            },
        }
    }
}

// ---- the end of the input

impl Feed {
    // After a whole line: 4 where `end` is missing.
    fn finish_line(self, out: &mut [u8]) -> Step
        ensures { Keeps self (λ f c. record { lines = finish f.number f.day.stage; fed = ended f }) out.old result out.new }
    {
        let stage = self.stage;
        match stage {
            Stage::AtPeriod => self.stop(Refusal::Place, out),
            Stage::AtServers => self.stop(Refusal::Place, out),
            Stage::AtEntries => self.stop(Refusal::Place, out),
            Stage::AtClose => {
                let mut next = self;
                next.over = true;
                Step {
                    written: Ok(0),
                    feed: next,
                }
            }
        }
    }

    // No byte is to come: 1 where the last line has no line feed, 4 where `end` is missing. Then
    // the sheet is over. Nothing where a whole line is to be done first; 9.
    pub fn finish(self, line: &[u8; Feed::LINE], out: &mut [u8]) -> Step
        ensures { Finishes self line.now out.old result out.new }
    {
        if self.over | is_whole(line, self.length) {
            return Step {
                written: Ok(0),
                feed: self,
            };
        }
        if present(line, self.length) > 0 {
            return self.stop(Refusal::Form, out);
        }
        self.finish_line(out)
    }
}
