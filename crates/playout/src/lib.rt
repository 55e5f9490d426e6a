// The engine for a caller in C or Rust. Structs are plain integers; a slice is a pointer and a
// length. Every call takes any bytes: what does not decode is refused with 2, before every other
// number (`playout_higher`, which has no number, takes any tiebreaker). A refused call changes
// nothing that was lent, and hands back the table or channel that it would have moved on; what it
// would have made is zeros.
#![tactic(auto)]

ghost use Rattle.std.specs.Prelude.{◌≡◌, ◌&&◌, [], ◌∷◌};
ghost use Rattle.text.specs.Write.{of_written};
ghost use Rattle.timecode.specs.Label.{label};
ghost use Rattle.timecode.specs.Read.{of_timecode, in_day, read_timecode};
ghost use Rattle.heartbeat.specs.Heartbeat.{of_heartbeat, read_heartbeat, heartbeat_line};
ghost use Rattle.server.specs.Server.{pass_of, send_pass};
ghost use Rattle.lines.specs.Lines.{refused_line};
ghost use Rattle.front.specs.Front.{of_front};
ghost use Rattle.group.specs.Advance.{step_outcome, time_outcome};
ghost use Rattle.group.specs.Verbs.{verb_outcome};
ghost use Rattle.channel.specs.Answers.{state};
ghost use Rattle.day.specs.Sheet.{sheet};
ghost use Rattle.departure.specs.Departure.{line_number, judged};
ghost use Rattle.settling.specs.Sending.{sends};
ghost use Rattle.plain.specs.Numbers.{is_verb, verb_of, is_event, is_refusal, refusal_of};
ghost use Rattle.plain.specs.Plain.{is_front, is_heartbeat, heartbeat_of, is_channel, channel_of, no_channel};
ghost use Rattle.wiring.specs.Rules.{Rules};
ghost use Rattle.playout.specs.Version.{version_number};
ghost use Rattle.playout.specs.Front.{ill, front_made, Begins, Hears, Ticks, Acts, sending_of, is_sent, front_sends};
ghost use Rattle.playout.specs.Writing.{written_of, Puts, PutsIf, front_lines, heartbeat_read, timecode_read, plain_higher};
ghost use Rattle.playout.specs.Channel.{Adds, Opens, Answers};
ghost use Rattle.playout.specs.Laws.{Empties};
ghost use Rattle.playout.specs.Steps.{made_of, BeginsWell, hears_well, ticks_well, acted_as, ActsWell, written_to, AddsWell, opened_as, OpensWell, answered, unanswered};

use channel::{Answer, Channel};
use front::{After, Front};
use group::{State, Table};
use heartbeat::Heartbeat;
use plain::{PlainChannel, PlainFront, PlainHeartbeat, PlainTable};
use refusal::Refusal;
use roles::Event;
use server::Server;
use timecode::Timecode;

// A front. `number` is 0 where it is accepted, else the refusal's, and the front is zeros.
#[repr(C)]
#[derive(Clone, Copy)]
pub struct FrontMade {
    pub number: u32,
    pub front: PlainFront,
}

// What a heartbeat did. `number` is 0 where it is accepted, else the refusal's, and the rest is 0.
// `event` is 0 nothing, 1 to backup, 2 to prospect with a beat, 3 to prospect with a reveal, 4
// lower, 5 beat, 6 to primary, 7 to sync, 8 to idle, 9 to down, 10 passed, 11 lower with a beat.
// `role` is the role afterwards.
#[repr(C)]
#[derive(Clone, Copy)]
pub struct FrontHeard {
    pub number: u32,
    pub event: u32,
    pub role: u32,
}

// What the timers did: the events of the silence timer, of the beat timer and of the prospect
// timer, in this order, and the role afterwards. `number` is 0 where it is accepted, else the
// refusal's, and the rest is 0.
#[repr(C)]
#[derive(Clone, Copy)]
pub struct FrontTimed {
    pub number: u32,
    pub silent: u32,
    pub beating: u32,
    pub rising: u32,
    pub role: u32,
}

// What a verb did: its event, and the role afterwards. `number` is 0 where it is accepted, else the
// refusal's, and the rest is 0.
#[repr(C)]
#[derive(Clone, Copy)]
pub struct FrontActed {
    pub number: u32,
    pub event: u32,
    pub role: u32,
}

// What an event sends: `count` is 1 where there is a heartbeat, else 0, and the heartbeat is zeros.
// `number` is 0 where it is accepted, else the refusal's, and the rest is 0.
#[repr(C)]
#[derive(Clone, Copy)]
pub struct Sending {
    pub number: u32,
    pub count: u32,
    pub heartbeat: PlainHeartbeat,
}

// What was written: so many bytes, from the slice's start. `number` is 0 where it is accepted, else
// the refusal's, and then nothing is written.
#[repr(C)]
#[derive(Clone, Copy)]
pub struct PlainWritten {
    pub number: u32,
    pub written: usize,
}

// A heartbeat that was read. `number` is 0 where it is accepted, else the refusal's, and the
// heartbeat is zeros.
#[repr(C)]
#[derive(Clone, Copy)]
pub struct HeartbeatRead {
    pub number: u32,
    pub heartbeat: PlainHeartbeat,
}

// A frame that was read. `number` is 0 where it is accepted, else the refusal's, and the frame is
// 0.
#[repr(C)]
#[derive(Clone, Copy)]
pub struct TimecodeRead {
    pub number: u32,
    pub frame: u32,
}

// A table after a server is added. `number` is 0 where it is accepted, else the refusal's, and the
// table is the one handed in.
#[repr(C)]
#[derive(Clone, Copy)]
pub struct TableAdded {
    pub number: u32,
    pub table: PlainTable,
}

// A fresh channel. `number` is 0 where it is accepted, else the refusal's, and the channel is
// zeros.
#[repr(C)]
#[derive(Clone, Copy)]
pub struct ChannelOpened {
    pub number: u32,
    pub channel: PlainChannel,
}

// A channel after a call, and how many bytes of lines it wrote. `number` is 0 where it is accepted,
// else the refusal's; then nothing is written, and the channel is the one handed in.
#[repr(C)]
#[derive(Clone, Copy)]
pub struct ChannelAnswered {
    pub number: u32,
    pub written: usize,
    pub channel: PlainChannel,
}

// The number of what does not decode.
const ILL: u32 = 2;

// ---- what it is

// The version of the code.
pub const VERSION: u32 = 2000;

// The number of the rules that this library plays by: 1 for document 01, 2 since a reveal gets a
// reply, one more with every change of the rules that a sheet can show. All servers of a group
// compare theirs before they play; those whose numbers differ do not play together: half a group on
// each side of a change of rules gives two sheets, and nobody notices. A program compares
// `PLAYOUT_RULES`, what it was compiled against, with this, what it is linked with, at its start.
pub fn playout_rules() -> u32
    ensures { Rules result }
{
    wiring::rules()
}

// The version of the library's code: 1000 times the major, which rises where a program must be
// changed or built again, so with every change of the rules too, and the minor, below 1000, which
// rises where something is added. Servers of different versions play together where their rules
// have one number. A program compares `PLAYOUT_VERSION`, what it was compiled against, with this,
// what it is linked with, at its start: the same major, and no lower minor.
pub fn playout_version() -> u32
    ensures { result ≡ version_number }
{
    VERSION
}

// ---- a front made

fn made_of(answer: Result<Front, Refusal>) -> FrontMade
    ensures { result ≡ made_of (of_front answer) }
{
    match answer {
        Ok(f) => {
            let front = plain::plain_front(f);
            FrontMade { number: 0, front }
        }
        Err(k) => {
            let front = plain::no_front();
            FrontMade {
                number: k.number() as u32,
                front,
            }
        }
    }
}

// The front of an idle server at frame 0, of this identity, priority and period in frames. A
// process that comes up later in the day sets `front.frame` to the present frame, with a new front
// only; in that frame it takes verbs only, and its first `playout_front_begin` is that of the next
// frame. Refused with 2 (identity 0, or a period that is not 2 to 250).
pub fn playout_front_new(identity: u16, priority: u8, period: u32) -> FrontMade
    ensures { result ≡ front_made identity priority period }
{
    made_of(Front::new(identity, priority, period))
}

// ---- the steps of a front, by value

fn begins(front: PlainFront) -> After<PlainFront, u32>
    ensures { BeginsWell front result }
{
    let next = plain::front_of(front).begun();
    let verdict = next.answer;
    let moved = next.front;
    After {
        front: plain::plain_front(moved),
        answer: plain::verdict_number(verdict),
    }
}

fn begun(front: PlainFront) -> After<PlainFront, u32>
    ensures { Begins front result.answer result.front }
{
    if plain::is_front(front) {
        begins(front)
    } else {
        After { front, answer: ILL }
    }
}

fn hears(front: PlainFront, heartbeat: PlainHeartbeat) -> After<PlainFront, FrontHeard>
    ensures { result ≡ hears_well front heartbeat }
{
    let was = plain::front_of(front);
    let next = was.heard(plain::heartbeat_of(heartbeat));
    let answer = next.answer;
    let event = answer.event;
    let role = answer.role;
    let hearer = next.front;
    After {
        front: plain::plain_front(hearer),
        answer: FrontHeard {
            number: 0,
            event: plain::event_number(event),
            role: roles::role_number(role),
        },
    }
}

fn heard(front: PlainFront, heartbeat: PlainHeartbeat) -> After<PlainFront, FrontHeard>
    ensures { Hears front heartbeat result.answer result.front }
{
    if plain::is_front(front) & plain::is_heartbeat(heartbeat) {
        hears(front, heartbeat)
    } else {
        After {
            front,
            answer: FrontHeard {
                number: ILL,
                event: 0,
                role: 0,
            },
        }
    }
}

fn ticks(front: PlainFront) -> After<PlainFront, FrontTimed>
    ensures { result ≡ ticks_well front }
{
    let next = plain::front_of(front).timed();
    let answer = next.answer;
    let silent = answer.silent;
    let beating = answer.beating;
    let rising = answer.rising;
    let role = answer.role;
    let moved = next.front;
    After {
        front: plain::plain_front(moved),
        answer: FrontTimed {
            number: 0,
            silent: plain::event_number(silent),
            beating: plain::event_number(beating),
            rising: plain::event_number(rising),
            role: roles::role_number(role),
        },
    }
}

fn timed(front: PlainFront) -> After<PlainFront, FrontTimed>
    ensures { Ticks front result.answer result.front }
{
    if plain::is_front(front) {
        ticks(front)
    } else {
        After {
            front,
            answer: FrontTimed {
                number: ILL,
                silent: 0,
                beating: 0,
                rising: 0,
                role: 0,
            },
        }
    }
}

// The answer of a verb, by its number: where it is refused, zeros.
fn acted_as(number: u32, event: u32, role: u32) -> FrontActed
    ensures { result ≡ acted_as number event role }
{
    if number == 0 {
        FrontActed {
            number: 0,
            event,
            role,
        }
    } else {
        FrontActed {
            number,
            event: 0,
            role: 0,
        }
    }
}

fn acts(front: PlainFront, verb: u32, to: u16) -> After<PlainFront, FrontActed>
    ensures { ActsWell front verb to result }
{
    let next = plain::front_of(front).acted(plain::verb_of(verb), to);
    let answer = next.answer;
    let verdict = answer.verdict;
    let event = answer.event;
    let role = answer.role;
    let moved = next.front;
    After {
        front: plain::plain_front(moved),
        answer: acted_as(
            plain::verdict_number(verdict),
            plain::event_number(event),
            roles::role_number(role),
        ),
    }
}

fn acted(front: PlainFront, verb: u32, to: u16) -> After<PlainFront, FrontActed>
    ensures { Acts front verb to result.answer result.front }
{
    if plain::is_front(front) & plain::is_verb(verb) {
        acts(front, verb, to)
    } else {
        After {
            front,
            answer: FrontActed {
                number: ILL,
                event: 0,
                role: 0,
            },
        }
    }
}

// ---- the steps of a front, in place. A frame is `begin`, a `hear` for each heartbeat heard in it,
// `tick`, and then verbs.

// The next frame begins, with nothing sent yet. No frame is left out: a process that fell behind
// makes up each one that it missed, with its hearing, `playout_front_tick` and its verbs, before it
// goes on; one that cannot was down, and makes a new front. Gives 0, or the number that it is
// refused with: 2 (the front does not decode), 16 (the front is at the day's last frame, or beyond
// it).
pub fn playout_front_begin(front: &mut PlainFront) -> u32
    ensures { Begins front.old result front.new }
{
    let next = begun(*front);
    *front = next.front;
    next.answer
}

// One heartbeat is heard in the present frame. Leave out those of servers that are not in the table
// and those of the server itself: they are not refused, each sets a backup's silence timer as
// another's would, and a backup that hears one in every frame never steps in. Gives the event and the role afterwards. Refused with 2 (the front
// does not decode, or the heartbeat's tiebreaker is 0).
pub fn playout_front_hear(front: &mut PlainFront, heartbeat: PlainHeartbeat) -> FrontHeard
    ensures { Hears front.old heartbeat result front.new }
{
    let next = heard(*front, heartbeat);
    *front = next.front;
    next.answer
}

// The timers of the present frame, after all hearing in it; in every frame. A timer goes off in the
// one frame in which it is due, and not later: where this call is left out in that frame, a backup
// never steps in, a primary sends no beat any more, a prospect never goes on air, until something
// sets the timer again. Gives their events and the role afterwards. Refused with 2 (the front does
// not decode).
pub fn playout_front_tick(front: &mut PlainFront) -> FrontTimed
    ensures { Ticks front.old result front.new }
{
    let next = timed(*front);
    *front = next.front;
    next.answer
}

// A verb in the present frame: 0 start, 1 ready, 2 unready, 3 pass, 4 crash, 5 restart, 6 cut, 7
// mend. `to` is the second identity, for pass, cut and mend; a front has no links, so cut and mend
// do nothing. Gives the event and the role afterwards. Refused with 2 (no such verb, an identity 0,
// or the front does not decode), 8 (`to` is the front's own identity), 12 (the server is down), 13
// (restart of a server that is up), 14 (the role does not allow the verb).
pub fn playout_front_act(front: &mut PlainFront, verb: u32, to: u16) -> FrontActed
    ensures { Acts front.old verb to result front.new }
{
    let next = acted(*front, verb, to);
    *front = next.front;
    next.answer
}

// ---- what an event sends, and its lines

fn sends_none() -> Sending
    ensures { result ≡ sending_of [] }
{
    let heartbeat = plain::no_heartbeat();
    Sending {
        number: 0,
        count: 0,
        heartbeat,
    }
}

fn sends_one(h: Heartbeat) -> Sending
    ensures { result ≡ sending_of (h ∷ []) }
{
    let heartbeat = plain::plain_heartbeat(h);
    Sending {
        number: 0,
        count: 1,
        heartbeat,
    }
}

fn sends_pass(server: Server, to: u16) -> Sending
    ensures { result ≡ sending_of (pass_of (send_pass to server) ∷ []) }
{
    let mut passing = server;
    passing.pass = to;
    sends_one(passing.passing())
}

fn sends_of(server: Server, event: Event) -> Sending
    ensures { result ≡ sending_of (sends server event) }
{
    match event {
        Event::Nothing => sends_none(),
        Event::ToBackup => sends_none(),
        Event::ToProspectBeat => sends_one(server.plain()),
        Event::ToProspectReveal => sends_one(server.revealing()),
        Event::Lower => sends_none(),
        Event::Beat => sends_one(server.plain()),
        Event::ToPrimary => sends_none(),
        Event::ToSync => sends_none(),
        Event::ToIdle => sends_none(),
        Event::ToDown => sends_none(),
        Event::Passed(to) => sends_pass(server, to),
        Event::LowerBeat => sends_one(server.plain()),
    }
}

// Whether there is such an event: none passes to nobody.
fn is_sent(event: u32, to: u16) -> bool
    ensures { result ≡ is_sent event to }
{
    let passed = plain::event_number(Event::Passed(to));
    plain::is_event(event) & !((event == passed) & (to == 0))
}

// The heartbeat that an event of this front sends, if any. `to` is the identity passed to, for
// event 10. Refused with 2 (no such event, event 10 with `to` 0, or the front does not decode).
pub fn playout_front_sends(front: PlainFront, event: u32, to: u16) -> Sending
    ensures { result ≡ front_sends front event to }
{
    if plain::is_front(front) & is_sent(event, to) {
        let server = front.server;
        sends_of(plain::server_of(server), plain::event_of(event, to))
    } else {
        let heartbeat = plain::no_heartbeat();
        Sending {
            number: ILL,
            count: 0,
            heartbeat,
        }
    }
}

fn written_of(written: Result<usize, Refusal>) -> PlainWritten
    ensures { result ≡ written_of (of_written written) }
{
    match written {
        Ok(n) => PlainWritten {
            number: 0,
            written: n,
        },
        Err(k) => PlainWritten {
            number: k.number() as u32,
            written: 0,
        },
    }
}

// The place after lines in a slice, as an answer: 9 beyond its end.
fn written_to(at: usize, room: usize) -> PlainWritten
    ensures { result ≡ written_to at room }
{
    if at <= room {
        PlainWritten {
            number: 0,
            written: at,
        }
    } else {
        PlainWritten {
            number: 9,
            written: 0,
        }
    }
}

fn write_lines(front: PlainFront, event: u32, out: &mut [u8]) -> PlainWritten
    ensures { Puts out.old (front_lines front event) result out.new }
{
    let server = front.server;
    let said = plain::event_of(event, 0).said();
    let at = lines::say(out, true, 0, front.frame, server.identity, said);
    written_to(at, out.len())
}

// The sheet's lines of an event of this front, at its frame, into the slice. Gives how many bytes
// were written. Refused with 2 (no such event, or the front does not decode), 9 (the slice is too
// short).
pub fn playout_front_lines(front: PlainFront, event: u32, out: &mut [u8]) -> PlainWritten
    ensures { PutsIf (is_front front && is_event event) ill out.old (front_lines front event) result out.new }
{
    if plain::is_front(front) & plain::is_event(event) {
        write_lines(front, event, out)
    } else {
        PlainWritten {
            number: ILL,
            written: 0,
        }
    }
}

fn write_refused(frame: u32, identity: u16, number: u32, out: &mut [u8]) -> PlainWritten
    ensures { PutsIf (is_refusal number) ill out.old (refused_line frame identity (refusal_of number)) result out.new }
{
    if plain::is_refusal(number) {
        written_of(lines::write_refused(out, frame, identity, plain::refusal_of(number)))
    } else {
        PlainWritten {
            number: ILL,
            written: 0,
        }
    }
}

// The sheet's line of a refused call of this front, at its frame, into the slice; `number` is the
// refusal's. In a sheet only 11 to 16 have such a line. Gives how many bytes were written. Refused
// with 2 (no such refusal, or the front does not decode), 9 (the slice is too short).
pub fn playout_front_refused(front: PlainFront, number: u32, out: &mut [u8]) -> PlainWritten
    ensures { PutsIf (is_front front && is_refusal number) ill out.old (refused_line front.frame front.server.identity (refusal_of number)) result out.new }
{
    if plain::is_front(front) {
        let server = front.server;
        write_refused(front.frame, server.identity, number, out)
    } else {
        PlainWritten {
            number: ILL,
            written: 0,
        }
    }
}

// ---- heartbeats and timecodes

// 1 where the sender of `a` is higher than that of `b`, else 0: by priority, then by identity.
pub fn playout_higher(a: PlainHeartbeat, b: PlainHeartbeat) -> u32
    ensures { result ≡ plain_higher a b }
{
    let first = plain::heartbeat_of(a).sender();
    let second = plain::heartbeat_of(b).sender();
    plain::bit(first.higher(second)) as u32
}

fn heartbeat_read_of(answer: Result<Heartbeat, Refusal>) -> HeartbeatRead
    ensures { result ≡ heartbeat_read (of_heartbeat answer) }
{
    match answer {
        Ok(h) => {
            let heartbeat = plain::plain_heartbeat(h);
            HeartbeatRead {
                number: 0,
                heartbeat,
            }
        }
        Err(k) => {
            let heartbeat = plain::no_heartbeat();
            HeartbeatRead {
                number: k.number() as u32,
                heartbeat,
            }
        }
    }
}

// The heartbeat of one line, its line feed included. Refused with 1 (the line's form, or bytes
// after the line feed), 2 (a number badly written or out of range).
pub fn playout_heartbeat_read(line: &[u8]) -> HeartbeatRead
    ensures { result ≡ heartbeat_read (read_heartbeat line.now) }
{
    heartbeat_read_of(Heartbeat::read(line))
}

// The line of a heartbeat, its line feed included, into the slice. Gives how many bytes were
// written. Refused with 2 (the tiebreaker is 0), 9 (the slice is too short).
pub fn playout_heartbeat_write(heartbeat: PlainHeartbeat, out: &mut [u8]) -> PlainWritten
    ensures { PutsIf (is_heartbeat heartbeat) ill out.old (heartbeat_line (heartbeat_of heartbeat)) result out.new }
{
    written_of(plain::heartbeat_of(heartbeat).write(out, 0))
}

fn timecode_read_of(answer: Result<Timecode, Refusal>) -> TimecodeRead
    ensures { result ≡ timecode_read (of_timecode answer) }
{
    match answer {
        Ok(t) => TimecodeRead {
            number: 0,
            frame: t.frame(),
        },
        Err(k) => TimecodeRead {
            number: k.number() as u32,
            frame: 0,
        },
    }
}

// The frame that a label HH:MM:SS:FF names, 25 frames to a second. Refused with 3 (badly written,
// or outside the day).
pub fn playout_timecode_read(time: &[u8]) -> TimecodeRead
    ensures { result ≡ timecode_read (read_timecode time.now) }
{
    timecode_read_of(Timecode::read(time))
}

// The label of a frame, 11 bytes, into the slice. Gives how many bytes were written. Refused with 3
// (outside the day), 9 (the slice is too short).
pub fn playout_timecode_write(frame: u32, out: &mut [u8]) -> PlainWritten
    ensures { PutsIf (in_day frame) 3 out.old (label frame) result out.new }
{
    match Timecode::of_frame(frame) {
        Ok(time) => written_of(time.write(out, 0)),
        Err(k) => written_of(Err(k)),
    }
}

// ---- tables

// The table of no server: where every table begins.
pub fn playout_table_empty() -> PlainTable
    ensures { Empties result }
{
    plain::plain_table(Table::empty())
}

fn adds(table: PlainTable, identity: u16, priority: u8) -> TableAdded
    ensures { AddsWell table identity priority result }
{
    let added = plain::table_of(table).add(identity, priority);
    let verdict = added.verdict;
    let next = added.table;
    TableAdded {
        number: plain::verdict_number(verdict),
        table: plain::plain_table(next),
    }
}

// The table with a server more, of this identity and priority. Refused with 2 (identity 0, or no
// table that `playout_table_empty` and this call made), 5 (the identity is in the table already), 6
// (a seventeenth server).
pub fn playout_table_add(table: PlainTable, identity: u16, priority: u8) -> TableAdded
    ensures { Adds table identity priority result }
{
    if plain::is_table(table) {
        adds(table, identity, priority)
    } else {
        TableAdded { number: ILL, table }
    }
}

// ---- channels

fn unopened(number: u32) -> ChannelOpened
    ensures { result ≡ record { number = number; channel = no_channel } }
{
    let channel = plain::no_channel();
    ChannelOpened { number, channel }
}

// The answer of an opening, by its number: where it is refused, zeros.
fn opened_as(number: u32, opened: State) -> ChannelOpened
    ensures { result ≡ opened_as number opened }
{
    if number == 0 {
        let channel = plain::plain_channel(opened);
        ChannelOpened { number: 0, channel }
    } else {
        unopened(number)
    }
}

fn opens(table: PlainTable, period: u32) -> ChannelOpened
    ensures { OpensWell table period result }
{
    let opened = State::fresh(plain::table_of(table), period);
    let verdict = opened.verdict;
    let state = opened.state;
    opened_as(plain::verdict_number(verdict), state)
}

// A channel of the table's servers at frame 0, all idle, with a period in frames. Refused with 2 (a
// period that is not 2 to 250, or no table that `playout_table_empty` and `playout_table_add`
// made), 6 (no server), 7 (a period below the number of servers).
pub fn playout_channel_fresh(table: PlainTable, period: u32) -> ChannelOpened
    ensures { Opens table period result }
{
    if plain::is_table(table) {
        opens(table, period)
    } else {
        unopened(ILL)
    }
}

fn channel_from(channel: PlainChannel) -> Channel
    ensures { state result ≡ channel_of channel }
{
    Channel::of_state(plain::channel_of(channel))
}

fn answered(answer: Answer) -> ChannelAnswered
    ensures { result ≡ answered answer }
{
    let put = written_of(answer.written);
    ChannelAnswered {
        number: put.number,
        written: put.written,
        channel: plain::plain_channel(answer.channel.state()),
    }
}

fn unanswered(channel: PlainChannel) -> ChannelAnswered
    ensures { result ≡ unanswered channel }
{
    ChannelAnswered {
        number: ILL,
        written: 0,
        channel,
    }
}

// The channel one frame on, and the frame's lines into the slice. Gives the channel and how many
// bytes were written. Refused with 2 (the channel does not decode), 16 (it is at the day's last
// frame, or beyond it), 9 (the slice is too short).
pub fn playout_channel_advance(channel: PlainChannel, out: &mut [u8]) -> ChannelAnswered
    ensures { Answers (is_channel channel) channel (step_outcome (channel_of channel)) out.old result out.new }
{
    if plain::is_channel(channel) {
        answered(channel_from(channel).advance(out))
    } else {
        unanswered(channel)
    }
}

// The channel at a time, given as a frame, and the lines of all frames on the way into the slice.
// Gives the channel and how many bytes were written. Refused with 2 (the channel does not decode),
// 3 (outside the day), 11 (before the present frame), 9 (the slice is too short).
pub fn playout_channel_advance_to(
    channel: PlainChannel,
    time: u32,
    out: &mut [u8],
) -> ChannelAnswered
    ensures { Answers (is_channel channel) channel (time_outcome (channel_of channel) time) out.old result out.new }
{
    if plain::is_channel(channel) {
        answered(channel_from(channel).advance_to(time, out))
    } else {
        unanswered(channel)
    }
}

// The channel after a verb of the server with identity `a`, and the verb's lines into the slice.
// Verbs: 0 start, 1 ready, 2 unready, 3 pass, 4 crash, 5 restart, 6 cut, 7 mend. `b` is the second
// identity, for pass, cut and mend. Gives the channel and how many bytes were written. Refused with
// 2 (no such verb, an identity 0, or the channel does not decode), 8 (an identity that is not in
// the table, or twice the same), 12 (the server is down), 13 (restart of a server that is up), 14
// (the role does not allow the verb), 15 (cut of a cut link, mend of a whole one), 9 (the slice is
// too short).
pub fn playout_channel_verb(
    channel: PlainChannel,
    verb: u32,
    a: u16,
    b: u16,
    out: &mut [u8],
) -> ChannelAnswered
    ensures { Answers (is_channel channel && is_verb verb) channel (verb_outcome (channel_of channel) (verb_of verb) a b) out.old result out.new }
{
    if plain::is_channel(channel) & plain::is_verb(verb) {
        answered(channel_from(channel).verb(plain::verb_of(verb), a, b, out))
    } else {
        unanswered(channel)
    }
}

// The sheet's line of a refused call on this channel, at its frame, into the slice: the call's
// first identity (0 for an end) and the refusal's number. In a sheet only 11 to 16 have such a
// line. Gives how many bytes were written. Refused with 2 (no such refusal, or the channel does not
// decode), 9 (the slice is too short).
pub fn playout_channel_refused(
    channel: PlainChannel,
    identity: u16,
    number: u32,
    out: &mut [u8],
) -> PlainWritten
    ensures { PutsIf (is_channel channel && is_refusal number) ill out.old (refused_line channel.frame identity (refusal_of number)) result out.new }
{
    if plain::is_channel(channel) {
        write_refused(channel.frame, identity, number, out)
    } else {
        PlainWritten {
            number: ILL,
            written: 0,
        }
    }
}

// ---- a day

// The sheet of a whole day, given as its lines, into the slice. Gives how many bytes were written;
// a refused line of the day is told in the sheet. Refused with 9 (the slice is too short).
pub fn playout_sheet(day: &[u8], out: &mut [u8]) -> PlainWritten
    ensures { Puts out.old (sheet day.now) result out.new }
{
    written_of(daysheet::sheet(day, out))
}

// Whether a sheet is that of a whole day, as `playout_sheet` writes it: 0 where it is, byte for byte,
// else the number of the first line that departs. Lines are compared by their places, each with its
// line feed, and the header is line 1: a line that is missing counts at its place, and so does one
// too many. The call is never refused; the sheet of a day that is refused ends with that refusal.
pub fn playout_departure(day: &[u8], sheet: &[u8]) -> u64
    ensures { result ≡ line_number (judged day.now sheet.now) }
{
    let departure = dayjudge::departure(day, sheet);
    departure.number()
}
