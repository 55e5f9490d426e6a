// What `playout` exports to C: each function calls the one of its name there, whose comment says
// what it does, and promises the same.
#![tactic(auto)]

ghost use Rattle.std.specs.Prelude.{◌≡◌, ◌&&◌};
ghost use Rattle.timecode.specs.Label.{label};
ghost use Rattle.timecode.specs.Read.{in_day, read_timecode};
ghost use Rattle.heartbeat.specs.Heartbeat.{read_heartbeat, heartbeat_line};
ghost use Rattle.lines.specs.Lines.{refused_line};
ghost use Rattle.group.specs.Advance.{step_outcome, time_outcome};
ghost use Rattle.group.specs.Verbs.{verb_outcome};
ghost use Rattle.day.specs.Sheet.{sheet};
ghost use Rattle.departure.specs.Departure.{line_number, judged};
ghost use Rattle.plain.specs.Numbers.{is_verb, verb_of, is_event, is_refusal, refusal_of};
ghost use Rattle.plain.specs.Plain.{is_front, is_heartbeat, heartbeat_of, is_channel, channel_of};
ghost use Rattle.wiring.specs.Rules.{Rules};
ghost use Rattle.playout.specs.Version.{version_number};
ghost use Rattle.playout.specs.Front.{ill, front_made, Begins, Hears, Ticks, Acts, front_sends};
ghost use Rattle.playout.specs.Writing.{Puts, PutsIf, front_lines, heartbeat_read, timecode_read, plain_higher};
ghost use Rattle.playout.specs.Channel.{Adds, Opens, Answers};
ghost use Rattle.playout.specs.Laws.{Empties};

use plain::{PlainChannel, PlainFront, PlainHeartbeat, PlainTable};
use playout::{
    ChannelAnswered, ChannelOpened, FrontActed, FrontHeard, FrontMade, FrontTimed, HeartbeatRead,
    PlainWritten, Sending, TableAdded, TimecodeRead,
};

#[unsafe(no_mangle)]
pub extern "C" fn playout_rules() -> u32
    ensures { Rules result }
{
    playout::playout_rules()
}

#[unsafe(no_mangle)]
pub extern "C" fn playout_version() -> u32
    ensures { result ≡ version_number }
{
    playout::playout_version()
}

#[unsafe(no_mangle)]
pub extern "C" fn playout_front_new(identity: u16, priority: u8, period: u32) -> FrontMade
    ensures { result ≡ front_made identity priority period }
{
    playout::playout_front_new(identity, priority, period)
}

#[unsafe(no_mangle)]
pub extern "C" fn playout_front_begin(front: &mut PlainFront) -> u32
    ensures { Begins front.old result front.new }
{
    playout::playout_front_begin(front)
}

#[unsafe(no_mangle)]
pub extern "C" fn playout_front_hear(
    front: &mut PlainFront,
    heartbeat: PlainHeartbeat,
) -> FrontHeard
    ensures { Hears front.old heartbeat result front.new }
{
    playout::playout_front_hear(front, heartbeat)
}

#[unsafe(no_mangle)]
pub extern "C" fn playout_front_tick(front: &mut PlainFront) -> FrontTimed
    ensures { Ticks front.old result front.new }
{
    playout::playout_front_tick(front)
}

#[unsafe(no_mangle)]
pub extern "C" fn playout_front_act(front: &mut PlainFront, verb: u32, to: u16) -> FrontActed
    ensures { Acts front.old verb to result front.new }
{
    playout::playout_front_act(front, verb, to)
}

#[unsafe(no_mangle)]
pub extern "C" fn playout_front_sends(front: PlainFront, event: u32, to: u16) -> Sending
    ensures { result ≡ front_sends front event to }
{
    playout::playout_front_sends(front, event, to)
}

#[unsafe(no_mangle)]
pub extern "C" fn playout_front_lines(front: PlainFront, event: u32, out: &mut [u8]) -> PlainWritten
    ensures { PutsIf (is_front front && is_event event) ill out.old (front_lines front event) result out.new }
{
    playout::playout_front_lines(front, event, out)
}

#[unsafe(no_mangle)]
pub extern "C" fn playout_front_refused(
    front: PlainFront,
    number: u32,
    out: &mut [u8],
) -> PlainWritten
    ensures { PutsIf (is_front front && is_refusal number) ill out.old (refused_line front.frame front.server.identity (refusal_of number)) result out.new }
{
    playout::playout_front_refused(front, number, out)
}

#[unsafe(no_mangle)]
pub extern "C" fn playout_higher(a: PlainHeartbeat, b: PlainHeartbeat) -> u32
    ensures { result ≡ plain_higher a b }
{
    playout::playout_higher(a, b)
}

#[unsafe(no_mangle)]
pub extern "C" fn playout_heartbeat_read(line: &[u8]) -> HeartbeatRead
    ensures { result ≡ heartbeat_read (read_heartbeat line.now) }
{
    playout::playout_heartbeat_read(line)
}

#[unsafe(no_mangle)]
pub extern "C" fn playout_heartbeat_write(heartbeat: PlainHeartbeat, out: &mut [u8]) -> PlainWritten
    ensures { PutsIf (is_heartbeat heartbeat) ill out.old (heartbeat_line (heartbeat_of heartbeat)) result out.new }
{
    playout::playout_heartbeat_write(heartbeat, out)
}

#[unsafe(no_mangle)]
pub extern "C" fn playout_timecode_read(time: &[u8]) -> TimecodeRead
    ensures { result ≡ timecode_read (read_timecode time.now) }
{
    playout::playout_timecode_read(time)
}

#[unsafe(no_mangle)]
pub extern "C" fn playout_timecode_write(frame: u32, out: &mut [u8]) -> PlainWritten
    ensures { PutsIf (in_day frame) 3 out.old (label frame) result out.new }
{
    playout::playout_timecode_write(frame, out)
}

#[unsafe(no_mangle)]
pub extern "C" fn playout_table_empty() -> PlainTable
    ensures { Empties result }
{
    playout::playout_table_empty()
}

#[unsafe(no_mangle)]
pub extern "C" fn playout_table_add(table: PlainTable, identity: u16, priority: u8) -> TableAdded
    ensures { Adds table identity priority result }
{
    playout::playout_table_add(table, identity, priority)
}

#[unsafe(no_mangle)]
pub extern "C" fn playout_channel_fresh(table: PlainTable, period: u32) -> ChannelOpened
    ensures { Opens table period result }
{
    playout::playout_channel_fresh(table, period)
}

#[unsafe(no_mangle)]
pub extern "C" fn playout_channel_advance(channel: PlainChannel, out: &mut [u8]) -> ChannelAnswered
    ensures { Answers (is_channel channel) channel (step_outcome (channel_of channel)) out.old result out.new }
{
    playout::playout_channel_advance(channel, out)
}

#[unsafe(no_mangle)]
pub extern "C" fn playout_channel_advance_to(
    channel: PlainChannel,
    time: u32,
    out: &mut [u8],
) -> ChannelAnswered
    ensures { Answers (is_channel channel) channel (time_outcome (channel_of channel) time) out.old result out.new }
{
    playout::playout_channel_advance_to(channel, time, out)
}

#[unsafe(no_mangle)]
pub extern "C" fn playout_channel_verb(
    channel: PlainChannel,
    verb: u32,
    a: u16,
    b: u16,
    out: &mut [u8],
) -> ChannelAnswered
    ensures { Answers (is_channel channel && is_verb verb) channel (verb_outcome (channel_of channel) (verb_of verb) a b) out.old result out.new }
{
    playout::playout_channel_verb(channel, verb, a, b, out)
}

#[unsafe(no_mangle)]
pub extern "C" fn playout_channel_refused(
    channel: PlainChannel,
    identity: u16,
    number: u32,
    out: &mut [u8],
) -> PlainWritten
    ensures { PutsIf (is_channel channel && is_refusal number) ill out.old (refused_line channel.frame identity (refusal_of number)) result out.new }
{
    playout::playout_channel_refused(channel, identity, number, out)
}

#[unsafe(no_mangle)]
pub extern "C" fn playout_sheet(day: &[u8], out: &mut [u8]) -> PlainWritten
    ensures { Puts out.old (sheet day.now) result out.new }
{
    playout::playout_sheet(day, out)
}

#[unsafe(no_mangle)]
pub extern "C" fn playout_departure(day: &[u8], sheet: &[u8]) -> u64
    ensures { result ≡ line_number (judged day.now sheet.now) }
{
    playout::playout_departure(day, sheet)
}
