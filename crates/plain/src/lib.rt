// The engine's values as structs of plain integers, for a caller in C or Rust: what decodes, what
// it stands for, and how a value is encoded.
#![tactic(auto)]

ghost use Rattle.std.specs.Prelude.{◌≡◌, map};
ghost use Rattle.lists.specs.Lists.{every};
ghost use Rattle.refusal.specs.Answer.{of_verdict};
ghost use Rattle.plain.specs.Numbers.{is_bit, is_verb, verb_of, is_event, event_number, event_of, is_refusal, refusal_of, is_period, period_of};
ghost use Rattle.plain.specs.Plain.{plain_bit, bit_of, is_server, server_of, plain_server, no_server, is_front, front_of, plain_front, no_front, is_heartbeat, heartbeat_of, plain_heartbeat, no_heartbeat, is_table, table_of, plain_table, is_channel, channel_of, plain_channel, no_channel};

use front::Front;
use group::{Links, Servers, State, Table};
use heartbeat::Heartbeat;
use periods::Period;
use refusal::Refusal;
use roles::{Event, Verb};
use server::Server;
use std::array;

// One server. `role` is 0 down, 1 idle, 2 sync, 3 backup, 4 prospect, 5 primary. `silence`, `beat`
// and `prospect` are the frames in which its timers were set. `pass`, `beats` and `reveal` are what
// it sent in this frame: the identity passed to (0: none), how many plain beats, and a reveal (1)
// or none (0). An empty place has identity 0.
#[repr(C)]
#[derive(Clone, Copy)]
pub struct PlainServer {
    pub identity: u16,
    pub priority: u8,
    pub role: u8,
    pub silence: u32,
    pub beat: u32,
    pub prospect: u32,
    pub pass: u16,
    pub beats: u8,
    pub reveal: u8,
}

// What a playout server holds: its server, the present frame, and the period in frames, 2 to 250.
#[repr(C)]
#[derive(Clone, Copy)]
pub struct PlainFront {
    pub server: PlainServer,
    pub frame: u32,
    pub period: u32,
}

// A heartbeat: who is to become primary (0: nobody), the sender's identity, 1 to 65,535, and
// priority, and Reveal, which any number but 0 sets.
#[repr(C)]
#[derive(Clone, Copy)]
pub struct PlainHeartbeat {
    pub bs: u16,
    pub tiebreaker: u16,
    pub priority: u8,
    pub reveal: u8,
}

// The servers of a channel, in rising identity; empty places, of identity 0, come last. Made by
// `playout_table_empty` and `playout_table_add`.
#[repr(C)]
#[derive(Clone, Copy)]
pub struct PlainTable {
    pub servers: [PlainServer; Table::SERVERS],
}

// A channel in a frame. `whole` has the link from place i to place j at 16 * i + j: 1 whole, 0 cut.
#[repr(C)]
#[derive(Clone, Copy)]
pub struct PlainChannel {
    pub frame: u32,
    pub period: u32,
    pub servers: [PlainServer; Table::SERVERS],
    pub whole: [u8; Table::LINKS],
}

// ---- numbers

// 1 for true, 0 for false.
pub fn bit(on: bool) -> u8
    ensures { result ≡ plain_bit on }
{
    if on { 1 } else { 0 }
}

fn is_bit(n: u8) -> bool
    ensures { result ≡ is_bit n }
{
    n <= 1
}

// Whether a number is a verb's.
pub fn is_verb(n: u32) -> bool
    ensures { result ≡ is_verb n }
{
    n <= 7
}

// The verb of a number; from 7 on, mend.
pub fn verb_of(n: u32) -> Verb
    ensures { result ≡ verb_of n }
{
    match n {
        0 => Verb::Start,
        1 => Verb::Ready,
        2 => Verb::Unready,
        3 => Verb::Pass,
        4 => Verb::Crash,
        5 => Verb::Restart,
        6 => Verb::Cut,
        _ => Verb::Mend,
    }
}

// Whether a number is an event's.
pub fn is_event(n: u32) -> bool
    ensures { result ≡ is_event n }
{
    n <= 11
}

// The event of a number; from 11 on, lower with a beat. `to` is the identity passed to, which no
// event but 10 has.
pub fn event_of(n: u32, to: u16) -> Event
    ensures { result ≡ event_of n to }
{
    match n {
        0 => Event::Nothing,
        1 => Event::ToBackup,
        2 => Event::ToProspectBeat,
        3 => Event::ToProspectReveal,
        4 => Event::Lower,
        5 => Event::Beat,
        6 => Event::ToPrimary,
        7 => Event::ToSync,
        8 => Event::ToIdle,
        9 => Event::ToDown,
        10 => Event::Passed(to),
        _ => Event::LowerBeat,
    }
}

// The number of an event.
pub fn event_number(event: Event) -> u32
    ensures { result ≡ event_number event }
{
    match event {
        Event::Nothing => 0,
        Event::ToBackup => 1,
        Event::ToProspectBeat => 2,
        Event::ToProspectReveal => 3,
        Event::Lower => 4,
        Event::Beat => 5,
        Event::ToPrimary => 6,
        Event::ToSync => 7,
        Event::ToIdle => 8,
        Event::ToDown => 9,
        Event::Passed(_) => 10,
        Event::LowerBeat => 11,
    }
}

// Whether a number is a refusal's.
pub fn is_refusal(n: u32) -> bool
    ensures { result ≡ is_refusal n }
{
    (n >= 1) & (n <= 16) & (n != 10)
}

// The refusal of a number; of one that is no refusal's, the last.
pub fn refusal_of(n: u32) -> Refusal
    ensures { result ≡ refusal_of n }
{
    match n {
        1 => Refusal::Form,
        2 => Refusal::Number,
        3 => Refusal::Timecode,
        4 => Refusal::Place,
        5 => Refusal::Taken,
        6 => Refusal::Servers,
        7 => Refusal::Period,
        8 => Refusal::Identity,
        9 => Refusal::Short,
        11 => Refusal::Past,
        12 => Refusal::Down,
        13 => Refusal::Up,
        14 => Refusal::Role,
        15 => Refusal::Link,
        _ => Refusal::DayOver,
    }
}

// The number of a verdict, 0 where the call is accepted.
pub fn verdict_number(verdict: Result<(), Refusal>) -> u32
    ensures { result ≡ of_verdict verdict }
{
    match verdict {
        Ok(()) => 0,
        Err(k) => k.number() as u32,
    }
}

// Whether a number is a period's.
pub fn is_period(n: u32) -> bool
    ensures { result ≡ is_period n }
{
    (n >= Period::MIN) & (n <= Period::MAX)
}

// The period of a number; of one that is no period's, the shortest.
fn period_of(n: u32) -> Period
    ensures { result ≡ period_of n }
{
    match Period::of(n) {
        Ok(p) => p,
        Err(_) => Period::shortest(),
    }
}

// ---- a server

// Whether a plain server decodes.
pub fn is_server(p: PlainServer) -> bool
    ensures { result ≡ is_server p }
{
    (p.role <= 5) & is_bit(p.reveal)
}

// The server that a plain one stands for.
pub fn server_of(p: PlainServer) -> Server
    ensures { result ≡ server_of p }
{
    let role = places::role_of(p.role as u32);
    Server {
        identity: p.identity,
        priority: p.priority,
        role,
        silence: p.silence,
        beat: p.beat,
        prospect: p.prospect,
        beats: p.beats,
        reveal: p.reveal == 1,
        pass: p.pass,
    }
}

// A server as plain integers.
pub fn plain_server(s: Server) -> PlainServer
    ensures { result ≡ plain_server s }
{
    let role = s.role;
    PlainServer {
        identity: s.identity,
        priority: s.priority,
        role: roles::role_number(role) as u8,
        silence: s.silence,
        beat: s.beat,
        prospect: s.prospect,
        pass: s.pass,
        beats: s.beats,
        reveal: bit(s.reveal),
    }
}

// A server of zeros: an empty place.
pub fn no_server() -> PlainServer
    ensures { result ≡ no_server }
{
    PlainServer {
        identity: 0,
        priority: 0,
        role: 0,
        silence: 0,
        beat: 0,
        prospect: 0,
        pass: 0,
        beats: 0,
        reveal: 0,
    }
}

// ---- a front

// Whether a plain front decodes.
pub fn is_front(p: PlainFront) -> bool
    ensures { result ≡ is_front p }
{
    let server = p.server;
    is_server(server) & is_period(p.period)
}

// The front that a plain one stands for.
pub fn front_of(p: PlainFront) -> Front
    ensures { result ≡ front_of p }
{
    let was = p.server;
    let server = server_of(was);
    let period = period_of(p.period);
    Front {
        server,
        frame: p.frame,
        period,
    }
}

// A front as plain integers.
pub fn plain_front(f: Front) -> PlainFront
    ensures { result ≡ plain_front f }
{
    let was = f.server;
    let server = plain_server(was);
    let period = f.period;
    PlainFront {
        server,
        frame: f.frame,
        period: period.beat_limit(),
    }
}

// A front of zeros.
pub fn no_front() -> PlainFront
    ensures { result ≡ no_front }
{
    let server = no_server();
    PlainFront {
        server,
        frame: 0,
        period: 0,
    }
}

// ---- a heartbeat

// Whether a plain heartbeat decodes.
pub fn is_heartbeat(p: PlainHeartbeat) -> bool
    ensures { result ≡ is_heartbeat p }
{
    p.tiebreaker != 0
}

// The heartbeat that a plain one stands for.
pub fn heartbeat_of(p: PlainHeartbeat) -> Heartbeat
    ensures { result ≡ heartbeat_of p }
{
    Heartbeat {
        bs: p.bs,
        priority: p.priority,
        tiebreaker: p.tiebreaker,
        reveal: p.reveal,
    }
}

// A heartbeat as plain integers.
pub fn plain_heartbeat(h: Heartbeat) -> PlainHeartbeat
    ensures { result ≡ plain_heartbeat h }
{
    PlainHeartbeat {
        bs: h.bs,
        tiebreaker: h.tiebreaker,
        priority: h.priority,
        reveal: h.reveal,
    }
}

// A heartbeat of zeros.
pub fn no_heartbeat() -> PlainHeartbeat
    ensures { result ≡ no_heartbeat }
{
    PlainHeartbeat {
        bs: 0,
        tiebreaker: 0,
        priority: 0,
        reveal: 0,
    }
}

// ---- the servers of a table and of a channel

fn are_servers(servers: [PlainServer; Table::SERVERS]) -> bool
    ensures { result ≡ every is_server servers }
{
    servers.iter().all(|p| is_server(*p))
}

fn servers_of(servers: [PlainServer; Table::SERVERS]) -> Servers
    ensures { result ≡ map server_of servers }
{
    array::from_fn(|i| server_of(servers[i]))
}

fn plain_servers(servers: Servers) -> [PlainServer; Table::SERVERS]
    ensures { result ≡ map plain_server servers }
{
    array::from_fn(|i| plain_server(servers[i]))
}

// ---- links

fn are_bits(whole: [u8; Table::LINKS]) -> bool
    ensures { result ≡ every is_bit whole }
{
    whole.iter().all(|n| is_bit(*n))
}

fn links_of(whole: [u8; Table::LINKS]) -> Links
    ensures { result ≡ map bit_of whole }
{
    array::from_fn(|i| whole[i] == 1)
}

fn plain_links(whole: Links) -> [u8; Table::LINKS]
    ensures { result ≡ map plain_bit whole }
{
    array::from_fn(|i| bit(whole[i]))
}

// ---- a table

// Whether a plain table decodes: it is one that adding makes.
pub fn is_table(p: PlainTable) -> bool
    ensures { result ≡ is_table p }
{
    let servers = p.servers;
    are_servers(servers) & group::is_table(servers_of(servers))
}

// The table that a plain one stands for; that of no server where it does not decode.
pub fn table_of(p: PlainTable) -> Table
    ensures { result ≡ table_of p }
{
    let were = p.servers;
    let made = Table::of(servers_of(were));
    made.table
}

// A table as plain integers.
pub fn plain_table(t: Table) -> PlainTable
    ensures { result ≡ plain_table t }
{
    let servers = plain_servers(t.servers());
    PlainTable { servers }
}

// ---- a channel

// Whether a plain channel decodes.
pub fn is_channel(p: PlainChannel) -> bool
    ensures { result ≡ is_channel p }
{
    let servers = p.servers;
    let whole = p.whole;
    is_period(p.period) & (are_servers(servers) & are_bits(whole))
}

// The channel's state that a plain one stands for.
pub fn channel_of(p: PlainChannel) -> State
    ensures { result ≡ channel_of p }
{
    let were = p.servers;
    let servers = servers_of(were);
    let links = p.whole;
    let whole = links_of(links);
    let period = period_of(p.period);
    State {
        frame: p.frame,
        period,
        servers,
        whole,
    }
}

// A channel's state as plain integers.
pub fn plain_channel(c: State) -> PlainChannel
    ensures { result ≡ plain_channel c }
{
    let were = c.servers;
    let servers = plain_servers(were);
    let links = c.whole;
    let whole = plain_links(links);
    let period = c.period;
    PlainChannel {
        frame: c.frame,
        period: period.beat_limit(),
        servers,
        whole,
    }
}

// A channel of zeros.
pub fn no_channel() -> PlainChannel
    ensures { result ≡ no_channel }
{
    let nobody = no_server();
    let servers = [nobody; Table::SERVERS];
    let whole = [0; Table::LINKS];
    PlainChannel {
        frame: 0,
        period: 0,
        servers,
        whole,
    }
}
