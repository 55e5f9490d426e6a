// Makes the calls of the file `lists` and prints what they answer, for comparison with the model's
// answers. A line of the file has five numbers, parted by tabs:
//   0 0 0 0 0                      a new empty table
//   1 IDENTITY PRIORITY 0 0        one more server in it
//   2 PERIOD 0 0 0                 its fresh channel
//   3 FIRST SECOND VERB LENGTH     a verb, by its number, of one server or of two
//   4 0 0 0 LENGTH                 an advance by one frame
//   5 TIME 0 0 LENGTH              an advance to a time
//   6 IDENTITY NUMBER 0 LENGTH     the sheet's line of a refusal
// LENGTH is that of the lent slice. The answer to 1 and 2 is a number and how many servers the table
// has; to the calls a number, how many bytes were written, how many bytes after them are as before,
// the frame, a digit for the role of each server, and then what was written.
#![tactic(auto)]

ghost use Rattle.std.specs.Prelude.{◌≡◌, ◌+◌, ◌≤◌, length, replicate, IfSome};
ghost use Rattle.lists.specs.Choice.{choose};
ghost use Rattle.refusal.specs.Answer.{number_of, of_verdict};
ghost use Rattle.text.specs.Steps.{Pieces};
ghost use Rattle.roles.specs.Roles.{role_number};
ghost use Rattle.roles.specs.Verbs.{verb_number};
ghost use Rattle.group.specs.Table.{is_empty};
ghost use Rattle.cases.specs.Cases.{args_in, fillers, Shows, two, table_line, counts, call_line};

use channel::{Answer, Channel};
use group::{Servers, Table};
use refusal::Refusal;
use roles::{Role, Verb};
use server::Server;
use std::io;

// ---- the numbers of a line

// The four numbers after the first.
#[derive(Clone, Copy)]
struct Args {
    x: u64,
    y: u64,
    z: u64,
    length: u64,
}

impl Args {
    // The numbers of a line after its first field, each with its greatest.
    fn read(s: &[u8], x: u64, y: u64, z: u64, longest: u64) -> Option<Args>
        ensures value { result ≡ args_in x y z longest s.now }
        ensures x_le_x { IfSome result (λ a. (a.x ≤ x) × ((a.y ≤ y) × ((a.z ≤ z) × (a.length ≤ longest)))) }
    {
        let s2 = text::after_field(s);
        let s3 = text::after_field(s2);
        let first = asked::number(text::first_field(s), x)?;
        let second = asked::number(text::first_field(s2), y)?;
        let third = asked::number(text::first_field(s3), z)?;
        let last = asked::number(text::after_field(s3), longest)?;
        Some(Args {
            x: first,
            y: second,
            z: third,
            length: last,
        })
    }
}

// The verb with the number k.
fn verb_of(k: u64) -> Verb
    requires { k ≤ 7 }
    ensures { verb_number result ≡ k }
{
    match k {
        0 => Verb::Start,
        1 => Verb::Ready,
        2 => Verb::Unready,
        3 => Verb::Pass,
        4 => Verb::Crash,
        5 => Verb::Restart,
        6 => Verb::Cut,
        _ => Verb::Mend,
    }
}

// The refusal with the number k, if there is one.
fn refusal_of(k: u64) -> Option<Refusal>
    ensures { IfSome result (λ r. number_of r ≡ k) }
{
    asked::REFUSALS
        .into_iter()
        .find(|r| u64::from(r.number()) == k)
}

// ---- the lent bytes

// Stands in the lent slice before a call; no line of a sheet has it.
const FILLER: u8 = b'#';

fn fill(lent: &mut [u8])
    ensures { lent.new ≡ replicate (length lent.old) 35 }
{
    lent.fill(FILLER);
}

// How many fillers there are.
fn fillers(s: &[u8]) -> usize
    ensures { result ≡ fillers s.now }
{
    let mut n: usize = 0;
    for x in s {
        n += usize::from(*x == FILLER);
    }
    n
}

// ---- the servers

// 1 for a server, 0 for an empty place.
fn present(s: Server) -> usize
    ensures { result ≡ choose (is_empty s) 0 1 }
{
    if s.identity == 0 { 0 } else { 1 }
}

fn digit(role: Role) -> u8
    ensures { result ≡ 48 + role_number role }
{
    b'0' + roles::role_number(role) as u8
}

// A digit for the role of each server: the first `count` of `digits`.
#[derive(Clone, Copy)]
struct Roles {
    digits: [u8; 16],
    count: usize,
}

fn roles_of(servers: Servers) -> Roles
    ensures { Shows servers result }
{
    let mut digits = [0u8; 16];
    let mut n: usize = 0;
    for s in servers {
        digits[n] = digit(s.role);
        n += present(s);
    }
    Roles { digits, count: n }
}

// ---- answers

fn number(verdict: Result<(), Refusal>) -> u8
    ensures { result ≡ of_verdict verdict }
{
    match verdict {
        Ok(()) => 0,
        Err(k) => k.number(),
    }
}

// Two numbers, parted by a tab.
fn put_two(out: &mut [u8], m: u64, n: u64) -> Result<usize, Refusal>
    ensures { Pieces out.old 0 (two m n) result out.new }
{
    let first = text::write_number(out, 0, m)?;
    let tab = text::write_bytes(out, first, b"\t")?;
    text::write_number(out, tab, n)
}

fn put_table(out: &mut [u8], number: u8, servers: Servers) -> Result<usize, Refusal>
    ensures { Pieces out.old 0 (table_line number servers) result out.new }
{
    let roles = roles_of(servers);
    let two = put_two(out, u64::from(number), roles.count as u64)?;
    text::write_bytes(out, two, b"\n")
}

// Four numbers, each with a tab after it.
fn put_counts(
    out: &mut [u8],
    number: u8,
    written: usize,
    kept: usize,
    frame: u32,
) -> Result<usize, Refusal>
    ensures { Pieces out.old 0 (counts number written kept frame) result out.new }
{
    let two = put_two(out, u64::from(number), written as u64)?;
    let tab = text::write_bytes(out, two, b"\t")?;
    let kept = text::write_number(out, tab, kept as u64)?;
    let tab2 = text::write_bytes(out, kept, b"\t")?;
    let frame = text::write_number(out, tab2, u64::from(frame))?;
    text::write_bytes(out, frame, b"\t")
}

// The line of a call, without what the call wrote.
fn put_call(
    out: &mut [u8],
    number: u8,
    written: usize,
    kept: usize,
    frame: u32,
    servers: Servers,
) -> Result<usize, Refusal>
    ensures { Pieces out.old 0 (call_line number written kept frame servers) result out.new }
{
    let roles = roles_of(servers);
    let digits = roles.digits;
    let end = roles.count;
    let counts = put_counts(out, number, written, kept, frame)?;
    let roles = text::write_bytes(out, counts, &digits[..end])?;
    text::write_bytes(out, roles, b"\n")
}

// What stands for an answer that cannot be told.
const BAD: &[u8] = b"bad answer\n";

fn say_table(rt: &impl Print, verdict: Result<(), Refusal>, servers: Servers) -> io::Result<()> {
    let mut out = [0u8; 64];
    let line = put_table(&mut out, number(verdict), servers);
    asked::print(rt, &out, line, BAD)
}

fn say_call(
    rt: &impl Print,
    answer: Result<usize, Refusal>,
    channel: Channel,
    lent: &[u8],
) -> io::Result<()> {
    let written = answer.unwrap_or(0);
    if written > lent.len() {
        return rt.write_all(BAD);
    }
    let state = channel.state();
    let n = fillers(&lent[written..]);
    let mut out = [0u8; 64];
    let line = put_call(
        &mut out,
        number(answer.map(|_| ())),
        written,
        n,
        state.frame,
        state.servers,
    );
    asked::print(rt, &out, line, BAD)?;
    rt.write_all(&lent[..written])
}

// ---- calls

// What is asked of a channel.
#[derive(Clone, Copy)]
enum Call {
    Act(Verb, u16, u16),
    Frame,
    Time(u32),
    Line(u16, Refusal),
}

// The call named after the verb.
fn act(channel: Channel, verb: Verb, a: u16, b: u16, lent: &mut [u8]) -> Answer {
    match verb {
        Verb::Start => channel.start(a, lent),
        Verb::Ready => channel.ready(a, lent),
        Verb::Unready => channel.unready(a, lent),
        Verb::Pass => channel.pass(a, b, lent),
        Verb::Crash => channel.crash(a, lent),
        Verb::Restart => channel.restart(a, lent),
        Verb::Cut => channel.cut(a, b, lent),
        Verb::Mend => channel.mend(a, b, lent),
    }
}

// Any verb; a second identity that is not looked at can only be given here.
fn act_any(channel: Channel, verb: Verb, a: u16, b: u16, lent: &mut [u8]) -> Answer {
    if roles::paired(verb) | (b == 0) {
        act(channel, verb, a, b, lent)
    } else {
        channel.verb(verb, a, b, lent)
    }
}

fn write_line(channel: Channel, identity: u16, refusal: Refusal, lent: &mut [u8]) -> Answer {
    Answer {
        written: channel.write_refused(identity, refusal, lent),
        channel,
    }
}

fn answer(channel: Channel, call: Call, lent: &mut [u8]) -> Answer {
    match call {
        Call::Act(verb, a, b) => act_any(channel, verb, a, b, lent),
        Call::Frame => channel.advance(lent),
        Call::Time(time) => channel.advance_to(time, lent),
        Call::Line(identity, refusal) => write_line(channel, identity, refusal, lent),
    }
}

// ---- the lines of a list

// What a line asks.
#[derive(Clone, Copy)]
enum Line {
    Clear,
    Server(u16, u8),
    Fresh(u32),
    // A call, and the length of the lent slice.
    Call(Call, u64),
}

impl Line {
    // 0
    fn clear(s: &[u8]) -> Option<Line> {
        Args::read(s, 0, 0, 0, 0)?;
        Some(Line::Clear)
    }

    // 1
    fn server(s: &[u8]) -> Option<Line> {
        let args = Args::read(s, u16::MAX as u64, u8::MAX as u64, 0, 0)?;
        Some(Line::Server(args.x as u16, args.y as u8))
    }

    // 2
    fn fresh(s: &[u8]) -> Option<Line> {
        let args = Args::read(s, u32::MAX as u64, 0, 0, 0)?;
        Some(Line::Fresh(args.x as u32))
    }

    // 3
    fn verb(s: &[u8]) -> Option<Line> {
        let args = Args::read(s, u16::MAX as u64, u16::MAX as u64, 7, u64::MAX)?;
        let call = Call::Act(verb_of(args.z), args.x as u16, args.y as u16);
        Some(Line::Call(call, args.length))
    }

    // 4
    fn frame(s: &[u8]) -> Option<Line> {
        let args = Args::read(s, 0, 0, 0, u64::MAX)?;
        Some(Line::Call(Call::Frame, args.length))
    }

    // 5
    fn time(s: &[u8]) -> Option<Line> {
        let args = Args::read(s, u32::MAX as u64, 0, 0, u64::MAX)?;
        Some(Line::Call(Call::Time(args.x as u32), args.length))
    }

    // 6
    fn refusal(s: &[u8]) -> Option<Line> {
        let args = Args::read(s, u16::MAX as u64, 16, 0, u64::MAX)?;
        let call = Call::Line(args.x as u16, refusal_of(args.y)?);
        Some(Line::Call(call, args.length))
    }

    fn read(line: &[u8]) -> Option<Line> {
        let s = text::after_field(line);
        match asked::letter(line)? {
            b'0' => Line::clear(s),
            b'1' => Line::server(s),
            b'2' => Line::fresh(s),
            b'3' => Line::verb(s),
            b'4' => Line::frame(s),
            b'5' => Line::time(s),
            b'6' => Line::refusal(s),
            _ => None,
        }
    }
}

// The table of a list, and the channel that its calls have led to, once there is one.
#[derive(Clone, Copy)]
struct State {
    table: Table,
    channel: Option<Channel>,
}

impl State {
    fn new() -> State {
        State {
            table: Table::empty(),
            channel: None,
        }
    }

    fn with_channel(self, channel: Channel) -> State {
        State {
            channel: Some(channel),
            ..self
        }
    }

    fn confused(self, rt: &impl Print) -> io::Result<State> {
        rt.write_all(b"bad line\n")?;
        Ok(self)
    }

    fn add(self, rt: &impl Print, identity: u16, priority: u8) -> io::Result<State> {
        let added = self.table.add(identity, priority);
        let table = added.table;
        say_table(rt, added.verdict, table.servers())?;
        Ok(State { table, ..self })
    }

    // A refused period leaves the channel there was.
    fn open(self, rt: &impl Print, period: u32) -> io::Result<State> {
        let opened = Channel::fresh(self.table, period);
        say_table(rt, opened.verdict, self.table.servers())?;
        match opened.verdict {
            Ok(()) => Ok(self.with_channel(opened.channel)),
            Err(_) => Ok(self),
        }
    }

    fn call(
        self,
        rt: &impl Print,
        channel: Channel,
        call: Call,
        lent: &mut [u8],
    ) -> io::Result<State> {
        fill(lent);
        let answer = answer(channel, call, lent);
        say_call(rt, answer.written, answer.channel, lent)?;
        Ok(self.with_channel(answer.channel))
    }

    // The call is lent the first bytes of the memory, where it has so many and a channel is open.
    fn call_within(
        self,
        rt: &impl Print,
        call: Call,
        length: u64,
        memory: &mut [u8],
    ) -> io::Result<State> {
        match (self.channel, memory.get_mut(..length as usize)) {
            (Some(channel), Some(lent)) => self.call(rt, channel, call, lent),
            _ => self.confused(rt),
        }
    }

    fn ask(self, rt: &impl Print, line: &[u8], memory: &mut [u8]) -> io::Result<State> {
        match Line::read(line) {
            Some(Line::Clear) => Ok(State::new()),
            Some(Line::Server(identity, priority)) => self.add(rt, identity, priority),
            Some(Line::Fresh(period)) => self.open(rt, period),
            Some(Line::Call(call, length)) => self.call_within(rt, call, length, memory),
            None => self.confused(rt),
        }
    }
}

// ---- the file

fn all(rt: &impl Print, file: &[u8], memory: &mut [u8]) -> io::Result<()> {
    let mut state = State::new();
    asked::each_line(file, |line, _| {
        state = state.ask(rt, line, memory)?;
        Ok(())
    })
}

const MOST: usize = 262144;

fn room() -> [u8; MOST] {
    [0; MOST]
}

fn run(rt: &impl Print, file: &[u8]) -> io::Result<()> {
    if file.len() < MOST {
        let mut memory = [0; 65536];
        all(rt, file, &mut memory)
    } else {
        println!(rt; "lists: more than 262,143 bytes")
    }
}

fn main(rt: HostRuntime) -> io::Result<()> {
    let mut buffer = room();
    match asked::load(&rt, "lists", &mut buffer)? {
        Some(n) => run(&rt, &buffer[..n]),
        None => println!(&rt; "lists: cannot be opened"),
    }
}
