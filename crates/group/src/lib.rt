// The group of a channel: its table of servers, and its state in a frame.
#![tactic(auto)]

ghost use Rattle.std.specs.Prelude.{◌≡◌, Bool, ◌*◌, ◌≤◌, replicate};
ghost use Rattle.lists.specs.Choice.{choose};
ghost use Rattle.lists.specs.Lists.{every};
ghost use Rattle.periods.specs.Period.{least_period, greatest_period, beat_limit};
ghost use Rattle.roles.specs.Roles.{role_number};
ghost use Rattle.group.specs.Table.{most, empty, is_empty, counted, named, place_in, stands_before, enter, anew, is_new, follows, rises, is_table};
ghost use Rattle.group.specs.Answers.{Adds, Takes, no_channel, Opens};

use periods::Period;
use refusal::Refusal;
use server::Server;

// A place for each server that a channel may have.
pub type Servers = [Server; Table::SERVERS];

// The links between them, true where they are whole: the one from place i to place j is at
// Table::SERVERS * i + j.
pub type Links = [bool; Table::LINKS];

// The servers of a channel in rising identity; empty places, of identity 0, come last. Made by
// `empty` and `add`; `of` takes the servers of one that they made.
#[derive(Clone, Copy)]
pub struct Table {
    servers: Servers,
}

// A channel's state in a frame.
#[derive(Clone, Copy)]
pub struct State {
    pub frame: u32,
    pub period: Period,
    pub servers: Servers,
    pub whole: Links,
}

// A table after a server is added, or the same one.
#[derive(Clone, Copy)]
pub struct Added {
    pub verdict: Result<(), Refusal>,
    pub table: Table,
}

// A fresh channel; where it is refused, one with no server.
#[derive(Clone, Copy)]
pub struct Opened {
    pub verdict: Result<(), Refusal>,
    pub state: State,
}

// ---- the table

// Whether this is the server of an identity; 0 is nobody's.
pub fn named(identity: u16, s: Server) -> bool
    ensures { result ≡ named identity s }
{
    (identity != 0) & (s.identity == identity)
}

// The place of an identity, or 16; no place is that of 0.
pub fn place_in(servers: Servers, identity: u16) -> usize
    ensures { result ≡ place_in servers identity }
{
    let found = servers.iter().position(|s| named(identity, *s));
    found.unwrap_or(Table::SERVERS)
}

// One server, or none in an empty place.
fn one(s: Server) -> usize
    ensures { result ≡ choose (is_empty s) 0 1 }
{
    if s.identity == 0 { 0 } else { 1 }
}

// How many servers there are.
fn count(servers: Servers) -> usize
    ensures { result ≡ counted servers }
{
    servers.iter().map(|s| one(*s)).sum()
}

fn stands_before(new: Server, s: Server) -> bool
    ensures { result ≡ stands_before new s }
{
    (s.identity == 0) | (new.identity < s.identity)
}

fn pick(first: bool, a: Server, b: Server) -> Server
    ensures { result ≡ choose first a b }
{
    if first { a } else { b }
}

// The new server into its place; those after it move up by one.
fn enter(servers: Servers, new: Server) -> Servers
    ensures { result ≡ enter new servers }
{
    let mut next = servers;
    let mut carried = new;
    for place in next.iter_mut() {
        let s = *place;
        let first = stands_before(carried, s);
        let entered = pick(first, carried, s);
        carried = pick(first, s, carried);
        *place = entered;
    }
    next
}

// The server as it was added: idle and with nothing sent, or nobody in an empty place.
fn anew(s: Server) -> Server
    ensures { result ≡ anew s }
{
    let made = Server::new(s.identity, s.priority);
    made.server
}

fn is_new(s: Server) -> bool
    ensures { result ≡ is_new s }
{
    let new = anew(s);
    let role = s.role;
    let first = new.role;
    let idles = roles::role_number(role) == roles::role_number(first);
    let unset = (s.silence == 0) & ((s.beat == 0) & (s.prospect == 0));
    let unsent = (s.beats == 0) & (!s.reveal & (s.pass == 0));
    idles & ((s.priority == new.priority) & (unset & unsent))
}

// x may stand after s.
fn follows(s: Server, x: Server) -> bool
    ensures { result ≡ follows s x }
{
    (x.identity == 0) | ((s.identity != 0) & (s.identity < x.identity))
}

fn are_new(servers: Servers) -> bool
    ensures { result ≡ every is_new servers }
{
    servers.iter().all(|s| is_new(*s))
}

// In rising identity, empty places last.
fn rise(servers: Servers) -> bool
    ensures { result ≡ rises servers }
{
    servers.is_sorted_by(|s, x| follows(*s, *x))
}

// Whether adding makes these servers.
pub fn is_table(servers: Servers) -> bool
    ensures { result ≡ is_table servers }
{
    are_new(servers) & rise(servers)
}

impl Table {
    // Servers of a channel, at most.
    pub const SERVERS: usize = 16;

    // Links between them, also one from each place to itself, which nothing uses.
    pub const LINKS: usize = Table::SERVERS * Table::SERVERS;

    // The table of no server.
    pub fn empty() -> Table
        ensures { result ≡ empty }
    {
        let nobody = Server::absent();
        let servers = [nobody; Table::SERVERS];
        Table { servers }
    }

    // The table that has these servers; 2, and the table of no server, where adding does not make
    // them.
    pub fn of(servers: Servers) -> Added
        ensures { Takes servers result }
    {
        if is_table(servers) {
            let table = Table { servers };
            Added {
                verdict: Ok(()),
                table,
            }
        } else {
            let table = Table::empty();
            table.refused(Refusal::Number)
        }
    }

    // Its servers.
    pub fn servers(self) -> Servers
        ensures { result ≡ self.servers }
    {
        self.servers
    }

    fn refused(self, k: Refusal) -> Added
        ensures { result ≡ record { verdict = Err k; table = self } }
    {
        Added {
            verdict: Err(k),
            table: self,
        }
    }

    fn with(self, new: Server) -> Added
        ensures { result ≡ record { verdict = Ok tt; table = record { servers = enter new self.servers } } }
    {
        let before = self.servers;
        let servers = enter(before, new);
        let table = Table { servers };
        Added {
            verdict: Ok(()),
            table,
        }
    }

    // A server more: 2, 5, 6.
    pub fn add(self, identity: u16, priority: u8) -> Added
        ensures { Adds self identity priority result }
    {
        let made = Server::new(identity, priority);
        let new = made.server;
        let servers = self.servers;
        if !(is_table(servers) & (identity != 0)) {
            return self.refused(Refusal::Number);
        }
        if place_in(servers, identity) < Table::SERVERS {
            return self.refused(Refusal::Taken);
        }
        if count(servers) >= Table::SERVERS {
            return self.refused(Refusal::Servers);
        }
        self.with(new)
    }
}

// ---- the fresh channel

fn open(servers: Servers, period: Period) -> State
    ensures { result ≡ record { frame = 0; period = period; servers = servers; whole = replicate (most * most) Bool.true } }
{
    let whole = [true; Table::LINKS];
    State {
        frame: 0,
        period,
        servers,
        whole,
    }
}

// No channel: one with no server.
fn unopened(k: Refusal) -> Opened
    ensures { result ≡ record { verdict = Err k; state = no_channel } }
{
    let table = Table::empty();
    let servers = table.servers;
    let state = open(servers, Period::shortest());
    Opened {
        verdict: Err(k),
        state,
    }
}

fn open_with(table: Table, period: Period) -> Opened
    requires { (least_period ≤ beat_limit period) × (beat_limit period ≤ greatest_period) }
    ensures { Opens table (beat_limit period) result }
{
    let servers = table.servers;
    if !is_table(servers) {
        return unopened(Refusal::Number);
    }
    let n = count(servers);
    if n == 0 {
        return unopened(Refusal::Servers);
    }
    if (period.beat_limit() as usize) < n {
        return unopened(Refusal::Period);
    }
    let state = open(servers, period);
    Opened {
        verdict: Ok(()),
        state,
    }
}

impl State {
    // A channel at frame 0: 2, 6, 7.
    pub fn fresh(table: Table, period: u32) -> Opened
        ensures { Opens table period result }
    {
        match Period::of(period) {
            Ok(p) => open_with(table, p),
            Err(k) => unopened(k),
        }
    }
}
