// Servers at their places, as numbers: which place hears which, and which comes first.
#![tactic(auto)]

ghost use Rattle.std.specs.Prelude.{◌≡◌, Bool, ◌<◌, length, get_or};
ghost use Rattle.lists.specs.Choice.{choose};
ghost use Rattle.server.specs.Server.{absent};
ghost use Rattle.group.specs.Table.{place_in, most};
ghost use Rattle.group.specs.Hearing.{is_place};
ghost use Rattle.roles.specs.Roles.{is_active};
ghost use Rattle.places.specs.Roles.{is_backup, is_prospect, is_primary, is_still};
ghost use Rattle.places.specs.Words.{role_of, rank_number, sending_number, server_of, servers_of, Packs, Puts, packed};
ghost use Rattle.places.specs.Steps.{Stores};
ghost use Rattle.places.specs.Order.{hears_at, rank_end, rank_under, no_best, better_of};

use group::{Links, Servers, Table};
use roles::Role;
use server::Server;
use std::array;

// ---- roles

pub fn is_backup(role: Role) -> bool
    ensures { result ≡ is_backup role }
{
    matches!(role, Role::Backup)
}

pub fn is_prospect(role: Role) -> bool
    ensures { result ≡ is_prospect role }
{
    matches!(role, Role::Prospect)
}

pub fn is_primary(role: Role) -> bool
    ensures { result ≡ is_primary role }
{
    matches!(role, Role::Primary)
}

// In backup, prospect or primary: hears, and has a timer.
pub fn is_active(role: Role) -> bool
    ensures { result ≡ is_active role }
{
    matches!(role, Role::Backup | Role::Prospect | Role::Primary)
}

// Neither hears nor has a timer, and sent nothing.
pub fn is_still(s: Server) -> bool
    ensures { result ≡ is_still s }
{
    let role = s.role;
    !is_active(role) & !s.sent_any()
}

// ---- servers as numbers

// Numbers for each server: its head, which is its role and its rank, its three timers, and what it
// sent in this frame.
pub const EACH: usize = 5;

// Where they stand among the numbers of their server; the head comes first.
pub const SILENCE: usize = 1;

pub const BEAT: usize = 2;

pub const PROSPECT: usize = 3;

pub const SENDING: usize = 4;

// The numbers of all servers.
pub const PACKED: usize = EACH * Table::SERVERS;

pub type Packed = [u32; PACKED];

// So many values a byte has.
const BYTE: u32 = 256;

// In a rank, and in a head: the identity, then the priority, then the role, each counted by these.
pub const PRIORITY: u32 = 65536;

const ROLE: u32 = BYTE * PRIORITY;

// In what was sent: the identity passed to, then whether there was a reveal, then the plain beats.
pub const REVEAL: u32 = 65536;

pub const BEATS: u32 = 2 * REVEAL;

// The role of a number; from 5 on, primary.
pub fn role_of(n: u32) -> Role
    ensures { result ≡ role_of n }
{
    match n {
        0 => Role::Down,
        1 => Role::Idle,
        2 => Role::Sync,
        3 => Role::Backup,
        4 => Role::Prospect,
        _ => Role::Primary,
    }
}

// The greater the number, the higher the server.
pub fn rank_number(s: Server) -> u32
    ensures { (result ≡ rank_number s) × ((s.identity < 65536) × (s.priority < 256)) }
{
    (s.priority as u32) * PRIORITY + (s.identity as u32)
}

fn flag(is: bool) -> u32
    ensures { result ≡ choose is 1 0 }
{
    if is { 1 } else { 0 }
}

// 0 where nothing was sent.
pub fn sending_number(s: Server) -> u32
    ensures { (result ≡ sending_number s) × ((s.beats < 256) × (s.pass < 65536)) }
{
    ((s.beats as u32) * 2 + flag(s.reveal)) * REVEAL + (s.pass as u32)
}

fn server_of(head: u32, silence: u32, beat: u32, prospect: u32, sending: u32) -> Server
    ensures { result ≡ server_of head silence beat prospect sending }
{
    Server {
        identity: (head % PRIORITY) as u16,
        priority: (head / PRIORITY % BYTE) as u8,
        role: role_of(head / ROLE),
        silence,
        beat,
        prospect,
        beats: (sending / BEATS % BYTE) as u8,
        reveal: sending / REVEAL % 2 == 1,
        pass: (sending % REVEAL) as u16,
    }
}

// The server of place i.
fn server_at(words: &Packed, i: usize) -> Server
    requires { i < most }
    ensures { result ≡ get_or (servers_of words.now) i absent }
{
    let k = EACH * i;
    server_of(
        words[k],
        words[k + SILENCE],
        words[k + BEAT],
        words[k + PROSPECT],
        words[k + SENDING],
    )
}

// The server of place i replaced.
fn store(words: &mut Packed, i: usize, s: Server)
    requires { i < most }
    ensures { Stores words.old i s words.new }
{
    let k = EACH * i;
    let role = s.role;
    let head = roles::role_number(role) * ROLE + rank_number(s);
    let sending = sending_number(s);
    words[k] = head;
    words[k + SILENCE] = s.silence;
    words[k + BEAT] = s.beat;
    words[k + PROSPECT] = s.prospect;
    words[k + SENDING] = sending;
}

// The servers as numbers.
pub fn words_of(servers: Servers) -> Packed
    ensures { Packs servers result }
{
    let mut words: Packed = [0; PACKED];
    for (i, s) in servers.iter().enumerate() {
        store(&mut words, i, *s);
    }
    words
}

// The servers of the numbers.
pub fn servers_of(words: &Packed) -> Servers
    ensures { result ≡ servers_of words.now }
{
    array::from_fn(|i| server_at(words, i))
}

// The server of place i; nobody beyond the last place.
pub fn server(words: &Packed, i: usize) -> Server
    ensures { result ≡ get_or (servers_of words.now) i absent }
{
    if i < Table::SERVERS {
        server_at(words, i)
    } else {
        Server::absent()
    }
}

// The server of place i replaced; nothing beyond the last place.
pub fn put(words: &mut Packed, i: usize, s: Server)
    ensures { Puts words.old i s words.new }
{
    if i < Table::SERVERS {
        store(words, i, s);
    }
}

// The place of an identity; beyond the last place where there is none, as there is none of 0.
pub fn place_in(words: &Packed, identity: u16) -> usize
    ensures { result ≡ place_in (servers_of words.now) identity }
{
    for i in 0..Table::SERVERS {
        let s = server_at(words, i);
        if group::named(identity, s) {
            return i;
        }
    }
    Table::SERVERS
}

// ---- who hears whom, and who comes first

// Whether place j would hear what place i sends: another place, with a whole link.
pub fn hears(whole: &Links, i: usize, j: usize) -> bool
    ensures { result ≡ hears_at whole.now j i }
{
    if (i < Table::SERVERS) & (j < Table::SERVERS) {
        (i != j) & whole[Table::SERVERS * i + j]
    } else {
        false
    }
}

// The best so far of the places that come after the place last (16: none), and the least rank of a
// place that comes before it.
#[derive(Clone, Copy)]
pub struct Best {
    pub place: usize,
    pub least: u64,
}

// Beyond all ranks.
const RANKS: u64 = 4294967296;

fn wide(n: u32) -> u64
    ensures { result ≡ n }
{
    n as u64
}

// What the rank of a place is under if it comes after the place last: the rank of last; where there
// is none (16 or more), a number beyond all ranks.
pub fn rank_under(ranks: &[u32; Table::SERVERS], last: usize) -> u64
    ensures { result ≡ rank_under ranks.now last }
{
    if last < Table::SERVERS {
        wide(ranks[last])
    } else {
        RANKS
    }
}

impl Best {
    pub fn none() -> Best
        ensures { result ≡ no_best }
    {
        Best {
            place: Table::SERVERS,
            least: 0,
        }
    }

    // Place i with this rank if it is heard sooner, else the best so far.
    pub fn or(self, under: u64, rank: u32, i: usize) -> Best
        ensures { (result ≡ better_of under self rank i) × (rank < rank_end) }
    {
        let n = wide(rank);
        if (n < under) & (self.least <= n) {
            Best {
                place: i,
                least: n + 1,
            }
        } else {
            self
        }
    }
}
