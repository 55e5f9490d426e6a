// A group of playout servers wired by the protocol of docs/MAKERS.md is the channel, byte for byte.
// The theorem stands in the contract of the number of the rules.
#![tactic(auto)]

ghost use Rattle.wiring.specs.Rules.{Rules, MostHeard};

use group::Table;
use server::Server;

// 1 for the rules of document 01, 2 since a reveal gets a reply. It rises by 1 with every change of
// the rules that a sheet can show.
pub const RULES: u32 = 2;

// The number of the rules by which these servers play. Servers of one number, wired by the
// protocol, print the one sheet of their day.
pub fn rules() -> u32
    ensures { Rules result }
{
    RULES
}

// The most heartbeats that a server sends in one frame: its plain beats, a reveal and a pass.
pub const SENT: usize = Server::BEATS as usize + 2;

// The most that come to a server in one frame: those of all others.
pub const HEARD: usize = (Table::SERVERS - 1) * SENT;

// The most heartbeats that come to a server in one frame, with the laws of both limits.
pub fn most_heard() -> usize
    ensures { MostHeard result }
{
    HEARD
}
