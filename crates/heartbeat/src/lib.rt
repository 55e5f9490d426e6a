// The heartbeat, which of two senders is higher, and the heartbeat's line.
#![tactic(auto)]

ghost use Rattle.std.specs.Prelude.{◌≡◌, length};
ghost use Rattle.text.specs.Number.{of_number};
ghost use Rattle.text.specs.Write.{Writes};
ghost use Rattle.text.specs.Steps.{Pieces};
ghost use Rattle.heartbeat.specs.Rank.{read_identity, read_priority, higher};
ghost use Rattle.heartbeat.specs.Heartbeat.{of_heartbeat, sender, is_set, read_fields, read_body, read_heartbeat, reveal_written, heartbeat_line};
ghost use Rattle.heartbeat.specs.Trips.{WritesHeartbeat};

use refusal::Refusal;
use text::Line;

// What makes one server higher than another: its priority, then its identity.
#[derive(Clone, Copy)]
pub struct Rank {
    pub priority: u8,
    pub identity: u16,
}

// The four fields of Table I; bs is BecomeSupervised.
#[derive(Clone, Copy)]
pub struct Heartbeat {
    pub bs: u16,
    pub priority: u8,
    pub tiebreaker: u16,
    pub reveal: u8,
}

impl Rank {
    // An identity is 1 to 65,535, a priority 0 to 255.
    pub const MIN_IDENTITY: u64 = 1;

    pub const MAX_IDENTITY: u64 = 65535;

    pub const MAX_PRIORITY: u64 = 255;

    // An identity in a field, or 2.
    pub fn read_identity(s: &[u8]) -> Result<u64, Refusal>
        ensures { of_number result ≡ read_identity s.now }
    {
        text::read_number(s, Rank::MIN_IDENTITY, Rank::MAX_IDENTITY)
    }

    // A priority in a field, or 2.
    pub fn read_priority(s: &[u8]) -> Result<u64, Refusal>
        ensures { of_number result ≡ read_priority s.now }
    {
        text::read_number(s, 0, Rank::MAX_PRIORITY)
    }

    // Whether this server is higher than the other.
    pub fn higher(self, other: Rank) -> bool
        ensures { result ≡ higher self other }
    {
        if self.priority == other.priority {
            self.identity > other.identity
        } else {
            self.priority > other.priority
        }
    }
}

// ---- reading, field by field

fn read_fields(s: &[u8]) -> Result<Heartbeat, Refusal>
    ensures { of_heartbeat result ≡ read_fields s.now }
{
    let bs = text::read_number(text::first_field(s), 0, Heartbeat::MAX_BS)?;
    let after_bs = text::after_field(s);
    let priority = Rank::read_priority(text::first_field(after_bs))?;
    let after_priority = text::after_field(after_bs);
    let tiebreaker = Rank::read_identity(text::first_field(after_priority))?;
    let after_tiebreaker = text::after_field(after_priority);
    let reveal = text::read_number(
        text::first_field(after_tiebreaker),
        0,
        Heartbeat::MAX_REVEAL,
    )?;
    Ok(Heartbeat {
        bs: bs as u16,
        priority: priority as u8,
        tiebreaker: tiebreaker as u16,
        reveal: reveal as u8,
    })
}

fn read_body(s: &[u8]) -> Result<Heartbeat, Refusal>
    ensures { of_heartbeat result ≡ read_body s.now }
{
    if text::field_count(s) == 4 {
        read_fields(s)
    } else {
        Err(Refusal::Form)
    }
}

// ---- writing

// A set Reveal is written as 1.
fn reveal_written(reveal: u8) -> u8
    ensures { result ≡ reveal_written reveal }
{
    if reveal == 0 { 0 } else { 1 }
}

impl Heartbeat {
    // BS is 0 to 65,535, Reveal 0 to 255.
    pub const MAX_BS: u64 = 65535;

    pub const MAX_REVEAL: u64 = 255;

    // The sender, by its rank.
    pub fn sender(self) -> Rank
        ensures { result ≡ sender self }
    {
        Rank {
            priority: self.priority,
            identity: self.tiebreaker,
        }
    }

    // Whether Reveal is set.
    pub fn reveals(self) -> bool
        ensures { result ≡ is_set self.reveal }
    {
        self.reveal != 0
    }

    // The heartbeat of a line, its line feed included: 1, then 2.
    pub fn read(line: &[u8]) -> Result<Heartbeat, Refusal>
        ensures { of_heartbeat result ≡ read_heartbeat line.now }
    {
        let whole = Line::read(line)?;
        read_body(&line[..whole.length])
    }

    fn line_length(self) -> usize
        ensures { result ≡ length (heartbeat_line self) }
    {
        text::width(self.bs as u64)
            + text::width(self.priority as u64)
            + text::width(self.tiebreaker as u64)
            + 5
    }

    // The pieces of the line, where they fit.
    fn put_line(self, out: &mut [u8], at: usize) -> Result<usize, Refusal>
        ensures { Pieces out.old at (heartbeat_line self) result out.new }
    {
        let bs = text::write_number(out, at, self.bs as u64)?;
        let tab = text::write_bytes(out, bs, b"\t")?;
        let priority = text::write_number(out, tab, self.priority as u64)?;
        let tab2 = text::write_bytes(out, priority, b"\t")?;
        let tiebreaker = text::write_number(out, tab2, self.tiebreaker as u64)?;
        let tab3 = text::write_bytes(out, tiebreaker, b"\t")?;
        let reveal = text::write_number(out, tab3, reveal_written(self.reveal) as u64)?;
        text::write_bytes(out, reveal, b"\n")
    }

    fn write_line(self, out: &mut [u8], at: usize) -> Result<usize, Refusal>
        ensures { Writes out.old at (heartbeat_line self) result out.new }
    {
        let n = self.line_length();
        if text::fits(out.len(), at, n) {
            self.put_line(out, at)
        } else {
            Err(Refusal::Short)
        }
    }

    // The line into a lent slice: 2 for a TieBreaker of 0, then 9.
    pub fn write(self, out: &mut [u8], at: usize) -> Result<usize, Refusal>
        ensures { WritesHeartbeat self out.old at result out.new }
    {
        if self.tiebreaker == 0 {
            Err(Refusal::Number)
        } else {
            self.write_line(out, at)
        }
    }
}
