// The roles of a server, the verbs that may be entered of it and what happens to it: the table of
// roles against verbs, and the words of the sheet.
#![tactic(auto)]

ghost use Rattle.std.specs.Prelude.{◌≡◌, ◌<◌, ◌≤◌};
ghost use Rattle.refusal.specs.Answer.{number_of};
ghost use Rattle.roles.specs.Roles.{role_number};
ghost use Rattle.roles.specs.Verbs.{of_allowed, enters, entering, verb_event, paired, verb_number, cell, of_cell};
ghost use Rattle.roles.specs.Words.{said};

use refusal::Refusal;

// What a server is to its group.
#[derive(Clone, Copy)]
pub enum Role {
    Down,
    Idle,
    Sync,
    Backup,
    Prospect,
    Primary,
}

// What happens to a server in a step.
#[derive(Clone, Copy)]
pub enum Event {
    Nothing,
    ToBackup,
    ToProspectBeat,
    ToProspectReveal,
    Lower,
    // A primary's note, and its reply.
    LowerBeat,
    Beat,
    ToPrimary,
    ToSync,
    ToIdle,
    ToDown,
    Passed(u16),
}

// What may be entered of a server.
#[derive(Clone, Copy)]
pub enum Verb {
    Start,
    Ready,
    Unready,
    Pass,
    Crash,
    Restart,
    Cut,
    Mend,
}

// What the sheet says.
#[derive(Clone, Copy)]
pub enum Word {
    Sync,
    Backup,
    Prospect,
    Primary,
    Idle,
    Down,
    Beat,
    Reveal,
    Pass,
    Lower,
    Cut,
    Mended,
}

// The words of an event.
#[derive(Clone, Copy)]
pub enum Said {
    Nothing,
    One(Word),
    Two(Word, Word),
}

// ---- verbs

// The table of roles against verbs: for each role, in the order of Role, and each verb, in the
// order of Verb, the number of the role that is entered, or kept by `cut` and `mend` (0 to 5), or
// of the refusal (12 to 14).
const TABLE: [[u8; 8]; 6] = [
    [12, 12, 12, 12, 12, 1, 0, 0],
    [2, 14, 14, 14, 0, 13, 1, 1],
    [14, 3, 14, 14, 0, 13, 2, 2],
    [14, 14, 2, 14, 0, 13, 3, 3],
    [14, 14, 14, 14, 0, 13, 4, 4],
    [14, 14, 14, 3, 0, 13, 5, 5],
];

// The number of a role.
pub fn role_number(role: Role) -> u32
    ensures { result ≡ role_number role }
{
    match role {
        Role::Down => 0,
        Role::Idle => 1,
        Role::Sync => 2,
        Role::Backup => 3,
        Role::Prospect => 4,
        Role::Primary => 5,
    }
}

fn verb_number(verb: Verb) -> usize
    ensures { result ≡ verb_number verb }
{
    match verb {
        Verb::Start => 0,
        Verb::Ready => 1,
        Verb::Unready => 2,
        Verb::Pass => 3,
        Verb::Crash => 4,
        Verb::Restart => 5,
        Verb::Cut => 6,
        Verb::Mend => 7,
    }
}

fn cell(role: usize, verb: usize) -> u8
    requires { (role < 6) × (verb < 8) }
    ensures { result ≡ cell role verb }
{
    TABLE[role][verb]
}

// The cell of a role and a verb.
fn entered(verb: Verb, role: Role) -> u8
    ensures { (of_cell result ≡ enters verb role) × (result < 15) }
{
    cell(role_number(role) as usize, verb_number(verb))
}

// The refusal of a cell.
fn refusal_of(n: u8) -> Refusal
    requires { (12 ≤ n) × (n < 15) }
    ensures { number_of result ≡ n }
{
    if n == 12 {
        Refusal::Down
    } else if n == 13 {
        Refusal::Up
    } else {
        Refusal::Role
    }
}

// What the table says of a verb in a role.
pub fn by_table(verb: Verb, role: Role) -> Result<u8, Refusal>
    ensures { of_allowed result ≡ enters verb role }
{
    let n = entered(verb, role);
    if n < 12 { Ok(n) } else { Err(refusal_of(n)) }
}

// The event of entering the role with the number k.
fn entering(k: u8) -> Event
    ensures { result ≡ entering k }
{
    if k == 0 {
        Event::ToDown
    } else if k == 1 {
        Event::ToIdle
    } else if k == 2 {
        Event::ToSync
    } else {
        Event::ToBackup
    }
}

// What happens to the acting server of a verb that leads to the role with the number k; `to` is the
// second identity.
pub fn verb_event(verb: Verb, to: u16, k: u8) -> Event
    ensures { result ≡ verb_event verb to k }
{
    match verb {
        Verb::Start => entering(k),
        Verb::Ready => entering(k),
        Verb::Unready => entering(k),
        Verb::Pass => Event::Passed(to),
        Verb::Crash => entering(k),
        Verb::Restart => entering(k),
        Verb::Cut => Event::Nothing,
        Verb::Mend => Event::Nothing,
    }
}

// Whether the verb has two identities.
pub fn paired(verb: Verb) -> bool
    ensures { result ≡ paired verb }
{
    match verb {
        Verb::Start => false,
        Verb::Ready => false,
        Verb::Unready => false,
        Verb::Pass => true,
        Verb::Crash => false,
        Verb::Restart => false,
        Verb::Cut => true,
        Verb::Mend => true,
    }
}

// ---- words

impl Event {
    // What the sheet says of it.
    pub fn said(self) -> Said
        ensures { result ≡ said self }
    {
        match self {
            Event::Nothing => Said::Nothing,
            Event::ToBackup => Said::One(Word::Backup),
            Event::ToProspectBeat => Said::Two(Word::Prospect, Word::Beat),
            Event::ToProspectReveal => Said::Two(Word::Prospect, Word::Reveal),
            Event::Lower => Said::One(Word::Lower),
            Event::LowerBeat => Said::Two(Word::Lower, Word::Beat),
            Event::Beat => Said::One(Word::Beat),
            Event::ToPrimary => Said::One(Word::Primary),
            Event::ToSync => Said::One(Word::Sync),
            Event::ToIdle => Said::One(Word::Idle),
            Event::ToDown => Said::One(Word::Down),
            Event::Passed(_) => Said::Two(Word::Pass, Word::Backup),
        }
    }
}
