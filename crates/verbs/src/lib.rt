// The eight verbs: on a channel's state by value, and on the numbers of its servers and its links
// in place.
#![tactic(auto)]

ghost use Rattle.std.specs.Prelude.{◌≡◌, ◌<◌, set};
ghost use Rattle.lists.specs.Choice.{choose};
ghost use Rattle.refusal.specs.Answer.{of_verdict};
ghost use Rattle.roles.specs.Verbs.{paired};
ghost use Rattle.lines.specs.Lines.{lines_of};
ghost use Rattle.group.specs.Table.{place_in, most};
ghost use Rattle.group.specs.Hearing.{link_of};
ghost use Rattle.group.specs.Answers.{Gives};
ghost use Rattle.group.specs.Verbs.{names_nobody, known, verb_outcome};
ghost use Rattle.places.specs.Words.{servers_of, Becomes};
ghost use Rattle.frame.specs.Answers.{verdict_of, bytes_of};
ghost use Rattle.verbs.specs.Answers.{Knows, Acts};
ghost use Rattle.verbs.specs.Steps.{known_at, Does, Tells, Decides, put};

use group::{Links, Servers, State, Table};
use places::Packed;
use refusal::Refusal;
use roles::{Said, Verb, Word};
use server::Server;

// What a verb answers on a state, how many bytes it wrote: where it is refused, nothing written and
// the same state.
#[derive(Clone, Copy)]
pub struct Answered {
    pub written: Result<usize, Refusal>,
    pub state: State,
}

// What a verb would make of its server and of its link, and what the sheet says of it.
#[derive(Clone, Copy)]
struct Deed {
    said: Said,
    server: Server,
    link: bool,
}

fn names_nobody(verb: Verb, a: u16, b: u16) -> bool
    ensures { result ≡ names_nobody verb a b }
{
    (a == 0) | (roles::paired(verb) & (b == 0))
}

// The identities are in the table, at the places i and j, and differ.
fn known(verb: Verb, a: u16, b: u16, i: usize, j: usize) -> bool
    ensures { result ≡ known_at verb a b i j }
{
    if roles::paired(verb) {
        (i < Table::SERVERS) & ((j < Table::SERVERS) & (a != b))
    } else {
        i < Table::SERVERS
    }
}

// 2, 8.
fn judge(verb: Verb, a: u16, b: u16, i: usize, j: usize) -> Result<(), Refusal>
    ensures { of_verdict result ≡ choose (names_nobody verb a b) 2 (choose (known_at verb a b i j) 0 8) }
{
    if names_nobody(verb, a, b) {
        return Err(Refusal::Number);
    }
    if known(verb, a, b, i, j) {
        Ok(())
    } else {
        Err(Refusal::Identity)
    }
}

// The place of the second identity, where the verb has one.
fn second_place(words: &Packed, verb: Verb, b: u16) -> usize
    ensures { result ≡ choose (paired verb) (place_in (servers_of words.now) b) 0 }
{
    if roles::paired(verb) {
        places::place_in(words, b)
    } else {
        0
    }
}

fn allow_link(can: bool) -> Result<(), Refusal>
    ensures { of_verdict result ≡ choose can 0 15 }
{
    if can { Ok(()) } else { Err(Refusal::Link) }
}

// What the state says: 12 to 15.
fn attempt(verb: Verb, frame: u32, b: u16, s: Server, link: bool) -> Result<Deed, Refusal>
    ensures { Does frame verb b s link result }
{
    match verb {
        Verb::Cut => {
            allow_link(link)?;
            Ok(Deed {
                said: Said::One(Word::Cut),
                server: s,
                link: false,
            })
        }
        Verb::Mend => {
            allow_link(!link)?;
            Ok(Deed {
                said: Said::One(Word::Mended),
                server: s,
                link: true,
            })
        }
        _ => {
            let acted = s.act(verb, frame, b);
            acted.verdict?;
            Ok(Deed {
                said: acted.event.said(),
                server: acted.server,
                link,
            })
        }
    }
}

// The lines of an allowed verb, or 9.
fn say(said: Said, frame: u32, identity: u16, out: &mut [u8]) -> Result<usize, Refusal>
    ensures { Tells (lines_of frame identity said) out.old result out.new }
{
    let room = out.len();
    let written = lines::say(out, true, 0, frame, identity, said);
    if written > room {
        Err(Refusal::Short)
    } else {
        Ok(written)
    }
}

// How many bytes a verb wrote, and what it makes of its server and of its link.
#[derive(Clone, Copy)]
struct Made {
    written: usize,
    server: Server,
    link: bool,
}

// A verb whose identities stand at the places `first` and `second`, or at none (16 or more), with
// the server at the first and the link from there to the second; for these two, places beyond the
// last count from 0 again.
fn decide(
    verb: Verb,
    frame: u32,
    a: u16,
    b: u16,
    first: usize,
    second: usize,
    s: Server,
    link: bool,
    out: &mut [u8],
) -> Result<Made, Refusal>
    ensures { Decides frame verb a b first second s link out.old result out.new }
{
    judge(verb, a, b, first, second)?;
    let deed = attempt(verb, frame, b, s, link)?;
    let written = say(deed.said, frame, a, out)?;
    Ok(Made {
        written,
        server: deed.server,
        link: deed.link,
    })
}

// ---- in place

// Another server at place i, and another link from there to place j.
fn put(words: &mut Packed, whole: &mut Links, i: usize, j: usize, server: Server, link: bool)
    requires { (i < most) × (j < most) }
    ensures { Becomes words.old (set (servers_of words.old) i server) words.new × (whole.new ≡ set whole.old (link_of i j) link) }
{
    places::put(words, i, server);
    whole[Table::SERVERS * i + j] = link;
}

// Whether the table has a verb's identities, which differ; the second counts only where the verb
// has one. It has no 0.
pub fn knows(words: &Packed, verb: Verb, a: u16, b: u16) -> bool
    ensures { Knows words.now verb a b result }
{
    let first = places::place_in(words, a);
    let second = second_place(words, verb, b);
    known(verb, a, b, first, second)
}

// Any verb; the second identity is not looked at where the verb has one only. An identity that is
// not in the table stands for place 0, and gets 8, or 2 where it is 0.
pub fn act(
    words: &mut Packed,
    whole: &mut Links,
    frame: u32,
    verb: Verb,
    a: u16,
    b: u16,
    out: &mut [u8],
) -> Result<usize, Refusal>
    ensures { Acts frame words.old whole.old verb a b out.old result words.new whole.new out.new }
{
    let first = places::place_in(words, a);
    let second = second_place(words, verb, b);
    let i = first % Table::SERVERS;
    let j = second % Table::SERVERS;
    let s = places::server(words, i);
    let done = decide(
        verb,
        frame,
        a,
        b,
        first,
        second,
        s,
        whole[Table::SERVERS * i + j],
        out,
    )?;
    put(words, whole, i, j, done.server, done.link);
    Ok(done.written)
}

// ---- by value

// The place of the second identity, where the verb has one.
fn second_in(servers: Servers, verb: Verb, b: u16) -> usize
    ensures { result ≡ choose (paired verb) (place_in servers b) 0 }
{
    if roles::paired(verb) {
        group::place_in(servers, b)
    } else {
        0
    }
}

// The same with another server at place i, and another link from there to place j.
fn replaced(state: State, i: usize, j: usize, server: Server, link: bool) -> State
    requires { (i < most) × (j < most) }
    ensures { result ≡ put state i j server link }
{
    let k = Table::SERVERS * i + j;
    let mut next = state;
    next.servers[i] = server;
    next.whole[k] = link;
    next
}

// The same of a state.
pub fn knows_in(state: State, verb: Verb, a: u16, b: u16) -> bool
    ensures { result ≡ known state verb a b }
{
    let servers = state.servers;
    let first = group::place_in(servers, a);
    let second = second_in(servers, verb, b);
    known(verb, a, b, first, second)
}

// Any verb on a state.
pub fn next(state: State, verb: Verb, a: u16, b: u16, out: &mut [u8]) -> Answered
    ensures { Gives state (verb_outcome state verb a b) out.old (verdict_of result.written) (bytes_of result.written) result.state out.new }
{
    let servers = state.servers;
    let first = group::place_in(servers, a);
    let second = second_in(servers, verb, b);
    let i = first % Table::SERVERS;
    let j = second % Table::SERVERS;
    let s = servers[i];
    let done = decide(
        verb,
        state.frame,
        a,
        b,
        first,
        second,
        s,
        state.whole[Table::SERVERS * i + j],
        out,
    );
    match done {
        Ok(made) => Answered {
            written: Ok(made.written),
            state: replaced(state, i, j, made.server, made.link),
        },
        Err(k) => Answered {
            written: Err(k),
            state,
        },
    }
}
