// A day and a list of calls for the benchmark, exported for Rust to link.
#![tactic(auto)]

ghost use Rattle.std.specs.Prelude.{◌≡◌};
ghost use Rattle.places.specs.Words.{servers_of};
ghost use Rattle.frame.specs.Answers.{state_of};
ghost use Rattle.bench.specs.Bench.{table_of, OneStep, DayRuns, DayEnds, CallsEnd};

use group::{Links, State, Table};
use periods::Period;
use places::Packed;

// The table of the servers, an identity and a priority each; those that are refused are left out.
fn table_of(servers: &[u64]) -> Table
    ensures { result ≡ table_of servers.now }
{
    let mut table = Table::empty();
    for server in servers.chunks_exact(2) {
        let identity = (server[0] % 65536) as u16;
        let priority = (server[1] % 256) as u8;
        table = table.add(identity, priority).table;
    }
    table
}

// A verb, or the advance towards a time, by its number, in place; it is lent the whole slice. The
// frame afterwards.
fn one(
    words: &mut Packed,
    whole: &mut Links,
    period: Period,
    frame: u32,
    n: u64,
    out: &mut [u8],
) -> u32
    ensures { OneStep (state_of frame period (servers_of words.old) whole.old) n out.old (state_of result period (servers_of words.new) whole.new) out.new }
{
    let kind = n % 10;
    let about = n / 10;
    if kind < 8 {
        let first = (about % 65536) as u16;
        let second = (about / 65536 % 65536) as u16;
        let _ = verbs::act(
            words,
            whole,
            frame,
            calls::verb_at(kind),
            first,
            second,
            out,
        );
        frame
    } else {
        let target = (about % 4294967296) as u32;
        let ran = frames::run_within(words, whole, period, frame, target, out);
        ran.frame
    }
}

// One after the other, from the first frame on.
fn day(
    words: &mut Packed,
    whole: &mut Links,
    period: Period,
    first: u32,
    steps: &[u64],
    out: &mut [u8],
) -> u32
    ensures { DayRuns (state_of first period (servers_of words.old) whole.old) steps.now out.old (state_of result period (servers_of words.new) whole.new) out.new }
{
    let mut frame = first;
    for n in steps {
        frame = one(words, whole, period, frame, *n, out);
    }
    frame
}

// The day on the fresh channel of the servers: the frame that it ends in.
#[unsafe(no_mangle)]
pub extern "C" fn bench_day(servers: &[u64], period: u32, steps: &[u64], out: &mut [u8]) -> u32
    ensures { DayEnds servers.now period steps.now out.old result out.new }
{
    let table = table_of(servers);
    let opened = State::fresh(table, period);
    let state = opened.state;
    let listed = state.servers;
    let mut words = places::words_of(listed);
    let mut whole = state.whole;
    let p = state.period;
    day(&mut words, &mut whole, p, state.frame, steps, out)
}

// Single calls, one after the other, on the fresh channel of the servers by value: the frame that
// they end in.
#[unsafe(no_mangle)]
pub extern "C" fn bench_calls(
    servers: &[u64],
    period: u32,
    calls: &[u64],
    out: &mut [u8],
    numbers: &mut [u8],
) -> u32
    ensures { CallsEnd servers.now period calls.now out.old numbers.old result out.new numbers.new }
{
    let table = table_of(servers);
    let ended = calls::run_list(table, period, calls, out, numbers);
    let channel = ended.channel;
    channel.frame()
}
