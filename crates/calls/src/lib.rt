// A whole list of calls on one channel, and demand 3 of the channel that it ends with.
#![tactic(auto)]

ghost use Rattle.std.specs.Prelude.{◌≡◌, ◌<◌, ◌≤◌, length};
ghost use Rattle.group.specs.Calls.{outcome_of};
ghost use Rattle.frame.specs.Answers.{verdict_of};
ghost use Rattle.channel.specs.Answers.{state, Answers};
ghost use Rattle.refusal.specs.Answer.{of_verdict};
ghost use Rattle.calls.specs.Encoding.{verb_at, call_of, lesser, calls_of};
ghost use Rattle.calls.specs.Running.{RunsList};
ghost use Rattle.calls.specs.Steps.{OneCall, ListRuns, Unopened};

use channel::{Answer, Channel};
use group::Table;
use refusal::Refusal;
use roles::Verb;

// The channel after the last call; where the list is refused, one with no server.
#[derive(Clone, Copy)]
pub struct Ended {
    pub verdict: Result<(), Refusal>,
    pub channel: Channel,
}

// The verb of a number; each number from 7 on is `mend`.
pub fn verb_at(k: u64) -> Verb
    ensures { result ≡ verb_at k }
{
    if k == 0 {
        Verb::Start
    } else if k == 1 {
        Verb::Ready
    } else if k == 2 {
        Verb::Unready
    } else if k == 3 {
        Verb::Pass
    } else if k == 4 {
        Verb::Crash
    } else if k == 5 {
        Verb::Restart
    } else if k == 6 {
        Verb::Cut
    } else {
        Verb::Mend
    }
}

// The call of a number, with the slice.
fn call(channel: Channel, n: u64, out: &mut [u8]) -> Answer
    ensures { Answers channel (outcome_of (state channel) (call_of n out.old)) out.old result out.new }
{
    let kind = n % 10;
    let about = n / 10;
    if kind < 8 {
        let first = (about % 65536) as u16;
        let second = (about / 65536 % 65536) as u16;
        return channel.verb(verb_at(kind), first, second, out);
    }
    if kind == 8 {
        return channel.advance(out);
    }
    channel.advance_to((about % 4294967296) as u32, out)
}

fn lesser(m: u64, n: usize) -> usize
    ensures { result ≡ lesser m n }
{
    if m < (n as u64) { m as usize } else { n }
}

// The call of a number, lent the first m bytes.
fn lend(channel: Channel, n: u64, m: u64, out: &mut [u8]) -> Answer
    ensures { OneCall (state channel) n m out.old result out.new }
{
    let end = lesser(m, out.len());
    call(channel, n, &mut out[..end])
}

// The number of a call that wrote, or was refused.
fn number(written: Result<usize, Refusal>) -> u8
    ensures { result ≡ of_verdict (verdict_of written) }
{
    match written {
        Ok(_) => 0,
        Err(k) => k.number(),
    }
}

// All the calls, where there is room for their numbers.
fn run(channel: Channel, calls: &[u64], out: &mut [u8], numbers: &mut [u8]) -> Channel
    requires { length (calls_of (length out.old) calls.now) ≤ length numbers.old }
    ensures { ListRuns (state channel) calls.now out.old numbers.old (state result) out.new numbers.new }
{
    let mut now = channel;
    for k in 0..calls.len() / 2 {
        let answer = lend(now, calls[2 * k], calls[2 * k + 1], out);
        numbers[k] = number(answer.written);
        now = answer.channel;
    }
    now
}

fn refused(k: Refusal) -> Ended
    ensures { Unopened k result }
{
    let opened = Channel::fresh(Table::empty(), 2);
    let channel = opened.channel;
    Ended {
        verdict: Err(k),
        channel,
    }
}

// The calls that the numbers encode, two a call, on the fresh channel of the table; each call is
// lent the first bytes of `out`, and what it gets goes to `numbers`. The list itself gets 2, 6 or 7
// where no channel is opened, and 9 where `numbers` is too short; then no call is made.
pub fn run_list(
    table: Table,
    period: u32,
    calls: &[u64],
    out: &mut [u8],
    numbers: &mut [u8],
) -> Ended
    ensures { RunsList table period calls.now out.old numbers.old result out.new numbers.new }
{
    let opened = Channel::fresh(table, period);
    let verdict = opened.verdict;
    let fresh = opened.channel;
    if let Err(k) = verdict {
        return refused(k);
    }
    if calls.len() / 2 > numbers.len() {
        return refused(Refusal::Short);
    }
    let channel = run(fresh, calls, out, numbers);
    Ended {
        verdict: Ok(()),
        channel,
    }
}
