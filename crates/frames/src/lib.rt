// Frames one after another: those in which nothing happens are jumped over, and beats of a calm
// group come many at a time.
#![tactic(auto)]

ghost use Rattle.std.specs.Prelude.{◌≡◌, Bool, ◌+◌, ◌-◌, ◌<◌, ◌≤◌, leb, ltb, length, get_or, set};
ghost use Rattle.lists.specs.Choice.{choose};
ghost use Rattle.lists.specs.Lists.{map_from};
ghost use Rattle.periods.specs.Period.{beat_limit};
ghost use Rattle.server.specs.Server.{absent};
ghost use Rattle.group.specs.Advance.{lines_by, time_goes, within_goes};
ghost use Rattle.places.specs.Words.{sending_number, servers_of, Keeps, packed};
ghost use Rattle.places.specs.Roles.{is_primary};
ghost use Rattle.frame.specs.Answers.{last_frame, state_of};
ghost use Rattle.frame.specs.Steps.{Out, Loud, NotDue, Rests, AllRest};
ghost use Rattle.frames.specs.Answers.{Advances, AdvancesIn};
ghost use Rattle.frames.specs.Steps.{Before, Steps, Goes, Jumps, Moves, Fares, Stretches, MovesWithin, pulsed, Waits, AllWait, Calm, Beats};
ghost use Rattle.group.specs.Table.{most};

use group::{Links, Table};
use periods::Period;
use places::Packed;
use refusal::Refusal;
use roles::{Role, Said, Word};
use server::Server;

// ---- quiet frames

// The frame in which a timer is due, where it is after the present one; else the greatest number.
fn due(since: u32, limit: u32, frame: u32) -> u32
    ensures { NotDue since limit frame result }
{
    let at = (since as u64) + (limit as u64);
    if at <= (frame as u64) {
        return u32::MAX;
    }
    if at > (u32::MAX as u64) {
        return u32::MAX;
    }
    at as u32
}

fn earlier(a: u32, b: u32) -> u32
    ensures { result ≡ choose (leb a b) a b }
{
    if a <= b { a } else { b }
}

// No timer of the server is due after the present frame and before the answer.
fn wakes(s: Server, period: Period, frame: u32) -> u32
    ensures { Rests frame period s result }
{
    let role = s.role;
    match role {
        Role::Down => u32::MAX,
        Role::Idle => u32::MAX,
        Role::Sync => u32::MAX,
        Role::Backup => due(s.silence, period.silence_limit(), frame),
        Role::Prospect => earlier(
            due(s.beat, period.beat_limit(), frame),
            due(s.prospect, period.prospect_limit(), frame),
        ),
        Role::Primary => due(s.beat, period.beat_limit(), frame),
    }
}

// No timer of any server is due after the present frame and before the answer.
fn next_due(words: &Packed, period: Period, frame: u32) -> u32
    ensures { AllRest frame period (servers_of words.now) result }
{
    let mut first: u32 = u32::MAX;
    for i in 0..Table::SERVERS {
        let s = places::server(words, i);
        first = earlier(first, wakes(s, period, frame));
    }
    first
}

// The last frame up to the target before the first one that is due.
fn skipped(first: u32, frame: u32, target: u32) -> u32
    requires { frame < target }
    ensures { Before first frame target result }
{
    if first > target {
        target
    } else if first <= frame + 1 {
        frame
    } else {
        first - 1
    }
}

// Place i sent nothing, by its number as it stands.
fn sent_none(words: &Packed, i: usize) -> bool
    requires { i < most }
    ensures { result ≡ Bool.true → sending_number (get_or (servers_of words.now) i absent) ≡ 0 }
{
    words[places::EACH * i + places::SENDING] == 0
}

// Nobody sent.
fn nobody_sent(words: &Packed) -> bool
    ensures { result ≡ Bool.true → Loud (servers_of words.now) 0 }
{
    (0..Table::SERVERS).all(|i| sent_none(words, i))
}

// ---- many frames

// The frame reached, and the place after the lines that led there.
#[derive(Clone, Copy)]
struct Reached {
    frame: u32,
    at: usize,
}

// Over the frames in which nothing happens: to the last of them, or to the target.
fn jump(words: &Packed, period: Period, silent: bool, frame: u32, target: u32) -> u32
    requires { (frame < target) × (silent ≡ Bool.true → Loud (servers_of words.now) 0) }
    ensures { Jumps period (servers_of words.now) frame target result }
{
    if silent {
        let first = next_due(words, period, frame);
        skipped(first, frame, target)
    } else {
        frame
    }
}

// The next frame counted, unless the target is reached.
fn count_next(
    words: &mut Packed,
    whole: &Links,
    period: Period,
    frame: u32,
    target: u32,
    out: &mut [u8],
    at: usize,
) -> Reached
    ensures { Steps Bool.false (choose (ltb frame target) 1 0) (state_of frame period (servers_of words.old) whole.now) out.old at (record { servers = servers_of words.new; frame = result.frame; at = result.at }) out.new }
{
    if frame < target {
        let after = frame::count(words, whole, period, frame, out, at);
        Reached {
            frame: frame + 1,
            at: after,
        }
    } else {
        Reached { frame, at }
    }
}

// Some frames more, up to the target: those in which nothing happens are jumped over.
fn count_on(
    words: &mut Packed,
    whole: &Links,
    period: Period,
    frame: u32,
    target: u32,
    out: &mut [u8],
    at: usize,
) -> Reached
    requires { frame < target }
    ensures { Goes Bool.false (state_of frame period (servers_of words.old) whole.now) target out.old at (record { servers = servers_of words.new; frame = result.frame; at = result.at }) out.new }
{
    let silent = nobody_sent(words);
    let start = jump(words, period, silent, frame, target);
    count_next(words, whole, period, start, target, out, at)
}

// All frames up to the target, counted: the place after their lines, or one past the slice's end
// where they do not fit.
fn count_all(
    words: Packed,
    whole: &Links,
    period: Period,
    frame: u32,
    target: u32,
    out: &mut [u8],
) -> usize
    ensures { Out Bool.false out.old 0 (lines_by (target - frame) (state_of frame period (servers_of words) whole.now)) result out.new }
{
    let mut next = words;
    let mut now = frame;
    let mut at: usize = 0;
    while now < target {
        let m = count_on(&mut next, whole, period, now, target, out, at);
        now = m.frame;
        at = m.at;
    }
    at
}

// The frame reached, the place after the lines that led there, and whether the next frame's lines
// do not fit.
#[derive(Clone, Copy)]
struct Stretched {
    frame: u32,
    at: usize,
    full: bool,
}

// The next frame, if it fits.
fn play_fitting(
    words: &mut Packed,
    whole: &Links,
    period: Period,
    frame: u32,
    out: &mut [u8],
    at: usize,
) -> Stretched
    requires { frame < last_frame }
    ensures { Moves words.old words.new frame result.frame × Fares (state_of frame period (servers_of words.old) whole.now) out.old at (servers_of words.new) result out.new }
{
    let fared = frame::play(words, whole, period, frame, out, at);
    if fared.full {
        Stretched {
            frame,
            at,
            full: true,
        }
    } else {
        Stretched {
            frame: frame + 1,
            at: fared.at,
            full: false,
        }
    }
}

// ---- a calm group

// The first place with a primary, or 16.
fn first_primary(words: &Packed) -> usize
    ensures { result < most → is_primary (get_or (servers_of words.now) result absent).role ≡ Bool.true }
{
    (0..Table::SERVERS)
        .find(|&i| places::is_primary(places::server(words, i).role))
        .unwrap_or(Table::SERVERS)
}

// A timer is not due after the present frame and up to the frame `next`.
fn sleeps(since: u32, limit: u32, frame: u32, next: u64) -> bool
    ensures { result ≡ Bool.true → NotDue since limit frame (next + 1) }
{
    let at = (since as u64) + (limit as u64);
    (at <= (frame as u64)) | (next < at)
}

// A server that does nothing until a verb, or a backup that hears and whose timer sleeps.
fn waits(s: Server, link: bool, period: Period, frame: u32, next: u64) -> bool
    ensures { result ≡ Bool.true → Waits period link frame next s }
{
    let role = s.role;
    if places::is_backup(role) {
        link & sleeps(s.silence, period.silence_limit(), frame, next)
    } else {
        places::is_still(s)
    }
}

// So do all but place b, which they hear.
fn all_wait(words: &Packed, whole: &Links, period: Period, b: usize, frame: u32, next: u64) -> bool
    requires { b < most }
    ensures { result ≡ Bool.true → AllWait (servers_of words.now) whole.now period b frame next most }
{
    (0..Table::SERVERS).all(|i| {
        let s = places::server(words, i);
        let link = whole[Table::SERVERS * b + i];
        waits(s, link, period, frame, next) | (i == b)
    })
}

// The frame of the next beat.
fn next_beat(s: Server, period: Period) -> u64
    ensures { result ≡ s.beat + beat_limit period }
{
    (s.beat as u64) + (period.beat_limit() as u64)
}

// The place of the primary that beats next, where nothing else happens before; else 16.
fn calm(words: &Packed, whole: &Links, period: Period, silent: bool, frame: u32) -> usize
    requires { silent ≡ Bool.true → Loud (servers_of words.now) 0 }
    ensures { result < most → Calm period whole.now (servers_of words.now) result frame ((get_or (servers_of words.now) result absent).beat + beat_limit period) }
{
    if !silent {
        return Table::SERVERS;
    }
    let b = first_primary(words);
    if b >= Table::SERVERS {
        return Table::SERVERS;
    }
    let s = places::server(words, b);
    let next = next_beat(s, period);
    if (next <= (frame as u64)) | (period.beat_limit() < 2) {
        return Table::SERVERS;
    }
    if all_wait(words, whole, period, b, frame, next) {
        b
    } else {
        Table::SERVERS
    }
}

// The frame of the next beat, and the place after the lines of those before it.
#[derive(Clone, Copy)]
struct Pulse {
    next: u64,
    at: usize,
}

// The lines of beats before the target, as long as there is room for any line.
fn beat_on(
    identity: u16,
    period: Period,
    first: u64,
    target: u32,
    out: &mut [u8],
    at: usize,
) -> Pulse
    requires { (at ≤ length out.old) × (first < 8589934592) }
    ensures { Beats first (beat_limit period) target identity out.old at result out.new }
{
    let mut next = first;
    let mut r = at;
    while (next < (target as u64)) & (out.len() - r >= lines::LONGEST) {
        r = lines::say(out, true, r, next as u32, identity, Said::One(Word::Beat));
        next += period.beat_limit() as u64;
    }
    Pulse { next, at: r }
}

// Place i after a beat of place b in the frame `last`, which was heard in the next.
fn settle_at(words: &mut Packed, i: usize, b: usize, last: u32)
    requires { (i < most) × (last < last_frame) }
    ensures { Keeps words.old words.new × (servers_of words.new ≡ set (servers_of words.old) i (pulsed b last i (get_or (servers_of words.old) i absent))) }
{
    let s = places::server(words, i);
    let role = s.role;
    if i == b {
        words[places::EACH * i + places::BEAT] = last;
    } else if places::is_backup(role) {
        words[places::EACH * i + places::SILENCE] = last + 1;
    }
}

// All places after it.
fn settle(words: &mut Packed, b: usize, last: u32)
    requires { (last < last_frame) × (b < most) }
    ensures { Keeps words.old words.new × (servers_of words.new ≡ map_from 0 (pulsed b last) (servers_of words.old)) }
{
    for i in 0..Table::SERVERS {
        settle_at(words, i, b, last);
    }
}

// Beats of place b, one a period, as long as they fit; where there is no room for any line, the
// next frame, if it fits.
fn beat_along(
    words: &mut Packed,
    whole: &Links,
    period: Period,
    b: usize,
    frame: u32,
    start: u32,
    target: u32,
    out: &mut [u8],
    at: usize,
) -> Stretched
    requires { (at ≤ length out.old) × (((frame < target) × (start < target)) × (Jumps period (servers_of words.old) frame target start × Calm period whole.now (servers_of words.old) b frame ((get_or (servers_of words.old) b absent).beat + beat_limit period))) }
    ensures { Moves words.old words.new frame result.frame × Stretches (state_of frame period (servers_of words.old) whole.now) target out.old at (servers_of words.new) result out.new }
{
    let s = places::server(words, b);
    let first = next_beat(s, period);
    let m = beat_on(s.identity, period, first, target, out, at);
    if m.next > first {
        let last = (m.next - (period.beat_limit() as u64)) as u32;
        settle(words, b, last);
        Stretched {
            frame: last + 1,
            at: m.at,
            full: false,
        }
    } else {
        play_fitting(words, whole, period, start, out, at)
    }
}

// Some frames more, up to the target, as long as they fit.
fn stretch(
    words: &mut Packed,
    whole: &Links,
    period: Period,
    frame: u32,
    target: u32,
    out: &mut [u8],
    at: usize,
) -> Stretched
    requires { (at ≤ length out.old) × (frame < target) }
    ensures { Moves words.old words.new frame result.frame × Stretches (state_of frame period (servers_of words.old) whole.now) target out.old at (servers_of words.new) result out.new }
{
    let silent = nobody_sent(words);
    let start = jump(words, period, silent, frame, target);
    if start >= target {
        return Stretched {
            frame: start,
            at,
            full: false,
        };
    }
    let b = calm(words, whole, period, silent, frame);
    if b < Table::SERVERS {
        beat_along(words, whole, period, b, frame, start, target, out, at)
    } else {
        play_fitting(words, whole, period, start, out, at)
    }
}

// As many frames towards the target as fit.
fn play_within(
    words: &mut Packed,
    whole: &Links,
    period: Period,
    frame: u32,
    target: u32,
    out: &mut [u8],
) -> Reached
    ensures { Moves words.old words.new frame result.frame × MovesWithin (state_of frame period (servers_of words.old) whole.now) target out.old (record { servers = servers_of words.new; frame = result.frame; at = result.at }) out.new }
{
    let mut now = frame;
    let mut at: usize = 0;
    let mut full = false;
    while (now < target) & !full {
        let m = stretch(words, whole, period, now, target, out, at);
        now = m.frame;
        at = m.at;
        full = m.full;
    }
    Reached { frame: now, at }
}

// What an advance answers: where it is refused, nothing written, the same frame and the same
// numbers.
#[derive(Clone, Copy)]
pub struct Advance {
    pub written: Result<usize, Refusal>,
    pub frame: u32,
    pub words: Packed,
}

// All frames up to the target, or 9; where the target is not after the present frame, nothing
// happens. They are counted first, so that 9 comes before any byte.
pub fn run(
    words: Packed,
    whole: &Links,
    period: Period,
    frame: u32,
    target: u32,
    out: &mut [u8],
) -> Advance
    ensures { Advances (state_of frame period (servers_of words) whole.now) (time_goes (state_of frame period (servers_of words) whole.now) target) words out.old result out.new }
{
    let counted = count_all(words, whole, period, frame, target, out);
    if counted > out.len() {
        return Advance {
            written: Err(Refusal::Short),
            frame,
            words,
        };
    }
    let mut next = words;
    let played = play_within(&mut next, whole, period, frame, target, out);
    Advance {
        written: Ok(played.at),
        frame: played.frame,
        words: next,
    }
}

// What an advance in place answers: where it is refused, nothing written, the same frame and the
// same numbers.
#[derive(Clone, Copy)]
pub struct Ran {
    pub written: Result<usize, Refusal>,
    pub frame: u32,
}

// No timer that the server's role has is due after the present frame and up to the target. No
// branch hangs on the role: roles follow no pattern.
fn rests(s: Server, period: Period, frame: u32, target: u32) -> bool
    ensures { result ≡ Bool.true → Rests frame period s (target + 1) }
{
    let next = target as u64;
    let role = s.role;
    let n = roles::role_number(role);
    let silence = sleeps(s.silence, period.silence_limit(), frame, next);
    let beat = sleeps(s.beat, period.beat_limit(), frame, next);
    let prospect = sleeps(s.prospect, period.prospect_limit(), frame, next);
    ((n != 3) | silence) & (((n < 4) | beat) & ((n != 4) | prospect))
}

// Nobody sent, and no timer of anybody is due after the present frame and up to the target.
fn all_quiet(words: &Packed, period: Period, frame: u32, target: u32) -> bool
    ensures { result ≡ Bool.true → Loud (servers_of words.now) 0 × AllRest frame period (servers_of words.now) (target + 1) }
{
    (0..Table::SERVERS).all(|i| {
        let s = places::server(words, i);
        sent_none(words, i) & rests(s, period, frame, target)
    })
}

// Whether nothing happens up to the target, which is later.
fn nothing_until(words: &Packed, period: Period, frame: u32, target: u32) -> bool
    ensures { result ≡ Bool.true → (frame < target) × Jumps period (servers_of words.now) frame target target }
{
    if frame < target {
        all_quiet(words, period, frame, target)
    } else {
        false
    }
}

// As many single advances towards the target as fit, in place; 9 where there are some to make and
// not one fits.
pub fn run_within(
    words: &mut Packed,
    whole: &Links,
    period: Period,
    frame: u32,
    target: u32,
    out: &mut [u8],
) -> Ran
    ensures { AdvancesIn (state_of frame period (servers_of words.old) whole.now) (within_goes (state_of frame period (servers_of words.old) whole.now) target (length out.old)) words.old out.old result words.new out.new }
{
    if nothing_until(words, period, frame, target) {
        return Ran {
            written: Ok(0),
            frame: target,
        };
    }
    let played = play_within(words, whole, period, frame, target, out);
    if (frame < target) & (played.frame == frame) {
        return Ran {
            written: Err(Refusal::Short),
            frame,
        };
    }
    Ran {
        written: Ok(played.at),
        frame: played.frame,
    }
}
