// One frame, on servers as numbers: what they hear, their timers, and the lines of it.
#![tactic(auto)]

ghost use Rattle.std.specs.Prelude.{◌≡◌, Bool, ◌||◌, [], ◌∷◌, ◌+◌, ◌<◌, ◌≤◌, leb, eqb, length, replicate, take, get_or, set};
ghost use Rattle.lists.specs.Choice.{choose};
ghost use Rattle.lists.specs.Lists.{every, map_from};
ghost use Rattle.server.specs.Server.{absent, set_silence, cleared, pass_of, sent_by};
ghost use Rattle.roles.specs.Words.{said};
ghost use Rattle.server.specs.Timers.{aged, timed};
ghost use Rattle.lines.specs.Lines.{lines_of};
ghost use Rattle.group.specs.Frame.{timed_lines, frame_lines};
ghost use Rattle.places.specs.Words.{servers_of, Keeps, packed, role_unit, sending_end};
ghost use Rattle.frame.specs.Answers.{last_frame, state_of, ticks_in, Plays, Counts};
ghost use Rattle.frame.specs.Steps.{Out, Hears, Does, stays_under, higher_beats, heeds_only, higher_at, has_listened, JustListens, only_listens, sender_of, Ranked, Still, best_in, Near, inbox_by, Deaf, clearing, Listed, Numbers, Sends, Lists, Turns, Runs, TicksAt, TicksAll, Loud, most_bytes, HeardAlso, Hearers, clamped};
ghost use Rattle.group.specs.Table.{most};

use group::{Links, Servers, Table};
use heartbeat::Heartbeat;
use periods::Period;
use places::{Best, Packed};
use roles::{Event, Role, Said, Word};
use server::Server;
use std::array;

// The lines of an event, written or only counted.
fn say_event(out: &mut [u8], wet: bool, at: usize, frame: u32, identity: u16, event: Event) -> usize
    ensures { Out wet out.old at (lines_of frame identity (said event)) result out.new }
{
    let said = event.said();
    match said {
        Said::Nothing => at,
        Said::One(w) => lines::say(out, wet, at, frame, identity, Said::One(w)),
        Said::Two(v, w) => lines::say(out, wet, at, frame, identity, Said::Two(v, w)),
    }
}

// ---- hearing

// A server, and the place after what it said.
#[derive(Clone, Copy)]
struct Told {
    server: Server,
    at: usize,
}

fn hear_one(s: Server, frame: u32, h: Heartbeat, out: &mut [u8], wet: bool, at: usize) -> Told
    ensures { Hears frame wet s (h ∷ []) out.old at result out.new }
{
    let heard = s.hear(frame, h);
    let next = heard.server;
    let event = heard.event;
    let after = say_event(out, wet, at, frame, s.identity, event);
    Told {
        server: next,
        at: after,
    }
}

fn hear_beats(
    s: Server,
    frame: u32,
    h: Heartbeat,
    n: u8,
    out: &mut [u8],
    wet: bool,
    at: usize,
) -> Told
    ensures { Hears frame wet s (replicate n h) out.old at result out.new }
{
    let mut now = s;
    let mut r = at;
    for _ in 0..n {
        let t = hear_one(now, frame, h, out, wet, r);
        now = t.server;
        r = t.at;
    }
    Told { server: now, at: r }
}

fn hear_if(
    yes: bool,
    s: Server,
    frame: u32,
    h: Heartbeat,
    out: &mut [u8],
    wet: bool,
    at: usize,
) -> Told
    ensures { Hears frame wet s (choose yes (h ∷ []) []) out.old at result out.new }
{
    if yes {
        hear_one(s, frame, h, out, wet, at)
    } else {
        Told { server: s, at }
    }
}

fn hear_pass(s: Server, frame: u32, sender: Server, out: &mut [u8], wet: bool, at: usize) -> Told
    ensures { Hears frame wet s (choose (eqb sender.pass 0) [] (pass_of sender ∷ [])) out.old at result out.new }
{
    if sender.pass == 0 {
        Told { server: s, at }
    } else {
        hear_one(s, frame, sender.passing(), out, wet, at)
    }
}

// One sender's heartbeats, in the order sent.
fn hear_each(s: Server, frame: u32, sender: Server, out: &mut [u8], wet: bool, at: usize) -> Told
    ensures { Hears frame wet s (sent_by sender) out.old at result out.new }
{
    let a = hear_beats(s, frame, sender.plain(), sender.beats, out, wet, at);
    let b = hear_if(
        sender.reveal,
        a.server,
        frame,
        sender.revealing(),
        out,
        wet,
        a.at,
    );
    hear_pass(b.server, frame, sender, out, wet, b.at)
}

// A backup that hears plain beats only says nothing.
fn only_listens(s: Server, sender: Server) -> bool
    ensures { result ≡ only_listens s sender }
{
    let role = s.role;
    places::is_backup(role) & ((sender.beats != 0) & (!sender.reveal & (sender.pass == 0)))
}

fn run_timers(s: Server, frame: u32, period: Period, out: &mut [u8], wet: bool, at: usize) -> Told
    ensures { Does wet (timed frame period s).server (timed_lines frame s.identity (timed frame period s)) out.old at result out.new }
{
    let t = s.timers(frame, period);
    let next = t.server;
    let silent = t.silent;
    let beating = t.beating;
    let rising = t.rising;
    let a = say_event(out, wet, at, frame, s.identity, silent);
    let b = say_event(out, wet, a, frame, s.identity, beating);
    let r = say_event(out, wet, b, frame, s.identity, rising);
    Told {
        server: next,
        at: r,
    }
}

// The timers of a server of which one is due: a primary beats.
fn run_due(s: Server, frame: u32, period: Period, out: &mut [u8], wet: bool, at: usize) -> Told
    requires { ticks_in s.role frame period s ≡ Bool.true }
    ensures { Does wet (timed frame period s).server (timed_lines frame s.identity (timed frame period s)) out.old at result out.new }
{
    let role = s.role;
    if places::is_primary(role) {
        let after = lines::say(out, wet, at, frame, s.identity, Said::One(Word::Beat));
        let next = s.after(frame, Event::Beat);
        Told {
            server: next,
            at: after,
        }
    } else {
        run_timers(s, frame, period, out, wet, at)
    }
}

// ---- servers as numbers

fn ranks_of(words: &Packed) -> [u32; Table::SERVERS]
    ensures { Ranked result (servers_of words.now) }
{
    array::from_fn(|i| places::rank_number(places::server(words, i)))
}

// ---- who does nothing until a verb

// From this place on, all are still: they are left out of every loop.
fn still_from(words: &Packed) -> usize
    ensures { Still result (servers_of words.now) }
{
    for i in (0..Table::SERVERS).rev() {
        if !places::is_still(places::server(words, i)) {
            return i + 1;
        }
    }
    0
}

// ---- who is heard next

fn one_if(n: u32) -> usize
    ensures { result ≡ choose (eqb n 0) 0 1 }
{
    if n == 0 { 0 } else { 1 }
}

// The places of the first n that sent, in rising order: how many they are, and of every place what
// it sent, as one number.
fn list_senders(
    words: &Packed,
    listed: &mut [usize; Table::SERVERS],
    sendings: &mut [u32; Table::SERVERS],
    n: usize,
) -> usize
    requires { Still n (servers_of words.now) × ((length listed.old ≡ most) × (sendings.old ≡ replicate most 0)) }
    ensures { Sends (servers_of words.now) listed.new sendings.new result }
{
    let mut count: usize = 0;
    for i in 0..n {
        let sending = places::sending_number(places::server(words, i));
        sendings[i] = sending;
        listed[count] = i;
        count += one_if(sending);
    }
    count
}

// A server that sent the same: the rest of it is not looked at.
fn sender(rank: u32, sending: u32) -> Server
    requires { (rank < role_unit) × (sending < sending_end) }
    ensures { result ≡ sender_of rank sending }
{
    Server {
        identity: (rank % places::PRIORITY) as u16,
        priority: (rank / places::PRIORITY) as u8,
        role: Role::Down,
        silence: 0,
        beat: 0,
        prospect: 0,
        beats: (sending / places::BEATS) as u8,
        reveal: sending / places::REVEAL % 2 == 1,
        pass: (sending % places::REVEAL) as u16,
    }
}

fn one_for(is: bool) -> usize
    ensures { result ≡ choose is 1 0 }
{
    if is { 1 } else { 0 }
}

// The places of the first `count` listed that place j hears, in their order: how many they are.
fn list_heard(
    listed: &[usize; Table::SERVERS],
    whole: &Links,
    near: &mut [usize; Table::SERVERS],
    count: usize,
    j: usize,
) -> usize
    requires { (j < most) × (Listed listed.now count × (length near.old ≡ most)) }
    ensures { Near whole.now j (take count listed.now) near.new result }
{
    let mut m: usize = 0;
    for &i in &listed[..count] {
        near[m] = i;
        m += one_for(places::hears(whole, i, j));
    }
    m
}

// The next of the first m places near after the place last, or 16.
fn next_sender(
    near: &[usize; Table::SERVERS],
    ranks: &[u32; Table::SERVERS],
    m: usize,
    last: usize,
) -> usize
    requires { Listed near.now m }
    ensures { result ≡ best_in ranks.now last most (take m near.now) }
{
    let under = places::rank_under(ranks, last);
    let mut best = Best::none();
    for &i in &near[..m] {
        best = best.or(under, ranks[i], i);
    }
    best.place
}

// A prospect that has sent in this frame stays as it is, whatever it hears of a sender of this
// rank, and of those below it.
fn stays(s: Server, rank: u32) -> bool
    ensures { (result ≡ stays_under s rank) × (s.identity < 65536) }
{
    let role = s.role;
    places::is_prospect(role) & (s.sent_any() & (rank <= places::rank_number(s)))
}

// A sender of this rank is over that of its hearer, sent something, and passed to nobody.
fn higher_beats(own: u32, rank: u32, sending: u32) -> bool
    ensures { result ≡ higher_beats own rank sending }
{
    (rank > own) & ((sending != 0) & (sending % places::REVEAL == 0))
}

// A backup only listens to such a sender.
fn heeds(s: Server, rank: u32, sending: u32) -> bool
    ensures { (result ≡ heeds_only s rank sending) × (s.identity < 65536) }
{
    let role = s.role;
    places::is_backup(role) & higher_beats(places::rank_number(s), rank, sending)
}

// Whether the first m places near are all such senders, for a hearer of this rank.
fn only_higher(
    near: &[usize; Table::SERVERS],
    ranks: &[u32; Table::SERVERS],
    sendings: &[u32; Table::SERVERS],
    m: usize,
    own: u32,
) -> bool
    requires { Listed near.now m }
    ensures { result ≡ every (higher_at ranks.now sendings.now own) (take m near.now) }
{
    near[..m]
        .iter()
        .all(|&i| higher_beats(own, ranks[i], sendings[i]))
}

// A backup of this rank that has heard in this frame, where all that it hears are such senders.
fn has_listened(s: Server, frame: u32, own: u32, only: bool) -> bool
    ensures { result ≡ has_listened s frame own only }
{
    let role = s.role;
    only & (places::is_backup(role) & ((s.silence == frame) & (places::rank_number(s) == own)))
}

// Whether nothing that is left to hear, from a sender of this rank on, changes the server.
fn heard_enough(s: Server, rank: u32, frame: u32, own: u32, only: bool) -> bool
    ensures { (result ≡ (stays_under s rank || has_listened s frame own only)) × (s.identity < 65536) }
{
    stays(s, rank) | has_listened(s, frame, own, only)
}

fn attend(s: Server, frame: u32) -> Server
    ensures { result ≡ set_silence frame s }
{
    let mut next = s;
    next.silence = frame;
    next
}

// All that the sender of such numbers sent.
fn hear_from(
    s: Server,
    frame: u32,
    rank: u32,
    sending: u32,
    out: &mut [u8],
    wet: bool,
    at: usize,
) -> Told
    requires { (rank < role_unit) × (sending < sending_end) }
    ensures { Hears frame wet s (sent_by (sender_of rank sending)) out.old at result out.new }
{
    if heeds(s, rank, sending) {
        let next = attend(s, frame);
        Told { server: next, at }
    } else {
        let from = sender(rank, sending);
        hear_each(s, frame, from, out, wet, at)
    }
}

// What place j hears, from the highest sender to the lowest.
fn hear_several(
    listed: &[usize; Table::SERVERS],
    ranks: &[u32; Table::SERVERS],
    sendings: &[u32; Table::SERVERS],
    whole: &Links,
    count: usize,
    frame: u32,
    j: usize,
    s: Server,
    out: &mut [u8],
    wet: bool,
    at: usize,
) -> Told
    requires { (j < most) × Numbers (record { places = listed.now; ranks = ranks.now; sendings = sendings.now; count = count }) }
    ensures { Hears frame wet s (inbox_by (record { places = listed.now; ranks = ranks.now; sendings = sendings.now; count = count }) whole.now j) out.old at result out.new }
{
    let mut near: [usize; Table::SERVERS] = [0; Table::SERVERS];
    let m = list_heard(listed, whole, &mut near, count, j);
    let own = places::rank_number(s);
    let only = only_higher(&near, ranks, sendings, m, own);
    let mut now = s;
    let mut r = at;
    let mut last: usize = Table::SERVERS;
    for _ in 0..Table::SERVERS {
        let i = next_sender(&near, ranks, m, last);
        if i >= Table::SERVERS {
            return Told { server: now, at: r };
        }
        if heard_enough(now, ranks[i], frame, own, only) {
            return Told { server: now, at: r };
        }
        let t = hear_from(now, frame, ranks[i], sendings[i], out, wet, r);
        now = t.server;
        r = t.at;
        last = i;
    }
    Told { server: now, at: r }
}

// Whether a timer set in `since` has the age.
fn aged(since: u32, age: u32, frame: u32) -> bool
    ensures { result ≡ aged since age frame }
{
    (since as u64) + (age as u64) == (frame as u64)
}

// Whether some timer of the server is due.
pub fn ticks(s: Server, period: Period, frame: u32) -> bool
    ensures { result ≡ ticks_in s.role frame period s }
{
    let role = s.role;
    match role {
        Role::Down => false,
        Role::Idle => false,
        Role::Sync => false,
        Role::Backup => aged(s.silence, period.silence_limit(), frame),
        Role::Prospect => {
            aged(s.beat, period.beat_limit(), frame)
                | aged(s.prospect, period.prospect_limit(), frame)
        }
        Role::Primary => aged(s.beat, period.beat_limit(), frame),
    }
}

// The timers of the frame.
fn tick(s: Server, frame: u32, period: Period, out: &mut [u8], wet: bool, at: usize) -> Told
    ensures { Does wet (timed frame period s).server (timed_lines frame s.identity (timed frame period s)) out.old at result out.new }
{
    if ticks(s, period, frame) {
        run_timers(s, frame, period, out, wet, at)
    } else {
        Told { server: s, at }
    }
}

// The server of place j in the frame: hearing, then timers.
fn turn(
    listed: &[usize; Table::SERVERS],
    ranks: &[u32; Table::SERVERS],
    sendings: &[u32; Table::SERVERS],
    whole: &Links,
    count: usize,
    frame: u32,
    period: Period,
    j: usize,
    s: Server,
    out: &mut [u8],
    wet: bool,
    at: usize,
) -> Told
    requires { (j < most) × Numbers (record { places = listed.now; ranks = ranks.now; sendings = sendings.now; count = count }) }
    ensures { Turns (inbox_by (record { places = listed.now; ranks = ranks.now; sendings = sendings.now; count = count }) whole.now j) frame period wet s out.old at result out.new }
{
    let heard = hear_several(
        listed,
        ranks,
        sendings,
        whole,
        count,
        frame,
        j,
        s.cleared(),
        out,
        wet,
        at,
    );
    tick(heard.server, frame, period, out, wet, heard.at)
}

// Place j is a backup that hears plain beats of one sender, and no timer of it is due then.
fn just_listens(
    listed: &[usize; Table::SERVERS],
    ranks: &[u32; Table::SERVERS],
    sendings: &[u32; Table::SERVERS],
    whole: &Links,
    count: usize,
    frame: u32,
    period: Period,
    j: usize,
    s: Server,
) -> bool
    requires { (j < most) × Numbers (record { places = listed.now; ranks = ranks.now; sendings = sendings.now; count = count }) }
    ensures { result ≡ Bool.true → JustListens (inbox_by (record { places = listed.now; ranks = ranks.now; sendings = sendings.now; count = count }) whole.now j) frame period s }
{
    if count == 1 {
        let i = listed[0];
        let from = sender(ranks[i], sendings[i]);
        places::hears(whole, i, j)
            & (only_listens(s, from) & !aged(frame, period.silence_limit(), frame))
    } else {
        false
    }
}

// Who hears place i, beside those who hear another.
fn hear_also(heard: [bool; Table::SERVERS], whole: &Links, i: usize) -> [bool; Table::SERVERS]
    requires { i < most }
    ensures { HeardAlso heard whole.now i result }
{
    array::from_fn(|j| heard[j] | places::hears(whole, i, j))
}

// Which places hear somebody.
fn hearers(listed: &[usize; Table::SERVERS], whole: &Links, count: usize) -> [bool; Table::SERVERS]
    requires { Listed listed.now count }
    ensures { Hearers listed.now whole.now count result }
{
    let mut heard = [false; Table::SERVERS];
    for &i in &listed[..count] {
        let more = hear_also(heard, whole, i);
        heard = more;
    }
    heard
}

// The turn of a server of place j that hears somebody or has a timer due.
fn act(
    listed: &[usize; Table::SERVERS],
    ranks: &[u32; Table::SERVERS],
    sendings: &[u32; Table::SERVERS],
    whole: &Links,
    count: usize,
    frame: u32,
    period: Period,
    j: usize,
    s: Server,
    out: &mut [u8],
    wet: bool,
    at: usize,
) -> Told
    requires { (j < most) × Numbers (record { places = listed.now; ranks = ranks.now; sendings = sendings.now; count = count }) }
    ensures { Turns (inbox_by (record { places = listed.now; ranks = ranks.now; sendings = sendings.now; count = count }) whole.now j) frame period wet s out.old at result out.new }
{
    if just_listens(listed, ranks, sendings, whole, count, frame, period, j, s) {
        let next = attend(s.cleared(), frame);
        Told { server: next, at }
    } else {
        turn(
            listed, ranks, sendings, whole, count, frame, period, j, s, out, wet, at,
        )
    }
}

// The turn of any server of place j; where nothing happens to it, what it sent is cleared.
fn turn_of(
    listed: &[usize; Table::SERVERS],
    ranks: &[u32; Table::SERVERS],
    sendings: &[u32; Table::SERVERS],
    whole: &Links,
    heard: &[bool; Table::SERVERS],
    count: usize,
    frame: u32,
    period: Period,
    j: usize,
    s: Server,
    out: &mut [u8],
    wet: bool,
    at: usize,
) -> Told
    requires { Hearers listed.now whole.now count heard.now × ((j < most) × Numbers (record { places = listed.now; ranks = ranks.now; sendings = sendings.now; count = count })) }
    ensures { Turns (inbox_by (record { places = listed.now; ranks = ranks.now; sendings = sendings.now; count = count }) whole.now j) frame period wet s out.old at result out.new }
{
    let role = s.role;
    if (heard[j] & places::is_active(role)) | ticks(s, period, frame) {
        act(
            listed, ranks, sendings, whole, count, frame, period, j, s, out, wet, at,
        )
    } else {
        let next = s.cleared();
        Told { server: next, at }
    }
}

// The servers after a frame, and the place after what they said.
#[derive(Clone, Copy)]
struct AfterFrame {
    servers: Servers,
    at: usize,
}

// The heart of the frame: all servers, each after its turn. Those from place n on are still.
fn turned(
    servers: Servers,
    listed: &[usize; Table::SERVERS],
    ranks: &[u32; Table::SERVERS],
    sendings: &[u32; Table::SERVERS],
    whole: &Links,
    heard: &[bool; Table::SERVERS],
    count: usize,
    period: Period,
    n: usize,
    before: u32,
    out: &mut [u8],
    wet: bool,
    at: usize,
) -> AfterFrame
    requires { (before < last_frame) × (Still n servers × (Hearers listed.now whole.now count heard.now × Lists servers (record { places = listed.now; ranks = ranks.now; sendings = sendings.now; count = count }))) }
    ensures { Runs wet (state_of before period servers whole.now) out.old at (record { servers = result.servers; at = result.at }) out.new }
{
    let frame = before + 1;
    let mut next = servers;
    let mut r = at;
    for (j, &s) in servers[..n].iter().enumerate() {
        let t = turn_of(
            listed, ranks, sendings, whole, heard, count, frame, period, j, s, out, wet, r,
        );
        next[j] = t.server;
        r = t.at;
    }
    AfterFrame {
        servers: next,
        at: r,
    }
}

// The same of servers as numbers.
fn turn_all(
    words: &mut Packed,
    listed: &[usize; Table::SERVERS],
    ranks: &[u32; Table::SERVERS],
    sendings: &[u32; Table::SERVERS],
    whole: &Links,
    heard: &[bool; Table::SERVERS],
    count: usize,
    period: Period,
    n: usize,
    before: u32,
    out: &mut [u8],
    wet: bool,
    at: usize,
) -> usize
    requires { (before < last_frame) × (Still n (servers_of words.old) × (Hearers listed.now whole.now count heard.now × Lists (servers_of words.old) (record { places = listed.now; ranks = ranks.now; sendings = sendings.now; count = count }))) }
    ensures { Keeps words.old words.new × Runs wet (state_of before period (servers_of words.old) whole.now) out.old at (record { servers = servers_of words.new; at = result }) out.new }
{
    let servers = places::servers_of(words);
    let t = turned(
        servers, listed, ranks, sendings, whole, heard, count, period, n, before, out, wet, at,
    );
    let after = t.servers;
    *words = places::words_of(after);
    t.at
}

// The timers of the server at place j, if one is due.
fn tick_at(
    words: &mut Packed,
    j: usize,
    period: Period,
    frame: u32,
    out: &mut [u8],
    wet: bool,
    at: usize,
) -> usize
    requires { j < most }
    ensures { Keeps words.old words.new × TicksAt wet frame period (servers_of words.old) j out.old at (record { servers = servers_of words.new; at = result }) out.new }
{
    let s = places::server(words, j);
    if ticks(s, period, frame) {
        let t = run_due(s, frame, period, out, wet, at);
        places::put(words, j, t.server);
        t.at
    } else {
        at
    }
}

// The first n servers in a frame in which nothing is heard.
fn tick_all(
    words: &mut Packed,
    period: Period,
    n: usize,
    before: u32,
    out: &mut [u8],
    wet: bool,
    at: usize,
) -> usize
    requires { (before < last_frame) × Still n (servers_of words.old) }
    ensures { Keeps words.old words.new × TicksAll wet (before + 1) period (servers_of words.old) out.old at (record { servers = servers_of words.new; at = result }) out.new }
{
    let frame = before + 1;
    let mut r = at;
    for j in 0..n {
        r = tick_at(words, j, period, frame, out, wet, r);
    }
    r
}

// Whether nobody hears anybody.
fn nobody_hears(heard: &[bool; Table::SERVERS]) -> bool
    ensures { result ≡ Bool.true → Deaf heard.now most }
{
    heard.iter().all(|&hears| !hears)
}

// Nothing sent at place j.
fn clear_at(words: &mut Packed, j: usize)
    requires { j < most }
    ensures { Keeps words.old words.new × (servers_of words.new ≡ set (servers_of words.old) j (cleared (get_or (servers_of words.old) j absent))) }
{
    words[places::EACH * j + places::SENDING] = 0;
}

// Nothing sent at any place; those from n on sent nothing.
fn clear_all(words: &mut Packed, n: usize)
    requires { Still n (servers_of words.old) }
    ensures { Keeps words.old words.new × (servers_of words.new ≡ map_from 0 clearing (servers_of words.old)) }
{
    for j in 0..n {
        clear_at(words, j);
    }
}

// The first n servers in a frame in which nobody hears what was sent.
fn unheard_frame(
    words: &mut Packed,
    period: Period,
    n: usize,
    before: u32,
    out: &mut [u8],
    wet: bool,
    at: usize,
) -> usize
    requires { (before < last_frame) × Still n (servers_of words.old) }
    ensures { Keeps words.old words.new × TicksAll wet (before + 1) period (map_from 0 clearing (servers_of words.old)) out.old at (record { servers = servers_of words.new; at = result }) out.new }
{
    clear_all(words, n);
    tick_all(words, period, n, before, out, wet, at)
}

fn greater(a: u32, b: u32) -> u32
    ensures { (a ≤ result) × (b ≤ result) }
{
    if a <= b { b } else { a }
}

// No server sent a greater number; so nobody sent where it is 0.
fn loudest(words: &Packed, n: usize) -> u32
    requires { Still n (servers_of words.now) }
    ensures { Loud (servers_of words.now) result }
{
    let mut most: u32 = 0;
    for i in 0..n {
        let sending = places::sending_number(places::server(words, i));
        most = greater(most, sending);
    }
    most
}

// One frame after one in which somebody sent.
fn heard_frame(
    words: &mut Packed,
    whole: &Links,
    period: Period,
    n: usize,
    before: u32,
    out: &mut [u8],
    wet: bool,
    at: usize,
) -> usize
    requires { (before < last_frame) × Still n (servers_of words.old) }
    ensures { Keeps words.old words.new × Runs wet (state_of before period (servers_of words.old) whole.now) out.old at (record { servers = servers_of words.new; at = result }) out.new }
{
    let mut listed: [usize; Table::SERVERS] = [0; Table::SERVERS];
    let mut sendings: [u32; Table::SERVERS] = [0; Table::SERVERS];
    let count = list_senders(words, &mut listed, &mut sendings, n);
    let ranks = ranks_of(words);
    let heard = hearers(&listed, whole, count);
    if nobody_hears(&heard) {
        return unheard_frame(words, period, n, before, out, wet, at);
    }
    turn_all(
        words, &listed, &ranks, &sendings, whole, &heard, count, period, n, before, out, wet, at,
    )
}

// One frame.
fn play_frame(
    words: &mut Packed,
    whole: &Links,
    period: Period,
    n: usize,
    loud: u32,
    before: u32,
    out: &mut [u8],
    wet: bool,
    at: usize,
) -> usize
    requires { (before < last_frame) × (Still n (servers_of words.old) × Loud (servers_of words.old) loud) }
    ensures { Keeps words.old words.new × Runs wet (state_of before period (servers_of words.old) whole.now) out.old at (record { servers = servers_of words.new; at = result }) out.new }
{
    if loud == 0 {
        tick_all(words, period, n, before, out, wet, at)
    } else {
        heard_frame(words, whole, period, n, before, out, wet, at)
    }
}

// ---- as many frames as fit

// No frame writes more bytes: two lines for each heartbeat heard and for each of three timers, 16
// senders of so many plain beats, a reveal and a pass, 16 servers.
fn most_bytes(loud: u32) -> usize
    ensures { result ≡ most_bytes loud }
{
    let beats = (loud / places::BEATS) as usize;
    Table::SERVERS * (2 * lines::LONGEST * (Table::SERVERS * (beats + 2)) + 6 * lines::LONGEST)
}

// The place after the next frame's lines, which are not written.
fn count_frame(
    words: &Packed,
    whole: &Links,
    period: Period,
    n: usize,
    loud: u32,
    before: u32,
    out: &mut [u8],
    at: usize,
) -> usize
    requires { (before < last_frame) × (Still n (servers_of words.now) × Loud (servers_of words.now) loud) }
    ensures { Out Bool.false out.old at (frame_lines (state_of before period (servers_of words.now) whole.now)) result out.new }
{
    let mut copy = *words;
    play_frame(&mut copy, whole, period, n, loud, before, out, false, at)
}

// Whether the next frame's lines fit. They are counted only where that is not clear.
fn frame_fits(
    words: &Packed,
    whole: &Links,
    period: Period,
    n: usize,
    loud: u32,
    before: u32,
    out: &mut [u8],
    at: usize,
) -> bool
    requires { (at ≤ length out.old) × ((before < last_frame) × (Still n (servers_of words.now) × Loud (servers_of words.now) loud)) }
    ensures { (result ≡ leb (at + length (frame_lines (state_of before period (servers_of words.now) whole.now))) (length out.old)) × (out.new ≡ out.old) }
{
    if most_bytes(loud) <= out.len() - at {
        return true;
    }
    let after = count_frame(words, whole, period, n, loud, before, out, at);
    after <= out.len()
}

// What came of a frame: the place after its lines; or that they do not fit or there is no next
// frame, and nothing happened.
#[derive(Clone, Copy)]
pub struct Fared {
    pub at: usize,
    pub full: bool,
}

// The next frame, if it fits.
fn play_fitting(
    words: &mut Packed,
    whole: &Links,
    period: Period,
    n: usize,
    loud: u32,
    frame: u32,
    out: &mut [u8],
    at: usize,
) -> Fared
    requires { (at ≤ length out.old) × ((frame < last_frame) × (Still n (servers_of words.old) × Loud (servers_of words.old) loud)) }
    ensures { Plays (state_of frame period (servers_of words.old) whole.now) words.old out.old at result words.new out.new }
{
    if frame_fits(words, whole, period, n, loud, frame, out, at) {
        let after = play_frame(words, whole, period, n, loud, frame, out, true, at);
        Fared {
            at: after,
            full: false,
        }
    } else {
        Fared { at, full: true }
    }
}

// The next frame in place, if there is one and its lines fit from the place `at` on; otherwise
// nothing.
pub fn play(
    words: &mut Packed,
    whole: &Links,
    period: Period,
    frame: u32,
    out: &mut [u8],
    at: usize,
) -> Fared
    ensures { Plays (state_of frame period (servers_of words.old) whole.now) words.old out.old at result words.new out.new }
{
    if frame >= u32::MAX {
        return Fared { at, full: true };
    }
    if at > out.len() {
        return Fared { at, full: true };
    }
    let n = still_from(words);
    let loud = loudest(words, n);
    play_fitting(words, whole, period, n, loud, frame, out, at)
}

// A place in a slice so long, or one past its end.
fn clamp(room: usize, at: usize) -> usize
    ensures { result ≡ clamped room at }
{
    if at <= room { at } else { room + 1 }
}

// The next frame in place, its lines only counted: the servers move on, no byte is changed. The
// place after the lines, or one past the slice's end where they do not fit; where there is no next
// frame, nothing.
pub fn count(
    words: &mut Packed,
    whole: &Links,
    period: Period,
    frame: u32,
    out: &mut [u8],
    at: usize,
) -> usize
    ensures { Counts (state_of frame period (servers_of words.old) whole.now) words.old out.old at result words.new out.new }
{
    if frame >= u32::MAX {
        return at;
    }
    let n = still_from(words);
    let loud = loudest(words, n);
    let start = clamp(out.len(), at);
    play_frame(words, whole, period, n, loud, frame, out, false, start)
}
