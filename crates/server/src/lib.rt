// One server: what it hears, what its timers do, what verbs make of it, what it sends.
#![tactic(auto)]

ghost use Rattle.std.specs.Prelude.{◌≡◌};
ghost use Rattle.lists.specs.Choice.{choose};
ghost use Rattle.roles.specs.Verbs.{enters};
ghost use Rattle.server.specs.Server.{absent, idle, Makes, rank_of, in_role, one_more, send_beat, beat_now, to_prospect, cleared, plain_of, reveal_of, pass_of, sent_any, after};
ghost use Rattle.server.specs.Hearing.{from_higher, from_lower, for_this, lower_reveals, backup_hears, replies, prospect_hears, primary_hears, hears, attending, heard};
ghost use Rattle.server.specs.Timers.{silent, beating, rising, timed};
ghost use Rattle.server.specs.Verbs.{verb_answer, refusing, Acts};

use heartbeat::{Heartbeat, Rank};
use periods::Period;
use refusal::Refusal;
use roles::{Event, Role, Verb};

// A timer is the frame it was set in. The last three fields are what was sent in this frame: plain
// beats, a reveal, a pass (0: none). A place with no server has identity 0 and is down.
#[derive(Clone, Copy)]
pub struct Server {
    pub identity: u16,
    pub priority: u8,
    pub role: Role,
    pub silence: u32,
    pub beat: u32,
    pub prospect: u32,
    pub beats: u8,
    pub reveal: bool,
    pub pass: u16,
}

// A new server, or an empty place.
#[derive(Clone, Copy)]
pub struct Made {
    pub verdict: Result<(), Refusal>,
    pub server: Server,
}

// A server after a heartbeat, and what happened.
#[derive(Clone, Copy)]
pub struct Heard {
    pub server: Server,
    pub event: Event,
}

// A server after the timers of a frame, and what each did, in their order.
#[derive(Clone, Copy)]
pub struct Timed {
    pub server: Server,
    pub silent: Event,
    pub beating: Event,
    pub rising: Event,
}

// A server after a verb, and what happened; where the verb is refused, the same server and nothing.
#[derive(Clone, Copy)]
pub struct Acted {
    pub verdict: Result<(), Refusal>,
    pub server: Server,
    pub event: Event,
}

// ---- what an event makes of a server

// One more, up to the most that a server sends in a frame.
fn one_more(n: u8) -> u8
    ensures { result ≡ one_more n }
{
    if n < Server::BEATS {
        n + 1
    } else {
        Server::BEATS
    }
}

impl Server {
    // The most plain beats that are counted in a frame.
    pub const BEATS: u8 = 15;

    // A place with no server.
    pub fn absent() -> Server
        ensures { result ≡ absent }
    {
        Server {
            identity: 0,
            priority: 0,
            role: Role::Down,
            silence: 0,
            beat: 0,
            prospect: 0,
            beats: 0,
            reveal: false,
            pass: 0,
        }
    }

    // A server of a fresh channel; 2, and an empty place, for identity 0.
    pub fn new(identity: u16, priority: u8) -> Made
        ensures { Makes identity priority result }
    {
        if identity == 0 {
            let server = Server::absent();
            Made {
                verdict: Err(Refusal::Number),
                server,
            }
        } else {
            let server = Server::idle(identity, priority);
            Made {
                verdict: Ok(()),
                server,
            }
        }
    }

    fn idle(identity: u16, priority: u8) -> Server
        ensures { result ≡ idle identity priority }
    {
        Server {
            identity,
            priority,
            role: Role::Idle,
            silence: 0,
            beat: 0,
            prospect: 0,
            beats: 0,
            reveal: false,
            pass: 0,
        }
    }

    fn in_role(self, role: Role) -> Server
        ensures { result ≡ in_role role self }
    {
        Server {
            identity: self.identity,
            priority: self.priority,
            role,
            silence: self.silence,
            beat: self.beat,
            prospect: self.prospect,
            beats: self.beats,
            reveal: self.reveal,
            pass: self.pass,
        }
    }

    fn to_prospect(self, frame: u32) -> Server
        ensures { result ≡ to_prospect frame self }
    {
        let mut next = self.in_role(Role::Prospect);
        next.beat = frame;
        next.prospect = frame;
        next
    }

    fn send_beat(mut self) -> Server
        ensures { result ≡ send_beat self }
    {
        self.beats = one_more(self.beats);
        self
    }

    // A plain beat, beat age 0.
    fn beat_now(self, frame: u32) -> Server
        ensures { result ≡ beat_now frame self }
    {
        let mut next = self;
        next.beat = frame;
        next.send_beat()
    }

    // After an event of a frame.
    pub fn after(self, frame: u32, event: Event) -> Server
        ensures { result ≡ after frame self event }
    {
        match event {
            Event::Nothing => self,
            Event::ToBackup => {
                let mut next = self.in_role(Role::Backup);
                next.silence = frame;
                next
            }
            Event::ToProspectBeat => self.to_prospect(frame).send_beat(),
            Event::ToProspectReveal => {
                let mut next = self.to_prospect(frame);
                next.reveal = true;
                next
            }
            Event::Lower => self,
            Event::LowerBeat => self.beat_now(frame),
            Event::Beat => self.beat_now(frame),
            Event::ToPrimary => self.in_role(Role::Primary),
            Event::ToSync => self.in_role(Role::Sync),
            Event::ToIdle => self.in_role(Role::Idle),
            Event::ToDown => self.in_role(Role::Down),
            Event::Passed(to) => {
                let mut next = self.in_role(Role::Backup);
                next.silence = frame;
                next.pass = to;
                next
            }
        }
    }

    // ---- what it sends

    pub fn rank(self) -> Rank
        ensures { result ≡ rank_of self }
    {
        Rank {
            priority: self.priority,
            identity: self.identity,
        }
    }

    // Nothing sent yet in the new frame.
    pub fn cleared(mut self) -> Server
        ensures { result ≡ cleared self }
    {
        self.beats = 0;
        self.reveal = false;
        self.pass = 0;
        self
    }

    pub fn sent_any(self) -> bool
        ensures { result ≡ sent_any self }
    {
        if self.beats == 0 {
            if self.reveal { true } else { self.pass != 0 }
        } else {
            true
        }
    }

    // Its plain beat, its reveal, and its pass.
    pub fn plain(self) -> Heartbeat
        ensures { result ≡ plain_of self }
    {
        Heartbeat {
            bs: 0,
            priority: self.priority,
            tiebreaker: self.identity,
            reveal: 0,
        }
    }

    pub fn revealing(self) -> Heartbeat
        ensures { result ≡ reveal_of self }
    {
        Heartbeat {
            bs: 0,
            priority: self.priority,
            tiebreaker: self.identity,
            reveal: 1,
        }
    }

    pub fn passing(self) -> Heartbeat
        ensures { result ≡ pass_of self }
    {
        Heartbeat {
            bs: self.pass,
            priority: self.priority,
            tiebreaker: self.identity,
            reveal: 0,
        }
    }

    // ---- hearing

    fn from_higher(self, h: Heartbeat) -> bool
        ensures { result ≡ from_higher self h }
    {
        let sender = h.sender();
        let hearer = self.rank();
        sender.higher(hearer)
    }

    fn from_lower(self, h: Heartbeat) -> bool
        ensures { result ≡ from_lower self h }
    {
        let sender = h.sender();
        let hearer = self.rank();
        hearer.higher(sender)
    }

    fn for_this(self, h: Heartbeat) -> bool
        ensures { result ≡ for_this self h }
    {
        (h.bs != 0) & (h.bs == self.identity)
    }

    // A reveal from a lower sender.
    fn lower_reveals(self, h: Heartbeat) -> bool
        ensures { result ≡ lower_reveals self h }
    {
        h.reveals() & self.from_lower(h)
    }

    fn backup_hears(self, h: Heartbeat) -> Event
        ensures { result ≡ backup_hears self h }
    {
        if self.for_this(h) {
            Event::ToProspectBeat
        } else if self.lower_reveals(h) {
            Event::ToProspectReveal
        } else {
            Event::Nothing
        }
    }

    // Whether a prospect or primary replies: one that has not sent in this frame yet.
    fn replies(self, h: Heartbeat) -> bool
        ensures { result ≡ replies self h }
    {
        self.lower_reveals(h) & !self.sent_any()
    }

    fn prospect_hears(self, h: Heartbeat) -> Event
        ensures { result ≡ prospect_hears self h }
    {
        if self.from_higher(h) {
            Event::ToBackup
        } else if self.replies(h) {
            Event::Beat
        } else {
            Event::Nothing
        }
    }

    fn primary_hears(self, h: Heartbeat) -> Event
        ensures { result ≡ primary_hears self h }
    {
        if self.from_higher(h) {
            Event::ToBackup
        } else if self.replies(h) {
            Event::LowerBeat
        } else if self.from_lower(h) {
            Event::Lower
        } else {
            Event::Nothing
        }
    }

    fn hears(self, h: Heartbeat) -> Event
        ensures { result ≡ hears self h }
    {
        let role = self.role;
        match role {
            Role::Down => Event::Nothing,
            Role::Idle => Event::Nothing,
            Role::Sync => Event::Nothing,
            Role::Backup => self.backup_hears(h),
            Role::Prospect => self.prospect_hears(h),
            Role::Primary => self.primary_hears(h),
        }
    }

    // A backup that hears sets its silence timer.
    fn attending(self, frame: u32) -> Server
        ensures { result ≡ attending frame self.role self }
    {
        let role = self.role;
        match role {
            Role::Down => self,
            Role::Idle => self,
            Role::Sync => self,
            Role::Backup => {
                let mut backup = self;
                backup.silence = frame;
                backup
            }
            Role::Prospect => self,
            Role::Primary => self,
        }
    }

    // One heartbeat, heard in a frame.
    pub fn hear(self, frame: u32, h: Heartbeat) -> Heard
        ensures { result ≡ heard frame self h }
    {
        let event = self.hears(h);
        let server = self.attending(frame).after(frame, event);
        Heard { server, event }
    }

    // ---- timers

    fn silent(self, frame: u32, period: Period) -> Event
        ensures { result ≡ silent frame period self }
    {
        let due = (self.silence as u64) + (period.silence_limit() as u64) == (frame as u64);
        let role = self.role;
        match role {
            Role::Down => Event::Nothing,
            Role::Idle => Event::Nothing,
            Role::Sync => Event::Nothing,
            Role::Backup => when(due, Event::ToProspectReveal),
            Role::Prospect => Event::Nothing,
            Role::Primary => Event::Nothing,
        }
    }

    fn beating(self, frame: u32, period: Period) -> Event
        ensures { result ≡ beating frame period self }
    {
        let due = (self.beat as u64) + (period.beat_limit() as u64) == (frame as u64);
        let role = self.role;
        match role {
            Role::Down => Event::Nothing,
            Role::Idle => Event::Nothing,
            Role::Sync => Event::Nothing,
            Role::Backup => Event::Nothing,
            Role::Prospect => when(due, Event::Beat),
            Role::Primary => when(due, Event::Beat),
        }
    }

    fn rising(self, frame: u32, period: Period) -> Event
        ensures { result ≡ rising frame period self }
    {
        let due = (self.prospect as u64) + (period.prospect_limit() as u64) == (frame as u64);
        let role = self.role;
        match role {
            Role::Down => Event::Nothing,
            Role::Idle => Event::Nothing,
            Role::Sync => Event::Nothing,
            Role::Backup => Event::Nothing,
            Role::Prospect => when(due, Event::ToPrimary),
            Role::Primary => Event::Nothing,
        }
    }

    // The timers of a frame, after all hearing in it.
    pub fn timers(self, frame: u32, period: Period) -> Timed
        ensures { result ≡ timed frame period self }
    {
        let silent = self.silent(frame, period);
        let a = self.after(frame, silent);
        let beating = a.beating(frame, period);
        let b = a.after(frame, beating);
        let rising = b.rising(frame, period);
        let server = b.after(frame, rising);
        Timed {
            server,
            silent,
            beating,
            rising,
        }
    }
}

fn when(due: bool, event: Event) -> Event
    ensures { result ≡ choose due event Event.Nothing }
{
    if due { event } else { Event::Nothing }
}

// ---- verbs

impl Server {
    fn refused(self, k: Refusal) -> Acted
        ensures { result ≡ refusing self k }
    {
        Acted {
            verdict: Err(k),
            server: self,
            event: Event::Nothing,
        }
    }

    // What the role allows.
    fn enter(self, verb: Verb, frame: u32, to: u16) -> Acted
        ensures { Acts verb frame to self (enters verb self.role) result }
    {
        let role = self.role;
        match roles::by_table(verb, role) {
            Ok(k) => {
                let event = roles::verb_event(verb, to, k);
                Acted {
                    verdict: Ok(()),
                    server: self.after(frame, event),
                    event,
                }
            }
            Err(k) => self.refused(k),
        }
    }

    // A verb in a frame; `to` is the second identity, where the verb has one.
    pub fn act(self, verb: Verb, frame: u32, to: u16) -> Acted
        ensures { Acts verb frame to self (verb_answer verb to self) result }
    {
        let pair = roles::paired(verb);
        if (self.identity == 0) | (pair & (to == 0)) {
            return self.refused(Refusal::Number);
        }
        if pair & (to == self.identity) {
            return self.refused(Refusal::Identity);
        }
        self.enter(verb, frame, to)
    }

    pub fn start(self) -> Acted
        ensures { Acts Verb.Start 0 0 self (verb_answer Verb.Start 0 self) result }
    {
        self.act(Verb::Start, 0, 0)
    }

    pub fn ready(self, frame: u32) -> Acted
        ensures { Acts Verb.Ready frame 0 self (verb_answer Verb.Ready 0 self) result }
    {
        self.act(Verb::Ready, frame, 0)
    }

    pub fn unready(self) -> Acted
        ensures { Acts Verb.Unready 0 0 self (verb_answer Verb.Unready 0 self) result }
    {
        self.act(Verb::Unready, 0, 0)
    }

    pub fn pass(self, frame: u32, to: u16) -> Acted
        ensures { Acts Verb.Pass frame to self (verb_answer Verb.Pass to self) result }
    {
        self.act(Verb::Pass, frame, to)
    }

    pub fn crash(self) -> Acted
        ensures { Acts Verb.Crash 0 0 self (verb_answer Verb.Crash 0 self) result }
    {
        self.act(Verb::Crash, 0, 0)
    }

    pub fn restart(self) -> Acted
        ensures { Acts Verb.Restart 0 0 self (verb_answer Verb.Restart 0 self) result }
    {
        self.act(Verb::Restart, 0, 0)
    }
}
