// What a playout server holds, and moves on in place from frame to frame.
#![tactic(auto)]

ghost use Rattle.std.specs.Prelude.{◌≡◌};
ghost use Rattle.front.specs.Front.{with_server, FrontBegins, hearing, FrontHears, timing, FrontTicks, FrontActs};
ghost use Rattle.front.specs.Laws.{FrontNew};

use heartbeat::Heartbeat;
use periods::Period;
use refusal::Refusal;
use roles::{Event, Role, Verb};
use server::Server;
use timecode::Timecode;

// One server, the present frame, and the period of its channel.
#[derive(Clone, Copy)]
pub struct Front {
    pub server: Server,
    pub frame: u32,
    pub period: Period,
}

// What happened on hearing, and the role afterwards.
#[derive(Clone, Copy)]
pub struct HeardNow {
    pub event: Event,
    pub role: Role,
}

// What each timer did, in their order, and the role afterwards.
#[derive(Clone, Copy)]
pub struct TimedNow {
    pub silent: Event,
    pub beating: Event,
    pub rising: Event,
    pub role: Role,
}

// Whether the verb is accepted, what happened, and the role afterwards.
#[derive(Clone, Copy)]
pub struct ActedNow {
    pub verdict: Result<(), Refusal>,
    pub event: Event,
    pub role: Role,
}

// A front after a step, and the step's answer.
#[derive(Clone, Copy)]
pub struct After<F, A> {
    pub front: F,
    pub answer: A,
}

// ---- a front made

impl Front {
    // The front of an idle server at frame 0; 2 for identity 0, or a period out of range.
    pub fn new(identity: u16, priority: u8, period: u32) -> Result<Front, Refusal>
        ensures { FrontNew identity priority period result }
    {
        let made = Server::new(identity, priority);
        made.verdict?;
        let period = Period::of(period)?;
        Ok(Front {
            server: made.server,
            frame: 0,
            period,
        })
    }

    fn with_server(mut self, server: Server) -> Front
        ensures { result ≡ with_server server self }
    {
        self.server = server;
        self
    }
}

// ---- the steps, by value

impl Front {
    // The next frame, with nothing sent yet; 16 from the day's last frame on, and the same front.
    pub fn begun(self) -> After<Front, Result<(), Refusal>>
        ensures { FrontBegins self result.answer result.front }
    {
        if self.frame < Timecode::DAY - 1 {
            let cleared = self.server.cleared();
            let mut front = self.with_server(cleared);
            front.frame = self.frame + 1;
            After {
                front,
                answer: Ok(()),
            }
        } else {
            After {
                front: self,
                answer: Err(Refusal::DayOver),
            }
        }
    }

    // One heartbeat, heard in the present frame.
    pub fn heard(self, h: Heartbeat) -> After<Front, HeardNow>
        ensures { result ≡ hearing self h }
    {
        let was = self.server;
        let heard = was.hear(self.frame, h);
        let event = heard.event;
        let hearer = heard.server;
        let role = hearer.role;
        After {
            front: self.with_server(hearer),
            answer: HeardNow { event, role },
        }
    }

    // The timers of the present frame.
    pub fn timed(self) -> After<Front, TimedNow>
        ensures { result ≡ timing self }
    {
        let was = self.server;
        let timed = was.timers(self.frame, self.period);
        let silent = timed.silent;
        let beating = timed.beating;
        let rising = timed.rising;
        let server = timed.server;
        let role = server.role;
        After {
            front: self.with_server(server),
            answer: TimedNow {
                silent,
                beating,
                rising,
                role,
            },
        }
    }

    // A verb in the present frame; `to` is the second identity, where the verb has one. Where it is
    // refused, the same front.
    pub fn acted(self, verb: Verb, to: u16) -> After<Front, ActedNow>
        ensures { FrontActs verb to self result.answer result.front }
    {
        let was = self.server;
        let acted = was.act(verb, self.frame, to);
        let verdict = acted.verdict;
        let event = acted.event;
        let acting = acted.server;
        let role = acting.role;
        After {
            front: self.with_server(acting),
            answer: ActedNow {
                verdict,
                event,
                role,
            },
        }
    }
}

// ---- the front proper: each step moves it on in place

impl Front {
    // The front after a step in the place of this one, and the step's answer.
    fn moved<A>(&mut self, next: After<Front, A>) -> A
        ensures front { self.new ≡ next.front }
        ensures answer { result ≡ next.answer }
    {
        *self = next.front;
        next.answer
    }

    // The next frame begins; 16 from the day's last frame on, and the same front.
    pub fn begin(&mut self) -> Result<(), Refusal>
        ensures { FrontBegins self.old result self.new }
    {
        self.moved((*self).begun())
    }

    // One heartbeat, heard in the present frame.
    pub fn hear(&mut self, h: Heartbeat) -> HeardNow
        ensures { FrontHears self.old h result self.new }
    {
        self.moved((*self).heard(h))
    }

    // The timers of the present frame, after all hearing in it.
    pub fn tick(&mut self) -> TimedNow
        ensures { FrontTicks self.old result self.new }
    {
        self.moved((*self).timed())
    }

    // A verb in the present frame; where it is refused, the same front.
    pub fn act(&mut self, verb: Verb, to: u16) -> ActedNow
        ensures { FrontActs verb to self.old result self.new }
    {
        self.moved((*self).acted(verb, to))
    }

    pub fn start(&mut self) -> ActedNow
        ensures { FrontActs Verb.Start 0 self.old result self.new }
    {
        self.act(Verb::Start, 0)
    }

    pub fn ready(&mut self) -> ActedNow
        ensures { FrontActs Verb.Ready 0 self.old result self.new }
    {
        self.act(Verb::Ready, 0)
    }

    pub fn unready(&mut self) -> ActedNow
        ensures { FrontActs Verb.Unready 0 self.old result self.new }
    {
        self.act(Verb::Unready, 0)
    }

    pub fn pass(&mut self, to: u16) -> ActedNow
        ensures { FrontActs Verb.Pass to self.old result self.new }
    {
        self.act(Verb::Pass, to)
    }

    pub fn crash(&mut self) -> ActedNow
        ensures { FrontActs Verb.Crash 0 self.old result self.new }
    {
        self.act(Verb::Crash, 0)
    }

    pub fn restart(&mut self) -> ActedNow
        ensures { FrontActs Verb.Restart 0 self.old result self.new }
    {
        self.act(Verb::Restart, 0)
    }
}
