// A channel and its calls: the fresh channel, the eight verbs, the two advances, the advance within
// a slice, and the line of a refusal.
#![tactic(auto)]

ghost use Rattle.std.specs.Prelude.{◌≡◌, Bool, ◌||◌, ◌+◌, ◌<◌, length};
ghost use Rattle.text.specs.Write.{Writes};
ghost use Rattle.lines.specs.Lines.{refused_line};
ghost use Rattle.group.specs.Advance.{step_outcome, time_goes, time_outcome, within_goes, within_outcome};
ghost use Rattle.group.specs.Verbs.{known, verb_outcome};
ghost use Rattle.server.specs.Server.{sent_any};
ghost use Rattle.frame.specs.Answers.{last_frame, ticks_in};
ghost use Rattle.group.specs.Frame.{moved_to};
ghost use Rattle.channel.specs.Answers.{state, Opens, Answers, AnswersWithin};
ghost use Rattle.channel.specs.Steps.{next_frame, Quiet};

use group::{Links, Servers, State, Table};
use periods::Period;
use places::Packed;
use refusal::Refusal;
use roles::Verb;
use server::Server;
use timecode::Timecode;

// A channel in a frame, with the calls on it.
#[derive(Clone, Copy)]
pub struct Channel {
    state: State,
}

// A fresh channel; where it is refused, one with no server.
#[derive(Clone, Copy)]
pub struct Opened {
    pub verdict: Result<(), Refusal>,
    pub channel: Channel,
}

// What a call answers: where it is refused, nothing written and the same channel.
#[derive(Clone, Copy)]
pub struct Answer {
    pub written: Result<usize, Refusal>,
    pub channel: Channel,
}

// What the advance within a slice answers: an answer, and how many frames it made.
#[derive(Clone, Copy)]
pub struct Within {
    pub written: Result<usize, Refusal>,
    pub frames: u32,
    pub channel: Channel,
}

// ---- a channel and its state

impl Channel {
    // A channel at frame 0: 2, 6, 7.
    pub fn fresh(table: Table, period: u32) -> Opened
        ensures { Opens table period result }
    {
        let opened = State::fresh(table, period);
        let verdict = opened.verdict;
        let state = opened.state;
        Opened {
            verdict,
            channel: Channel { state },
        }
    }

    // Its state.
    pub fn state(self) -> State
        ensures { result ≡ state self }
    {
        self.state
    }

    // The channel in a state.
    pub fn of_state(from: State) -> Channel
        ensures { result ≡ record { state = from } }
    {
        Channel { state: from }
    }

    // The present frame.
    pub fn frame(self) -> u32
        ensures { result ≡ (state self).frame }
    {
        self.state.frame
    }

    // The same links and period, in another frame with other servers.
    fn moved(self, frame: u32, servers: Servers) -> Channel
        ensures { result ≡ record { state = moved_to (state self) frame servers } }
    {
        let mut state = self.state;
        state.frame = frame;
        state.servers = servers;
        Channel { state }
    }

    fn refused(self, k: Refusal) -> Answer
        ensures { result ≡ record { written = Err k; channel = self } }
    {
        Answer {
            written: Err(k),
            channel: self,
        }
    }
}

// ---- one frame

// Whether a server sent, or has a timer due in the frame.
fn stirs(s: Server, period: Period, frame: u32) -> bool
    ensures { result ≡ (sent_any s || ticks_in s.role frame period s) }
{
    s.sent_any() | frame::ticks(s, period, frame)
}

// Nothing happens in the next frame: nobody sent, and no timer is due.
fn quiet(state: State, next: u32) -> bool
    requires { next ≡ state.frame + 1 }
    ensures { result ≡ Bool.true → Quiet state }
{
    let period = state.period;
    !state.servers.iter().any(|s| stirs(*s, period, next))
}

impl Channel {
    // The next frame, in which nothing happens.
    fn idle(self) -> Answer
        requires { ((state self).frame < last_frame) × Quiet (state self) }
        ensures { result ≡ record { written = Ok 0; channel = record { state = moved_to (state self) ((state self).frame + 1) (state self).servers } } }
    {
        let mut state = self.state;
        state.frame += 1;
        Answer {
            written: Ok(0),
            channel: Channel { state },
        }
    }

    // The next frame on the servers as numbers, or 9.
    fn play(self, out: &mut [u8]) -> Answer
        requires { (state self).frame < last_frame }
        ensures { Answers self (next_frame (state self)) out.old result out.new }
    {
        let state = self.state;
        let servers = state.servers;
        let whole = state.whole;
        let period = state.period;
        let mut words = places::words_of(servers);
        let fared = frame::play(&mut words, &whole, period, state.frame, out, 0);
        if fared.full {
            return self.refused(Refusal::Short);
        }
        let after = places::servers_of(&words);
        let channel = self.moved(state.frame + 1, after);
        Answer {
            written: Ok(fared.at),
            channel,
        }
    }

    // The next frame, or 9.
    fn step(self, out: &mut [u8]) -> Answer
        requires { (state self).frame < last_frame }
        ensures { Answers self (next_frame (state self)) out.old result out.new }
    {
        let state = self.state;
        if quiet(state, state.frame + 1) {
            self.idle()
        } else {
            self.play(out)
        }
    }

    // One frame: 16, 9.
    pub fn advance(self, out: &mut [u8]) -> Answer
        ensures { Answers self (step_outcome (state self)) out.old result out.new }
    {
        if self.state.frame >= Timecode::DAY - 1 {
            return self.refused(Refusal::DayOver);
        }
        self.step(out)
    }
}

// ---- many frames

impl Channel {
    // To the target, or 9.
    fn run(self, target: u32, out: &mut [u8]) -> Answer
        ensures { Answers self (time_goes (state self) target) out.old result out.new }
    {
        let state = self.state;
        let servers = state.servers;
        let whole = state.whole;
        let period = state.period;
        let words = places::words_of(servers);
        let ran = frames::run(words, &whole, period, state.frame, target, out);
        match ran.written {
            Ok(written) => {
                let next = ran.words;
                let after = places::servers_of(&next);
                let channel = self.moved(ran.frame, after);
                Answer {
                    written: Ok(written),
                    channel,
                }
            }
            Err(k) => self.refused(k),
        }
    }

    // To a time, as so many single advances: 3, 11, 9.
    pub fn advance_to(self, time: u32, out: &mut [u8]) -> Answer
        ensures { Answers self (time_outcome (state self) time) out.old result out.new }
    {
        if time >= Timecode::DAY {
            return self.refused(Refusal::Timecode);
        }
        if time < self.state.frame {
            return self.refused(Refusal::Past);
        }
        self.run(time, out)
    }

    fn stays(self, k: Refusal) -> Within
        ensures { result ≡ record { written = Err k; frames = 0; channel = self } }
    {
        Within {
            written: Err(k),
            frames: 0,
            channel: self,
        }
    }

    // As many frames towards the target as fit, or 9.
    fn run_within(self, target: u32, out: &mut [u8]) -> Within
        ensures { AnswersWithin self (within_goes (state self) target (length out.old)) out.old result out.new }
    {
        let state = self.state;
        let servers = state.servers;
        let whole = state.whole;
        let period = state.period;
        let mut words = places::words_of(servers);
        let ran = frames::run_within(&mut words, &whole, period, state.frame, target, out);
        match ran.written {
            Ok(written) => {
                let after = places::servers_of(&words);
                let channel = self.moved(ran.frame, after);
                Within {
                    written: Ok(written),
                    frames: ran.frame - state.frame,
                    channel,
                }
            }
            Err(k) => self.stays(k),
        }
    }

    // As many single advances towards a time as fit, and how many they are: none of the listed
    // calls. 3, 11; 9 where not even one fits.
    pub fn advance_within(self, time: u32, out: &mut [u8]) -> Within
        ensures { AnswersWithin self (within_outcome (state self) time (length out.old)) out.old result out.new }
    {
        if time >= Timecode::DAY {
            return self.stays(Refusal::Timecode);
        }
        if self.state.frame > time {
            return self.stays(Refusal::Past);
        }
        self.run_within(time, out)
    }
}

// ---- verbs

impl Channel {
    // Whether the table has a verb's identities, which differ; the second counts only where the
    // verb has one. It has no 0.
    pub fn knows(self, verb: Verb, a: u16, b: u16) -> bool
        ensures { result ≡ known (state self) verb a b }
    {
        let state = self.state;
        verbs::knows_in(state, verb, a, b)
    }

    // Any verb; the second identity is not looked at where the verb has one only.
    pub fn verb(self, verb: Verb, a: u16, b: u16, out: &mut [u8]) -> Answer
        ensures { Answers self (verb_outcome (state self) verb a b) out.old result out.new }
    {
        let before = self.state;
        let next = verbs::next(before, verb, a, b, out);
        Answer {
            written: next.written,
            channel: Channel { state: next.state },
        }
    }

    pub fn start(self, identity: u16, out: &mut [u8]) -> Answer
        ensures { Answers self (verb_outcome (state self) Verb.Start identity 0) out.old result out.new }
    {
        self.verb(Verb::Start, identity, 0, out)
    }

    pub fn ready(self, identity: u16, out: &mut [u8]) -> Answer
        ensures { Answers self (verb_outcome (state self) Verb.Ready identity 0) out.old result out.new }
    {
        self.verb(Verb::Ready, identity, 0, out)
    }

    pub fn unready(self, identity: u16, out: &mut [u8]) -> Answer
        ensures { Answers self (verb_outcome (state self) Verb.Unready identity 0) out.old result out.new }
    {
        self.verb(Verb::Unready, identity, 0, out)
    }

    pub fn pass(self, from: u16, to: u16, out: &mut [u8]) -> Answer
        ensures { Answers self (verb_outcome (state self) Verb.Pass from to) out.old result out.new }
    {
        self.verb(Verb::Pass, from, to, out)
    }

    pub fn crash(self, identity: u16, out: &mut [u8]) -> Answer
        ensures { Answers self (verb_outcome (state self) Verb.Crash identity 0) out.old result out.new }
    {
        self.verb(Verb::Crash, identity, 0, out)
    }

    pub fn restart(self, identity: u16, out: &mut [u8]) -> Answer
        ensures { Answers self (verb_outcome (state self) Verb.Restart identity 0) out.old result out.new }
    {
        self.verb(Verb::Restart, identity, 0, out)
    }

    // The link from one server to the other, and not that back.
    pub fn cut(self, from: u16, to: u16, out: &mut [u8]) -> Answer
        ensures { Answers self (verb_outcome (state self) Verb.Cut from to) out.old result out.new }
    {
        self.verb(Verb::Cut, from, to, out)
    }

    pub fn mend(self, from: u16, to: u16, out: &mut [u8]) -> Answer
        ensures { Answers self (verb_outcome (state self) Verb.Mend from to) out.old result out.new }
    {
        self.verb(Verb::Mend, from, to, out)
    }

    // The sheet's line of a call that was refused, at the present time; 9.
    pub fn write_refused(
        self,
        identity: u16,
        refusal: Refusal,
        out: &mut [u8],
    ) -> Result<usize, Refusal>
        ensures { Writes out.old 0 (refused_line (state self).frame identity refusal) result out.new }
    {
        lines::write_refused(out, self.state.frame, identity, refusal)
    }
}
