// A day and a sheet in pieces: whether the sheet is the day's, or at which line it departs. The
// line under way of the day, the servers' numbers, the links and the bytes due are lent, and
// changed in place.
#![tactic(auto)]

ghost use Rattle.std.specs.Prelude.{◌≡◌, ◌+◌, ◌-◌, ◌≤◌, ◌<◌, not};
ghost use Rattle.feeding.specs.Bound.{step_bytes};
ghost use Rattle.judging.specs.Bounds.{sheet_limit};
ghost use Rattle.judge.specs.Answers.{end_in, start_in, with_found, Begins, DayGiven, SheetGiven, Asks};
ghost use Rattle.judging.specs.Judging.{is_decided, closed, decision};

use departure::{Compared, Departure};
use feed::Feed;
use group::Links;
use places::Packed;

// Where a day and a sheet stand: the day; the bytes due that the sheet has not come to, which are
// lent, from a place to another; how many lines were as due; and the judgement.
#[derive(Clone, Copy)]
pub struct Judge {
    feed: Feed,
    from: usize,
    to: usize,
    lines: u64,
    judgement: Option<Departure>,
}

// How many bytes of a piece were taken, and the judge then. Those that were not are to be given
// again, with what follows them.
#[derive(Clone, Copy)]
pub struct Given {
    pub used: usize,
    pub judge: Judge,
}

fn decide(departs: bool, ended: bool, line: u64) -> Option<Departure>
    ensures { result ≡ decision departs ended line }
{
    if departs {
        return Some(Departure::At(line));
    }
    if ended {
        return Some(Departure::Same);
    }
    None
}

impl Judge {
    // So many bytes are lent for those due: as many as a step of the day prints at the most.
    pub const DUE: usize = Feed::STEP;

    // 2 to the 63: no sheet has so many bytes, nor lines.
    const LIMIT: u64 = 9223372036854775808;

    // Before the first byte: the header is due.
    pub fn begin(due: &mut [u8; Judge::DUE]) -> Judge
        ensures { Begins due.old result due.new }
    {
        let begun = Feed::begin(due);
        let header = begun.written;
        let feed = begun.feed;
        Judge {
            feed,
            from: 0,
            to: printer::bytes(header),
            lines: 0,
            judgement: None,
        }
    }

    // What is known.
    pub fn judgement(self) -> Option<Departure>
        ensures { result ≡ self.judgement }
    {
        self.judgement
    }

    // Whether it is not decided.
    pub fn is_open(self) -> bool
        ensures { result ≡ not (is_decided self.judgement) }
    {
        self.judgement.is_none()
    }

    fn closed(self) -> bool
        ensures { result ≡ closed self.judgement self.lines }
    {
        self.judgement.is_some() | (self.lines >= Judge::LIMIT)
    }

    // Where the bytes held begin and end in n bytes lent.
    fn end(self, n: usize) -> usize
        ensures { result ≡ end_in self n }
    {
        self.to.min(n)
    }

    fn start(self, n: usize) -> usize
        ensures { result ≡ start_in self n }
    {
        self.from.min(self.end(n))
    }

    // How many they are.
    fn held(self, n: usize) -> usize
        ensures { result ≡ end_in self n - start_in self n }
    {
        self.end(n) - self.start(n)
    }

    // Whether a piece of the day is asked for: no byte due is held, and its sheet is not over.
    pub fn asks(self, due: &[u8; Judge::DUE]) -> bool
        ensures { Asks self due.now result }
    {
        let all = &due[..];
        let n = all.len();
        !self.feed.over() & (self.held(n) == 0)
    }

    // A piece of the day; it is the last in every call from the end of the day on. Nothing is taken
    // where bytes due are held, where the day's sheet is over, as after a refusal, or where it is
    // decided.
    pub fn take_day(
        self,
        line: &mut [u8; Feed::LINE],
        words: &mut Packed,
        whole: &mut Links,
        due: &mut [u8; Judge::DUE],
        piece: &[u8],
        last: bool,
    ) -> Given
        ensures { DayGiven self line.old words.old whole.old due.old piece.now last result line.new words.new whole.new due.new }
    {
        let all = &due[..];
        let n = all.len();
        if self.closed() | (self.held(n) > 0) {
            return Given {
                used: 0,
                judge: self,
            };
        }
        let printed = printer::print(self.feed, line, words, whole, piece, last, due);
        let written = printed.written;
        let feed = printed.feed;
        let judgement = self.judgement;
        Given {
            used: printed.used,
            judge: Judge {
                feed,
                from: 0,
                to: printer::bytes(written),
                lines: self.lines,
                judgement,
            },
        }
    }

    // After c, which compares the n bytes held from the place `at` on with m bytes of a piece.
    fn with_found(self, at: usize, n: usize, m: usize, last: bool, c: Compared) -> Judge
        requires { (self.lines < sheet_limit) × (at + c.bytes ≤ step_bytes) × (c.lines ≤ c.bytes) }
        ensures { result ≡ with_found self at n m last c }
    {
        let over = self.feed.over();
        let departs = c.departed | (((c.bytes < n) & last) | ((c.bytes < m) & over));
        let lines = self.lines + c.lines as u64;
        let judgement = decide(departs, last & over, lines + 1);
        let feed = self.feed;
        Judge {
            feed,
            from: at + c.bytes,
            to: self.to,
            lines,
            judgement,
        }
    }

    // A piece of the sheet; it is the last in every call from the end of the sheet on. Bytes of it
    // are left only where it is decided, or a piece of the day is asked for.
    pub fn take_sheet(self, due: &[u8; Judge::DUE], piece: &[u8], last: bool) -> Given
        ensures { SheetGiven self due.now piece.now last result }
    {
        if self.closed() {
            return Given {
                used: 0,
                judge: self,
            };
        }
        let all = &due[..];
        let n = all.len();
        let start = self.start(n);
        let end = self.end(n);
        let compared = departure::compare(&all[start..end], piece);
        Given {
            used: compared.bytes,
            judge: self.with_found(start, end - start, piece.len(), last, compared),
        }
    }
}
