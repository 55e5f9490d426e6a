// Where a sheet departs from the one that is due, and the comparison of bytes by which it is found.
#![tactic(auto)]

ghost use Rattle.std.specs.Prelude.{◌≡◌, ◌+◌, ◌≤◌, length};
ghost use Rattle.departure.specs.Answers.{Compares};
ghost use Rattle.departure.specs.Compare.{line_end};
ghost use Rattle.departure.specs.Departure.{line_number};
ghost use Rattle.departure.specs.Steps.{alike, Comparing, Counts};

// The same, or the number of the first line that departs; the header's is 1.
#[derive(Clone, Copy)]
pub enum Departure {
    Same,
    At(u64),
}

impl Departure {
    // The line's number; 0 for the same.
    pub fn number(self) -> u64
        ensures { result ≡ line_number self }
    {
        match self {
            Departure::Same => 0,
            Departure::At(n) => n,
        }
    }
}

// Whether two bytes at the same place differ, how many are equal before, and how many lines these
// end.
#[derive(Clone, Copy)]
pub struct Compared {
    pub departed: bool,
    pub bytes: usize,
    pub lines: usize,
}

// 1 for a line feed, else 0.
fn line_feed(x: u8) -> u8
    ensures { result ≡ line_end x }
{
    if x == b'\n' {
        return 1;
    }
    0
}

// 1 for equal bytes, else 0.
fn alike(x: u8, y: u8) -> u8
    ensures { result ≡ alike x y }
{
    if x == y {
        return 1;
    }
    0
}

// How many bytes of a block are equal, and how many lines those due end.
#[derive(Clone, Copy)]
struct Counted {
    equal: u8,
    lines: u8,
}

// How many bytes before the first block that differs, and how many lines they end.
#[derive(Clone, Copy)]
struct Skipped {
    bytes: usize,
    lines: usize,
}

// Bytes that are counted together, without a look at each by itself: few enough for 8 bits.
const BLOCK: usize = 128;

// The block from a place on, with no early end, so that compiled code counts many bytes at once.
fn count(due: &[u8], found: &[u8], at: usize) -> Counted
    requires { (at + 128 ≤ length due.now) × (at + 128 ≤ length found.now) }
    ensures { Counts due.now found.now at result }
{
    let mut equal: u8 = 0;
    let mut lines: u8 = 0;
    for i in 0..BLOCK {
        equal += alike(due[at + i], found[at + i]);
        lines += line_feed(due[at + i]);
    }
    Counted { equal, lines }
}

// Blocks that are equal, from the first on.
fn skip(due: &[u8], found: &[u8]) -> Skipped
    ensures { Comparing due.now found.now result.lines result.bytes }
{
    let mut lines: usize = 0;
    let blocks = due.len().min(found.len()) / BLOCK;
    for block in 0..blocks {
        let bytes = BLOCK * block;
        let counted = count(due, found, bytes);
        if counted.equal as usize != BLOCK {
            return Skipped { bytes, lines };
        }
        lines += counted.lines as usize;
    }
    let bytes = BLOCK * blocks;
    Skipped { bytes, lines }
}

// The bytes due and those found, as far as both go.
pub fn compare(due: &[u8], found: &[u8]) -> Compared
    ensures { Compares due.now found.now result }
{
    let skipped = skip(due, found);
    let mut lines = skipped.lines;
    let end = due.len().min(found.len());
    for i in skipped.bytes..end {
        if due[i] != found[i] {
            return Compared {
                departed: true,
                bytes: i,
                lines,
            };
        }
        lines += line_feed(due[i]) as usize;
    }
    Compared {
        departed: false,
        bytes: end,
        lines,
    }
}
