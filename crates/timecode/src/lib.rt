// Timecodes: the frames of a day and their labels HH:MM:SS:FF.
#![tactic(auto)]

ghost use Rattle.std.specs.Prelude.{◌≡◌, ◌+◌, ◌<◌, length};
ghost use Rattle.text.specs.Number.{is_digit};
ghost use Rattle.text.specs.Write.{WritesIf};
ghost use Rattle.timecode.specs.Label.{label};
ghost use Rattle.timecode.specs.Read.{of_timecode, in_day, take_frame, two_at, two_below, is_label, frame_of, read_timecode};
ghost use Rattle.timecode.specs.Trips.{Labels};
ghost use Rattle.timecode.specs.Steps.{has_colons, in_range, Pair, Digits, IsLabel};

use refusal::Refusal;

// A frame of the day, by its number. `Timecode::of_frame` and `Timecode::read` make it; no other
// crate can by itself.
#[derive(Clone, Copy)]
pub struct Timecode {
    frame: u32,
}

impl Timecode {
    // Frames a second.
    pub const RATE: u32 = 25;

    // Frames of a day.
    pub const DAY: u32 = 24 * 60 * 60 * Timecode::RATE;

    // The timecode of a frame of the day.
    pub fn of_frame(frame: u32) -> Result<Timecode, Refusal>
        ensures { of_timecode result ≡ take_frame frame }
    {
        if frame < Timecode::DAY {
            Ok(Timecode { frame })
        } else {
            Err(Refusal::Timecode)
        }
    }

    // The timecode that a label names.
    pub fn read(s: &[u8]) -> Result<Timecode, Refusal>
        ensures { of_timecode result ≡ read_timecode s.now }
    {
        if is_label(s) {
            Ok(Timecode { frame: frame_of(s) })
        } else {
            Err(Refusal::Timecode)
        }
    }

    // The label of a frame; beyond the day it shows the last two digits of the hours.
    pub fn label_of(frame: u32) -> [u8; 11]
        ensures { result ≡ label frame }
    {
        let seconds = frame / Timecode::RATE;
        let minutes = seconds / 60;
        let hours = minutes / 60;
        let h = pair(hours % 100);
        let m = pair(minutes - hours * 60);
        let s = pair(seconds - minutes * 60);
        let f = pair(frame - seconds * Timecode::RATE);
        [
            (h % 256) as u8,
            (h / 256) as u8,
            b':',
            (m % 256) as u8,
            (m / 256) as u8,
            b':',
            (s % 256) as u8,
            (s / 256) as u8,
            b':',
            (f % 256) as u8,
            (f / 256) as u8,
        ]
    }

    // Its frame.
    pub fn frame(self) -> u32
        ensures { result ≡ self.frame }
    {
        self.frame
    }

    // Its label.
    pub fn label(self) -> [u8; 11]
        ensures { Labels self.frame result }
    {
        Timecode::label_of(self.frame)
    }

    // The label into a lent slice: 3 for a frame outside the day, then 9.
    pub fn write(self, out: &mut [u8], at: usize) -> Result<usize, Refusal>
        ensures { WritesIf (in_day self.frame) 3 out.old at (label self.frame) result out.new }
    {
        if self.frame < Timecode::DAY {
            let bytes = self.label();
            text::write_bytes(out, at, &bytes)
        } else {
            Err(Refusal::Timecode)
        }
    }
}

// ---- digits written

// The two digits of n, as one number of two bytes: a store of both costs one instruction.
fn pair(n: u32) -> u32
    requires { n < 100 }
    ensures { Pair n result }
{
    n % 10 * 256 + n / 10 + 12336
}

// ---- labels read: small tests are joined by `&`, which has no branch

fn is_digit(x: u8) -> bool
    ensures { result ≡ is_digit x }
{
    (b'0' <= x) & (x <= b'9')
}

// The number of the two digits at place k.
fn two_at(s: &[u8], k: usize) -> u32
    requires { Digits s.now k }
    ensures { result ≡ two_at s.now k }
{
    let tens = (s[k] - b'0') as u32;
    let ones = (s[k + 1] - b'0') as u32;
    tens * 10 + ones
}

// Two digits at place k, their number below m.
fn two_below(s: &[u8], k: usize, m: u32) -> bool
    requires { k + 1 < length s.now }
    ensures { result ≡ two_below s.now k m }
{
    if is_digit(s[k]) & is_digit(s[k + 1]) {
        two_at(s, k) < m
    } else {
        false
    }
}

fn has_colons(s: &[u8]) -> bool
    requires { length s.now ≡ 11 }
    ensures { result ≡ has_colons s.now }
{
    (s[2] == b':') & ((s[5] == b':') & (s[8] == b':'))
}

// Hours, minutes, seconds and frames, each within its range.
fn in_range(s: &[u8]) -> bool
    requires { length s.now ≡ 11 }
    ensures { result ≡ in_range s.now }
{
    two_below(s, 0, 24)
        & (two_below(s, 3, 60) & (two_below(s, 6, 60) & two_below(s, 9, Timecode::RATE)))
}

fn is_label(s: &[u8]) -> bool
    ensures { result ≡ is_label s.now }
{
    if s.len() == 11 {
        has_colons(s) & in_range(s)
    } else {
        false
    }
}

// The frame that a label names.
fn frame_of(s: &[u8]) -> u32
    requires { IsLabel s.now }
    ensures { result ≡ frame_of s.now }
{
    let minutes = two_at(s, 0) * 60 + two_at(s, 3);
    let seconds = minutes * 60 + two_at(s, 6);
    seconds * Timecode::RATE + two_at(s, 9)
}
