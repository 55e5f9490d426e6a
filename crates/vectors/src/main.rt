// Sets the engine's sheets against those of the file `days`, which the model made. The file begins
// with a line of two numbers, parted by a tab: how many days it has, and how many of these have a
// repeated part. Each day is a line of seven numbers, HEAD TIMES BODY TAIL SHEET SHOWN CHECK parted
// by tabs, then HEAD, BODY and TAIL bytes, then SHOWN bytes. The day is the head, the body TIMES
// times over, and the tail; its sheet has SHEET bytes, those shown unless SHOWN is 0, and CHECK is
// FNV-1a over it, 64 bits.
//
// Then sets what the judge says of sheets against the file `pairs`, which the model made too. The
// file begins with a line of one number: how many pairs it has. Each pair is a line of three
// numbers, DAY SHEET ANSWER parted by tabs, then DAY bytes of a day and SHEET bytes of a sheet.
// ANSWER is the number of the first line at which the sheet departs from the day's, or 0.
//
// A day or a pair that differs gets a line with its number and what differs first: the length, the
// bytes or the check, or that it is too long to build; of a pair the answer. So does the first of a
// file that is not well written, and nothing after it is read. A last line for each file says how
// many agree.
#![tactic(auto)]

ghost use Rattle.std.specs.Prelude.{◌≡◌, ◌+◌, ◌*◌, ◌%◌, ◌^◌, ◌<◌, ◌≤◌, length, IfOk, IfSome};
ghost use Rattle.text.specs.Steps.{Pieces};
ghost use Rattle.vectors.specs.Check.{stepped, check_of};
ghost use Rattle.vectors.specs.Days.{next_number, line_at, day_of, compared, sheet_compared, part, found_at};
ghost use Rattle.vectors.specs.Tally.{agreeing, Counted, beginning, counted, stopped};
ghost use Rattle.vectors.specs.Pairs.{pair_at, pair_found, next_pair, pairs_from};

use refusal::Refusal;
use std::io;
use std::rt::Files;

// ---- numbers

// A number of the file, and the place after it and what ends it.
#[derive(Clone, Copy)]
struct Number {
    n: u64,
    at: usize,
}

impl Number {
    // No number but a check is greater.
    const MOST: u64 = 2097152;

    // The number at the place `at`, which the byte `stop` ends.
    fn read(file: &[u8], at: usize, stop: u8, greatest: u64) -> Option<Number>
        requires { at ≤ length file.now }
        ensures value { result ≡ next_number at file.now stop greatest }
        ensures n_le_greatest { IfSome result (λ p. (p.n ≤ greatest) × (p.at ≤ length file.now)) }
    {
        let rest = &file[at..];
        let end = text::find(rest, stop);
        if end >= rest.len() {
            return None;
        }
        let n = asked::number(&rest[..end], greatest)?;
        Some(Number {
            n,
            at: at + end + 1,
        })
    }
}

// The numbers of a day, and the places after its line and after its bytes.
#[derive(Clone, Copy)]
struct Line {
    head: usize,
    times: u64,
    body: usize,
    tail: usize,
    sheet: usize,
    shown: usize,
    check: u64,
    at: usize,
    end: usize,
}

impl Line {
    fn read(file: &[u8], at: usize) -> Option<Line>
        requires { (at ≤ length file.now) × (length file.now ≤ 1703936) }
        ensures value { result ≡ line_at file.now at }
        ensures ends { IfSome result (λ l. l.end ≡ l.at + l.head + l.body + l.tail + l.shown) }
    {
        let head = Number::read(file, at, b'\t', Number::MOST)?;
        let times = Number::read(file, head.at, b'\t', Number::MOST)?;
        let body = Number::read(file, times.at, b'\t', Number::MOST)?;
        let tail = Number::read(file, body.at, b'\t', Number::MOST)?;
        let sheet = Number::read(file, tail.at, b'\t', Number::MOST)?;
        let shown = Number::read(file, sheet.at, b'\t', Number::MOST)?;
        let check = Number::read(file, shown.at, b'\n', u64::MAX)?;
        Some(Line {
            head: head.n as usize,
            times: times.n,
            body: body.n as usize,
            tail: tail.n as usize,
            sheet: sheet.n as usize,
            shown: shown.n as usize,
            check: check.n,
            at: check.at,
            end: check.at + head.n as usize + body.n as usize + tail.n as usize + shown.n as usize,
        })
    }
}

// The numbers of a pair, and the places after its line and after its bytes.
#[derive(Clone, Copy)]
struct Pair {
    day: usize,
    sheet: usize,
    answer: u64,
    at: usize,
    end: usize,
}

impl Pair {
    fn read(file: &[u8], at: usize) -> Option<Pair>
        requires { (at ≤ length file.now) × (length file.now ≤ 1703936) }
        ensures value { result ≡ pair_at file.now at }
        ensures ends { IfSome result (λ p. p.end ≡ p.at + p.day + p.sheet) }
    {
        let day = Number::read(file, at, b'\t', Number::MOST)?;
        let sheet = Number::read(file, day.at, b'\t', Number::MOST)?;
        let answer = Number::read(file, sheet.at, b'\n', Number::MOST)?;
        Some(Pair {
            day: day.n as usize,
            sheet: sheet.n as usize,
            answer: answer.n,
            at: answer.at,
            end: answer.at + day.n as usize + sheet.n as usize,
        })
    }
}

// ---- the check

// x times 2^40 + 435, modulo 2^64: each of the three parts leaves out only what is beyond.
fn product(x: u64) -> u64
    ensures { result ≡ (x * 1099511628211) % 2 ^ 64 }
{
    let top = (x % 16777216) * 1099511627776;
    let high = (((x / 4294967296) * 435) % 4294967296) * 4294967296;
    let low = (x % 4294967296) * 435;
    std::num::wrapping_add_u64(top, std::num::wrapping_add_u64(high, low))
}

// FNV-1a of one byte more.
fn step(check: u64, x: u8) -> u64
    ensures { result ≡ stepped check x }
{
    product(check ^ u64::from(x))
}

fn check(s: &[u8]) -> u64
    ensures { result ≡ check_of s.now }
{
    s.iter().fold(14695981039346656037, |now, x| step(now, *x))
}

// ---- a day

// The head, the body so many times over, and the tail.
fn build(
    day: &mut [u8],
    head: &[u8],
    times: u64,
    body: &[u8],
    tail: &[u8],
) -> Result<usize, Refusal>
    ensures { Pieces day.old 0 (day_of head.now times body.now tail.now) result day.new }
{
    let mut at = text::write_bytes(day, 0, head)?;
    for _ in 0..times {
        at = text::write_bytes(day, at, body)?;
    }
    text::write_bytes(day, at, tail)
}

// What differs first of a day or a pair, or that the day is too long to be built.
#[derive(Clone, Copy)]
enum Differs {
    Length,
    Bytes,
    Check,
    TooLong,
    Answer,
}

impl Differs {
    fn words(self) -> &'static str {
        match self {
            Differs::Length => "length",
            Differs::Bytes => "bytes",
            Differs::Check => "check",
            Differs::TooLong => "too long",
            Differs::Answer => "answer",
        }
    }
}

// A sheet against what the file says of it.
fn compare(sheet: &[u8], long: usize, shown: &[u8], number: u64) -> Result<(), Differs>
    ensures { result ≡ compared sheet.now long shown.now number }
{
    if sheet.len() != long {
        return Err(Differs::Length);
    }
    if !((shown.len() == 0) | text::same(sheet, shown)) {
        return Err(Differs::Bytes);
    }
    if check(sheet) == number {
        Ok(())
    } else {
        Err(Differs::Check)
    }
}

// The engine's sheet of a day against what the file says. One for which there is no room counts as
// one of another length.
fn compare_sheet(
    day: &[u8],
    long: usize,
    shown: &[u8],
    number: u64,
    out: &mut [u8],
) -> Result<(), Differs>
    ensures { result ≡ sheet_compared out.old day.now long shown.now number }
{
    match daysheet::sheet(day, out) {
        Ok(n) => compare(&out[..n], long, shown, number),
        Err(_) => Err(Differs::Length),
    }
}

// n bytes of the file, from the place `at` on.
fn part(file: &[u8], at: usize, n: usize) -> &[u8]
    requires { at + n ≤ length file.now }
    ensures { result.now ≡ part file.now at n }
{
    let end = at + n;
    &file[at..end]
}

// A day of the file.
fn one(file: &[u8], line: Line, day: &mut [u8], out: &mut [u8]) -> Result<(), Differs>
    requires { (line.at + line.head + line.body + line.tail + line.shown ≤ length file.now) × (length file.now ≤ 1703936) }
    ensures { result ≡ found_at file.now line day.old out.old }
{
    let at = line.at;
    let body = at + line.head;
    let tail = body + line.body;
    let shown = tail + line.tail;
    let built = build(
        day,
        part(file, at, line.head),
        line.times,
        part(file, body, line.body),
        part(file, tail, line.tail),
    );
    match built {
        Ok(n) => compare_sheet(
            &day[..n],
            line.sheet,
            part(file, shown, line.shown),
            line.check,
            out,
        ),
        Err(_) => Err(Differs::TooLong),
    }
}

// ---- a pair

// A pair of the file.
fn one_pair(file: &[u8], pair: Pair) -> Result<(), Differs>
    requires { (pair.at + pair.day + pair.sheet ≤ length file.now) × (length file.now ≤ 1703936) }
    ensures { result ≡ pair_found file.now pair }
{
    let at = pair.at;
    let sheet = at + pair.day;
    let found = dayjudge::departure(part(file, at, pair.day), part(file, sheet, pair.sheet));
    if found.number() == pair.answer {
        Ok(())
    } else {
        Err(Differs::Answer)
    }
}

// ---- what is said

// Says something of the k-th day or pair.
fn say(rt: &impl Print, noun: &str, k: u64, what: &str) -> io::Result<u64>
    ensures { IfOk result (λ n. n ≡ 0) }
{
    println!(rt; "{noun} {k}: {what}")?;
    Ok(0)
}

// Says what differs in the k-th; 1 where it agrees.
fn tell(rt: &impl Print, noun: &str, k: u64, found: Result<(), Differs>) -> io::Result<u64>
    ensures { IfOk result (λ n. n ≡ agreeing found) }
{
    match found {
        Ok(()) => Ok(1),
        Err(differs) => say(rt, noun, k, differs.words()),
    }
}

// ---- the files

// 1 for a day with a repeated part.
fn repeats(line: Line) -> u64
    ensures { result ≤ 1 }
{
    u64::from(line.times != 0)
}

// How far a file is read, how many of its days or pairs agree, how many have a repeated part, and
// whether all are well written.
#[derive(Clone, Copy)]
struct Tally {
    at: usize,
    agree: u64,
    repeated: u64,
    good: bool,
}

impl Tally {
    // Before the first, which is at the place `at`.
    fn begin(at: usize) -> Tally
        ensures { result ≡ beginning at }
    {
        Tally {
            at,
            agree: 0,
            repeated: 0,
            good: true,
        }
    }

    // After the k-th, which ends at the place `end`.
    fn with(
        self,
        rt: &impl Print,
        noun: &str,
        k: u64,
        found: Result<(), Differs>,
        end: usize,
        repeats: u64,
    ) -> io::Result<Tally>
        requires { ((self.agree < 2097152) × (self.repeated < 2097152)) × (repeats ≤ 1) }
        ensures { IfOk result (λ t. t ≡ counted self found end repeats) }
    {
        let agrees = tell(rt, noun, k, found)?;
        Ok(Tally {
            at: end,
            agree: self.agree + agrees,
            repeated: self.repeated + repeats,
            good: true,
        })
    }

    // The k-th is not well written.
    fn stop(self, rt: &impl Print, noun: &str, k: u64) -> io::Result<Tally>
        ensures { IfOk result (λ t. t ≡ stopped self) }
    {
        say(rt, noun, k, "not well written")?;
        Ok(Tally {
            good: false,
            ..self
        })
    }

    // The day after k others.
    fn next(
        self,
        rt: &impl Print,
        k: u64,
        file: &[u8],
        day: &mut [u8],
        out: &mut [u8],
    ) -> io::Result<Tally>
        requires { Counted (length file.now) k self × ((length file.now ≤ 1703936) × (k < 2097152)) }
        ensures { IfOk result (λ t. Counted (length file.now) (k + 1) t) }
    {
        match Line::read(file, self.at) {
            Some(line) if line.end <= file.len() => {
                let found = one(file, line, day, out);
                self.with(rt, "day", k + 1, found, line.end, repeats(line))
            }
            _ => self.stop(rt, "day", k + 1),
        }
    }

    // The pair after k others.
    fn next_pair(self, rt: &impl Print, k: u64, file: &[u8]) -> io::Result<Tally>
        requires { Counted (length file.now) k self × ((length file.now ≤ 1703936) × (k < 2097152)) }
        ensures { IfOk result (λ t. t ≡ next_pair file.now self) }
    {
        match Pair::read(file, self.at) {
            Some(pair) if pair.end <= file.len() => {
                let found = one_pair(file, pair);
                self.with(rt, "pair", k + 1, found, pair.end, 0)
            }
            _ => self.stop(rt, "pair", k + 1),
        }
    }
}

// All days, the first of which is at the place `at`.
fn all(
    rt: &impl Print,
    file: &[u8],
    at: usize,
    count: u64,
    day: &mut [u8],
    out: &mut [u8],
) -> io::Result<Tally>
    requires { (at ≤ length file.now) × ((length file.now ≤ 1703936) × (count ≤ 2097152)) }
{
    let mut tally = Tally::begin(at);
    for k in 0..count {
        if !tally.good {
            break;
        }
        tally = tally.next(rt, k, file, day, out)?;
    }
    Ok(tally)
}

// All pairs, the first of which is at the place `at`.
fn all_pairs(rt: &impl Print, file: &[u8], at: usize, count: u64) -> io::Result<Tally>
    requires { (at ≤ length file.now) × ((length file.now ≤ 1703936) × (count ≤ 2097152)) }
    ensures { IfOk result (λ t. t ≡ pairs_from count file.now (beginning at)) }
{
    let mut tally = Tally::begin(at);
    for k in 0..count {
        if !tally.good {
            break;
        }
        tally = tally.next_pair(rt, k, file)?;
    }
    Ok(tally)
}

// Says how many agree, and whether a file of n bytes is not as its first line says: that line is
// not well written, or something follows the last day or pair, or not so many as it says have a
// repeated part.
fn finish(
    rt: &impl Print,
    noun: &str,
    tally: Tally,
    n: usize,
    repeated: Option<u64>,
) -> io::Result<()> {
    let as_said = tally.at == n && repeated == Some(tally.repeated);
    if repeated.is_none() || (tally.good && !as_said) {
        println!(rt; "{noun}s: not as its first line says")?;
    }
    println!(rt; "{} {noun}s agree", tally.agree)
}

// Room for the days, for a day or for a sheet.
fn room() -> [u8; 1703936] {
    [0; 1703936]
}

// The days, of which the first line says how many there are and how many have a repeated part.
fn run(rt: &impl Print, file: &[u8]) -> io::Result<()>
    requires { length file.now ≤ 1703936 }
{
    let Some(count) = Number::read(file, 0, b'\t', Number::MOST) else {
        return finish(rt, "day", Tally::begin(0), file.len(), None);
    };
    let repeated = Number::read(file, count.at, b'\n', Number::MOST);
    let at = file.len() - asked::after_line(file).len();
    let mut day = room();
    let mut out = room();
    let tally = all(rt, file, at, count.n, &mut day, &mut out)?;
    finish(rt, "day", tally, file.len(), repeated.map(|r| r.n))
}

// The pairs, of which the first line says how many there are.
fn run_pairs(rt: &impl Print, file: &[u8]) -> io::Result<()>
    requires { length file.now ≤ 1703936 }
{
    let Some(count) = Number::read(file, 0, b'\n', Number::MOST) else {
        return finish(rt, "pair", Tally::begin(0), file.len(), None);
    };
    let tally = all_pairs(rt, file, count.at, count.n)?;
    finish(rt, "pair", tally, file.len(), Some(0))
}

// Reads a file, and answers its length. Where it cannot be opened or fills the room, says so, and
// answers none.
fn load(rt: &(impl Files + Print), name: &str, file: &mut [u8]) -> io::Result<Option<usize>>
    ensures { IfOk result (λ read. IfSome read (λ n. n ≤ length file.new)) }
{
    let Some(n) = asked::load(rt, name, file)? else {
        println!(rt; "{name}: cannot be opened")?;
        return Ok(None);
    };
    if n >= file.len() {
        println!(rt; "{name}: too long")?;
        return Ok(None);
    }
    Ok(Some(n))
}

fn days(rt: &(impl Files + Print)) -> io::Result<()> {
    let mut file = room();
    match load(rt, "days", &mut file)? {
        Some(n) => run(rt, &file[..n]),
        None => Ok(()),
    }
}

fn pairs(rt: &(impl Files + Print)) -> io::Result<()> {
    let mut file = [0; 262144];
    match load(rt, "pairs", &mut file)? {
        Some(n) => run_pairs(rt, &file[..n]),
        None => Ok(()),
    }
}

fn main(rt: HostRuntime) -> io::Result<()> {
    days(&rt)?;
    pairs(&rt)
}
