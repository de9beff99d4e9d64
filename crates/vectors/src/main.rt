// Compares the oracle's answers, which stand in standard input, and prints for each kind of case
// how many there were and how many differ. `oracle/README.md` says how the stream is made.
#![tactic(auto)]

ghost use Rattle.vectors.specs.Count.{AddsCounts};

use cases::Kind;
use std::io::Read;
use std::ops::AddAssign;
use std::{fmt, io};

// One case more than any stream has; a longer stream counts as cut short.
const MOST: u32 = 1000000;

// What a case is, by its first byte.
#[derive(Clone, Copy)]
enum Entry {
    // 0: the stream ends here.
    End,
    // An answer of the oracle.
    Answer(Kind),
    // 255: a kind and its payload with another answer; there the program must not agree.
    Spoiled,
    // A byte that no kind has; such a case differs.
    Unknown,
}

impl From<u8> for Entry {
    fn from(number: u8) -> Entry {
        match number {
            0 => Entry::End,
            255 => Entry::Spoiled,
            _ => match Kind::try_from(number) {
                Ok(kind) => Entry::Answer(kind),
                Err(_) => Entry::Unknown,
            },
        }
    }
}

impl fmt::Display for Entry {
    fn fmt<W: fmt::Write>(&self, f: &mut fmt::Formatter<W>) -> fmt::Result {
        match self {
            Entry::End => f.pad("end"),
            Entry::Answer(kind) => kind.fmt(f),
            Entry::Spoiled => f.pad("spoiled"),
            Entry::Unknown => f.pad("no such kind"),
        }
    }
}

// A case that was read. Cases are counted by their first byte, `number`, also where no kind has it.
#[derive(Clone, Copy)]
struct Case<'a> {
    number: u8,
    entry: Entry,
    payload: &'a [u8],
}

// How many cases of a kind there were, and how many differ.
#[derive(Clone, Copy)]
struct Count {
    cases: u64,
    differ: u64,
}

impl Count {
    const NONE: Count = Count {
        cases: 0,
        differ: 0,
    };
}

// Modulo 2^64, which no stream reaches, so that no bound has to be carried.
impl AddAssign for Count {
    ghost add_assign_gives = { AddsCounts };

    fn add_assign(&mut self, more: Count) {
        self.cases = self.cases.wrapping_add(more.cases);
        self.differ = self.differ.wrapping_add(more.differ);
    }
}

impl fmt::Display for Count {
    fn fmt<W: fmt::Write>(&self, f: &mut fmt::Formatter<W>) -> fmt::Result {
        write!(f, "{} cases, {} differ", self.cases, self.differ)
    }
}

// What ended the comparison.
#[derive(Clone, Copy)]
enum Ending {
    // The case that ends the stream, with the right number of cases.
    Complete,
    // That case with another number.
    OtherNumber,
    // The input, before that case.
    CutShort,
}

impl fmt::Display for Ending {
    fn fmt<W: fmt::Write>(&self, f: &mut fmt::Formatter<W>) -> fmt::Result {
        f.write_str(match self {
            Ending::Complete => "the stream is complete",
            Ending::OtherNumber => "the stream says another number of cases",
            Ending::CutShort => "the stream is cut short",
        })
    }
}

// Reads a case; none where the input ended in it, or where it is longer than any case. A read that fails
// counts as the end of the input.
fn next<'a, R: Read>(from: &mut R, buffer: &'a mut [u8]) -> Option<Case<'a>> {
    let mut head = [0u8; 4];
    from.read_exact(&mut head).ok()?;
    let length = u32::from_le_bytes([head[1], head[2], head[3], 0]) as usize;
    let payload = buffer.get_mut(..length)?;
    from.read_exact(payload).ok()?;
    Some(Case {
        number: head[0],
        entry: Entry::from(head[0]),
        payload,
    })
}

// Whether the program's answer to a case is the oracle's: below 60 the stand-ins, from there on the calls.
fn agrees(number: u8, p: &[u8]) -> bool {
    if number < 60 {
        return standin_cases::agrees(number, p);
    }
    call_cases::agrees(number, p)
}

// Of a spoiled case.
fn disagrees(p: &[u8]) -> bool {
    match p.split_first() {
        None | Some((0, _)) => false,
        Some((number, rest)) => !agrees(*number, rest),
    }
}

fn holds(case: &Case) -> bool {
    match case.entry {
        Entry::Spoiled => disagrees(case.payload),
        Entry::End | Entry::Answer(_) | Entry::Unknown => agrees(case.number, case.payload),
    }
}

fn compare_all<R: Read>(from: &mut R, counts: &mut [Count; 256]) -> Ending {
    let mut buffer = [0u8; 140000];
    for done in 0..MOST {
        let Some(case) = next(from, &mut buffer) else {
            return Ending::CutShort;
        };
        if let Entry::End = case.entry {
            if cases::bits(case.payload, 0) == u64::from(done) {
                return Ending::Complete;
            }
            return Ending::OtherNumber;
        }
        let differ = u64::from(!holds(&case));
        counts[usize::from(case.number)] += Count { cases: 1, differ };
    }
    Ending::CutShort
}

// ---- what the program prints

// A line for each kind that the stream has, and the sum.
fn report_all(rt: &impl Print, counts: &[Count; 256]) -> io::Result<()> {
    let mut all = Count::NONE;
    for number in 1..=255u8 {
        let count = counts[usize::from(number)];
        if count.cases != 0 {
            println!(rt; "{:20}: {}", Entry::from(number), count)?;
        }
        all += count;
    }
    println!(rt; "in all: {all}")
}

fn main(rt: HostRuntime) -> io::Result<()> {
    let mut counts = [Count::NONE; 256];
    let ending = compare_all(&mut rt.stdin(), &mut counts);
    report_all(&rt, &counts)?;
    println!(rt; "{ending}")
}
