// Runs each case of data/cases and data/directed through the public calls, compares reply, record and memory, and writes a table by family
// with a line for each directed case. docs/VECTORS.md says where the results come from.
// A read or a write that fails ends it with status 1.
#![tactic(auto)]

mod asking;
mod memory;
mod reading;
mod report;
mod results;

use asking::{Ask, Call};
use memory::Memory;
use report::Tally;
use std::fs::File;
use std::io;
use std::io::{ErrorKind, Read, Write};
use std::rt::Files;

// The longest part of a file.
const PART: usize = 256;

// Reads all of b. False where the input ends before.
fn fill<R: Read>(from: &mut R, b: &mut [u8]) -> io::Result<bool> {
    match from.read_exact(b) {
        Ok(()) => Ok(true),
        Err(e) => {
            if e.kind() == ErrorKind::UnexpectedEof {
                return Ok(false);
            }
            Err(e)
        }
    }
}

// Reads a part: a byte that says how long it is, and then the part. None at the end, which an empty part is too.
fn next<'a, R: Read>(from: &mut R, room: &'a mut [u8; PART]) -> io::Result<Option<&'a [u8]>> {
    let mut head = [0u8; 1];
    if !fill(from, &mut head)? {
        return Ok(None);
    }
    let n = usize::from(head[0]);
    if !fill(from, &mut room[..n])? {
        return Ok(None);
    }
    Ok(if n == 0 { None } else { Some(&room[..n]) })
}

// Both memories, clear between two cases: the machine's, and the one that it is compared with.
#[derive(Drop)]
struct Tried<'a> {
    mem: &'a mut Memory,
    want: &'a mut Memory,
}

impl Tried<'_> {
    // One case: laid in memory, called, and all that it left compared; both memories are clear again afterwards.
    fn agrees(&mut self, case: &[u8], a: Ask) -> bool {
        let mut at = memory::lay(self.mem, case);
        let was = asking::record(case, a.control);
        let r = asking::answered(a, was, self.mem);
        let same = results::agrees(&mut at, a, was, r);
        same & memory::is_left(case, at, self.mem, self.want)
    }

    // A generated case, by a step and by a run of one. After every 64th all memory must be clear again; a byte that is not counts against
    // that case.
    fn generated(&mut self, turn: u32, case: &[u8]) -> bool {
        let stepped = self.agrees(case, asking::generated(case, Call::Step));
        let ran = self.agrees(case, asking::generated(case, Call::Lone));
        let clean = turn % 64 != 63 || memory::swept(self.mem);
        clean & stepped & ran
    }

    // A directed case; after each one all memory must be clear again.
    fn directed(&mut self, asks: &[u8], case: &[u8]) -> bool {
        let same = self.agrees(case, asking::directed(asks));
        memory::swept(self.mem) & same
    }
}

// Counts the generated cases of a file.
fn generated<W: Write, R: Read>(
    out: &mut W,
    from: &mut R,
    tally: &mut Tally,
    tried: &mut Tried<'_>,
) -> io::Result<()> {
    for turn in 0..65536u32 {
        let mut room = [0u8; PART];
        let Some(case) = next(from, &mut room)? else {
            return Ok(());
        };
        let same = tried.generated(turn, case);
        tally.turn(out, cells::get(case, 0, 0))?;
        tally.count(same);
    }
    Ok(())
}

// Counts the directed cases of a file, and tells each. What a case asks, with its rule, stands before it.
fn directed<W: Write, R: Read>(
    out: &mut W,
    from: &mut R,
    tally: &mut Tally,
    tried: &mut Tried<'_>,
) -> io::Result<()> {
    for _ in 0..65536u32 {
        let mut before = [0u8; PART];
        let mut room = [0u8; PART];
        let Some((asks, case)) = next(from, &mut before)?.zip(next(from, &mut room)?) else {
            return Ok(());
        };
        let same = tried.directed(asks, case);
        let family = cells::get(case, 0, 0);
        tally.turn(out, family)?;
        report::line(out, family, asks, same)?;
        tally.count(same);
    }
    Ok(())
}

// Opens a file of cases. Where it cannot be opened, that is said, and nothing is counted.
fn open<R: Files, E: Write>(rt: &R, err: &mut E, path: &str) -> io::Result<Option<R::File>> {
    match File::open(rt, path) {
        Ok(cases) => Ok(Some(cases)),
        Err(e) => {
            write!(err, "{path}: ")?;
            text::reason(err, e)?;
            writeln!(err)?;
            Ok(None)
        }
    }
}

// Both files over one memory: the first directed case shows what the last generated ones left.
fn run(rt: &HostRuntime, mem: &mut Memory, want: &mut Memory) -> io::Result<()> {
    let mut out = rt.stdout();
    let mut err = rt.stderr();
    let mut tried = Tried { mem, want };
    let mut tally = Tally::new();
    if let Some(mut cases) = open(rt, &mut err, "cases")? {
        generated(&mut out, &mut cases, &mut tally, &mut tried)?;
    }
    if let Some(mut cases) = open(rt, &mut err, "directed")? {
        directed(&mut out, &mut cases, &mut tally, &mut tried)?;
    }
    tally.end(&mut out)
}

fn main(rt: HostRuntime) -> io::Result<()> {
    let mut mem = [0u8; 32768];
    let mut want = [0u8; 32768];
    run(&rt, &mut mem, &mut want)
}
