// The log of a pass: what the audit said, what the guest did, how it ended, the record, and the frames that changed.
// A call that answers Ok has written all of its text; where the writer failed, it may have written the start of it.
#![tactic(auto)]

use frames::Copies;
use journal::{Tally, Voice};
use machine::{Cpu, Reply};
use pass::{Done, Passed};
use std::io;
use std::io::Write;
use text::Counted;

// Where the log is written, how, and the memory that it speaks of.
#[derive(Drop)]
pub struct Log<'o, 'm, W> {
    pub out: &'o mut W,
    pub voice: Voice,
    pub mem: &'m [u8],
}

impl<W: Write> Log<'_, '_, W> {
    // A reply under its label, or under its key.
    fn answer(&mut self, c: Cpu, q: Reply, key: &str, label: &str) -> io::Result<()> {
        match self.voice {
            Voice::Words => {
                write!(self.out, "  {label:<14}")?;
                journal::explained(self.out, self.mem, c.control, q)?;
                writeln!(self.out)
            }
            Voice::Plain => journal::reply_lines(self.out, key, q),
            Voice::Silent => Ok(()),
        }
    }

    // What ended a pass.
    pub fn reply(&mut self, c: Cpu, q: Reply) -> io::Result<()> {
        self.answer(c, q, "reply", "reply")
    }

    fn work(&mut self, done: Done) -> io::Result<()> {
        let Done { steps, sent, bytes } = done;
        match self.voice {
            Voice::Words => {
                let waypoints = Counted(sent, "waypoint");
                let bytes = Counted(bytes, "byte");
                writeln!(self.out, "  sent          {waypoints}, {bytes}")?;
                writeln!(self.out, "  steps Done    {steps}")
            }
            Voice::Plain => write!(self.out, "sent={sent}\nbytes={bytes}\nsteps={steps}\n"),
            Voice::Silent => Ok(()),
        }
    }

    fn tally(&mut self, t: Tally) -> io::Result<()> {
        let Tally { own, marks, other } = t;
        match self.voice {
            Voice::Words => writeln!(
                self.out,
                "  frames        {own} the user's own, {marks} marks alone, {other} other"
            ),
            Voice::Plain => write!(
                self.out,
                "frames.own={own}\nframes.marks={marks}\nframes.other={other}\n"
            ),
            Voice::Silent => Ok(()),
        }
    }

    // Are the kernel's records as they were before the pass?
    pub fn records(&mut self, copies: &Copies<'_>) -> io::Result<()> {
        let same = copies.is_same(self.mem, waypoints::RECORDS / 4096);
        match self.voice {
            Voice::Words => {
                let became = if same {
                    "are untouched"
                } else {
                    "were CHANGED"
                };
                writeln!(
                    self.out,
                    "  records       the kernel's records at 00004000 {became}"
                )
            }
            Voice::Plain => writeln!(self.out, "records.untouched={}", u32::from(same)),
            Voice::Silent => Ok(()),
        }
    }

    fn record(&mut self, c: Cpu) -> io::Result<()> {
        match self.voice {
            Voice::Words => journal::cpu_table(self.out, c),
            Voice::Plain => journal::cpu_lines(self.out, c),
            Voice::Silent => Ok(()),
        }
    }

    // All that is told after a pass, but for the records: what it ended with, and what it sent.
    pub fn after(&mut self, copies: &Copies<'_>, passed: Passed) -> io::Result<()> {
        let c = passed.cpu;
        self.work(passed.done)?;
        self.reply(c, passed.reply)?;
        self.answer(c, micro32::audit(c, self.mem), "audit_after", "audit after")?;
        self.record(c)?;
        let t = journal::frames(self.out, self.voice, self.mem, c.control, copies)?;
        self.tally(t)
    }

    // What the audit says before a pass.
    pub fn before(&mut self, c: Cpu) -> io::Result<()> {
        self.answer(
            c,
            micro32::audit(c, self.mem),
            "audit_before",
            "audit before",
        )
    }
}

// The first line: what was put where, and the budget.
pub fn heading<W: Write>(
    out: &mut W,
    voice: Voice,
    bytes: usize,
    load: u32,
    size: u32,
    budget: u32,
) -> io::Result<()> {
    match voice {
        Voice::Words => writeln!(
            out,
            "pass 1: {bytes} bytes at {load:08X} in a memory of {size} bytes, at most {budget} steps"
        ),
        Voice::Plain => writeln!(out, "pass=1"),
        Voice::Silent => Ok(()),
    }
}
