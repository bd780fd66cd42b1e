// What a pass did, and what it cost.
use journal::{Short, Tally};
use machine::Reply;
use pass::Done;
use std::io;
use std::io::Write;

// What is known before a pass: the edits, the lines of noise, and how many waypoints the ground has otherwise.
#[derive(Clone, Copy, Default)]
pub struct Due {
    pub edits: u32,
    pub jitters: u32,
    pub changed: u32,
}

// That, what the guest did in the pass, the frames that were changed, and what the audits before and after it said.
#[derive(Clone, Copy)]
pub struct Row {
    pub due: Due,
    pub done: Done,
    pub frames: Tally,
    pub before: Reply,
    pub after: Reply,
}

// Stays: an answer of the machine has no default that means anything; this is what a list of rows has where no row is yet.
impl Default for Row {
    fn default() -> Row {
        Row {
            due: Due::default(),
            done: Done::default(),
            frames: Tally::default(),
            before: Reply::Done,
            after: Reply::Done,
        }
    }
}

impl Row {
    // A line of the table.
    pub fn print<W: Write>(&self, out: &mut W, pass: usize) -> io::Result<()> {
        let Row {
            due,
            done,
            frames,
            before,
            after,
        } = *self;
        write!(
            out,
            "{pass:>4}{:>7}{:>8}{:>9}",
            due.edits, due.jitters, due.changed
        )?;
        write!(out, "{:>6}{:>7}{:>8}", done.sent, done.bytes, done.steps)?;
        write!(
            out,
            "{:>6}{:>7}{:>7}",
            frames.own, frames.marks, frames.other
        )?;
        writeln!(out, "  {}, {}", Short(before), Short(after))
    }

    // What the guest did and what was seen after it, as `key=value` lines.
    pub fn lines<W: Write>(&self, out: &mut W) -> io::Result<()> {
        let Row {
            done,
            frames,
            before,
            after,
            ..
        } = *self;
        write!(
            out,
            "sent={}\nbytes={}\nsteps={}\n",
            done.sent, done.bytes, done.steps
        )?;
        write!(
            out,
            "frames.own={}\nframes.marks={}\nframes.other={}\n",
            frames.own, frames.marks, frames.other
        )?;
        write!(
            out,
            "audit_before={}\naudit_after={}\n",
            journal::number(before),
            journal::number(after)
        )
    }
}

// What the passes sent in all, and of how many bytes.
pub fn sent(rows: &[Row]) -> u32 {
    rows.iter()
        .fold(0u32, |sum, row| sum.wrapping_add(row.done.sent))
}

pub fn bytes(rows: &[Row]) -> u32 {
    rows.iter()
        .fold(0u32, |sum, row| sum.wrapping_add(row.done.bytes))
}
