// The bill: what each pass did, what it cost, and what all came to.
// A call that answers Ok has written all of its text; where the writer failed, it may have written the start of it.
#![tactic(auto)]

mod row;
mod stairs;
mod table;
mod verdict;

use journal::Voice;
pub use row::{Due, Row};
use std::io;
use std::io::Write;
use text::Counted;

// The rows of the passes so far: there is room for as many as edits can name, and one more.
// Stays: an array with how many of it are rows, since the type has Copy, as before the design pass, and arrayvec's list has none.
#[derive(Clone, Copy)]
pub struct Rows {
    passes: [Row; 64],
    count: usize,
}

impl Rows {
    pub fn new() -> Rows {
        Rows {
            passes: [Row::default(); 64],
            count: 0,
        }
    }

    // The row of the pass that has been played, below the others. Where there is no room it is left out.
    pub fn add(&mut self, row: Row) {
        if self.count < self.passes.len() {
            self.passes[self.count] = row;
            self.count += 1;
        }
    }

    fn all(&self) -> &[Row] {
        &self.passes[..self.count.min(64)]
    }

    // Table and staircase up to a pass that the guest did not end by itself.
    pub fn break_off<W: Write>(&self, out: &mut W) -> io::Result<()> {
        let rows = self.all();
        table::print(out, rows)?;
        stairs::print(out, rows, false)?;
        let pass = rows.len();
        writeln!(
            out,
            "\nthe bill ends in pass {pass}, which the guest did not end by itself"
        )
    }

    // The whole bill, for a plan of so many waypoints, where the ground has so many of them otherwise than the cabin.
    pub fn sum_up<W: Write>(
        &self,
        out: &mut W,
        voice: Voice,
        waypoints: u32,
        differing: u32,
    ) -> io::Result<()> {
        let rows = self.all();
        let landed = rows.last().is_some_and(|row| row.done.sent == 0) & (differing == 0);
        match voice {
            Voice::Words => {
                table::print(out, rows)?;
                stairs::print(out, rows, landed)?;
                verdict::print(out, rows, waypoints, differing)
            }
            Voice::Plain => verdict::lines(out, rows, differing, landed),
            Voice::Silent => Ok(()),
        }
    }
}

// The heading of a pass.
pub fn begin<W: Write>(out: &mut W, voice: Voice, pass: u32, due: Due) -> io::Result<()> {
    let Due {
        edits,
        jitters,
        changed,
    } = due;
    match voice {
        Voice::Words => {
            let noise = if jitters == 0 {
                ""
            } else {
                ", noise in every last bit"
            };
            writeln!(out, "pass {pass}: {}{noise}", Counted(edits, "edit"))
        }
        Voice::Plain => write!(
            out,
            "pass={pass}\nedits={edits}\njitters={jitters}\nchanged={changed}\n"
        ),
        Voice::Silent => Ok(()),
    }
}

// What a pass did, for a script; a person reads it in the table.
pub fn end<W: Write>(out: &mut W, voice: Voice, row: Row) -> io::Result<()> {
    match voice {
        Voice::Plain => row.lines(out),
        Voice::Words | Voice::Silent => Ok(()),
    }
}
