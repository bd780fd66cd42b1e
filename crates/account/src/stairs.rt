// The bill as a staircase: what was paid before, and on top what each pass added. A pass that adds nothing is a landing.
use crate::row;
use crate::row::Row;
use std::io;
use std::io::Write;

// The widest bar.
const WIDTH: u32 = 48;

// How long the bar for n of total waypoints is: one sign each, or less where they would not fit.
fn bar(n: u32, total: u32) -> u32 {
    if total <= WIDTH {
        return n;
    }
    let x = u64::from(n) * 48 / u64::from(total);
    if x < 48 { x as u32 } else { WIDTH }
}

// So many signs are written, at most 64.
fn signs(n: u32) -> usize {
    n.min(64) as usize
}

// One step, from what was sent in all up to this pass, and of how many bytes.
fn step<W: Write>(
    out: &mut W,
    pass: usize,
    row: &Row,
    sent: u32,
    bytes: u32,
    total: u32,
) -> io::Result<()> {
    let new = bar(row.done.sent, total);
    let before = signs(bar(sent, total).saturating_sub(new));
    let new = signs(new);
    write!(out, "{pass:>4}{bytes:>8}  |{:-<before$}{:#<new$}", "", "")
}

// One step a pass. The last one says whether it is a landing.
pub fn print<W: Write>(out: &mut W, rows: &[Row], landed: bool) -> io::Result<()> {
    let total = row::sent(rows);
    write!(out, "\npass   bytes  - paid before  # this pass\n")?;
    let mut sent = 0u32;
    let mut bytes = 0u32;
    for (i, row) in rows.iter().enumerate() {
        sent = sent.wrapping_add(row.done.sent);
        bytes = bytes.wrapping_add(row.done.bytes);
        step(out, i + 1, row, sent, bytes, total)?;
        if (i + 1 == rows.len()) & landed {
            write!(out, "  landing: nothing left to send")?;
        }
        writeln!(out)?;
    }
    Ok(())
}
