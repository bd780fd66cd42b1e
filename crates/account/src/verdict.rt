// What the passes came to: a pass that sent more than it should, the total, and whether the ground has the cabin's plan.
use crate::row;
use crate::row::Row;
use std::io;
use std::io::Write;
use text::Counted;

// A pass that did not send just what had changed; at worst the whole plan although nothing had.
fn warn<W: Write>(out: &mut W, pass: usize, row: &Row, waypoints: u32) -> io::Result<()> {
    let Row { due, done, .. } = *row;
    if done.sent == due.changed {
        return Ok(());
    }
    let sent = Counted(done.sent, "waypoint");
    if (due.changed == 0) & (done.sent == waypoints) {
        let bytes = Counted(done.bytes, "byte");
        let noise = if due.jitters == 0 {
            ""
        } else {
            " for noise in the last bit"
        };
        writeln!(
            out,
            "pass {pass} sent the whole plan although nothing changed: {sent}, {bytes}{noise}"
        )
    } else {
        let changed = due.changed;
        writeln!(out, "pass {pass} sent {sent} where {changed} had changed")
    }
}

fn total<W: Write>(out: &mut W, rows: &[Row]) -> io::Result<()> {
    let sent = Counted(row::sent(rows), "waypoint");
    let bytes = Counted(row::bytes(rows), "byte");
    let passes = rows.len();
    writeln!(out, "total: {sent}, {bytes} in {passes} passes")
}

fn ground<W: Write>(out: &mut W, differing: u32, waypoints: u32) -> io::Result<()> {
    if differing == 0 {
        write!(out, "the ground's plan agrees with the cabin's in all ")?;
    } else {
        write!(
            out,
            "the ground's plan differs from the cabin's in {differing} of "
        )?;
    }
    writeln!(out, "{waypoints} waypoints (last bit aside)")
}

pub fn lines<W: Write>(out: &mut W, rows: &[Row], differing: u32, landed: bool) -> io::Result<()> {
    writeln!(out, "total.passes={}", rows.len())?;
    writeln!(out, "total.sent={}", row::sent(rows))?;
    writeln!(out, "total.bytes={}", row::bytes(rows))?;
    writeln!(out, "ground.differing={differing}")?;
    writeln!(out, "landing={}", u32::from(landed))
}

pub fn print<W: Write>(
    out: &mut W,
    rows: &[Row],
    waypoints: u32,
    differing: u32,
) -> io::Result<()> {
    writeln!(out)?;
    for (i, row) in rows.iter().enumerate() {
        warn(out, i + 1, row, waypoints)?;
    }
    total(out, rows)?;
    ground(out, differing, waypoints)
}
