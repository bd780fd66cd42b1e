// The table of what each pass did.
use crate::row::Row;
use std::io;
use std::io::Write;

// The passes, below a heading.
pub fn print<W: Write>(out: &mut W, rows: &[Row]) -> io::Result<()> {
    write!(
        out,
        "\n                                                    frames changed\npass  edits  jitter  changed  sent  bytes   steps   own  marks  other  audit before, after\n"
    )?;
    for (i, row) in rows.iter().enumerate() {
        row.print(out, i + 1)?;
    }
    Ok(())
}
