// What the program writes: a line for each directed case, and a row for each family.
use std::io::Write;
use std::{fmt, io};

// The names of the families, each as wide as its column, so that it goes out in one write.
const NAMES: [&str; 48] = [
    "ADD     ", "OR      ", "ADC     ", "SBB     ", "AND     ", "SUB     ", "XOR     ", "CMP     ",
    "TEST    ", "NOT     ", "NEG     ", "MUL     ", "IMUL    ", "DIV     ", "IDIV    ", "INC     ",
    "DEC     ", "CONVERT ", "MOV     ", "MOVZX   ", "MOVSX   ", "LEA     ", "XCHG    ", "PUSH    ",
    "POP     ", "SHL     ", "SHR     ", "SAR     ", "Jcc     ", "SETcc   ", "JMP     ", "CALL    ",
    "RET     ", "LOOP    ", "FLAGS   ", "LAHF    ", "INT     ", "HLT     ", "FAULT6  ", "UNBUILT ",
    "MARKS   ", "ORDER   ", "WRAP    ", "LENGTH  ", "RECORD  ", "MAPS    ", "RUN     ", "AUDIT   ",
];

// The name of a family.
fn name<W: Write>(out: &mut W, family: u8) -> io::Result<()> {
    match NAMES.get(usize::from(family)) {
        Some(name) => out.write_all(name.as_bytes()),
        None => Ok(()),
    }
}

#[derive(Clone, Copy)]
struct Row {
    cases: u32,
    differing: u32,
    first: u32,
}

impl Row {
    fn count(&mut self, same: bool) {
        if !same {
            if self.differing == 0 {
                self.first = self.cases;
            }
            self.differing = self.differing.wrapping_add(1);
        }
        self.cases = self.cases.wrapping_add(1);
    }
}

impl fmt::Display for Row {
    fn fmt<W: fmt::Write>(&self, f: &mut fmt::Formatter<W>) -> fmt::Result {
        let Row {
            cases,
            differing,
            first,
        } = *self;
        let agreed = cases.wrapping_sub(differing);
        write!(f, "cases {cases}, agreed {agreed}, differing {differing}")?;
        if differing != 0 {
            write!(f, ", first at case {first}")?;
        }
        Ok(())
    }
}

const FRESH: Row = Row {
    cases: 0,
    differing: 0,
    first: 0,
};

// The family that is being counted, its row, and the total.
#[derive(Clone, Copy)]
pub struct Tally {
    family: u8,
    row: Row,
    all: Row,
}

impl Tally {
    pub fn new() -> Tally {
        Tally {
            family: 0,
            row: FRESH,
            all: FRESH,
        }
    }

    fn print<W: Write>(&self, out: &mut W) -> io::Result<()> {
        name(out, self.family)?;
        let row = self.row;
        writeln!(out, " {row}")
    }

    // The next case is of this family. The row of another one is written, and a new one begun.
    pub fn turn<W: Write>(&mut self, out: &mut W, family: u8) -> io::Result<()> {
        if family != self.family {
            self.print(out)?;
            self.family = family;
            self.row = FRESH;
        }
        Ok(())
    }

    pub fn count(&mut self, same: bool) {
        self.row.count(same);
        self.all.count(same);
    }

    // Writes the last row, and the total.
    pub fn end<W: Write>(&self, out: &mut W) -> io::Result<()> {
        self.print(out)?;
        let Row {
            cases,
            differing,
            ..
        } = self.all;
        writeln!(out, "in all   cases {cases}, differing {differing}")
    }
}

// A directed case's line. Its rule stands from byte 22 on of what it asks.
pub fn line<W: Write>(out: &mut W, family: u8, asks: &[u8], same: bool) -> io::Result<()> {
    name(out, family)?;
    let verdict = if same { " agrees: " } else { " DIFFERS: " };
    out.write_all(verdict.as_bytes())?;
    if let Some(rule) = asks.get(22..) {
        out.write_all(rule)?;
    }
    writeln!(out)
}
