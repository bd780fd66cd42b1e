// The program's arguments, and sentences about them. All that is said here goes to err, the standard error.
use std::env::{Env, FillError};
use std::fmt::Display;
use std::fs::File;
use std::io;
use std::io::{ErrorKind, Write};
use std::rt::Files;

// The longest argument that is taken.
const LONGEST: usize = 4096;

// The arguments, each by its place after the program's name.
#[derive(Clone, Copy)]
pub enum Argument {
    Command = 1,
    Image = 2,
    Load = 3,
    Record = 4,
    Budget = 5,
    Size = 6,
    Edits = 7,
}

// Argument i, read to the start of b. Where there is none, or where it is longer than b, it is empty.
fn argument_at<'b, R: Env>(rt: &R, i: usize, b: &'b mut [u8]) -> &'b [u8] {
    match rt.arg(i, b) {
        Ok(n) => &b[..n],
        Err(_) => &b[..0],
    }
}

fn is_there<R: Env>(rt: &R, i: usize) -> bool {
    let mut b = [0u8; LONGEST];
    match rt.arg(i, &mut b) {
        Ok(_) | Err(FillError::TooLong) => true,
        Err(FillError::NotPresent) => false,
    }
}

// The file of that name. A name that is not UTF-8 is none of the system's here.
fn file_of<R: Files>(rt: &R, name: &[u8]) -> io::Result<R::File> {
    match std::str::from_utf8(name) {
        Ok(path) => File::open(rt, path),
        Err(_) => Err(io::Error::from(ErrorKind::InvalidFilename)),
    }
}

// Who asks: the arguments come from rt, and what is wrong with them is said on err.
#[derive(Drop)]
pub struct Ask<'a, R, E> {
    pub rt: &'a R,
    pub err: &'a mut E,
}

impl<R: Env + Files, E: Write> Ask<'_, R, E> {
    // How many arguments there are, the program's name among them.
    pub fn count(&self) -> usize {
        for i in 0..usize::MAX {
            if !is_there(self.rt, i) {
                return i;
            }
        }
        usize::MAX
    }

    pub fn is(&self, i: usize, word: &str) -> bool {
        let mut b = [0u8; LONGEST];
        argument_at(self.rt, i, &mut b) == word.as_bytes()
    }

    pub fn number(&self, a: Argument) -> Option<u32> {
        let mut b = [0u8; LONGEST];
        given::number_of(argument_at(self.rt, a as usize, &mut b))
    }

    // Opens the file that an argument names, and says why where it cannot.
    pub fn open(&mut self, a: Argument) -> io::Result<Option<R::File>> {
        let mut b = [0u8; LONGEST];
        match file_of(self.rt, argument_at(self.rt, a as usize, &mut b)) {
            Ok(file) => Ok(Some(file)),
            Err(e) => {
                self.begin(a)?;
                text::reason(self.err, e)?;
                writeln!(self.err)?;
                Ok(None)
            }
        }
    }

    // The start of a sentence: the program, and the argument that is wrong.
    pub fn begin(&mut self, a: Argument) -> io::Result<()> {
        let mut b = [0u8; LONGEST];
        let name = argument_at(self.rt, a as usize, &mut b);
        write!(self.err, "gateway: ")?;
        self.err.write_all(name)?;
        write!(self.err, ": ")
    }

    pub fn complain<D: Display + Drop>(&mut self, a: Argument, what: D) -> io::Result<()> {
        self.begin(a)?;
        writeln!(self.err, "{what}")
    }

    // A sentence about line n of the file that an argument names.
    pub fn complain_of_line(&mut self, a: Argument, n: u32, what: &str) -> io::Result<()> {
        self.complain(a, format_args!("line {n}: {what}"))
    }

    pub fn complain_at_all(&mut self, what: &str) -> io::Result<()> {
        writeln!(self.err, "gateway: {what}")
    }
}
