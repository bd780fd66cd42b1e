// What the log's sentences share: a count of something, and what the system says of an error.
#![tactic(auto)]

ghost use Rattle.std.specs.Prelude.{◌++◌, ◌==◌, if◌then◌else◌, [], Some, codes, decimal};

use arrayvec::ArrayVec;
use std::io::Write;
use std::{fmt, io};

// So many of something, whose name takes an s unless there is one of it: `1 byte`, `2 bytes`.
#[derive(Clone, Copy)]
pub struct Counted<'a>(pub u32, pub &'a str);

impl fmt::Display for Counted<'_> {
    ghost output = { λ c. Some (decimal c.0 ++ codes " " ++ c.1.now ++ (if c.0 == 1 then [] else codes "s")) };

    fn fmt<W: fmt::Write>(&self, f: &mut fmt::Formatter<W>) -> fmt::Result {
        let Counted(n, name) = *self;
        let s = if n == 1 { "" } else { "s" };
        write!(f, "{n} {name}{s}")
    }
}

// What the system says of an error, without the error's number, and at most 128 bytes of it.
pub fn reason<W: Write>(out: &mut W, e: io::Error) -> io::Result<()> {
    let mut words: ArrayVec<u8, 128> = ArrayVec::new();
    let _ = write!(words, "{e}");
    let all = words.as_slice();
    let number = all.windows(11).position(|w| w == b" (os error ".as_slice());
    out.write_all(&all[..number.unwrap_or(all.len())])
}
