// The frames that a pass changed, each with the right by which it was changed.
use frames::{Copies, Kind};
use machine::Control;
use std::io;
use std::io::Write;

// How many frames were changed, by kind.
#[derive(Clone, Copy, Default)]
pub struct Tally {
    pub own: u32,
    pub marks: u32,
    pub other: u32,
}

impl Tally {
    fn count(&mut self, k: Kind) {
        let n = match k {
            Kind::Same => return,
            Kind::Own => &mut self.own,
            Kind::Marks => &mut self.marks,
            Kind::Kernel | Kind::Neither => &mut self.other,
        };
        *n = n.wrapping_add(1);
    }
}

// How a pass is told: to a person, to a script, or not at all.
#[derive(Clone, Copy, PartialEq, Eq)]
pub enum Voice {
    Words,
    Plain,
    Silent,
}

// A kind of change in one word for a script, and in words for a person; a frame that is the same has none.
fn named(k: Kind) -> Option<(&'static str, &'static str)> {
    match k {
        Kind::Same => None,
        Kind::Own => Some(("own", "the user's own: a page that its maps let it write")),
        Kind::Marks => Some((
            "marks",
            "accessed and dirty marks alone, in the directory or a table",
        )),
        Kind::Kernel => Some(("kernel", "the kernel's: written in ring 0")),
        Kind::Neither => Some((
            "neither",
            "neither: no page that the user may write leads here",
        )),
    }
}

fn tell<W: Write>(out: &mut W, v: Voice, at: u32, k: Kind) -> io::Result<()> {
    let Some((word, words)) = named(k) else {
        return Ok(());
    };
    match v {
        Voice::Words => writeln!(out, "  frame {at:08X}  {words}"),
        Voice::Plain => writeln!(out, "frame.{at:08X}={word}"),
        Voice::Silent => Ok(()),
    }
}

// Every frame that differs from its copy.
pub fn frames<W: Write>(
    out: &mut W,
    v: Voice,
    mem: &[u8],
    c: Control,
    copies: &Copies<'_>,
) -> io::Result<Tally> {
    let mut tally = Tally::default();
    for f in 0..1024 {
        let k = copies.kind_of(mem, c, f);
        tell(out, v, f * 4096, k)?;
        tally.count(k);
    }
    Ok(tally)
}
