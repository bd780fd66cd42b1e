// One pass, and the log of it.
use crate::ask::Ask;
use crate::files;
use crate::order::Order;
use frames::Copies;
use machine::Cpu;
use pass::Station;
use report::Log;
use std::env::Env;
use std::io;
use std::io::Write;
use std::rt::Files;

// Copies memory, and says so where the copies do not fit.
pub fn remembered<'c, R: Env + Files, E: Write>(
    ask: &mut Ask<'_, R, E>,
    mem: &[u8],
    room: &'c mut [u8],
) -> io::Result<Option<Copies<'c>>> {
    let copies = Copies::remember(mem, room);
    if copies.is_none() {
        ask.complain_at_all("more than 960 frames of memory are not blank; give a smaller memory")?;
    }
    Ok(copies)
}

fn one_pass<W: Write>(
    out: &mut W,
    mem: &mut [u8],
    copies: &Copies<'_>,
    c: Cpu,
    o: Order,
) -> io::Result<()> {
    let voice = o.voice;
    let known = waypoints::has_records(mem);
    let mut log = Log {
        out: &mut *out,
        voice,
        mem: &*mem,
    };
    log.before(c)?;
    let mut station = Station {
        out: &mut *out,
        voice,
        ground: None,
    };
    let passed = station.play(mem, c, o.budget)?;
    let mut log = Log { out, voice, mem };
    log.after(copies, passed)?;
    if known {
        log.records(copies)?;
    }
    Ok(())
}

// Runs the guest for one pass. Nothing is written before all that was given is found good.
pub fn run<R: Env + Files, W: Write, E: Write>(
    ask: &mut Ask<'_, R, E>,
    out: &mut W,
    mem: &mut [u8],
    room: &mut [u8],
    o: Order,
) -> io::Result<()> {
    let Some(ready) = files::prepare(ask, mem, o)? else {
        return Ok(());
    };
    // By reference: the copies' numbers take four kibibytes of the stack wherever they are moved to.
    let found = remembered(ask, mem, room);
    let Ok(Some(copies)) = &found else {
        return found.map(|_| ());
    };
    report::heading(out, o.voice, ready.bytes, o.load, o.size, o.budget)?;
    one_pass(out, mem, copies, ready.cpu, o)
}
