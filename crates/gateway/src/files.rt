// The files that an order names, read whole; a sentence where one cannot be used.
ghost use Rattle.std.specs.Prelude.{◌≤◌, IfOk, IfSome, length};

use crate::ask::{Argument, Ask};
use crate::order::Order;
use given::Flaw;
use machine::Cpu;
use std::env::Env;
use std::io;
use std::io::{Read, Write};
use std::rt::Files;

// The longest record or list of edits.
pub const TEXT: usize = 16384;

// A machine that is ready to run, with an image of so many bytes.
#[derive(Clone, Copy)]
pub struct Ready {
    pub cpu: Cpu,
    pub bytes: usize,
}

// Reads until b is full or the file ends, and answers how many bytes stand at b's start. A file of which nothing can be read counts as empty.
fn fill<R: Read>(file: &mut R, b: &mut [u8]) -> io::Result<usize>
    ensures { IfOk result (λ n. n ≤ length b.new) }
{
    let mut done: usize = 0;
    // Stays: a read gives as many bytes as it likes, so no range counts the reads, and `read_to_end` wants a heap.
    while done < b.len() {
        match file.read(&mut b[done..]) {
            Ok(0) => return Ok(done),
            Ok(n) => done += n,
            Err(e) => return if done == 0 { Ok(0) } else { Err(e) },
        }
    }
    Ok(done)
}

// Reads the file that an argument names to the start of b. None where it cannot be used, once that is said.
pub fn read<'b, R: Env + Files, E: Write>(
    ask: &mut Ask<'_, R, E>,
    a: Argument,
    b: &'b mut [u8],
) -> io::Result<Option<&'b [u8]>>
    ensures { IfOk result (λ o. IfSome o (λ s. length s.now ≤ length b.old)) }
{
    let Some(mut file) = ask.open(a)? else {
        return Ok(None);
    };
    let n = fill(&mut file, b)?;
    let more = fill(&mut file, &mut [0u8; 1])?;
    if n == 0 {
        ask.complain(a, "the file is empty, or cannot be read")?;
        return Ok(None);
    }
    if more == 1 {
        ask.complain(
            a,
            format_args!("the file does not fit; there is room for {n} bytes"),
        )?;
        return Ok(None);
    }
    Ok(Some(&b[..n]))
}

// Puts the image in memory from `at` on, and answers its length.
fn load<R: Env + Files, E: Write>(
    ask: &mut Ask<'_, R, E>,
    mem: &mut [u8],
    at: usize,
) -> io::Result<Option<usize>> {
    if at < mem.len() {
        let image = read(ask, Argument::Image, &mut mem[at..])?;
        return Ok(image.map(|bytes| bytes.len()));
    }
    Ok(None)
}

fn flaw(f: Flaw) -> &'static str {
    match f {
        Flaw::UnknownName => {
            "no such name; there are EAX ECX EDX EBX ESP EBP ESI EDI EIP EFLAGS CR0 CR2 CR3 RING"
        }
        Flaw::NamedTwice => "this name has a value already",
        Flaw::NoValue => "the name has no value",
        Flaw::BadValue => "the value is not one to eight hexadecimal digits",
        Flaw::MoreAfter => "there is more after the value",
    }
}

// The record of a text, sound for a memory of this size.
fn record<R: Env + Files, E: Write>(
    ask: &mut Ask<'_, R, E>,
    s: &[u8],
    size: usize,
) -> io::Result<Option<Cpu>> {
    let c = match given::record_of(s) {
        Ok(c) => c,
        Err(bad) => {
            ask.complain_of_line(Argument::Record, bad.line, flaw(bad.what))?;
            return Ok(None);
        }
    };
    if !machine::sound(size, c) {
        ask.begin(Argument::Record)?;
        write!(ask.err, "the record is not sound: ")?;
        journal::unsound(ask.err, c)?;
        writeln!(ask.err)?;
        return Ok(None);
    }
    Ok(Some(c))
}

// Puts the image in memory and reads the record.
pub fn prepare<R: Env + Files, E: Write>(
    ask: &mut Ask<'_, R, E>,
    mem: &mut [u8],
    o: Order,
) -> io::Result<Option<Ready>> {
    let Some(bytes) = load(ask, mem, o.load as usize)? else {
        return Ok(None);
    };
    let mut room = [0u8; TEXT];
    let Some(s) = read(ask, Argument::Record, &mut room)? else {
        return Ok(None);
    };
    let cpu = record(ask, s, mem.len())?;
    Ok(cpu.map(|cpu| Ready { cpu, bytes }))
}
