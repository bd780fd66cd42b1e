// The gateway: runs a guest on the proved machine, answers its interrupts, and writes the log or the bill of what it sent.
// What it refuses it says on standard error; a read or a write that fails ends it with status 1.
#![tactic(auto)]

mod ask;
mod bill;
mod files;
mod order;
mod run;

use ask::{Argument, Ask};
use order::Command;
use std::env::Env;
use std::io;
use std::io::Write;
use std::rt::Files;

// The bytes of the largest memory, and room for the copies of 960 frames of it.
const LARGEST: usize = 4194304;

const COPIES: usize = 3932160;

const HELP: &[u8] =
    b"gateway run IMAGE LOAD RECORD BUDGET SIZE [--plain]\n  one pass of the guest in IMAGE, and the log of it\ngateway bill IMAGE LOAD RECORD BUDGET SIZE EDITS [--plain]\n  passes with edits in between, and what they cost\n\nIMAGE is put at the address LOAD in a memory of SIZE bytes. RECORD names the registers, a name and a hexadecimal value a line.\nBUDGET is the most steps of a pass; an interrupt that is answered counts as one. EDITS has lines PASS WAYPOINT lat|lon DELTA\nand PASS jitter -1|1. A number is decimal, or hexadecimal with 0x. --plain writes key=value lines.\n";

// Reads the rest of the order, and carries it out.
fn carry_out<R: Env + Files, W: Write, E: Write>(
    ask: &mut Ask<'_, R, E>,
    out: &mut W,
    command: Command,
    mem: &mut [u8],
    copies: &mut [u8],
) -> io::Result<()> {
    let Some(o) = order::read(ask, command)? else {
        return Ok(());
    };
    let size = o.size as usize;
    if size <= mem.len() {
        let mem = &mut mem[..size];
        match command {
            Command::Run => run::run(ask, out, mem, copies, o)?,
            Command::Bill => bill::bill(ask, out, mem, copies, o)?,
        }
    }
    Ok(())
}

// The command that the first argument names.
fn obey<R: Env + Files, W: Write, E: Write>(
    ask: &mut Ask<'_, R, E>,
    out: &mut W,
    mem: &mut [u8],
    copies: &mut [u8],
) -> io::Result<()> {
    if ask.is(1, "bill") {
        carry_out(ask, out, Command::Bill, mem, copies)
    } else if ask.is(1, "run") {
        carry_out(ask, out, Command::Run, mem, copies)
    } else if (ask.count() < 2) | ask.is(1, "help") {
        out.write_all(HELP)
    } else {
        ask.complain(
            Argument::Command,
            "no such command; there are run, bill and help",
        )
    }
}

// The command, over memory that main lends.
fn begin(rt: &HostRuntime, mem: &mut [u8; LARGEST], copies: &mut [u8; COPIES]) -> io::Result<()> {
    let mut err = rt.stderr();
    let mut ask = Ask { rt, err: &mut err };
    obey(&mut ask, &mut rt.stdout(), mem, copies)
}

fn main(rt: HostRuntime) -> io::Result<()> {
    let mut mem = [0u8; LARGEST];
    let mut copies = [0u8; COPIES];
    begin(&rt, &mut mem, &mut copies)
}
