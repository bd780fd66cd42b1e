// What is asked for: the numbers among the arguments, checked.
ghost use Rattle.std.specs.Prelude.{◌≤◌};

use crate::ask::{Argument, Ask};
use journal::Voice;
use std::env::Env;
use std::io;
use std::io::Write;
use std::rt::Files;

#[derive(Clone, Copy)]
pub enum Command {
    Run,
    Bill,
}

#[derive(Clone, Copy)]
pub struct Order {
    pub load: u32,
    pub budget: u32,
    pub size: u32,
    pub voice: Voice,
}

const LARGEST: u32 = 4194304;

impl Command {
    // How many arguments it has, the program's name among them.
    fn words(self) -> usize
        ensures { result ≤ 8 }
    {
        match self {
            Command::Run => 7,
            Command::Bill => 8,
        }
    }

    fn usage(self) -> &'static str {
        match self {
            Command::Run => "run takes IMAGE LOAD RECORD BUDGET SIZE, and --plain if wanted",
            Command::Bill =>
                "bill takes IMAGE LOAD RECORD BUDGET SIZE EDITS, and --plain if wanted",
        }
    }
}

fn is_size(n: u32) -> bool {
    (4096 <= n) & (n <= LARGEST) & (n % 4096 == 0)
}

// The number of an argument, and a sentence where it is none.
fn number<R: Env + Files, E: Write>(
    ask: &mut Ask<'_, R, E>,
    a: Argument,
    name: &str,
) -> io::Result<Option<u32>> {
    let n = ask.number(a);
    if n.is_none() {
        ask.complain(
            a,
            format_args!("{name} is no number (decimal, or hexadecimal with 0x)"),
        )?;
    }
    Ok(n)
}

fn numbers<R: Env + Files, E: Write>(
    ask: &mut Ask<'_, R, E>,
    voice: Voice,
) -> io::Result<Option<Order>> {
    let Some(load) = number(ask, Argument::Load, "the load address")? else {
        return Ok(None);
    };
    let Some(budget) = number(ask, Argument::Budget, "the budget")? else {
        return Ok(None);
    };
    let Some(size) = number(ask, Argument::Size, "the size of memory")? else {
        return Ok(None);
    };
    if !is_size(size) {
        ask.complain(
            Argument::Size,
            "the size of memory is a multiple of 4096, from 4096 to 4194304",
        )?;
        return Ok(None);
    }
    if size <= load {
        ask.complain(
            Argument::Load,
            "the load address lies past the end of memory",
        )?;
        return Ok(None);
    }
    Ok(Some(Order {
        load,
        budget,
        size,
        voice,
    }))
}

// Reads the arguments of a command. None where they are refused, once that is said.
pub fn read<R: Env + Files, E: Write>(
    ask: &mut Ask<'_, R, E>,
    command: Command,
) -> io::Result<Option<Order>> {
    let n = ask.count();
    let whole = command.words();
    if n == whole {
        return numbers(ask, Voice::Words);
    }
    if (n == whole + 1) & ask.is(whole, "--plain") {
        return numbers(ask, Voice::Plain);
    }
    ask.complain_at_all(command.usage())?;
    Ok(None)
}
