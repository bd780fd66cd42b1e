// A record as text: a name and a hexadecimal value a line; what is not named is 0.
use crate::Bad;
use crate::number::hexadecimal_of;
use crate::words::{line_number, split_word};
use machine::{Control, Cpu, Registers};

// What is wrong with a line.
#[derive(Clone, Copy, PartialEq, Eq)]
pub enum Flaw {
    UnknownName,
    NamedTwice,
    NoValue,
    BadValue,
    MoreAfter,
}

// In the order of the record.
const NAMES: [&str; 14] = [
    "EAX", "ECX", "EDX", "EBX", "ESP", "EBP", "ESI", "EDI", "EIP", "EFLAGS", "CR0", "CR2", "CR3",
    "RING",
];

// The values named so far, in the order of the names.
type Values = [Option<u32>; 14];

// The one value that stands after a name.
fn value(rest: &[u8]) -> Result<u32, Flaw> {
    let (word, rest) = split_word(rest);
    if word.is_empty() {
        return Err(Flaw::NoValue);
    }
    let x = hexadecimal_of(word).ok_or(Flaw::BadValue)?;
    let (more, _) = split_word(rest);
    if more.is_empty() {
        Ok(x)
    } else {
        Err(Flaw::MoreAfter)
    }
}

fn take_line(line: &[u8], values: &mut Values) -> Result<(), Flaw> {
    let (word, rest) = split_word(line);
    if word.is_empty() {
        return Ok(());
    }
    let place = NAMES
        .iter()
        .position(|name| name.as_bytes() == word)
        .ok_or(Flaw::UnknownName)?;
    if values[place].is_some() {
        return Err(Flaw::NamedTwice);
    }
    values[place] = Some(value(rest)?);
    Ok(())
}

fn cpu(values: Values) -> Cpu {
    let [
        eax,
        ecx,
        edx,
        ebx,
        esp,
        ebp,
        esi,
        edi,
        eip,
        eflags,
        cr0,
        cr2,
        cr3,
        ring,
    ] = values.map(|x| x.unwrap_or(0));
    Cpu {
        regs: Registers {
            e: [eax, ecx, edx, ebx, esp, ebp, esi, edi],
        },
        eip,
        eflags,
        control: Control {
            cr0,
            cr2,
            cr3,
            ring,
        },
    }
}

// The record, or the first line that is wrong.
pub fn record_of(s: &[u8]) -> Result<Cpu, Bad<Flaw>> {
    let mut values: Values = [None; 14];
    for (i, line) in s.split(|b| *b == b'\n').enumerate() {
        let n = line_number(i);
        take_line(line, &mut values).map_err(|what| Bad { line: n, what })?;
    }
    Ok(cpu(values))
}
