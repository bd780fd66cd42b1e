// What the machine answered, compared with what the case says: the reply, and the record.
use crate::asking::{Ask, Call};
use crate::reading::Reader;
use machine::{Cpu, Registers, Reply};
use micro32::Ran;

// The reply of a number, with what it carries: a vector, an error code, and an address or an index. None where no reply carries that.
fn reply(number: u32, vector: u32, code: u32, address: u32) -> Option<Reply> {
    match (number, vector, code, address) {
        (0, 0, 0, 0) => Some(Reply::Done),
        (1, _, _, _) => Some(Reply::Fault(vector, code, address)),
        (2, _, 0, next) => Some(Reply::Trap(vector, next)),
        (3, 0, 0, next) => Some(Reply::Halt(next)),
        (4, 0, 0, 0) => Some(Reply::BadRecord),
        (5, 0, 0, physical) => Some(Reply::NoMemory(physical)),
        (6, 0, 0, eip) => Some(Reply::NotBuilt(eip)),
        (7, 0, 0, 0) => Some(Reply::Spent),
        (8, 0, 0, 0) => Some(Reply::Safe),
        (9, 0, 0, index) => Some(Reply::TableOutside(index)),
        (10, 0, 0, page) => Some(Reply::Exposed(page)),
        _ => None,
    }
}

// A mask of the registers that are changed, and then their values.
fn registers(at: &mut Reader<'_>, was: Registers) -> Registers {
    let mask = at.number();
    let mut regs = was;
    for n in 0..8 {
        if mask >> n & 1 == 1 {
            regs.e[n] = at.dword();
        }
    }
    regs
}

// The record, where the case says what became of it.
fn record(at: &mut Reader<'_>, was: Cpu) -> Cpu {
    let regs = registers(at, was.regs);
    let eip = at.dword();
    let eflags = at.word();
    Cpu {
        regs,
        eip,
        eflags,
        control: was.control,
    }
}

// A case says what became of the record after Done and after a run; else it is to be as it was. Leaves the reader where the stores begin.
pub fn agrees(at: &mut Reader<'_>, a: Ask, was: Cpu, r: Ran) -> bool {
    let number = at.number();
    let vector = at.number();
    let code = at.number();
    let said = reply(number, vector, code, at.dword());
    let says = (number == 0) | matches!(a.call, Call::Run(_));
    let cpu = if says { record(at, was) } else { was };
    (r.cpu == cpu) & (r.count == a.count) & (said == Some(r.reply))
}
