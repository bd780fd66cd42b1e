// What is asked of the machine: a step, a run or an audit, on which record and how much memory.
use crate::reading::Reader;
use machine::{Control, Cpu, Registers, Reply};
use micro32::Ran;

#[derive(Clone, Copy, PartialEq, Eq)]
pub enum Call {
    Step,
    Run(u32),
    Audit,
    // A step, asked for as a run of one: it goes the quick way where it can.
    Lone,
}

// The count is what a run is to answer; size is the length of the memory that is lent.
#[derive(Clone, Copy)]
pub struct Ask {
    pub call: Call,
    pub count: u32,
    pub size: u32,
    pub control: Control,
}

fn weighed(x: u32, n: u32) -> u32 {
    if x % 2 == 1 { n } else { 0 }
}

// Byte 1 of a case: ring 3, paging, WP, CR0's bit 4. Byte 40: CR3's low byte.
fn control(case: &[u8]) -> Control {
    let m = u32::from(cells::get(case, 1, 0));
    Control {
        cr0: 1 | weighed(m / 8, 16) | weighed(m / 4, 65536) | weighed(m / 2, 0x8000_0000),
        cr2: 0xc2c2_c2c2,
        cr3: 4096 + u32::from(cells::get(case, 40, 0)),
        ring: weighed(m, 3),
    }
}

// A generated case asks for a step, on all of memory.
pub fn generated(case: &[u8], call: Call) -> Ask {
    Ask {
        call,
        count: 0,
        size: 32768,
        control: control(case),
    }
}

// A number that names no other call stands for a step.
// Stays: the numbers are those of the file of cases.
fn call_of(number: u8, budget: u32) -> Call {
    match number {
        1 => Call::Run(budget),
        2 => Call::Audit,
        3 => Call::Lone,
        _ => Call::Step,
    }
}

// A directed case has bytes of its own that say what it asks.
pub fn directed(asks: &[u8]) -> Ask {
    let mut r = Reader { bytes: asks, at: 0 };
    let number = r.byte();
    let ring = r.number();
    let budget = r.dword();
    let count = r.dword();
    let size = r.dword();
    let cr0 = r.dword();
    Ask {
        call: call_of(number, budget),
        count,
        size,
        control: Control {
            cr0,
            cr2: 0xc2c2_c2c2,
            cr3: r.dword(),
            ring,
        },
    }
}

// The record that a case begins with.
pub fn record(case: &[u8], control: Control) -> Cpu {
    let mut r = Reader { bytes: case, at: 2 };
    let eflags = r.word();
    let eip = r.dword();
    let mut e = [0; 8];
    for n in 0..8 {
        e[n] = r.dword();
    }
    Cpu {
        regs: Registers { e },
        eip,
        eflags,
        control,
    }
}

// A run of one step, told as the step's answer.
fn lone(r: Ran) -> Ran {
    match r.reply {
        Reply::Spent if r.count == 1 => Ran {
            count: 0,
            reply: Reply::Done,
            cpu: r.cpu,
        },
        _ => r,
    }
}

// The public calls, answered alike: a step and an audit have no count, and an audit leaves the record.
fn called(call: Call, cpu: Cpu, mem: &mut [u8]) -> Ran {
    match call {
        Call::Run(budget) => micro32::run(cpu, mem, budget),
        Call::Lone => lone(micro32::run(cpu, mem, 1)),
        Call::Audit => Ran {
            count: 0,
            reply: micro32::audit(cpu, mem),
            cpu,
        },
        Call::Step => {
            let s = micro32::step(cpu, mem);
            Ran {
                count: 0,
                reply: s.reply,
                cpu: s.cpu,
            }
        }
    }
}

// Lends as much of memory as is asked for, or all.
pub fn answered(a: Ask, cpu: Cpu, mem: &mut [u8]) -> Ran {
    let n = mem.len().min(a.size as usize);
    called(a.call, cpu, &mut mem[..n])
}
