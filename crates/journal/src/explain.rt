// A reply explained to a person who is no programmer.
use crate::reply::Short;
use machine::{Control, Reply};
use std::io;
use std::io::Write;

// Do both entries of the page let the user in? They are present where this is asked.
fn is_users(mem: &[u8], c: Control, linear: u32) -> bool {
    let d = paging::entry(mem, c.cr3 / 4096, linear / 4194304);
    let t = paging::entry(mem, d / 4096, linear / 4096 % 1024);
    (d / 4 % 2 == 1) & (t / 4 % 2 == 1)
}

// What kind of page refused the access.
fn page(mem: &[u8], c: Control, code: u32, linear: u32) -> &'static str {
    if code % 2 == 0 {
        "an absent page"
    } else if (code / 4 % 2 == 1) & !is_users(mem, c, linear) {
        "a supervisor page"
    } else {
        "a read-only page"
    }
}

fn page_fault<W: Write>(
    out: &mut W,
    mem: &[u8],
    c: Control,
    code: u32,
    linear: u32,
) -> io::Result<()> {
    let who = if code / 4 % 2 == 1 { "user" } else { "kernel" };
    let access = if code / 2 % 2 == 1 {
        "write to"
    } else {
        "read of"
    };
    let page = page(mem, c, code, linear);
    write!(
        out,
        "page fault, {who} {access} {page} at {linear:08X} (code {code})"
    )
}

// Stays: a vector is a number of the machine's.
fn fault<W: Write>(
    out: &mut W,
    mem: &[u8],
    c: Control,
    vector: u32,
    code: u32,
    linear: u32,
) -> io::Result<()> {
    match vector {
        0 => write!(
            out,
            "divide error: by zero, or a quotient that does not fit"
        ),
        6 => write!(out, "undefined instruction"),
        13 => write!(
            out,
            "protection: an instruction that this ring may not use, or one of more than 15 bytes"
        ),
        14 => page_fault(out, mem, c, code, linear),
        _ => write!(out, "a vector that the machine never gives"),
    }
}

// Stays: a vector is a number of the machine's.
fn trap(vector: u32) -> &'static str {
    match vector {
        3 => "breakpoint",
        48 => "the guest asks to send a waypoint",
        49 => "the guest has ended its pass",
        _ => "an interrupt that the gateway does not answer",
    }
}

fn table_outside<W: Write>(out: &mut W, index: u32) -> io::Result<()> {
    if index == 1024 {
        return write!(out, "the page directory lies past the end of memory");
    }
    write!(
        out,
        "entry {index} of the directory names a table past the end of memory"
    )
}

fn meaning<W: Write>(out: &mut W, mem: &[u8], c: Control, q: Reply) -> io::Result<()> {
    match q {
        Reply::Done => write!(out, "carried out"),
        Reply::Fault(vector, code, linear) => fault(out, mem, c, vector, code, linear),
        Reply::Trap(vector, next) => {
            let what = trap(vector);
            write!(out, "{what}; it would go on at {next:08X}")
        }
        Reply::Halt(next) => write!(
            out,
            "the kernel stopped the machine; it would go on at {next:08X}"
        ),
        Reply::BadRecord => write!(out, "the record or the size of memory breaks a rule"),
        Reply::NoMemory(at) => write!(out, "physical address {at:08X} lies past the end of memory"),
        Reply::NotBuilt(eip) => write!(
            out,
            "the instruction at {eip:08X} is not one that this machine has"
        ),
        Reply::Spent => write!(out, "the budget of steps is used up"),
        Reply::Safe => write!(
            out,
            "the user cannot write the page directory or a page table"
        ),
        Reply::TableOutside(index) => table_outside(out, index),
        Reply::Exposed(linear) => write!(
            out,
            "page {linear:08X} lets the user write the page directory or a page table"
        ),
    }
}

// Number and name, a colon, and what it means, with the maps and rights that held.
pub fn explained<W: Write>(out: &mut W, mem: &[u8], c: Control, q: Reply) -> io::Result<()> {
    let short = Short(q);
    write!(out, "{short}: ")?;
    meaning(out, mem, c, q)
}
