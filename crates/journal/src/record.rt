// The record by name, and which of its rules a record breaks.
ghost use Rattle.std.specs.Prelude.{◌≡◌};
ghost use Rattle.machine.specs.Record.{ring_sound, cr0_sound, cr3_sound};

use machine::Cpu;
use std::io;
use std::io::Write;

// The values of a record with their names, in its order.
fn values(c: Cpu) -> [(&'static str, u32); 14] {
    let [eax, ecx, edx, ebx, esp, ebp, esi, edi] = c.regs.e;
    let k = c.control;
    [
        ("EAX", eax),
        ("ECX", ecx),
        ("EDX", edx),
        ("EBX", ebx),
        ("ESP", esp),
        ("EBP", ebp),
        ("ESI", esi),
        ("EDI", edi),
        ("EIP", c.eip),
        ("EFLAGS", c.eflags),
        ("CR0", k.cr0),
        ("CR2", k.cr2),
        ("CR3", k.cr3),
        ("RING", k.ring),
    ]
}

// The record as lines `NAME=value`.
pub fn cpu_lines<W: Write>(out: &mut W, c: Cpu) -> io::Result<()> {
    for (name, x) in values(c) {
        writeln!(out, "{name}={x:08X}")?;
    }
    Ok(())
}

// The values of one line of the table.
fn line<W: Write>(out: &mut W, values: &[(&str, u32)]) -> io::Result<()> {
    for (name, x) in values {
        write!(out, "  {name} {x:08X}")?;
    }
    writeln!(out)
}

const FLAGS: [(u32, &str); 8] = [
    (0x1, "CF"),
    (0x4, "PF"),
    (0x10, "AF"),
    (0x40, "ZF"),
    (0x80, "SF"),
    (0x200, "IF"),
    (0x400, "DF"),
    (0x800, "OF"),
];

const MODES: [(u32, &str); 3] = [(0x1, "PE"), (0x1_0000, "WP"), (0x8000_0000, "PG")];

// The names of the bits that are set.
fn set_bits<W: Write>(out: &mut W, x: u32, names: &[(u32, &str)]) -> io::Result<()> {
    for (bit, name) in names {
        if x & *bit != 0 {
            write!(out, " {name}")?;
        }
    }
    Ok(())
}

// Four lines: the registers, the rest of the record, and what its bits say: the flags that are set, IOPL and the modes.
pub fn cpu_table<W: Write>(out: &mut W, c: Cpu) -> io::Result<()> {
    let all = values(c);
    line(out, &all[..4])?;
    line(out, &all[4..8])?;
    line(out, &all[8..])?;
    let e = c.eflags;
    write!(out, "  flags set:")?;
    set_bits(out, e, &FLAGS)?;
    if e % 4096 == 2 {
        write!(out, " none")?;
    }
    let iopl = e / 4096 % 4;
    write!(out, ", IOPL {iopl}; CR0 set:")?;
    set_bits(out, c.control.cr0, &MODES)?;
    writeln!(out)
}

fn is_ring_sound(x: u32) -> bool
    ensures { result ≡ ring_sound x }
{
    (x == 0) | (x == 3)
}

fn is_cr0_sound(x: u32) -> bool
    ensures { result ≡ cr0_sound x }
{
    (x % 2 == 1) & (x / 2 % 8 == 0) & (x / 32 % 2048 == 0) & (x / 131072 % 16384 == 0)
}

fn is_cr3_sound(x: u32) -> bool
    ensures { result ≡ cr3_sound x }
{
    (x % 8 == 0) & (x / 32 % 128 == 0)
}

// Names the first rule that an unsound record breaks.
pub fn unsound<W: Write>(out: &mut W, c: Cpu) -> io::Result<()> {
    let k = c.control;
    let e = c.eflags;
    let (name, x, rule) = if !is_ring_sound(k.ring) {
        ("RING", k.ring, "it must be 0 or 3")
    } else if k.cr0 % 2 == 0 {
        ("CR0", k.cr0, "its bit 0 (PE) must be set")
    } else if !is_cr0_sound(k.cr0) {
        (
            "CR0",
            k.cr0,
            "besides bit 0 only bits 4, 16 (WP) and 31 (PG) may be set",
        )
    } else if !is_cr3_sound(k.cr3) {
        ("CR3", k.cr3, "its bits 0 to 2 and 5 to 11 must be clear")
    } else if e / 2 % 2 == 0 {
        ("EFLAGS", e, "its bit 1 must be set")
    } else {
        (
            "EFLAGS",
            e,
            "besides bit 1 only bits 0, 2, 4, 6, 7 and 9 to 13 may be set",
        )
    };
    write!(out, "{name} is {x:08X}; {rule}")
}
