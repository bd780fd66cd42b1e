// The forms with a ModRM byte.
ghost use Rattle.std.specs.Prelude.{◌≡◌, ◌+◌, ◌<◌, ◌≤◌, length, if◌then◌else◌};
ghost use Rattle.shortcut.specs.Forms.{to_fast, from_fast, number_fast, places_at, places_fast, times_fast, double_fast, address_fast, left_access, taking, left_register};

use outcome::Fast;

pub fn either(c: bool, a: u32, b: u32) -> u32
    ensures { result ≡ (if c then a else b) }
{
    if c { a } else { b }
}

fn left_access(m: u32, op: u32) -> u32
    ensures { result ≡ left_access m op }
{
    if 192 <= m {
        return 0;
    }
    if alu::writes(op) { 3 } else { 1 }
}

pub fn taking(op: u32, n: u32) -> u32
    ensures { result ≡ taking op n }
{
    if alu::writes(op) { n } else { 8 }
}

fn left_register(m: u32, op: u32) -> u32
    ensures { result ≡ left_register m op }
{
    if 192 <= m { taking(op, m % 8) } else { 8 }
}

// The operand by a register.
pub fn to_operand(mem: &[u8], e: &[u32], eip: u32, i: usize, op: u32, b: u32, m: u32) -> Fast
    requires { i + 16 ≤ length mem.now }
    ensures { result ≡ to_fast mem.now e.now eip i op b m }
{
    let q = crate::bytes::operand(mem, e, i, m);
    let w = b % 2 == 1;
    Fast {
        taken: true,
        jumps: false,
        doubling: false,
        op,
        wide: w,
        access: left_access(m, op),
        at: q.at,
        x: outcome::read(e, w, m % 8),
        y: outcome::read(e, w, m / 8 % 8),
        to: left_register(m, op),
        next: std::num::wrapping_add_u32(eip, q.upto),
    }
}

// A register by the operand.
pub fn from_operand(mem: &[u8], e: &[u32], eip: u32, i: usize, op: u32, b: u32, m: u32) -> Fast
    requires { i + 16 ≤ length mem.now }
    ensures { result ≡ from_fast mem.now e.now eip i op b m }
{
    let q = crate::bytes::operand(mem, e, i, m);
    let w = b % 2 == 1;
    Fast {
        taken: true,
        jumps: false,
        doubling: false,
        op,
        wide: w,
        access: either(192 <= m, 0, 2),
        at: q.at,
        x: outcome::read(e, w, m / 8 % 8),
        y: outcome::read(e, w, m % 8),
        to: taking(op, m / 8 % 8),
        next: std::num::wrapping_add_u32(eip, q.upto),
    }
}

// The operand by an immediate, of four bytes or of one.
pub fn by_number(
    mem: &[u8],
    e: &[u32],
    eip: u32,
    i: usize,
    op: u32,
    long: bool,
    b: u32,
    m: u32,
) -> Fast
    requires { i + 16 ≤ length mem.now }
    ensures { result ≡ number_fast mem.now e.now eip i op long b m }
{
    let q = crate::bytes::operand(mem, e, i, m);
    let w = b % 2 == 1;
    Fast {
        taken: true,
        jumps: false,
        doubling: false,
        op,
        wide: w,
        access: left_access(m, op),
        at: q.at,
        x: outcome::read(e, w, m % 8),
        y: crate::bytes::number(mem, i + q.upto as usize, long),
        to: left_register(m, op),
        next: std::num::wrapping_add_u32(eip, q.upto + either(long, 4, 1)),
    }
}

pub fn address_of(mem: &[u8], e: &[u32], eip: u32, i: usize, m: u32) -> Fast
    requires { (i + 16 ≤ length mem.now) × (m < 192) }
    ensures { result ≡ address_fast mem.now e.now eip i m }
{
    let q = crate::bytes::form(mem, e, i + 2, m);
    Fast {
        taken: true,
        jumps: false,
        doubling: false,
        op: 9,
        wide: true,
        access: 0,
        at: 0,
        x: 0,
        y: q.at,
        to: m / 8 % 8,
        next: std::num::wrapping_add_u32(eip, q.upto),
    }
}

fn places(mem: &[u8], e: &[u32], j: usize, b: u32) -> u32
    requires { j + 3 < length mem.now }
    ensures { result ≡ places_at b mem.now e.now j }
{
    if b == 0xc1 {
        return crate::bytes::number(mem, j, false);
    }
    if b == 0xd1 {
        return 1;
    }
    outcome::read(e, false, 1)
}

// A shift of the operand.
pub fn by_places(mem: &[u8], e: &[u32], eip: u32, i: usize, b: u32, m: u32) -> Fast
    requires { i + 16 ≤ length mem.now }
    ensures { result ≡ places_fast mem.now e.now eip i b m }
{
    let q = crate::bytes::operand(mem, e, i, m);
    let w = b % 2 == 1;
    let op = 8 + m / 8 % 8;
    let y = places(mem, e, i + q.upto as usize, b);
    Fast {
        taken: true,
        jumps: false,
        doubling: false,
        op,
        wide: w,
        access: left_access(m, op),
        at: q.at,
        x: outcome::read(e, w, m % 8),
        y,
        to: left_register(m, op),
        next: std::num::wrapping_add_u32(eip, q.upto + either(b == 0xc1, 1, 0)),
    }
}

// IMUL by an immediate.
pub fn times_number(mem: &[u8], e: &[u32], eip: u32, i: usize, long: bool, m: u32) -> Fast
    requires { i + 16 ≤ length mem.now }
    ensures { result ≡ times_fast mem.now e.now eip i long m }
{
    let q = crate::bytes::operand(mem, e, i, m);
    Fast {
        taken: true,
        jumps: false,
        doubling: false,
        op: 14,
        wide: true,
        access: either(192 <= m, 0, 1),
        at: q.at,
        x: outcome::read(e, true, m % 8),
        y: crate::bytes::number(mem, i + q.upto as usize, long),
        to: m / 8 % 8,
        next: std::num::wrapping_add_u32(eip, q.upto + either(long, 4, 1)),
    }
}

// MUL of EAX by a register; the group's other forms, and MUL of memory, are not taken.
pub fn double(e: &[u32], eip: u32, m: u32) -> Fast
    ensures { result ≡ double_fast e.now eip m }
{
    Fast {
        taken: false,
        jumps: false,
        doubling: true,
        op: 9,
        wide: true,
        access: 0,
        at: 0,
        x: outcome::read(e, true, m % 8),
        y: 0,
        to: 8,
        next: std::num::wrapping_add_u32(eip, 2),
    }
}
