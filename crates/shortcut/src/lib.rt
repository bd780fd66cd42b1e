// The common encodings in a short form, read straight from memory. Whatever is not here is not taken, and goes the whole way.
#![tactic(auto)]

pub mod bytes;
pub mod condition;
mod modrm;

ghost use Rattle.std.specs.Prelude.{◌≡◌, ◌+◌, ◌%◌, ◌<◌, ◌≤◌, true, false, ◌||◌, length, if◌then◌else◌, ◌==◌};
ghost use Rattle.machine.specs.Record.{at, wrap};
ghost use Rattle.conditions.specs.Conditions.{holds};
ghost use Rattle.encoding.specs.Encodings.{class_of};
ghost use Rattle.fetch.specs.Fetch.{signed};
ghost use Rattle.alu.specs.declared.Status.{Status};
ghost use Rattle.alu.specs.Brief.{status_in};
ghost use Rattle.shortcut.specs.Shortcut.{FastOk};
ghost use Rattle.shortcut.specs.Forms.{combines, is_group, by_immediate, register_fast, accumulator_fast, count_fast, jump_fast, push_fast, pop_fast, operation_of};

use alu::brief::Brief;
use encoding::{Class, Classes};
use outcome::Fast;

// Not taken.
fn none() -> Fast
    ensures { (result.taken ≡ false) × ((result.jumps ≡ false) × (result.doubling ≡ false)) }
{
    Fast {
        taken: false,
        jumps: false,
        doubling: false,
        op: 0,
        wide: true,
        access: 0,
        at: 0,
        x: 0,
        y: 0,
        to: 8,
        next: 0,
    }
}

// Register n, which holds x, by an immediate as wide as the operation.
fn on_register(mem: &[u8], eip: u32, i: usize, op: u32, w: bool, x: u32, n: u32) -> Fast
    requires { i + 16 ≤ length mem.now }
    ensures { result ≡ register_fast mem.now eip i op w x n }
{
    Fast {
        taken: true,
        jumps: false,
        doubling: false,
        op,
        wide: w,
        access: 0,
        at: 0,
        x,
        y: bytes::number(mem, i + 1, w),
        to: modrm::taking(op, n),
        next: std::num::wrapping_add_u32(eip, 1 + modrm::either(w, 4, 1)),
    }
}

fn on_accumulator(mem: &[u8], e: &[u32], eip: u32, i: usize, op: u32, b: u32) -> Fast
    requires { i + 16 ≤ length mem.now }
    ensures { result ≡ accumulator_fast mem.now e.now eip i op b }
{
    let w = b % 2 == 1;
    on_register(mem, eip, i, op, w, outcome::read(e, w, 0), 0)
}

fn count(e: &[u32], eip: u32, op: u32, b: u32) -> Fast
    ensures { result ≡ count_fast e.now eip op b }
{
    Fast {
        taken: true,
        jumps: false,
        doubling: false,
        op,
        wide: true,
        access: 0,
        at: 0,
        x: outcome::register(e, b % 8),
        y: 0,
        to: b % 8,
        next: std::num::wrapping_add_u32(eip, 1),
    }
}

fn jump(eip: u32) -> Fast
    ensures { result ≡ jump_fast eip }
{
    Fast {
        taken: true,
        jumps: true,
        doubling: false,
        op: 9,
        wide: true,
        access: 0,
        at: 0,
        x: 0,
        y: 0,
        to: 8,
        next: eip,
    }
}

fn push(e: &[u32], y: u32, eip: u32) -> Fast
    ensures { result ≡ push_fast e.now y eip }
{
    Fast {
        taken: true,
        jumps: false,
        doubling: false,
        op: 9,
        wide: true,
        access: 4,
        at: std::num::wrapping_add_u32(outcome::register(e, 4), 4294967292),
        x: 0,
        y,
        to: 8,
        next: eip,
    }
}

fn pop(e: &[u32], access: u32, n: u32, eip: u32) -> Fast
    ensures { result ≡ pop_fast e.now access n eip }
{
    Fast {
        taken: true,
        jumps: false,
        doubling: false,
        op: 9,
        wide: true,
        access,
        at: outcome::register(e, 4),
        x: 0,
        y: 0,
        to: n,
        next: eip,
    }
}

// Jcc by a byte.
fn jump_if(s: Brief, eip: u32, b: u32, m: u32) -> Fast
    requires { m < 256 }
    ensures { result ≡ jump_fast (if holds (b % 16) (status_in s) then wrap (wrap (eip + 2) + signed m) else wrap (eip + 2)) }
{
    let next = std::num::wrapping_add_u32(eip, 2);
    if condition::holds(b % 16, s) {
        return jump(std::num::wrapping_add_u32(next, fetch::extend(m)));
    }
    jump(next)
}

// SHL, SHR and SAR; the other shifts are not built.
fn shift(mem: &[u8], e: &[u32], eip: u32, i: usize, b: u32, m: u32) -> Fast
    requires { (i + 16 ≤ length mem.now) × ((b ≡ at mem.now i) × ((m ≡ at mem.now (i + 1)) × ((b == 0xc1 || b == 0xd1 || b == 0xd3) ≡ true))) }
    ensures { (s : Status) → FastOk mem.now e.now s eip i result }
{
    let g = m / 8 % 8;
    if (g < 4) | (g == 6) {
        return none();
    }
    modrm::by_places(mem, e, eip, i, b, m)
}

// The operation of two operands with ModRM: ADD to CMP, then TEST and MOV, as their opcodes have it.
pub fn operation(c: Class, b: u32) -> u32
    requires { (b < 256) × ((c ≡ class_of b) × (combines c ≡ true)) }
    ensures { result ≡ operation_of c b }
{
    b / 8 - b / 128 * 8
}

fn is_group(c: Class) -> bool
    ensures { result ≡ is_group c }
{
    matches!(c, Class::ArithmeticGroup)
}

// The operand by an immediate: ADD to CMP by the reg field, or MOV. All of them are here, so that the compiler draws the form in.
fn numbered(mem: &[u8], e: &[u32], eip: u32, i: usize, c: Class, b: u32, m: u32) -> Fast
    requires { (i + 16 ≤ length mem.now) × ((b ≡ at mem.now i) × ((m ≡ at mem.now (i + 1)) × ((b < 256) × ((c ≡ class_of b) × (by_immediate c ≡ true))))) }
    ensures { (s : Status) → FastOk mem.now e.now s eip i result }
{
    let group = is_group(c);
    if !(group | (m / 8 % 8 == 0)) {
        return none();
    }
    let op = modrm::either(group, m / 8 % 8, 9);
    modrm::by_number(mem, e, eip, i, op, (b % 2 == 1) & (b != 0x83), b, m)
}

// Shifts, products, jumps and calls, by their opcodes.
// Stays: these are opcodes, as the manual writes them.
fn by_opcode(mem: &[u8], e: &[u32], eip: u32, i: usize, b: u32, m: u32) -> Fast
    requires { (i + 16 ≤ length mem.now) × ((b ≡ at mem.now i) × ((m ≡ at mem.now (i + 1)) × (m < 256))) }
    ensures { (s : Status) → FastOk mem.now e.now s eip i result }
{
    if (b == 0xc1) | (b == 0xd1) | (b == 0xd3) {
        return shift(mem, e, eip, i, b, m);
    }
    if (b == 0x69) | (b == 0x6b) {
        return modrm::times_number(mem, e, eip, i, b == 0x69, m);
    }
    match b {
        0xe8 => {
            let next = std::num::wrapping_add_u32(eip, 5);
            push(
                e,
                next,
                std::num::wrapping_add_u32(next, bytes::dword(mem, i + 1)),
            )
        }
        0xe9 => {
            let next = std::num::wrapping_add_u32(eip, 5);
            jump(std::num::wrapping_add_u32(next, bytes::dword(mem, i + 1)))
        }
        0xeb => {
            let next = std::num::wrapping_add_u32(eip, 2);
            jump(std::num::wrapping_add_u32(next, fetch::extend(m)))
        }
        0xf7 => {
            if (192 <= m) & (m / 8 % 8 == 4) {
                return modrm::double(e, eip, m);
            }
            none()
        }
        _ => none(),
    }
}

// PUSH of an immediate.
// Stays: these are opcodes, as the manual writes them.
fn push_number(mem: &[u8], e: &[u32], eip: u32, i: usize, b: u32) -> Fast
    requires { (i + 16 ≤ length mem.now) × (b ≡ at mem.now i) }
    ensures { (s : Status) → FastOk mem.now e.now s eip i result }
{
    match b {
        0x68 => push(
            e,
            bytes::number(mem, i + 1, true),
            std::num::wrapping_add_u32(eip, 5),
        ),
        0x6a => push(
            e,
            bytes::number(mem, i + 1, false),
            std::num::wrapping_add_u32(eip, 2),
        ),
        _ => none(),
    }
}

// Opcodes without ModRM, by their class.
fn plain(mem: &[u8], e: &[u32], s: Brief, eip: u32, i: usize, c: Class, b: u32, m: u32) -> Fast
    requires { (i + 16 ≤ length mem.now) × ((b ≡ at mem.now i) × ((m ≡ at mem.now (i + 1)) × ((m < 256) × ((b < 256) × (c ≡ class_of b))))) }
    ensures { FastOk mem.now e.now (status_in s) eip i result }
{
    match c {
        Class::ArithmeticAccumulator => on_accumulator(mem, e, eip, i, b / 8 % 8, b),
        Class::TestAccumulator => on_accumulator(mem, e, eip, i, 8, b),
        Class::MoveRegister => on_register(mem, eip, i, 9, b / 8 % 2 == 1, 0, b % 8),
        Class::IncrementRegister => count(e, eip, 10, b),
        Class::DecrementRegister => count(e, eip, 11, b),
        Class::PushRegister => push(
            e,
            outcome::register(e, b % 8),
            std::num::wrapping_add_u32(eip, 1),
        ),
        Class::PushImmediate => push_number(mem, e, eip, i, b),
        Class::PopRegister => pop(e, 5, b % 8, std::num::wrapping_add_u32(eip, 1)),
        Class::JumpIf => { jump_if(s, eip, b, m) }
        Class::ReturnPlain => pop(e, 6, 8, std::num::wrapping_add_u32(eip, 1)),
        _ => by_opcode(mem, e, eip, i, b, m),
    }
}

// The instruction at index i of memory, where sixteen bytes are there.
pub fn quick(mem: &[u8], t: &Classes, e: &[u32], s: Brief, eip: u32, i: usize) -> Fast
    requires { i + 16 ≤ length mem.now }
    ensures { FastOk mem.now e.now (status_in s) eip i result }
{
    let b = bytes::byte(mem, i);
    let m = bytes::byte(mem, i + 1);
    let c = t.at(b);
    match c {
        Class::ArithmeticTo | Class::TestTo | Class::MoveTo => {
            modrm::to_operand(mem, e, eip, i, operation(c, b), b, m)
        }
        Class::ArithmeticFrom | Class::MoveFrom => {
            modrm::from_operand(mem, e, eip, i, operation(c, b), b, m)
        }
        Class::ArithmeticGroup | Class::MoveGroup => numbered(mem, e, eip, i, c, b, m),
        Class::LoadAddress => {
            if 192 <= m {
                return none();
            }
            modrm::address_of(mem, e, eip, i, m)
        }
        _ => plain(mem, e, s, eip, i, c, b, m),
    }
}
