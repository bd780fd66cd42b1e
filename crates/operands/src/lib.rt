// Operands and effects: where an operand lies, what it is worth, what becomes of the record.
#![tactic(auto, unfolding(crate::specs::Operands::address, crate::specs::Operands::operand_want, crate::specs::Operands::operand_value, crate::specs::Operands::deposit))]

ghost use Rattle.std.specs.Prelude.{◌≡◌, ◌<◌, ◌≤◌};
ghost use Rattle.operands.specs.Operands.{scaled, address, operand_want, operand_value, deposit, lowered, raised, next, target, went, refused, onward, advanced};

use alu::Status;
use encoding::{Instruction, Operand};
use machine::{Core, Flags, Registers, Reply, Want};

// What an instruction does: the reply, Done where it is carried out; the core after; the value to store where it writes.
#[derive(Clone, Copy)]
pub struct Effect {
    pub reply: Reply,
    pub core: Core,
    pub value: u32,
}

// An index times its scale.
// Stays: a scale is the number itself, 1, 2, 4 or 8.
pub fn scaled(x: u32, s: u32) -> u64
    ensures { (result ≡ scaled x s) × (result ≤ 34359738360) }
{
    match s {
        1 => x as u64,
        2 => 2 * x as u64,
        4 => 4 * x as u64,
        _ => 8 * x as u64,
    }
}

// The effective address.
pub fn address(r: Registers, o: Operand) -> u32
    ensures { result ≡ address r o }
{
    let b = r.read(o.base);
    let i = r.read(o.index);
    ((b as u64 + scaled(i, o.scale) + o.displacement as u64) % 4294967296) as u32
}

// The operand's access: none where it is a register.
pub fn want(w: bool, i: Instruction, r: Registers) -> Want
    ensures { result ≡ operand_want w i r }
{
    if i.operand.direct {
        return Want::Nothing;
    }
    let at = address(r, i.operand);
    if w {
        Want::Write(i.wide, at)
    } else {
        Want::Read(i.wide, at)
    }
}

// The operand's value, where a is what its access found.
pub fn value(i: Instruction, r: Registers, a: u32) -> u32
    ensures { result ≡ operand_value i r a }
{
    if i.operand.direct {
        r.read_at(i.wide, i.operand.register)
    } else {
        a
    }
}

// The registers once x is put into the operand: memory is stored to apart.
pub fn deposit(i: Instruction, r: Registers, x: u32) -> Registers
    ensures { result ≡ deposit i r x }
{
    if i.operand.direct {
        r.write_at(i.wide, i.operand.register, x)
    } else {
        r
    }
}

// ESP less four.
pub fn lowered(r: Registers) -> u32
    ensures { result ≡ lowered r }
{
    r.read(4).wrapping_sub(4)
}

// The registers with ESP four higher.
pub fn raised(r: Registers) -> Registers
    ensures { result ≡ raised r }
{
    r.with(4, r.read(4).wrapping_add(4))
}

// EIP past the instruction.
pub fn next(i: Instruction, k: Core) -> u32
    ensures { result ≡ next i k }
{
    k.eip.wrapping_add(i.length)
}

// Where a jump by x places leads.
pub fn target(i: Instruction, k: Core, x: u32) -> u32
    ensures { result ≡ target i k x }
{
    next(i, k).wrapping_add(x)
}

pub fn went(r: Registers, eip: u32, f: Flags, x: u32) -> Effect
    ensures { result ≡ went r eip f x }
{
    Effect {
        reply: Reply::Done,
        core: Core {
            regs: r,
            eip,
            flags: f,
        },
        value: x,
    }
}

pub fn refused(k: Core, q: Reply) -> Effect
    ensures { result ≡ refused k q }
{
    Effect {
        reply: q,
        core: k,
        value: 0,
    }
}

// On to the next instruction, with these registers.
pub fn onward(i: Instruction, k: Core, r: Registers) -> Effect
    ensures { result ≡ onward i k r }
{
    went(r, next(i, k), k.flags, 0)
}

// The same, with a status and a value to store.
pub fn advanced(i: Instruction, k: Core, r: Registers, s: Status, x: u32) -> Effect
    ensures { result ≡ advanced i k r s x }
{
    let flags = Flags {
        status: s,
        ..k.flags
    };
    went(r, next(i, k), flags, x)
}
