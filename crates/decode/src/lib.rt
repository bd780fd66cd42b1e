// Decoding, byte after byte from EIP, into one uniform Instruction.
#![tactic(auto)]

ghost use Rattle.std.specs.Prelude.{◌≡◌};
ghost use Rattle.machine.specs.Paging.{view};
ghost use Rattle.fetch.specs.Read.{log_at};
ghost use Rattle.decode.specs.Decode.{scale_of, index_of, displacement_bytes, displaced, after_sib, after_modrm, finish, with_modrm, with_offset, classed, decode};
ghost use Rattle.decode.specs.Read.{shown, PrefixOk, OpcodeOk, formed_of, ready_of};

use access::View;
use encoding::{Class, Classes, Instruction, Operand};
use fetch::{Code, Fetched};
use machine::Reply;

// An operand, and how many bytes are fetched by then.
#[derive(Clone, Copy)]
pub struct Formed {
    pub operand: Operand,
    pub length: u32,
}

// The first byte that is no override.
fn prefixed(s: &Code, t: &Classes) -> Result<Fetched, Reply>
    ensures { PrefixOk s.now result }
{
    for n in 0..16 {
        let byte = s.byte(n)?;
        match t.at(byte.value) {
            Class::Override => {}
            _ => return Ok(byte),
        }
    }
    Err(Reply::Fault(13, 0, 0))
}

// The opcode: 256 and up after 0F.
#[tactic(auto, unfolding(crate::specs::Decode::opcode, crate::specs::Decode::escaped))]
fn opcode(s: &Code, t: &Classes) -> Result<Fetched, Reply>
    ensures { OpcodeOk s.now result }
{
    let first = prefixed(s, t)?;
    match t.at(first.value) {
        Class::Escape => {}
        _ => return Ok(first),
    }
    let second = s.byte(first.length)?;
    Ok(Fetched {
        value: second.value + 256,
        length: second.length,
    })
}

pub fn scale_of(s: u32) -> u32
    ensures { result ≡ scale_of s }
{
    if s < 64 {
        return 1;
    }
    if s < 128 {
        return 2;
    }
    if s < 192 {
        return 4;
    }
    8
}

pub fn index_of(s: u32) -> u32
    ensures { result ≡ index_of s }
{
    if s / 8 % 8 == 4 {
        return 8;
    }
    s / 8 % 8
}

fn displacement_bytes(md: u32) -> u32
    ensures { result ≡ displacement_bytes md }
{
    if md == 1 {
        return 1;
    }
    if md == 2 {
        return 4;
    }
    0
}

// An operand in memory, with a displacement of so many bytes.
fn displaced(
    s: &Code,
    n: u32,
    size: u32,
    base: u32,
    index: u32,
    scale: u32,
) -> Result<Formed, Reply>
    ensures { formed_of s.now.eip result ≡ displaced s.now.eip size base index scale (shown s.now) (log_at s.now.eip n) }
{
    let x = s.number(n, size)?;
    Ok(Formed {
        operand: Operand {
            direct: false,
            register: 0,
            base,
            index,
            scale,
            displacement: x.value,
        },
        length: x.length,
    })
}

#[tactic(auto, unfolding(crate::specs::Decode::after_sib))]
fn after_sib(s: &Code, n: u32, md: u32, b: u32) -> Result<Formed, Reply>
    ensures { formed_of s.now.eip result ≡ after_sib s.now.eip md b (shown s.now) (log_at s.now.eip n) }
{
    let index = index_of(b);
    let scale = scale_of(b);
    if (b % 8 == 5) & (md == 0) {
        return displaced(s, n, 4, 8, index, scale);
    }
    let size = displacement_bytes(md);
    displaced(s, n, size, b % 8, index, scale)
}

// What follows the ModRM byte b.
#[tactic(auto, unfolding(crate::specs::Decode::after_modrm))]
fn after_modrm(s: &Code, n: u32, b: u32) -> Result<Formed, Reply>
    ensures { formed_of s.now.eip result ≡ after_modrm s.now.eip b (shown s.now) (log_at s.now.eip n) }
{
    if 192 <= b {
        return Ok(Formed {
            operand: Operand {
                direct: true,
                register: b % 8,
                base: 8,
                index: 8,
                scale: 1,
                displacement: 0,
            },
            length: n,
        });
    }
    if b % 8 == 4 {
        let sib = s.byte(n)?;
        return after_sib(s, sib.length, b / 64, sib.value);
    }
    if (b / 64 == 0) & (b % 8 == 5) {
        return displaced(s, n, 4, 8, 8, 1);
    }
    let size = displacement_bytes(b / 64);
    displaced(s, n, size, b % 8, 8, 1)
}

// The immediate, and the whole instruction.
#[tactic(auto, unfolding(crate::specs::Decode::finish))]
fn finish(s: &Code, n: u32, c: Class, b: u32, reg: u32, o: Operand) -> Result<Instruction, Reply>
    ensures { ready_of s.now.eip result ≡ finish s.now.eip c b reg o (shown s.now) (log_at s.now.eip n) }
{
    let immediate = s.number(n, encoding::immediate_bytes(c, b, reg))?;
    Ok(Instruction {
        family: encoding::family_of(c, reg),
        operation: encoding::operation_of(c, b, reg),
        wide: encoding::is_wide(c, b),
        register: reg,
        operand: o,
        immediate: encoding::immediate_of(c, immediate.value),
        length: immediate.length,
    })
}

#[tactic(auto, unfolding(crate::specs::Decode::with_modrm, crate::specs::Decode::judged))]
fn with_modrm(s: &Code, n: u32, c: Class, b: u32) -> Result<Instruction, Reply>
    ensures { ready_of s.now.eip result ≡ with_modrm s.now.eip c b (shown s.now) (log_at s.now.eip n) }
{
    let modrm = s.byte(n)?;
    let m = modrm.value;
    if encoding::undefined_form(c, m) {
        return Err(Reply::Fault(6, 0, 0));
    }
    if encoding::unbuilt_form(c, m) {
        return Err(Reply::NotBuilt(s.eip));
    }
    let f = after_modrm(s, modrm.length, m)?;
    finish(s, f.length, c, b, m / 8 % 8, f.operand)
}

// A0 to A3: the address stands in the instruction.
#[tactic(auto, unfolding(crate::specs::Decode::with_offset))]
fn with_offset(s: &Code, n: u32, c: Class, b: u32) -> Result<Instruction, Reply>
    ensures { ready_of s.now.eip result ≡ with_offset s.now.eip c b (shown s.now) (log_at s.now.eip n) }
{
    let x = s.number(n, 4)?;
    let o = Operand {
        direct: false,
        register: 0,
        base: 8,
        index: 8,
        scale: 1,
        displacement: x.value,
    };
    finish(s, x.length, c, b, 0, o)
}

#[tactic(auto, unfolding(crate::specs::Decode::classed))]
fn classed(s: &Code, n: u32, c: Class, b: u32) -> Result<Instruction, Reply>
    ensures { ready_of s.now.eip result ≡ classed s.now.eip c b (shown s.now) (log_at s.now.eip n) }
{
    match c {
        Class::NotBuilt => return Err(Reply::NotBuilt(s.eip)),
        Class::Undefined => return Err(Reply::Fault(6, 0, 0)),
        _ => {}
    }
    if encoding::has_modrm(c) {
        return with_modrm(s, n, c, b);
    }
    if encoding::has_offset(c) {
        return with_offset(s, n, c, b);
    }
    let o = Operand {
        direct: true,
        register: encoding::implied_register(c, b),
        base: 8,
        index: 8,
        scale: 1,
        displacement: 0,
    };
    finish(s, n, c, b, 0, o)
}

// The instruction at eip.
#[tactic(auto, unfolding(crate::specs::Decode::decode))]
pub fn decode(v: &View, t: &Classes, eip: u32) -> Result<Instruction, Reply>
    ensures { ready_of eip result ≡ decode eip (view v.now.mem.now v.now.control) (log_at eip 0) }
{
    let s = Code::open(v, eip);
    let b = opcode(&s, t)?;
    let c = t.at(b.value);
    classed(&s, b.length, c, b.value)
}
