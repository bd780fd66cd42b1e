// Sums, differences and logic with their flags, at 8 and 32 bits.
#![tactic(auto)]

pub mod brief;
pub mod word;

ghost use Rattle.std.specs.Prelude.{◌≡◌, Bool, true, false, ◌+◌, ◌-◌, ◌*◌, ◌/◌, ◌%◌, ◌^◌, ◌<◌, ◌≤◌};
ghost use Rattle.std.specs.Int.Bits.{bit_and, bit_or, bit_xor};
ghost use Rattle.alu.specs.Arithmetic.{bit, bits, parity, sum, difference, logic, operation, operate, writes, keep_carry, single, operate_one, signed_byte};

use word::Word;

// The six flags that arithmetic sets.
#[derive(Clone, Copy, PartialEq, Eq)]
pub struct Status {
    pub cf: bool,
    pub pf: bool,
    pub af: bool,
    pub zf: bool,
    pub sf: bool,
    pub of: bool,
}

#[derive(Clone, Copy, PartialEq, Eq)]
pub struct Out {
    pub value: u32,
    pub status: Status,
}

#[tactic(auto, unfolding(crate::specs::Arithmetic::parity))]
pub fn even(x: u32) -> bool
    ensures { result ≡ parity x }
{
    (x % 256).count_ones() % 2 == 0
}

pub fn add<W: Word>(a: W, b: W, c: bool) -> Out
    ensures { result ≡ sum (bits W.wide) (W.number a) (W.number b) (bit c) }
{
    brief::out_in(brief::add(a, b, c))
}

pub fn sub<W: Word>(a: W, b: W, c: bool) -> Out
    ensures { result ≡ difference (bits W.wide) (W.number a) (W.number b) (bit c) }
{
    brief::out_in(brief::sub(a, b, c))
}

#[tactic(auto, unfolding(crate::specs::Arithmetic::logic_status))]
pub fn logic<W: Word>(r: W, s: Status) -> Out
    ensures { result ≡ logic (bits W.wide) s (W.number r) }
{
    brief::out_in(brief::logic(r, brief::kept(s)))
}

// Stays: the operation is the opcode's own bits or the reg field, which decoding takes over as they are; an enum would put a second match before this one.
#[tactic(auto, unfolding(crate::specs::Arithmetic::operation))]
fn operate_at<W: Word>(op: u32, a: W, b: W, s: Status) -> Out
    ensures { result ≡ operation op (bits W.wide) (W.number a) (W.number b) s }
{
    match op {
        0 => add(a, b, false),
        1 => logic(a | b, s),
        2 => add(a, b, s.cf),
        3 => sub(a, b, s.cf),
        4 => logic(a & b, s),
        5 => sub(a, b, false),
        6 => logic(a ^ b, s),
        7 => sub(a, b, false),
        8 => logic(a & b, s),
        _ => Out {
            value: b.number(),
            status: s,
        },
    }
}

// An operation of two operands, at a width.
#[tactic(auto, unfolding(crate::specs::Arithmetic::operate))]
pub fn operate(op: u32, wide: bool, a: u32, b: u32, s: Status) -> Out
    ensures { result ≡ operate op wide a b s }
{
    if wide {
        operate_at(op, a, b, s)
    } else {
        operate_at(op, u8::low(a), u8::low(b), s)
    }
}

// Does the operation write its first operand?
pub fn writes(op: u32) -> bool
    ensures { result ≡ writes op }
{
    !((op == 7) | (op == 8))
}

// The same with CF as it was before.
fn keep_carry(s: Status, o: Out) -> Out
    ensures { result ≡ record { value = o.value; status = keep_carry s o.status } }
{
    Out {
        status: Status {
            cf: s.cf,
            ..o.status
        },
        ..o
    }
}

// Stays: as `operate_at`.
#[tactic(auto, unfolding(crate::specs::Arithmetic::single))]
fn single_at<W: Word>(op: u32, a: W, s: Status) -> Out
    ensures { result ≡ single op (bits W.wide) (W.number a) s }
{
    match op {
        0 => keep_carry(s, add(a, W::low(1), false)),
        1 => keep_carry(s, sub(a, W::low(1), false)),
        2 => Out {
            value: (W::VALUES - 1) as u32 - a.number(),
            status: s,
        },
        _ => sub(W::low(0), a, false),
    }
}

// An operation of one operand, at a width.
#[tactic(auto, unfolding(crate::specs::Arithmetic::operate_one))]
pub fn operate_one(op: u32, wide: bool, a: u32, s: Status) -> Out
    ensures { result ≡ operate_one op wide a s }
{
    if wide {
        single_at(op, a, s)
    } else {
        single_at(op, u8::low(a), s)
    }
}

// A byte with its sign, as a dword.
pub fn signed_byte(x: u32) -> u32
    requires { x < 256 }
    ensures { result ≡ signed_byte x }
{
    if x < 128 { x } else { x + 4294967040 }
}
