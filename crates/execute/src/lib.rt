// An instruction in document 01's phases: which accesses it makes, and what it computes of what they find. Memory is never touched here.
#![tactic(auto)]

ghost use Rattle.std.specs.Prelude.{◌≡◌};
ghost use Rattle.execute.specs.Execute.{permitted, writes_operand, reads_operand, first, second, compute};

use encoding::{Family, Instruction};
use machine::{Core, Registers, Reply, Want};
use operands::Effect;

// May it be carried out in this ring?
pub fn permitted(i: Instruction, iopl: u32, ring: u32) -> bool
    ensures { result ≡ permitted i iopl ring }
{
    match i.family {
        Family::Halt => !(ring == 3),
        Family::Flag => !(((i.operation == 10) | (i.operation == 11)) & (iopl < ring)),
        _ => true,
    }
}

#[tactic(auto, unfolding(crate::specs::Execute::writes_operand))]
fn writes_operand(i: Instruction) -> bool
    ensures { result ≡ writes_operand i }
{
    match i.family {
        Family::CombineTo | Family::CombineImmediate => alu::writes(i.operation),
        Family::Unary | Family::ShiftBy | Family::ShiftByCl | Family::Swap | Family::SetOn => true,
        _ => false,
    }
}

#[tactic(auto, unfolding(crate::specs::Execute::reads_operand))]
fn reads_operand(i: Instruction) -> bool
    ensures { result ≡ reads_operand i }
{
    matches!(
        i.family,
        Family::CombineTo
            | Family::CombineImmediate
            | Family::CombineFrom
            | Family::Accumulate
            | Family::MultiplyBy
            | Family::MultiplyInto
            | Family::Extend
            | Family::Push
            | Family::JumpTo
            | Family::CallTo
    )
}

// The first access: the stack for POP and RET, else the memory operand.
#[tactic(auto, unfolding(crate::specs::Execute::first))]
pub fn first(i: Instruction, r: Registers) -> Want
    ensures { result ≡ first i r }
{
    if matches!(i.family, Family::Pop | Family::Return) {
        return Want::Read(true, r.read(4));
    }
    if writes_operand(i) {
        return operands::want(true, i, r);
    }
    if reads_operand(i) {
        return operands::want(false, i, r);
    }
    Want::Nothing
}

// The second access: what is pushed, or the memory that POP writes.
#[tactic(auto, unfolding(crate::specs::Execute::second))]
pub fn second(i: Instruction, r: Registers) -> Want
    ensures { result ≡ second i r }
{
    match i.family {
        Family::Push | Family::PushNumber | Family::Call | Family::CallTo => {
            Want::Write(true, operands::lowered(r))
        }
        Family::Pop => operands::want(true, i, operands::raised(r)),
        _ => Want::Nothing,
    }
}

// What comes of an instruction, where a is what its first access found.
#[tactic(auto, unfolding(crate::specs::Execute::compute))]
pub fn compute(i: Instruction, k: Core, a: u32) -> Effect
    ensures { result ≡ compute i k a }
{
    match i.family {
        Family::CombineTo => arithmetic::combine_to(i, k, a),
        Family::CombineFrom => arithmetic::combine_from(i, k, a),
        Family::CombineImmediate => arithmetic::combine_immediate(i, k, a),
        Family::Unary => arithmetic::unary(i, k, a),
        Family::ShiftBy => arithmetic::shift(i, k, i.immediate, a),
        Family::ShiftByCl => arithmetic::shift(i, k, k.regs.read_byte(1), a),
        Family::Accumulate => arithmetic::accumulate(i, k, a),
        Family::MultiplyBy => arithmetic::multiply_by(i, k, a),
        Family::MultiplyInto => arithmetic::multiply_into(i, k, a),
        Family::Extend => moves::extend(i, k, a),
        Family::AddressOf => moves::address(i, k),
        Family::Swap => moves::swap(i, k, a),
        Family::Push => stack::push(i, k, a),
        Family::PushNumber => stack::push_number(i, k),
        Family::Pop => stack::pop(i, k, a),
        Family::SetOn => moves::set(i, k),
        Family::JumpOn => flow::jump_on(i, k),
        Family::Jump => flow::jump(i, k),
        Family::JumpTo => flow::jump_to(i, k, a),
        Family::Call => stack::call(i, k),
        Family::CallTo => stack::call_to(i, k, a),
        Family::Return => stack::back(i, k, a),
        Family::Loop => flow::again(i, k),
        Family::Flag => flags::flag(i, k),
        Family::Transfer => flags::transfer(i, k),
        Family::Convert => moves::convert(i, k),
        Family::Trap => flow::trap(i, k),
        Family::Halt => flow::halt(i, k),
    }
}
