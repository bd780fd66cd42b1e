// PUSH, POP, CALL and RET: a value that is pushed is stored by the second access.
#![tactic(auto, unfolding(crate::specs::Stack::do_push, crate::specs::Stack::do_push_number, crate::specs::Stack::do_pop, crate::specs::Stack::do_call, crate::specs::Stack::do_call_to, crate::specs::Stack::do_return))]

ghost use Rattle.std.specs.Prelude.{◌≡◌};
ghost use Rattle.stack.specs.Stack.{pushed, do_push, do_push_number, do_pop, do_call, do_call_to, do_return};

use encoding::Instruction;
use machine::Core;
use operands::Effect;

// x goes on the stack, and the program goes on at eip.
fn pushed(k: Core, eip: u32, x: u32) -> Effect
    ensures { result ≡ pushed k eip x }
{
    let top = operands::lowered(k.regs);
    operands::went(k.regs.with(4, top), eip, k.flags, x)
}

pub fn push(i: Instruction, k: Core, a: u32) -> Effect
    ensures { result ≡ do_push i k a }
{
    pushed(k, operands::next(i, k), operands::value(i, k.regs, a))
}

pub fn push_number(i: Instruction, k: Core) -> Effect
    ensures { result ≡ do_push_number i k }
{
    pushed(k, operands::next(i, k), i.immediate)
}

pub fn pop(i: Instruction, k: Core, a: u32) -> Effect
    ensures { result ≡ do_pop i k a }
{
    let regs = operands::deposit(i, operands::raised(k.regs), a);
    operands::went(regs, operands::next(i, k), k.flags, a)
}

pub fn call(i: Instruction, k: Core) -> Effect
    ensures { result ≡ do_call i k }
{
    pushed(k, operands::target(i, k, i.immediate), operands::next(i, k))
}

pub fn call_to(i: Instruction, k: Core, a: u32) -> Effect
    ensures { result ≡ do_call_to i k a }
{
    pushed(k, operands::value(i, k.regs, a), operands::next(i, k))
}

// RET: to the address that was on the stack.
pub fn back(i: Instruction, k: Core, a: u32) -> Effect
    ensures { result ≡ do_return i k a }
{
    let up = ((k.regs.read(4) as u64 + 4 + i.immediate as u64) % 4294967296) as u32;
    operands::went(k.regs.with(4, up), a, k.flags, 0)
}
