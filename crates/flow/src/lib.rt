// Jumps, LOOP forms, INT and HLT.
#![tactic(auto, unfolding(crate::specs::Flow::do_jump_on, crate::specs::Flow::do_jump, crate::specs::Flow::do_jump_to, crate::specs::Flow::do_loop, crate::specs::Flow::do_trap, crate::specs::Flow::do_halt))]

ghost use Rattle.std.specs.Prelude.{◌≡◌};
ghost use Rattle.flow.specs.Flow.{jumped, again, counted, looped, do_jump_on, do_jump, do_jump_to, do_loop, do_trap, do_halt};

use encoding::Instruction;
use machine::{Core, Reply};
use operands::Effect;

fn jumped(k: Core, eip: u32) -> Effect
    ensures { result ≡ jumped k eip }
{
    operands::went(k.regs, eip, k.flags, 0)
}

pub fn jump_on(i: Instruction, k: Core) -> Effect
    ensures { result ≡ do_jump_on i k }
{
    if conditions::condition(i.operation, k.flags.status) {
        jumped(k, operands::target(i, k, i.immediate))
    } else {
        jumped(k, operands::next(i, k))
    }
}

pub fn jump(i: Instruction, k: Core) -> Effect
    ensures { result ≡ do_jump i k }
{
    jumped(k, operands::target(i, k, i.immediate))
}

pub fn jump_to(i: Instruction, k: Core, a: u32) -> Effect
    ensures { result ≡ do_jump_to i k a }
{
    jumped(k, operands::value(i, k.regs, a))
}

// Does a LOOP form go on, by ZF?
// Stays: the operation is the opcode's last two bits.
fn by_zero_flag(op: u32, zf: bool) -> bool
    ensures { result ≡ again op zf }
{
    match op {
        0 => !zf,
        1 => zf,
        _ => true,
    }
}

fn looped(i: Instruction, k: Core) -> Effect
    ensures { result ≡ looped i k }
{
    let n = k.regs.read(1).wrapping_sub(1);
    let regs = k.regs.with(1, n);
    let test = !(n == 0) & by_zero_flag(i.operation, k.flags.status.zf);
    if test {
        operands::went(regs, operands::target(i, k, i.immediate), k.flags, 0)
    } else {
        operands::went(regs, operands::next(i, k), k.flags, 0)
    }
}

pub fn again(i: Instruction, k: Core) -> Effect
    ensures { result ≡ do_loop i k }
{
    if i.operation != 3 {
        return looped(i, k);
    }
    if k.regs.read(1) == 0 {
        jumped(k, operands::target(i, k, i.immediate))
    } else {
        jumped(k, operands::next(i, k))
    }
}

pub fn trap(i: Instruction, k: Core) -> Effect
    ensures { result ≡ do_trap i k }
{
    operands::refused(k, Reply::Trap(i.immediate % 256, operands::next(i, k)))
}

pub fn halt(i: Instruction, k: Core) -> Effect
    ensures { result ≡ do_halt i k }
{
    operands::refused(k, Reply::Halt(operands::next(i, k)))
}
