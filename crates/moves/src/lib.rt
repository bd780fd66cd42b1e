// MOVZX, MOVSX, LEA, XCHG, SETcc, CWDE and CDQ.
#![tactic(auto, unfolding(crate::specs::Moves::do_extend, crate::specs::Moves::do_address, crate::specs::Moves::do_swap, crate::specs::Moves::do_set, crate::specs::Moves::do_convert))]

ghost use Rattle.std.specs.Prelude.{◌≡◌, ◌<◌};
ghost use Rattle.machine.specs.Record.{digit};
ghost use Rattle.conditions.specs.Conditions.{holds};
ghost use Rattle.moves.specs.Moves.{extended, do_extend, do_address, do_swap, do_set, signed_word, signs, do_convert};

use encoding::Instruction;
use machine::Core;
use operands::Effect;

fn extended(op: u32, x: u32) -> u32
    requires { x < 256 }
    ensures { result ≡ extended op x }
{
    if op == 1 {
        return alu::signed_byte(x);
    }
    x
}

pub fn extend(i: Instruction, k: Core, a: u32) -> Effect
    ensures { result ≡ do_extend i k a }
{
    let x = extended(i.operation, operands::value(i, k.regs, a) % 256);
    operands::onward(i, k, k.regs.with(i.register, x))
}

pub fn address(i: Instruction, k: Core) -> Effect
    ensures { result ≡ do_address i k }
{
    let x = operands::address(k.regs, i.operand);
    operands::onward(i, k, k.regs.with(i.register, x))
}

pub fn swap(i: Instruction, k: Core, a: u32) -> Effect
    ensures { result ≡ do_swap i k a }
{
    let x = operands::value(i, k.regs, a);
    let y = k.regs.read_at(i.wide, i.register);
    let regs = operands::deposit(i, k.regs, y).write_at(i.wide, i.register, x);
    operands::went(regs, operands::next(i, k), k.flags, y)
}

pub fn set(i: Instruction, k: Core) -> Effect
    ensures { result ≡ do_set i k }
{
    let x = u32::from(conditions::condition(i.operation, k.flags.status));
    let regs = operands::deposit(i, k.regs, x);
    operands::went(regs, operands::next(i, k), k.flags, x)
}

// Stays: beside `signed_byte` this is one line, and one function for both would take two constants to save it.
fn signed_word(x: u32) -> u32
    requires { x < 65536 }
    ensures { result ≡ signed_word x }
{
    if x < 32768 { x } else { x + 4294901760 }
}

fn signs(x: u32) -> u32
    ensures { result ≡ signs x }
{
    if x < 2147483648 { 0 } else { 4294967295 }
}

pub fn convert(i: Instruction, k: Core) -> Effect
    ensures { result ≡ do_convert i k }
{
    let x = k.regs.read(0);
    if i.operation == 8 {
        operands::onward(i, k, k.regs.with(0, signed_word(x % 65536)))
    } else {
        operands::onward(i, k, k.regs.with(2, signs(x)))
    }
}
