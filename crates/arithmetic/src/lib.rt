// Operations of two operands and of one, shifts, multiplication and division.
#![tactic(auto, unfolding(crate::specs::Arithmetic::combined, crate::specs::Arithmetic::combined_from, crate::specs::Arithmetic::do_combine_to, crate::specs::Arithmetic::do_combine_immediate, crate::specs::Arithmetic::do_combine_from, crate::specs::Arithmetic::do_unary, crate::specs::Arithmetic::do_shift, crate::specs::Arithmetic::do_multiply, crate::specs::Arithmetic::do_divide, crate::specs::Arithmetic::do_accumulate, crate::specs::Arithmetic::do_multiply_by, crate::specs::Arithmetic::do_multiply_into))]

ghost use Rattle.std.specs.Prelude.{◌≡◌};
ghost use Rattle.arithmetic.specs.Arithmetic.{combined, combined_from, deposited, do_combine_to, do_combine_from, do_combine_immediate, do_unary, do_shift, upper, pair, do_multiply, do_divide, do_accumulate, timed, do_multiply_by, do_multiply_into};

use alu::Out;
use encoding::Instruction;
use machine::{Core, Registers, Reply};
use operands::Effect;
use products::Product;

// The result is put into the operand.
fn deposited(i: Instruction, k: Core, o: Out) -> Effect
    ensures { result ≡ deposited i k o }
{
    let regs = operands::deposit(i, k.regs, o.value);
    operands::advanced(i, k, regs, o.status, o.value)
}

#[tactic(auto, unfolding(crate::specs::Arithmetic::combined))]
fn combined(i: Instruction, k: Core, o: Out) -> Effect
    ensures { result ≡ combined i k o }
{
    if alu::writes(i.operation) {
        deposited(i, k, o)
    } else {
        operands::advanced(i, k, k.regs, o.status, o.value)
    }
}

#[tactic(auto, unfolding(crate::specs::Arithmetic::do_combine_to))]
pub fn combine_to(i: Instruction, k: Core, a: u32) -> Effect
    ensures { result ≡ do_combine_to i k a }
{
    let x = operands::value(i, k.regs, a);
    let y = k.regs.read_at(i.wide, i.register);
    combined(
        i,
        k,
        alu::operate(i.operation, i.wide, x, y, k.flags.status),
    )
}

#[tactic(auto, unfolding(crate::specs::Arithmetic::do_combine_immediate))]
pub fn combine_immediate(i: Instruction, k: Core, a: u32) -> Effect
    ensures { result ≡ do_combine_immediate i k a }
{
    let x = operands::value(i, k.regs, a);
    combined(
        i,
        k,
        alu::operate(i.operation, i.wide, x, i.immediate, k.flags.status),
    )
}

#[tactic(auto, unfolding(crate::specs::Arithmetic::combined_from))]
fn combined_from(i: Instruction, k: Core, o: Out) -> Effect
    ensures { result ≡ combined_from i k o }
{
    if alu::writes(i.operation) {
        let regs = k.regs.write_at(i.wide, i.register, o.value);
        operands::advanced(i, k, regs, o.status, 0)
    } else {
        operands::advanced(i, k, k.regs, o.status, 0)
    }
}

#[tactic(auto, unfolding(crate::specs::Arithmetic::do_combine_from))]
pub fn combine_from(i: Instruction, k: Core, a: u32) -> Effect
    ensures { result ≡ do_combine_from i k a }
{
    let x = operands::value(i, k.regs, a);
    let y = k.regs.read_at(i.wide, i.register);
    combined_from(
        i,
        k,
        alu::operate(i.operation, i.wide, y, x, k.flags.status),
    )
}

#[tactic(auto, unfolding(crate::specs::Arithmetic::do_unary))]
pub fn unary(i: Instruction, k: Core, a: u32) -> Effect
    ensures { result ≡ do_unary i k a }
{
    let x = operands::value(i, k.regs, a);
    deposited(
        i,
        k,
        alu::operate_one(i.operation, i.wide, x, k.flags.status),
    )
}

#[tactic(auto, unfolding(crate::specs::Arithmetic::do_shift))]
pub fn shift(i: Instruction, k: Core, count: u32, a: u32) -> Effect
    ensures { result ≡ do_shift i k count a }
{
    let x = operands::value(i, k.regs, a);
    deposited(
        i,
        k,
        shifts::shift(i.operation, i.wide, count, x, k.flags.status),
    )
}

// The register of a pair's upper half: EDX, or AH.
// Stays: one function for this and encoding's `four_or_one` would take the two numbers, and say less than the `if`.
fn upper(wide: bool) -> u32
    ensures { result ≡ upper wide }
{
    if wide { 2 } else { 4 }
}

// EAX and EDX, or AL and AH.
fn pair(wide: bool, r: Registers, low: u32, high: u32) -> Registers
    ensures { result ≡ pair wide r low high }
{
    r.write_at(wide, 0, low).write_at(wide, upper(wide), high)
}

#[tactic(auto, unfolding(crate::specs::Arithmetic::do_multiply))]
fn multiply(i: Instruction, k: Core, x: u32) -> Effect
    ensures { result ≡ do_multiply i k x }
{
    let low = k.regs.read_at(i.wide, 0);
    let p = products::multiply(i.operation == 5, i.wide, low, x, k.flags.status);
    let regs = pair(i.wide, k.regs, p.low, p.high);
    operands::advanced(i, k, regs, p.status, 0)
}

fn divide(i: Instruction, k: Core, x: u32) -> Effect
    ensures { result ≡ do_divide i k x }
{
    let high = k.regs.read_at(i.wide, upper(i.wide));
    let low = k.regs.read_at(i.wide, 0);
    let Some(d) = products::divide(i.operation == 7, i.wide, high, low, x) else {
        return operands::refused(k, Reply::Fault(0, 0, 0));
    };
    operands::onward(i, k, pair(i.wide, k.regs, d.quotient, d.remainder))
}

#[tactic(auto, unfolding(crate::specs::Arithmetic::do_accumulate))]
pub fn accumulate(i: Instruction, k: Core, a: u32) -> Effect
    ensures { result ≡ do_accumulate i k a }
{
    let x = operands::value(i, k.regs, a);
    if i.operation < 6 {
        multiply(i, k, x)
    } else {
        divide(i, k, x)
    }
}

fn timed(i: Instruction, k: Core, p: Product) -> Effect
    ensures { result ≡ timed i k p }
{
    operands::advanced(i, k, k.regs.with(i.register, p.low), p.status, 0)
}

#[tactic(auto, unfolding(crate::specs::Arithmetic::do_multiply_by))]
pub fn multiply_by(i: Instruction, k: Core, a: u32) -> Effect
    ensures { result ≡ do_multiply_by i k a }
{
    let x = operands::value(i, k.regs, a);
    timed(
        i,
        k,
        products::multiply(true, true, x, i.immediate, k.flags.status),
    )
}

#[tactic(auto, unfolding(crate::specs::Arithmetic::do_multiply_into))]
pub fn multiply_into(i: Instruction, k: Core, a: u32) -> Effect
    ensures { result ≡ do_multiply_into i k a }
{
    let x = operands::value(i, k.regs, a);
    let y = k.regs.read(i.register);
    timed(i, k, products::multiply(true, true, y, x, k.flags.status))
}
