// CMC CLC STC CLI STI CLD STD, SAHF and LAHF.
#![tactic(auto, unfolding(crate::specs::FlagOperations::changed, crate::specs::FlagOperations::do_flag, crate::specs::FlagOperations::do_transfer))]

ghost use Rattle.std.specs.Prelude.{◌≡◌};
ghost use Rattle.flags.specs.FlagOperations.{with_carry, changed, do_flag, from_byte, to_byte, do_transfer};

use alu::Status;
use encoding::Instruction;
use machine::{Core, Flags};
use operands::Effect;

fn with_carry(f: Flags, b: bool) -> Flags
    ensures { result ≡ with_carry f b }
{
    Flags {
        status: Status { cf: b, ..f.status },
        ..f
    }
}

// Stays: the operation is the opcode's last digit, as the manual lists these opcodes.
fn changed(op: u32, f: Flags) -> Flags
    ensures { result ≡ changed op f }
{
    match op {
        5 => with_carry(f, !f.status.cf),
        8 => with_carry(f, false),
        9 => with_carry(f, true),
        10 => Flags {
            interrupt: false,
            ..f
        },
        11 => Flags {
            interrupt: true,
            ..f
        },
        _ => Flags {
            direction: !(op == 12),
            ..f
        },
    }
}

pub fn flag(i: Instruction, k: Core) -> Effect
    ensures { result ≡ do_flag i k }
{
    let flags = changed(i.operation, k.flags);
    operands::went(k.regs, operands::next(i, k), flags, 0)
}

fn from_byte(s: Status, x: u32) -> Status
    ensures { result ≡ from_byte s x }
{
    Status {
        cf: x % 2 == 1,
        pf: x / 4 % 2 == 1,
        af: x / 16 % 2 == 1,
        zf: x / 64 % 2 == 1,
        sf: x / 128 % 2 == 1,
        ..s
    }
}

fn to_byte(s: Status) -> u32
    ensures { result ≡ to_byte s }
{
    2 + machine::weighed(s.cf, 1)
        + machine::weighed(s.pf, 4)
        + machine::weighed(s.af, 16)
        + machine::weighed(s.zf, 64)
        + machine::weighed(s.sf, 128)
}

pub fn transfer(i: Instruction, k: Core) -> Effect
    ensures { result ≡ do_transfer i k }
{
    if i.operation == 14 {
        let flags = Flags {
            status: from_byte(k.flags.status, k.regs.read_byte(4)),
            ..k.flags
        };
        operands::went(k.regs, operands::next(i, k), flags, 0)
    } else {
        operands::onward(i, k, k.regs.with_byte(4, to_byte(k.flags.status)))
    }
}
