// A condition without its table's row: a constant table that is indexed in a function is laid out anew at each call.
ghost use Rattle.std.specs.Prelude.{◌≡◌};
ghost use Rattle.alu.specs.Brief.{status_in};
ghost use Rattle.conditions.specs.Conditions.{holds};

use alu::brief::Brief;

// Stays: the condition is the opcode's low four bits.
pub fn holds(n: u32, f: Brief) -> bool
    ensures { result ≡ holds n (status_in f) }
{
    match n {
        0 => alu::brief::overflow(f),
        1 => !alu::brief::overflow(f),
        2 => alu::brief::carry(f),
        3 => !alu::brief::carry(f),
        4 => f.seen == 0,
        5 => !(f.seen == 0),
        6 => alu::brief::carry(f) | (f.seen == 0),
        7 => !(alu::brief::carry(f) | (f.seen == 0)),
        8 => 0x8000_0000 <= f.seen,
        9 => !(0x8000_0000 <= f.seen),
        10 => alu::even(f.seen),
        11 => !alu::even(f.seen),
        12 => (0x8000_0000 <= f.seen) != alu::brief::overflow(f),
        13 => !((0x8000_0000 <= f.seen) != alu::brief::overflow(f)),
        14 => (f.seen == 0) | ((0x8000_0000 <= f.seen) != alu::brief::overflow(f)),
        15 => !((f.seen == 0) | ((0x8000_0000 <= f.seen) != alu::brief::overflow(f))),
        _ => false,
    }
}
