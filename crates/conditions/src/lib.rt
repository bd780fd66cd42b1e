// The sixteen conditions: a constant row for each, read by Jcc and SETcc alike.
#![tactic(auto)]

ghost use Rattle.std.specs.Prelude.{◌≡◌};
ghost use Rattle.conditions.specs.Conditions.{holds, row_holds};

use alu::Status;

// What a row may name, a bit each: flags, less (SF and OF differ), and whether the condition is that none of those holds. A row is a byte because the
// table is laid out anew wherever it is indexed.
// Stays: the conditions are a constant array of rows, a form that the project names (docs/DECISIONS.md, "Forms"); as structs of bools a row cost 78 host
// instructions to read.
const O: u8 = 1;

const C: u8 = 2;

const Z: u8 = 4;

const S: u8 = 8;

const P: u8 = 16;

const LESS: u8 = 32;

const NONE: u8 = 64;

const ROWS: [u8; 16] = [
    O,
    O + NONE,
    C,
    C + NONE,
    Z,
    Z + NONE,
    C + Z,
    C + Z + NONE,
    S,
    S + NONE,
    P,
    P + NONE,
    LESS,
    LESS + NONE,
    Z + LESS,
    Z + LESS + NONE,
];

pub fn row_holds(row: u8, f: Status) -> bool
    ensures { result ≡ row_holds row f }
{
    let any = ((row % 2 == 1) & f.of)
        | ((row / 2 % 2 == 1) & f.cf)
        | ((row / 4 % 2 == 1) & f.zf)
        | ((row / 8 % 2 == 1) & f.sf)
        | ((row / 16 % 2 == 1) & f.pf)
        | ((row / 32 % 2 == 1) & (f.sf != f.of));
    any != (row / 64 % 2 == 1)
}

// Does the condition hold? Numbers above 15 name none.
pub fn condition(n: u32, f: Status) -> bool
    ensures { result ≡ holds n f }
{
    if n < 16 {
        return row_holds(ROWS[n as usize], f);
    }
    false
}
