// Reading an instruction's bytes where all of them are there.
ghost use Rattle.std.specs.Prelude.{◌≡◌, ℕ, ◌+◌, ◌/◌, ◌%◌, ◌<◌, ◌≤◌, ◌≢◌, length};
ghost use Rattle.machine.specs.Record.{Mem, at};
ghost use Rattle.machine.specs.Paging.{dword_at};
ghost use Rattle.decode.specs.Decode.{in_memory, index_of, scale_of};
ghost use Rattle.operands.specs.Operands.{address};
ghost use Rattle.outcome.specs.Outcome.{file};
ghost use Rattle.shortcut.specs.Bytes.{sib_at, sib_bytes, operand_at, operand_bytes};
ghost use Rattle.shortcut.specs.Forms.{number_at, spot_of, up_to};

// Where a memory operand lies, 0 for a register; and how many bytes the instruction has up to its immediate.
#[derive(Clone, Copy)]
pub struct Spot {
    pub at: u32,
    pub upto: u32,
}

pub fn byte(mem: &[u8], i: usize) -> u32
    requires { i < length mem.now }
    ensures { (result ≡ at mem.now i) × (result < 256) }
{
    paging::present_byte(mem, i)
}

pub fn dword(mem: &[u8], i: usize) -> u32
    requires { i + 3 < length mem.now }
    ensures { result ≡ dword_at mem.now i }
{
    paging::present_dword(mem, i)
}

// An immediate of four bytes, or of one with its sign.
pub fn number(mem: &[u8], j: usize, long: bool) -> u32
    requires { j + 3 < length mem.now }
    ensures { result ≡ number_at long mem.now j }
{
    if long {
        return dword(mem, j);
    }
    fetch::extend(byte(mem, j))
}

fn place(e: &[u32], base: u32, index: u32, scale: u32, x: u32) -> u32
    ensures { result ≡ address (file e.now) (in_memory base index scale x) }
{
    let b = outcome::register(e, base);
    let i = outcome::register(e, index);
    ((b as u64 + operands::scaled(i, scale) + x as u64) % 4294967296) as u32
}

// With the index and the scale of the SIB byte s.
fn indexed(e: &[u32], base: u32, s: u32, x: u32) -> u32
    ensures { result ≡ address (file e.now) (in_memory base (index_of s) (scale_of s) x) }
{
    place(e, base, decode::index_of(s), decode::scale_of(s), x)
}

// The SIB byte is at j; md is the mod field.
fn sib(mem: &[u8], e: &[u32], j: usize, md: u32) -> Spot
    requires { (j + 5 < length mem.now) × (md < 3) }
    ensures { (result.at ≡ address (file e.now) (sib_at mem.now j md)) × (result.upto ≡ 2 + sib_bytes mem.now j md) }
{
    let s = byte(mem, j);
    if md == 1 {
        return Spot {
            at: indexed(e, s % 8, s, fetch::extend(byte(mem, j + 1))),
            upto: 4,
        };
    }
    if md == 2 {
        return Spot {
            at: indexed(e, s % 8, s, dword(mem, j + 1)),
            upto: 7,
        };
    }
    if s % 8 == 5 {
        return Spot {
            at: indexed(e, 8, s, dword(mem, j + 1)),
            upto: 7,
        };
    }
    Spot {
        at: indexed(e, s % 8, s, 0),
        upto: 3,
    }
}

// A register and a signed byte beside it.
fn beside(mem: &[u8], e: &[u32], j: usize, b: u32) -> Spot
    requires { (j < length mem.now) × ((b / 64 ≡ 1) × (b % 8 ≢ 4)) }
    ensures { (result.at ≡ address (file e.now) (operand_at mem.now j b)) × (result.upto ≡ 2 + operand_bytes mem.now j b) }
{
    Spot {
        at: place(e, b % 8, 8, 1, fetch::extend(byte(mem, j))),
        upto: 3,
    }
}

// A register alone.
fn alone(e: &[u32], b: u32) -> Spot
    requires { (b / 64 ≡ 0) × ((b % 8 ≢ 4) × (b % 8 ≢ 5)) }
    ensures { (m : Mem) (j : ℕ) → (result.at ≡ address (file e.now) (operand_at m j b)) × (result.upto ≡ 2 + operand_bytes m j b) }
{
    Spot {
        at: place(e, b % 8, 8, 1, 0),
        upto: 2,
    }
}

// A memory operand; b is the ModRM byte, and j the index of the byte after it. Its length is a constant on each path.
pub fn form(mem: &[u8], e: &[u32], j: usize, b: u32) -> Spot
    requires { (j + 5 < length mem.now) × (b < 192) }
    ensures { (result.at ≡ address (file e.now) (operand_at mem.now j b)) × (result.upto ≡ 2 + operand_bytes mem.now j b) }
{
    if b % 8 == 4 {
        return sib(mem, e, j, b / 64);
    }
    if b / 64 == 1 {
        return beside(mem, e, j, b);
    }
    if b / 64 == 2 {
        return Spot {
            at: place(e, b % 8, 8, 1, dword(mem, j)),
            upto: 6,
        };
    }
    if b % 8 == 5 {
        return Spot {
            at: place(e, 8, 8, 1, dword(mem, j)),
            upto: 6,
        };
    }
    alone(e, b)
}

// The same, field by field, so that the answer of the call need not stand in memory where there is none.
fn called(mem: &[u8], e: &[u32], j: usize, b: u32) -> Spot
    requires { (j + 5 < length mem.now) × (b < 192) }
    ensures { (result.at ≡ address (file e.now) (operand_at mem.now j b)) × (result.upto ≡ 2 + operand_bytes mem.now j b) }
{
    let q = form(mem, e, j, b);
    Spot {
        at: q.at,
        upto: q.upto,
    }
}

// The operand of the ModRM byte b, for the instruction at i. The commonest are told apart first: they are small enough for the compiler to draw
// into each form that asks, and the others are a call.
pub fn operand(mem: &[u8], e: &[u32], i: usize, b: u32) -> Spot
    requires { i + 16 ≤ length mem.now }
    ensures { (result.at ≡ spot_of mem.now e.now i b) × ((result.upto ≡ up_to mem.now i b) × (result.upto ≤ 7)) }
{
    if 192 <= b {
        return Spot { at: 0, upto: 2 };
    }
    if (b / 64 == 1) & (b % 8 != 4) {
        return beside(mem, e, i + 2, b);
    }
    if (b / 64 == 0) & ((b % 8 != 4) & (b % 8 != 5)) {
        return alone(e, b);
    }
    called(mem, e, i + 2, b)
}
