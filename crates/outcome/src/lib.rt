// What comes of an instruction in its short form.
#![tactic(auto)]

ghost use Rattle.std.specs.Prelude.{◌≡◌, ◌<◌, true, false, slice_index, slice_set};
ghost use Rattle.machine.specs.Record.{read_at, with_register, write_at};
ghost use Rattle.products.specs.Products.{product};
ghost use Rattle.shifts.specs.Shifts.{shifted};
ghost use Rattle.alu.specs.Arithmetic.{bits};
ghost use Rattle.alu.specs.Brief.{status_in, out_in};
ghost use Rattle.outcome.specs.Outcome.{file, low_out, operated, out_of, stacked, deposit_of, doubled_in};

use alu::brief;
use alu::brief::{Brief, Short};
use alu::word::Word;

// An instruction: is it taken; is it a jump and nothing else; is it a MUL, which is not taken as the others are since it writes two registers;
// the operation (up to 9 as for two operands, 10 INC, 11 DEC, 12, 13 and 15 shifts, 14 IMUL); a dword's or a byte's; the access (0 none, 1 a read
// of x, 2 of y, 3 a read-and-write of x, 4 a push, 5 a pop, 6 a return) and its address; the operands; the register that takes the result, 8 for
// none; the next EIP.
#[derive(Clone, Copy)]
pub struct Fast {
    pub taken: bool,
    pub jumps: bool,
    pub doubling: bool,
    pub op: u32,
    pub wide: bool,
    pub access: u32,
    pub at: u32,
    pub x: u32,
    pub y: u32,
    pub to: u32,
    pub next: u32,
}

// A register; a number above is none, and 0.
pub fn register(e: &[u32], n: u32) -> u32
    ensures { result ≡ slice_index e.now n }
{
    cells::get(e, n as usize, 0)
}

// A dword register or a byte's.
pub fn read(e: &[u32], w: bool, n: u32) -> u32
    ensures { result ≡ read_at w (file e.now) n }
{
    if w {
        return register(e, n);
    }
    let x = register(e, n % 4);
    if n / 4 % 2 == 1 {
        return x / 256 % 256;
    }
    x % 256
}

fn times(x: u32, y: u32, f: Brief) -> Short
    ensures { out_in result ≡ low_out (product true true x y (status_in f)) }
{
    let q = products::multiply_brief(true, x, y, f);
    Short {
        value: q.low,
        flags: q.flags,
    }
}

// By n places; none leaves all as it is.
fn shifted(op: u32, x: u32, n: u32, f: Brief) -> Short
    requires { n < 32 }
    ensures { out_in result ≡ shifted op 32 n x (status_in f) }
{
    if n == 0 {
        return Short { value: x, flags: f };
    }
    shifts::shift_brief(op, n, x, f)
}

// What dwords and bytes have in common.
// Stays: the operation is the number that the definition has, up to 9 as for two operands.
#[tactic(auto, unfolding(crate::specs::Outcome::operated, alu::specs::Arithmetic::operation, alu::specs::Arithmetic::single))]
fn operate_at<W: Word>(op: u32, x: W, y: W, f: Brief) -> Short
    ensures { out_in result ≡ operated op (bits W.wide) (W.number x) (W.number y) (status_in f) }
{
    match op {
        0 => brief::add(x, y, false),
        1 => brief::logic(x | y, f),
        2 => brief::add(x, y, brief::carry(f)),
        3 => brief::sub(x, y, brief::carry(f)),
        4 => brief::logic(x & y, f),
        5 => brief::sub(x, y, false),
        6 => brief::logic(x ^ y, f),
        7 => brief::sub(x, y, false),
        8 => brief::logic(x & y, f),
        9 => Short {
            value: y.number(),
            flags: f,
        },
        10 => brief::keep_carry(f, brief::add(x, W::low(1), false)),
        _ => brief::keep_carry(f, brief::sub(x, W::low(1), false)),
    }
}

// The value and the flags, of dwords.
#[tactic(auto, using(crate::proofs::Effects::in_common, crate::proofs::Effects::multiplied, crate::proofs::Effects::moved_by))]
pub fn dwords(op: u32, x: u32, y: u32, f: Brief) -> Short
    ensures { out_in result ≡ out_of op true x y (status_in f) }
{
    match op {
        0..=11 => operate_at(op, x, y, f),
        14 => times(x, y, f),
        _ => shifted(op % 8, x, y % 32, f),
    }
}

// The same of bytes.
#[tactic(auto, using(crate::proofs::Effects::of_bytes))]
pub fn bytes(op: u32, x: u32, y: u32, f: Brief) -> Short
    ensures { out_in result ≡ out_of op false x y (status_in f) }
{
    operate_at(op, u8::low(x), u8::low(y), f)
}

fn write(e: &mut [u32], w: bool, n: u32, x: u32)
    ensures { e.new ≡ (write_at w (file e.old) n x).e }
{
    if w {
        cells::put(e, n as usize, x);
        return;
    }
    let old = register(e, n % 4);
    cells::put(e, (n % 4) as usize, machine::replaced(old, n, x));
}

// ESP, after a push, a pop or a return.
pub fn restack(e: &mut [u32], p: Fast)
    ensures { e.new ≡ (stacked p (file e.old)).e }
{
    if p.access == 4 {
        cells::put(e, 4, p.at);
        return;
    }
    if (p.access == 5) | (p.access == 6) {
        cells::put(e, 4, p.at.wrapping_add(4));
    }
}

// The result x goes to its register.
pub fn deposit(e: &mut [u32], p: Fast, x: u32)
    ensures { e.new ≡ (deposit_of p (file e.old) x).e }
{
    if p.to < 8 {
        write(e, p.wide, p.to, x);
    }
}

// MUL: EAX and EDX take the halves of the product; answers the flags.
pub fn double(e: &mut [u32], p: Fast, f: Brief) -> Brief
    ensures { (e.new ≡ (with_register (with_register (file e.old) 0 (doubled_in p e.old (status_in f)).low) 2 (doubled_in p e.old (status_in f)).high).e) × (status_in result ≡ (doubled_in p e.old (status_in f)).status) }
{
    let q = products::multiply_brief(false, register(e, 0), p.x, f);
    cells::put(e, 0, q.low);
    cells::put(e, 2, q.high);
    q.flags
}
