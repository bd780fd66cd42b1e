// SHL, SHR and SAR with their flags, at 8 and 32 bits.
#![tactic(auto)]

ghost use Rattle.std.specs.Prelude.{◌≡◌, cond, ◌+◌, ◌-◌, ◌*◌, ◌/◌, ◌%◌, ◌^◌, ◌<◌, ◌≤◌, eqb};
ghost use Rattle.alu.specs.Arithmetic.{bits, sign};
ghost use Rattle.alu.specs.Brief.{status_in, out_in};
ghost use Rattle.shifts.specs.Shifts.{shift_status, shift_left, shift_right, shift_right_signed, shifted, shift};

use alu::brief::{Brief, Short, kept, out_in, overflow};
use alu::word::Word;
use alu::{Out, Status};

// The answer r of n places, by the last bit that left, and OF after one place.
fn after<W: Word>(n: u32, f: Brief, r: u32, last: bool, one: bool) -> Short
    requires { (0 < n) × (r < 2 ^ bits W.wide) }
    ensures { out_in result ≡ record { value = r; status = shift_status (bits W.wide) n (status_in f) r last one } }
{
    let first = n == 1;
    let of = if first { one } else { overflow(f) };
    let flags = alu::brief::beside(last, alu::brief::adjust(f), of, W::showing(r));
    Short { value: r, flags }
}

fn is_negative<W: Word>(x: u32) -> bool
    ensures { result ≡ sign (bits W.wide) x }
{
    W::VALUES / 2 <= u64::from(x)
}

fn shl<W: Word>(n: u32, v: W, f: Brief) -> Short
    requires { (0 < n) × (n < 32) }
    ensures { out_in result ≡ shift_left (bits W.wide) n (W.number v) (status_in f) }
{
    let x = v.number();
    let p = W::low(x << (n - 1)).number();
    let r = W::low(x << n).number();
    let last = is_negative::<W>(p);
    after::<W>(n, f, r, last, is_negative::<W>(r) != last)
}

fn shr<W: Word>(n: u32, v: W, f: Brief) -> Short
    requires { (0 < n) × (n < 32) }
    ensures { out_in result ≡ shift_right (bits W.wide) n (W.number v) (status_in f) }
{
    let x = v.number();
    let p = x >> (n - 1);
    after::<W>(n, f, x >> n, p % 2 == 1, is_negative::<W>(x))
}

// The places that a negative number opens are filled with ones: they are zeros of its complement.
fn sar<W: Word>(n: u32, v: W, f: Brief) -> Short
    requires { (0 < n) × (n < 32) }
    ensures { out_in result ≡ shift_right_signed (bits W.wide) n (W.number v) (status_in f) }
{
    let x = v.number();
    let ones = (W::VALUES - 1) as u32;
    let negative = is_negative::<W>(x);
    let t = if negative { ones } else { 0 };
    let p = (x ^ t) >> (n - 1) ^ t;
    let r = (x ^ t) >> n ^ t;
    after::<W>(n, f, r, p % 2 == 1, false)
}

// By the reg field, n places, with the flags in brief.
// Stays: the operation is the reg field itself.
#[tactic(auto, unfolding(crate::specs::Shifts::shifted))]
pub fn shift_brief<W: Word>(op: u32, n: u32, v: W, f: Brief) -> Short
    requires { (0 < n) × (n < 32) }
    ensures { out_in result ≡ shifted op (bits W.wide) n (W.number v) (status_in f) }
{
    match op {
        4 => shl(n, v, f),
        5 => shr(n, v, f),
        _ => sar(n, v, f),
    }
}

fn shift_at<W: Word>(op: u32, n: u32, v: W, s: Status) -> Out
    requires { n < 32 }
    ensures { result ≡ shifted op (bits W.wide) n (W.number v) s }
{
    if n == 0 {
        return Out {
            value: v.number(),
            status: s,
        };
    }
    out_in(shift_brief(op, n, v, kept(s)))
}

// By the reg field: 4 SHL, 5 SHR, 7 SAR. The count is taken modulo 32.
#[tactic(auto, unfolding(crate::specs::Shifts::shift))]
pub fn shift(op: u32, wide: bool, count: u32, v: u32, s: Status) -> Out
    ensures { result ≡ shift op wide count v s }
{
    let n = count % 32;
    if wide {
        shift_at(op, n, v, s)
    } else {
        shift_at(op, n, u8::low(v), s)
    }
}
