// MUL, IMUL, DIV and IDIV at 8 and 32 bits.
#![tactic(auto)]

ghost use Rattle.std.specs.Prelude.{◌≡◌, ◌≢◌, true, false, cond, ℕ, ◌+◌, ◌-◌, ◌*◌, ◌/◌, ◌%◌, ◌^◌, ◌<◌, ◌≤◌, ltb, leb};
ghost use Rattle.alu.specs.declared.Status.{Status};
ghost use Rattle.alu.specs.Arithmetic.{bits};
ghost use Rattle.alu.specs.Brief.{status_in};
ghost use Rattle.products.specs.Products.{carried, halves, product, unsigned_quotient, signed_quotient, quotient};

use alu::Status;
use alu::brief::Brief;
use alu::word::Word;

// The two halves of a product.
#[derive(Clone, Copy)]
pub struct Product {
    pub low: u32,
    pub high: u32,
    pub status: Status,
}

// The same with the flags in brief.
#[derive(Clone, Copy)]
pub struct Halves {
    pub low: u32,
    pub high: u32,
    pub flags: Brief,
}

#[derive(Clone, Copy)]
pub struct Division {
    pub quotient: u32,
    pub remainder: u32,
}

// Signed numbers, by the weight of the top bit: the magnitude of a.
fn magnitude(top: u64, a: u64) -> u64
    requires { a < top + top }
    ensures { (result ≡ cond (leb top a) (top + top - a) a) × ((result ≤ top) × (0 < a → 0 < result)) }
{
    if top <= a { top - (a - top) } else { a }
}

// The number of a sign and a magnitude.
fn number(top: u64, negative: bool, m: u64) -> u64
    requires { (0 < top) × ((top ≤ 0x8000_0000_0000_0000) × (m ≤ top)) }
    ensures { (result ≡ cond negative (top + top - m) m % (top + top)) × (result < top + top) }
{
    if m == 0 {
        return 0;
    }
    if negative {
        return top - m + top;
    }
    m
}

// Is a magnitude in the signed range?
fn in_range(top: u64, negative: bool, m: u64) -> bool
    ensures { (result ≡ cond negative (leb m top) (ltb m top)) × (result ≡ true → m ≤ top) }
{
    if negative { m <= top } else { m < top }
}

// A product, and whether its upper half matters.
// Stays: the flag is no word on the product, which is there either way.
#[derive(Clone, Copy)]
struct Whole {
    all: u64,
    carry: bool,
}

#[tactic(auto, unfolding(crate::specs::Products::product))]
fn mul<W: Word>(a: W, b: W) -> Whole
    ensures { (result.all < 2 ^ (bits W.wide + bits W.wide)) × ((s : Status) → halves (bits W.wide) result.all (carried s result.carry) ≡ product false W.wide (W.number a) (W.number b) s) }
{
    let p = u64::from(a.number()) * u64::from(b.number());
    Whole {
        all: p,
        carry: W::VALUES <= p,
    }
}

fn imul<W: Word>(a: W, b: W) -> Whole
    ensures { (result.all < 2 ^ (bits W.wide + bits W.wide)) × ((s : Status) → halves (bits W.wide) result.all (carried s result.carry) ≡ product true W.wide (W.number a) (W.number b) s) }
{
    let top = W::VALUES / 2;
    let (x, y) = (u64::from(a.number()), u64::from(b.number()));
    let m = magnitude(top, x) * magnitude(top, y);
    let negative = (top <= x) != (top <= y);
    let kept = in_range(top, negative, m);
    Whole {
        all: number(top * W::VALUES, negative, m),
        carry: !kept,
    }
}

fn times<W: Word>(signed: bool, a: W, b: W) -> Whole
    ensures { (result.all < 2 ^ (bits W.wide + bits W.wide)) × ((s : Status) → halves (bits W.wide) result.all (carried s result.carry) ≡ product signed W.wide (W.number a) (W.number b) s) }
{
    if signed { imul(a, b) } else { mul(a, b) }
}

fn carried(s: Status, b: bool) -> Status
    ensures { result ≡ carried s b }
{
    Status { cf: b, of: b, ..s }
}

fn multiply_at<W: Word>(signed: bool, a: W, b: W, s: Status) -> Product
    ensures { result ≡ product signed W.wide (W.number a) (W.number b) s }
{
    let w = times(signed, a, b);
    Product {
        low: (w.all % W::VALUES) as u32,
        high: (w.all / W::VALUES) as u32,
        status: carried(s, w.carry),
    }
}

// The product of a and b, of bytes or dwords.
#[tactic(auto, using(crate::proofs::Bounds::product_low))]
pub fn multiply(signed: bool, wide: bool, a: u32, b: u32, s: Status) -> Product
    ensures { result ≡ product signed wide a b s }
{
    if wide {
        multiply_at(signed, a, b, s)
    } else {
        multiply_at(signed, u8::low(a), u8::low(b), s)
    }
}

// The product with the flags in brief.
pub fn multiply_brief<W: Word>(signed: bool, a: W, b: W, f: Brief) -> Halves
    ensures { record { low = result.low; high = result.high; status = status_in result.flags } ≡ product signed W.wide (W.number a) (W.number b) (status_in f) }
{
    let w = times(signed, a, b);
    Halves {
        low: (w.all % W::VALUES) as u32,
        high: (w.all / W::VALUES) as u32,
        flags: alu::brief::with_both(f, w.carry),
    }
}

fn div<W: Word>(n: u64, d: W) -> Option<Division>
    requires { W.number d ≢ 0 }
    ensures { result ≡ unsigned_quotient (bits W.wide) n (W.number d) }
{
    let y = u64::from(d.number());
    let q = n / y;
    if W::VALUES <= q {
        return None;
    }
    Some(Division {
        quotient: q as u32,
        remainder: (n % y) as u32,
    })
}

fn idiv<W: Word>(n: u64, d: W) -> Option<Division>
    requires { (W.number d ≢ 0) × (n < 2 ^ (bits W.wide + bits W.wide)) }
    ensures { result ≡ signed_quotient (bits W.wide) n (W.number d) }
{
    let top = W::VALUES / 2;
    let y = u64::from(d.number());
    let m = magnitude(top * W::VALUES, n);
    let e = magnitude(top, y);
    let q = m / e;
    let below = top * W::VALUES <= n;
    let negative = below != (top <= y);
    if !in_range(top, negative, q) {
        return None;
    }
    let rest = number(top, below, m % e);
    Some(Division {
        quotient: number(top, negative, q) as u32,
        remainder: rest as u32,
    })
}

#[tactic(auto, using(crate::proofs::Bounds::by_zero))]
fn divide_at<W: Word>(signed: bool, high: W, low: W, d: W) -> Option<Division>
    ensures { result ≡ quotient signed W.wide (W.number high) (W.number low) (W.number d) }
{
    if d.number() == 0 {
        return None;
    }
    let n = u64::from(high.number()) * W::VALUES + u64::from(low.number());
    if signed { idiv(n, d) } else { div(n, d) }
}

// The quotient and the remainder of high and low by d; none where d is 0 or the quotient does not fit.
#[tactic(auto, using(crate::proofs::Bounds::quotient_low))]
pub fn divide(signed: bool, wide: bool, high: u32, low: u32, d: u32) -> Option<Division>
    ensures { result ≡ quotient signed wide high low d }
{
    if wide {
        divide_at(signed, high, low, d)
    } else {
        divide_at(signed, u8::low(high), u8::low(low), u8::low(d))
    }
}
