// Sums, differences and logic with their flags in brief, at 8 and 32 bits: where one operation follows the other, most flags are never asked for.
ghost use Rattle.std.specs.Prelude.{◌≡◌, Bool, true, false, ◌+◌, ◌-◌, ◌*◌, ◌/◌, ◌%◌, ◌^◌, ◌<◌, ◌≤◌};
ghost use Rattle.alu.specs.Arithmetic.{bit, bits, sum, difference, logic, keep_carry};
ghost use Rattle.alu.specs.Brief.{status_in, out_in, tellable, seeing};

use crate::word::Word;
use crate::{Out, Status};

// The carry out of the operation's top place, the carries into its places, and the dword that shows ZF, SF and PF (specs/Brief). All are dwords, so that
// there is no room between them that would be copied with them.
#[derive(Clone, Copy)]
pub struct Brief {
    pub out: u32,
    pub into: u32,
    pub seen: u32,
}

#[derive(Clone, Copy)]
pub struct Short {
    pub value: u32,
    pub flags: Brief,
}

// CF, AF and OF.
pub fn carry(f: Brief) -> bool
    ensures { result ≡ (status_in f).cf }
{
    f.out % 2 == 1
}

pub fn adjust(f: Brief) -> bool
    ensures { result ≡ (status_in f).af }
{
    f.into / 16 % 2 == 1
}

pub fn overflow(f: Brief) -> bool
    ensures { result ≡ (status_in f).of }
{
    (0x8000_0000 <= f.into) != (f.out % 2 == 1)
}

// All six flags.
pub fn status_in(f: Brief) -> Status
    ensures { result ≡ status_in f }
{
    Status {
        cf: carry(f),
        pf: crate::even(f.seen),
        af: adjust(f),
        zf: f.seen == 0,
        sf: 0x8000_0000 <= f.seen,
        of: overflow(f),
    }
}

pub fn out_in(r: Short) -> Out
    ensures { result ≡ out_in r }
{
    let f = r.flags;
    Out {
        value: r.value,
        status: status_in(f),
    }
}

// Does some dword show these flags?
pub fn is_tellable(s: Status) -> bool
    ensures { result ≡ tellable s }
{
    !s.zf | (!s.sf & s.pf)
}

#[tactic(auto, using(crate::proofs::Showing::shows_zero, crate::proofs::Showing::shows_negative_even, crate::proofs::Showing::shows_negative_odd, crate::proofs::Showing::shows_even, crate::proofs::Showing::shows_odd))]
fn shown(s: Status) -> u32
    ensures { tellable s ≡ true → seeing s.cf s.af s.of result ≡ s }
{
    if s.zf {
        return 0;
    }
    if s.sf {
        return if s.pf { 0x8000_0000 } else { 0x8000_0001 };
    }
    if s.pf { 3 } else { 1 }
}

// Flags that are given, beside those that a dword shows.
pub fn beside(cf: bool, af: bool, of: bool, seen: u32) -> Brief
    ensures { status_in result ≡ seeing cf af of seen }
{
    Brief {
        out: u32::from(cf),
        into: 16 * u32::from(af) + 0x8000_0000 * u32::from(of != cf),
        seen,
    }
}

pub fn brief_of(s: Status) -> Brief
    ensures { tellable s ≡ true → status_in result ≡ s }
{
    beside(s.cf, s.af, s.of, shown(s))
}

// What an operation takes over from the flags before it, where it sets ZF, SF and PF anew.
pub fn kept(s: Status) -> Brief
    ensures { ((status_in result).cf ≡ s.cf) × (((status_in result).af ≡ s.af) × ((status_in result).of ≡ s.of)) }
{
    beside(s.cf, s.af, s.of, 0)
}

// The same with CF and OF both as c.
pub fn with_both(f: Brief, c: bool) -> Brief
    ensures { status_in result ≡ seeing c (status_in f).af c f.seen }
{
    Brief {
        out: u32::from(c),
        into: f.into % 0x8000_0000,
        seen: f.seen,
    }
}

pub fn add<W: Word>(a: W, b: W, c: bool) -> Short
    ensures { out_in result ≡ sum (bits W.wide) (W.number a) (W.number b) (bit c) }
{
    let (x, y) = (a.number(), b.number());
    let t = u64::from(x) + u64::from(y) + u64::from(c);
    let r = (t % W::VALUES) as u32;
    let flags = Brief {
        out: (t / W::VALUES) as u32,
        into: W::carries(x ^ y ^ r),
        seen: W::showing(r),
    };
    Short { value: r, flags }
}

pub fn sub<W: Word>(a: W, b: W, c: bool) -> Short
    ensures { out_in result ≡ difference (bits W.wide) (W.number a) (W.number b) (bit c) }
{
    let (x, y) = (a.number(), b.number());
    let s = u64::from(y) + u64::from(c);
    let r = ((W::VALUES + u64::from(x) - s) % W::VALUES) as u32;
    let flags = Brief {
        out: u32::from(u64::from(x) < s),
        into: W::carries(x ^ y ^ r),
        seen: W::showing(r),
    };
    Short { value: r, flags }
}

// AND, OR, XOR and TEST carry nothing into any place or out of the top one; f, the flags before, is there for the contract alone.
#[tactic(auto, unfolding(crate::specs::Arithmetic::logic_status))]
pub fn logic<W: Word>(r: W, f: Brief) -> Short
    ensures { out_in result ≡ logic (bits W.wide) (status_in f) (W.number r) }
{
    let x = r.number();
    let flags = Brief {
        out: 0,
        into: 0,
        seen: W::showing(x),
    };
    Short { value: x, flags }
}

// The same with CF as it was before.
#[tactic(auto, using(crate::proofs::Carries::kept_place, crate::proofs::Carries::kept_top))]
pub fn keep_carry(f: Brief, r: Short) -> Short
    ensures { out_in result ≡ record { value = r.value; status = keep_carry (status_in f) (status_in r.flags) } }
{
    let g = r.flags;
    let flags = Brief {
        out: f.out,
        into: g.into ^ ((f.out ^ g.out) % 2 * 0x8000_0000),
        seen: g.seen,
    };
    Short {
        value: r.value,
        flags,
    }
}
