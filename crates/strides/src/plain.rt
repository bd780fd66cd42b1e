// The forms that need no memory, wherever they stand.
ghost use Rattle.std.specs.Prelude.{◌≡◌, ◌+◌, ◌<◌, set, if◌then◌else◌};
ghost use Rattle.alu.specs.Arithmetic.{writes};
ghost use Rattle.forms.specs.Forms.{Small, next_in};
ghost use Rattle.hops.specs.declared.Ending.TheVariants as ends;
ghost use Rattle.strides.specs.Strides.{Aside};

use crate::ends::{byte_register, eight, put, register, wrote};
use alu::brief::Short;
use forms::Form;
use hops::{Ending, Rest, Swift};
use outcome::Fast;

// What an operation leaves: its flags, and its result unless it is CMP or TEST.
fn settle(e: &mut [u32; 8], n: u32, op: u32, next: u32, o: Short) -> Swift
    requires { n < 8 }
    ensures { (e.new ≡ (if writes op then set e.old n o.value else e.old)) × (result ≡ record { ending = ends.Follows; rest = record { eip = next; flags = o.flags } }) }
{
    if (op == 7) | (op == 8) {
        let g = o.flags;
        return Swift::onward(next, g, Ending::Follows);
    }
    wrote(e, n, next, o)
}

// The operation op of a register by a register.
pub fn by_register(e: &mut [u32; 8], r: Rest, f: Form, next: u32, op: u32) -> Swift
    requires { (f.kind ≡ op) × ((op < 16) × ((Small f) × (next ≡ next_in f r.eip))) }
    ensures { Aside e.old r f e.new result }
{
    eight(e);
    let s = r.flags;
    let o = outcome::dwords(op, register(e, f.a), register(e, f.b), s);
    settle(e, f.a, op, next, o)
}

// The same by a number.
pub fn by_number(e: &mut [u32; 8], r: Rest, f: Form, next: u32, op: u32) -> Swift
    requires { (f.kind ≡ op + 16) × ((op < 16) × ((Small f) × (next ≡ next_in f r.eip))) }
    ensures { Aside e.old r f e.new result }
{
    eight(e);
    let s = r.flags;
    let o = outcome::dwords(op, register(e, f.a), f.number, s);
    settle(e, f.a, op, next, o)
}

// A jump by condition n. Where it is not taken the block goes on.
pub fn jump_if(e: &[u32; 8], r: Rest, f: Form, next: u32, n: u32) -> Swift
    requires { (f.kind ≡ n + 48) × ((n < 16) × (next ≡ next_in f r.eip)) }
    ensures { Aside e.now r f e.now result }
{
    eight(e);
    let s = r.flags;
    if shortcut::condition::holds(n, s) {
        return Swift::onward(next.wrapping_add(f.number), s, Ending::Done);
    }
    Swift::onward(next, s, Ending::Follows)
}

// JMP.
pub fn jump(e: &[u32; 8], r: Rest, f: Form, next: u32) -> Swift
    requires { (f.kind ≡ 69) × (next ≡ next_in f r.eip) }
    ensures { Aside e.now r f e.now result }
{
    eight(e);
    let s = r.flags;
    Swift::onward(next.wrapping_add(f.number), s, Ending::Done)
}

// LEA.
pub fn address(e: &mut [u32; 8], r: Rest, f: Form, next: u32) -> Swift
    requires { (f.kind ≡ 71) × ((Small f) × (next ≡ next_in f r.eip)) }
    ensures { Aside e.old r f e.new result }
{
    eight(e);
    put(e, f.a, register(e, f.b).wrapping_add(f.number));
    let s = r.flags;
    Swift::onward(next, s, Ending::Follows)
}

// TEST of bytes.
pub fn test_bytes(e: &[u32; 8], r: Rest, f: Form, next: u32) -> Swift
    requires { (f.kind ≡ 74) × ((Small f) × (next ≡ next_in f r.eip)) }
    ensures { Aside e.now r f e.now result }
{
    eight(e);
    let s = r.flags;
    let o = outcome::bytes(8, byte_register(e, f.a), byte_register(e, f.b), s);
    let g = o.flags;
    Swift::onward(next, g, Ending::Follows)
}

// MUL of EAX by a register.
pub fn double(e: &mut [u32; 8], r: Rest, f: Form, next: u32) -> Swift
    requires { (f.kind ≡ 75) × ((Small f) × (next ≡ next_in f r.eip)) }
    ensures { Aside e.old r f e.new result }
{
    eight(e);
    let s = r.flags;
    let p = Fast {
        taken: false,
        jumps: false,
        doubling: true,
        op: 9,
        wide: true,
        access: 0,
        at: 0,
        x: register(e, f.b),
        y: 0,
        to: 8,
        next,
    };
    let g = outcome::double(e, p, s);
    Swift::onward(next, g, Ending::Follows)
}

// IMUL of a register by a number, to another.
pub fn times(e: &mut [u32; 8], r: Rest, f: Form, next: u32) -> Swift
    requires { (f.kind ≡ 76) × ((Small f) × (next ≡ next_in f r.eip)) }
    ensures { Aside e.old r f e.new result }
{
    eight(e);
    let s = r.flags;
    let o = outcome::dwords(14, register(e, f.b), f.number, s);
    settle(e, f.a, 14, next, o)
}
