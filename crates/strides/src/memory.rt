// The forms that read or write memory, on pages that are at hand.
ghost use Rattle.std.specs.Prelude.{◌≡◌, ◌/◌, ◌<◌, true, ◌||◌, ◌==◌};
ghost use Rattle.alu.specs.Brief.{status_in};
ghost use Rattle.shortcut.specs.Forms.{push_fast};
ghost use Rattle.forms.specs.Forms.{spot_in, next_in, meant};
ghost use Rattle.strides.specs.Strides.{Stands, Here, EndedOk};

use crate::ends::{eight, put, reach, register};
use forms::Form;
use hops::{Ending, Rest, Swift};
use keptpages::Kept;
use machine::Control;

// Where the operand lies.
fn spot(e: &[u32; 8], f: Form) -> u32
    requires { f.b < 8 }
    ensures { result ≡ spot_in f e.now }
{
    register(e, f.b).wrapping_add(f.number)
}

// MOV to a register.
pub fn load(
    mem: &[u8],
    e: &mut [u32; 8],
    d: &[u64; 32],
    c: Control,
    r: Rest,
    h: Kept,
    f: Form,
    next: u32,
) -> Swift
    requires { (Stands mem.now c h d.now r) × ((Here mem.now h r f) × ((f.kind ≡ 41) × (next ≡ next_in f r.eip))) }
    ensures { EndedOk mem.now e.old c r h d.now f mem.now e.new result }
{
    eight(e);
    let Some(i) = reach(d, h.table, false, spot(e, f)) else {
        return Swift::stuck(r);
    };
    put(e, f.a, paging::present_dword(mem, i as usize));
    let s = r.flags;
    Swift::onward(next, s, Ending::Follows)
}

// ADD to CMP of a register by memory.
pub fn combine(
    mem: &[u8],
    e: &mut [u32; 8],
    d: &[u64; 32],
    c: Control,
    r: Rest,
    h: Kept,
    f: Form,
    next: u32,
) -> Swift
    requires { (Stands mem.now c h d.now r) × ((Here mem.now h r f) × ((f.kind / 8 ≡ 4) × (next ≡ next_in f r.eip))) }
    ensures { EndedOk mem.now e.old c r h d.now f mem.now e.new result }
{
    eight(e);
    let Some(i) = reach(d, h.table, false, spot(e, f)) else {
        return Swift::stuck(r);
    };
    let s = r.flags;
    let o = outcome::dwords(
        f.kind - 32,
        register(e, f.a),
        paging::present_dword(mem, i as usize),
        s,
    );
    if f.kind == 39 {
        let g = o.flags;
        return Swift::onward(next, g, Ending::Follows);
    }
    crate::ends::wrote(e, f.a, next, o)
}

// CMP and MOV of a byte register by memory.
pub fn from_byte(
    mem: &[u8],
    e: &mut [u32; 8],
    d: &[u64; 32],
    c: Control,
    r: Rest,
    h: Kept,
    f: Form,
    next: u32,
) -> Swift
    requires { (Stands mem.now c h d.now r) × ((Here mem.now h r f) × (((f.kind == 72 || f.kind == 73) ≡ true) × (next ≡ next_in f r.eip))) }
    ensures { EndedOk mem.now e.old c r h d.now f mem.now e.new result }
{
    eight(e);
    let Some(i) = keptpages::held::peek(d, h.table, false, spot(e, f)) else {
        return Swift::stuck(r);
    };
    let y = paging::present_byte(mem, i as usize);
    let s = r.flags;
    if f.kind == 73 {
        crate::ends::put_byte(e, f.a, y);
        return Swift::onward(next, s, Ending::Follows);
    }
    let o = outcome::bytes(7, crate::ends::byte_register(e, f.a), y, s);
    let g = o.flags;
    Swift::onward(next, g, Ending::Follows)
}

// MOV to memory.
pub fn keep(
    mem: &mut [u8],
    e: &[u32; 8],
    d: &[u64; 32],
    c: Control,
    r: Rest,
    h: Kept,
    f: Form,
    next: u32,
) -> Swift
    requires { (Stands mem.old c h d.now r) × ((Here mem.old h r f) × ((f.kind ≡ 64) × (next ≡ next_in f r.eip))) }
    ensures { EndedOk mem.old e.now c r h d.now f mem.new e.now result }
{
    eight(e);
    let Some(i) = reach(d, h.table, true, spot(e, f)) else {
        return Swift::stuck(r);
    };
    let ending = crate::ends::store(mem, c, h, i, register(e, f.a));
    let s = r.flags;
    Swift::onward(next, s, ending)
}

// PUSH of v, a register or a number.
pub fn push(
    mem: &mut [u8],
    e: &mut [u32; 8],
    d: &[u64; 32],
    c: Control,
    r: Rest,
    h: Kept,
    f: Form,
    next: u32,
    v: u32,
) -> Swift
    requires { (Stands mem.old c h d.now r) × ((Here mem.old h r f) × ((meant f e.old r.eip (status_in r.flags) ≡ push_fast e.old v (next_in f r.eip)) × (next ≡ next_in f r.eip))) }
    ensures { EndedOk mem.old e.old c r h d.now f mem.new e.new result }
{
    eight(e);
    let top = register(e, 4).wrapping_sub(4);
    let Some(i) = reach(d, h.table, true, top) else {
        return Swift::stuck(r);
    };
    put(e, 4, top);
    let ending = crate::ends::store(mem, c, h, i, v);
    let s = r.flags;
    Swift::onward(next, s, ending)
}

// CALL.
pub fn call(
    mem: &mut [u8],
    e: &mut [u32; 8],
    d: &[u64; 32],
    c: Control,
    r: Rest,
    h: Kept,
    f: Form,
    next: u32,
) -> Swift
    requires { (Stands mem.old c h d.now r) × ((Here mem.old h r f) × ((f.kind ≡ 68) × (next ≡ next_in f r.eip))) }
    ensures { EndedOk mem.old e.old c r h d.now f mem.new e.new result }
{
    eight(e);
    let top = register(e, 4).wrapping_sub(4);
    let Some(i) = reach(d, h.table, true, top) else {
        return Swift::stuck(r);
    };
    put(e, 4, top);
    let s = r.flags;
    let target = next.wrapping_add(f.number);
    match crate::ends::store(mem, c, h, i, next) {
        Ending::Follows => Swift::onward(target, s, Ending::Done),
        ending => Swift::onward(target, s, ending),
    }
}

// POP and RET.
pub fn pop(
    mem: &[u8],
    e: &mut [u32; 8],
    d: &[u64; 32],
    c: Control,
    r: Rest,
    h: Kept,
    f: Form,
    next: u32,
) -> Swift
    requires { (Stands mem.now c h d.now r) × ((Here mem.now h r f) × (((f.kind == 67 || f.kind == 70) ≡ true) × (next ≡ next_in f r.eip))) }
    ensures { EndedOk mem.now e.old c r h d.now f mem.now e.new result }
{
    eight(e);
    let top = register(e, 4);
    let Some(i) = reach(d, h.table, false, top) else {
        return Swift::stuck(r);
    };
    let v = paging::present_dword(mem, i as usize);
    put(e, 4, top.wrapping_add(4));
    let s = r.flags;
    if f.kind == 70 {
        return Swift::onward(v, s, Ending::Done);
    }
    put(e, f.a, v);
    Swift::onward(next, s, Ending::Follows)
}
