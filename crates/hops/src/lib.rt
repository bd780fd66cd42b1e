// One quick step: an instruction in its short form, on pages that are kept. Where it cannot go on it changes nothing.
#![tactic(auto)]

ghost use Rattle.std.specs.Prelude.{◌≢◌, ◌≡◌, true, cond, ◌+◌, ◌/◌, ◌%◌, ◌<◌, ◌≤◌, length, set, IfSome};
ghost use Rattle.alu.specs.Brief.{status_in, out_in};
ghost use Rattle.machine.specs.Record.{at};
ghost use Rattle.machine.specs.Paging.{dword_at};
ghost use Rattle.machine.specs.Commit.{patches};
ghost use Rattle.keptpages.specs.Quiet.{HeldOk};
ghost use Rattle.access.specs.Located.{placed};
ghost use Rattle.outcome.specs.Outcome.{out_of, next_of};
ghost use Rattle.shortcut.specs.Shortcut.{Tidy};
ghost use Rattle.hops.specs.Hops.{moves, keeps, saved, spotted, Holds, Reaches, Spared, Left, PagesOk, SwiftOk};
ghost use Rattle.hops.specs.declared.Ending.TheVariants as ends;

use alu::brief::{Brief, Short};
use encoding::Classes;
use keptpages::Kept;
use machine::Control;
use outcome::Fast;

// EIP and the status flags.
#[derive(Clone, Copy)]
pub struct Rest {
    pub eip: u32,
    pub flags: Brief,
}

// How a quick step ended.
#[derive(Clone, Copy)]
pub enum Ending {
    // Done, and the form after it in its block follows. Only forms of a block end so.
    Follows,
    // Not done, and nothing is changed.
    Stuck,
    // Done.
    Done,
    // Done, and the pages that are kept may be others.
    Remapped,
}

impl Ending {
    // Was the step made?
    pub fn moves(self) -> bool
        ensures { result ≡ moves self }
    {
        match self {
            Ending::Stuck => false,
            _ => true,
        }
    }

    // Do the pages that are kept hold on?
    pub fn keeps(self) -> bool
        ensures { result ≡ keeps self }
    {
        match self {
            Ending::Remapped => false,
            _ => true,
        }
    }
}

// What a quick step answers: how it ended, and where the run stands.
#[derive(Clone, Copy)]
pub struct Swift {
    pub ending: Ending,
    pub rest: Rest,
}

impl Swift {
    // Not done, and nothing is changed.
    pub fn stuck(rest: Rest) -> Swift
        ensures { result ≡ record { ending = ends.Stuck; rest = rest } }
    {
        Swift {
            ending: Ending::Stuck,
            rest,
        }
    }

    // The run goes on at eip.
    pub fn onward(eip: u32, flags: Brief, ending: Ending) -> Swift
        ensures { result ≡ record { ending = ending; rest = record { eip = eip; flags = flags } } }
    {
        Swift {
            ending,
            rest: Rest { eip, flags },
        }
    }
}

// The access of an instruction: the index in memory and the value there; both operands.
#[derive(Clone, Copy)]
struct Sought {
    at: u32,
    value: u32,
    x: u32,
    y: u32,
}

fn load(mem: &[u8], w: bool, i: u32) -> u32
    ensures { result ≡ cond w (dword_at mem.now i) (at mem.now i) }
{
    if w {
        return paging::dword(mem, i as usize);
    }
    paging::byte_at(mem, i as usize)
}

// Reads what the instruction asks for at i; a push asks for nothing.
fn loaded(mem: &[u8], p: Fast, i: u32) -> Sought
    requires { p.access ≢ 0 }
    ensures { (result.at ≡ i) × (Holds p (cond p.wide (dword_at mem.now i) (at mem.now i)) result) }
{
    if p.access == 4 {
        return Sought {
            at: i,
            value: 0,
            x: p.x,
            y: p.y,
        };
    }
    let v = load(mem, p.wide, i);
    if (p.access == 1) | (p.access == 3) {
        return Sought {
            at: i,
            value: v,
            x: v,
            y: p.y,
        };
    }
    Sought {
        at: i,
        value: v,
        x: p.x,
        y: v,
    }
}

// Finds the access; memory is only read.
fn seek(mem: &[u8], c: Control, d: &mut [u64], table: u32, p: Fast) -> Option<Sought>
    requires { (length mem.now % 4096 ≡ 0) × (HeldOk mem.now c table d.old) }
    ensures { (IfSome result (λ q. Reaches mem.now c p q)) × (HeldOk mem.now c table d.new) }
{
    if p.access == 0 {
        return Some(Sought {
            at: 0,
            value: 0,
            x: p.x,
            y: p.y,
        });
    }
    if p.wide & (4092 < p.at % 4096) {
        return None;
    }
    let i = keptpages::held::find(mem, c, d, table, (p.access == 3) | (p.access == 4), p.at)?;
    Some(loaded(mem, p, i))
}

// Stores a dword, where all of it is there.
pub fn put_present(mem: &mut [u8], i: usize, v: u32)
    requires { i + 3 < length mem.old }
    ensures { mem.new ≡ set (set (set (set mem.old i (v % 256)) (i + 1) (v / 256 % 256)) (i + 2) (v / 65536 % 256)) (i + 3) (v / 16777216 % 256) }
{
    mem[i] = (v % 256) as u8;
    mem[i + 1] = (v / 256 % 256) as u8;
    mem[i + 2] = (v / 65536 % 256) as u8;
    mem[i + 3] = (v / 16777216 % 256) as u8;
}

pub fn put_dword(mem: &mut [u8], i: u32, v: u32)
    ensures { mem.new ≡ set (set (set (set mem.old i (v % 256)) (i + 1) (v / 256 % 256)) (i + 2) (v / 65536 % 256)) (i + 3) (v / 16777216 % 256) }
{
    if i as usize + 3 < mem.len() {
        put_present(mem, i as usize, v);
        return;
    }
    cells::put_dword(mem, i, v);
}

fn store_at(mem: &mut [u8], p: Fast, i: u32, v: u32)
    ensures { mem.new ≡ patches (placed (spotted p i) v) mem.old }
{
    if p.wide {
        put_dword(mem, i, v);
        return;
    }
    cells::put(mem, i as usize, (v % 256) as u8);
}

// Stores the result; answers whether the maps are surely as they were.
fn store(mem: &mut [u8], c: Control, table: u32, p: Fast, i: u32, v: u32) -> Ending
    ensures { (mem.new ≡ patches (placed (spotted p i) v) mem.old) × ((moves result ≡ true) × (keeps result ≡ true → Spared mem.old mem.new c table)) }
{
    store_at(mem, p, i, v);
    let first = i / 4096;
    let last = ((i as usize + 3) / 4096) as u32;
    let dir = c.cr3 / 4096;
    if (first == table) | (last == table) | (first == dir) | (last == dir) {
        return Ending::Remapped;
    }
    Ending::Done
}

// The same where the instruction asks for it.
fn save(mem: &mut [u8], c: Control, table: u32, p: Fast, i: u32, v: u32) -> Ending
    ensures { (mem.new ≡ saved p i v mem.old) × ((moves result ≡ true) × (keeps result ≡ true → Spared mem.old mem.new c table)) }
{
    if !((p.access == 3) | (p.access == 4)) {
        return Ending::Done;
    }
    store(mem, c, table, p, i, v)
}

fn next(p: Fast, a: u32) -> u32
    ensures { result ≡ next_of p a }
{
    if p.access == 6 { a } else { p.next }
}

// The end of a step whose result is o: it goes to a register, or to memory and to none. Only moves use the stack.
fn settle(
    mem: &mut [u8],
    e: &mut [u32],
    c: Control,
    table: u32,
    p: Fast,
    q: Sought,
    o: Short,
) -> Swift
    requires { (p.access < 4) × (p.access ≡ 3 → p.to ≡ 8) }
    ensures { Left mem.old e.old c table p q (out_in o) mem.new e.new result }
{
    let g = o.flags;
    if p.access < 3 {
        outcome::deposit(e, p, o.value);
        return Swift::onward(p.next, g, Ending::Done);
    }
    let ending = store(mem, c, table, p, q.at, o.value);
    Swift::onward(p.next, g, ending)
}

// The end of a step that moves the right operand; the flags stay.
fn settle_move(
    mem: &mut [u8],
    e: &mut [u32],
    c: Control,
    table: u32,
    p: Fast,
    q: Sought,
    f: Brief,
) -> Swift
    ensures { Left mem.old e.old c table p q (record { value = q.y; status = status_in f }) mem.new e.new result }
{
    if p.access < 3 {
        outcome::deposit(e, p, q.y);
        return Swift::onward(p.next, f, Ending::Done);
    }
    outcome::restack(e, p);
    outcome::deposit(e, p, q.y);
    let ending = save(mem, c, table, p, q.at, q.y);
    Swift::onward(next(p, q.value), f, ending)
}

// The end of a step whose operands are found. Moves of a dword, dwords and bytes each have an end of their own, so that the compiler asks once.
fn finish(
    mem: &mut [u8],
    e: &mut [u32],
    c: Control,
    table: u32,
    p: Fast,
    q: Sought,
    f: Brief,
) -> Swift
    requires { Tidy p }
    ensures { Left mem.old e.old c table p q (out_of p.op p.wide q.x q.y (status_in f)) mem.new e.new result }
{
    if (p.op == 9) & p.wide {
        return settle_move(mem, e, c, table, p, q, f);
    }
    if p.wide {
        let o = outcome::dwords(p.op, q.x, q.y, f);
        return settle(mem, e, c, table, p, q, o);
    }
    let o = outcome::bytes(p.op, q.x, q.y, f);
    settle(mem, e, c, table, p, q, o)
}

// One quick step, on the page h.
pub fn hop(
    mem: &mut [u8],
    t: &Classes,
    e: &mut [u32],
    d: &mut [u64],
    c: Control,
    r: Rest,
    h: Kept,
) -> Swift
    requires { (length mem.old % 4096 ≡ 0) × ((PagesOk mem.old c h d.old) × ((r.eip / 4096 ≡ h.page) × ((r.eip % 4096 ≤ 4080) × (r.eip < 4294967296)))) }
    ensures { SwiftOk mem.old e.old c r h mem.new e.new d.new result }
{
    let eip = r.eip;
    let f = r.flags;
    let p = shortcut::quick(mem, t, e, f, eip, h.base as usize + (eip % 4096) as usize);
    if !p.taken {
        if p.doubling {
            let g = outcome::double(e, p, f);
            return Swift::onward(p.next, g, Ending::Done);
        }
        return Swift::stuck(r);
    }
    if p.jumps {
        return Swift::onward(p.next, f, Ending::Done);
    }
    let Some(q) = seek(mem, c, d, h.table, p) else {
        return Swift::stuck(r);
    };
    finish(mem, e, c, h.table, p, q, f)
}
