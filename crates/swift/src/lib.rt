// The quick way through a run: quick steps one after another, on pages that are kept. Where it cannot go on it changes nothing, and the complete step
// takes over.
#![tactic(auto)]

ghost use Rattle.std.specs.Prelude.{◌≡◌, true, ◌/◌, ◌%◌, ◌≤◌, length, IfSome};
ghost use Rattle.alu.specs.Brief.{status_in, tellable};
ghost use Rattle.machine.specs.Record.{flags_in};
ghost use Rattle.keptpages.specs.Quiet.{HeldOk};
ghost use Rattle.hops.specs.Hops.{PagesOk, current, RushOk};
ghost use Rattle.swift.specs.Swift.{DashOk};

use alu::Status;
use blocks::Blocks;
use encoding::Classes;
use hops::Rest;
use keptpages::Kept;
use machine::{Control, Core, Cpu, Flags, Registers};

// How many quick steps there were, and where the run stands.
#[derive(Clone, Copy)]
struct Rushed {
    count: u32,
    rest: Rest,
}

// How many quick steps there were, and the record after them.
#[derive(Clone, Copy)]
pub struct Dashed {
    pub count: u32,
    pub cpu: Cpu,
}

// The code page of EIP, to be kept. Pages of data whose entries are in another table are dropped, and all where they do not hold on.
fn turned(mem: &[u8], c: Control, d: &mut [u64], table: u32, holds: bool, eip: u32) -> Option<Kept>
    requires { holds ≡ true → HeldOk mem.now c table d.old }
    ensures { IfSome result (λ h. (h.page ≡ eip / 4096) × (PagesOk mem.now c h d.new)) }
{
    let k = keptpages::page_of(mem, c, false, eip)?;
    if holds & (k.table == table) {
        return Some(k);
    }
    keptpages::held::clear(d);
    Some(k)
}

// The code page of EIP where h is the one before: the same, as long as it holds on.
fn page_for(
    mem: &[u8],
    c: Control,
    d: &mut [u64; 32],
    h: Kept,
    holds: bool,
    eip: u32,
) -> Option<Kept>
    requires { holds ≡ true → PagesOk mem.now c h d.old }
    ensures { IfSome result (λ h. (h.page ≡ eip / 4096) × (PagesOk mem.now c h d.new)) }
{
    if holds & (eip / 4096 == h.page) {
        return Some(h);
    }
    turned(mem, c, d, h.table, holds, eip)
}

// Quick steps, as many as there can be and at most so many: blocks while there are, then one step of its own.
fn rush(
    mem: &mut [u8],
    t: &Classes,
    e: &mut [u32; 8],
    d: &mut [u64; 32],
    g: &mut Blocks,
    c: Control,
    from: Rest,
    limit: u32,
) -> Rushed
    requires { length mem.old % 4096 ≡ 0 }
    ensures { (result.count ≤ limit) × (RushOk mem.old e.old c from result.count mem.new e.new result.rest) }
{
    let mut n: u32 = 0;
    let mut r = from;
    let Some(first) = turned(mem, c, d, 0, false, r.eip) else {
        return Rushed { count: n, rest: r };
    };
    let mut h = first;
    // Stays: a turn does as many instructions as its blocks have, so no range counts the turns.
    while n < limit {
        let w = sprints::sprint(mem, t, e, d, g, c, r, h, limit - n);
        n += w.count;
        let here = w.rest;
        r = here;
        let Some(k) = page_for(mem, c, d, h, w.ending.keeps(), r.eip) else {
            return Rushed { count: n, rest: r };
        };
        if !((n < limit) & (r.eip % 4096 <= 4080)) {
            return Rushed { count: n, rest: r };
        }
        let w = hops::hop(mem, t, e, d, c, r, k);
        let next = w.rest;
        r = next;
        if !w.ending.moves() {
            return Rushed { count: n, rest: r };
        }
        n += 1;
        let Some(k) = page_for(mem, c, d, k, w.ending.keeps(), r.eip) else {
            return Rushed { count: n, rest: r };
        };
        h = k;
    }
    Rushed { count: n, rest: r }
}

// Where a run stands at a record whose flags some dword shows.
fn rest_of(eip: u32, s: Status) -> Rest
    requires { tellable s ≡ true }
    ensures { (result.eip ≡ eip) × (status_in result.flags ≡ s) }
{
    let flags = alu::brief::brief_of(s);
    Rest { eip, flags }
}

// The record again, from the parts that quick steps keep apart.
fn joined(c: Cpu, e: [u32; 8], r: Rest) -> Cpu
    ensures { result ≡ current c e r }
{
    let u = Flags::from(c.eflags);
    let f = r.flags;
    let status = alu::brief::status_in(f);
    let flags = Flags {
        status,
        interrupt: u.interrupt,
        direction: u.direction,
    };
    let regs = Registers { e };
    machine::with_core(
        c,
        Core {
            regs,
            eip: r.eip,
            flags,
        },
    )
}

// Quick steps from a record on whose flags some dword shows.
fn dash_on(c: Cpu, mem: &mut [u8], t: &Classes, g: &mut Blocks, s: Status, limit: u32) -> Dashed
    requires { (length mem.old % 4096 ≡ 0) × ((tellable s ≡ true) × (s ≡ (flags_in c.eflags).status)) }
    ensures { (result.count ≤ limit) × (DashOk mem.old c result.count mem.new result.cpu) }
{
    let k = c.control;
    let file = c.regs;
    let mut e = file.e;
    let mut d: [u64; 32] = [18446744073709551615; 32];
    let from = rest_of(c.eip, s);
    let w = rush(mem, t, &mut e, &mut d, g, k, from, limit);
    let r = w.rest;
    let cpu = joined(c, e, r);
    Dashed {
        count: w.count,
        cpu,
    }
}

// Quick steps from a record on, at most so many.
pub fn dash(c: Cpu, mem: &mut [u8], t: &Classes, g: &mut Blocks, limit: u32) -> Dashed
    requires { length mem.old % 4096 ≡ 0 }
    ensures { (result.count ≤ limit) × (DashOk mem.old c result.count mem.new result.cpu) }
{
    let u = Flags::from(c.eflags);
    let s = u.status;
    if !alu::brief::is_tellable(s) {
        return Dashed { count: 0, cpu: c };
    }
    dash_on(c, mem, t, g, s, limit)
}
