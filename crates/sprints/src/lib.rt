// Blocks carried out one after another, as long as they lie on one code page.
#![tactic(auto)]

ghost use Rattle.std.specs.Prelude.{◌≡◌, true, cond, ◌%◌, ◌≤◌, length, ltb};
ghost use Rattle.hops.specs.Hops.{PagesOk};
ghost use Rattle.hops.specs.declared.Ending.TheVariants as ends;
ghost use Rattle.sprints.specs.Sprints.{Before, TracedOk};

use blocks::Blocks;
use encoding::Classes;
use hops::{Ending, Rest};
use keptpages::Kept;
use machine::Control;

// How many forms were done, how the last one ended, and where the run stands.
#[derive(Clone, Copy)]
pub struct Traced {
    pub count: u32,
    pub ending: Ending,
    pub rest: Rest,
}

fn least(a: u32, b: u32) -> u32
    ensures { (result ≡ cond (ltb a b) a b) × ((result ≤ a) × (result ≤ b)) }
{
    a.min(b)
}

// Does the block go on with its next form?
fn goes_on(ending: Ending) -> bool
    ensures { result ≡ true → ending ≡ ends.Follows }
{
    match ending {
        Ending::Follows => true,
        _ => false,
    }
}

// The forms of the block at place s, as long as one follows the other, and at most so many.
fn trace(
    mem: &mut [u8],
    e: &mut [u32; 8],
    d: &[u64; 32],
    g: &Blocks,
    c: Control,
    from: Rest,
    h: Kept,
    s: usize,
    limit: u32,
) -> Traced
    requires { Before mem.old c h d.now g.now from s }
    ensures { (result.count ≤ limit) × (TracedOk mem.old e.old c from h d.now mem.new e.new result) }
{
    let size = least(g.size(s), limit);
    let mut r = from;
    for j in 0..size {
        let f = g.form(s, j as usize);
        let w = strides::carry_out(mem, e, d, c, r, h, f);
        let next = w.rest;
        r = next;
        if !w.ending.moves() {
            return Traced {
                count: j,
                ending: Ending::Stuck,
                rest: r,
            };
        }
        if !goes_on(w.ending) {
            return Traced {
                count: j + 1,
                ending: w.ending,
                rest: r,
            };
        }
    }
    Traced {
        count: size,
        ending: Ending::Follows,
        rest: r,
    }
}

// Blocks on the page h, as many as there can be and at most so many instructions.
pub fn sprint(
    mem: &mut [u8],
    t: &Classes,
    e: &mut [u32; 8],
    d: &[u64; 32],
    g: &mut Blocks,
    c: Control,
    from: Rest,
    h: Kept,
    limit: u32,
) -> Traced
    requires { (length mem.old % 4096 ≡ 0) × (PagesOk mem.old c h d.now) }
    ensures { (result.count ≤ limit) × (TracedOk mem.old e.old c from h d.now mem.new e.new result) }
{
    let mut n: u32 = 0;
    let mut r = from;
    if h.base % 4096 != 0 {
        return Traced {
            count: n,
            ending: Ending::Follows,
            rest: r,
        };
    }
    // Stays: a turn does as many instructions as its block has, so no range counts the turns.
    while n < limit {
        if !((r.eip / 4096 == h.page) & (r.eip % 4096 <= 4032)) {
            return Traced {
                count: n,
                ending: Ending::Follows,
                rest: r,
            };
        }
        let i = h.base as usize + (r.eip % 4096) as usize;
        let s = g.find(mem, t, r.eip, i);
        let w = trace(mem, e, d, g, c, r, h, s, limit - n);
        n += w.count;
        let next = w.rest;
        r = next;
        if !w.ending.moves() | !w.ending.keeps() | (w.count == 0) {
            return Traced {
                count: n,
                ending: w.ending,
                rest: r,
            };
        }
    }
    Traced {
        count: n,
        ending: Ending::Follows,
        rest: r,
    }
}
