// Pages that can be used with nothing left to mark, for the quick way through a run.
#![tactic(auto)]

pub mod held;

ghost use Rattle.std.specs.Prelude.{◌≡◌, ◌/◌, true, IfSome};
ghost use Rattle.machine.specs.Record.{paging};
ghost use Rattle.keptpages.specs.Quiet.{Pairs, passes, usable, KeptOk};

use machine::Control;

// The two entries of a page: where they lie, and what they hold.
#[derive(Clone, Copy)]
struct Pair {
    pub dir: u32,
    pub pde: u32,
    pub tab: u32,
    pub pte: u32,
}

// A page that is kept: its number, where it begins in memory, and the frame of its table.
#[derive(Clone, Copy)]
pub struct Kept {
    pub page: u32,
    pub base: u32,
    pub table: u32,
}

fn entries(mem: &[u8], c: Control, l: u32) -> Option<Pair>
    ensures { IfSome result (λ e. Pairs mem.now c l e) }
{
    let dir = c.cr3 / 4096 * 4096 + l / 4194304 * 4;
    if mem.len() <= dir as usize + 3 {
        return None;
    }
    let pde = paging::dword(mem, dir as usize);
    let tab = pde / 4096 * 4096 + l / 4096 % 1024 * 4;
    if mem.len() <= tab as usize + 3 {
        return None;
    }
    let pte = paging::dword(mem, tab as usize);
    Some(Pair { dir, pde, tab, pte })
}

fn passes(us: bool, rw: bool, d: bool, x: u32) -> bool
    ensures { result ≡ passes us rw d x }
{
    (x % 2 == 1)
        & (x / 32 % 2 == 1)
        & (!us | (x / 4 % 2 == 1))
        & (!rw | (x / 2 % 2 == 1))
        & (!d | (x / 64 % 2 == 1))
}

// May the page of these entries be used so? Ring 3 has its bits written out, so that they are asked for in one test of an entry.
fn usable(c: Control, w: bool, e: Pair) -> bool
    ensures { result ≡ usable c w e }
{
    if c.ring == 3 {
        if w {
            return passes(true, true, false, e.pde) & passes(true, true, true, e.pte);
        }
        return passes(true, false, false, e.pde) & passes(true, false, false, e.pte);
    }
    let rw = w & (c.cr0 / 65536 % 2 == 1);
    passes(false, rw, false, e.pde) & passes(false, rw, w, e.pte)
}

fn mapped_page(mem: &[u8], c: Control, w: bool, l: u32) -> Option<Kept>
    requires { paging c ≡ true }
    ensures { IfSome result (λ h. (h.page ≡ l / 4096) × (KeptOk mem.now c w h)) }
{
    let e = entries(mem, c, l)?;
    if !usable(c, w, e) {
        return None;
    }
    let base = e.pte / 4096 * 4096;
    if mem.len() < base as usize + 4096 {
        return None;
    }
    Some(Kept {
        page: l / 4096,
        base,
        table: e.pde / 4096,
    })
}

// The page of l, for reading or for writing, if it may be kept.
pub fn page_of(mem: &[u8], c: Control, w: bool, l: u32) -> Option<Kept>
    ensures { IfSome result (λ h. (h.page ≡ l / 4096) × (KeptOk mem.now c w h)) }
{
    if c.cr0 / 2147483648 % 2 == 1 {
        return mapped_page(mem, c, w, l);
    }
    let base = l / 4096 * 4096;
    if mem.len() < base as usize + 4096 {
        return None;
    }
    Some(Kept {
        page: l / 4096,
        base,
        table: 0,
    })
}
