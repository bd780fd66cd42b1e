// The audit: do the maps keep the user away from the directory and the tables?
#![tactic(auto)]

ghost use Rattle.std.specs.Prelude.{◌≡◌, true, false, ◌+◌, ◌*◌, ◌/◌, ◌%◌, ◌<◌, ◌≤◌, length};
ghost use Rattle.std.proofs.Math.Option.{none};
ghost use Rattle.machine.specs.Paging.{dword_at, slot, dir_frame};
ghost use Rattle.machine.specs.Audit.{first, in_memory, outside, exposed, tables, audit};
ghost use Rattle.audit.specs.Searched.{found_of, with_table, Sized, Clear, Flags, Held};

use machine::{Control, Cpu, Reply};

// Where the search for an open page looks: the directory and every present table exist, and held flags their frames.
#[derive(Clone, Copy)]
struct Search<'a> {
    mem: &'a [u8],
    control: Control,
    held: &'a [bool],
    ghost sized: { Sized mem.now control },
    ghost flagged: { Held mem.now control held.now },
}

// Does frame f exist in a memory of n bytes?
fn in_memory(n: usize, f: u32) -> bool
    ensures { result ≡ in_memory n f }
{
    f as usize * 4096 < n
}

// Does entry d of the directory name a table that doesn't exist?
fn strays(mem: &[u8], c: Control, d: u32) -> bool
    ensures { result ≡ outside mem.now c d }
{
    let e = paging::entry(mem, c.cr3 / 4096, d);
    (e % 2 == 1) & !in_memory(mem.len(), e / 4096)
}

// The lowest entry of the directory whose table doesn't exist.
fn stray(mem: &[u8], c: Control) -> Option<u32>
    ensures { found_of result ≡ first (outside mem.now c) 1024 }
{
    (0..1024).find(|d| strays(mem, c, *d))
}

// The table that a present entry names gets its flag, whoever may use it.
#[tactic(auto, unfolding(crate::specs::Searched::with_table))]
fn raise_table(held: &mut [bool], e: u32)
    ensures { held.new ≡ with_table held.old e }
{
    if e % 2 == 1 {
        cells::put(held, e as usize / 4096, true);
    }
}

// Flags for the frames that hold the directory or a present table.
fn raise_all(mem: &[u8], c: Control, held: &mut [bool])
    requires { Clear held.old }
    ensures { Flags mem.now c 1024 held.new }
{
    cells::put(held, c.cr3 as usize / 4096, true);
    for d in 0..1024 {
        raise_table(held, paging::entry(mem, c.cr3 / 4096, d));
    }
}

impl<'a> Search<'a> {
    // Does page p open a frame that is held? All of P, R/W and U/S are set in e, the entry of the directory that names its table.
    fn opens_at(&self, p: u32, e: u32) -> bool
        requires page { p < 1048576 }
        requires entry { (e ≡ dword_at self.now.mem.now (slot (dir_frame self.now.control) (p / 1024))) × (e % 8 ≡ 7) }
        ensures { result ≡ exposed self.now.mem.now self.now.control p }
    {
        let x = paging::entry(self.mem, e / 4096, p % 1024);
        (x % 8 == 7) & cells::get(self.held, x as usize / 4096, false)
    }

    // The lowest page so far that opens a held frame, where there is none before entry d of the directory.
    fn open_in(&self, d: u32) -> Option<u32>
        requires entry { d < 1024 }
        requires before { first (exposed self.now.mem.now self.now.control) (d * 1024) ≡ none }
        ensures { found_of result ≡ first (exposed self.now.mem.now self.now.control) (d * 1024 + 1024) }
    {
        let e = paging::entry(self.mem, self.control.cr3 / 4096, d);
        if e % 8 != 7 {
            return None;
        }
        (d * 1024..d * 1024 + 1024).find(|p| self.opens_at(*p, e))
    }

    // The lowest page at which the user may write a held frame.
    fn opening(&self) -> Option<u32>
        ensures { found_of result ≡ first (exposed self.now.mem.now self.now.control) 1048576 }
    {
        for d in 0..1024 {
            if let Some(p) = self.open_in(d) {
                return Some(p);
            }
        }
        None
    }
}

fn tables(mem: &[u8], c: Control) -> Reply
    requires { (length mem.now % 4096 ≡ 0) × (length mem.now ≤ 16777216) }
    ensures { result ≡ tables mem.now c }
{
    if !in_memory(mem.len(), c.cr3 / 4096) {
        return Reply::TableOutside(1024);
    }
    if let Some(d) = stray(mem, c) {
        return Reply::TableOutside(d);
    }
    let mut held = [false; 4096];
    raise_all(mem, c, &mut held);
    let search = Search {
        mem,
        control: c,
        held: &held,
    };
    if let Some(p) = search.opening() {
        return Reply::Exposed(p * 4096);
    }
    Reply::Safe
}

// BadRecord, TableOutside, Exposed or Safe, the first of them that is so.
pub fn audit(c: Cpu, mem: &[u8]) -> Reply
    ensures { result ≡ audit mem.now c }
{
    if !machine::sound(mem.len(), c) {
        return Reply::BadRecord;
    }
    tables(mem, c.control)
}
