// Linear and physical addresses, and the walk of the pages that leads from one to the other.
#![tactic(auto)]

ghost use Rattle.std.specs.Prelude.{◌≡◌, Bool, true, false, cond, ℕ, ◌+◌, ◌*◌, ◌/◌, ◌%◌, ◌<◌, ◌≤◌, ◌^◌, length, eqb};
ghost use Rattle.machine.specs.Record.{at};
ghost use Rattle.machine.specs.Paging.{dword_at, slot, rights, page_fault};
ghost use Rattle.paging.specs.Walked.{present_at, OnPage, Flat, Walked};

use machine::{Control, Reply};

#[derive(Clone, Copy)]
pub struct Linear(pub u32);

// Private inside: only the walk and the paging-off conversion of this crate make one.
#[derive(Clone, Copy)]
pub struct Physical(u32);

impl Physical {
    pub fn index(self) -> usize
        ensures { (result ≡ self.0) × (result < 2 ^ 32) }
    {
        self.0 as usize
    }
}

// The entries that a translation went through.
#[derive(Clone, Copy)]
pub struct Entries {
    pub dir: Physical,
    pub table: Physical,
}

// Where a translation came to, and the entries to mark: none with paging off.
#[derive(Clone, Copy)]
pub struct Reached {
    pub place: Physical,
    pub entries: Option<Entries>,
}

// The byte at an index: 0 past the end.
pub fn byte_at(mem: &[u8], i: usize) -> u32
    ensures { (result ≡ at mem.now i) × (result < 256) }
{
    u32::from(cells::get(mem, i, 0))
}

// The byte at an index that is there.
pub fn present_byte(mem: &[u8], i: usize) -> u32
    requires { i < length mem.now }
    ensures { (result ≡ at mem.now i) × (result < 256) }
{
    u32::from(mem[i])
}

fn slow(mem: &[u8], i: usize) -> u32
    requires { i < 2 ^ 46 }
    ensures { result ≡ dword_at mem.now i }
{
    u32::from_le_bytes([
        cells::get(mem, i, 0),
        cells::get(mem, i + 1, 0),
        cells::get(mem, i + 2, 0),
        cells::get(mem, i + 3, 0),
    ])
}

// The dword at an index, where all of it is there.
pub fn present_dword(mem: &[u8], i: usize) -> u32
    requires { i + 3 < length mem.now }
    ensures { result ≡ dword_at mem.now i }
{
    u32::from_le_bytes([mem[i], mem[i + 1], mem[i + 2], mem[i + 3]])
}

// The dword at an index: bytes past the end are 0.
pub fn dword(mem: &[u8], i: usize) -> u32
    requires { i < 2 ^ 46 }
    ensures { result ≡ dword_at mem.now i }
{
    if i + 3 < mem.len() {
        present_dword(mem, i)
    } else {
        slow(mem, i)
    }
}

// The dword at a physical address.
pub fn dword_at(mem: &[u8], p: Physical) -> u32
    ensures { result ≡ dword_at mem.now p.0 }
{
    dword(mem, p.0 as usize)
}

// Entry i of the table in frame f, wherever that lies.
pub fn entry(mem: &[u8], f: u32, i: u32) -> u32
    ensures { result ≡ dword_at mem.now (slot f i) }
{
    dword(mem, f as usize * 4096 + i as usize * 4)
}

#[tactic(auto, unfolding(machine::specs::Paging::rights))]
fn allowed(c: Control, w: bool, us: bool, rw: bool) -> bool
    ensures { result ≡ rights c w us rw }
{
    let user = c.ring == 3;
    let wp = c.cr0 / 65536 % 2 == 1;
    (!user | us) & (!(w & (user | wp)) | rw)
}

// A page fault's code: 1 if all was present, 2 for a write, 4 in ring 3.
fn code(present: u32, w: bool, ring: u32) -> u32
    requires { present < 2 }
    ensures { result ≡ present + cond w 2 0 + cond (eqb ring 3) 4 0 }
{
    if ring == 3 {
        if w { present + 6 } else { present + 4 }
    } else {
        if w { present + 2 } else { present }
    }
}

// The reply where an entry is absent.
fn absent(c: Control, w: bool, l: Linear) -> Reply
    ensures { result ≡ page_fault c w 0 l.0 }
{
    Reply::Fault(14, code(0, w, c.ring), l.0)
}

// The entry at a physical address; absent: the reply where it names nothing.
#[tactic(auto, unfolding(crate::specs::Walked::present_at))]
fn present(mem: &[u8], p: Physical, absent: Reply) -> Result<u32, Reply>
    ensures { result ≡ present_at mem.now p.0 absent }
{
    if mem.len() <= p.0 as usize {
        return Err(Reply::NoMemory(p.0));
    }
    let e = dword_at(mem, p);
    if e % 2 != 1 {
        return Err(absent);
    }
    Ok(e)
}

fn walk(mem: &[u8], c: Control, w: bool, l: Linear) -> Result<Reached, Reply>
    ensures { OnPage mem.now c w l.0 result }
{
    let absent = absent(c, w, l);
    let dir = Physical(c.cr3 / 4096 * 4096 + l.0 / 4194304 * 4);
    let pde = present(mem, dir, absent)?;
    let table = Physical(pde / 4096 * 4096 + l.0 / 4096 % 1024 * 4);
    let pte = present(mem, table, absent)?;
    let us = (pde / 4 % 2 == 1) & (pte / 4 % 2 == 1);
    let rw = (pde / 2 % 2 == 1) & (pte / 2 % 2 == 1);
    let place = Physical(pte / 4096 * 4096 + l.0 % 4096);
    let i = place.0 as usize;
    if !allowed(c, w, us, rw) {
        return Err(Reply::Fault(14, code(1, w, c.ring), l.0));
    }
    if mem.len() <= i {
        return Err(Reply::NoMemory(place.0));
    }
    Ok(Reached {
        place,
        entries: Some(Entries { dir, table }),
    })
}

// With paging off the linear address is the physical one.
fn flat(mem: &[u8], l: Linear) -> Result<Reached, Reply>
    ensures { Flat mem.now l.0 result }
{
    if mem.len() <= l.0 as usize {
        return Err(Reply::NoMemory(l.0));
    }
    Ok(Reached {
        place: Physical(l.0),
        entries: None,
    })
}

// From a linear address to a physical one, or the refusal; w: is it a write.
pub fn translate(mem: &[u8], c: Control, w: bool, l: Linear) -> Result<Reached, Reply>
    ensures { Walked mem.now c w l.0 result }
{
    if c.cr0 / 2147483648 % 2 == 1 {
        return walk(mem, c, w, l);
    }
    flat(mem, l)
}
