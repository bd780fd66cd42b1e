// Pages of data that are kept from step to step, so that an access to one of them walks no entries: up to sixteen for reading and sixteen for writing.
// All have their entries in one table. An entry holds the page's number above the index where it begins.
ghost use Rattle.std.specs.Prelude.{◌≡◌, ℕ, ◌+◌, ◌*◌, ◌/◌, ◌%◌, ◌<◌, ◌≤◌, Bool, true, false, nat_le};
ghost use Rattle.machine.specs.Record.{Mem};
ghost use Rattle.machine.specs.declared.Control.{Control};
ghost use Rattle.keptpages.specs.Quiet.{Quiet, SettledOk, KeptOk, HeldOk};

use crate::Kept;
use machine::Control;

// The place of a page among those for reading or those for writing.
fn slot(w: bool, l: u32) -> usize
    ensures { nat_le 16 result ≡ w }
{
    let k = ((l / 4096) ^ (l / 262144)) % 16;
    if w {
        return 16 + k as usize;
    }
    k as usize
}

// Drops all of them.
pub fn clear(d: &mut [u64])
    ensures { (m : Mem) (c : Control) (t : ℕ) → HeldOk m c t d.new }
{
    d.fill(u64::MAX);
}

// Where l lies on the page.
fn on(p: Kept, l: u32) -> u32
    ensures { (m : Mem) (c : Control) (w : Bool) → KeptOk m c w p → l / 4096 ≡ p.page → Quiet m c w l (record { 0 = result }) }
{
    p.base.wrapping_add(l % 4096)
}

// Keeps the page at place k, where its entry is in the table of the others.
fn keep(d: &mut [u64], table: u32, k: usize, p: Kept)
    ensures { (m : Mem) (c : Control) → HeldOk m c table d.old → KeptOk m c (nat_le 16 k) p → HeldOk m c table d.new }
{
    if p.table != table {
        return;
    }
    cells::put(d, k, p.page as u64 * 4294967296 + p.base as u64);
}

// A page that is not kept yet.
fn look(mem: &[u8], c: Control, d: &mut [u64], table: u32, w: bool, l: u32, k: usize) -> Option<u32>
    requires { (HeldOk mem.now c table d.old) × (nat_le 16 k ≡ w) }
    ensures { (SettledOk mem.now c w l result) × (HeldOk mem.now c table d.new) }
{
    let p = crate::page_of(mem, c, w, l)?;
    keep(d, table, k, p);
    Some(on(p, l))
}

// Where the byte at l lies, if its page is kept; w: is it a write.
pub fn peek(d: &[u64], table: u32, w: bool, l: u32) -> Option<u32>
    ensures { (m : Mem) (c : Control) → HeldOk m c table d.now → SettledOk m c w l result }
{
    let x = cells::get(d, slot(w, l), u64::MAX);
    if x / 4294967296 != (l / 4096) as u64 {
        return None;
    }
    let p = Kept {
        page: l / 4096,
        base: (x % 4294967296) as u32,
        table,
    };
    Some(on(p, l))
}

// Where the byte at l lies, if it may be used and its page is marked already.
pub fn find(mem: &[u8], c: Control, d: &mut [u64], table: u32, w: bool, l: u32) -> Option<u32>
    requires { HeldOk mem.now c table d.old }
    ensures { (SettledOk mem.now c w l result) × (HeldOk mem.now c table d.new) }
{
    if let Some(i) = peek(d, table, w, l) {
        return Some(i);
    }
    look(mem, c, d, table, w, l, slot(w, l))
}
