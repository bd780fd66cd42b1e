// The small parts of which forms are made.
ghost use Rattle.std.specs.Prelude.{◌≡◌, ℕ, ◌+◌, ◌/◌, ◌%◌, ◌<◌, ◌≤◌, true, false, length, slice_index, slice_set, IfSome};
ghost use Rattle.machine.specs.Record.{Mem, read_at, write_at};
ghost use Rattle.machine.specs.declared.Control.{Control};
ghost use Rattle.keptpages.specs.Quiet.{HeldOk, Quiet, Agree};
ghost use Rattle.outcome.specs.Outcome.{file};
ghost use Rattle.hops.specs.Hops.{moves, keeps, Spared};
ghost use Rattle.hops.specs.declared.Ending.TheVariants as ends;

use alu::brief::Short;
use hops::{Ending, Swift};
use keptpages::Kept;
use machine::Control;

fn words(e: &[u32]) -> u32
    ensures { (result ≡ slice_index e.now 0) × ((n : ℕ) → slice_index e.now n < 4294967296) }
{
    outcome::register(e, 0)
}

// The registers are eight dwords: what their type says, for a proof that reads none of them.
pub fn eight(e: &[u32; 8]) -> u32
    ensures { (result ≡ slice_index e.now 0) × ((length e.now ≡ 8) × ((n : ℕ) → slice_index e.now n < 4294967296)) }
{
    words(e)
}

pub fn register(e: &[u32; 8], n: u32) -> u32
    requires { n < 8 }
    ensures { result ≡ slice_index e.now n }
{
    e[n as usize]
}

pub fn put(e: &mut [u32; 8], n: u32, x: u32)
    requires { n < 8 }
    ensures { e.new ≡ slice_set e.old n x }
{
    e[n as usize] = x;
}

pub fn byte_register(e: &[u32; 8], n: u32) -> u32
    requires { n < 8 }
    ensures { (result ≡ read_at false (file e.now) n) × (result < 256) }
{
    let x = register(e, n % 4);
    if n / 4 % 2 == 1 {
        return x / 256 % 256;
    }
    x % 256
}

pub fn put_byte(e: &mut [u32; 8], n: u32, x: u32)
    requires { (n < 8) × (x < 256) }
    ensures { e.new ≡ (write_at false (file e.old) n x).e }
{
    let old = register(e, n % 4);
    if n / 4 % 2 == 1 {
        put(e, n % 4, old / 65536 * 65536 + x * 256 + old % 256);
        return;
    }
    put(e, n % 4, old / 256 * 256 + x);
}

// The result goes to register n.
pub fn wrote(e: &mut [u32; 8], n: u32, eip: u32, o: Short) -> Swift
    requires { n < 8 }
    ensures { (e.new ≡ slice_set e.old n o.value) × (result ≡ record { ending = ends.Follows; rest = record { eip = eip; flags = o.flags } }) }
{
    put(e, n, o.value);
    let g = o.flags;
    Swift::onward(eip, g, Ending::Follows)
}

// Where the dword at l lies, if all of it is on a page that is at hand.
pub fn reach(d: &[u64; 32], table: u32, w: bool, l: u32) -> Option<u32>
    ensures { IfSome result (λ i. (l % 4096 ≤ 4092) × ((m : Mem) (c : Control) → HeldOk m c table d.now → Quiet m c w l (record { 0 = i }))) }
{
    let at = keptpages::held::peek(d, table, w, l);
    if 4092 < l % 4096 {
        return None;
    }
    at
}

// Stores a dword at i, all on one page; answers whether the pages that are kept may be others, or the code page has changed.
pub fn store(mem: &mut [u8], c: Control, h: Kept, i: u32, v: u32) -> Ending
    requires { (i + 3 < length mem.old) × (i % 4096 ≤ 4092) }
    ensures { (mem.new ≡ slice_set (slice_set (slice_set (slice_set mem.old i (v % 256)) (i + 1) (v / 256 % 256)) (i + 2) (v / 65536 % 256)) (i + 3) (v / 16777216 % 256)) × ((keeps result ≡ true → Spared mem.old mem.new c h.table) × ((result ≡ ends.Follows → Agree mem.old mem.new (h.base / 4096)) × (moves result ≡ true))) }
{
    hops::put_present(mem, i as usize, v);
    let frame = i / 4096;
    if (frame == h.table) | (frame == c.cr3 / 4096) {
        return Ending::Remapped;
    }
    if frame == h.base / 4096 {
        return Ending::Done;
    }
    Ending::Follows
}
