// What an instruction reads and writes: found on one page or on two before anything is changed; then marks, then stores.
#![tactic(auto)]

ghost use Rattle.std.specs.Prelude.{◌≡◌, ℕ, ◌+◌, ◌*◌, ◌/◌, ◌%◌, ◌^◌, ◌<◌, ◌≤◌, Bool, true, false, cond, length, set, slice_set};
ghost use Rattle.machine.specs.Record.{at};
ghost use Rattle.machine.specs.Commit.{mark, patch, patches};
ghost use Rattle.paging.specs.Walked.{Walked, patches_of};
ghost use Rattle.access.specs.Located.{asked, LocatedOk, TrailOk, trail_marks, placed, puts, nowhere};

use machine::{Control, Reply, Want};
use paging::{Entries, Linear, Physical, Reached};

// Memory as a step sees it, by the maps of these control registers: whole pages of it.
#[derive(Clone, Copy)]
pub struct View<'a> {
    pub mem: &'a [u8],
    pub control: Control,
    pub ghost size: { length mem.now % 4096 ≡ 0 },
}

// The pages that an access used: the second is None where there is one.
#[derive(Clone, Copy)]
pub struct Trail {
    pub first: Option<Entries>,
    pub last: Option<Entries>,
}

// Where an access lies: nowhere, one byte, a dword on one page, or its four bytes over two.
// Stays: four ways to lie are no Option.
#[derive(Clone, Copy)]
pub enum Place {
    Nowhere,
    Byte(Physical),
    Near(Physical),
    Across(Physical, Physical, Physical, Physical),
}

#[derive(Clone, Copy)]
pub struct Access {
    pub place: Place,
    pub value: u32,
    pub write: bool,
    pub trail: Trail,
}

fn gather(mem: &[u8], i: Physical, j: Physical, k: Physical, l: Physical) -> u32
    ensures { result ≡ at mem.now i.0 + 256 * at mem.now j.0 + 65536 * at mem.now k.0 + 16777216 * at mem.now l.0 }
{
    u32::from_le_bytes([
        cells::get(mem, i.index(), 0),
        cells::get(mem, j.index(), 0),
        cells::get(mem, k.index(), 0),
        cells::get(mem, l.index(), 0),
    ])
}

pub fn nowhere() -> Access
    ensures { result ≡ nowhere }
{
    Access {
        place: Place::Nowhere,
        value: 0,
        write: false,
        trail: Trail {
            first: None,
            last: None,
        },
    }
}

impl<'a> View<'a> {
    // From a linear address to a physical one, or the refusal; w: is it a write.
    pub fn translate(&self, w: bool, l: Linear) -> Result<Reached, Reply>
        ensures { Walked self.now.mem.now self.now.control w l.0 result }
    {
        paging::translate(self.mem, self.control, w, l)
    }

    // Stays: where an access's translation is refused, the step ends there with that reply, by `let .. else` and not by `?`: the project names this form
    // (docs/DECISIONS.md, "Forms").

    // One byte; w: is it a write.
    fn single(&self, w: bool, l: u32) -> Result<Access, Reply>
        ensures { LocatedOk self.now.mem.now self.now.control (asked w false l) result }
    {
        let answer = self.translate(w, Linear(l));
        let Ok(t) = answer else {
            return Err(answer.unwrap_err());
        };
        let value = paging::byte_at(self.mem, t.place.index());
        Ok(Access {
            place: Place::Byte(t.place),
            value,
            write: w,
            trail: Trail {
                first: t.entries,
                last: None,
            },
        })
    }

    // A dword on one page.
    fn near(&self, w: bool, l: u32) -> Result<Access, Reply>
        requires { l % 4096 ≤ 4092 }
        ensures { LocatedOk self.now.mem.now self.now.control (asked w true l) result }
    {
        let answer = self.translate(w, Linear(l));
        let Ok(t) = answer else {
            return Err(answer.unwrap_err());
        };
        let value = paging::dword_at(self.mem, t.place);
        Ok(Access {
            place: Place::Near(t.place),
            value,
            write: w,
            trail: Trail {
                first: t.entries,
                last: None,
            },
        })
    }

    // A dword over two pages: the first page's checks are finished before the second's.
    fn across(&self, w: bool, l: u32) -> Result<Access, Reply>
        ensures { LocatedOk self.now.mem.now self.now.control (asked w true l) result }
    {
        let answer0 = self.translate(w, Linear(l));
        let Ok(t0) = answer0 else {
            return Err(answer0.unwrap_err());
        };
        let answer1 = self.translate(w, Linear(l.wrapping_add(1)));
        let Ok(t1) = answer1 else {
            return Err(answer1.unwrap_err());
        };
        let answer2 = self.translate(w, Linear(l.wrapping_add(2)));
        let Ok(t2) = answer2 else {
            return Err(answer2.unwrap_err());
        };
        let answer3 = self.translate(w, Linear(l.wrapping_add(3)));
        let Ok(t3) = answer3 else {
            return Err(answer3.unwrap_err());
        };
        let value = gather(self.mem, t0.place, t1.place, t2.place, t3.place);
        Ok(Access {
            place: Place::Across(t0.place, t1.place, t2.place, t3.place),
            value,
            write: w,
            trail: Trail {
                first: t0.entries,
                last: t3.entries,
            },
        })
    }

    fn find(&self, w: bool, wide: bool, l: u32) -> Result<Access, Reply>
        ensures { LocatedOk self.now.mem.now self.now.control (asked w wide l) result }
    {
        if !wide {
            return self.single(w, l);
        }
        if l % 4096 <= 4092 {
            return self.near(w, l);
        }
        self.across(w, l)
    }

    // The access that an instruction asks for; memory is only read.
    pub fn locate(&self, want: Want) -> Result<Access, Reply>
        ensures { LocatedOk self.now.mem.now self.now.control want result }
    {
        match want {
            Want::Nothing => Ok(nowhere()),
            Want::Read(wide, l) => self.find(false, wide, l),
            Want::Write(wide, l) => self.find(true, wide, l),
        }
    }

    // The pages that the n bytes of an instruction lie on.
    pub fn code_trail(&self, eip: u32, n: u32) -> Trail
        requires { (0 < n) × (n < 16) }
        ensures { TrailOk self.now.mem.now self.now.control eip n result }
    {
        let first = self
            .translate(false, Linear(eip))
            .map_or(None, |t| t.entries);
        if eip % 4096 + n <= 4096 {
            return Trail { first, last: None };
        }
        let end = Linear(eip.wrapping_add(n - 1));
        let last = self.translate(false, end).map_or(None, |t| t.entries);
        Trail { first, last }
    }
}

// An entry's low byte with its accessed bit set, and for a write its dirty bit.
fn marked(b: u8, w: bool) -> u8
    ensures { result ≡ mark w b }
{
    if w {
        b % 32 + 96 + b / 128 * 128
    } else {
        b % 32 + 32 + b / 64 * 64
    }
}

// The byte is written only where a bit changes.
#[tactic(auto, unfolding(machine::specs::Commit::patch))]
fn touch(mem: &mut [u8], p: Physical, w: bool)
    ensures { mem.new ≡ patch (record { place = p.0; becomes = mark w }) mem.old }
{
    let at = p.index();
    if at < mem.len() {
        let b = mem[at];
        let n = marked(b, w);
        if n != b {
            mem[at] = n;
        }
    }
}

#[tactic(auto, unfolding(machine::specs::Commit::patches, paging::specs::Walked::patches_of))]
fn mark_page(mem: &mut [u8], k: Option<Entries>, w: bool)
    ensures { mem.new ≡ patches (patches_of w k) mem.old }
{
    if let Some(e) = k {
        touch(mem, e.dir, false);
        touch(mem, e.table, w);
    }
}

// Marks the pages that an access used.
#[tactic(auto, using(crate::proofs::Marks::patches_append), unfolding(crate::specs::Located::trail_marks))]
pub fn mark_trail(mem: &mut [u8], t: Trail, w: bool)
    ensures { mem.new ≡ patches (trail_marks w t) mem.old }
{
    mark_page(mem, t.first, w);
    mark_page(mem, t.last, w);
}

#[tactic(auto, unfolding(machine::specs::Commit::patch, machine::specs::Commit::patches, crate::specs::Located::placed))]
fn put_near(mem: &mut [u8], p: Physical, v: u32)
    ensures { mem.new ≡ patches (placed (Place.Near p) v) mem.old }
{
    let i = p.index();
    let [b0, b1, b2, b3] = v.to_le_bytes();
    cells::put(mem, i, b0);
    cells::put(mem, i + 1, b1);
    cells::put(mem, i + 2, b2);
    cells::put(mem, i + 3, b3);
}

#[tactic(auto, unfolding(machine::specs::Commit::patch, machine::specs::Commit::patches, crate::specs::Located::placed))]
fn put_across(mem: &mut [u8], a: Physical, b: Physical, c: Physical, d: Physical, v: u32)
    ensures { mem.new ≡ patches (placed (Place.Across a b c d) v) mem.old }
{
    let [b0, b1, b2, b3] = v.to_le_bytes();
    cells::put(mem, a.index(), b0);
    cells::put(mem, b.index(), b1);
    cells::put(mem, c.index(), b2);
    cells::put(mem, d.index(), b3);
}

#[tactic(auto, unfolding(machine::specs::Commit::patch, machine::specs::Commit::patches, crate::specs::Located::placed))]
fn put_in(mem: &mut [u8], at: Place, v: u32)
    ensures { mem.new ≡ patches (placed at v) mem.old }
{
    match at {
        Place::Nowhere => {}
        Place::Byte(p) => cells::put(mem, p.index(), (v % 256) as u8),
        Place::Near(p) => put_near(mem, p, v),
        Place::Across(a, b, c, d) => put_across(mem, a, b, c, d, v),
    }
}

// Stores a value where an access for writing lies.
#[tactic(auto, unfolding(crate::specs::Located::puts, machine::specs::Commit::patches))]
pub fn store(mem: &mut [u8], a: Access, v: u32)
    ensures { mem.new ≡ patches (puts a v) mem.old }
{
    if a.write {
        let at = a.place;
        put_in(mem, at, v);
    }
}
