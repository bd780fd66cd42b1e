// What the maps say of a frame.
ghost use Rattle.std.specs.Prelude.{◌≡◌};
ghost use Rattle.machine.specs.Paging.{dir_frame, entry};
ghost use Rattle.machine.specs.Audit.{names, holds_table};
ghost use Rattle.frames.specs.Users.{opens_at, opened, leads_at, users};

use machine::Control;

// Does entry d of the directory name a table in frame f?
fn names_at(mem: &[u8], c: Control, f: u32, d: u32) -> bool
    ensures { result ≡ names f (entry mem.now (dir_frame c) d) }
{
    let e = paging::entry(mem, c.cr3 / 4096, d);
    (e % 2 == 1) & (f == e / 4096)
}

// Does frame f hold the directory or a present table?
pub fn holds_table(mem: &[u8], c: Control, f: u32) -> bool
    ensures { result ≡ holds_table mem.now c f }
{
    f == c.cr3 / 4096 || (0..1024).any(|d| names_at(mem, c, f, d))
}

// Does entry i of the table in frame t open frame f to the user for writing?
fn opens_at(mem: &[u8], t: u32, f: u32, i: u32) -> bool
    ensures { result ≡ opens_at mem.now t f i }
{
    let e = paging::entry(mem, t, i);
    (e % 8 == 7) & (f == e / 4096)
}

fn opens(mem: &[u8], t: u32, f: u32) -> bool
    ensures { result ≡ opened mem.now t f }
{
    (0..1024).any(|i| opens_at(mem, t, f, i))
}

// Does entry d of the directory lead to a page behind which the user may write frame f?
fn leads_at(mem: &[u8], c: Control, f: u32, d: u32) -> bool
    ensures { result ≡ leads_at mem.now c f d }
{
    let e = paging::entry(mem, c.cr3 / 4096, d);
    if e % 8 == 7 {
        return opens(mem, e / 4096, f);
    }
    false
}

// Is frame f behind a user-writable page?
pub fn is_users(mem: &[u8], c: Control, f: u32) -> bool
    ensures { result ≡ users mem.now c f }
{
    (0..1024).any(|d| leads_at(mem, c, f, d))
}
