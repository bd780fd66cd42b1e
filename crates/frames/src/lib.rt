// Which frames of memory a pass changed, and by what right: a copy of what was there before, and what the maps say.
#![tactic(auto)]

mod copies;
mod maps;

pub use copies::{Change, Copies};
use machine::Control;
pub use maps::{holds_table, is_users};

// A changed frame: the user's own, by the maps; a directory or table with accessed and dirty marks set; one that the kernel wrote, whom
// the maps need not bind; or none of these.
#[derive(Clone, Copy, PartialEq, Eq)]
pub enum Kind {
    Same,
    Own,
    Marks,
    Kernel,
    Neither,
}

impl Copies<'_> {
    // What became of frame f.
    pub fn kind_of(&self, mem: &[u8], c: Control, f: u32) -> Kind {
        match self.change_of(mem, f) {
            Change::Nothing => Kind::Same,
            Change::Marks if holds_table(mem, c, f) => Kind::Marks,
            _ if c.ring == 0 => Kind::Kernel,
            _ if (c.cr0 / 2147483648 % 2 == 1) && is_users(mem, c, f) => Kind::Own,
            _ => Kind::Neither,
        }
    }
}
