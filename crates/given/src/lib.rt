// What a person hands over as text: numbers, a record, a list of edits. Nothing is guessed: whatever is not understood is named.
#![tactic(auto)]

mod edits;
mod number;
mod record;
mod words;

pub use edits::{Axis, Direction, Edit, LAST_PASS, Shift, Slip, What, check_edits, edit_at};
pub use number::number_of;
pub use record::{Flaw, record_of};
pub use words::next_line;

// The first line of a text that is wrong, and what is wrong with it.
#[derive(Clone, Copy, PartialEq, Eq)]
pub struct Bad<E> {
    pub line: u32,
    pub what: E,
}
