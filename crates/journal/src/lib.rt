// The log's sentences: replies, records and frames, in words for a person and as `key=value` lines for a script.
// A call that answers Ok has written all of its text; where the writer failed, it may have written the start of it.
#![tactic(auto)]

mod explain;
mod frame;
mod record;
mod reply;

pub use explain::explained;
pub use frame::{Tally, Voice, frames};
pub use record::{cpu_lines, cpu_table, unsound};
pub use reply::{Short, number, reply_lines};
