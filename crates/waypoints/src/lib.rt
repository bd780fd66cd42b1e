// The plan that a guest keeps in step with the ground: where it lies, the edits of it, and the ground's own copy.
#![tactic(auto)]

mod ground;
mod place;

use given::{Direction, Edit, Shift, What};
pub use ground::{differing, receive, seed};
pub use place::{NoPlan, Plan, RECORDS, find, has_records};
use place::{position, put_position};

// What was done to the plan before a pass: edits of one position, and lines of noise in the last bit.
#[derive(Clone, Copy, Default)]
pub struct Applied {
    pub edits: u32,
    pub jitters: u32,
}

impl Applied {
    fn count(&mut self, what: What) {
        let n = match what {
            What::Jitter => &mut self.jitters,
            What::Position { .. } => &mut self.edits,
        };
        *n = n.wrapping_add(1);
    }
}

// Moves the position at a place.
fn shift(mem: &mut [u8], at: u32, s: Shift) {
    let x = position(mem, at);
    let units = u64::from(s.by);
    let moved = match s.direction {
        Direction::Up => x.wrapping_add(units),
        Direction::Down => x.wrapping_sub(units),
    };
    put_position(mem, at, moved);
}

fn edit(mem: &mut [u8], p: Plan, e: Edit) {
    match e.what {
        // Every position of the plan: two a waypoint, eight bytes each.
        What::Jitter => {
            for k in 0..p.waypoints % 65536 * 2 {
                shift(mem, p.cabin.wrapping_add(8 * k), e.shift);
            }
        }
        What::Position { waypoint, axis } => shift(
            mem,
            place::at(p.cabin, waypoint, axis),
            e.shift,
        ),
    }
}

// Makes the edits for this pass in the cabin's plan.
pub fn apply(s: &[u8], pass: u32, mem: &mut [u8], p: Plan) -> Applied {
    let mut a = Applied::default();
    for line in s.split(|b| *b == b'\n') {
        if let Ok(Some(e)) = given::edit_at(line, 0, p.waypoints) {
            if e.pass == pass {
                edit(mem, p, e);
                a.count(e.what);
            }
        }
    }
    a
}
