// The ground's own plan: what was sent, and nothing else.
use crate::place;
use crate::place::{Plan, SIZE, position};
use given::Axis;
use machine::Control;
use paging::Linear;

// The ground begins with the plan as it was last sent.
pub fn seed(mem: &[u8], p: Plan, ground: &mut [u8]) {
    cells::copy(mem, p.sent, ground, 0, p.waypoints % 65536 * SIZE);
}

// The byte that the guest itself could read there, if it could.
fn fetch_byte(mem: &[u8], c: Control, linear: u32) -> Option<u8> {
    let t = paging::translate(mem, c, false, Linear(linear)).ok()?;
    Some(cells::get(mem, t.place.index(), 0))
}

fn fetch(mem: &[u8], c: Control, linear: u32) -> Option<[u8; 16]> {
    let mut row = [0u8; 16];
    for (k, b) in row.iter_mut().enumerate() {
        *b = fetch_byte(mem, c, linear.wrapping_add(k as u32))?;
    }
    Some(row)
}

// A waypoint arrives: its bytes, as the guest reads them at a linear address. False where they cannot be read.
pub fn receive(mem: &[u8], c: Control, linear: u32, ground: &mut [u8], waypoint: u32) -> bool {
    let Some(row) = fetch(mem, c, linear) else {
        return false;
    };
    cells::copy(
        &row,
        0,
        ground,
        place::at(0, waypoint, Axis::Latitude),
        SIZE,
    );
    true
}

// Are two positions the same but for one in the last bit?
fn is_close(x: u64, y: u64) -> bool {
    (x == y) | (x.wrapping_add(1) == y) | (y.wrapping_add(1) == x)
}

fn agrees(mem: &[u8], p: Plan, ground: &[u8], waypoint: u32, axis: Axis) -> bool {
    is_close(
        position(mem, place::at(p.cabin, waypoint, axis)),
        position(ground, place::at(0, waypoint, axis)),
    )
}

// How many waypoints the ground has otherwise than the cabin.
pub fn differing(mem: &[u8], p: Plan, ground: &[u8]) -> u32 {
    let mut count: u32 = 0;
    for k in 1..=p.waypoints {
        if !agrees(mem, p, ground, k, Axis::Latitude)
            | !agrees(mem, p, ground, k, Axis::Longitude)
        {
            count = count.wrapping_add(1);
        }
    }
    count
}
