// Where the plan lies. The kernel's records say so: a mark, the number of waypoints, the cabin's plan, the plan as sent.
use given::Axis;

#[derive(Clone, Copy, PartialEq, Eq)]
pub struct Plan {
    pub waypoints: u32,
    pub cabin: u32,
    pub sent: u32,
}

// Why there is no plan: the mark is not there, or no plan has so many waypoints, or one that begins there does not lie in memory.
#[derive(Clone, Copy, PartialEq, Eq)]
pub enum NoPlan {
    NoMark,
    Count(u32),
    Outside(u32),
}

// The kernel's records, and the mark that they begin with: PLAN.
pub const RECORDS: u32 = 0x4000;

const MARK: u32 = 0x4e41_4c50;

const MOST: u32 = 4096;

// The bytes of a waypoint.
pub const SIZE: u32 = 16;

pub fn has_records(mem: &[u8]) -> bool {
    cells::dword(mem, RECORDS) == MARK
}

// The place at which so many waypoints begin, if all of them lie in memory.
fn inside(mem: &[u8], at: u32, waypoints: u32) -> Result<u32, NoPlan> {
    if at as usize + waypoints as usize * 16 <= mem.len() {
        Ok(at)
    } else {
        Err(NoPlan::Outside(at))
    }
}

pub fn find(mem: &[u8]) -> Result<Plan, NoPlan> {
    if !has_records(mem) {
        return Err(NoPlan::NoMark);
    }
    let waypoints = cells::dword(mem, RECORDS + 4);
    if (waypoints == 0) | (MOST < waypoints) {
        return Err(NoPlan::Count(waypoints));
    }
    Ok(Plan {
        waypoints,
        cabin: inside(mem, cells::dword(mem, RECORDS + 8), waypoints)?,
        sent: inside(mem, cells::dword(mem, RECORDS + 12), waypoints)?,
    })
}

// Where the latitude or longitude of a waypoint stands, in a plan that begins at `base`.
pub fn at(base: u32, waypoint: u32, axis: Axis) -> u32 {
    let start = base.wrapping_add(waypoint.wrapping_sub(1) % MOST * SIZE);
    match axis {
        Axis::Latitude => start,
        Axis::Longitude => start.wrapping_add(8),
    }
}

// A position: two words, the low one first.
pub fn position(b: &[u8], at: u32) -> u64 {
    let high = cells::dword(b, at.wrapping_add(4));
    u64::from(cells::dword(b, at)) + 4294967296 * u64::from(high)
}

pub fn put_position(b: &mut [u8], at: u32, x: u64) {
    cells::put_dword(b, at, (x % 4294967296) as u32);
    cells::put_dword(b, at.wrapping_add(4), (x / 4294967296) as u32);
}
