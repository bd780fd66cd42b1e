// A list of edits as text, a line each: `PASS WAYPOINT lat|lon DELTA`, or `PASS jitter -1|1` for every position.
use crate::Bad;
use crate::number::number_of;
use crate::words::{line_number, next_line, split_word};

// The last pass that an edit may name.
pub const LAST_PASS: u32 = 63;

#[derive(Clone, Copy, PartialEq, Eq)]
pub enum Axis {
    Latitude,
    Longitude,
}

#[derive(Clone, Copy, PartialEq, Eq)]
pub enum Direction {
    Up,
    Down,
}

// What an edit moves: one position of a waypoint, or by noise in the last bit all of them.
#[derive(Clone, Copy, PartialEq, Eq)]
pub enum What {
    Jitter,
    Position { waypoint: u32, axis: Axis },
}

// By so many units of the last bit.
#[derive(Clone, Copy, PartialEq, Eq)]
pub struct Shift {
    pub direction: Direction,
    pub by: u32,
}

#[derive(Clone, Copy, PartialEq, Eq)]
pub struct Edit {
    pub pass: u32,
    pub what: What,
    pub shift: Shift,
}

// What is wrong with a line.
#[derive(Clone, Copy, PartialEq, Eq)]
pub enum Slip {
    Pass,
    Waypoint,
    Axis,
    Delta,
    Jitter,
    MoreAfter,
}

// A number with its sign: - or + or none.
fn delta(word: &[u8]) -> Option<Shift> {
    let (direction, digits) = match word {
        [b'-', rest @ ..] => (Direction::Down, rest),
        [b'+', rest @ ..] => (Direction::Up, rest),
        _ => (Direction::Up, word),
    };
    let by = number_of(digits)?;
    Some(Shift { direction, by })
}

// A number from 1 to last.
fn number_to(last: u32, word: &[u8]) -> Option<u32> {
    number_of(word).filter(|n| (1 <= *n) & (*n <= last))
}

// `lat` or `lon`.
fn axis_of(word: &[u8]) -> Option<Axis> {
    match word {
        b"lat" => Some(Axis::Latitude),
        b"lon" => Some(Axis::Longitude),
        _ => None,
    }
}

// What stands after the pass: the edit, and what is left of the line.
fn edit_of(pass: u32, rest: &[u8], waypoints: u32) -> Result<(Edit, &[u8]), Slip> {
    let (word, rest) = split_word(rest);
    if word == b"jitter".as_slice() {
        let (word, rest) = split_word(rest);
        let shift = delta(word).filter(|d| d.by == 1).ok_or(Slip::Jitter)?;
        return Ok((
            Edit {
                pass,
                what: What::Jitter,
                shift,
            },
            rest,
        ));
    }
    let waypoint = number_to(waypoints, word).ok_or(Slip::Waypoint)?;
    let (word, rest) = split_word(rest);
    let axis = axis_of(word).ok_or(Slip::Axis)?;
    let (word, rest) = split_word(rest);
    let shift = delta(word).ok_or(Slip::Delta)?;
    Ok((
        Edit {
            pass,
            what: What::Position { waypoint, axis },
            shift,
        },
        rest,
    ))
}

// The edit of a line, if there is one; its waypoint must be one of a plan of `waypoints`.
fn edit_in(line: &[u8], waypoints: u32) -> Result<Option<Edit>, Slip> {
    let (word, rest) = split_word(line);
    if word.is_empty() {
        return Ok(None);
    }
    let pass = number_to(LAST_PASS, word).ok_or(Slip::Pass)?;
    let (edit, rest) = edit_of(pass, rest, waypoints)?;
    let (more, _) = split_word(rest);
    if more.is_empty() {
        Ok(Some(edit))
    } else {
        Err(Slip::MoreAfter)
    }
}

// The edit of the line at `at`, if there is one; its waypoint must be one of a plan of `waypoints`.
pub fn edit_at(s: &[u8], at: usize, waypoints: u32) -> Result<Option<Edit>, Slip> {
    if at < s.len() {
        return edit_in(&s[at..next_line(s, at)], waypoints);
    }
    Ok(None)
}

// Reads every line, for a plan of so many waypoints, and answers the last pass that is named; or the first line that is wrong.
pub fn check_edits(s: &[u8], waypoints: u32) -> Result<u32, Bad<Slip>> {
    let mut last: u32 = 0;
    for (i, line) in s.split(|b| *b == b'\n').enumerate() {
        let n = line_number(i);
        let edit = edit_in(line, waypoints).map_err(|what| Bad { line: n, what })?;
        last = last.max(edit.map_or(0, |e| e.pass));
    }
    Ok(last)
}
