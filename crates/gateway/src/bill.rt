// Cabin and ground over several passes with edits in between, and what they cost.
use crate::ask::{Argument, Ask};
use crate::order::Order;
use crate::{files, run};
use account::{Due, Row, Rows};
use frames::Copies;
use given::Slip;
use journal::Voice;
use machine::Cpu;
use pass::{Ground, Passed, Station};
use report::Log;
use std::env::Env;
use std::io;
use std::io::Write;
use std::rt::Files;
use waypoints::{NoPlan, Plan};

fn no_plan(why: NoPlan) -> &'static str {
    match why {
        NoPlan::NoMark => "no plan: the dword at 00004000 is not the mark PLAN",
        NoPlan::Count(_) => "no plan: the records name no number of waypoints from 1 to 4096",
        NoPlan::Outside(_) => "no plan: the records name a place past the end of memory",
    }
}

fn slip(s: Slip) -> &'static str {
    match s {
        Slip::Pass => "a line begins with a pass from 1 to 63",
        Slip::Waypoint => "after the pass stands jitter or a waypoint of the plan",
        Slip::Axis => "after the waypoint stands lat or lon",
        Slip::Delta => "the change is a decimal number up to 4294967295, with or without a sign",
        Slip::Jitter => "jitter is -1 or 1",
        Slip::MoreAfter => "there is more after the change",
    }
}

// The cabin's memory and the ground's plan, with what was ordered and what the passes came to so far.
#[derive(Drop)]
struct Flight<'m, 'g, 'e> {
    mem: &'m mut [u8],
    ground: &'g mut [u8],
    edits: &'e [u8],
    plan: Plan,
    order: Order,
    rows: Rows,
}

impl Flight<'_, '_, '_> {
    // How many waypoints the ground has otherwise than the cabin.
    fn differing(&self) -> u32 {
        waypoints::differing(self.mem, self.plan, self.ground)
    }

    // Makes the edits for a pass, and counts what the ground then has otherwise.
    fn edit(&mut self, pass: u32) -> Due {
        let edits = self.edits;
        let plan = self.plan;
        let a = waypoints::apply(edits, pass, self.mem, plan);
        Due {
            edits: a.edits,
            jitters: a.jitters,
            changed: self.differing(),
        }
    }

    fn play<W: Write>(&mut self, out: &mut W, c: Cpu) -> io::Result<Passed> {
        let Order { voice, budget, .. } = self.order;
        let waypoints = self.plan.waypoints;
        let mut station = Station {
            out,
            voice,
            ground: Some(Ground {
                plan: self.ground,
                waypoints,
            }),
        };
        station.play(self.mem, c, budget)
    }

    // Plays one pass with an audit before and after, writes its row, and answers how it ended.
    fn play_row<W: Write>(
        &mut self,
        out: &mut W,
        copies: &Copies<'_>,
        due: Due,
        c: Cpu,
    ) -> io::Result<Passed> {
        let before = micro32::audit(c, self.mem);
        let passed = self.play(out, c)?;
        let e = passed.cpu;
        let frames = journal::frames(out, Voice::Silent, self.mem, e.control, copies)?;
        let row = Row {
            due,
            done: passed.done,
            frames,
            before,
            after: micro32::audit(e, self.mem),
        };
        self.rows.add(row);
        account::end(out, self.order.voice, row)?;
        Ok(passed)
    }

    // Tells how a pass ended, and answers the record that the next one begins with. There is none after a pass that the guest did not end by
    // itself: then why, and whether the kernel's records were touched.
    fn tell<W: Write>(
        &self,
        out: &mut W,
        copies: &Copies<'_>,
        passed: Passed,
    ) -> io::Result<Option<Cpu>> {
        let c = passed.cpu;
        let q = passed.reply;
        let voice = self.order.voice;
        let mut log = Log {
            out,
            voice,
            mem: &*self.mem,
        };
        log.reply(c, q)?;
        if pass::is_end(q) {
            return Ok(Some(pass::after(c, q)));
        }
        if let Voice::Words = voice {
            self.rows.break_off(log.out)?;
            log.reply(c, q)?;
        }
        log.records(copies)?;
        Ok(None)
    }

    // One pass with all that belongs to it: its edits, its row, and the copy of memory that it is compared with.
    fn turn<R: Env + Files, W: Write, E: Write>(
        &mut self,
        ask: &mut Ask<'_, R, E>,
        out: &mut W,
        room: &mut [u8],
        pass: u32,
        c: Cpu,
    ) -> io::Result<Option<Cpu>> {
        let due = self.edit(pass);
        let found = run::remembered(ask, self.mem, room);
        let Ok(Some(copies)) = &found else {
            return found.map(|_| None);
        };
        account::begin(out, self.order.voice, pass, due)?;
        let passed = self.play_row(out, copies, due, c)?;
        self.tell(out, copies, passed)
    }

    // All passes, or up to the first that the guest does not end by itself.
    fn passes<R: Env + Files, W: Write, E: Write>(
        &mut self,
        ask: &mut Ask<'_, R, E>,
        out: &mut W,
        room: &mut [u8],
        c: Cpu,
        last: u32,
    ) -> io::Result<()> {
        let mut cpu = c;
        for pass in 1..=last {
            let Some(next) = self.turn(ask, out, room, pass, cpu)? else {
                return Ok(());
            };
            cpu = next;
        }
        let differing = self.differing();
        let voice = self.order.voice;
        let waypoints = self.plan.waypoints;
        self.rows.sum_up(out, voice, waypoints, differing)
    }
}

// The plan and the edits must both be good before anything is run. Then come the passes that the edits name and one more, from a ground that
// has the plan as it was last sent.
fn check<R: Env + Files, W: Write, E: Write>(
    ask: &mut Ask<'_, R, E>,
    out: &mut W,
    mem: &mut [u8],
    room: &mut [u8],
    edits: &[u8],
    c: Cpu,
    order: Order,
) -> io::Result<()> {
    let plan = match waypoints::find(mem) {
        Ok(plan) => plan,
        Err(why) => return ask.complain(Argument::Image, no_plan(why)),
    };
    let last = match given::check_edits(edits, plan.waypoints) {
        Ok(last) => last,
        Err(bad) => return ask.complain_of_line(Argument::Edits, bad.line, slip(bad.what)),
    };
    let mut ground = [0u8; 65536];
    waypoints::seed(mem, plan, &mut ground);
    let mut flight = Flight {
        mem,
        ground: &mut ground,
        edits,
        plan,
        order,
        rows: Rows::new(),
    };
    flight.passes(ask, out, room, c, last.wrapping_add(1))
}

// Kept apart from its caller: else a run of one pass has the room of a bill on its stack too.
#[inline(never)]
pub fn bill<R: Env + Files, W: Write, E: Write>(
    ask: &mut Ask<'_, R, E>,
    out: &mut W,
    mem: &mut [u8],
    room: &mut [u8],
    o: Order,
) -> io::Result<()> {
    let Some(ready) = files::prepare(ask, mem, o)? else {
        return Ok(());
    };
    let mut s = [0u8; files::TEXT];
    let Some(edits) = files::read(ask, Argument::Edits, &mut s)? else {
        return Ok(());
    };
    check(ask, out, mem, room, edits, ready.cpu, o)
}
