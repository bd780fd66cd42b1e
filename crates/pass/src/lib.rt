// A pass: the guest runs until it ends the pass or cannot go on, and each waypoint that it asks to send is taken.
#![tactic(auto)]

ghost use Rattle.std.specs.Prelude.{◌<◌};

use journal::Voice;
use machine::{Cpu, Reply};
use std::io;
use std::io::Write;

// The interrupts: a waypoint to send, and the end of a pass.
const SEND: u32 = 48;

const END: u32 = 49;

// What a pass has done so far.
#[derive(Clone, Copy, Default)]
pub struct Done {
    pub steps: u32,
    pub sent: u32,
    pub bytes: u32,
}

impl Done {
    fn step(&mut self, n: u32) {
        self.steps = self.steps.wrapping_add(n);
    }

    fn send(&mut self, bytes: u32) {
        self.sent = self.sent.wrapping_add(1);
        self.bytes = self.bytes.wrapping_add(bytes);
    }
}

#[derive(Clone, Copy)]
pub struct Passed {
    pub cpu: Cpu,
    pub reply: Reply,
    pub done: Done,
}

fn asks(q: Reply, number: u32) -> bool {
    matches!(q, Reply::Trap(vector, _) if vector == number)
}

// Has the guest ended its pass by itself?
pub fn is_end(q: Reply) -> bool {
    asks(q, END)
}

// The record, to go on behind the interrupt.
pub fn after(c: Cpu, q: Reply) -> Cpu {
    match q {
        Reply::Trap(_, next) => Cpu { eip: next, ..c },
        _ => c,
    }
}

// What is left of a budget after n steps and an interrupt.
fn less(left: u32, n: u32) -> u32
    requires { 0 < left }
    ensures { result < left }
{
    left.saturating_sub(n).saturating_sub(1)
}

// The ground's plan, of so many waypoints.
#[derive(Drop)]
pub struct Ground<'a> {
    pub plan: &'a mut [u8],
    pub waypoints: u32,
}

impl Ground<'_> {
    // Takes a waypoint, of so many bytes at ESI.
    fn takes(&mut self, mem: &[u8], c: Cpu, waypoint: u32, bytes: u32) -> bool {
        if (waypoint == 0) | (self.waypoints < waypoint) | (bytes != 16) {
            return false;
        }
        waypoints::receive(mem, c.control, c.regs.read(6), self.plan, waypoint)
    }
}

// Who takes what a guest sends: the ground, if there is one, and how that is told.
#[derive(Drop)]
pub struct Station<'o, 'g, W> {
    pub out: &'o mut W,
    pub voice: Voice,
    pub ground: Option<Ground<'g>>,
}

impl<W: Write> Station<'_, '_, W> {
    fn tell(&mut self, waypoint: u32, bytes: u32) -> io::Result<()> {
        match self.voice {
            Voice::Words => writeln!(self.out, "  waypoint {waypoint}: {bytes} bytes"),
            Voice::Plain => write!(self.out, "waypoint={waypoint}\nwaypoint.bytes={bytes}\n"),
            Voice::Silent => Ok(()),
        }
    }

    fn tell_refused(&mut self, waypoint: u32) -> io::Result<()> {
        match self.voice {
            Voice::Words => writeln!(
                self.out,
                "  waypoint {waypoint}: not taken; the plan has no such waypoint, or its 16 bytes cannot be read"
            ),
            Voice::Plain => writeln!(self.out, "waypoint.refused={waypoint}"),
            Voice::Silent => Ok(()),
        }
    }

    // With no ground there is nothing to take.
    fn is_taken(&mut self, mem: &[u8], c: Cpu, waypoint: u32, bytes: u32) -> bool {
        match &mut self.ground {
            Some(ground) => ground.takes(mem, c, waypoint, bytes),
            None => true,
        }
    }

    // Answers the interrupt: the waypoint is EAX, of ECX bytes.
    fn answer(&mut self, mem: &[u8], c: Cpu, done: &mut Done) -> io::Result<()> {
        let waypoint = c.regs.read(0);
        let bytes = c.regs.read(1);
        if !self.is_taken(mem, c, waypoint, bytes) {
            return self.tell_refused(waypoint);
        }
        self.tell(waypoint, bytes)?;
        done.send(bytes);
        Ok(())
    }

    // Plays one pass on the budget. An interrupt that is answered takes one from it. Where the writer fails the pass ends there.
    pub fn play(&mut self, mem: &mut [u8], c: Cpu, budget: u32) -> io::Result<Passed> {
        let mut cpu = c;
        let mut left = budget;
        let mut done = Done::default();
        // Stays: each turn takes as much from the budget as the guest has used, so no range counts the turns.
        while 0 < left {
            let r = micro32::run(cpu, mem, left);
            let reply = r.reply;
            cpu = r.cpu;
            left = less(left, r.count);
            done.step(r.count);
            if !asks(reply, SEND) {
                return Ok(Passed { cpu, reply, done });
            }
            self.answer(mem, cpu, &mut done)?;
            cpu = after(cpu, reply);
        }
        Ok(Passed {
            cpu,
            reply: Reply::Spent,
            done,
        })
    }
}
