// Micro32: step, run and audit, and the last two for a host in C or Rust (micro32_c gives them their C names). No caller checks anything first.
#![tactic(auto)]

ghost use Rattle.std.specs.Prelude.{◌≡◌, true};
ghost use Rattle.machine.specs.Replies.{numbered};
ghost use Rattle.machine.specs.Audit.{audit};
ghost use Rattle.machine.specs.Record.{sound};
ghost use Rattle.machine.specs.Run.{step, run};
ghost use Rattle.phases.specs.Step.{micro32};
ghost use Rattle.micro32.specs.Told.{telling, told, run_telling, run_told};
ghost use Rattle.micro32.specs.Boundary.{answer_of, ran_answered};

use blocks::Blocks;
use encoding::Classes;
use machine::{Cpu, Reply};
use phases::Stepped;

// What a run answers: how many steps were Done, the last reply, and the record after them.
#[derive(Clone, Copy)]
pub struct Ran {
    pub count: u32,
    pub reply: Reply,
    pub cpu: Cpu,
}

// A reply as a host reads it: its number, the up to three values that it carries (0 where there is none), and a run's count.
#[repr(C)]
#[derive(Clone, Copy)]
pub struct Answer {
    pub number: u32,
    pub a: u32,
    pub b: u32,
    pub c: u32,
    pub count: u32,
}

// What a run answers a host, and the record after it.
#[derive(Clone, Copy)]
pub struct Advanced {
    pub cpu: Cpu,
    pub answer: Answer,
}

// One step.
pub fn step(c: Cpu, mem: &mut [u8]) -> Stepped
    ensures { telling result.reply result.cpu mem.new ≡ told (step micro32 mem.old c) }
{
    let t = Classes::new();
    phases::advance(c, mem, &t)
}

// Steps until the budget is used or a reply isn't Done: quick ones as long as there are, then a complete one. The blocks that were read are kept in g.
fn run_on(c: Cpu, mem: &mut [u8], t: &Classes, g: &mut Blocks, budget: u32) -> Ran
    requires { sound mem.old c ≡ true }
    ensures { run_telling result.count result.reply result.cpu mem.new ≡ run_told (run micro32 budget mem.old c) }
{
    let mut n: u32 = 0;
    let mut d = c;
    // Stays: a turn takes as many steps as there are quick ones, and no `for` counts so.
    while n < budget {
        let w = swift::dash(d, mem, t, g, budget - n);
        d = w.cpu;
        n += w.count;
        if budget <= n {
            return Ran {
                count: n,
                reply: Reply::Spent,
                cpu: d,
            };
        }
        let s = phases::advance(d, mem, t);
        d = s.cpu;
        let Reply::Done = s.reply else {
            return Ran {
                count: n,
                reply: s.reply,
                cpu: d,
            };
        };
        n += 1;
    }
    Ran {
        count: n,
        reply: Reply::Spent,
        cpu: d,
    }
}

// Steps until the budget is used or a reply isn't Done.
pub fn run(c: Cpu, mem: &mut [u8], budget: u32) -> Ran
    ensures { run_telling result.count result.reply result.cpu mem.new ≡ run_told (run micro32 budget mem.old c) }
{
    if !machine::sound(mem.len(), c) {
        return Ran {
            count: 0,
            reply: Reply::BadRecord,
            cpu: c,
        };
    }
    let t = Classes::new();
    let mut g = Blocks::new();
    run_on(c, mem, &t, &mut g, budget)
}

// Do the maps keep the user away from the directory and the tables? It reads CR3 whatever PG says, and changes nothing.
pub fn audit(c: Cpu, mem: &[u8]) -> Reply
    ensures { numbered result ≡ numbered (audit mem.now c) }
{
    audit::audit(c, mem)
}

// A reply and a count, in numbers.
fn answer_of(q: Reply, count: u32) -> Answer
    ensures { result ≡ answer_of q count }
{
    let [a, b, c] = q.values();
    Answer {
        number: q.number(),
        a,
        b,
        c,
        count,
    }
}

// The run by value, answered in numbers.
fn run_answered(c: Cpu, mem: &mut [u8], budget: u32) -> Advanced
    ensures { record { answer = result.answer; cpu = result.cpu; mem = mem.new } ≡ ran_answered (run micro32 budget mem.old c) }
{
    let r = run(c, mem, budget);
    Advanced {
        cpu: r.cpu,
        answer: answer_of(r.reply, r.count),
    }
}

// The run for a host: the record is lent, and is advanced in place.
pub fn micro32_run(cpu: &mut Cpu, mem: &mut [u8], budget: u32) -> Answer
    ensures { record { answer = result; cpu = cpu.new; mem = mem.new } ≡ ran_answered (run micro32 budget mem.old cpu.old) }
{
    let w = run_answered(*cpu, mem, budget);
    *cpu = w.cpu;
    w.answer
}

// The audit for a host. Its count is 0.
pub fn micro32_audit(cpu: Cpu, mem: &[u8]) -> Answer
    ensures { result ≡ answer_of (audit mem.now cpu) 0 }
{
    answer_of(audit(cpu, mem), 0)
}
