// One instruction in its phases: it is looked at, then it is refused or carried out whole.
#![tactic(auto)]

ghost use Rattle.std.specs.Prelude.{◌≡◌, ◌%◌, length};
ghost use Rattle.machine.specs.Run.{step};
ghost use Rattle.phases.specs.Step.{micro32};
ghost use Rattle.phases.specs.Planned.{PlanOk, left};

use access::{Access, View};
use encoding::Classes;
use machine::{Core, Cpu, Reply};

// What a step answers: the reply, and the record after it.
#[derive(Clone, Copy)]
pub struct Stepped {
    pub reply: Reply,
    pub cpu: Cpu,
}

// What is to be done, once nothing can refuse it any more.
#[derive(Clone, Copy)]
pub struct Planned {
    pub core: Core,
    pub value: u32,
    pub length: u32,
    pub first: Access,
    pub second: Access,
}

// Looks at the instruction at EIP, phase by phase; memory is only read.
fn plan(c: Cpu, mem: &[u8], t: &Classes) -> Result<Planned, Reply>
    requires { length mem.now % 4096 ≡ 0 }
    ensures { PlanOk mem.now c result }
{
    let view = View {
        mem,
        control: c.control,
    };
    let core = Core::from(c);
    let i = decode::decode(&view, t, c.eip)?;
    if !execute::permitted(i, c.eflags / 4096 % 4, c.control.ring) {
        return Err(Reply::Fault(13, 0, 0));
    }
    let first = view.locate(execute::first(i, c.regs))?;
    let second = view.locate(execute::second(i, c.regs))?;
    let e = execute::compute(i, core, first.value);
    let q = e.reply;
    if !machine::is_done(q) {
        return Err(q);
    }
    Ok(Planned {
        core: e.core,
        value: e.value,
        length: i.length,
        first,
        second,
    })
}

// Marks, then stores.
#[tactic(auto, unfolding(crate::specs::Planned::left))]
fn leave(mem: &mut [u8], p: Planned)
    ensures { mem.new ≡ left p mem.old }
{
    access::mark_trail(mem, p.first.trail, p.first.write);
    access::mark_trail(mem, p.second.trail, p.second.write);
    access::store(mem, p.first, p.value);
    access::store(mem, p.second, p.value);
}

// One step, by a table of classes that the caller lends.
pub fn advance(c: Cpu, mem: &mut [u8], t: &Classes) -> Stepped
    ensures { record { reply = result.reply; cpu = result.cpu; mem = mem.new } ≡ step micro32 mem.old c }
{
    if !machine::sound(mem.len(), c) {
        return Stepped {
            reply: Reply::BadRecord,
            cpu: c,
        };
    }
    let p = match plan(c, mem, t) {
        Ok(p) => p,
        Err(q) => return Stepped { reply: q, cpu: c },
    };
    let view = View {
        mem,
        control: c.control,
    };
    let s = view.code_trail(c.eip, p.length);
    access::mark_trail(mem, s, false);
    leave(mem, p);
    Stepped {
        reply: Reply::Done,
        cpu: machine::with_core(c, p.core),
    }
}
