// The run and the audit of micro32 under their C names, for a host in C or Rust: include/micro32.h declares them.
#![tactic(auto)]

ghost use Rattle.std.specs.Prelude.{◌≡◌};
ghost use Rattle.machine.specs.Audit.{audit};
ghost use Rattle.machine.specs.Run.{run};
ghost use Rattle.phases.specs.Step.{micro32};
ghost use Rattle.micro32.specs.Boundary.{answer_of, ran_answered};

use machine::Cpu;
use micro32::Answer;

// The run for a host: the record is lent, and is advanced in place.
#[unsafe(no_mangle)]
pub extern "C" fn micro32_run(cpu: &mut Cpu, mem: &mut [u8], budget: u32) -> Answer
    ensures { record { answer = result; cpu = cpu.new; mem = mem.new } ≡ ran_answered (run micro32 budget mem.old cpu.old) }
{
    micro32::micro32_run(cpu, mem, budget)
}

// The audit for a host. Its count is 0.
#[unsafe(no_mangle)]
pub extern "C" fn micro32_audit(cpu: Cpu, mem: &[u8]) -> Answer
    ensures { result ≡ answer_of (audit mem.now cpu) 0 }
{
    micro32::micro32_audit(cpu, mem)
}
