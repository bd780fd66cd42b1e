// No code: a ring 3 program beside the kernel's records, memories that differ in them alone, and a machine that would show them to the program.
#![tactic(auto)]
