// No code: what Micro32 promises, about the very step, run and audit that the crate micro32 carries out.
#![tactic(auto)]
