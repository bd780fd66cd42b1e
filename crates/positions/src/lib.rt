// No code: what ADD followed by ADCs, and SUB followed by SBBs, make of numbers of several words.
#![tactic(auto)]
