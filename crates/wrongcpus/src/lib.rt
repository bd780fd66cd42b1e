// No code: each wrong CPU that document 01 names, and an input at which the definition answers otherwise.
#![tactic(auto)]
