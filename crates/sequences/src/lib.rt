// What a gateway answers after any sequence of calls is in specs/: demand 2. No code.
#![tactic(auto)]
