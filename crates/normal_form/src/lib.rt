// The mathematics of search and normal form is in specs/: definitions in Search, NormalForm and Layout, and their laws. No code.
#![tactic(auto)]
