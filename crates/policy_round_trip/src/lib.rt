// The mathematics of printing and parsing again is in specs/: from decimals up to the file. No code.
#![tactic(auto)]
