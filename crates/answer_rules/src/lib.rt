// Each answer of document 01's table is given exactly when its rule says so: the statements are in proofs/ (Demand1, Demand1Complete, Demand1Unchanged), their terms in specs/. No code.
#![tactic(auto)]
