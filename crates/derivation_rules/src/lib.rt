// Request A5, how a set got into a family: the definitions (`specs/`) and what is proved of them (`proofs/`).
// It has no code and touches nothing. The code is in `derivation_steps` and `derivations`; these, the desk and
// the benchmark use its definitions.
#![tactic(auto)]
