// Request A4, many probes round one gate: the definitions (`specs/`) and what is proved of them (`proofs/`).
// It has no code and touches nothing, since all that it says follows from the reply and the node records of `check`.
// No crate uses it.
#![tactic(auto)]
