// What is proved of document 01's rules (`proofs/`): demand 3, and the laws that other crates' proofs cite. It has no
// code and no definition that a contract cites, and touches nothing. Nearly every crate of the product uses it.
#![tactic(auto)]
