// Change request A3, "Cells come and go": `specs/` has what an edit of an open block is as definitions, `proofs/` the
// laws of them. It has the two types that the definitions speak of and no function, so it touches nothing; the code is
// in `edit_parts` and `edit_steps`, and all that edits a block uses these definitions.
#![tactic(auto)]

use rules::MOST_VARIABLES;

// The state of an open block: its variables and their classes, and the number of its nodes.
#[derive(Clone, Copy)]
pub struct State {
    pub variables: usize,
    pub classes: [u8; MOST_VARIABLES],
    pub count: usize,
}

// An edit: a new node at the end, whose record's bytes stand beside it, or a node to remove.
#[derive(Clone, Copy)]
pub enum Edit {
    Add,
    Remove(usize),
}
