// Edits of an open block for the benchmark: how many of them are answered. Works in node records and work bytes of its
// own and writes to no lent slice. Called by the benchmark's Rust program (`bench/src`); no crate uses it.
#![tactic(auto)]

ghost use Rattle.std.specs.Prelude.{◌≤◌};

use edit_rules::Edit;
use rules::{MOST_NODES, MOST_WORK};

// The most times that one call makes its edits.
const MOST_TURNS: usize = 65536;

// Opens a block, and then removes one of its nodes and adds a new one at the end, `times` times or `MOST_TURNS`.
// Returns how many of these edits were answered. With `times` 0 it is a fresh check alone.
#[unsafe(no_mangle)]
pub extern "C" fn telgouin_edits(bytes: &[u8], added: &[u8], node: usize, times: usize) -> usize
    ensures { result ≤ 131072 }
{
    let mut work = [0u8; MOST_WORK];
    let opened = test_trial::open_over(
        bytes,
        MOST_NODES,
        [test_trial::entry_before(); MOST_NODES],
        &mut work,
    );
    let mut state = opened.edited.state;
    let mut nodes = opened.nodes;
    let mut answered = 0;
    for turn in 0..times.min(MOST_TURNS) {
        let less = test_trial::edit_over(
            state,
            Edit::Remove(node),
            added,
            MOST_NODES,
            nodes,
            &mut work,
        );
        let more = test_trial::edit_over(
            less.edited.state,
            Edit::Add,
            added,
            MOST_NODES,
            less.nodes,
            &mut work,
        );
        state = more.edited.state;
        nodes = more.nodes;
        answered += less.edited.reply.is_ok() as usize + more.edited.reply.is_ok() as usize;
    }
    answered
}

// The edit that adds a node at the end or, where its record has no bytes, removes the last of `count` nodes.
fn edit_at_the_end(added: usize, count: usize) -> Edit {
    if added > 0 {
        Edit::Add
    } else {
        Edit::Remove(count.saturating_sub(1))
    }
}

// Opens a block, and then makes one edit of it as it was opened, `times` times or `MOST_TURNS`:
// adds a new node at the end or, where its record has no bytes, removes the last node. Neither changes the families
// of the block's own nodes, so that the next edit finds them. Returns how many of these edits were answered.
// With `times` 0 it is a fresh check alone.
#[unsafe(no_mangle)]
pub extern "C" fn telgouin_edit_again(bytes: &[u8], added: &[u8], times: usize) -> usize
    ensures { result ≤ 65536 }
{
    let mut work = [0u8; MOST_WORK];
    let opened = test_trial::open_over(
        bytes,
        MOST_NODES,
        [test_trial::entry_before(); MOST_NODES],
        &mut work,
    );
    let state = opened.edited.state;
    let edit = edit_at_the_end(added.len(), state.count);
    let mut answered = 0;
    for turn in 0..times.min(MOST_TURNS) {
        let seen = test_trial::edit_over(state, edit, added, MOST_NODES, opened.nodes, &mut work);
        answered += seen.edited.reply.is_ok() as usize;
    }
    answered
}
