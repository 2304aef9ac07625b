// An edit of an open block by value with its marks: a new node at the end, or a node removed. Of lent slices it touches
// the work bytes alone, and it leaves them as they are where it refuses. An addition works out the families and the
// marks of the new node and of no other; a removal moves those behind the node down and works out none; the answer is
// read from the marks. `edits` uses it over the lent slice of node records, and `held_blocks` for a block that is held
// by value.
#![tactic(auto)]

ghost use Rattle.std.specs.Prelude.{◌≡◌, ◌*◌, ◌<◌, ◌≤◌, length};
ghost use Rattle.rules.specs.Records as Records;
ghost use Rattle.rules.specs.Records.{WellFormed, most_nodes};
ghost use Rattle.netlists.specs.Netlists.{flat_of, Placed};
ghost use Rattle.edit_rules.specs.Edits as Edits;
ghost use Rattle.edit_rules.specs.Meaning.{edit_of};
ghost use Rattle.edit_steps.specs.Changes.{state_in, Limited, Adds, RemovesUnused, Changes};

use checker::Examined;
use edit_rules::{Edit, State};
use marks::Marks;
use netlists::Netlist;
use rules::{MOST_NODES, MOST_VARIABLES, Node, Reason, Refusal};

// A block by value, and its marks.
#[derive(Clone, Copy)]
pub struct Loaded {
    pub block: Netlist,
    pub marks: Marks,
}

// The state of a block by value.
pub fn state_of(block: Netlist) -> State
    ensures { result ≡ state_in block }
{
    // Stored straight from the other struct, an array has no proof.
    let classes = block.classes;
    State {
        variables: block.variables,
        classes,
        count: block.count,
    }
}

// ---- a new node

// The answer for a block with a node more, which can stand at its number, or the refusal of slices that are too short
// for it.
fn add_offered(
    loaded: Loaded,
    node: Node,
    entries: usize,
    work: &mut [u8],
) -> Result<Examined, Refusal>
    requires { Limited loaded.block × (loaded.block.count < most_nodes) × Placed loaded.block.count node }
    ensures { Adds loaded.block loaded.marks node entries result work.old work.new }
{
    let count = loaded.block.count;
    checker::slices_fit(count + 1, entries, work.len())?;
    nodes::node_families(work, count, node);
    let longer = netlists::with_node(loaded.block, node);
    Ok(checker::read_marks(longer, marks::with_last(longer, loaded.marks, work)))
}

// A new node at the end of a block: its record is judged before both slices.
fn add_node(
    loaded: Loaded,
    bytes: &[u8],
    entries: usize,
    work: &mut [u8],
) -> Result<Examined, Refusal>
    requires { Limited loaded.block }
    ensures { Changes loaded.block loaded.marks (Edits.add bytes.now) entries result work.old work.new }
{
    let node = edit_parts::offered(bytes, loaded.block.variables, loaded.block.count)?;
    add_offered(loaded, node, entries, work)
}

// ---- a node removed

// A node removed from a block that both slices hold: 14 with the lowest node that uses it, where there is one; and only
// else does anything move.
fn remove_if_unused(loaded: Loaded, removed: usize, work: &mut [u8]) -> Result<Examined, Refusal>
    requires { Limited loaded.block × (removed < loaded.block.count) × (256 * loaded.block.count ≤ length work.old) }
    ensures { RemovesUnused loaded.block loaded.marks removed result work.old work.new }
{
    let count = loaded.block.count;
    if let Some(by) = edit_parts::lowest_user(loaded.block, removed) {
        return Err(Reason::StillNamed.at(by));
    }
    edit_parts::move_down(work, removed, count);
    let fewer = marks::without_marks(loaded.marks, removed, count);
    Ok(checker::read_marks(edit_parts::without_node(loaded.block, removed), fewer))
}

// A node removed: 12, then both slices for the nodes that the block has, then 14 where another node uses it.
fn remove_node(
    loaded: Loaded,
    removed: usize,
    entries: usize,
    work: &mut [u8],
) -> Result<Examined, Refusal>
    requires { Limited loaded.block }
    ensures { Changes loaded.block loaded.marks (Edits.remove removed) entries result work.old work.new }
{
    let count = loaded.block.count;
    if count <= removed {
        return Err(Reason::NoSuchNode.at(removed));
    }
    checker::slices_fit(count, entries, work.len())?;
    remove_if_unused(loaded, removed, work)
}

// ---- an edit

// An edit of a block by value with its marks, in slices of so many entries and of these work bytes: the refusal, or the
// answer, and the block as it then is with its marks. No block has more variables or nodes than there may be: a state
// that says so is nobody's, and is refused.
pub fn change(
    loaded: Loaded,
    edit: Edit,
    bytes: &[u8],
    entries: usize,
    work: &mut [u8],
) -> Result<Examined, Refusal>
    ensures { Changes loaded.block loaded.marks (edit_of edit bytes.now) entries result
        work.old work.new }
{
    if MOST_VARIABLES < loaded.block.variables || MOST_NODES < loaded.block.count {
        return Err(Reason::OverLimit.at(loaded.block.count));
    }
    match edit {
        Edit::Add => add_node(loaded, bytes, entries, work),
        Edit::Remove(node) => remove_node(loaded, node, entries, work),
    }
}
