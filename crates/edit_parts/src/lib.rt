// What an edit of a block by value is made of: the node that a record's bytes offer; the lowest node that uses another;
// a block without one of its nodes, and its families moved down. Of lent slices it touches the work bytes alone, where
// families move. `edit_steps` uses it.
#![tactic(auto)]

ghost use Rattle.std.specs.Prelude.{◌≡◌, ◌==◌, ◌+◌, ◌*◌, ◌<◌, ◌≤◌, length, get_or, drop};
ghost use Rattle.std.specs.List.{list_any};
ghost use Rattle.rules.specs.Records as Records;
ghost use Rattle.rules.specs.Records.{Cell, WellFormed, renamed, most_nodes};
ghost use Rattle.rules.specs.Slices.{entry};
ghost use Rattle.rules.specs.Checks.{answered, and_then};
ghost use Rattle.netlists.specs.Netlists.{flat_of};
ghost use Rattle.edit_rules.specs.Edits as Edits;
ghost use Rattle.edit_rules.specs.Edits.{judged_node, without_node};
ghost use Rattle.edit_parts.specs.Parts.{offered_of, IsLowestUser, moved_down};

use netlists::Netlist;
use records::Spot;
use rules::{Node, Reason, Refusal};

// ---- a new node

// The node that a record's bytes offer after so many variables and nodes. They are judged as the next record of a file
// in which it stands at the offset of its node number, so that number is the place of each refusal.
pub fn offered(bytes: &[u8], variables: usize, nodes: usize) -> Result<Node, Refusal>
    requires { nodes ≤ most_nodes }
    ensures { offered_of result ≡ and_then
        (judged_node (length bytes.now) variables nodes
        (get_or bytes.now 0 0) (drop 1 bytes.now))
        (λ cell. answered (entry cell)) }
{
    let own = records::bytes_at(bytes, 0);
    if 0 < bytes.len() && own.kind < 2 {
        return Err(Reason::UnknownKind.at(nodes));
    }
    let spot = Spot {
        total: nodes + bytes.len(),
        variables,
        nodes,
        here: nodes,
    };
    records::judge(spot, own)?;
    if read_bytes::size_of(own.kind) < bytes.len() {
        return Err(Reason::BytesAfterEnd.at(nodes));
    }
    Ok(read_bytes::entry_of(own))
}

// ---- a node removed

// Whether node `i` is one of these operands.
fn is_among(i: usize, operands: &[u8]) -> bool
    ensures { result ≡ list_any (λ a. a == i) operands.now }
{
    operands.iter().any(|a| *a as usize == i)
}

// Whether a node uses node `i`: that is one of its operands.
fn uses(node: Node, i: usize) -> bool
    ensures { (cell : Cell) → node ≡ entry cell → result ≡ Edits.uses i cell }
{
    let operands = netlists::operands_of(node);
    is_among(i, &operands.at[..operands.count])
}

// The lowest node that uses node `i`. A node's operands are lower, so that only those behind `i` are looked at.
pub fn lowest_user(block: Netlist, i: usize) -> Option<usize>
    requires { (i < block.count) × (block.count ≤ most_nodes) }
    ensures { (n : Records.Netlist) → WellFormed n → block ≡ flat_of n → IsLowestUser i n result }
{
    for j in i + 1..block.count {
        if uses(block.nodes[j], i) {
            return Some(j);
        }
    }
    None
}

// An operand follows where a lower node is removed.
fn lowered(operand: u8, removed: usize) -> u8
    ensures { result ≡ Edits.lowered removed operand }
{
    if removed < operand as usize {
        operand - 1
    } else {
        operand
    }
}

// A node record whose operands follow. Beyond those that the kind has stands 0, and stays.
fn renumbered(node: Node, removed: usize) -> Node
    ensures { (cell : Cell) → node ≡ entry cell → result ≡ entry (renamed (Edits.lowered removed) cell) }
{
    let mut operands = netlists::operands_of(node);
    for operand in operands.at.iter_mut() {
        *operand = lowered(*operand, removed);
    }
    netlists::node_of(node.kind, operands, node.set)
}

// The block without a node: higher nodes move down by one, and operands follow.
pub fn without_node(block: Netlist, removed: usize) -> Netlist
    requires { (removed < block.count) × (block.count ≤ most_nodes) }
    ensures fewer { (result.variables ≡ block.variables) × (result.count + 1 ≡ block.count) }
    ensures value { (n : Records.Netlist) → WellFormed n → block ≡ flat_of n → result ≡ flat_of (without_node n removed) }
{
    let last = block.count - 1;
    let mut shorter = block;
    for i in removed..last {
        shorter.nodes[i] = renumbered(shorter.nodes[i + 1], removed);
    }
    shorter.nodes[last] = netlists::blank_node();
    shorter.count = last;
    shorter
}

// The families behind a node's move down, over its own. The last 256 bytes keep what they held.
pub fn move_down(work: &mut [u8], removed: usize, count: usize)
    requires { (removed < count) × (count ≤ most_nodes) × (256 * count ≤ length work.old) }
    ensures { work.new ≡ moved_down removed count work.old }
{
    work.copy_within(256 * (removed + 1)..256 * count, 256 * removed);
}
