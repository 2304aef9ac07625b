// Nodes of a netlist, in words.
ghost use Rattle.std.specs.Prelude.{◌≡◌, ◌<◌, ◌≤◌, slice_index_or};
ghost use Rattle.rules.specs.Records.{most_nodes};
ghost use Rattle.netlists.specs.Netlists.{blank};

use crate::say::{say, say_field};
use netlists::Netlist;
use rules::{MOST_NODES, Node};

// Node `i` of a netlist by value; the blank one beyond the nodes that there may be.
pub fn node_of(netlist: Netlist, i: usize) -> Node
    ensures { (i < most_nodes → result ≡ slice_index_or netlist.nodes i blank) × (most_nodes ≤ i → result ≡ blank) }
{
    if i < MOST_NODES {
        netlist.nodes[i]
    } else {
        netlists::blank_node()
    }
}

// The name of a node's kind.
pub fn say_kind(node: Node) {
    say(listing_lines::name_of(node.kind));
}

// Prints a node in words: its kind and its operands.
pub fn say_node(node: Node) {
    say_kind(node);
    let operands = netlists::operands_of(node);
    for operand in &operands.at[..operands.count] {
        say_field(usize::from(*operand));
    }
}
