// A netlist written out as bytes: the records of its variables, those of its nodes, and the end. What is written,
// read again, is the netlist (`write_read` of `rule_laws/proofs/Written`). Of an open block, after any run of edits,
// a check of it gives what both slices hold, and answers as the last edit that was made (`any_run` and `last_reply` of
// `edits/proofs/Runs`). It touches nothing but the array that it is lent; the program and `write_words` use it.
#![tactic(auto)]

ghost use Rattle.std.specs.Prelude.{◌≡◌, List, ◌++◌, ℕ, ◌+◌, ◌*◌, ◌≤◌, length, drop, Some};
ghost use Rattle.rules.specs.Records as Records;
ghost use Rattle.rules.specs.Records.{Cell, WellFormed, record_bytes, variables_out, nodes_out, written_out};
ghost use Rattle.rules.specs.Records.{most_variables, most_nodes, most_record, most_bytes};
ghost use Rattle.rules.specs.Slices.{entry};
ghost use Rattle.listing_lines.specs.Text.{Appended};
ghost use Rattle.netlists.specs.Netlists.{flat_of};
ghost use Rattle.edit_rules.specs.Meaning.{IsOpen};

use edit_rules::State;
use listing_lines::{put_byte, put_word};
use netlists::{Kind, Netlist};
use rules::{MOST_BODY, MOST_NODES, MOST_VARIABLES, Node, NodeRecord};

// At most 10 variable records of two bytes, 200 node records, each a kind byte and a body, and the end.
pub const MOST_WRITTEN: usize = 2 * MOST_VARIABLES + (1 + MOST_BODY) * MOST_NODES + 1;

// ---- one record

// A node's record: its kind, and an input's set in two bytes, low first; else its operands.
fn put_node(out: &mut [u8], at: usize, node: Node) -> usize
    requires { at + most_record ≤ length out.old }
    ensures appended { (cell : Cell) → node ≡ entry cell →
        Appended out.old out.new at result (record_bytes (Records.node cell)) }
    ensures few { result ≤ at + most_record }
{
    let end = put_byte(out, at, node.kind);
    if node.kind == Kind::Input.byte() {
        return put_word(out, end, &node.set.to_le_bytes());
    }
    let operands = netlists::operands_of(node);
    put_word(out, end, &operands.at[..operands.count])
}

// ---- all records

// The records of the variables, at the front.
// One function of a closure for this loop and the next would need the closure's contract, and so is no plainer.
fn put_variables(out: &mut [u8], netlist: Netlist) -> usize
    requires { (most_bytes ≤ length out.old) × (netlist.variables ≤ most_variables) }
    ensures appended { (n : Records.Netlist) → netlist ≡ flat_of n →
        Appended out.old out.new 0 result (variables_out n.variables) }
    ensures few { result ≤ 2 * most_variables }
{
    let mut at = 0;
    for class in &netlist.classes[..netlist.variables] {
        at = put_word(out, at, &[1, *class]);
    }
    at
}

// The records of the nodes, behind those.
fn put_nodes(out: &mut [u8], at: usize, netlist: Netlist) -> usize
    requires { (most_bytes ≤ length out.old) × (at ≤ 2 * most_variables) × (netlist.count ≤ most_nodes) }
    ensures appended { (n : Records.Netlist) → netlist ≡ flat_of n →
        Appended out.old out.new at result (nodes_out n.nodes) }
    ensures few { result ≤ at + most_record * most_nodes }
{
    let mut next = at;
    for node in &netlist.nodes[..netlist.count] {
        next = put_node(out, next, *node);
    }
    next
}

// ---- the block

// The netlist of an open block, of its state and node records; none of more nodes than there may be.
pub fn netlist_of(state: State, nodes: [NodeRecord; MOST_NODES]) -> Option<Netlist>
    ensures { (n : Records.Netlist) (work : List ℕ) → IsOpen n state nodes work → result ≡ Some (flat_of n) }
{
    if state.count > MOST_NODES {
        return None;
    }
    Some(edits::loaded_of(state, nodes, state.count).block)
}

// Writes the bytes of a netlist to the front of `out`, and answers how many they are; beyond them `out` is as it was.
// Of a value that is no netlist's, the bytes are left open: the call returns, and answers no more than `out` has.
pub fn write_netlist(netlist: Netlist, out: &mut [u8; MOST_WRITTEN]) -> usize
    ensures long { (n : Records.Netlist) → WellFormed n → netlist ≡ flat_of n → result ≡ length (written_out n) }
    ensures bytes { (n : Records.Netlist) → WellFormed n → netlist ≡ flat_of n →
        out.new ≡ written_out n ++ drop result out.old }
    ensures most { result ≤ most_bytes }
{
    if netlist.variables > MOST_VARIABLES || netlist.count > MOST_NODES {
        return 0;
    }
    let first = put_variables(out, netlist);
    let end = put_nodes(out, first, netlist);
    put_byte(out, end, 0)
}

// The same for an open block, of its state and node records. Of a state and node records that are no open block's, the
// bytes are left open: the call returns, and answers no more than `out` has.
pub fn write_out(
    state: State,
    nodes: [NodeRecord; MOST_NODES],
    out: &mut [u8; MOST_WRITTEN],
) -> usize
    ensures long { (n : Records.Netlist) (work : List ℕ) → IsOpen n state nodes work → result ≡
        length (written_out n) }
    ensures bytes { (n : Records.Netlist) (work : List ℕ) → IsOpen n state nodes work →
        out.new ≡ written_out n ++ drop result out.old }
    ensures most { result ≤ most_bytes }
{
    match netlist_of(state, nodes) {
        Some(netlist) => write_netlist(netlist, out),
        None => 0,
    }
}
