// Settled values and feeding points of the nodes of a netlist by value, for whatever asks for them by node. Takes a
// netlist by value and touches no lent slice. Used by `queries`.
#![tactic(auto)]

ghost use Rattle.std.specs.Prelude.{◌≡◌, false, ℕ, ◌<◌, ◌≤◌, length, get_or, take};
ghost use Rattle.rules.specs.Lists.{member, tabulate};
ghost use Rattle.rules.specs.Records as Records;
ghost use Rattle.rules.specs.Records.{Cell, bits, most_nodes, most_body};
ghost use Rattle.rules.specs.Values.{exclusive_or, value_rule, values, is_point, feeding};
ghost use Rattle.rules.specs.Slices.{entry};
ghost use Rattle.netlists.specs.Netlists.{padded, flat_of, Formed, Placed};
ghost use Rattle.node_values.specs.Marks.{mark_all, handed_on};

use netlists::{Kind, Netlist, Operands};
use rules::{MOST_NODES, Node};

// ---- settled values

// The exclusive-or of the values that an assignment gives the variables of a set, of which the first `variables` count.
fn exclusive_or(variables: usize, set: usize, assignment: usize) -> bool
    ensures { result ≡ exclusive_or set (bits variables assignment) }
{
    let mut s = set;
    let mut x = assignment;
    let mut sum = false;
    for v in 0..variables {
        sum ^= s % 2 == 1 && x % 2 == 1;
        s /= 2;
        x /= 2;
    }
    sum
}

// The settled value of a node under an assignment, from those of the lower nodes. A kind that is no node's is taken as
// a register's.
fn value_from(values: &[bool], node: Node, variables: usize, assignment: usize) -> bool
    requires { (node.first < length values.now) × (node.second < length values.now) }
    ensures { (cell : Cell) → node ≡ entry cell →
        result ≡ value_rule (bits variables assignment) values.now cell }
{
    let first = values[node.first as usize];
    let second = values[node.second as usize];
    let Ok(kind) = Kind::try_from(node.kind) else {
        return first;
    };
    match kind {
        Kind::Input => exclusive_or(variables, node.set as usize, assignment),
        Kind::Not => !first,
        Kind::Xor => first ^ second,
        Kind::And => first && second,
        Kind::Or => first || second,
        Kind::Register | Kind::End | Kind::Variable => first,
    }
}

// The settled values of all nodes under an assignment, in file order; beyond them all are 0.
pub fn settled_values(netlist: Netlist, assignment: usize) -> [bool; MOST_NODES]
    requires { Formed netlist }
    ensures { (n : Records.Netlist) → netlist ≡ flat_of n →
        result ≡ padded most_nodes false (values n (bits (length n.variables) assignment)) }
{
    let mut values = [false; MOST_NODES];
    for i in 0..netlist.count {
        values[i] = value_from(&values, netlist.nodes[i], netlist.variables, assignment);
    }
    values
}

// ---- feeding points

// The marks with those of some operands.
fn mark_all(marks: [bool; MOST_NODES], operands: Operands) -> [bool; MOST_NODES]
    requires { (operands.count ≤ most_body) × ((j : ℕ) → get_or operands.at j 0 < most_nodes) }
    ensures { result ≡ mark_all (take operands.count operands.at) marks }
{
    let mut marked = marks;
    for operand in &operands.at[..operands.count] {
        marked[*operand as usize] = true;
    }
    marked
}

// Whether a node is an input or a register.
fn is_point(node: Node) -> bool
    ensures { (cell : Cell) → node ≡ entry cell → result ≡ is_point cell }
{
    let Ok(kind) = Kind::try_from(node.kind) else {
        return false;
    };
    matches!(kind, Kind::Input | Kind::Register)
}

// The marks once node `i`, where it is a gate and marked, has handed its mark on to its operands.
fn hand_on(marks: [bool; MOST_NODES], i: usize, node: Node) -> [bool; MOST_NODES]
    requires { (i < most_nodes) × Placed most_nodes node }
    ensures { (cell : Cell) → node ≡ entry cell → result ≡ handed_on marks i cell }
{
    if !marks[i] || is_point(node) {
        return marks;
    }
    let mut handed = marks;
    handed[i] = false;
    mark_all(handed, netlists::operands_of(node))
}

// Marks the feeding points of a node. The node is marked; from it down, each marked gate hands its mark on to its
// operands, until inputs and registers alone are marked.
pub fn feeding_marks(netlist: Netlist, node: usize) -> [bool; MOST_NODES]
    requires { Formed netlist × (node < netlist.count) }
    ensures { (n : Records.Netlist) → netlist ≡ flat_of n →
        result ≡ tabulate (λ i. member i (feeding n node)) most_nodes }
{
    let mut marks = [false; MOST_NODES];
    marks[node] = true;
    for i in (0..node + 1).rev() {
        marks = hand_on(marks, i, netlist.nodes[i]);
    }
    marks
}
