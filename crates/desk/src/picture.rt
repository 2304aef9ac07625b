// `picture`: the netlist as a graph in the dot language.
ghost use Rattle.std.specs.Prelude.{◌≤◌};
ghost use Rattle.derivation_rules.specs.Derivations.{most_steps};
ghost use Rattle.derivations.specs.Written.{Known};

use crate::node_words::say_kind;
use crate::say::{say, say_number, say_set};
use crate::steps::step_at;
use derivations::MOST_BYTES;
use marks::Marks;
use netlists::{Kind, Netlist};
use rules::{Answer, Half, MOST_NODES, MOST_WORK, Node, Refusal};

// By which operands of each node a derivation goes: a number with a bit for each operand, the lowest for the first.
type Path = [u8; MOST_NODES];

// ---- the path of a derivation

// The operands that a rule goes by. The rule is a number, as it stands in a step's bytes (request A5).
fn chosen_by(rule: u8) -> u8 {
    match rule {
        2 | 4 => 1,
        5 => 2,
        6 => 3,
        _ => 0,
    }
}

// The path of the first `count` steps. A number that is no node's adds nothing.
fn path_of(steps: &[u8; MOST_BYTES], count: usize) -> Path
    requires { count ≤ most_steps }
{
    let mut path = [0; MOST_NODES];
    for k in 0..count {
        let step = step_at(steps, k);
        if let Some(chosen) = path.get_mut(usize::from(step.node)) {
            *chosen |= chosen_by(step.rule);
        }
    }
    path
}

// The path of the derivation of the first glitch suspect, in a netlist whose families are in the work bytes;
// the empty one where no node is suspect.
fn suspect_path(netlist: Netlist, work: &[u8; MOST_WORK], glitch: Half) -> Result<Path, Refusal>
    requires { Known netlist work.now }
{
    let Half::Suspect(node, set) = glitch else {
        return Ok([0; MOST_NODES]);
    };
    let mut steps = [0u8; MOST_BYTES];
    let count = derivations::derive_held(netlist, work, node, 1, set, &mut steps)?;
    Ok(path_of(&steps, count))
}

// Says why there is no path where its derivation is refused, to whoever reads the graph's text.
fn say_no_path(refusal: Refusal) {
    say(b"    // no path: refused ");
    say_number(refusals::number_of(refusal));
    say(b" ");
    say_number(refusal.place);
    say(b"\n");
}

// ---- nodes and their operands

// Whether a node is of this kind.
fn is_of(node: Node, kind: Kind) -> bool {
    node.kind == kind.byte()
}

// A node's name in the graph.
fn say_name(i: usize) {
    say(b"n");
    say_number(i);
}

// What tells inputs, gates and registers apart.
fn say_shape(node: Node) {
    match Kind::try_from(node.kind) {
        Ok(Kind::Input) => say(b" [shape=box style=filled fillcolor=gray92"),
        Ok(Kind::Register) => say(b" [shape=box peripheries=2"),
        _ => say(b" [shape=ellipse"),
    }
}

// A mark, if there is one: its layer, and the set with its variables.
fn say_mark(netlist: Netlist, layer: &[u8], mark: u16) {
    if mark > 0 {
        say(layer);
        say_number(usize::from(mark));
        say(b": ");
        say_set(netlist.classes, usize::from(mark));
    }
}

// A node's line: what it is, an input's set, and its marks.
fn say_node_line(netlist: Netlist, i: usize, node: Node, settled: u16, glitch: u16) {
    say(b"    ");
    say_name(i);
    say_shape(node);
    say(b" label=\"");
    say_number(i);
    say(b" ");
    say_kind(node);
    if is_of(node, Kind::Input) {
        say(b"\\n");
        say_set(netlist.classes, usize::from(node.set));
    }
    say_mark(netlist, b"\\nsettled ", settled);
    say_mark(netlist, b"\\nglitch ", glitch);
    say(b"\"");
    if settled > 0 || glitch > 0 {
        say(b" color=red fontcolor=red penwidth=2");
    }
    say(b"]\n");
}

// The line of an operand: an edge, thick where the path goes by it.
fn say_operand(from: u8, i: usize, thick: bool) {
    say(b"    ");
    say_name(usize::from(from));
    say(b" -> ");
    say_name(i);
    if thick {
        say(b" [penwidth=3]");
    }
    say(b"\n");
}

// The lines of a node's operands, of which the path goes by the chosen ones.
fn say_operands(i: usize, node: Node, chosen: u8) {
    let operands = netlists::operands_of(node);
    for (j, operand) in operands.at[..operands.count].iter().enumerate() {
        say_operand(*operand, i, (chosen >> j) % 2 == 1);
    }
}

// The lines of all nodes, each with those of its operands.
fn say_nodes(netlist: Netlist, marks: Marks, path: Path) {
    for i in 0..netlist.count.min(MOST_NODES) {
        let node = netlist.nodes[i];
        say_node_line(netlist, i, node, marks.settled[i], marks.glitch[i]);
        say_operands(i, node, path[i]);
    }
}

// ---- ranks

// The most registers on any path into each node, itself included.
type Stages = [usize; MOST_NODES];

// The stage of a node, where these are the stages of the lower nodes; an operand that is no node's has stage 0.
fn stage_of(node: Node, stages: &Stages) -> usize {
    let operands = netlists::operands_of(node);
    let mut stage = 0;
    for operand in &operands.at[..operands.count] {
        if let Some(lower) = stages.get(usize::from(*operand)) {
            stage = stage.max(*lower);
        }
    }
    if is_of(node, Kind::Register) {
        stage.wrapping_add(1)
    } else {
        stage
    }
}

// The stage of each node.
fn stages_of(netlist: Netlist) -> Stages {
    let mut stages = [0; MOST_NODES];
    for (i, node) in netlist.nodes.iter().enumerate() {
        stages[i] = stage_of(*node, &stages);
    }
    stages
}

// Whether a node stands in the rank of this kind and stage: inputs in that of stage 0, a stage's registers in its own.
fn in_rank(netlist: Netlist, stages: &Stages, i: usize, kind: Kind, stage: usize) -> bool {
    i < netlist.count.min(MOST_NODES) && is_of(netlist.nodes[i], kind) && stages[i] == stage
}

// Whether any node stands in a rank.
fn any_in_rank(netlist: Netlist, stages: &Stages, kind: Kind, stage: usize) -> bool {
    (0..MOST_NODES).any(|i| in_rank(netlist, stages, i, kind, stage))
}

// The nodes of a rank, and its end.
fn say_rank(netlist: Netlist, stages: &Stages, kind: Kind, stage: usize) {
    for i in 0..MOST_NODES {
        if in_rank(netlist, stages, i, kind, stage) {
            say(b" ");
            say_name(i);
        }
    }
    say(b" }\n");
}

// A line for each stage that has registers.
fn say_register_ranks(netlist: Netlist, stages: &Stages) {
    for stage in 1..=MOST_NODES {
        if !any_in_rank(netlist, stages, Kind::Register, stage) {
            break;
        }
        say(b"    { rank=same");
        say_rank(netlist, stages, Kind::Register, stage);
    }
}

// The ranks: one of the inputs, and one of each stage's registers.
fn say_ranks(netlist: Netlist) {
    let stages = stages_of(netlist);
    if any_in_rank(netlist, &stages, Kind::Input, 0) {
        say(b"    { rank=source");
        say_rank(netlist, &stages, Kind::Input, 0);
    }
    say_register_ranks(netlist, &stages);
}

// ---- the graph

// Prints the graph of a netlist that got this answer and these marks, and whose families are in the work bytes.
pub fn picture(answer: Answer, netlist: Netlist, marks: Marks, work: &[u8; MOST_WORK])
    requires { Known netlist work.now }
{
    say(b"digraph block {\n    rankdir=LR\n");
    say(b"    node [fontname=\"Helvetica\" fontsize=12]\n    edge [arrowsize=0.7]\n");
    let path = suspect_path(netlist, work, answer.glitch);
    say_nodes(netlist, marks, path.unwrap_or([0; MOST_NODES]));
    if let Err(refusal) = path {
        say_no_path(refusal);
    }
    say_ranks(netlist);
    say(b"}\n");
}
