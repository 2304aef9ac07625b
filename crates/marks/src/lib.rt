// Marks by value: in each layer the set that a node reports, or 0 for none. Those of a netlist, of one with a node
// more at the end and of one with a node removed; and a half of the answer, which is read from a layer's marks.
// Reads the work bytes and writes to no lent slice. Used by `checker`, `pairs`, the edits and the desk.
#![tactic(auto)]

ghost use Rattle.std.specs.Prelude.{◌≡◌, List, [], map, ℕ, ◌-◌, ◌<◌, ◌≤◌, length, get_or, take};
ghost use Rattle.std.proofs.Math.Option.{Option, none};
ghost use Rattle.rules.specs.Lists.{without};
ghost use Rattle.rules.specs.Records as Records;
ghost use Rattle.rules.specs.Records.{most_nodes};
ghost use Rattle.rules.specs.Families.{lowest};
ghost use Rattle.rules.specs.Slices.{mark_number, mark_of};
ghost use Rattle.rules.specs.Paper.{finding_of};
ghost use Rattle.netlists.specs.Netlists.{flat_of, Sized};
ghost use Rattle.families.specs.Layers.{number_of};
ghost use Rattle.suspects.specs.Suspects.{reports_in};
ghost use Rattle.marks.specs.Marks.{flat_marks, marks_in, with_marks};

use families::Layer;
use netlists::Netlist;
use rules::{Half, MOST_NODES};

// The marks of both layers, by node number. Beyond the nodes all are 0.
// 0 is none, and no Option: these are the marks that `rules::NodeRecord` holds (`mark_number`). A set is below 1,024, so
// that it is one by `as`; a `try_from` would have an error that cannot come.
#[derive(Clone, Copy)]
pub struct Marks {
    pub settled: [u16; MOST_NODES],
    pub glitch: [u16; MOST_NODES],
}

// The marks of no node: all are 0.
pub fn no_marks() -> Marks
    ensures { result ≡ marks_in [] [] }
{
    Marks {
        settled: [0u16; MOST_NODES],
        glitch: [0u16; MOST_NODES],
    }
}

// ---- all nodes, and the last one

// The marks of all nodes in one layer, whose families the work bytes hold.
// A scan finds the lowest suspect node, and goes on behind it.
fn layer_marks(netlist: Netlist, layer: Layer, work: &[u8]) -> [u16; MOST_NODES]
    requires { Sized netlist (length work.now) }
    ensures { (n : Records.Netlist) → netlist ≡ flat_of n →
        result ≡ flat_marks (reports_in n (number_of layer) work.now) }
{
    let mut marks = [0u16; MOST_NODES];
    let mut from = 0;
    while let Half::Suspect(node, set) = suspects::scan(netlist, layer, from, work) {
        marks[node] = set as u16;
        from = node + 1;
    }
    marks
}

// The marks of all nodes in both layers, from their families, which the work bytes hold.
pub fn all_marks(netlist: Netlist, work: &[u8]) -> Marks
    requires { Sized netlist (length work.now) }
    ensures { (n : Records.Netlist) → netlist ≡ flat_of n →
        result ≡ marks_in (reports_in n 0 work.now) (reports_in n 1 work.now) }
{
    Marks {
        settled: layer_marks(netlist, Layer::Settled, work),
        glitch: layer_marks(netlist, Layer::Glitch, work),
    }
}

// The mark of the last node in one layer. No other node is scanned.
fn last_mark(netlist: Netlist, layer: Layer, work: &[u8]) -> u16
    requires { Sized netlist (length work.now) × (0 < netlist.count) }
    ensures { (n : Records.Netlist) → netlist ≡ flat_of n →
        result ≡ mark_number (get_or (reports_in n (number_of layer) work.now) (netlist.count - 1) none) }
{
    let last = netlist.count - 1;
    if !suspect_sets::is_tested(netlist.nodes[last].kind) {
        return 0;
    }
    let classes = suspect_sets::classes_of(netlist);
    match suspect_sets::first_suspect(work, layer.part(last), classes) {
        Some(set) => set as u16,
        None => 0,
    }
}

// The marks with those of the last node of a netlist, whose other nodes have the given ones.
// Its families are in the work bytes, and no other node is scanned.
pub fn with_last(netlist: Netlist, marks: Marks, work: &[u8]) -> Marks
    requires { Sized netlist (length work.now) × (0 < netlist.count) }
    ensures { (n : Records.Netlist) → netlist ≡ flat_of n →
        result ≡ with_marks marks (netlist.count - 1)
        (get_or (reports_in n 0 work.now) (netlist.count - 1) none)
        (get_or (reports_in n 1 work.now) (netlist.count - 1) none) }
{
    let last = netlist.count - 1;
    let mut longer = marks;
    longer.settled[last] = last_mark(netlist, Layer::Settled, work);
    longer.glitch[last] = last_mark(netlist, Layer::Glitch, work);
    longer
}

// ---- a node removed

// The marks of one layer of `count` nodes without that of node `removed`: those behind it move down by one,
// and the last entry is 0.
fn without_mark(marks: [u16; MOST_NODES], removed: usize, count: usize) -> [u16; MOST_NODES]
    requires { (removed < count) × (count ≤ most_nodes) }
    ensures { (reports : List (Option ℕ)) → length reports ≡ count → marks ≡ flat_marks reports →
        result ≡ flat_marks (without removed reports) }
{
    let mut fewer = marks;
    fewer.copy_within(removed + 1..count, removed);
    fewer[count - 1] = 0;
    fewer
}

// The marks of both layers of `count` nodes without those of node `removed`: those behind it move down by one.
pub fn without_marks(marks: Marks, removed: usize, count: usize) -> Marks
    requires { (removed < count) × (count ≤ most_nodes) }
    ensures { (settled glitch : List (Option ℕ)) → length settled ≡ count → length glitch ≡ count →
        marks ≡ marks_in settled glitch →
        result ≡ marks_in (without removed settled) (without removed glitch) }
{
    Marks {
        settled: without_mark(marks.settled, removed, count),
        glitch: without_mark(marks.glitch, removed, count),
    }
}

// ---- the answer

// One half of the answer, from the marks of the first `count` nodes in its layer: the lowest marked
// node with its mark, or clear.
pub fn lowest_marked(marks: [u16; MOST_NODES], count: usize) -> Half
    requires { count ≤ most_nodes }
    ensures { finding_of result ≡ lowest 0 (map mark_of (take count marks)) }
{
    for (i, mark) in marks[..count].iter().enumerate() {
        if *mark != 0 {
            return Half::Suspect(i, usize::from(*mark));
        }
    }
    Half::Clear
}
