// Many probes round one gate, over small random blocks: mask settings counted by force. Round each gate and register
// whose glitch family, as the checker writes it, holds no suspect set, the number of mask settings that give a pattern
// must be the same for all settings of the secrets, over what feeds a random cluster of nodes and over its own wires.
// Round a suspect one, where a cluster differs so must what feeds the gate; and where wires differ, so must what feeds
// them. Values, feeding points, classes and kinds are those of the second checker.
use test_counting::{NODES, differ, feeding_of};
use test_expected::Work;
use test_generator::{next, pick};
use test_second_checker::{Kind, Second, SecondBlock};
use test_tools::{Tally, count, count_if};

// How many clusters are tried round each gate or register; as many are of any nodes, which mostly lie beyond it.
const TRIES: usize = 4;

// Gates and registers that are clear, and behind them those that are suspect.
const CENTRES: usize = 1;

// Clusters round what is clear, of two nodes, of three and of more; of those the ones with a gate, with a register and
// with an input.
const SIZES: usize = 3;

const KINDS: usize = 6;

// Clusters round what is suspect, those of them that differ over what feeds them, and over their own wires; behind them
// the same of clusters beyond what is clear.
const OTHERS: usize = 9;

// Gates and registers of which only one of the two checkers says that they are clear.
const DIFFERENCES: usize = 15;

const CONTRADICTIONS: usize = 16;

// All nodes, as a set of nodes.
const ALL: usize = 4095;

// A gate or register that clusters are tried round. In a set of nodes, bit k is that of node k: `points` feed it, and
// `within` are those that no other point feeds. `differs` is whether its own counts do.
#[derive(Clone, Copy)]
struct Centre {
    clear: bool,
    points: usize,
    within: usize,
    differs: bool,
}

// Whether the glitch family of a node holds a suspect set in the work bytes that the checker wrote.
fn is_suspect(work: &Work, node: usize, block: &SecondBlock) -> bool {
    let from = node % 200 * 256 + 128;
    (0..32).any(|set: usize| {
        (work[from + set / 8 % 128] >> (set % 8)) % 2 == 1 && block.is_suspect(set)
    })
}

// The nodes that no point feeds but these.
fn nodes_within(second: &Second, points: usize) -> usize {
    let mut within = 0;
    for k in 0..second.block.count().min(NODES) {
        if feeding_of(second, 1usize << k) & (ALL ^ points) == 0 {
            within |= 1usize << k;
        }
    }
    within
}

// Whether a cluster has a node of such a kind.
fn has_kind<F: Fn(Kind) -> bool>(block: &SecondBlock, cluster: usize, is_such: F) -> bool
    requires { F.IsAlwaysCallable is_such }
{
    block.nodes().iter().enumerate().any(|(k, node)| k < NODES
        && (cluster >> (k % NODES)) % 2 == 1
        && is_such(node.kind))
}

// Counts a cluster of so many nodes round what is clear.
fn count_kinds(tally: &mut Tally, block: &SecondBlock, nodes: usize, cluster: usize) {
    count(tally, SIZES + nodes.min(4).saturating_sub(2), 1);
    count_if(
        tally,
        KINDS,
        has_kind(block, cluster, |kind| kind.is_gate() || kind == Kind::Not),
    );
    count_if(
        tally,
        KINDS + 1,
        has_kind(block, cluster, |kind| kind == Kind::Register),
    );
    count_if(
        tally,
        KINDS + 2,
        has_kind(block, cluster, |kind| kind == Kind::Input),
    );
}

// Counts another cluster, beyond what is clear or round what is suspect, by whether the counts of what feeds it and of
// its own wires differ.
fn count_other(tally: &mut Tally, round: bool, fed: bool, own: bool) {
    let row = if round { OTHERS } else { OTHERS + 3 };
    count(tally, row, 1);
    count_if(tally, row + 1, fed);
    count_if(tally, row + 2, own);
}

// Counts the mask settings of a cluster of two nodes or more, over what feeds it and over its own wires.
fn try_cluster(tally: &mut Tally, second: &Second, centre: Centre, cluster: usize) {
    let nodes = (cluster & ALL).count_ones() as usize;
    if nodes < 2 {
        return;
    }
    let points = feeding_of(second, cluster);
    let round = points & (ALL ^ centre.points) == 0;
    let fed = differ(second, points);
    let own = differ(second, cluster);
    let wrong = (own && !fed) || (round && fed && (centre.clear || !centre.differs));
    count_if(tally, CONTRADICTIONS, wrong);
    if round != centre.clear {
        count_other(tally, round, fed, own);
    } else if round {
        count_kinds(tally, &second.block, nodes, cluster);
    }
}

// Tries clusters round a gate or register, and clusters of any nodes of the block. Gives the generator's state after
// them.
fn try_centre(tally: &mut Tally, seed: u32, second: &Second, centre: Centre) -> u32 {
    let mut state = seed;
    for _ in 0..TRIES {
        let other = next(state);
        let within = pick(state, 4096) & centre.within;
        let any = pick(other, 1usize << (second.block.count() % 16));
        try_cluster(tally, second, centre, within);
        try_cluster(tally, second, centre, any);
        state = next(other);
    }
    state
}

// Tries clusters round a node that is a gate or a register; the checker wrote these work bytes. Gives the generator's
// state after them.
fn try_node(tally: &mut Tally, seed: u32, second: &Second, work: &Work, node: usize) -> u32 {
    let suspect = is_suspect(work, node, &second.block);
    let points = feeding_of(second, 1usize << (node % NODES));
    let centre = Centre {
        clear: !suspect,
        points,
        within: nodes_within(second, points),
        differs: differ(second, points),
    };
    count(tally, if suspect { CENTRES + 1 } else { CENTRES }, 1);
    count_if(
        tally,
        DIFFERENCES,
        suspect != second.suspects(1, node).is_some(),
    );
    try_centre(tally, seed, second, centre)
}

// Tries clusters round all gates and registers of a block. Gives the generator's state after them.
pub(crate) fn clusters(tally: &mut Tally, seed: u32, bytes: &[u8], second: &Second) -> u32 {
    let mut work = [0u8; 51200];
    let _ = checker::examine(bytes, 200, &mut work);
    count(tally, 0, 1);
    let mut state = seed;
    for (i, node) in second.block.nodes().iter().enumerate() {
        if node.kind != Kind::Input {
            state = try_node(tally, state, second, &work, i);
        }
    }
    state
}
