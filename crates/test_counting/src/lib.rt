// Mask settings counted by force, over blocks of few variables and nodes: whether the number of those that give a
// pattern on some nodes differs between settings of the secrets. It uses the second checker's values and feeding
// points, and nothing of the product. For the test programs `test_random_blocks` and `test_random_edits`.
#![tactic(auto)]

use test_second_checker::{Second, position_of};

// A block that is counted has fewer nodes than this, and at most 32 assignments.
pub const NODES: usize = 12;

// A pattern of nodes for each assignment: bit k is the value of node k.
pub type Patterns = [usize; 32];

// The nodes that feed those of a cluster, where a set of nodes has bit k for node k.
pub fn feeding_of(second: &Second, cluster: usize) -> usize {
    let mut points = 0;
    for i in 0..NODES {
        for k in 0..NODES {
            if (cluster >> i) % 2 == 1 && second.feeds(k, i) {
                points |= 1usize << k;
            }
        }
    }
    points
}

// The patterns of some nodes, in which the others have no bit.
fn patterns_of(second: &Second, nodes: usize) -> Patterns {
    let mut patterns = [0; 32];
    for (x, pattern) in patterns.iter_mut().enumerate() {
        for node in 0..NODES {
            if (nodes >> node) % 2 == 1 && second.value(node, x) {
                *pattern |= 1usize << node;
            }
        }
    }
    patterns
}

// How many mask settings give a pattern, where the variables that are no masks are `fixed`.
fn settings(patterns: &Patterns, pattern: usize, masks: usize, fixed: usize) -> usize {
    patterns
        .iter()
        .enumerate()
        .filter(|(y, given)| **given == pattern && *y & (31 ^ masks) == fixed)
        .count()
}

// Whether there are a pattern, a setting of the publics and two settings of the secrets for which the counts differ:
// one of the secrets is that all are 0. Any assignment gives a pattern and a setting; what the counts of all patterns
// come to is the same for any setting, so where no such count differs, no pattern is left that only the secrets 0 give.
pub fn counts_differ(patterns: &Patterns, secrets: usize, masks: usize) -> bool {
    patterns.iter().enumerate().any(|(x, pattern)| {
        settings(patterns, *pattern, masks, x & (31 ^ masks))
            != settings(patterns, *pattern, masks, x & (31 ^ (masks | secrets)))
    })
}

// Whether the counts over some nodes differ.
pub fn differ(second: &Second, nodes: usize) -> bool {
    let block = &second.block;
    counts_differ(&patterns_of(second, nodes), block.secrets(), block.masks())
}

// How many pairs of tested nodes there are, those of a node with itself among them; and the lowest position of one
// whose counts differ. Of a node with itself it is 0.
#[derive(Clone, Copy)]
pub struct Counted {
    pub pairs: usize,
    pub lowest: Option<usize>,
}

// The pairs of tested nodes of a block, each counted over what feeds the two.
pub fn count_pairs(second: &Second) -> Counted {
    let tested = second.block.tested();
    let nodes = tested.nodes();
    let many = nodes.len().min(NODES);
    let mut lowest: Option<usize> = None;
    for b in 0..many {
        for a in 0..=b {
            let both = 1usize << (nodes[a] % NODES) | 1usize << (nodes[b] % NODES);
            if differ(second, feeding_of(second, both)) {
                let position = if a < b { position_of(a, b) } else { 0 };
                lowest = Some(lowest.map_or(position, |other| other.min(position)));
            }
        }
    }
    Counted {
        pairs: many * (many + 1) / 2,
        lowest,
    }
}
