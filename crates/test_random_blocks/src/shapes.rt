// The random blocks of each trial.
use test_counting::NODES;
use test_generator::{Made, Mix, Shape, block, damaged, masked_or, next, pick, plain};

// The block of a shape, damaged or not; once in a while its sets may have one variable that is not declared.
fn made(shape: Shape) -> Made {
    let mut other = shape;
    other.labels = shape.variables % 16 + if pick(shape.seed, 16) == 0 { 1 } else { 0 };
    damaged(block(other))
}

// For one probe mostly small; some with ten variables or up to 200 nodes, some with one more than there may be, some
// without registers whose operands are close by, so that their families grow large, and some with one mask or none,
// whose families hold several suspect sets.
pub(crate) fn one_probe(seed: u32, turn: usize) -> Made {
    let second = next(seed);
    let third = next(second);
    let fourth = next(third);
    let mix = masked_or(Mix::Even, 3, third);
    let mut shape = plain(fourth, pick(seed, 7), pick(second, 25), mix);
    match turn % 50 {
        1 => {
            shape.variables = 10;
            shape.nodes = pick(second, 13);
        }
        2 => {
            shape.variables = pick(seed, 4);
            shape.nodes = 100 + pick(second, 101);
        }
        3 => {
            shape.variables = 11;
            shape.nodes = pick(second, 5);
        }
        4 => {
            shape.variables = 2;
            shape.nodes = 201;
        }
        5 => {
            shape.variables = 8 + pick(seed, 3);
            shape.nodes = 60 + pick(second, 60);
            shape.mix = Mix::Dense;
            shape.near = 4 + pick(third, 9);
        }
        6..=10 => {
            shape.variables = 4 + pick(seed, 7);
            shape.mix = Mix::Even;
            shape.near = 2;
            shape.open = shape.variables - pick(fourth, 2) % 2;
        }
        _ => {}
    }
    made(shape)
}

// For two probes mostly two to six variables and up to 40 nodes with many registers; some with ten variables, some with
// one variable or one node more than there may be, some long ones, in which hardly a node is an input, and some of
// gates over inputs with two or three masks among them, whose pairs hold several suspect sets.
pub(crate) fn two_probes(seed: u32, turn: usize) -> Made {
    let second = next(seed);
    let third = next(second);
    let fourth = next(third);
    let mix = masked_or(Mix::Registered, 2, third);
    let mut shape = plain(fourth, 2 + pick(seed, 5), 2 + pick(second, 39), mix);
    match turn % 50 {
        1 | 2 => shape.variables = 10,
        3 => {
            shape.variables = 11;
            shape.nodes = pick(second, 5);
        }
        4 => {
            shape.variables = 2;
            shape.nodes = 201;
        }
        5 => {
            shape.variables = 7 + pick(seed, 4);
            shape.nodes = 100 + pick(second, 101);
            shape.mix = Mix::Long;
        }
        6..=11 => {
            shape.variables = 6 + pick(seed, 5);
            shape.nodes = 6 + pick(second, 5);
            shape.mix = Mix::Gates;
            shape.near = 2;
            shape.open = shape.variables - 2 - pick(third, 2) % 2;
        }
        _ => {}
    }
    made(shape)
}

// The mixes of blocks that are counted, by turns.
fn mix_of(turn: usize) -> Mix {
    match turn % 4 {
        0 => Mix::Even,
        1 => Mix::Masked,
        2 => Mix::Dense,
        _ => Mix::Registered,
    }
}

// A block to be counted, of at most five variables and eleven nodes, and of no fewer than these.
fn small(seed: u32, variables: usize, nodes: usize, mix: Mix) -> Made {
    let second = next(seed);
    let fewest = variables % 6;
    let least = nodes % NODES;
    block(plain(
        next(second),
        fewest + pick(seed, 6 - fewest),
        least + pick(second, NODES - least),
        mix,
    ))
}

// Blocks whose mask settings are counted at their nodes.
pub(crate) fn for_nodes(seed: u32, _turn: usize) -> Made {
    small(seed, 1, 0, masked_or(Mix::Even, 4, next(next(seed))))
}

// The same at pairs of nodes.
pub(crate) fn for_pairs(seed: u32, _turn: usize) -> Made {
    small(seed, 2, 3, masked_or(Mix::Registered, 2, next(next(seed))))
}

// The same round gates and registers.
pub(crate) fn for_clusters(seed: u32, turn: usize) -> Made {
    small(seed, 2, 4, mix_of(turn))
}
