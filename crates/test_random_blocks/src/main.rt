// The checker with one probe and with two, and the queries, over random blocks: against a second checker, and against
// mask settings that are counted by force, at nodes, at pairs of nodes and round each gate. Prints counts of what was
// seen: every one is above 0 but `differences` and `contradictions`, which must be 0.
//
// It uses the functions that it tests, over slices that `test_trial` lends, and what the test crates expect of them.
#![tactic(auto)]

use test_generator::{Made, next};
use test_second_checker::{Second, work_out};
use test_tools::{Tally, print};

mod clusters;
mod compare;
mod counts;
mod printed;
mod products;
mod questions;
mod shapes;

// Tries so many random blocks, each of which `block` makes from the generator's state and the number of those before
// it, and `trial` tries: the check with one probe, or with two, against the second checker; mask settings counted at
// its nodes, at its pairs of nodes, or round its gates and registers. A trial gives the generator's state after it.
// Gives what was seen.
fn run<B, T>(second: &mut Second, blocks: usize, block: B, trial: T) -> Tally
where
    B: Fn(u32, usize) -> Made,
    T: Fn(&mut Tally, u32, &[u8], &Second) -> u32,
    requires block { B.IsAlwaysCallable block }
    requires trial { T.IsAlwaysCallable trial }
{
    let mut tally = [0; 64];
    let mut seed = 1;
    for turn in 0..blocks {
        let made = block(seed, turn);
        work_out(made.bytes(), second);
        seed = trial(&mut tally, next(made.seed), made.bytes(), second);
    }
    tally
}

// The last block of each count is a false alarm, which the families cannot know: a register that is always 0, the AND
// of a mask and its opposite, holds back a secret, or the first of its three shares.
fn main() {
    let mut second = Second::empty();
    let second = &mut second;
    print(b"against the second checker\n");
    printed::one_probe(run(second, 4000, shapes::one_probe, compare::one_probe));
    print(b"against counted mask settings\n");
    let mut nodes = run(second, 1500, shapes::for_nodes, counts::nodes);
    let alarm =
        b"\x01\x00\x01\x01\x02\x03\x00\x02\x02\x00\x03\x01\x05\x01\x02\x07\x03\x04\x00\x04\x00";
    work_out(alarm, second);
    counts::nodes(&mut nodes, 0, alarm, second);
    printed::nodes(nodes);
    print(b"against the second checker\n");
    printed::two_probes(run(second, 2000, shapes::two_probes, compare::two_probes));
    print(b"against counted mask settings\n");
    let mut pairs = run(second, 800, shapes::for_pairs, counts::pairs);
    let alarm =
        b"\x01\x00\x01\x01\x01\x01\x02\x02\x00\x02\x04\x00\x02\x07\x00\x03\x00\x05\x00\x03\x07\x04\x04\x05\x01\x07\x02\x00";
    work_out(alarm, second);
    counts::pairs(&mut pairs, 0, alarm, second);
    printed::pairs(pairs);
    printed::clusters(run(second, 1000, shapes::for_clusters, clusters::clusters));
}
