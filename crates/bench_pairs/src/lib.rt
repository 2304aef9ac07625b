// The search over pairs for the benchmark: the reply of `examine_pairs`, in one number. Works in bytes of its own and
// writes to no lent slice. Called by the benchmark's Rust program (`bench/src`); no crate uses it.
#![tactic(auto)]

ghost use Rattle.std.specs.Prelude.{◌≡◌};
ghost use Rattle.rules.specs.Records.{most_nodes};
ghost use Rattle.rules.specs.Checks.{most_work};
ghost use Rattle.pair_search.specs.Pairs.{pairs_reply};
ghost use Rattle.bench_pairs.specs.Packed.{packed, packed_reply};

use pair_search::Found;
use rules::{MOST_NODES, MOST_WORK};

// The count of pairs, the case and three numbers of it in one number: 16, 4 and thrice 12 bits, the count highest.
fn packed(looked: usize, case: usize, first: usize, second: usize, third: usize) -> usize
    ensures { result ≡ packed looked case first second third }
{
    (((looked % 65536 * 16 + case % 16) * 4096 + first % 4096) * 4096 + second % 4096) * 4096
        + third % 4096
}

// Checks a block with two probes, and packs the reply. Case 0 is a refusal, with number and place; 1 a single suspect,
// with node and set; 2 no pair; 3 a pair, with both nodes and the set; 4 a limit that is spent.
#[unsafe(no_mangle)]
pub extern "C" fn telgouin_pairs(bytes: &[u8], limit: usize) -> usize
    ensures { result ≡ packed_reply (pairs_reply bytes.now most_nodes most_work limit) }
{
    let mut work = [0u8; MOST_WORK];
    match pairs::examine_pairs(bytes, MOST_NODES, &mut work, limit) {
        Err(refusal) => packed(0, 0, refusals::number_of(refusal), refusal.place, 0),
        Ok(both) => {
            let looked = both.search.looked;
            match both.search.found {
                Found::Single(node, set) => packed(looked, 1, node, set, 0),
                Found::NoPair => packed(looked, 2, 0, 0, 0),
                Found::Pair(i, j, set) => packed(looked, 3, i, j, set),
                Found::Spent => packed(looked, 4, 0, 0, 0),
            }
        }
    }
}
