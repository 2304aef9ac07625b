// Counts mask settings by force over small random blocks. The number of those that give a pattern on some nodes must be
// the same for all settings of the secrets: over what feeds a tested node, where the checker's glitch half is clear,
// and over what feeds two of them together, where it finds no pair; where it names a node, or finds a pair, at every
// one before that one.
use pair_search::{Found, Search};
use pairs::PairsAnswer;
use rules::{Answer, Half, Refusal};
use test_counting::{NODES, Patterns, counts_differ};
use test_second_checker::{Kind, Second};
use test_tools::{Tally, count, count_if};

// ---- nodes. Values and feeding points are those of the queries, classes and kinds those that the second checker
// reads.

// The patterns of a node's feeding points. An assignment that the block does not have is refused, and gives 0.
fn patterns_of(bytes: &[u8], node: usize) -> Patterns {
    let points = queries::feeding_points(bytes, node);
    let mut patterns = [0; 32];
    for (x, pattern) in patterns.iter_mut().enumerate() {
        for j in 0..NODES {
            if points.marks[j] && queries::settled_value(bytes, j, x).value {
                *pattern |= 1usize << j;
            }
        }
    }
    patterns
}

// The lowest node that the glitch half names, unless it is clear.
fn suspect_node(bytes: &[u8]) -> Result<Option<usize>, Refusal> {
    let mut work = [0u8; 51200];
    match checker::examine(bytes, 200, &mut work)?.answer.glitch {
        Half::Clear => Ok(None),
        Half::Suspect(node, _) => Ok(Some(node)),
    }
}

// Counts the tested nodes of a block, in the order of the names that are printed: first those of clear blocks, then
// those of suspect ones. A refusal, which no block here is to get, counts as a contradiction.
pub(crate) fn nodes(tally: &mut Tally, seed: u32, bytes: &[u8], second: &Second) -> u32 {
    let block = &second.block;
    let suspect = suspect_node(bytes);
    let is_suspect = matches!(suspect, Ok(Some(_)));
    let row = if is_suspect { 2 } else { 0 };
    let mut lowest: Option<usize> = None;
    for (i, node) in block.nodes().iter().enumerate() {
        if node.kind != Kind::Input {
            let differs = counts_differ(&patterns_of(bytes, i), block.secrets(), block.masks());
            count(tally, row + 1, 1);
            count_if(tally, 4, differs);
            if differs && lowest.is_none() {
                lowest = Some(i);
            }
        }
    }
    let contradicts = match suspect {
        Err(_) => true,
        Ok(None) => lowest.is_some(),
        Ok(Some(named)) => lowest.is_some_and(|node| node < named),
    };
    count(tally, row, 1);
    count_if(tally, 5, is_suspect && lowest.is_none());
    count_if(tally, 6, contradicts);
    seed
}

// ---- pairs of nodes. Values, feeding points, classes and kinds are those of the second checker.

// The search of a block over all its pairs.
fn search_of(bytes: &[u8]) -> Result<Search, Refusal> {
    let mut work = [0u8; 51200];
    Ok(pairs::examine_pairs(bytes, 200, &mut work, 100)?.search)
}

// Counts the pairs of tested nodes of a block, in the order of the names that are printed. A refusal or a spent limit,
// which no block here is to get, counts as a contradiction.
pub(crate) fn pairs(tally: &mut Tally, seed: u32, bytes: &[u8], second: &Second) -> u32 {
    let counted = test_counting::count_pairs(second);
    let lowest = counted.lowest;
    let Ok(search) = search_of(bytes) else {
        count(tally, 7, 1);
        return seed;
    };
    match search.found {
        Found::Single(_, _) => count(tally, 6, 1),
        Found::NoPair => {
            count(tally, 0, 1);
            count(tally, 1, counted.pairs);
            count_if(tally, 7, lowest.is_some());
        }
        Found::Pair(_, _, _) => {
            count(tally, 2, 1);
            count_if(tally, 3, lowest == Some(search.looked));
            count_if(tally, 4, lowest.is_some());
            count_if(tally, 5, lowest.is_none());
            count_if(
                tally,
                7,
                lowest.is_some_and(|position| position < search.looked),
            );
        }
        Found::Spent => count(tally, 7, 1),
    }
    seed
}
