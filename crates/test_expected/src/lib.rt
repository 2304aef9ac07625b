// What a check of a block is to give, as the second checker sees it: the refusal or the answer, the node records with
// their marks, the families in the work bytes, and what a search over pairs finds; and how long the lent slices are,
// and the limit on pairs. It uses the record types and the refusals' numbers, and no part of the checker. For the test
// programs `test_random_blocks` and `test_random_edits`.
#![tactic(auto)]

use rules::{Answer, Half, NodeRecord, Refusal};
use test_generator::{next, pick};
use test_second_checker::{Fault, List, Pair, Second, SecondBlock};
use test_tools::same_record;

pub mod written;

// The work bytes, of which a check is lent the front.
pub type Work = [u8; 51200];

// How many entries and work bytes are lent.
#[derive(Clone, Copy)]
pub struct Lent {
    pub entries: usize,
    pub work: usize,
}

// Just as many entries and work bytes as a block of so many nodes needs, or some more, or too few.
pub fn lengths_for(seed: u32, nodes: usize) -> Lent {
    let second = next(seed);
    let third = next(second);
    let needed = nodes.saturating_mul(256);
    match pick(seed, 8) {
        0 => Lent {
            entries: pick(second, nodes),
            work: pick(third, needed.saturating_add(1)),
        },
        1 => Lent {
            entries: nodes,
            work: pick(third, needed),
        },
        2..=4 => Lent {
            entries: nodes,
            work: needed,
        },
        _ => Lent {
            entries: nodes.saturating_add(pick(second, 3)).min(200),
            work: needed.saturating_add(pick(third, 300)).min(51200),
        },
    }
}

// Refuses slices that are to hold so many nodes, if they are too short.
pub fn slices(nodes: usize, lent: Lent) -> Result<(), Fault> {
    let needed = nodes.saturating_mul(256);
    if lent.entries < nodes {
        return Err(Fault {
            number: 10,
            place: nodes,
        });
    }
    if lent.work < needed {
        return Err(Fault {
            number: 11,
            place: needed,
        });
    }
    Ok(())
}

// What a check of a block is refused with, if it is.
pub fn expected_check(block: &SecondBlock, lent: Lent) -> Result<(), Fault> {
    match block.fault {
        Some(fault) => Err(fault),
        None => slices(block.count(), lent),
    }
}

// A suspect as a half names it: its node and its set.
pub type Suspect = Option<(usize, usize)>;

// A half of an answer.
pub fn suspect_of(half: Half) -> Suspect {
    match half {
        Half::Clear => None,
        Half::Suspect(node, set) => Some((node, set)),
    }
}

// An answer: its counts and its halves.
#[derive(Clone, Copy, PartialEq, Eq)]
pub struct Answered {
    pub variables: usize,
    pub nodes: usize,
    pub settled: Suspect,
    pub glitch: Suspect,
}

// A reply: the answer, or the refusal.
pub type Outcome = Result<Answered, Fault>;

// The product's reply.
pub fn outcome_of(reply: Result<Answer, Refusal>) -> Outcome {
    match reply {
        Err(refusal) => Err(Fault {
            number: refusals::number_of(refusal),
            place: refusal.place,
        }),
        Ok(answer) => Ok(Answered {
            variables: answer.variables,
            nodes: answer.nodes,
            settled: suspect_of(answer.settled),
            glitch: suspect_of(answer.glitch),
        }),
    }
}

// The answer that is to come.
pub fn expected_answer(second: &Second) -> Answered {
    Answered {
        variables: second.block.variables,
        nodes: second.block.count(),
        settled: second.first_suspect(0),
        glitch: second.first_suspect(1),
    }
}

// ---- node records

// Whether two slices' entries are the same, marks included.
pub fn same_entries(a: &[NodeRecord], b: &[NodeRecord]) -> bool {
    a.len() == b.len() && a.iter().zip(b).all(|(x, y)| same_record(*x, *y))
}

// How many nodes are marked for settled signals, for glitching ones, and for these alone; how many have two marks that
// differ; and how many registers are marked.
#[derive(Clone, Copy)]
pub struct Marked {
    pub settled: usize,
    pub glitch: usize,
    pub glitch_alone: usize,
    pub unlike: usize,
    pub registers: usize,
}

// How many of some records are such.
fn count_of<F: Fn(&NodeRecord) -> bool>(records: &[NodeRecord], is_such: F) -> usize
    requires { F.IsAlwaysCallable is_such }
{
    records.iter().filter(|held| is_such(*held)).count()
}

// Some nodes, counted by their marks.
pub fn marked_of(records: &[NodeRecord]) -> Marked {
    Marked {
        settled: count_of(records, |held| held.settled != 0),
        glitch: count_of(records, |held| held.glitch != 0),
        glitch_alone: count_of(records, |held| held.glitch != 0 && held.settled == 0),
        unlike: count_of(records, |held| {
            held.glitch != 0 && held.settled != 0 && held.settled != held.glitch
        }),
        registers: count_of(records, |held| held.glitch != 0 && held.node.kind == 7),
    }
}

// ---- families

// Takes the sets of a list out of the family at a part of the work bytes. A set that is not there goes in.
fn take_out(work: &mut Work, part: usize, list: &List) {
    for set in list.sets() {
        work[part % 400 * 128 + (set / 8) as usize % 128] ^= 1u8 << (set % 8);
    }
}

// Whether the families in the work bytes of an answered block are not the lists: with all sets of the lists taken out,
// a bit is left.
pub fn families_differ(mut work: Work, second: &Second) -> bool {
    let count = second.block.count();
    for i in 0..count {
        take_out(&mut work, 2 * i, second.family(0, i));
        take_out(&mut work, 2 * i + 1, second.family(1, i));
    }
    work[..256 * count].iter().any(|byte| *byte != 0)
}

// ---- the search over pairs

// What a search finds. With no pair to look at it finds no pair, too.
#[derive(Clone, Copy)]
pub enum Finds {
    Single(usize, usize),
    NoPair,
    Pair(Pair),
    Spent,
    Nothing,
}

// A search as the second checker has it: how many pairs there are, the first suspect one, and what is found and looked
// at under a limit.
#[derive(Clone, Copy)]
pub struct Sought {
    pub pairs: usize,
    pub first: Option<Pair>,
    pub limit: usize,
    pub finds: Finds,
    pub looked: usize,
}

// A limit: none or one, about the position of the first suspect pair, about the number of pairs, the highest there is,
// or any.
fn limit_for(seed: u32, position: usize, pairs: usize) -> usize {
    match pick(seed, 12) {
        0 => 0,
        1 => 1,
        2 | 3 => position.saturating_sub(1),
        4 | 5 => position,
        6 => position.saturating_add(1),
        7 => pairs.saturating_sub(1),
        8 => pairs,
        9 => pairs.saturating_add(1),
        10 => usize::MAX,
        _ => pick(next(seed), pairs.saturating_add(2)),
    }
}

// The search of a block under a limit: first the pair, and only then the limit.
pub fn seek(seed: u32, second: &Second) -> Sought {
    let pairs = second.pairs();
    let first = second.first_pair();
    let limit = limit_for(seed, first.map_or(pairs + 1, |pair| pair.position), pairs);
    let within = first.filter(|pair| pair.position <= limit);
    let (finds, looked) = if let Some((node, set)) = second.first_suspect(1) {
        (Finds::Single(node, set), 0)
    } else if let Some(pair) = within {
        (Finds::Pair(pair), pair.position)
    } else if limit < pairs {
        (Finds::Spent, limit)
    } else if pairs > 0 {
        (Finds::NoPair, pairs)
    } else {
        (Finds::Nothing, 0)
    };
    Sought {
        pairs,
        first,
        limit,
        finds,
        looked,
    }
}
