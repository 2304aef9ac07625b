// Compares the checker, with one probe and with two, with the second checker over random blocks, valid and damaged, in
// slices of many lengths and under many limits: replies with number and place, the answer, node records with their
// marks, families, and what lies beyond them; what the search over pairs finds and how many it looks at; and of one
// probe what `products` and `questions` compare.
use crate::products::compare_products;
use crate::questions::ask;
use pair_search::{Found, Search};
use pairs::PairsAnswer;
use rules::{Answer, NodeRecord, Refusal};
use test_expected::{
    Finds, Lent, Outcome, Sought, Work, expected_answer, expected_check, families_differ,
    lengths_for, marked_of, outcome_of, same_entries, seek,
};
use test_generator::next;
use test_second_checker::{Kind, Pair, Second};
use test_tools::{Tally, count, count_if, raise};
use test_trial::Seen;

// The blocks, the checks answered, and behind them those refused with 1 to 11.
const BLOCKS: usize = 0;

const CHECKS: usize = 1;

const NODES: usize = 13;

const SETS: usize = 14;

const LARGEST: usize = 15;

const LARGE: usize = 16;

const SETTLED: usize = 17;

const GLITCH: usize = 18;

const CLEAR: usize = 19;

// Of the reported sets, those where a lower-numbered one is suspect too, and those where another one has as few
// variables.
const LOWER: usize = 20;

const TIES: usize = 21;

// The nodes that are marked for settled signals, for glitching ones, and for these alone; those with two marks that
// differ; the registers that are marked; and the inputs whose set is suspect, which have no mark.
const SETTLED_MARKS: usize = 22;

const GLITCH_MARKS: usize = 23;

const GLITCH_ALONE: usize = 24;

const UNLIKE: usize = 25;

const REGISTERS: usize = 26;

const BARE_INPUTS: usize = 27;

// Of the blocks, for each layer, the most marked nodes of one, and how many have several.
const MOST_MARKS: usize = 28;

const SEVERAL_MARKS: usize = 30;

// Behind these is what `products` counts, and what `questions` does; of two probes, in the place of these, the searches
// by what they find.
const SEARCHES: usize = 41;

// The pairs that are looked at, all together, and the highest position of a pair that is found.
const LOOKED: usize = 46;

const HIGHEST: usize = 47;

// The limit is just the position of the pair that is found; it is one below the first suspect pair; it is just the
// number of pairs, none of which is suspect.
const JUST_THE_PAIR: usize = 48;

const JUST_SHORT: usize = 49;

const JUST_ALL: usize = 50;

// The same of the sets of pairs that are found as `LOWER` and `TIES`.
const PAIR_LOWER: usize = 51;

const PAIR_TIES: usize = 52;

pub(crate) const DIFFERENCES: usize = 56;

// ---- the check

// Compares a check over so many entries and these work bytes: its reply, and what both slices then hold. Gives whether
// it is to be answered.
fn compare_check(
    tally: &mut Tally,
    second: &Second,
    lent: Lent,
    reply: Outcome,
    nodes: [NodeRecord; 200],
    work: &[u8],
) -> bool {
    let expected = expected_check(&second.block, lent);
    let answered = expected.is_ok();
    let written = if answered { second.block.count() } else { 0 };
    let records = second.records();
    let same = reply == expected.map(|()| expected_answer(second))
        && same_entries(&nodes[..written], &records[..written])
        && test_trial::entries_kept_from(nodes) <= written
        && test_trial::work_kept_from(work) <= 256 * written;
    let number = expected.err().map_or(0, |fault| fault.number % 12);
    count(tally, BLOCKS, 1);
    count(tally, CHECKS + number, 1);
    count_if(tally, DIFFERENCES, !same);
    answered
}

// Checks a block with one probe, and compares that.
fn check_one(
    tally: &mut Tally,
    bytes: &[u8],
    second: &Second,
    lent: Lent,
    work: &mut [u8],
) -> bool {
    let before = [test_trial::entry_before(); 200];
    let Seen { reply, nodes } = test_trial::check_over(bytes, lent.entries, before, work);
    compare_check(tally, second, lent, outcome_of(reply), nodes, work)
}

// Checks a block with two probes, and compares that with what is sought.
fn check_two(
    tally: &mut Tally,
    bytes: &[u8],
    second: &Second,
    lent: Lent,
    sought: Sought,
    work: &mut [u8],
) -> bool {
    let before = [test_trial::entry_before(); 200];
    let Seen { reply, nodes } = test_trial::check_pairs_over(
        sought.limit,
        bytes,
        lent.entries,
        before,
        work,
    );
    let outcome = compare_search(tally, reply, sought);
    compare_check(tally, second, lent, outcome, nodes, work)
}

// The work bytes before a check.
fn work_before() -> Work {
    let mut work = [0u8; 51200];
    test_trial::fill(&mut work);
    work
}

// Compares the families of an answered block, and counts its marks.
fn compare_answered(tally: &mut Tally, second: &Second, work: Work) {
    count_if(tally, DIFFERENCES, families_differ(work, second));
    count_marks(tally, second);
}

// ---- one probe

// Counts the set that a half of the answer reports, if it names a suspect.
fn count_reported(tally: &mut Tally, second: &Second, layer: usize) {
    let suspect = second.first_suspect(layer);
    if let Some(sets) = suspect.and_then(|(node, _)| second.suspects(layer, node)) {
        count(tally, SETTLED + layer % 2, 1);
        count_if(tally, LOWER, sets.is_lower_suspect());
        count_if(tally, TIES, sets.is_tie());
    }
}

// Counts an answered block: its nodes, its suspects, and the sets of its families.
fn count_answer(tally: &mut Tally, second: &Second) {
    count(tally, NODES, second.block.count());
    count_reported(tally, second, 0);
    count_reported(tally, second, 1);
    count_if(tally, CLEAR, second.first_suspect(1).is_none());
    for layer in 0..2 {
        for i in 0..second.block.count() {
            let length = second.family(layer, i).sets().len();
            count(tally, SETS, length);
            count_if(tally, LARGE, length > 100);
            raise(tally, LARGEST, length);
        }
    }
}

// Counts the inputs whose set is suspect.
fn count_inputs(tally: &mut Tally, second: &Second) {
    let block = &second.block;
    for node in block.nodes() {
        count_if(
            tally,
            BARE_INPUTS,
            node.kind == Kind::Input && block.is_suspect(node.set),
        );
    }
}

// Counts the marks of an answered block.
fn count_marks(tally: &mut Tally, second: &Second) {
    let records = second.records();
    let marked = marked_of(&records[..second.block.count()]);
    count(tally, SETTLED_MARKS, marked.settled);
    count(tally, GLITCH_MARKS, marked.glitch);
    count(tally, GLITCH_ALONE, marked.glitch_alone);
    count(tally, UNLIKE, marked.unlike);
    count(tally, REGISTERS, marked.registers);
    raise(tally, MOST_MARKS, marked.settled);
    raise(tally, MOST_MARKS + 1, marked.glitch);
    count_if(tally, SEVERAL_MARKS, marked.settled > 1);
    count_if(tally, SEVERAL_MARKS + 1, marked.glitch > 1);
}

// Compares all that both checkers say of a block with one probe. Gives the generator's state after it.
pub(crate) fn one_probe(tally: &mut Tally, seed: u32, bytes: &[u8], second: &Second) -> u32 {
    let mut work = work_before();
    let lent = lengths_for(seed, second.block.count());
    if check_one(
        tally,
        bytes,
        second,
        lent,
        &mut work[..lent.work.min(51200)],
    ) {
        count_answer(tally, second);
        count_inputs(tally, second);
        compare_products(tally, second, &work);
        compare_answered(tally, second, work);
    }
    let mut state = next(seed);
    for _ in 0..4 {
        state = ask(tally, state, bytes, second);
    }
    state
}

// ---- two probes

// Whether a search finds what is sought.
fn same_search(search: Search, sought: Sought) -> bool {
    let same = match (search.found, sought.finds) {
        (Found::Single(node, set), Finds::Single(other, reported)) => {
            node == other && set == reported
        }
        (Found::NoPair, Finds::NoPair | Finds::Nothing) => true,
        (Found::Pair(i, j, set), Finds::Pair(pair)) => {
            i == pair.i && j == pair.j && set == pair.choice.reported()
        }
        (Found::Spent, Finds::Spent) => true,
        _ => false,
    };
    same && search.looked == sought.looked
}

// Compares the search of a reply, if there is one. Gives the rest of the reply.
fn compare_search(
    tally: &mut Tally,
    reply: Result<PairsAnswer, Refusal>,
    sought: Sought,
) -> Outcome {
    match reply {
        Err(refusal) => outcome_of(Err(refusal)),
        Ok(both) => {
            count_if(tally, DIFFERENCES, !same_search(both.search, sought));
            outcome_of(Ok(both.answer))
        }
    }
}

// Counts a pair that is found under a limit.
fn count_pair(tally: &mut Tally, pair: Pair, limit: usize) {
    raise(tally, HIGHEST, pair.position);
    count_if(tally, JUST_THE_PAIR, limit == pair.position);
    count_if(tally, PAIR_LOWER, pair.choice.is_lower_suspect());
    count_if(tally, PAIR_TIES, pair.choice.is_tie());
}

// Counts the search of an answered block.
fn count_search(tally: &mut Tally, sought: Sought) {
    let limit = sought.limit;
    count(tally, LOOKED, sought.looked);
    let place = match sought.finds {
        Finds::Single(_, _) => 0,
        Finds::NoPair => {
            count_if(tally, JUST_ALL, limit == sought.pairs);
            1
        }
        Finds::Pair(pair) => {
            count_pair(tally, pair, limit);
            2
        }
        Finds::Spent => {
            let short = sought
                .first
                .is_some_and(|pair| limit.saturating_add(1) == pair.position);
            count_if(tally, JUST_SHORT, short);
            3
        }
        Finds::Nothing => 4,
    };
    count(tally, SEARCHES + place, 1);
}

// Compares all that both checkers say of a block with two probes. Gives the generator's state after it.
pub(crate) fn two_probes(tally: &mut Tally, seed: u32, bytes: &[u8], second: &Second) -> u32 {
    let mut work = work_before();
    let lent = lengths_for(seed, second.block.count());
    let after = next(next(next(seed)));
    let sought = seek(after, second);
    if check_two(
        tally,
        bytes,
        second,
        lent,
        sought,
        &mut work[..lent.work.min(51200)],
    ) {
        count_search(tally, sought);
        compare_answered(tally, second, work);
    }
    next(next(after))
}
