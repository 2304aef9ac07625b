// Compares the three queries with the second checker: a node and a number that may be too high.
use crate::compare::DIFFERENCES;
use rules::Refusal;
use test_generator::{next, pick};
use test_second_checker::{Fault, Second, SecondBlock};
use test_tools::{Tally, count, count_if};

// The queries answered, and behind them those refused with 1 to 9, 12 and 13; the values that are 1, the nodes whose
// feeding points are given, and the families that have the set.
const QUERIES: usize = 41;

const VALUES: usize = 53;

const POINTS: usize = 54;

const MEMBERS: usize = 55;

// Whether a query of a node with a number is answered, or its refusal.
fn expected_query(block: &SecondBlock, node: usize, number: usize) -> Result<(), Fault> {
    if let Some(fault) = block.fault {
        return Err(fault);
    }
    if node >= block.count() {
        return Err(Fault {
            number: 12,
            place: node,
        });
    }
    if number >> (block.variables % 16) > 0 {
        return Err(Fault {
            number: 13,
            place: number,
        });
    }
    Ok(())
}

// The product's outcome.
fn given(outcome: Result<(), Refusal>) -> Result<(), Fault> {
    match outcome {
        Ok(()) => Ok(()),
        Err(refusal) => Err(Fault {
            number: refusals::number_of(refusal),
            place: refusal.place,
        }),
    }
}

// Counts a query whose answer is the same or not, by its outcome.
fn count_query(
    tally: &mut Tally,
    outcome: Result<(), Refusal>,
    expected: Result<(), Fault>,
    same: bool,
) {
    let number = expected.err().map_or(0, |fault| fault.number % 14);
    count(
        tally,
        QUERIES + if number < 12 { number } else { number - 2 },
        1,
    );
    count_if(tally, DIFFERENCES, given(outcome) != expected || !same);
}

// Asks for the settled value of a node under an assignment.
fn ask_value(tally: &mut Tally, bytes: &[u8], second: &Second, node: usize, number: usize) {
    let expected = expected_query(&second.block, node, number);
    let reply = queries::settled_value(bytes, node, number);
    let value = expected.is_ok() && second.value(node, number);
    count_query(tally, reply.outcome, expected, reply.value == value);
    count_if(tally, VALUES, value);
}

// Asks for the points that feed a node; where the query is refused, there are to be none.
fn ask_points(tally: &mut Tally, bytes: &[u8], second: &Second, node: usize) {
    let expected = expected_query(&second.block, node, 0);
    let answered = expected.is_ok();
    let reply = queries::feeding_points(bytes, node);
    let same = reply
        .marks
        .iter()
        .enumerate()
        .all(|(j, mark)| *mark == (answered && second.feeds(j, node)));
    count_query(tally, reply.outcome, expected, same);
    count_if(tally, POINTS, answered);
}

// Asks which families of a node have a set.
fn ask_members(tally: &mut Tally, bytes: &[u8], second: &Second, node: usize, number: usize) {
    let expected = expected_query(&second.block, node, number);
    let reply = queries::memberships(bytes, node, number);
    let settled = expected.is_ok() && second.family(0, node).has(number);
    let glitch = expected.is_ok() && second.family(1, node).has(number);
    let same = reply.settled == settled && reply.glitch == glitch;
    count_query(tally, reply.outcome, expected, same);
    count_if(tally, MEMBERS, settled);
    count_if(tally, MEMBERS, glitch);
}

// Asks each query once. Gives the generator's state after it.
pub(crate) fn ask(tally: &mut Tally, seed: u32, bytes: &[u8], second: &Second) -> u32 {
    let node = pick(seed, second.block.count() + 2);
    let number = pick(next(seed), 2usize << (second.block.variables % 16));
    ask_value(tally, bytes, second, node, number);
    ask_points(tally, bytes, second, node);
    ask_members(tally, bytes, second, node, number);
    next(next(seed))
}
