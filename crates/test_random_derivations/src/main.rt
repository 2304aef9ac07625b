// Derivations over random blocks. At every node, in both layers, each set is asked for: one of the family in a slice
// with room to spare, in one that just takes its steps and in one a byte shorter; any other set in a slice of some
// length. A derivation is judged, step by step, by the rules alone and with no family at hand; and it is compared with
// one that is made another way, from the families of the second checker. Prints counts of what was seen: every one is
// above 0 but `judged wrong` and `differences`, which must be 0.
//
// It uses `derive`, and what the test crates expect of it.
#![tactic(auto)]

ghost use Rattle.std.specs.Prelude.{◌<◌};

use test_generator::{Mix, Shape, next, pick};
use test_second_checker::{Fault, Kind, Second, SecondBlock, SecondNode};
use test_tools::{Tally, count, count_if, print_counts, raise};

const BLOCKS: usize = 200;

const SETS: usize = 1024;

// A block has fewer nodes than this.
const NODES: usize = 16;

// A claim: that a set is in the family of a node in a layer.
#[derive(Clone, Copy, PartialEq, Eq)]
struct Claim {
    layer: usize,
    node: usize,
    set: usize,
}

// Of each claim, by layer, node and set, whether it is true.
type Families = [[[bool; SETS]; NODES]; 2];

// Whether a claim is true.
fn is_true(families: &Families, claim: Claim) -> bool {
    families[claim.layer % 2][claim.node % NODES][claim.set % SETS]
}

// The steps of a derivation, five bytes to each: there is room for one step more than there may be. And what each byte
// holds before.
type Steps = [[u8; 5]; 513];

const BEFORE: u8 = 170;

const UNWRITTEN: Steps = [[BEFORE; 5]; 513];

const ROOM: usize = 2565;

// The most steps of a derivation.
const MOST: usize = 512;

// A stack with room for more than there ever is on it.
#[derive(Clone, Copy)]
struct Stack<T> {
    entries: [T; 1024],
    height: usize,
}

impl<T: Copy> Stack<T> {
    // A stack with nothing on it, in which unused places hold this.
    fn empty(unused: T) -> Stack<T> {
        Stack {
            entries: [unused; 1024],
            height: 0,
        }
    }

    fn push(&mut self, entry: T) {
        let at = self.height % 1024;
        self.entries[at] = entry;
        self.height = at + 1;
    }

    fn pop(&mut self) -> Option<T> {
        self.height = self.height.checked_sub(1)?;
        Some(self.entries[self.height % 1024])
    }
}

// Sets that are derived, and behind them steps of rules 1 to 6.
const DERIVED: usize = 1;

// Sets that several rules give, and sets that rule 6 alone gives, in several ways.
const SEVERAL: usize = 8;

// The most steps in a chain, each an operand's of the one before, and in a derivation.
const DEEPEST: usize = 10;

const LONGEST: usize = 11;

// Refusals with 15 of more than 512 steps, and of fewer; and those with 16.
const REFUSED: usize = 12;

const WRONG: usize = 15;

const DIFFERENCES: usize = 16;

// ---- steps

// A step: by which rule a claim is true.
#[derive(Clone, Copy)]
struct Step {
    claim: Claim,
    rule: u8,
}

impl Step {
    // The step that five bytes say.
    fn of(bytes: [u8; 5]) -> Step {
        let [node, layer, rule, low, high] = bytes;
        Step {
            claim: Claim {
                layer: layer as usize,
                node: node as usize,
                set: low as usize + 256 * high as usize,
            },
            rule,
        }
    }

    // Its bytes.
    fn bytes(self) -> [u8; 5] {
        let claim = self.claim;
        [
            (claim.node % 256) as u8,
            (claim.layer % 256) as u8,
            self.rule,
            (claim.set % 256) as u8,
            (claim.set / 256 % 256) as u8,
        ]
    }

    // How many operands its rule needs.
    fn needs(self) -> usize {
        match self.rule {
            2 | 4 | 5 => 1,
            6 => 2,
            _ => 0,
        }
    }
}

// Whether a node is a gate whose family in a layer has its operands' sets and the empty set.
fn spreads(node: SecondNode, layer: usize) -> bool {
    node.kind.is_gate() && (node.kind != Kind::Xor || layer == 1)
}

// ---- the judge

// A claim that is established, and the longest chain of steps that leads to it.
#[derive(Clone, Copy)]
struct Established {
    claim: Claim,
    chain: usize,
}

// Whether a step at this node follows by its rule, where the steps behind it establish claim `first`, and those behind
// them `second`.
fn follows(node: SecondNode, step: Step, first: Option<Claim>, second: Option<Claim>) -> bool {
    let Claim { layer, set, .. } = step.claim;
    let of_first = |layer, set| {
        let node = node.first;
        Some(Claim { layer, node, set })
    };
    let of_second = |set| {
        let node = node.second;
        Some(Claim { layer, node, set })
    };
    match step.rule {
        1 => node.kind == Kind::Input && set == node.set,
        2 => {
            (node.kind == Kind::Not && first == of_first(layer, set))
                || (node.kind == Kind::Register && first == of_first(0, set))
        }
        3 => set == 0 && (spreads(node, layer) || (node.kind == Kind::Not && layer == 1)),
        4 => spreads(node, layer) && first == of_first(layer, set),
        5 => spreads(node, layer) && first == of_second(set),
        6 => match (first, second) {
            (Some(one), Some(other)) => {
                node.kind.is_gate()
                    && first == of_first(layer, one.set)
                    && second == of_second(other.set)
                    && one.set ^ other.set == set
            }
            _ => false,
        },
        _ => false,
    }
}

// Whether a step is right, where the steps behind it establish these claims.
fn is_right(
    block: &SecondBlock,
    step: Step,
    first: Option<Established>,
    second: Option<Established>,
) -> bool {
    let Some(node) = block.nodes().get(step.claim.node) else {
        return false;
    };
    step.claim.layer < 2
        && step.claim.set < SETS
        && follows(
            *node,
            step,
            first.map(|held| held.claim),
            second.map(|held| held.claim),
        )
}

// Judges steps, from the last one back, each of which takes the claims that it needs from a stack and puts its own
// there: in the end one claim is established, which was asked for. Gives the longest chain of steps, if all is right.
fn judge(tally: &mut Tally, block: &SecondBlock, steps: &[[u8; 5]], asked: Claim) -> Option<usize> {
    let mut stack = Stack::empty(Established {
        claim: asked,
        chain: 0,
    });
    let mut right = steps.len() <= MOST;
    for bytes in steps.iter().rev() {
        let step = Step::of(*bytes);
        let first = if step.needs() > 0 { stack.pop() } else { None };
        let second = if step.needs() > 1 { stack.pop() } else { None };
        right = right && is_right(block, step, first, second);
        let chain = first
            .map_or(0, |held| held.chain)
            .max(second.map_or(0, |held| held.chain));
        stack.push(Established {
            claim: step.claim,
            chain: chain.saturating_add(1),
        });
        count_if(tally, DERIVED + (step.rule % 8) as usize, right);
    }
    let last = stack.pop()?;
    if right && stack.height == 0 && last.claim == asked {
        Some(last.chain)
    } else {
        None
    }
}

// ---- a second derivation

// Which rules work for a true claim, by their numbers; and of rule 6 the lowest set of the first operand that does, and
// whether others do.
#[derive(Clone, Copy)]
struct Ways {
    rules: [bool; 7],
    lowest: Option<usize>,
    several: bool,
}

impl Ways {
    // The lowest rule that works, or 0 where none does.
    fn rule(self) -> u8 {
        (self.rules.iter().position(|works| *works).unwrap_or(0) % 8) as u8
    }

    // How many rules work.
    fn many(self) -> usize {
        self.rules.iter().filter(|works| **works).count()
    }
}

// All rules, at this node, for a claim over so many variables.
fn ways_of(families: &Families, node: SecondNode, claim: Claim, variables: usize) -> Ways {
    let Claim { layer, set, .. } = claim;
    let has = |node, layer, set| is_true(families, Claim { layer, node, set });
    let is_not = node.kind == Kind::Not;
    let is_register = node.kind == Kind::Register;
    let spreads = spreads(node, layer);
    let first = has(node.first, if is_register { 0 } else { layer }, set);
    let sets = if node.kind.is_gate() {
        1usize << (variables % 16)
    } else {
        0
    };
    let mut both = (0..sets).filter(|one| has(node.first, layer, *one)
        && has(node.second, layer, set ^ *one));
    let lowest = both.next();
    Ways {
        rules: [
            false,
            node.kind == Kind::Input,
            (is_not || is_register) && first,
            (spreads || (is_not && layer == 1)) && set == 0,
            spreads && first,
            spreads && has(node.second, layer, set),
            lowest.is_some(),
        ],
        lowest,
        several: both.next().is_some(),
    }
}

// Puts what a step at this node needs on a stack, the first operand's claim on top; `lowest` is the first operand's set
// for rule 6.
fn put_needs(stack: &mut Stack<Claim>, node: SecondNode, step: Step, lowest: usize) {
    let set = step.claim.set;
    let layer = if node.kind == Kind::Register {
        0
    } else {
        step.claim.layer
    };
    let first = node.first;
    let second = node.second;
    match step.rule {
        2 | 4 => stack.push(Claim {
            layer,
            node: first,
            set,
        }),
        5 => stack.push(Claim {
            layer,
            node: second,
            set,
        }),
        6 => {
            stack.push(Claim {
                layer,
                node: second,
                set: set ^ lowest,
            });
            stack.push(Claim {
                layer,
                node: first,
                set: lowest,
            });
        }
        _ => {}
    }
}

// A block with its bytes, and which claims are true of it.
#[derive(Clone, Copy)]
struct Case<'a> {
    bytes: &'a [u8],
    block: &'a SecondBlock,
    families: &'a Families,
}

// The rules that work for a claim.
fn ways_in(case: Case<'_>, claim: Claim) -> Option<(SecondNode, Ways)> {
    let node = *case.block.nodes().get(claim.node)?;
    Some((
        node,
        ways_of(case.families, node, claim, case.block.variables),
    ))
}

// Writes the derivation of a true claim, by the lowest rule that works at each step; the claim on top of the stack is
// next. Gives the number of steps, or 513 where they are more than 512.
fn expected_steps(case: Case<'_>, claim: Claim, steps: &mut Steps) -> usize {
    let mut stack = Stack::empty(claim);
    stack.push(claim);
    for (many, bytes) in steps.iter_mut().enumerate() {
        let Some(next) = stack.pop() else {
            return many;
        };
        if let Some((node, ways)) = ways_in(case, next) {
            let step = Step {
                claim: next,
                rule: ways.rule(),
            };
            *bytes = step.bytes();
            put_needs(&mut stack, node, step, ways.lowest.unwrap_or(0));
        }
    }
    513
}

// Counts a set that several rules give, and one that rule 6 alone gives, in several ways.
fn count_ways(tally: &mut Tally, case: Case<'_>, claim: Claim) {
    if let Some((_, ways)) = ways_in(case, claim) {
        count_if(tally, SEVERAL, ways.many() > 1);
        count_if(tally, SEVERAL + 1, ways.rule() == 6 && ways.several);
    }
}

// ---- every set of every node

// A reply: the number of steps, or the refusal.
type Reply = Result<usize, Fault>;

// Asks for the derivation of a claim in a slice.
fn ask(bytes: &[u8], claim: Claim, slice: &mut [u8]) -> Reply {
    match derivations::derive(bytes, claim.node, claim.layer, claim.set, slice) {
        Err(refusal) => Err(Fault {
            number: refusals::number_of(refusal),
            place: refusal.place,
        }),
        Ok(steps) => Ok(steps),
    }
}

// The reply to a claim whose derivation has so many steps, or none where it is not true, in a slice of so many bytes.
fn expected_reply(claim: Claim, steps: Option<usize>, bytes: usize) -> Reply {
    let fits = (bytes / 5).min(MOST);
    match steps {
        None => Err(Fault {
            number: 16,
            place: claim.set,
        }),
        Some(steps) if steps > fits => Err(Fault {
            number: 15,
            place: fits,
        }),
        Some(steps) => Ok(steps),
    }
}

// Judges an answer.
fn judge_answer(tally: &mut Tally, block: &SecondBlock, steps: &[[u8; 5]], claim: Claim) {
    let depth = judge(tally, block, steps, claim);
    count(tally, DERIVED, 1);
    count_if(tally, WRONG, depth.is_none());
    raise(tally, DEEPEST, depth.unwrap_or(0));
    raise(tally, LONGEST, steps.len());
}

// Asks for a claim in the first `lent` bytes of a slice, where its derivation has so many steps, which are these, and
// none where it is not true. What is answered in the longest slice is judged.
fn try_in(
    tally: &mut Tally,
    case: Case<'_>,
    claim: Claim,
    lent: usize,
    many: Option<usize>,
    steps: &Steps,
) {
    let mut slice = UNWRITTEN;
    let length = lent.min(ROOM);
    let reply = ask(case.bytes, claim, &mut slice.as_flattened_mut()[..length]);
    let expected = expected_reply(claim, many, length);
    let held = if expected.is_ok() { *steps } else { UNWRITTEN };
    count_if(tally, DIFFERENCES, reply != expected || slice != held);
    match reply {
        Ok(found) if length == ROOM => {
            judge_answer(tally, case.block, &slice[..found.min(513)], claim)
        }
        Ok(_) => {}
        Err(fault) => {
            let is_long = many.is_some_and(|steps| steps > MOST);
            count_if(tally, REFUSED, fault.number == 15 && is_long);
            count_if(tally, REFUSED + 1, fault.number == 15 && !is_long);
            count_if(tally, REFUSED + 2, fault.number == 16);
        }
    }
}

// Asks for a claim. One that is true is asked for with room to spare, in a slice that just takes its steps, or 512
// where they are more, and in one a byte shorter; another one in a slice of some length.
fn try_claim(tally: &mut Tally, case: Case<'_>, claim: Claim, some: usize) {
    let mut steps = UNWRITTEN;
    if !is_true(case.families, claim) {
        try_in(tally, case, claim, some % ROOM, None, &steps);
        return;
    }
    let many = expected_steps(case, claim, &mut steps);
    let enough = 5 * many.min(MOST);
    for lent in [ROOM, enough, enough.saturating_sub(1)] {
        try_in(tally, case, claim, lent, Some(many), &steps);
    }
    count_ways(tally, case, claim);
}

// The families of all nodes, by the second checker's lists of sets.
fn families_of(second: &Second) -> Families {
    let mut families = [[[false; SETS]; NODES]; 2];
    for layer in 0..2 {
        for node in 0..NODES {
            for set in second.family(layer, node).sets() {
                families[layer][node][*set as usize % SETS] = true;
            }
        }
    }
    families
}

// Tries every set of every node of a block, in both layers.
fn try_block(tally: &mut Tally, bytes: &[u8]) {
    let mut second = Second::empty();
    test_second_checker::work_out(bytes, &mut second);
    let families = families_of(&second);
    let case = Case {
        bytes,
        block: &second.block,
        families: &families,
    };
    for layer in 0..2 {
        for node in 0..second.block.count().min(NODES) {
            for set in 0..1usize << (second.block.variables % 16) {
                let number = (NODES * layer + node) * SETS + set;
                try_claim(tally, case, Claim { layer, node, set }, number);
            }
        }
    }
}

// The mixes of kinds, by turns.
fn mix_of(turn: usize) -> Mix {
    match turn % 8 {
        0 => Mix::Even,
        1 => Mix::Masked,
        2 => Mix::Dense,
        3 => Mix::Registered,
        4 => Mix::Long,
        5 => Mix::Xors,
        _ => Mix::Gates,
    }
}

// A block of two to five variables. One in eight is mostly XORs of nodes close by, with long derivations; one is a row
// of gates, each of an input and the gate before it, with two variables more and large families; and a few blocks have
// ten variables.
fn shape_of(seed: u32, turn: usize) -> Shape {
    let second = next(seed);
    let third = next(second);
    let mut variables = 2 + pick(seed, 4);
    let mut nodes = 6 + pick(second, 10);
    let mut near = 1 + pick(third, 4);
    let mut open = 0;
    if turn % 128 == 2 {
        variables = 10;
        nodes = 6 + pick(second, 2);
    }
    match turn % 8 {
        5 => near = 1 + pick(third, 2),
        7 => {
            variables = 4 + pick(seed, 4);
            near = 3;
            open = 2;
        }
        _ => {}
    }
    Shape {
        seed: next(third),
        variables,
        labels: variables,
        nodes,
        mix: mix_of(turn),
        near,
        open,
    }
}

// Makes a block and tries it. Gives the generator's state after it.
fn try_random(tally: &mut Tally, seed: u32, turn: usize) -> u32 {
    let made = test_generator::block(shape_of(seed, turn));
    count(tally, 0, 1);
    try_block(tally, made.bytes());
    next(made.seed)
}

// Prints what was seen.
fn print_tally(tally: Tally) {
    print_counts(
        b"blocks\nsets derived\nsteps of rule 1\nsteps of rule 2\nsteps of rule 3\nsteps of rule 4\n\
        steps of rule 5\nsteps of rule 6\nsets that several rules give\n\
        sets that rule 6 alone gives, in several ways\ndeepest derivation\nlongest derivation\n\
        refused with 15 for more than 512 steps\nrefused with 15 for a slice a byte too short\n\
        refused with 16\njudged wrong\ndifferences\n",
        &tally,
    );
}

fn main() {
    let mut tally = [0usize; 64];
    let mut seed = 1;
    for turn in 0..BLOCKS {
        seed = try_random(&mut tally, seed, turn);
    }
    print_tally(tally);
}
