// Random runs of edits over random blocks, some of them refused. After each edit the reply, the state, all node records
// with their marks and all work bytes are compared with a fresh check of the written-out block in the same slices;
// answer and node records with the second checker's too, and after some edits the families; a refusal is compared by
// number and place, with the state and both slices as they were. The written-out block and the refusals are the second
// checker's. Where a small block is clear after an edit, mask settings are counted by force. Prints what was seen:
// every count is above 0 but `differences` and `contradictions`, which must be 0.
//
// It uses opening and edits, over slices that `test_trial` lends, and what the test crates expect of them.
#![tactic(auto)]

use edit_rules::{Edit, State};
use rules::NodeRecord;
use test_expected::written::{Written, added, removed};
use test_expected::{
    Lent, Outcome, Work, expected_answer, families_differ, marked_of, outcome_of, same_entries,
};
use test_generator::{Mix, Shape, masked_or, next, pick, plain};
use test_second_checker::{Fault, Kind, Second, work_out};
use test_tools::{Tally, count, count_if, print_counts};
use test_trial::SeenEdit;

const BLOCKS: usize = 400;

const EDITS: usize = 24;

// The runs; behind them the additions, and then the removals, made and refused.
const RUNS: usize = 0;

const CLEAR: usize = 16;

const FULL: usize = 17;

const EMPTY: usize = 18;

// The edits after which answer and node records are compared with the second checker's; the marks that they leave in
// each layer, and how many of them leave several there.
const MARKS_COMPARED: usize = 19;

const SETTLED_MARKS: usize = 20;

const GLITCH_MARKS: usize = 21;

const SEVERAL_SETTLED: usize = 22;

const SEVERAL_GLITCH: usize = 23;

// The new nodes that are marked and those that are not; the removals that move a marked node down, and how many nodes
// these are; the marked nodes that are removed, and those of them that a half of the answer named while there were
// others; and the marks that refused edits keep.
const ADDED_MARKED: usize = 24;

const ADDED_UNMARKED: usize = 25;

const MOVING: usize = 26;

const MOVED: usize = 27;

const REMOVED_MARKED: usize = 28;

const REMOVED_FIRST: usize = 29;

const KEPT_MARKS: usize = 30;

const AGAINST_SECOND: usize = 31;

const DIFFERENCES: usize = 32;

const CLEAR_COUNTED: usize = 33;

const COUNTS_DIFFER: usize = 34;

const CONTRADICTIONS: usize = 35;

// Where an addition or a removal is counted that is made, or refused with this number; with a number that is not to
// come, among the runs, whose count is then wrong.
fn place_of(change: Change, changed: &Result<Written, Fault>) -> usize {
    let number = changed.err().map_or(0, |fault| fault.number);
    match change {
        Change::Add(_) => match number {
            0 => 1,
            1 => 2,
            3 => 3,
            4 => 4,
            6..=11 => number - 1,
            _ => RUNS,
        },
        Change::Remove(_) => match number {
            0 => 11,
            10..=12 => number + 2,
            14 => 15,
            _ => RUNS,
        },
    }
}

// An open block: the reply to the last call, the state, what both slices hold, and the block written out.
#[derive(Clone, Copy)]
struct Open {
    reply: Outcome,
    state: State,
    nodes: [NodeRecord; 200],
    work: Work,
    written: Written,
}

// A record of up to five bytes.
#[derive(Clone, Copy)]
struct Record {
    bytes: [u8; 5],
    length: usize,
}

impl Record {
    fn bytes(&self) -> &[u8] {
        &self.bytes[..self.length.min(5)]
    }
}

// A record to add, or a node to remove.
#[derive(Clone, Copy)]
enum Change {
    Add(Record),
    Remove(usize),
}

// An edit that is asked for, in slices of these lengths.
#[derive(Clone, Copy)]
struct Asked {
    change: Change,
    lent: Lent,
}

// ---- what is asked for

// The kinds of nodes.
const KINDS: [Kind; 6] = [
    Kind::Input,
    Kind::Not,
    Kind::Xor,
    Kind::And,
    Kind::Or,
    Kind::Register,
];

// A record of a kind that can be taken by a block of so many variables and nodes, with two bytes behind it.
fn new_record(kind: Kind, seed: u32, variables: usize, nodes: usize) -> [u8; 5] {
    let (first, last) = if kind == Kind::Input {
        let set = pick(seed, 1usize << (variables % 16));
        (set % 256, set / 256)
    } else {
        (pick(seed, nodes), pick(next(seed), nodes))
    };
    [kind as u8, (first % 256) as u8, (last % 256) as u8, 0, 7]
}

// A record for a block of so many variables and nodes: mostly one that can be taken; else no bytes, another kind, a
// body that is cut short, bytes too many, an operand that is too high or a variable that is not declared.
fn offer(seed: u32, variables: usize, nodes: usize) -> Record {
    let second = next(seed);
    let third = next(second);
    let other = next(third);
    let fault = pick(seed, 20);
    let kind = if nodes == 0 && fault > 3 {
        Kind::Input
    } else {
        KINDS[pick(second, 6) % 6]
    };
    let mut bytes = new_record(kind, third, variables, nodes);
    let mut length = 1 + kind.body();
    match fault {
        0 => length = 0,
        1 => bytes[0] = (pick(other, 260) % 256) as u8,
        2 => length -= 1,
        3 => length += 1 + pick(other, 2) % 2,
        4 => bytes[1] = ((nodes % 256 + pick(other, 3)) % 256) as u8,
        5 => bytes[2] = bytes[2] % 252 + 4,
        _ => {}
    }
    Record { bytes, length }
}

// Slices for an edit of a block of so many nodes: mostly long enough, else just so or too short.
fn lent_for(seed: u32, nodes: usize) -> Lent {
    let second = next(seed);
    let needed = nodes.saturating_mul(256);
    let mut lent = Lent {
        entries: 200,
        work: 51200,
    };
    match pick(seed, 16) {
        0 => lent.entries = nodes.saturating_add(pick(second, 2)).min(200),
        1 => lent.work = needed.saturating_add(pick(second, 512)).min(51200),
        2 => lent.entries = pick(second, nodes),
        3 => lent.work = pick(second, needed),
        _ => {}
    }
    lent
}

// An edit of a block of so many variables and nodes; `growing` in eight of the edits are additions.
fn ask(seed: u32, growing: usize, variables: usize, nodes: usize) -> Asked {
    let third = next(next(seed));
    let fourth = next(third);
    let change = if pick(third, 8) < growing {
        Change::Add(offer(next(fourth), variables, nodes))
    } else {
        Change::Remove(pick(fourth, nodes.saturating_add(1)))
    };
    Asked {
        change,
        lent: lent_for(seed, nodes),
    }
}

// ---- what is given

// Opens a written-out block in slices of these lengths, whose entries and work bytes hold what is handed over.
fn open_in(written: Written, nodes: [NodeRecord; 200], before: Work, lent: Lent) -> Open {
    let mut work = before;
    let lent_work = &mut work[..lent.work.min(51200)];
    let SeenEdit { edited, nodes } = test_trial::open_over(
        written.bytes(),
        lent.entries,
        nodes,
        lent_work,
    );
    Open {
        reply: outcome_of(edited.reply),
        state: edited.state,
        nodes,
        work,
        written,
    }
}

// Makes an edit of an open block, which is written out so after it.
fn edit_in(open: &Open, asked: Asked, written: Written) -> Open {
    let mut work = open.work;
    let (edit, record) = match &asked.change {
        Change::Add(record) => (Edit::Add, record.bytes()),
        Change::Remove(node) => (Edit::Remove(*node), [].as_slice()),
    };
    let lent_work = &mut work[..asked.lent.work.min(51200)];
    let SeenEdit { edited, nodes } = test_trial::edit_over(
        open.state,
        edit,
        record,
        asked.lent.entries,
        open.nodes,
        lent_work,
    );
    Open {
        reply: outcome_of(edited.reply),
        state: edited.state,
        nodes,
        work,
        written,
    }
}

// Whether two states are the same: `edit_rules` derives no `==` for them.
fn same_state(a: State, b: State) -> bool {
    a.variables == b.variables && a.count == b.count && a.classes == b.classes
}

// Whether a call gave this reply, and left the state, all entries and all work bytes of another open block.
fn leaves(open: &Open, reply: Outcome, other: &Open) -> bool {
    open.reply == reply
        && same_state(open.state, other.state)
        && same_entries(&open.nodes, &other.nodes)
        && open.work == other.work
}

// ---- the second checker

// Compares the answer and the node records with the second checker's, and counts the marks.
fn try_marks(tally: &mut Tally, open: &Open, second: &Second) {
    let nodes = second.block.count();
    let records = second.records();
    let marked = marked_of(&records[..nodes]);
    let alike = open.reply == Ok(expected_answer(second))
        && same_entries(&open.nodes[..nodes], &records[..nodes]);
    count(tally, MARKS_COMPARED, 1);
    count_if(tally, DIFFERENCES, !alike);
    count(tally, SETTLED_MARKS, marked.settled);
    count(tally, GLITCH_MARKS, marked.glitch);
    count_if(tally, SEVERAL_SETTLED, marked.settled > 1);
    count_if(tally, SEVERAL_GLITCH, marked.glitch > 1);
}

// Compares the families with the second checker's. Where the block is small enough, counts mask settings by force:
// where the glitch half is clear, those of no tested node may differ.
fn try_families(tally: &mut Tally, work: Work, second: &Second, clear: bool) {
    count(tally, AGAINST_SECOND, 1);
    count_if(tally, DIFFERENCES, families_differ(work, second));
    if second.block.variables > 5 || second.block.count() >= test_counting::NODES {
        return;
    }
    let differs = test_counting::count_pairs(second).lowest == Some(0);
    count_if(tally, CLEAR_COUNTED, clear);
    count_if(tally, COUNTS_DIFFER, differs);
    count_if(tally, CONTRADICTIONS, clear && differs);
}

// Compares what an edit gave with the second checker's, with the families where that is asked for.
fn try_second(tally: &mut Tally, open: &Open, with_families: bool) {
    let mut second = Second::empty();
    work_out(open.written.bytes(), &mut second);
    let clear = open.reply.is_ok_and(|answer| answer.glitch.is_none());
    try_marks(tally, open, &second);
    count_if(tally, CLEAR, clear);
    if with_families {
        try_families(tally, open.work, &second, clear);
    }
}

// ---- marks of one node

// How many nodes are marked for glitches, of those from one to another.
fn glitch_marks(open: &Open, from: usize, to: usize) -> usize {
    let end = to.min(200);
    marked_of(&open.nodes[from.min(end)..end]).glitch
}

// Counts a new node, the last one, by its mark for glitches, which it has wherever it has one for settled signals.
fn count_new(tally: &mut Tally, after: &Open) {
    let number = after.state.count;
    let marked = glitch_marks(after, number.saturating_sub(1), number);
    count(tally, ADDED_MARKED, marked);
    count_if(tally, ADDED_UNMARKED, marked == 0);
}

// Counts a node that goes by its mark for glitches and those of the nodes around it.
fn count_removed(tally: &mut Tally, open: &Open, removed: usize) {
    let behind = removed.saturating_add(1);
    let lower = glitch_marks(open, 0, removed);
    let itself = glitch_marks(open, removed, behind);
    let higher = glitch_marks(open, behind, open.state.count);
    count_if(tally, MOVING, higher > 0);
    count(tally, MOVED, higher);
    count(tally, REMOVED_MARKED, itself);
    count_if(tally, REMOVED_FIRST, lower == 0 && itself > 0 && higher > 0);
}

// ---- one edit, and a run of them

// What an edit is to come to: the block after it, or the refusal.
fn expected_of(asked: Asked, open: &Open) -> Result<Written, Fault> {
    let nodes = open.state.count;
    match &asked.change {
        Change::Add(record) => added(&open.written, nodes, record.bytes(), asked.lent),
        Change::Remove(node) => removed(&open.written, nodes, *node, asked.lent),
    }
}

// Counts an edit that is refused, and whether it is with this number and place, and all is as it was.
fn count_refused(tally: &mut Tally, open: &Open, after: &Open, fault: Fault) {
    count(tally, KEPT_MARKS, glitch_marks(open, 0, open.state.count));
    count_if(tally, DIFFERENCES, !leaves(after, Err(fault), open));
}

// Counts an edit that is made, and whether it leaves what a fresh check of the written-out block does in the slices
// before it.
fn count_made(tally: &mut Tally, open: &Open, after: &Open, lent: Lent) {
    let fresh = open_in(after.written, open.nodes, open.work, lent);
    count_if(tally, DIFFERENCES, !leaves(after, fresh.reply, &fresh));
    count_if(tally, FULL, after.state.count == 200);
    count_if(tally, EMPTY, after.state.count == 0);
}

// Makes an edit and compares what it gives, the families with the second checker's too where that is asked for. Gives
// the block after it.
fn try_edit(tally: &mut Tally, open: Open, asked: Asked, with_families: bool) -> Open {
    let changed = expected_of(asked, &open);
    let after = edit_in(&open, asked, changed.unwrap_or(open.written));
    count(tally, place_of(asked.change, &changed), 1);
    if let Err(fault) = changed {
        count_refused(tally, &open, &after, fault);
        return open;
    }
    count_made(tally, &open, &after, asked.lent);
    match asked.change {
        Change::Add(_) => count_new(tally, &after),
        Change::Remove(node) => count_removed(tally, &open, node),
    }
    try_second(tally, &after, with_families);
    after
}

// Mostly two to six variables and up to 24 nodes; some long blocks, which grow to 200 nodes, and some of a few nodes,
// which lose them all.
fn shape_of(seed: u32, turn: usize) -> Shape {
    let second = next(seed);
    let third = next(second);
    let variables = 2 + pick(seed, 5);
    let mix = masked_or(Mix::Even, 2, third);
    match turn % 20 {
        1 => plain(third, variables, 194 + pick(second, 6), Mix::Long),
        2 | 3 => plain(third, variables, 1 + pick(second, 4), mix),
        _ => plain(third, variables, 2 + pick(second, 23), mix),
    }
}

// How many of eight edits are additions.
fn growing_of(turn: usize) -> usize {
    match turn % 20 {
        1 => 7,
        2 | 3 => 1,
        _ => 4,
    }
}

// A block made and opened.
fn opened(bytes: &[u8]) -> Open {
    let lent = Lent {
        entries: 200,
        work: 51200,
    };
    let mut work = [0u8; 51200];
    test_trial::fill(&mut work);
    let nodes = [test_trial::entry_before(); 200];
    open_in(Written::of(bytes), nodes, work, lent)
}

// A run of edits over one block. Gives the generator's state after it.
fn run(tally: &mut Tally, seed: u32, turn: usize) -> u32 {
    let made = test_generator::block(shape_of(seed, turn));
    let growing = growing_of(turn);
    let mut state = next(made.seed);
    let mut open = opened(made.bytes());
    count(tally, RUNS, 1);
    for edit in 0..EDITS {
        let asked = ask(state, growing, open.state.variables, open.state.count);
        open = try_edit(tally, open, asked, edit % 6 == 0);
        for _ in 0..5 {
            state = next(state);
        }
    }
    state
}

// Prints what was seen.
fn print_tally(tally: Tally) {
    print_counts(
        b"runs\nnodes added\nadditions refused with 1:\nadditions refused with 3:\nadditions refused with 4:\n\
        additions refused with 6:\nadditions refused with 7:\nadditions refused with 8:\n\
        additions refused with 9:\nadditions refused with 10:\nadditions refused with 11:\nnodes removed\n\
        removals refused with 10:\nremovals refused with 11:\nremovals refused with 12:\n\
        removals refused with 14:\nclear for glitches after an edit\nfull after an edit\nempty after an edit\n\
        edits whose answer and marks are compared with the second checker\nsettled marks after them\n\
        glitch marks after them\nedits that leave several settled marks\nedits that leave several glitch marks\n\
        added nodes that are marked\nadded nodes that are not\nremovals below a marked node\n\
        marked nodes that move down\nmarked nodes removed\nof those the first of several\n\
        marked nodes that a refused edit keeps\nedits compared with the second checker\ndifferences\n\
        clear blocks counted by force\nblocks whose counts differ\ncontradictions\n",
        &tally,
    );
}

fn main() {
    let mut tally = [0usize; 64];
    let mut seed = 1;
    for turn in 0..BLOCKS {
        seed = run(&mut tally, seed, turn);
    }
    print_tally(tally);
}
