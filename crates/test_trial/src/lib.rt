// A trial of `check`, `check_pairs`, `open` and `edit` over node records by value, of which the first are lent: what
// stands in both lent slices before, from where on it still stands there after, and one of the records. Touches nothing
// but what it is given. For the test programs and the benchmark.
#![tactic(auto)]

ghost use Rattle.std.specs.Prelude.{◌≡◌, ◌++◌, ℕ, Bool, ◌<◌, min, eqb, length, get_or, take, drop};
ghost use Rattle.rules.specs.Lists.{tabulate};
ghost use Rattle.rules.specs.Records as Records;
ghost use Rattle.rules.specs.Records.{most_nodes};
ghost use Rattle.rules.specs.Slices.{nodes_after, work_after, reply};
ghost use Rattle.rules.specs.Checks.{admitted};
ghost use Rattle.rules.specs.Paper.{reply_of};
ghost use Rattle.netlists.specs.Netlists.{kept};
ghost use Rattle.checker.specs.Work.{unwritten};
ghost use Rattle.pair_search.specs.Pairs.{pairs_reply};
ghost use Rattle.pairs.specs.Meaning.{pairs_reply_of};
ghost use Rattle.edit_rules.specs.Edits.{netlist_after, reply_after, records_after, bytes_after};
ghost use Rattle.edit_rules.specs.Meaning.{edit_of, state_of, IsOpen};
ghost use Rattle.test_trial.specs.Before.{entry_before, byte_before, is_before, kept_from};

use edit_rules::{Edit, State};
use edits::Edited;
use pairs::PairsAnswer;
use rules::{Answer, MOST_NODES, Node, NodeRecord, Refusal};

// ---- what stands in the slices before a check

// What each entry holds before a check; no node has such a record.
pub fn entry_before() -> NodeRecord
    ensures { result ≡ entry_before }
{
    NodeRecord {
        node: Node {
            kind: 9,
            first: 8,
            second: 7,
            set: 6,
        },
        settled: 5,
        glitch: 4,
    }
}

// What byte `k` holds before a check; it is never 0.
fn byte_before(k: usize) -> u8
    ensures { result ≡ byte_before k }
{
    (1 + k % 251) as u8
}

// Fills a slice with these bytes.
pub fn fill(work: &mut [u8])
    ensures { work.new ≡ tabulate byte_before (length work.old) }
{
    for (k, byte) in work.iter_mut().enumerate() {
        *byte = byte_before(k);
    }
}

fn is_before(held: NodeRecord) -> bool
    ensures { result ≡ is_before held }
{
    let node = held.node;
    // Grouped as in the definition: the proof takes the tests one by one.
    node.kind == 9
        && (node.first == 8
            && (node.second == 7 && (node.set == 6 && (held.settled == 5 && held.glitch == 4))))
}

// The lowest number from which on, up to a bound, a test holds.
fn kept_from<F: Fn(usize) -> bool>(bound: usize, same: F) -> usize
    requires { (k : ℕ) → k < bound → F.pre same k }
    ensures { (test : ℕ → Bool) →
        ((k : ℕ) (b : Bool) → k < bound → F.post same k b → b ≡ test k) →
        result ≡ kept_from test bound }
{
    let mut from = 0;
    for k in 0..bound {
        if !same(k) {
            from = k + 1;
        }
    }
    from
}

// The lowest number from which on all entries are as they were before.
pub fn entries_kept_from(nodes: [NodeRecord; MOST_NODES]) -> usize
    ensures { result ≡ kept_from (λ k. is_before (get_or nodes k entry_before)) most_nodes }
{
    kept_from(MOST_NODES, |k| is_before(nodes[k]))
}

// The lowest number from which on all work bytes are as they were before.
pub fn work_kept_from(work: &[u8]) -> usize
    ensures { result ≡
        kept_from (λ k. eqb (get_or work.now k 0) (byte_before k)) (length work.now) }
{
    kept_from(work.len(), |k| work[k] == byte_before(k))
}

// ---- a check; each call below has a contract of its own, so that a function of all four would be no plainer

// What a check with one probe or two leaves: the reply, and all entries.
#[derive(Clone, Copy)]
pub struct Seen<R: Copy> {
    pub reply: R,
    pub nodes: [NodeRecord; MOST_NODES],
}

// Checks a block over the first `entries` of 200 entries (or over all where there are not so many), which hold `nodes`.
// Gives the reply and all 200 entries at exit.
pub fn check_over(
    bytes: &[u8],
    entries: usize,
    nodes: [NodeRecord; MOST_NODES],
    work: &mut [u8],
) -> Seen<Result<Answer, Refusal>>
    ensures reply { reply_of result.reply ≡
        reply bytes.now (min entries most_nodes) (length work.old) }
    ensures nodes { result.nodes ≡
        nodes_after bytes.now (take (min entries most_nodes) nodes) (length work.old)
        ++ drop (min entries most_nodes) nodes }
    ensures work { work.new ≡
        work_after bytes.now (min entries most_nodes) work.old }
{
    let lent = entries.min(MOST_NODES);
    let mut kept = nodes;
    let reply = checker::check(bytes, &mut kept[..lent], work);
    Seen { reply, nodes: kept }
}

// The same with two probes, where at most `limit` pairs are looked at.
pub fn check_pairs_over(
    limit: usize,
    bytes: &[u8],
    entries: usize,
    nodes: [NodeRecord; MOST_NODES],
    work: &mut [u8],
) -> Seen<Result<PairsAnswer, Refusal>>
    ensures reply { pairs_reply_of result.reply ≡
        pairs_reply bytes.now (min entries most_nodes) (length work.old) limit }
    ensures nodes { result.nodes ≡
        nodes_after bytes.now (take (min entries most_nodes) nodes) (length work.old)
        ++ drop (min entries most_nodes) nodes }
    ensures work { work.new ≡
        work_after bytes.now (min entries most_nodes) work.old }
{
    let lent = entries.min(MOST_NODES);
    let mut kept = nodes;
    let reply = pairs::check_pairs(bytes, &mut kept[..lent], work, limit);
    Seen { reply, nodes: kept }
}

// ---- an open block

// What opening a block or an edit of it leaves: what the call gives, and all entries. Callers read its field `edited`.
#[derive(Clone, Copy)]
pub struct SeenEdit {
    pub edited: Edited,
    pub nodes: [NodeRecord; MOST_NODES],
}

// Opens a block over the first `entries` of 200 entries (or over all where there are not so many), which hold `nodes`.
pub fn open_over(
    bytes: &[u8],
    entries: usize,
    nodes: [NodeRecord; MOST_NODES],
    work: &mut [u8],
) -> SeenEdit
    ensures reply { reply_of result.edited.reply ≡
        reply bytes.now (min entries most_nodes) (length work.old) }
    ensures state { result.edited.state ≡
        state_of (kept (admitted bytes.now (min entries most_nodes) (length work.old))) }
    ensures nodes { result.nodes ≡
        nodes_after bytes.now (take (min entries most_nodes) nodes) (length work.old)
        ++ drop (min entries most_nodes) nodes }
    ensures work { work.new ≡
        work_after bytes.now (min entries most_nodes) work.old }
{
    let lent = entries.min(MOST_NODES);
    let mut kept = nodes;
    let edited = edits::open(bytes, &mut kept[..lent], work);
    SeenEdit {
        edited,
        nodes: kept,
    }
}

// Edits an open block over the same. Where the lent entries and `work` hold its node records and families, the reply,
// the state, the lent entries and `work` are then as `edits::edit` gives them, and the entries behind stay as they
// were.
pub fn edit_over(
    state: State,
    edit: Edit,
    bytes: &[u8],
    entries: usize,
    nodes: [NodeRecord; MOST_NODES],
    work: &mut [u8],
) -> SeenEdit
    ensures reply { (n : Records.Netlist) →
        IsOpen n state (take (min entries most_nodes) nodes) work.old →
        reply_of result.edited.reply ≡
        reply_after n (edit_of edit bytes.now) (min entries most_nodes) (length work.old) }
    ensures state { (n : Records.Netlist) →
        IsOpen n state (take (min entries most_nodes) nodes) work.old →
        result.edited.state ≡
        state_of (netlist_after n (edit_of edit bytes.now) (min entries most_nodes) (length work.old)) }
    ensures nodes { (n : Records.Netlist) →
        IsOpen n state (take (min entries most_nodes) nodes) work.old →
        result.nodes ≡
        records_after n (edit_of edit bytes.now) (take (min entries most_nodes) nodes) (length work.old)
        ++ drop (min entries most_nodes) nodes }
    ensures work { (n : Records.Netlist) →
        IsOpen n state (take (min entries most_nodes) nodes) work.old →
        work.new ≡ bytes_after n (edit_of edit bytes.now) (min entries most_nodes) work.old }
{
    let lent = entries.min(MOST_NODES);
    let mut kept = nodes;
    let edited = edits::edit(state, edit, bytes, &mut kept[..lent], work);
    SeenEdit {
        edited,
        nodes: kept,
    }
}

// ---- one record

// The record at one of the entries that a check leaves.
pub fn entry_at(nodes: [NodeRecord; MOST_NODES], i: usize) -> NodeRecord
    requires { i < most_nodes }
    ensures { result ≡ get_or nodes i unwritten }
{
    nodes[i]
}
