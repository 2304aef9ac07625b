// The checker with two probes. `check_pairs` is over netlist bytes, both lent slices, to which it writes as `check`
// does, and a limit on pairs. `examine_pairs` is its core: it takes the number of entries in place of the node records
// and gives netlist and marks by value. Its search goes node by node, by functions that a caller may use who wants to
// show how far it is. Used by the desk, test programs and the benchmark.
#![tactic(auto)]

ghost use Rattle.std.specs.Prelude.{◌≡◌, true, false, ◌↔◌, List, ℕ, ◌+◌, ◌≤◌, length};
ghost use Rattle.rules.specs.Slices.{nodes_after, work_after, reply};
ghost use Rattle.rules.specs.Checks.{answered, and_then, admitted};
ghost use Rattle.rules.specs.Demands.{GlitchClear, NothingSuspect, OneProbe};
ghost use Rattle.rules.specs.Paper.{reply_of, finding_of};
ghost use Rattle.netlists.specs.Netlists.{flat_of, Ready, kept};
ghost use Rattle.marks.specs.Marks.{marks_of};
ghost use Rattle.checker.specs.Work.{replied, kept_netlist, kept_marks};
ghost use Rattle.pair_search.specs.Pairs.{no_pair, unless_single, pairs_reply};
ghost use Rattle.pair_search.specs.Pairs.{one_probe_reply, NoPair, NothingSuspectInPairs, TwoProbes};
ghost use Rattle.pair_search.specs.Meaning.{searched_of};
ghost use Rattle.pairs.specs.Meaning.{pairs_reply_of, pairs_replied, examined_in};
ghost use Rattle.pairs.specs.Underway.{is_done, Underway};

use checker::Examined;
use netlists::Netlist;
use pair_search::{Found, Search};
use rules::{Answer, Half, NodeRecord, Refusal};

// The answer of `check`, beside what the search over pairs found and how many pairs it looked at.
#[derive(Clone, Copy)]
pub struct PairsAnswer {
    pub answer: Answer,
    pub search: Search,
}

// What an examination with two probes gives: what `checker::examine` gives, and what the search over pairs found.
#[derive(Clone, Copy)]
pub struct ExaminedPairs {
    pub examined: Examined,
    pub search: Search,
}

// ---- the search, node by node

// How far a search over pairs is: the reply of one probe, what was found in the pairs of the nodes below `next`,
// and how many nodes there are. A refusal is a search that is done, since `begin_pairs` begins with any reply.
#[derive(Clone, Copy)]
pub struct Progress {
    pub reply: Result<Answer, Refusal>,
    pub search: Search,
    pub next: usize,
    pub nodes: usize,
}

// The search before any pair is looked at: a node that is suspect by itself, with its set, or no pair so far.
fn single_or_none(glitch: Half) -> Search
    ensures { searched_of result ≡
        unless_single (finding_of glitch) (record { found = no_pair; looked = 0 }) }
{
    match glitch {
        Half::Clear => pair_search::no_pair(0),
        Half::Suspect(node, set) => Search {
            found: Found::Single(node, set),
            looked: 0,
        },
    }
}

// The search before any pair is looked at, of what `examine` gave. A node that is suspect by itself ends it;
// on a refusal there are no nodes.
pub fn begin_pairs(examined: Result<Examined, Refusal>) -> Progress
    ensures { (bytes : List ℕ) (entries limit : ℕ) (before work : List ℕ) →
        replied examined ≡ reply bytes entries (length before) →
        kept_netlist examined ≡ flat_of (kept (admitted bytes entries (length before))) →
        work ≡ work_after bytes entries before →
        Underway bytes entries limit before (kept_netlist examined) work result }
{
    match examined {
        Err(refusal) => Progress {
            reply: Err(refusal),
            search: pair_search::no_pair(0),
            next: 0,
            nodes: 0,
        },
        Ok(examined) => Progress {
            reply: Ok(examined.answer),
            search: single_or_none(examined.answer.glitch),
            next: 0,
            nodes: examined.netlist.count,
        },
    }
}

// Whether the search is done: no node is left, or it ends with what it found.
pub fn is_done(progress: Progress) -> bool
    ensures { result ≡ is_done progress }
{
    progress.nodes <= progress.next || pair_search::is_over(progress.search)
}

// The search after the pairs of the next node. It takes the netlist and the work bytes that `examine` left,
// and a search that is not done.
pub fn further(netlist: Netlist, work: &[u8], limit: usize, progress: Progress) -> Progress
    requires { Ready netlist (length work.now) × (progress.nodes ≡ netlist.count) × (is_done progress ≡ false) }
    ensures by_index { (bytes : List ℕ) (entries : ℕ) (before : List ℕ) →
        Underway bytes entries limit before netlist work.now progress →
        Underway bytes entries limit before netlist work.now result }
    ensures next { (result.next ≡ progress.next + 1) × (result.next ≤ result.nodes) × (result.nodes ≡ progress.nodes) }
{
    let j = progress.next;
    Progress {
        search: pair_search::search_node(netlist, work, j, limit, progress.search.looked),
        next: j + 1,
        ..progress
    }
}

// The reply of one probe beside what was found so far. Once the search is done it is the reply of `check_pairs`.
pub fn reply_after(progress: Progress) -> Result<PairsAnswer, Refusal>
    ensures beside { pairs_reply_of result ≡
        and_then (reply_of progress.reply)
        (λ f. answered (record { answer = f; searched = searched_of progress.search })) }
    ensures done { (bytes : List ℕ) (entries limit : ℕ) (before : List ℕ) (netlist : Netlist) (work : List ℕ) →
        Underway bytes entries limit before netlist work progress → is_done progress ≡ true →
        pairs_reply_of result ≡ pairs_reply bytes entries (length before) limit }
{
    let answer = progress.reply?;
    Ok(PairsAnswer {
        answer,
        search: progress.search,
    })
}

// Checks netlist bytes as `check_pairs` does with a slice of `entries` node records: the same reply, and the same work
// bytes at exit. In place of node records it gives what `checker::examine` gives.
pub fn examine_pairs(
    bytes: &[u8],
    entries: usize,
    work: &mut [u8],
    limit: usize,
) -> Result<ExaminedPairs, Refusal>
    ensures reply { pairs_replied result ≡
        pairs_reply bytes.now entries (length work.old) limit }
    ensures netlist { kept_netlist (examined_in result) ≡
        flat_of (kept (admitted bytes.now entries (length work.old))) }
    ensures marks { kept_marks (examined_in result) ≡
        marks_of (kept (admitted bytes.now entries (length work.old))) }
    ensures work { work.new ≡ work_after bytes.now entries work.old }
    ensures clear { GlitchClear (one_probe_reply (pairs_replied result)) ↔
        NothingSuspect bytes.now entries (length work.old) }
    ensures probe { GlitchClear (one_probe_reply (pairs_replied result)) → OneProbe bytes.now }
    ensures pairs { NoPair (pairs_replied result) ↔
        NothingSuspectInPairs bytes.now entries (length work.old) limit }
    ensures probes { NoPair (pairs_replied result) → TwoProbes bytes.now }
{
    let examined = checker::examine(bytes, entries, work)?;
    let mut progress = begin_pairs(Ok(examined));
    while !is_done(progress) {
        progress = further(examined.netlist, work, limit, progress);
    }
    Ok(ExaminedPairs {
        examined,
        search: progress.search,
    })
}

// ---- the entry point, over the lent slice of node records

// Checks netlist bytes with one probe and then, where every single node is clear for glitches, with two:
// at most `limit` pairs of tested nodes are looked at, in their order. The slices at exit are those of `check`,
// and so is the answer. Where no pair is found, two probes on any two tested nodes see each pattern of settled values
// as often for one setting of the secrets as for another.
pub fn check_pairs(
    bytes: &[u8],
    nodes: &mut [NodeRecord],
    work: &mut [u8],
    limit: usize,
) -> Result<PairsAnswer, Refusal>
    ensures reply { pairs_reply_of result ≡
        pairs_reply bytes.now (length nodes.old) (length work.old) limit }
    ensures nodes { nodes.new ≡
        nodes_after bytes.now nodes.old (length work.old) }
    ensures work { work.new ≡
        work_after bytes.now (length nodes.old) work.old }
    ensures clear { GlitchClear (one_probe_reply (pairs_reply_of result)) ↔
        NothingSuspect bytes.now (length nodes.old) (length work.old) }
    ensures probe { GlitchClear (one_probe_reply (pairs_reply_of result)) → OneProbe bytes.now }
    ensures pairs { NoPair (pairs_reply_of result) ↔
        NothingSuspectInPairs bytes.now (length nodes.old) (length work.old) limit }
    ensures probes { NoPair (pairs_reply_of result) → TwoProbes bytes.now }
{
    let both = examine_pairs(bytes, nodes.len(), work, limit)?;
    checker::store(nodes, both.examined);
    Ok(PairsAnswer {
        answer: both.examined.answer,
        search: both.search,
    })
}
