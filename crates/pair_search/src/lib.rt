// The search over the pairs of tested nodes, under a limit. A pair is suspect if the product of its two glitch families
// holds a suspect set; the pairs are looked at in their order, by the higher node and then by the lower, and counted.
// Reads the work bytes and writes to no lent slice. Used by `pairs`, and for its types by the desk, test programs and
// the benchmark.
#![tactic(auto)]

ghost use Rattle.std.specs.Prelude.{◌≡◌, cond, List, [], ◌∷◌, ◌+◌, ◌*◌, ◌<◌, length};
ghost use Rattle.rules.specs.Records as Records;
ghost use Rattle.rules.specs.Records.{Class};
ghost use Rattle.netlists.specs.Netlists.{flat_of, Ready};
ghost use Rattle.families.specs.Parts.{HasPart};
ghost use Rattle.suspect_sets.specs.Sets.{ByClass};
ghost use Rattle.pair_search.specs.Pairs.{row, no_pair, search_from};
ghost use Rattle.pair_search.specs.Meaning.{searched_of};
ghost use Rattle.pair_search.specs.Work.{report_between, report_in, over};

use families::Layer;
use netlists::Netlist;
use suspect_sets::Classes;

// What a search over pairs goes by: which variables are secrets and which are masks, and the limit on pairs.
#[derive(Clone, Copy)]
pub struct Terms {
    pub classes: Classes,
    pub limit: usize,
}

// What a search over pairs finds.
#[derive(Clone, Copy, PartialEq, Eq)]
pub enum Found {
    // A node that is suspect by itself, and its set; no pair is looked at.
    Single(usize, usize),
    // Every pair is clear.
    NoPair,
    // The first suspect pair, the lower node before the higher, and its set.
    Pair(usize, usize, usize),
    // As many pairs as the limit allows are clear, and more remain.
    Spent,
}

// What was found, and how many pairs were looked at: up to the pair that was found, its position.
#[derive(Clone, Copy, PartialEq, Eq)]
pub struct Search {
    pub found: Found,
    pub looked: usize,
}

// The state of a search after `looked` pairs, all of them clear.
pub fn no_pair(looked: usize) -> Search
    ensures { searched_of result ≡ record { found = no_pair; looked = looked } }
{
    Search {
        found: Found::NoPair,
        looked,
    }
}

// Looks at the pair of node `i` of one block and node `j` of another, or of the same, by the work bytes of each, after
// `looked` pairs that were clear. Where they are not both tested (`both`) it is no pair, and where the limit is spent
// it is not looked at. `both` is a flag beside `i` and `j`, and no Option of them: no caller has to test first.
pub fn look(
    first: &[u8],
    i: usize,
    second: &[u8],
    j: usize,
    both: bool,
    terms: Terms,
    looked: usize,
) -> Search
    requires { HasPart first.now (2 * i + 1) × HasPart second.now (2 * j + 1) }
    ensures { (variables : List Class) → ByClass terms.classes variables →
        searched_of result ≡ search_from (report_between variables first.now second.now) terms.limit
        looked (cond both (record { i = i; j = j } ∷ []) []) }
{
    if !both {
        return no_pair(looked);
    }
    if looked >= terms.limit {
        return Search {
            found: Found::Spent,
            looked,
        };
    }
    let p = Layer::Glitch.part(i);
    let q = Layer::Glitch.part(j);
    match pair_tests::pair_set(first, p, second, q, terms.classes) {
        Some(set) => Search {
            found: Found::Pair(i, j, set),
            looked: looked + 1,
        },
        None => no_pair(looked + 1),
    }
}

// Whether a search ends with what it found: a single suspect, a pair, or the limit spent.
pub fn is_over(search: Search) -> bool
    ensures { result ≡ over (searched_of search).found }
{
    search.found != Found::NoPair
}

// Goes on with the pairs of node `j` and each lower node, after `looked` pairs that were clear, until one
// is suspect or the limit is spent. The netlist and the work bytes are those that `checker::examine` left; secrets and
// masks are read from the classes.
pub fn search_node(netlist: Netlist, work: &[u8], j: usize, limit: usize, looked: usize) -> Search
    requires { Ready netlist (length work.now) × (j < netlist.count) }
    ensures { (n : Records.Netlist) → netlist ≡ flat_of n →
        searched_of result ≡ search_from (report_in n.variables work.now) limit looked (row n j j) }
{
    let mut so_far = no_pair(looked);
    if !suspect_sets::is_tested(netlist.nodes[j].kind) {
        return so_far;
    }
    let terms = Terms {
        classes: suspect_sets::classes_of(netlist),
        limit,
    };
    for i in 0..j {
        let both = suspect_sets::is_tested(netlist.nodes[i].kind);
        so_far = look(work, i, work, j, both, terms, so_far.looked);
        if is_over(so_far) {
            break;
        }
    }
    so_far
}
