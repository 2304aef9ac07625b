// The listing: `telgouin_listing` checks netlist bytes and writes the text to the lent slice, the only
// thing that is written to; `listing_of` makes the text of a block whose answer and families are at hand.
// The lines are those of `listing_lines`. For the programs `listing` and `telgouin`, by way of `desk`, and, by
// `listing_text_c`, for callers in C and Rust.
#![tactic(auto)]

ghost use Rattle.std.specs.Prelude.{◌≡◌, ◌↔◌, IsTrue, List, ◌++◌, ℕ, ◌+◌, ◌*◌, ◌≤◌, length};
ghost use Rattle.rules.specs.Records as Records;
ghost use Rattle.rules.specs.Records.{WellFormed, most_variables, most_nodes};
ghost use Rattle.rules.specs.Families.{families, findings};
ghost use Rattle.rules.specs.Slices.{work_bytes};
ghost use Rattle.rules.specs.Listing.{node_lines, netlist_text, listing, shown, most_line, most_text};
ghost use Rattle.rules.specs.Paper.{finding_of, findings_of};
ghost use Rattle.netlists.specs.Netlists.{flat_of};
ghost use Rattle.listing_lines.specs.Text.{Room, Appended, Short};

use families::Layer;
use listing_lines::{put_counts, put_halves, put_node, put_refusal};
use netlists::Netlist;
use rules::{Answer, Half, MOST_NODES, MOST_VARIABLES, MOST_WORK, Refusal};

// How many bytes have room for every listing: 203 lines of at most 18 bytes, or one refusal.
pub const MOST_TEXT: usize = 18 * (MOST_NODES + 3);

// ---- a block whose answer and families are at hand

// The lines of all nodes, whose families are in the work bytes.
fn put_nodes(text: &mut [u8], at: usize, netlist: Netlist, work: &[u8]) -> usize
    requires { Room text.old at (most_line * netlist.count) × (netlist.count ≤ most_nodes)
        × (256 * netlist.count ≤ length work.now) }
    ensures appended { (n : Records.Netlist) (rest : List ℕ) → WellFormed n → netlist ≡ flat_of n →
        work.now ≡ work_bytes (families n) ++ rest →
        Appended text.old text.new at result (node_lines 0 n.nodes (families n)) }
    ensures few { result ≤ at + most_line * netlist.count }
{
    let mut end = at;
    for (i, node) in netlist.nodes[..netlist.count].iter().enumerate() {
        let settled = families::size(work, Layer::Settled.part(i));
        let glitch = families::size(work, Layer::Glitch.part(i));
        end = put_node(text, end, i, node.kind, settled, glitch);
    }
    end
}

// The text of a block: its counts, its nodes and both halves of its answer.
fn put_answer(text: &mut [u8], netlist: Netlist, work: &[u8], settled: Half, glitch: Half) -> usize
    requires { Room text.old 0 most_text × (netlist.variables ≤ most_variables) × (netlist.count ≤ most_nodes)
        × (256 * netlist.count ≤ length work.now) × Short settled × Short glitch }
    ensures appended { (n : Records.Netlist) (rest : List ℕ) → WellFormed n → netlist ≡ flat_of n →
        finding_of settled ≡ (findings n).settled → finding_of glitch ≡ (findings n).glitch →
        work.now ≡ work_bytes (families n) ++ rest →
        Appended text.old text.new 0 result (netlist_text n) }
    ensures most { result ≤ length text.old }
{
    let lines = put_counts(text, netlist.variables, netlist.count);
    let halves = put_nodes(text, lines, netlist, work);
    put_halves(text, halves, settled, glitch)
}

// Whether a half names a node and a set that there may be.
fn is_short(half: Half) -> bool
    ensures { IsTrue result ↔ Short half }
{
    match half {
        Half::Clear => true,
        Half::Suspect(node, set) => node < MOST_NODES && set < families::SETS,
    }
}

// Whether the numbers are such that each line has at most 18 bytes, as those of every block are.
fn fits(netlist: Netlist, settled: Half, glitch: Half) -> bool
    ensures { IsTrue result ↔ ((netlist.variables ≤ most_variables) × (netlist.count ≤ most_nodes)
        × Short settled × Short glitch) }
{
    netlist.variables <= MOST_VARIABLES
        && netlist.count <= MOST_NODES
        && is_short(settled)
        && is_short(glitch)
}

// The listing of a block whose answer is at hand, and whose families are in the work bytes:
// writes the text to the front of `text` and returns how many bytes it has. Where the numbers are those of no
// block there is no text, and 0 bytes.
pub fn listing_of(
    answer: Answer,
    netlist: Netlist,
    work: &[u8; MOST_WORK],
    text: &mut [u8; MOST_TEXT],
) -> usize
    ensures appended { (n : Records.Netlist) (rest : List ℕ) → WellFormed n → netlist ≡ flat_of n →
        findings_of answer ≡ findings n →
        work.now ≡ work_bytes (families n) ++ rest →
        Appended text.old text.new 0 result (netlist_text n) }
    ensures most { result ≤ most_text }
{
    if !fits(netlist, answer.settled, answer.glitch) {
        return 0;
    }
    put_answer(text, netlist, work, answer.settled, answer.glitch)
}

// ---- netlist bytes

// The whole text of netlist bytes: their listing, or their refusal.
fn put_listing(text: &mut [u8; MOST_TEXT], bytes: &[u8]) -> usize
    ensures { Appended text.old text.new 0 result (listing bytes.now) }
{
    let mut work = [0u8; MOST_WORK];
    match checker::examine(bytes, MOST_NODES, &mut work) {
        Err(refusal) => put_refusal(text, refusal),
        Ok(examined) => listing_of(examined.answer, examined.netlist, &work, text),
    }
}

// The listing of netlist bytes: checks them and writes the listing's text to the front of `text`.
// Returns how many bytes the text has; a slice that is too short for it keeps its contents.
// `MOST_TEXT` bytes are enough for every listing.
pub fn telgouin_listing(bytes: &[u8], text: &mut [u8]) -> usize
    ensures size { result ≡ length (listing bytes.now) }
    ensures most { result ≤ most_text }
    ensures text { text.new ≡ shown (listing bytes.now) text.old }
{
    let mut whole = [0u8; MOST_TEXT];
    let count = put_listing(&mut whole, bytes);
    if count <= text.len() {
        text[..count].copy_from_slice(&whole[..count]);
    }
    count
}
