// Change request A5: how a set got into a node's family, as steps of five bytes: `derive` of netlist bytes,
// `derive_held` of a netlist whose families are at hand. Explaining a node's set explains those of its
// operands that its rule needs, and each of them in turn; the steps go into an array of this crate's own,
// which has room for as many as there may be, and from there to the lent slice, the only thing that is written to.
// For `desk`, and for callers of the library.
#![tactic(auto)]

ghost use Rattle.std.specs.Prelude.{◌≡◌, true, false, List, ℕ, ◌*◌, ◌<◌, ◌≤◌, length, MatchOption};
ghost use Rattle.rules.specs.Records as Records;
ghost use Rattle.rules.specs.Records.{most_sets};
ghost use Rattle.rules.specs.Checks.{answered};
ghost use Rattle.netlists.specs.Netlists.{flat_of, Formed};
ghost use Rattle.derivation_rules.specs.Derivations.{step_size, derivation, explained, claim, layer_of, in_family};
ghost use Rattle.derivation_rules.specs.Derivations.{most_steps, fitting, steps_reply, steps_after, Certificate};
ghost use Rattle.derivation_steps.specs.Meaning.{layer_meant, claim_of, way_of};
ghost use Rattle.derivations.specs.Meaning.{derived_of};
ghost use Rattle.derivations.specs.Written.{Known, Held, HeldEach, Written, derivable_in, Told, ReadAs, Derives};

use derivation_steps::{Claim, STEP, Way};
use families::Layer;
use netlists::Netlist;
use rules::{MOST_WORK, Reason, Refusal};

// The most steps that a derivation has.
pub const MOST_STEPS: usize = 512;

// How many bytes have room for every derivation.
pub const MOST_BYTES: usize = STEP * MOST_STEPS;

// Explains a claim: the first rule that works is its step, and then its operands are explained. There are `at` steps so
// far, and room for `room`; the reply is how many there are then, if they fit.
// No struct of netlist and work bytes: `Known` has a list, and a ghost field takes only a fact that has one proof.
#[cycle(explain_cell_explain_operands)]
fn explain_cell(
    netlist: Netlist,
    work: &[u8],
    claim: Claim,
    steps: &mut [u8],
    at: usize,
    room: usize,
) -> Option<usize>
    requires { Known netlist work.now × Held netlist netlist.count claim ×
        (step_size * room ≤ length steps.old) × (room ≤ most_steps) }
    ensures { (n : Records.Netlist) → netlist ≡ flat_of n →
        Written steps.old steps.new at room result (derivation n claim.node (layer_meant claim.layer) claim.set) }
{
    if room <= at {
        return None;
    }
    let way = derivation_steps::choose(work, netlist.nodes[claim.node], claim.layer, claim.set);
    derivation_steps::put_step(steps, at, claim, way.rule());
    explain_operands(netlist, work, way, steps, at + 1, room)
}

// Explains what a step needs of the operands, the first one's claim first.
#[cycle(explain_cell_explain_operands)]
fn explain_operands(
    netlist: Netlist,
    work: &[u8],
    way: Way,
    steps: &mut [u8],
    at: usize,
    room: usize,
) -> Option<usize>
    requires { Known netlist work.now × HeldEach netlist netlist.count way × (at ≤ room) ×
        (step_size * room ≤ length steps.old) × (room ≤ most_steps) }
    ensures { (n : Records.Netlist) → netlist ≡ flat_of n →
        Written steps.old steps.new at room result (explained (derivation n) (way_of way).needs) }
{
    match way {
        Way::Own | Way::Empty => Some(at),
        Way::Operand(only) | Way::First(only) | Way::Second(only) => {
            explain_cell(netlist, work, only, steps, at, room)
        }
        Way::Both(first, second) => {
            let next = explain_cell(netlist, work, first, steps, at, room)?;
            explain_cell(netlist, work, second, steps, next, room)
        }
    }
}

// How many steps a slice of so many bytes takes: whole ones, and no more than there may be.
fn fitting(bytes: usize) -> usize
    ensures { result ≡ fitting bytes }
{
    (bytes / STEP).min(MOST_STEPS)
}

// The claim that a set is in the family of a node in a layer, if it is, by work bytes that hold the families: no layer
// above 1 has any.
fn in_family(netlist: Netlist, work: &[u8], node: usize, layer: usize, set: usize) -> Option<Claim>
    requires { Known netlist work.now × (node < netlist.count) × (set < most_sets) }
    ensures { (n : Records.Netlist) → netlist ≡ flat_of n →
        MatchOption result (in_family n node layer set ≡ false)
        (λ found. (in_family n node layer set ≡ true) × (claim_of found ≡ claim node (layer_of layer) set)) }
{
    let Ok(layer) = Layer::try_from(layer) else {
        return None;
    };
    let claim = Claim { node, layer, set };
    derivation_steps::has(work, claim).then_some(claim)
}

// Explains a set of a node's family in a slice that has room for so many steps: refusals 12 and 13 of its node and its
// set, then 16, and last 15. The steps of a refusal may stand there, as many as fit.
fn explain(
    netlist: Netlist,
    work: &[u8],
    node: usize,
    layer: usize,
    set: usize,
    steps: &mut [u8],
    room: usize,
) -> Result<usize, Refusal>
    requires { Known netlist work.now × (step_size * room ≤ length steps.old) × (room ≤ most_steps) }
    ensures { (n : Records.Netlist) → netlist ≡ flat_of n →
        Told (derivable_in n node layer set room) node layer set room result steps.new }
{
    query_netlists::judge(netlist, node, set)?;
    let claim = in_family(netlist, work, node, layer, set).ok_or(Reason::NotInFamily.at(set))?;
    explain_cell(netlist, work, claim, steps, 0, room).ok_or(Reason::TooManySteps.at(room))
}

// What `derive` does, for whoever holds the netlist with its families: `work` has room for every netlist
// and begins with the families of this one. What is promised is what `derive` promises of all netlist bytes
// that are read as this netlist.
pub fn derive_held(
    netlist: Netlist,
    work: &[u8],
    node: usize,
    layer: usize,
    set: usize,
    steps: &mut [u8],
) -> Result<usize, Refusal>
    requires { Known netlist work.now }
    ensures reply { (bytes : List ℕ) → ReadAs netlist bytes →
        derived_of result ≡ steps_reply bytes node layer set (length steps.old) }
    ensures steps { (bytes : List ℕ) → ReadAs netlist bytes →
        steps.new ≡ steps_after bytes node layer set steps.old }
    ensures follows { (bytes : List ℕ) → ReadAs netlist bytes → (count : ℕ) → derived_of result ≡ answered count →
        Certificate bytes node layer set count steps.new }
    ensures most { (count : ℕ) → derived_of result ≡ answered count → count ≤ most_steps }
{
    let mut found = [0u8; MOST_BYTES];
    let room = fitting(steps.len());
    let count = explain(netlist, work, node, layer, set, &mut found, room)?;
    let end = STEP * count;
    steps[..end].copy_from_slice(&found[..end]);
    Ok(count)
}

// What `derive` does once the netlist is read: its families go into work bytes of this function's own. A function
// apart, since behind the `?` in `derive` the work bytes are cleared twice, and a short query takes a third longer.
fn derive_read(
    netlist: Netlist,
    node: usize,
    layer: usize,
    set: usize,
    steps: &mut [u8],
) -> Result<usize, Refusal>
    requires { Formed netlist }
    ensures { Derives netlist node layer set steps.old steps.new result }
{
    let mut work = [0u8; MOST_WORK];
    nodes::all_families(netlist, &mut work);
    derive_held(netlist, &work, node, layer, set, steps)
}

// Writes the derivation of a set in the family of a node in a layer, 0 for settled signals and 1 for glitching ones,
// to the front of `steps`, five bytes a step. Replies with the number of steps; a refusal leaves the slice as it was.
// `MOST_BYTES` bytes are enough for every derivation that is not refused. No family is worked out
// for a query that is refused.
pub fn derive(
    bytes: &[u8],
    node: usize,
    layer: usize,
    set: usize,
    steps: &mut [u8],
) -> Result<usize, Refusal>
    ensures reply { derived_of result ≡
        steps_reply bytes.now node layer set (length steps.old) }
    ensures steps { steps.new ≡ steps_after bytes.now node layer set steps.old }
    ensures follows { (count : ℕ) → derived_of result ≡ answered count →
        Certificate bytes.now node layer set count steps.new }
    ensures most { (count : ℕ) → derived_of result ≡ answered count → count ≤ most_steps }
{
    let netlist = query_netlists::ask_with(bytes, node, set)?;
    derive_read(netlist, node, layer, set, steps)
}
