// One step of a derivation: the first rule that works for a set of a node's family, what it needs of the operands, and
// the step's five bytes. Reads work bytes that hold the families, and writes to the slice of steps that it is given.
// Used by `derivations` and the desk.
#![tactic(auto)]

ghost use Rattle.std.specs.Prelude.{◌≡◌, true, false, ℕ, [], ◌∷◌, ◌+◌, ◌*◌, ◌<◌, ◌≤◌, length, MatchOption};
ghost use Rattle.netlists.specs.Netlists.{Placed};
ghost use Rattle.rules.specs.Records.{NOT, XOR, Cell, gate, most_nodes, most_sets};
ghost use Rattle.rules.specs.Checks.{most_work};
ghost use Rattle.rules.specs.Slices.{entry};
ghost use Rattle.listing_lines.specs.Text.{Appended};
ghost use Rattle.nodes.specs.Work.{so_far};
ghost use Rattle.derivation_rules.specs.Derivations.{step, step_bytes, step_size, spreading, claim, claimed};
ghost use Rattle.derivation_rules.specs.Derivations.{way, needed, first_made, chosen};
ghost use Rattle.derivation_steps.specs.Meaning.{layer_meant, claim_of, way_of, works_of, InRange};

use families::{Layer, SETS};
use netlists::Kind;
use rules::Node;

// How many bytes a step has.
pub const STEP: usize = 5;

// The claim that a set is in a node's family in a layer.
#[derive(Clone, Copy)]
pub struct Claim {
    pub node: usize,
    pub layer: Layer,
    pub set: usize,
}

// A rule, and what it needs of the operands, in operand order.
#[derive(Clone, Copy)]
pub enum Way {
    // Rule 1, an input's own set.
    Own,
    // Rule 2, the set of the one operand.
    Operand(Claim),
    // Rule 3, the empty set.
    Empty,
    // Rule 4, the set of the first operand alone.
    First(Claim),
    // Rule 5, the set of the second operand alone.
    Second(Claim),
    // Rule 6, a set of each operand.
    Both(Claim, Claim),
}

impl Way {
    // The number of the rule.
    pub fn rule(self) -> u8
        ensures { result ≡ (way_of self).rule }
    {
        match self {
            Way::Own => 1,
            Way::Operand(_) => 2,
            Way::Empty => 3,
            Way::First(_) => 4,
            Way::Second(_) => 5,
            Way::Both(_, _) => 6,
        }
    }
}

// Whether a claim is true, by work bytes that hold the families.
pub fn has(work: &[u8], claim: Claim) -> bool
    requires { (most_work ≤ length work.now) × (claim.node < most_nodes) × (claim.set < most_sets) }
    ensures { result ≡ claimed (so_far work.now most_nodes) (claim_of claim) }
{
    families::holds(work, claim.layer.part(claim.node), claim.set)
}

// A gate of two operands, the layer of their families, a set of the gate, and work bytes that hold the families.
#[derive(Clone, Copy)]
struct Gate<'a> {
    work: &'a [u8],
    layer: Layer,
    first: usize,
    second: usize,
    set: usize,
    ghost in_range: { InRange work.now first second set },
}

impl Gate<'_> {
    // The claim that the first operand has a set.
    fn of_first(self, set: usize) -> Claim
        ensures { claim_of result ≡ claim self.entry.first (layer_meant self.entry.layer) set }
    {
        Claim {
            node: self.first,
            layer: self.layer,
            set,
        }
    }

    // The claim that the second operand has a set.
    fn of_second(self, set: usize) -> Claim
        ensures { claim_of result ≡ claim self.entry.second (layer_meant self.entry.layer) set }
    {
        Claim {
            node: self.second,
            layer: self.layer,
            set,
        }
    }

    // Whether `candidate` works in rule 6: it is in the first operand's family, and its symmetric difference
    // with the set in the second one's.
    fn works(self, candidate: usize) -> bool
        requires { candidate < most_sets }
        ensures { result ≡ works_of self.entry.work.now (layer_meant self.entry.layer)
            self.entry.first self.entry.second self.entry.set candidate }
    {
        has(self.work, self.of_first(candidate))
            && has(self.work, self.of_second(self.set ^ candidate))
    }

    // The lowest-numbered set of the first operand that works in rule 6.
    fn lowest(self) -> Option<usize>
        ensures { let works = works_of self.entry.work.now (layer_meant self.entry.layer)
            self.entry.first self.entry.second self.entry.set in
            MatchOption result ((B : ℕ) → B < most_sets → works B ≡ false)
            (λ A. (A < most_sets) × (works A ≡ true) × ((B : ℕ) → B < A → works B ≡ false)) }
    {
        (0..SETS).find(|candidate| self.works(*candidate))
    }

    // The way by rule 6: both operands, with the first one's lowest-numbered set that works. The clause speaks of sets
    // too that no set works for: there `SETS`, the number of none, stands for it, as in the definition `lowest_set`.
    fn both(self) -> Way
        ensures { way_of result ≡ way 6 (needed (so_far self.entry.work.now most_nodes) (layer_meant self.entry.layer)
            (self.entry.first ∷ self.entry.second ∷ []) self.entry.set) }
    {
        let lowest = self.lowest().unwrap_or(SETS);
        Way::Both(self.of_first(lowest), self.of_second(self.set ^ lowest))
    }

    // The way for AND and OR, and for XOR in the glitch layer: the first of rules 3 to 6 that works.
    fn spread(self) -> Way
        ensures { way_of result ≡ first_made (so_far self.entry.work.now most_nodes) (layer_meant self.entry.layer)
            (self.entry.first ∷ self.entry.second ∷ []) spreading self.entry.set }
    {
        let first = self.of_first(self.set);
        let second = self.of_second(self.set);
        if self.set == 0 {
            Way::Empty
        } else if has(self.work, first) {
            Way::First(first)
        } else if has(self.work, second) {
            Way::Second(second)
        } else {
            self.both()
        }
    }

    // The way for XOR: rule 6 in the settled layer, and in the glitch layer as for AND.
    fn xor(self) -> Way
        ensures { way_of result ≡ chosen (so_far self.entry.work.now most_nodes) (layer_meant self.entry.layer)
            (gate XOR (self.entry.first, (self.entry.second, tt))) self.entry.set }
    {
        match self.layer {
            Layer::Settled => self.both(),
            Layer::Glitch => self.spread(),
        }
    }
}

// The way for NOT, of whose operand this is the claim: rule 2, the operand's set; else, in the glitch layer, rule 3.
fn way_of_not(work: &[u8], operand: Claim) -> Way
    requires { (most_work ≤ length work.now) × (operand.node < most_nodes) × (operand.set < most_sets) }
    ensures { way_of result ≡ chosen (so_far work.now most_nodes) (layer_meant operand.layer)
        (gate NOT (operand.node, tt)) operand.set }
{
    match operand.layer {
        Layer::Settled => Way::Operand(operand),
        Layer::Glitch if has(work, operand) => Way::Operand(operand),
        Layer::Glitch => Way::Empty,
    }
}

// The first rule that works for a set of a node's family in a layer, in the order of request A5, and what it needs
// of the operands, whose families the work bytes hold. What a set of the family needs is true (`needs_held` of
// `derivation_rules/proofs/Derivation`). A kind that is no node's is taken as AND's.
pub fn choose(work: &[u8], node: Node, layer: Layer, set: usize) -> Way
    requires { (most_work ≤ length work.now) × Placed most_nodes node × (set < most_sets) }
    ensures { (cell : Cell) → node ≡ entry cell →
        way_of result ≡ chosen (so_far work.now most_nodes) (layer_meant layer) cell set }
{
    let operand = Claim {
        node: node.first as usize,
        layer,
        set,
    };
    let gate = Gate {
        work,
        layer,
        first: node.first as usize,
        second: node.second as usize,
        set,
    };
    let Ok(kind) = Kind::try_from(node.kind) else {
        return gate.spread();
    };
    match kind {
        Kind::Input => Way::Own,
        Kind::Not => way_of_not(work, operand),
        Kind::Xor => gate.xor(),
        Kind::Register => Way::Operand(Claim {
            layer: Layer::Settled,
            ..operand
        }),
        Kind::And | Kind::Or | Kind::End | Kind::Variable => gate.spread(),
    }
}

// Writes a step behind the first `at` steps of a slice: five bytes, node, layer, rule, set low byte first.
// All other bytes are as they were.
pub fn put_step(steps: &mut [u8], at: usize, claim: Claim, rule: u8)
    requires { (step_size * at + step_size ≤ length steps.old)
        × (claim.node < most_nodes) × (claim.set < most_sets) }
    ensures { Appended steps.old steps.new (step_size * at) (step_size * (at + 1))
        (step_bytes (step claim.node (layer_meant claim.layer) rule claim.set)) }
{
    let [low, high] = (claim.set as u16).to_le_bytes();
    let step = [claim.node as u8, claim.layer as u8, rule, low, high];
    steps[STEP * at..STEP * at + STEP].copy_from_slice(&step);
}
