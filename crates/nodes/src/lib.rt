// The families of every node in the work bytes, in file order: part 2 × i is the settled family of node i,
// and the part after it its glitch family. Writes to the work bytes that it is lent, at the parts of the nodes it works
// out and nowhere else. Used by `checker`, `edit_steps`, the queries and the derivations.
#![tactic(auto)]

ghost use Rattle.std.specs.Prelude.{◌≡◌, ◌+◌, ◌*◌, ◌<◌, ◌≤◌, cond, ◌++◌, eqb, length, drop};
ghost use Rattle.rules.specs.Records as Records;
ghost use Rattle.rules.specs.Records.{Cell};
ghost use Rattle.rules.specs.Families.{settled_rule, glitch_rule, families_rule, families};
ghost use Rattle.rules.specs.Slices.{entry, work_bytes};
ghost use Rattle.netlists.specs.Netlists.{flat_of, Ready, Placed};
ghost use Rattle.families.specs.Parts.{HasPart, family_at, with_family};
ghost use Rattle.nodes.specs.Work.{gate_by, so_far, with_families, HoldsFirst};

use families::Layer;
use netlists::{Kind, Netlist};
use rules::Node;

// Writes the family of a gate with two operands from those in two lower parts: for XOR their product, for AND and OR
// the empty set, both families and their product.
fn gate_family(work: &mut [u8], into: usize, kind: Kind, first: usize, second: usize)
    requires { HasPart work.old into × (first < into) × (second < into) }
    ensures { work.new ≡ with_family work.old into
        (gate_by kind (family_at work.old first) (family_at work.old second)) }
{
    if kind == Kind::Xor {
        family_products::multiply(work, into, first, second);
    } else {
        family_products::spread(work, into, first, second);
    }
}

// Writes the settled family of node `i`, from those of its operands.
fn settled_family(work: &mut [u8], i: usize, node: Node)
    requires { HasPart work.old (2 * i) × Placed i node }
    ensures { (cell : Cell) → node ≡ entry cell →
        work.new ≡ with_family work.old (2 * i) (settled_rule (so_far work.old i) cell) }
{
    let Ok(kind) = Kind::try_from(node.kind) else {
        unreachable!();
    };
    let into = Layer::Settled.part(i);
    let first = Layer::Settled.part(node.first as usize);
    let second = Layer::Settled.part(node.second as usize);
    match kind {
        Kind::Input => families::single(work, into, node.set as usize),
        Kind::Not | Kind::Register => families::copy(work, into, first),
        Kind::Xor | Kind::And | Kind::Or => gate_family(work, into, kind, first, second),
        Kind::End | Kind::Variable => unreachable!(),
    }
}

// Writes the glitch family of node `i`, from those of its operands; for XOR it is as for AND, and for a
// register the operand's settled family.
fn glitch_family(work: &mut [u8], i: usize, node: Node)
    requires { HasPart work.old (2 * i + 1) × Placed i node }
    ensures { (cell : Cell) → node ≡ entry cell →
        work.new ≡ with_family work.old (2 * i + 1)
        (glitch_rule (so_far work.old i) cell) }
{
    let Ok(kind) = Kind::try_from(node.kind) else {
        unreachable!();
    };
    let into = Layer::Glitch.part(i);
    let settled = Layer::Settled.part(node.first as usize);
    let glitch = Layer::Glitch.part(node.first as usize);
    let other = Layer::Glitch.part(node.second as usize);
    match kind {
        Kind::Input => families::single(work, into, node.set as usize),
        Kind::Not => {
            families::copy(work, into, glitch);
            families::insert(work, into, 0);
        }
        Kind::Register => families::copy(work, into, settled),
        Kind::Xor | Kind::And | Kind::Or => gate_family(work, into, Kind::And, glitch, other),
        Kind::End | Kind::Variable => unreachable!(),
    }
}

// Writes both families of node `i`, by the rules, from those of the nodes below it, which the work bytes hold.
pub fn node_families(work: &mut [u8], i: usize, node: Node)
    requires { (256 * i + 256 ≤ length work.old) × Placed i node }
    ensures { (cell : Cell) → node ≡ entry cell →
        work.new ≡ with_families work.old i (families_rule (so_far work.old i) cell) }
{
    settled_family(work, i, node);
    glitch_family(work, i, node);
}

// Writes the families of the nodes from number `from` on, in file order, behind those of the nodes below it, which the
// work bytes hold. The bytes beyond are as they were.
pub fn families_from(netlist: Netlist, work: &mut [u8], from: usize)
    requires { Ready netlist (length work.old) × (from ≤ netlist.count)
        × ((n : Records.Netlist) → netlist ≡ flat_of n → HoldsFirst n from work.old) }
    ensures { (n : Records.Netlist) → netlist ≡ flat_of n →
        work.new ≡ work_bytes (families n) ++ drop (length (work_bytes (families n))) work.old }
{
    for i in from..netlist.count {
        node_families(work, i, netlist.nodes[i]);
    }
}

// Writes the families of all nodes at the front of the work bytes, in file order. The bytes beyond are as they were.
pub fn all_families(netlist: Netlist, work: &mut [u8])
    requires { Ready netlist (length work.old) }
    ensures { (n : Records.Netlist) → netlist ≡ flat_of n →
        work.new ≡ work_bytes (families n) ++ drop (length (work_bytes (families n))) work.old }
{
    families_from(netlist, work, 0);
}
