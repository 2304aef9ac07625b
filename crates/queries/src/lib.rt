// The three queries, over netlist bytes: the settled value of a node under an assignment, its feeding points, and
// whether a set is in each of its two families. Each reads the netlist bytes, writes to no lent slice and replies to
// all input. A reply has the outcome and a value beside it, no `Result` of the value: by document 01 "A refused query
// gives value 0 and every mark and membership no". Used by the desk, by test programs and by the library's callers.
#![tactic(auto)]

ghost use Rattle.std.specs.Prelude.{◌≡◌, ◌<◌};
ghost use Rattle.rules.specs.Lists.{member};
ghost use Rattle.rules.specs.Records as Records;
ghost use Rattle.rules.specs.Records.{most_sets};
ghost use Rattle.rules.specs.Families.{families_at};
ghost use Rattle.rules.specs.Queries.{value_query, feeding_query, membership_query};
ghost use Rattle.rules.specs.Paper.{value_of, feeding_of, membership_of};
ghost use Rattle.netlists.specs.Netlists.{flat_of, Formed};

use families::Layer;
use netlists::Netlist;
use rules::{FeedingReply, MOST_NODES, MOST_WORK, MembershipReply, ValueReply};

// ---- the settled value

// The settled value of a node under an assignment, which is numbered as sets are. Refused, it is 0.
pub fn settled_value(bytes: &[u8], node: usize, assignment: usize) -> ValueReply
    ensures { value_of result ≡ value_query bytes.now node assignment }
{
    match query_netlists::ask_with(bytes, node, assignment) {
        Ok(netlist) => ValueReply {
            outcome: Ok(()),
            value: node_values::settled_values(netlist, assignment)[node],
        },
        Err(refusal) => ValueReply {
            outcome: Err(refusal),
            value: false,
        },
    }
}

// ---- feeding points

// The feeding points of a node, as marks by node number. Refused, every mark is no.
pub fn feeding_points(bytes: &[u8], node: usize) -> FeedingReply
    ensures { feeding_of result ≡ feeding_query bytes.now node }
{
    match query_netlists::ask(bytes, node) {
        Ok(netlist) => FeedingReply {
            outcome: Ok(()),
            marks: node_values::feeding_marks(netlist, node),
        },
        Err(refusal) => FeedingReply {
            outcome: Err(refusal),
            marks: [false; MOST_NODES],
        },
    }
}

// ---- membership

// Whether a set is in each family of a node, worked out in work bytes of its own from a netlist that was read.
fn in_families(netlist: Netlist, node: usize, set: usize) -> MembershipReply
    requires { Formed netlist × (node < netlist.count) × (set < most_sets) }
    ensures { (n : Records.Netlist) → netlist ≡ flat_of n → (result.outcome ≡ Ok tt)
        × (result.settled ≡ member set (families_at n node).settled)
        × (result.glitch ≡ member set (families_at n node).glitch) }
{
    let mut work = [0u8; MOST_WORK];
    nodes::all_families(netlist, &mut work);
    let settled = families::holds(&work, Layer::Settled.part(node), set);
    let glitch = families::holds(&work, Layer::Glitch.part(node), set);
    MembershipReply {
        outcome: Ok(()),
        settled,
        glitch,
    }
}

// Whether a set is in the settled family of a node, and whether it is in its glitch family. Refused, both are no.
pub fn memberships(bytes: &[u8], node: usize, set: usize) -> MembershipReply
    ensures { membership_of result ≡ membership_query bytes.now node set }
{
    match query_netlists::ask_with(bytes, node, set) {
        Ok(netlist) => in_families(netlist, node, set),
        Err(refusal) => MembershipReply {
            outcome: Err(refusal),
            settled: false,
            glitch: false,
        },
    }
}
