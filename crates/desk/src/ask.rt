// `list`, and the three queries.
ghost use Rattle.std.specs.Prelude.{◌≡◌, ◌≤◌, List, ℕ};
ghost use Rattle.std.specs.Fn.{FnOnceReturnsAtMut};
ghost use Rattle.rules.specs.Queries.{value_query, feeding_query, membership_query};
ghost use Rattle.rules.specs.Listing.{most_text};
ghost use Rattle.rules.specs.Paper.{query_of};

use crate::say::{say, say_text};
use desk_text::ROOM;
use netlists::Netlist;
use rules::{Answer, MOST_WORK, Refusal};

// Prints document 01's listing of a block whose answer is at hand, and whose families are in the work bytes.
pub fn list_held(answer: Answer, netlist: Netlist, work: &[u8; MOST_WORK]) {
    say_text(|text| listing_text::listing_of(answer, netlist, work, text));
}

// Prints the line of a query that is answered with the text that `put` puts; of one that is refused nothing.
fn say_answered<F: FnOnce(&mut [u8; ROOM]) -> usize + Drop>(outcome: Result<(), Refusal>, put: F)
    requires can { F.IsAlwaysCallable put }
    requires few { (before : List ℕ) (count : ℕ) (after : List ℕ) →
        FnOnceReturnsAtMut F.FnOnce put before count after → count ≤ most_text }
{
    if let Ok(()) = outcome {
        say_text(put);
        say(b"\n");
    }
}

// Prints the settled value of a node under an assignment. A refusal is left to the caller to print, who knows the lines
// of the block's text; so it is by the two below.
pub fn value(bytes: &[u8], node: usize, assignment: usize) -> Result<(), Refusal>
    ensures { query_of result ≡ (value_query bytes.now node assignment).outcome }
{
    let reply = queries::settled_value(bytes, node, assignment);
    say_answered(
        reply.outcome,
        |text| desk_text::value_fields(text, reply.value),
    );
    reply.outcome
}

// Prints the inputs and registers that feed a node through gates alone.
pub fn feeding(bytes: &[u8], node: usize) -> Result<(), Refusal>
    ensures { query_of result ≡ (feeding_query bytes.now node).outcome }
{
    let reply = queries::feeding_points(bytes, node);
    say_answered(
        reply.outcome,
        |text| desk_text::feeding_fields(text, reply.marks),
    );
    reply.outcome
}

// Prints whether a set is in each of a node's two families.
pub fn member(bytes: &[u8], node: usize, set: usize) -> Result<(), Refusal>
    ensures { query_of result ≡ (membership_query bytes.now node set).outcome }
{
    let reply = queries::memberships(bytes, node, set);
    say_answered(
        reply.outcome,
        |text| desk_text::member_fields(text, reply.settled, reply.glitch),
    );
    reply.outcome
}
