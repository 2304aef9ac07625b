// Open blocks over lent slices: `open` checks a block and gives the state of it, `edit` takes a new node at the end or
// removes one. The state goes in and comes back by value; node records with their marks, and families, stay in the two
// lent slices, which both write to. Request A3 is in `edit_rules/specs/`. For a caller's program, and used by test
// programs and the benchmark; `write_bytes` and `write_words` load an open block by it.
#![tactic(auto)]

ghost use Rattle.std.specs.Prelude.{◌≡◌, ◌↔◌, ℕ, ◌≤◌, length};
ghost use Rattle.rules.specs.Records as Records;
ghost use Rattle.rules.specs.Records.{WellFormed, written_out, most_nodes};
ghost use Rattle.rules.specs.Slices.{nodes_after, work_after, reply};
ghost use Rattle.rules.specs.Checks.{refused, admitted};
ghost use Rattle.rules.specs.Demands.{GlitchClear, NothingSuspect, OneProbe};
ghost use Rattle.rules.specs.Paper.{reply_of};
ghost use Rattle.netlists.specs.Netlists.{kept};
ghost use Rattle.checker.specs.Work.{kept_netlist};
ghost use Rattle.edit_rules.specs.Edits.{fits, netlist_after, reply_after, records_after, bytes_after, NothingSuspectAfter};
ghost use Rattle.edit_rules.specs.Meaning.{edit_of, state_of, IsOpen};
ghost use Rattle.edits.specs.Edited.{loaded_from, loaded_of, edited_of, stored_of, Kept};

use checker::Examined;
use edit_rules::{Edit, State};
use edit_steps::Loaded;
use marks::Marks;
use netlists::Netlist;
use rules::{Answer, MOST_NODES, NodeRecord, Refusal};

// What a call gives: the reply, and the state to hand in next, which there is on a refusal too.
#[derive(Clone, Copy)]
pub struct Edited {
    pub reply: Result<Answer, Refusal>,
    pub state: State,
}

// ---- a block by value

// The block of a state, by value with its marks, from the first of some node records.
pub fn loaded_of(state: State, records: [NodeRecord; MOST_NODES], count: usize) -> Loaded
    requires { count ≤ most_nodes }
    ensures { result ≡ loaded_from state count records }
{
    loaded_by(state, &records[..count])
}

// The block of a state, by value with its marks, from all of some node records.
fn loaded_by(state: State, records: &[NodeRecord]) -> Loaded
    requires { length records.now ≤ most_nodes }
    ensures { result ≡ loaded_from state (length records.now) records.now }
{
    let mut nodes = [netlists::blank_node(); MOST_NODES];
    let mut settled = [0u16; MOST_NODES];
    let mut glitch = [0u16; MOST_NODES];
    for (i, record) in records.iter().enumerate() {
        nodes[i] = record.node;
        settled[i] = record.settled;
        glitch[i] = record.glitch;
    }
    // Stored straight from the other struct, an array has no proof.
    let classes = state.classes;
    let block = Netlist {
        variables: state.variables,
        count: state.count,
        classes,
        nodes,
    };
    let marks = Marks { settled, glitch };
    Loaded { block, marks }
}

// The same, from the node records at the front of the slice: no more than the state says, than there may be, and than
// the slice has.
fn load(state: State, nodes: &[NodeRecord]) -> Loaded
    ensures { result ≡ loaded_of state nodes.now }
{
    let count = state.count.min(MOST_NODES).min(nodes.len());
    loaded_by(state, &nodes[..count])
}

// ---- what a call gives

// What a call gives of what was examined: the reply, and the state of the block, whose node records go to the front of
// the slice. On a refusal it is the state that is handed in, and the slice stays as it was.
fn given(examined: Result<Examined, Refusal>, state: State, nodes: &mut [NodeRecord]) -> Edited
    requires { ((kept_netlist examined).count ≤ length nodes.old) × ((kept_netlist examined).count ≤ most_nodes) }
    ensures given { result ≡ edited_of state examined }
    ensures nodes { nodes.new ≡ stored_of examined nodes.old }
{
    match examined {
        Err(refusal) => Edited {
            reply: Err(refusal),
            state,
        },
        Ok(examined) => {
            checker::store(nodes, examined);
            Edited {
                reply: Ok(examined.answer),
                state: edit_steps::state_of(examined.netlist),
            }
        }
    }
}

// ---- the entry points, over the lent slice of node records

// Checks netlist bytes as `check` does, with the same reply and both slices at exit the same, and gives the state of
// the open block beside the reply. On a refusal that is the state of no variables and no nodes.
pub fn open(bytes: &[u8], nodes: &mut [NodeRecord], work: &mut [u8]) -> Edited
    ensures reply { reply_of result.reply ≡
        reply bytes.now (length nodes.old) (length work.old) }
    ensures state { result.state ≡
        state_of (kept (admitted bytes.now (length nodes.old) (length work.old))) }
    ensures nodes { nodes.new ≡
        nodes_after bytes.now nodes.old (length work.old) }
    ensures work { work.new ≡
        work_after bytes.now (length nodes.old) work.old }
    ensures clear { GlitchClear (reply_of result.reply) ↔
        NothingSuspect bytes.now (length nodes.old) (length work.old) }
    ensures probe { GlitchClear (reply_of result.reply) → OneProbe bytes.now }
{
    let examined = checker::examine(bytes, nodes.len(), work);
    let none = edit_steps::state_of(netlists::no_records());
    given(examined, none, nodes)
}

// Edits an open block: a new node at the end, which is one record's bytes, or a node removed, for which those bytes
// are not looked at. The state is the last one returned for these slices, and the slices are as that call left them:
// then reply, state, node records with their marks and families are those of the block as it now is, and its glitch
// half is clear exactly when no tested node's glitch family there holds a suspect set; and then one probe on any
// gate or register of it sees each pattern of settled values as often for one setting of the secrets as for another.
// A refusal gives the state that was handed in.
//
// Left open, with slices altered between calls or a state that is not the last one returned for them: the reply,
// the state, what both slices hold, and the counting of mask settings with them. What still holds then: the call
// returns and does nothing undefined, both slices keep their lengths, and a refusal leaves both as they were (`kept`);
// and the refusals that go by the state and the lengths alone are those of any netlist that has this state (`early`).
pub fn edit(
    state: State,
    edit: Edit,
    bytes: &[u8],
    nodes: &mut [NodeRecord],
    work: &mut [u8],
) -> Edited
    ensures reply { (n : Records.Netlist) → IsOpen n state nodes.old work.old →
        reply_of result.reply ≡
        reply_after n (edit_of edit bytes.now) (length nodes.old) (length work.old) }
    ensures state { (n : Records.Netlist) → IsOpen n state nodes.old work.old →
        result.state ≡ state_of (netlist_after n (edit_of edit bytes.now) (length nodes.old) (length work.old)) }
    ensures nodes { (n : Records.Netlist) → IsOpen n state nodes.old work.old →
        nodes.new ≡ records_after n (edit_of edit bytes.now) nodes.old (length work.old) }
    ensures work { (n : Records.Netlist) → IsOpen n state nodes.old work.old →
        work.new ≡ bytes_after n (edit_of edit bytes.now) (length nodes.old) work.old }
    ensures clear { (n : Records.Netlist) → IsOpen n state nodes.old work.old →
        GlitchClear (reply_of result.reply) ↔
        NothingSuspectAfter n (edit_of edit bytes.now) (length nodes.old) (length work.old) }
    ensures probe { (n : Records.Netlist) → IsOpen n state nodes.old work.old →
        GlitchClear (reply_of result.reply) →
        OneProbe (written_out (netlist_after n (edit_of edit bytes.now) (length nodes.old) (length work.old))) }
    ensures early { (n : Records.Netlist) → WellFormed n → state ≡ state_of n → (number place : ℕ) →
        fits n (edit_of edit bytes.now) (length nodes.old) (length work.old)
        ≡ refused number place →
        reply_of result.reply ≡ refused number place }
    ensures kept { Kept state result nodes.old nodes.new work.old work.new }
{
    let loaded = load(state, nodes);
    let examined = edit_steps::change(loaded, edit, bytes, nodes.len(), work);
    given(examined, state, nodes)
}
