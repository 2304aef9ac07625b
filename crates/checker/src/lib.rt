// The checker with one probe. `check` is over netlist bytes and both lent slices, node records and work bytes,
// and writes to both. `examine` is its core: it takes the number of entries in place of the node records,
// writes to the work bytes alone and gives netlist and marks by value. Used by `pairs`, the edits, the listing,
// the desk and test programs.
#![tactic(auto)]

ghost use Rattle.std.specs.Prelude.{◌≡◌, ◌↔◌, ◌<◌, ◌≤◌, length};
ghost use Rattle.rules.specs.Records as Records;
ghost use Rattle.rules.specs.Records.{most_nodes};
ghost use Rattle.rules.specs.Slices.{nodes_after, work_after, reply};
ghost use Rattle.rules.specs.Checks.{answered, slices_fit, admitted};
ghost use Rattle.rules.specs.Demands.{GlitchClear, NothingSuspect, OneProbe};
ghost use Rattle.rules.specs.Paper.{reply_of};
ghost use Rattle.netlists.specs.Netlists.{flat_of, Formed, Ready, kept};
ghost use Rattle.marks.specs.Marks.{marks_of};
ghost use Rattle.checker.specs.Work.{replied, kept_netlist, kept_marks, Examines, ReadsMarks};
ghost use Rattle.checker.specs.Work.{JudgesSlices, record_in, stored};

use marks::Marks;
use netlists::Netlist;
use rules::{Answer, NodeRecord, Reason, Refusal};

// What an examination gives: the answer, and the netlist and its marks by value.
#[derive(Clone, Copy)]
pub struct Examined {
    pub answer: Answer,
    pub netlist: Netlist,
    pub marks: Marks,
}

// What an examination gives of a netlist with its marks: the answer, each half of which is read from the marks,
// and both by value. Nothing is worked out anew.
pub fn read_marks(netlist: Netlist, marks: Marks) -> Examined
    requires { netlist.count ≤ most_nodes }
    ensures { ReadsMarks netlist marks result }
{
    let answer = Answer {
        variables: netlist.variables,
        nodes: netlist.count,
        settled: marks::lowest_marked(marks.settled, netlist.count),
        glitch: marks::lowest_marked(marks.glitch, netlist.count),
    };
    Examined {
        answer,
        netlist,
        marks,
    }
}

// Works out the families in the work bytes, then the marks, and gives the answer for a netlist
// that both slices have room for.
fn answer(netlist: Netlist, work: &mut [u8]) -> Examined
    requires { Ready netlist (length work.old) }
    ensures { (n : Records.Netlist) → netlist ≡ flat_of n →
        Examines (answered n) (Ok result) work.old work.new }
{
    nodes::all_families(netlist, work);
    read_marks(netlist, marks::all_marks(netlist, work))
}

// Whether slices of so many entries and so many work bytes hold so many nodes: refusals 10 and 11, in this order.
pub fn slices_fit(count: usize, entries: usize, work: usize) -> Result<(), Refusal>
    requires { count ≤ most_nodes }
    ensures { JudgesSlices count entries work result }
{
    let bytes = 256 * count;
    if entries < count {
        return Err(Reason::FewEntries.at(count));
    }
    if work < bytes {
        return Err(Reason::ShortWork.at(bytes));
    }
    Ok(())
}

// Checks netlist bytes as `check` does with a slice of `entries` node records: the same reply, and the same work bytes
// at exit. In place of node records it gives the netlist and its marks by value.
pub fn examine(bytes: &[u8], entries: usize, work: &mut [u8]) -> Result<Examined, Refusal>
    ensures reply { replied result ≡ reply bytes.now entries (length work.old) }
    ensures netlist { kept_netlist result ≡
        flat_of (kept (admitted bytes.now entries (length work.old))) }
    ensures marks { kept_marks result ≡
        marks_of (kept (admitted bytes.now entries (length work.old))) }
    ensures work { work.new ≡ work_after bytes.now entries work.old }
    ensures clear { GlitchClear (replied result) ↔
        NothingSuspect bytes.now entries (length work.old) }
    ensures probe { GlitchClear (replied result) → OneProbe bytes.now }
{
    let netlist = read_bytes::read(bytes)?;
    slices_fit(netlist.count, entries, work.len())?;
    Ok(answer(netlist, work))
}

// ---- the entry point, over the lent slice of node records

// Writes the node records of what was examined to the front of the lent slice. The entries beyond are as they were.
pub fn store(nodes: &mut [NodeRecord], examined: Examined)
    requires { (examined.netlist.count ≤ length nodes.old) × (examined.netlist.count ≤ most_nodes) }
    ensures { nodes.new ≡ stored (record_in examined) nodes.old examined.netlist.count }
{
    for i in 0..examined.netlist.count {
        nodes[i] = NodeRecord {
            node: examined.netlist.nodes[i],
            settled: examined.marks.settled[i],
            glitch: examined.marks.glitch[i],
        };
    }
}

// Checks netlist bytes: the reply, the node records with their marks at the front of `nodes` and the families at the
// front of `work`. A refusal leaves both slices as they were. The glitch half is clear exactly when nothing is refused
// and no tested node's glitch family holds a suspect set; and then one probe on any gate or register sees each pattern
// of settled values as often for one setting of the secrets as for another.
pub fn check(bytes: &[u8], nodes: &mut [NodeRecord], work: &mut [u8]) -> Result<Answer, Refusal>
    ensures reply { reply_of result ≡
        reply bytes.now (length nodes.old) (length work.old) }
    ensures nodes { nodes.new ≡
        nodes_after bytes.now nodes.old (length work.old) }
    ensures work { work.new ≡
        work_after bytes.now (length nodes.old) work.old }
    ensures clear { GlitchClear (reply_of result) ↔
        NothingSuspect bytes.now (length nodes.old) (length work.old) }
    ensures probe { GlitchClear (reply_of result) → OneProbe bytes.now }
{
    let examined = examine(bytes, nodes.len(), work)?;
    store(nodes, examined);
    Ok(examined.answer)
}
