// What a query is asked of: the netlist of its file, or the refusal, where the query names a node, or a node and the
// number of an assignment or a set. `judge_node` and `judge` say so of a netlist by value, `ask` and `ask_with` of
// netlist bytes. No lent slice is written to. For `queries` and `derivations`.
#![tactic(auto)]

ghost use Rattle.std.specs.Prelude.{◌≡◌, List, [], ◌∷◌};
ghost use Rattle.rules.specs.Records as Records;
ghost use Rattle.rules.specs.Checks.{Outcome, and_then, Check, judged, node_check, number_check, queried, queried_with};
ghost use Rattle.rules.specs.Paper.{query_of};
ghost use Rattle.netlists.specs.Netlists.{flat_of};
ghost use Rattle.read_bytes.specs.Reading.{Reads};

use netlists::Netlist;
use rules::{Reason, Refusal};

// Whether a netlist has a node, or refusal 12.
pub fn judge_node(netlist: Netlist, node: usize) -> Result<(), Refusal>
    ensures { (n : Records.Netlist) → netlist ≡ flat_of n → query_of result ≡ judged (node_check node n ∷ []) tt }
{
    if netlist.count <= node {
        return Err(Reason::NoSuchNode.at(node));
    }
    Ok(())
}

// Whether a netlist has a node, and all variables of an assignment or a set, or refusal 12, and then 13.
pub fn judge(netlist: Netlist, node: usize, number: usize) -> Result<(), Refusal>
    ensures { (n : Records.Netlist) → netlist ≡ flat_of n →
        query_of result ≡ judged (node_check node n ∷ number_check number n ∷ []) tt }
{
    judge_node(netlist, node)?;
    if records::undeclared_bit(netlist.variables, number) {
        return Err(Reason::UndeclaredBit.at(number));
    }
    Ok(())
}

// The netlist of a query of a node, or the refusal: of the file, and then 12.
pub fn ask(bytes: &[u8], node: usize) -> Result<Netlist, Refusal>
    ensures { Reads result (queried bytes.now node) }
{
    let netlist = read_bytes::read(bytes)?;
    judge_node(netlist, node)?;
    Ok(netlist)
}

// The netlist of a query of a node with an assignment or a set, or the refusal: of the file, then 12, and then 13.
pub fn ask_with(bytes: &[u8], node: usize, number: usize) -> Result<Netlist, Refusal>
    ensures { Reads result (queried_with bytes.now node number) }
{
    let netlist = read_bytes::read(bytes)?;
    judge(netlist, node, number)?;
    Ok(netlist)
}
