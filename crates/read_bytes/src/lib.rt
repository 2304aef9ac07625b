// Reading netlist bytes: the reader, which takes the next record; the node that a record says; and the walk over a
// file, which takes record by record into its netlist and gives it, or the refusal. Reads the netlist bytes and writes
// to no lent slice. Used by `checker`, `edit_parts` and `query_netlists`.
#![tactic(auto)]

ghost use Rattle.std.specs.Prelude.{◌≡◌, cond, List, ℕ, ◌+◌, ◌*◌, ◌<◌, ◌≤◌, get_or};
ghost use Rattle.rules.specs.Records.{Cell, said, size, node, listed, first_of};
ghost use Rattle.rules.specs.Records.{last_kind, most_body, most_record};
ghost use Rattle.rules.specs.Records as Records;
ghost use Rattle.rules.specs.Slices.{entry};
ghost use Rattle.rules.specs.Checks as Checks;
ghost use Rattle.rules.specs.Paper.{number_of, place_of};
ghost use Rattle.netlists.specs.Kinds.{byte_of};
ghost use Rattle.netlists.specs.Netlists.{flat_of, Formed};
ghost use Rattle.read_bytes.specs.Reading.{found_of, found_at, Reads};

use netlists::{Kind, Netlist, Operands};
use records::{Record, RecordBytes, Spot};
use rules::{MOST_BODY, MOST_NODES, MOST_VARIABLES, Node, Reason, Refusal};

// The most records of a file: the variables and nodes that there may be, and the end.
const MOST_RECORDS: usize = MOST_VARIABLES + MOST_NODES + 1;

// The netlist bytes together with the offset of the next record.
#[derive(Clone, Copy)]
pub struct Reader<'a> {
    pub bytes: &'a [u8],
    pub here: usize,
}

// ---- the reader

// The record at offset `here`, behind `variables` variables and `nodes` nodes, or the refusal.
pub fn record_at(
    bytes: &[u8],
    here: usize,
    variables: usize,
    nodes: usize,
) -> Result<Record, Refusal>
    ensures { found_of result ≡ found_at bytes.now variables nodes here }
{
    let own = records::bytes_at(bytes, here);
    let spot = Spot {
        total: bytes.len(),
        variables,
        nodes,
        here,
    };
    let kind = records::judge(spot, own)?;
    // Stored straight from the other struct, an array has no proof.
    let body = own.body;
    Ok(Record { kind, body })
}

impl<'a> Reader<'a> {
    // The reader's next record, behind `variables` variables and `nodes` nodes, or the refusal.
    pub fn next(self, variables: usize, nodes: usize) -> Result<Record, Refusal>
        ensures { found_of result ≡ found_at self.entry.bytes.now variables nodes self.entry.here }
    {
        record_at(self.bytes, self.here, variables, nodes)
    }
}

// ---- the node of a record

// The first `count` bytes of a body, and 0 beyond them.
fn first_of(body: [u8; MOST_BODY], count: usize) -> [u8; MOST_BODY]
    requires { count ≤ most_body }
    ensures { (j : ℕ) → j < most_body → get_or result j 0 ≡ get_or (listed count (first_of count body)) j 0 }
{
    let mut first = body;
    for j in count..MOST_BODY {
        first[j] = 0;
    }
    first
}

// The node by value that a record says. What its kind has none of is 0.
fn entry_by(own: Record) -> Node
    ensures { (cell : Cell) → said (byte_of own.kind) own.body ≡ node cell → result ≡ entry cell }
{
    let kind = own.kind.byte();
    match own.kind {
        Kind::Input => {
            let set = records::set_of(own.body[0], own.body[1]);
            netlists::node_of(kind, netlists::no_operands(), set)
        }
        _ => {
            let count = netlists::operand_count(kind);
            let at = first_of(own.body, count);
            netlists::node_of(kind, Operands { count, at }, 0)
        }
    }
}

// The node by value that a record's bytes say; where the kind is none's, a blank one.
pub fn entry_of(own: RecordBytes) -> Node
    ensures { (cell : Cell) → said own.kind own.body ≡ node cell → result ≡ entry cell }
{
    // Stored straight from the other struct, an array has no proof.
    let body = own.body;
    match Kind::try_from(own.kind) {
        Ok(kind) => entry_by(Record { kind, body }),
        Err(_) => netlists::blank_node(),
    }
}

// How many bytes the record of a variable or node of this kind has: at most as many as the longest.
fn size_by(kind: Kind) -> usize
    ensures size { (body : List ℕ) → 0 < byte_of kind → result ≡ size (said (byte_of kind) body) }
    ensures few { result ≤ most_record }
{
    match kind {
        Kind::Variable => 2,
        Kind::Input => 3,
        _ => 1 + netlists::operand_count(kind.byte()),
    }
}

// The same by the number of the kind: at most as many as the longest record has, for any number.
pub fn size_of(kind: u8) -> usize
    ensures size { (body : List ℕ) → 0 < kind → kind ≤ last_kind → result ≡ size (said kind body) }
    ensures few { result ≤ most_record }
{
    match Kind::try_from(kind) {
        Ok(kind) => size_by(kind),
        Err(_) => 1,
    }
}

// ---- a file

// Reads netlist bytes behind the variables and nodes of a netlist: that netlist with theirs, or the first refusal by
// the record rules. A variable or a node goes behind those before it, in place; the end record ends the reading, and so
// does a refusal.
pub fn read_from(start: Netlist, bytes: &[u8]) -> Result<Netlist, Refusal>
    requires { Formed start }
    ensures { (n : Records.Netlist) → start ≡ flat_of n → Reads result (Checks.read_from n bytes.now) }
{
    let mut netlist = start;
    let mut reader = Reader { bytes, here: 0 };
    // How many records were taken is for the proof alone.
    for records in 0..MOST_RECORDS {
        let own = reader.next(netlist.variables, netlist.count)?;
        match own.kind {
            Kind::End => return Ok(netlist),
            Kind::Variable => {
                netlist.classes[netlist.variables] = own.body[0];
                netlist.variables += 1;
            }
            _ => {
                netlist.nodes[netlist.count] = entry_by(own);
                netlist.count += 1;
            }
        }
        reader.here += size_by(own.kind);
    }
    Err(Reason::NoEnd.at(bytes.len()))
}

// Reads netlist bytes: their netlist, or the first refusal by the record rules.
pub fn read(bytes: &[u8]) -> Result<Netlist, Refusal>
    ensures { Reads result (Checks.read bytes.now) }
{
    read_from(netlists::no_records(), bytes)
}
