// One record of a netlist: its bytes at an offset, and whether the rules accept it or refuse it. Reads the netlist
// bytes and writes to no lent slice. Used by `read_bytes`, `edit_parts` and `query_netlists`.
#![tactic(auto)]

ghost use Rattle.std.specs.Prelude.{◌≡◌, ◌+◌, ◌*◌, ◌<◌, ◌≤◌, get_or, IfOk};
ghost use Rattle.rules.specs.Records.{listed, first_of, last_kind, most_body};
ghost use Rattle.rules.specs.Checks.{undeclared, not_below, judged_record};
ghost use Rattle.rules.specs.Paper.{outcome_by, query_of};
ghost use Rattle.netlists.specs.Kinds.{byte_of};
ghost use Rattle.records.specs.Bytes.{body_at, record_bytes_at, accepted_if};

use netlists::{Class, Kind, operand_count};
use rules::{MOST_BODY, MOST_NODES, MOST_VARIABLES, Reason, Refusal};

// The bytes of a record: its kind byte and those behind it, as many as the longest body has, of which a shorter one
// uses fewer; where the file has no more, 0.
#[derive(Clone, Copy)]
pub struct RecordBytes {
    pub kind: u8,
    pub body: [u8; MOST_BODY],
}

// A record that is accepted: its kind, and the bytes behind the kind byte.
#[derive(Clone, Copy)]
pub struct Record {
    pub kind: Kind,
    pub body: [u8; MOST_BODY],
}

// Where a record stands: its kind byte at offset `here` of a file of `total` bytes, behind so many variables and nodes.
#[derive(Clone, Copy)]
pub struct Spot {
    pub total: usize,
    pub variables: usize,
    pub nodes: usize,
    pub here: usize,
}

// ---- the bytes

// The byte `k` places behind `here`, and 0 where the bytes have none there.
pub fn byte_behind(bytes: &[u8], here: usize, k: usize) -> u8
    ensures { result ≡ get_or bytes.now (here + k) 0 }
{
    bytes.get(here.saturating_add(k)).copied().unwrap_or(0)
}

// The bytes behind the kind byte at `here`, as many as the longest body has; where the file has no more, 0.
fn body_behind(bytes: &[u8], here: usize) -> [u8; MOST_BODY]
    ensures { result ≡ body_at bytes.now here }
{
    let mut body = [0u8; MOST_BODY];
    for (j, byte) in body.iter_mut().enumerate() {
        *byte = byte_behind(bytes, here, 1 + j);
    }
    body
}

// The bytes of the record at offset `here`.
pub fn bytes_at(bytes: &[u8], here: usize) -> RecordBytes
    ensures { result ≡ record_bytes_at bytes.now here }
{
    RecordBytes {
        kind: byte_behind(bytes, here, 0),
        body: body_behind(bytes, here),
    }
}

// The number of a set, of its two bytes.
pub fn set_of(low: u8, high: u8) -> u16
    ensures { result ≡ low + 256 * high }
{
    u16::from_le_bytes([low, high])
}

// ---- the judgement

// Whether a number, of a set or an assignment, has a bit of a variable that is not among the first `variables`.
pub fn undeclared_bit(variables: usize, number: usize) -> bool
    ensures { result ≡ undeclared variables number }
{
    variables < 64 && 1usize << variables <= number
}

// Whether one of the first `count` operands of a body is not below the number of nodes.
fn not_below(body: [u8; MOST_BODY], count: usize, nodes: usize) -> bool
    requires { count ≤ most_body }
    ensures { result ≡ not_below nodes (listed count (first_of count body)) }
{
    for j in 0..count {
        if nodes <= body[j] as usize {
            return true;
        }
    }
    false
}

// Judges an end record: nothing may follow it.
fn judge_end(spot: Spot, own: RecordBytes) -> Result<(), Refusal>
    requires { (spot.here < spot.total) × (own.kind ≡ 0) }
    ensures { query_of result ≡ accepted_if
        (judged_record spot.total spot.variables spot.nodes spot.here own.kind own.body) }
{
    if 1 < spot.total - spot.here {
        return Err(Reason::BytesAfterEnd.at(spot.here + 1));
    }
    Ok(())
}

// Judges a variable: it stands before every node, is one of at most ten, and its class is one of three.
fn judge_variable(spot: Spot, own: RecordBytes) -> Result<(), Refusal>
    requires { (spot.here < spot.total) × (own.kind ≡ 1) }
    ensures { query_of result ≡ accepted_if
        (judged_record spot.total spot.variables spot.nodes spot.here own.kind own.body) }
{
    if 0 < spot.nodes {
        return Err(Reason::LateVariable.at(spot.here));
    }
    if MOST_VARIABLES <= spot.variables {
        return Err(Reason::OverLimit.at(spot.here));
    }
    if spot.total - spot.here < 2 {
        return Err(Reason::CutShort.at(spot.here));
    }
    match Class::try_from(own.body[0]) {
        Ok(_) => Ok(()),
        Err(_) => Err(Reason::UnknownClass.at(spot.here)),
    }
}

// Judges an input: its set has declared variables only.
fn judge_input(spot: Spot, own: RecordBytes) -> Result<(), Refusal>
    requires { (spot.here < spot.total) × (own.kind ≡ 2) }
    ensures { query_of result ≡ accepted_if
        (judged_record spot.total spot.variables spot.nodes spot.here own.kind own.body) }
{
    if MOST_NODES <= spot.nodes {
        return Err(Reason::OverLimit.at(spot.here));
    }
    if spot.total - spot.here < 3 {
        return Err(Reason::CutShort.at(spot.here));
    }
    if undeclared_bit(spot.variables, set_of(own.body[0], own.body[1]) as usize) {
        return Err(Reason::UndeclaredSet.at(spot.here));
    }
    Ok(())
}

// Judges a gate or a register: its operands are lower nodes.
fn judge_gate(spot: Spot, own: RecordBytes) -> Result<(), Refusal>
    requires { (spot.here < spot.total) × (2 < own.kind) × (own.kind ≤ last_kind) }
    ensures { query_of result ≡ accepted_if
        (judged_record spot.total spot.variables spot.nodes spot.here own.kind own.body) }
{
    let count = operand_count(own.kind);
    if MOST_NODES <= spot.nodes {
        return Err(Reason::OverLimit.at(spot.here));
    }
    if spot.total - spot.here < 1 + count {
        return Err(Reason::CutShort.at(spot.here));
    }
    if not_below(own.body, count, spot.nodes) {
        return Err(Reason::BadOperand.at(spot.here));
    }
    Ok(())
}

// Judges the record of these bytes at a place of a file: it is accepted, with its kind, or gets the first refusal of
// document 01's table.
pub fn judge(spot: Spot, own: RecordBytes) -> Result<Kind, Refusal>
    ensures judged { outcome_by (λ kind. tt) result ≡ accepted_if
        (judged_record spot.total spot.variables spot.nodes spot.here own.kind own.body) }
    ensures kind { IfOk result (λ kind. byte_of kind ≡ own.kind) }
{
    if spot.total <= spot.here {
        return Err(Reason::NoEnd.at(spot.total));
    }
    let Ok(kind) = Kind::try_from(own.kind) else {
        return Err(Reason::UnknownKind.at(spot.here));
    };
    match kind {
        Kind::End => judge_end(spot, own)?,
        Kind::Variable => judge_variable(spot, own)?,
        Kind::Input => judge_input(spot, own)?,
        _ => judge_gate(spot, own)?,
    }
    Ok(kind)
}
