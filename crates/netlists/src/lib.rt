// Netlists by value: the netlist of no records, one node more, a node's operands and the node of some; and the kinds of
// record and the classes of variables, by name and by their bytes. Touches nothing.
// Used by all that works on a netlist: the crates that read one, the checker's from `nodes` to `pairs`, the edits, the
// queries, the derivations, the listing and the desk.
#![tactic(auto)]

ghost use Rattle.std.specs.Prelude.{◌≡◌, ◌+◌, ◌<◌, ◌≤◌, length, replicate};
ghost use Rattle.rules.specs.Records.{Cell, kind_of, operands, empty, with_node, class_byte};
ghost use Rattle.rules.specs.Records.{most_nodes, last_kind, most_body};
ghost use Rattle.rules.specs.Records as Records;
ghost use Rattle.rules.specs.Slices.{node_of, entry};
ghost use Rattle.netlists.specs.Netlists.{padded, blank, flat_of};
ghost use Rattle.netlists.specs.Kinds.{byte_of, class_in, Numbers, Classes};

use rules::{LAST_KIND, MOST_BODY, MOST_NODES, MOST_VARIABLES, Node};

// The kinds of record, each with its number: the end, a variable, and the kinds of node.
#[derive(Clone, Copy, PartialEq, Eq)]
pub enum Kind {
    End = 0,
    Variable = 1,
    Input = 2,
    Not = 3,
    Xor = 4,
    And = 5,
    Or = 6,
    Register = 7,
}

// A number that is no kind's.
#[derive(Clone, Copy, PartialEq, Eq)]
pub struct UnknownKind(pub u8);

impl TryFrom<u8> for Kind {
    type Error = UnknownKind;

    ghost try_from_gives = { Numbers };

    fn try_from(number: u8) -> Result<Self, UnknownKind> {
        if usize::from(number) > LAST_KIND {
            return Err(UnknownKind(number));
        }
        match number {
            0 => Ok(Kind::End),
            1 => Ok(Kind::Variable),
            2 => Ok(Kind::Input),
            3 => Ok(Kind::Not),
            4 => Ok(Kind::Xor),
            5 => Ok(Kind::And),
            6 => Ok(Kind::Or),
            _ => Ok(Kind::Register),
        }
    }
}

impl Kind {
    // The number of a kind.
    pub fn byte(self) -> u8
        ensures { result ≡ byte_of self }
    {
        self as u8
    }
}

// The classes of variables, each with its number.
#[derive(Clone, Copy, PartialEq, Eq)]
pub enum Class {
    Secret = 0,
    Mask = 1,
    Public = 2,
}

// A number that is no class's.
#[derive(Clone, Copy, PartialEq, Eq)]
pub struct UnknownClass(pub u8);

impl TryFrom<u8> for Class {
    type Error = UnknownClass;

    ghost try_from_gives = { Classes };

    #[tactic(auto, unfolding(rules::specs::Records::class_byte))]
    fn try_from(number: u8) -> Result<Self, UnknownClass> {
        match number {
            0 => Ok(Class::Secret),
            1 => Ok(Class::Mask),
            2 => Ok(Class::Public),
            _ => Err(UnknownClass(number)),
        }
    }
}

impl Class {
    // The number of a class.
    #[tactic(auto, unfolding(rules::specs::Records::class_byte))]
    pub fn byte(self) -> u8
        ensures { result ≡ class_byte (class_in self) }
    {
        self as u8
    }
}

// A netlist by value: the counts, the class bytes and the node records, each in file order. Beyond the counts all is 0.
// Arrays with counts, since memory is fixed and document 01 asks for a flat form.
#[derive(Clone, Copy)]
pub struct Netlist {
    pub variables: usize,
    pub count: usize,
    pub classes: [u8; MOST_VARIABLES],
    pub nodes: [Node; MOST_NODES],
}

// The operands of a node, in their order: how many, and each at its place. Behind them is 0. An array and a count, since
// memory is fixed.
#[derive(Clone, Copy)]
pub struct Operands {
    pub count: usize,
    pub at: [u8; MOST_BODY],
}

// How many operands a kind has; a kind that is no node's has none.
pub fn operand_count(kind: u8) -> usize
    ensures value { (cell : Cell) → kind ≡ kind_of cell → result ≡ length (operands cell) }
    ensures none { (kind < 2 → result ≡ 0) × (last_kind < kind → result ≡ 0) }
    ensures few { result ≤ most_body }
{
    let Ok(kind) = Kind::try_from(kind) else {
        return 0;
    };
    match kind {
        Kind::End | Kind::Variable | Kind::Input => 0,
        Kind::Not | Kind::Register => 1,
        Kind::Xor | Kind::And | Kind::Or => 2,
    }
}

// The operands of a node, which are as many as its kind has.
pub fn operands_of(node: Node) -> Operands
    ensures count_value { (cell : Cell) → node ≡ entry cell →
        (result.count ≡ length (operands cell)) × (result.at ≡ padded most_body 0 (operands cell)) }
    ensures few { (result.count ≤ most_body) × (length result.at ≡ most_body) }
{
    Operands {
        count: operand_count(node.kind),
        at: [node.first, node.second],
    }
}

// The node of a kind with these operands and this set.
pub fn node_of(kind: u8, operands: Operands, set: u16) -> Node
    ensures { result ≡ node_of kind operands.at set }
{
    Node {
        kind,
        first: operands.at[0],
        second: operands.at[1],
        set,
    }
}

// No operands.
pub fn no_operands() -> Operands
    ensures { (result.count ≡ 0) × (result.at ≡ replicate most_body 0) }
{
    Operands {
        count: 0,
        at: [0u8; MOST_BODY],
    }
}

// The node of no record, in which every field is 0: what stands beyond the count.
pub fn blank_node() -> Node
    ensures { result ≡ blank }
{
    node_of(0, no_operands(), 0)
}

// The netlist of no records: no variable, no node, and 0 in every entry.
pub fn no_records() -> Netlist
    ensures { result ≡ flat_of empty }
{
    Netlist {
        variables: 0,
        count: 0,
        classes: [0u8; MOST_VARIABLES],
        nodes: [blank_node(); MOST_NODES],
    }
}

// The netlist with one node more, behind those that it has. All else is as it was.
pub fn with_node(netlist: Netlist, last: Node) -> Netlist
    requires { netlist.count < most_nodes }
    ensures value { (n : Records.Netlist) (cell : Cell) → netlist ≡ flat_of n → last ≡ entry cell →
        result ≡ flat_of (with_node n cell) }
    ensures more { (result.variables ≡ netlist.variables) × (result.count ≡ netlist.count + 1) }
{
    let mut longer = netlist;
    longer.nodes[netlist.count] = last;
    longer.count += 1;
    longer
}
