// The types of what the checker and the queries answer, and the limits of a netlist. Its one function makes a refusal of
// a reason and a place; it touches nothing. The rules of document 01 are in `specs/` (`Paper` gives each case of these types its number and values),
// and what is computed of them in `proofs/`: the table P1 to P14, and examples. What is proved of them for every
// netlist is the crate `rule_laws`. Used by every crate of the product and by the library's callers.
#![tactic(auto)]

ghost use Rattle.std.specs.Prelude.{◌≡◌};

// The most variables that a netlist may declare.
pub const MOST_VARIABLES: usize = 10;

// The most nodes that a netlist may have.
pub const MOST_NODES: usize = 200;

// The highest kind of a record.
pub const LAST_KIND: usize = 7;

// The most bytes that a record has behind its kind byte: those of an input's set, or its operands.
pub const MOST_BODY: usize = 2;

// How many work bytes hold the families of every netlist, 256 a node.
pub const MOST_WORK: usize = 256 * MOST_NODES;

// A node by value: the kind (2 input, 3 NOT, 4 XOR, 5 AND, 6 OR, 7 register), the first and second operand (0 where the
// kind has none) and an input's set (0 for every other kind).
#[derive(Clone, Copy)]
pub struct Node {
    pub kind: u8,
    pub first: u8,
    pub second: u8,
    pub set: u16,
}

// A node record of the lent slice: the node and its two marks, the set that it reports for settled signals and that for
// glitching ones, or 0 for none. The empty set is number 0 and is never suspect, so no reported set is 0.
#[derive(Clone, Copy)]
pub struct NodeRecord {
    pub node: Node,
    pub settled: u16,
    pub glitch: u16,
}

// One half of the answer, which document 01 names as an enum of these two cases: clear, or the lowest suspect node and
// the set that it reports: of its suspect sets the one with fewest variables, and of those with as many the
// lowest-numbered.
#[derive(Clone, Copy)]
pub enum Half {
    Clear,
    Suspect(usize, usize),
}

// The answer: the counts of variables and nodes, the half for settled signals and the half for glitching ones.
#[derive(Clone, Copy)]
pub struct Answer {
    pub variables: usize,
    pub nodes: usize,
    pub settled: Half,
    pub glitch: Half,
}

// The reasons of refusals, in the order of their numbers from 1 on. For 1 to 9 the place is an offset in the netlist
// bytes or, for the record of a new node, its node number; for the others it is said below.
#[derive(Clone, Copy, PartialEq, Eq)]
pub enum Reason {
    // A kind above 7.
    UnknownKind = 1,
    // A variable after a node.
    LateVariable,
    // The eleventh variable or the 201st node.
    OverLimit,
    // The bytes end inside the body.
    CutShort,
    // A class above 2.
    UnknownClass,
    // A set bit whose variable is not declared.
    UndeclaredSet,
    // An operand not below the node's own number.
    BadOperand,
    // The bytes run out with no end record.
    NoEnd,
    // Bytes after the end record.
    BytesAfterEnd,
    // Fewer entries of node records than nodes; the place is how many are needed.
    FewEntries,
    // Less work than 256 bytes a node; the place is how many bytes are needed.
    ShortWork,
    // A node number that is not below the count of nodes; the place is that number.
    NoSuchNode,
    // An assignment or set with a bit of an undeclared variable; the place is its number.
    UndeclaredBit,
    // A node to be removed that another node uses; the place is the lowest such node.
    StillNamed,
    // A derivation of more steps than there may be or than the slice takes; the place is how many fit.
    TooManySteps,
    // A set that is not in the family; the place is its number.
    NotInFamily,
}

// A refusal: a reason and a place.
#[derive(Clone, Copy, PartialEq, Eq)]
pub struct Refusal {
    pub reason: Reason,
    pub place: usize,
}

impl Reason {
    // The refusal for this reason at a place.
    pub fn at(self, place: usize) -> Refusal
        ensures { result ≡ record { reason = self; place = place } }
    {
        Refusal {
            reason: self,
            place,
        }
    }
}

// The reply to the query of a settled value. Refused, the value is 0 (`false`): of a refused query document 01 asks for
// the value and the marks too, and so for a struct with the outcome beside them in each of these three.
#[derive(Clone, Copy)]
pub struct ValueReply {
    pub outcome: Result<(), Refusal>,
    pub value: bool,
}

// The reply to the query of feeding points: a mark for each node number. Refused, every mark is no.
#[derive(Clone, Copy)]
pub struct FeedingReply {
    pub outcome: Result<(), Refusal>,
    pub marks: [bool; MOST_NODES],
}

// The reply to the query of a set: whether it is in the settled family and whether in the glitch family.
// Refused, both are no.
#[derive(Clone, Copy)]
pub struct MembershipReply {
    pub outcome: Result<(), Refusal>,
    pub settled: bool,
    pub glitch: bool,
}
