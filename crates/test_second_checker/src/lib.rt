// A second checker, to compare the first with. It uses nothing of the product but the record types, and goes about each
// task another way: a file is read byte by byte, families are lists of set numbers in the order in which the sets
// arise, all settled families are made before any glitch family, suspects are looked for from the last node down and
// from the last pair back, every node's marks are worked out by themselves, no product is made of a pair and its
// position is a formula, settled values are truth tables over all assignments at once, and feeding points are rows of
// bits.
//
// It is tested and not proved right: what is proved of it is that it is safe and ends. For the test programs
// `test_random_*`.
#![tactic(auto)]

ghost use Rattle.std.specs.Prelude.{◌<◌, ◌≤◌, length};

use rules::{Node, NodeRecord};
use std::cmp::Ordering;

const NODES: usize = 200;

const SETS: usize = 1024;

// Words of 16 bits to a node: bit x is the node's value under assignment x, and bit 1,024 + j says whether node j feeds
// it.
const WORDS: usize = 80;

const TABLE: usize = 64;

// The kinds of records, in the order of their bytes.
#[derive(Clone, Copy, PartialEq, Eq)]
pub enum Kind {
    End,
    Variable,
    Input,
    Not,
    Xor,
    And,
    Or,
    Register,
}

impl Kind {
    // The kind that a byte stands for, if any does.
    pub fn of(byte: u8) -> Option<Kind> {
        match byte {
            0 => Some(Kind::End),
            1 => Some(Kind::Variable),
            2 => Some(Kind::Input),
            3 => Some(Kind::Not),
            4 => Some(Kind::Xor),
            5 => Some(Kind::And),
            6 => Some(Kind::Or),
            7 => Some(Kind::Register),
            _ => None,
        }
    }

    // How many bytes follow the kind byte: none behind the end, two with an input's set or two operands, else one.
    pub fn body(self) -> usize
        ensures { result ≤ 2 }
    {
        match self {
            Kind::End => 0,
            Kind::Variable | Kind::Not | Kind::Register => 1,
            _ => 2,
        }
    }

    // Whether it is that of a node.
    pub fn is_node(self) -> bool {
        !matches!(self, Kind::End | Kind::Variable)
    }

    // Whether it is that of a gate of two operands.
    pub fn is_gate(self) -> bool {
        matches!(self, Kind::Xor | Kind::And | Kind::Or)
    }
}

// A node: an input with its set, or another one with its operands, of which a NOT and a register have the first alone.
#[derive(Clone, Copy)]
pub struct SecondNode {
    pub kind: Kind,
    pub first: usize,
    pub second: usize,
    pub set: usize,
}

impl SecondNode {
    // The node as the product has it.
    fn record(self) -> Node {
        Node {
            kind: self.kind as u8,
            first: (self.first % 256) as u8,
            second: (self.second % 256) as u8,
            set: (self.set % 65536) as u16,
        }
    }
}

// What a file is refused with: the number of the refusal and its place.
#[derive(Clone, Copy, PartialEq, Eq)]
pub struct Fault {
    pub number: usize,
    pub place: usize,
}

// A file as far as it can be read, and what it is refused with. `classes` has the variables of each class as a set.
#[derive(Clone, Copy)]
pub struct SecondBlock {
    pub fault: Option<Fault>,
    pub variables: usize,
    pub classes: [usize; 3],
    count: usize,
    nodes: [SecondNode; NODES],
}

impl SecondBlock {
    // A block of nothing.
    fn empty() -> SecondBlock {
        let none = SecondNode {
            kind: Kind::End,
            first: 0,
            second: 0,
            set: 0,
        };
        SecondBlock {
            fault: None,
            variables: 0,
            classes: [0; 3],
            count: 0,
            nodes: [none; NODES],
        }
    }

    // Its nodes.
    pub fn nodes(&self) -> &[SecondNode] {
        &self.nodes[..self.count.min(NODES)]
    }

    // How many nodes it has.
    pub fn count(&self) -> usize
        ensures { result ≤ 200 }
    {
        self.count.min(NODES)
    }

    // Its secret variables.
    pub fn secrets(&self) -> usize {
        self.classes[0]
    }

    // Its masks.
    pub fn masks(&self) -> usize {
        self.classes[1]
    }

    // Whether a set is suspect: it has a secret and no mask.
    pub fn is_suspect(&self, set: usize) -> bool {
        set & self.classes[0] != 0 && set & self.classes[1] == 0
    }
}

// ---- reading, byte by byte

// A record of which `missing` body bytes are still to come; `body` is what is there, low byte first, with the next
// byte's place in `shift`.
#[derive(Clone, Copy)]
struct Partial {
    kind: Kind,
    missing: usize,
    body: usize,
    shift: u32,
}

// A reader of a file: the block as far as it is read, where the last record started, that record where it is not whole,
// and whether the end has come.
#[derive(Clone, Copy)]
struct Reader {
    block: SecondBlock,
    start: usize,
    partial: Option<Partial>,
    ended: bool,
}

impl Reader {
    // Takes a kind byte, or gives the number of its refusal.
    fn take_kind(&mut self, byte: u8) -> Result<(), usize> {
        if self.ended {
            return Err(9);
        }
        let kind = Kind::of(byte).ok_or(1usize)?;
        if kind == Kind::Variable && self.block.count > 0 {
            return Err(2);
        }
        if kind == Kind::Variable && self.block.variables > 9 {
            return Err(3);
        }
        if kind.is_node() && self.block.count >= NODES {
            return Err(3);
        }
        if kind == Kind::End {
            self.ended = true;
        } else {
            self.partial = Some(Partial {
                kind,
                missing: kind.body(),
                body: 0,
                shift: 0,
            });
        }
        Ok(())
    }

    // Takes a record, or gives the number of its refusal.
    fn take_record(&mut self, kind: Kind, body: usize) -> Result<(), usize> {
        let variables = self.block.variables % 16;
        let count = self.block.count % NODES;
        let first = body % 256;
        let second = body / 256;
        let node = match kind {
            Kind::End => return Ok(()),
            Kind::Variable => {
                if body > 2 {
                    return Err(5);
                }
                self.block.classes[body] |= 1usize << variables;
                self.block.variables = variables + 1;
                return Ok(());
            }
            Kind::Input => {
                if body >> variables > 0 {
                    return Err(6);
                }
                SecondNode {
                    kind,
                    first: 0,
                    second: 0,
                    set: body,
                }
            }
            _ => {
                if first >= count || second >= count {
                    return Err(7);
                }
                SecondNode {
                    kind,
                    first,
                    second,
                    set: 0,
                }
            }
        };
        self.block.nodes[count] = node;
        self.block.count = count + 1;
        Ok(())
    }

    // Takes the next byte, or gives the number of a refusal.
    fn take(&mut self, at: usize, byte: u8) -> Result<(), usize> {
        let Some(partial) = self.partial else {
            self.start = at;
            return self.take_kind(byte);
        };
        let body = partial.body | ((byte as usize) << (partial.shift % 16));
        if partial.missing > 1 {
            self.partial = Some(Partial {
                kind: partial.kind,
                missing: partial.missing - 1,
                body,
                shift: 8,
            });
            return Ok(());
        }
        self.partial = None;
        self.take_record(partial.kind, body)
    }

    // The block with this refusal.
    fn refused(self, number: usize, place: usize) -> SecondBlock {
        let mut block = self.block;
        block.fault = Some(Fault { number, place });
        block
    }
}

// The block that a file holds, as far as it can be read.
pub fn read(bytes: &[u8]) -> SecondBlock {
    let mut reader = Reader {
        block: SecondBlock::empty(),
        start: 0,
        partial: None,
        ended: false,
    };
    for (at, byte) in bytes.iter().enumerate() {
        if let Err(number) = reader.take(at, *byte) {
            return reader.refused(number, reader.start);
        }
    }
    if reader.partial.is_some() {
        return reader.refused(4, reader.start);
    }
    if !reader.ended {
        return reader.refused(8, bytes.len());
    }
    reader.block
}

// ---- families, as lists of sets

// A family: its sets in the order in which they arise.
#[derive(Clone, Copy)]
pub struct List {
    length: usize,
    sets: [u16; SETS],
}

impl List {
    // No sets.
    fn empty() -> List {
        List {
            length: 0,
            sets: [0; SETS],
        }
    }

    // Its sets.
    pub fn sets(&self) -> &[u16]
        ensures { length result.now ≤ 1024 }
    {
        &self.sets[..self.length.min(SETS)]
    }

    // Whether it has a set.
    pub fn has(&self, set: usize) -> bool {
        self.sets().iter().any(|x| *x as usize == set)
    }
}

// A family that is being made, and of each set whether it has come.
#[derive(Clone, Copy)]
struct Growing {
    list: List,
    seen: [bool; SETS],
}

impl Growing {
    // Puts a set behind the others, unless it is there.
    fn add(&mut self, set: usize) {
        let set = set % SETS;
        let at = self.list.length % SETS;
        if !self.seen[set] {
            self.seen[set] = true;
            self.list.sets[at] = set as u16;
            self.list.length = at + 1;
        }
    }

    // Adds the symmetric differences of one set with all sets of another list.
    fn add_differences(&mut self, from: &List, with: usize) {
        for set in from.sets() {
            self.add(*set as usize ^ with);
        }
    }

    // Adds the product of two lists.
    fn add_product(&mut self, first: &List, second: &List) {
        for with in second.sets() {
            self.add_differences(first, *with as usize);
        }
    }
}

// All that is worked out of a block: its settled families, and behind them its glitch families; and the words of its
// nodes.
#[derive(Clone, Copy)]
pub struct Second {
    pub block: SecondBlock,
    families: [[List; NODES]; 2],
    words: [[u16; WORDS]; NODES],
}

impl Second {
    // What is worked out of a block of nothing.
    pub fn empty() -> Second {
        Second {
            block: SecondBlock::empty(),
            families: [[List::empty(); NODES]; 2],
            words: [[0; WORDS]; NODES],
        }
    }

    // The family of a node, settled (layer 0) or glitch (layer 1).
    pub fn family(&self, layer: usize, i: usize) -> &List {
        &self.families[layer % 2][i % NODES]
    }

    // Makes the family of a node from those of its operands.
    fn new_family(&self, node: SecondNode, layer: usize) -> List {
        let first = self.family(layer, node.first);
        let second = self.family(layer, node.second);
        let glitch = layer > 0;
        let mut list = Growing {
            list: List::empty(),
            seen: [false; SETS],
        };
        match node.kind {
            Kind::Input => list.add(node.set),
            Kind::Not => {
                list.add_differences(first, 0);
                if glitch {
                    list.add(0);
                }
            }
            Kind::Register => list.add_differences(self.family(0, node.first), 0),
            _ => {
                list.add_product(first, second);
                if glitch || node.kind != Kind::Xor {
                    list.add_differences(second, 0);
                    list.add_differences(first, 0);
                    list.add(0);
                }
            }
        }
        list.list
    }
}

// ---- suspects

// What suspect sets some sets hold: the least number of variables that one has, the lowest and the highest of those
// with so many, and the lowest of all.
#[derive(Clone, Copy)]
pub struct Choice {
    variables: usize,
    first: usize,
    last: usize,
    lowest: usize,
}

impl Choice {
    // One set.
    fn of(set: usize) -> Choice {
        Choice {
            variables: set.count_ones() as usize,
            first: set,
            last: set,
            lowest: set,
        }
    }

    // What both hold, where the other holds any.
    fn or(self, other: Option<Choice>) -> Choice {
        let Some(other) = other else {
            return self;
        };
        let mut choice = match self.variables.cmp(&other.variables) {
            Ordering::Less => self,
            Ordering::Greater => other,
            Ordering::Equal => Choice {
                variables: self.variables,
                first: self.first.min(other.first),
                last: self.last.max(other.last),
                lowest: self.lowest,
            },
        };
        choice.lowest = self.lowest.min(other.lowest);
        choice
    }

    // The set to report, the lowest of those with fewest variables.
    pub fn reported(self) -> usize {
        self.first
    }

    // Whether a set below the reported one is suspect too.
    pub fn is_lower_suspect(self) -> bool {
        self.lowest != self.first
    }

    // Whether another suspect set has as few variables.
    pub fn is_tie(self) -> bool {
        self.last != self.first
    }
}

// The first suspect pair of tested nodes, i below j: its position, counted from 1, and its sets.
#[derive(Clone, Copy)]
pub struct Pair {
    pub position: usize,
    pub i: usize,
    pub j: usize,
    pub choice: Choice,
}

impl Second {
    // The suspect ones among the symmetric differences of one set with all sets of a list.
    fn suspect_sets(&self, list: &List, with: usize) -> Option<Choice> {
        let mut choice = None;
        for x in list.sets() {
            let set = (*x as usize ^ with) % SETS;
            if self.block.is_suspect(set) {
                choice = Some(Choice::of(set).or(choice));
            }
        }
        choice
    }

    // The suspect sets of a family of a node.
    pub fn suspects(&self, layer: usize, i: usize) -> Option<Choice> {
        self.suspect_sets(self.family(layer, i), 0)
    }

    // The mark of a node in a layer, unless it is an input: the set that it reports, if any is suspect.
    fn mark(&self, layer: usize, i: usize) -> Option<usize> {
        if self.block.nodes[i % NODES].kind == Kind::Input {
            return None;
        }
        Some(self.suspects(layer, i)?.reported())
    }

    // The first suspect of a layer, its node and set: the last one found from the last node down.
    pub fn first_suspect(&self, layer: usize) -> Option<(usize, usize)> {
        let mut found = None;
        for i in (0..self.block.count()).rev() {
            if let Some(set) = self.mark(layer, i) {
                found = Some((i, set));
            }
        }
        found
    }

    // The node records of the block, each with its marks in both layers, and behind them records of zeros.
    pub fn records(&self) -> [NodeRecord; NODES] {
        let none = Node {
            kind: 0,
            first: 0,
            second: 0,
            set: 0,
        };
        let mut records = [NodeRecord {
            node: none,
            settled: 0,
            glitch: 0,
        }; NODES];
        for (i, (record, node)) in records.iter_mut().zip(self.block.nodes()).enumerate() {
            record.node = node.record();
            record.settled = (self.mark(0, i).unwrap_or(0) % 65536) as u16;
            record.glitch = (self.mark(1, i).unwrap_or(0) % 65536) as u16;
        }
        records
    }

    // ---- pairs of tested nodes

    // The suspect sets among the symmetric differences of a set of one node's glitch family with a set of another's.
    fn pair_sets(&self, i: usize, j: usize) -> Option<Choice> {
        let mut choice = None;
        for with in self.family(1, i).sets() {
            if let Some(more) = self.suspect_sets(self.family(1, j), *with as usize) {
                choice = Some(more.or(choice));
            }
        }
        choice
    }

    // How many pairs there are.
    pub fn pairs(&self) -> usize
        ensures { result < 32768 }
    {
        pairs_of(self.block.tested().nodes().len())
    }

    // The first suspect pair: the last one found from the last pair back.
    pub fn first_pair(&self) -> Option<Pair> {
        let tested = self.block.tested();
        let nodes = tested.nodes();
        let mut found = None;
        for b in (0..nodes.len()).rev() {
            for a in (0..b).rev() {
                if let Some(choice) = self.pair_sets(nodes[a], nodes[b]) {
                    found = Some(Pair {
                        position: position_of(a, b),
                        i: nodes[a],
                        j: nodes[b],
                        choice,
                    });
                }
            }
        }
        found
    }
}

// The tested nodes of a block, from the lowest on.
#[derive(Clone, Copy)]
pub struct Tested {
    count: usize,
    nodes: [usize; NODES],
}

impl Tested {
    // Their numbers.
    pub fn nodes(&self) -> &[usize] {
        &self.nodes[..self.count.min(NODES)]
    }
}

impl SecondBlock {
    // Those of its nodes that are no inputs.
    pub fn tested(&self) -> Tested {
        let mut tested = Tested {
            count: 0,
            nodes: [0; NODES],
        };
        for (i, node) in self.nodes().iter().enumerate() {
            if node.kind != Kind::Input {
                let at = tested.count % NODES;
                tested.nodes[at] = i;
                tested.count = at + 1;
            }
        }
        tested
    }
}

// The number of pairs of so many nodes.
fn pairs_of(nodes: usize) -> usize
    ensures { result < 32768 }
{
    let many = nodes % 256;
    many * many.saturating_sub(1) / 2
}

// The position of the pair of tested nodes a and b, counted from 1: before it stand all pairs of the tested nodes below
// b, and a more.
pub fn position_of(a: usize, b: usize) -> usize {
    pairs_of(b) + a % 256 + 1
}

// ---- settled values as truth tables, and feeding points as rows of bits

// Word `w` of the truth table of an input.
fn input_word(set: usize, w: usize) -> u16 {
    let mut word = 0;
    for v in 0..10 {
        if (set >> v) % 2 == 1 {
            word ^= variable_word(v, w);
        }
    }
    word
}

// Word `w` of the truth table of a variable: the first four change within a word, the others from word to word.
fn variable_word(v: usize, w: usize) -> u16 {
    match v {
        0 => 0xAAAA,
        1 => 0xCCCC,
        2 => 0xF0F0,
        3 => 0xFF00,
        _ if (w >> ((v - 4) % 16)) % 2 == 1 => 0xFFFF,
        _ => 0,
    }
}

// Word `w` of node i, from those of its operands.
fn word_of(node: SecondNode, i: usize, w: usize, first: u16, second: u16) -> u16 {
    if w < TABLE {
        return match node.kind {
            Kind::Input => input_word(node.set, w),
            Kind::Not => !first,
            Kind::Xor => first ^ second,
            Kind::And => first & second,
            Kind::Or => first | second,
            _ => first,
        };
    }
    match node.kind {
        Kind::Input | Kind::Register if i / 16 + TABLE == w => 1u16 << (i % 16),
        Kind::Input | Kind::Register => 0,
        Kind::Not => first,
        _ => first | second,
    }
}

impl Second {
    // Fills in the words of all nodes.
    fn fill_words(&mut self) {
        for i in 0..self.block.count() {
            let node = self.block.nodes[i];
            let first = self.words[node.first % NODES];
            let second = self.words[node.second % NODES];
            for (w, word) in self.words[i].iter_mut().enumerate() {
                *word = word_of(node, i, w, first[w], second[w]);
            }
        }
    }

    // Bit `place` of the words of a node.
    fn has_bit(&self, node: usize, place: usize) -> bool {
        (self.words[node % NODES][place / 16 % WORDS] >> (place % 16)) % 2 == 1
    }

    // The settled value of a node under an assignment.
    pub fn value(&self, node: usize, assignment: usize) -> bool {
        self.has_bit(node, assignment)
    }

    // Whether node j feeds a node.
    pub fn feeds(&self, j: usize, node: usize) -> bool {
        self.has_bit(node, 16 * TABLE + j % 256)
    }
}

// Reads a block, and works out its families, values and feeding points, in place of those of another one. What is worked
// out has 850,000 bytes: given back by value, it was copied several times a block, and the tests took thrice as long.
pub fn work_out(bytes: &[u8], second: &mut Second) {
    let block = read(bytes);
    second.block = block;
    for layer in 0..2 {
        for list in second.families[layer].iter_mut() {
            list.length = 0;
        }
        for i in 0..block.count() {
            second.families[layer][i] = second.new_family(block.nodes[i], layer);
        }
    }
    second.words = [[0; WORDS]; NODES];
    second.fill_words();
}
