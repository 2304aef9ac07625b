// A netlist written out in words: the lines of its variables, those of its nodes, and the end. What is written, read
// again, is the netlist (`words_again` of `proofs/ReadAgain`). It touches nothing but the text that it is lent; the
// program uses it. Each function that is not public puts lines behind the first `at` bytes of a text, or at its front,
// and answers where the next ones go; its caller shows that there is room.
#![tactic(auto)]

ghost use Rattle.std.specs.Prelude.{◌≡◌, ◌⊎◌, List, ◌++◌, map, ℕ, ◌+◌, ◌*◌, ◌≤◌, length, drop};
ghost use Rattle.rules.specs.Records as Records;
ghost use Rattle.rules.specs.Records.{Cell, WellFormed, class_byte, most_variables, most_nodes, most_body};
ghost use Rattle.rules.specs.Slices.{entry};
ghost use Rattle.listing_lines.specs.Text.{Room, Appended};
ghost use Rattle.netlists.specs.Netlists.{flat_of};
ghost use Rattle.edit_rules.specs.Meaning.{IsOpen};
ghost use Rattle.read_words.specs.Meaning.{form_by, name_of as word_in};
ghost use Rattle.write_words.specs.Worded.{class_name, variables_below, numbers_of, fields, record_line, record_lines, worded_out};
ghost use Rattle.write_words.specs.Worded.{most_variable_line, most_numbers, most_node_line, most_words};

use edit_rules::State;
use listing_lines::{name_of, put_byte, put_field, put_word};
use netlists::{Class, Kind, Netlist};
use read_words::RecordForm;
use rules::{MOST_NODES, MOST_VARIABLES, Node, NodeRecord};

// At most 10 lines of variables, the longest of which is `secret` with its line feed, 200 of nodes, the longest of
// which is an input of ten variables, and `end`.
pub const MOST_WORDS: usize = 7 * MOST_VARIABLES + 23 * MOST_NODES + 4;

// ---- one line

// The form of a variable, by its class byte.
fn form_of(class: u8) -> RecordForm
    ensures { (c : Records.Class) → class ≡ class_byte c → word_in (form_by result) ≡ class_name c }
{
    let Ok(named) = Class::try_from(class) else {
        return RecordForm::Public;
    };
    match named {
        Class::Secret => RecordForm::Secret,
        Class::Mask => RecordForm::Mask,
        Class::Public => RecordForm::Public,
    }
}

// A variable, by its class byte.
fn put_class(text: &mut [u8], at: usize, class: u8) -> usize
    requires { Room text.old at most_variable_line }
    ensures appended { (c : Records.Class) → class ≡ class_byte c →
        Appended text.old text.new at result (record_line (Records.variable c)) }
    ensures few { result ≤ at + most_variable_line }
{
    let end = put_word(text, at, form_of(class).word());
    put_byte(text, end, b'\n')
}

// The variables of a set, ascending, with a blank before each.
fn put_set(text: &mut [u8], at: usize, set: u16) -> usize
    requires { Room text.old at most_numbers }
    ensures appended { Appended text.old text.new at result (fields (variables_below most_variables set)) }
    ensures few { result ≤ at + most_numbers }
{
    let mut end = at;
    for variable in 0..MOST_VARIABLES {
        if (set >> variable) % 2 == 1 {
            end = put_field(text, end, variable);
        }
    }
    end
}

// What stands behind a node's name, with a blank before each number: the variables of an input's set, or the operands.
fn put_numbers(text: &mut [u8], at: usize, node: Node) -> usize
    requires { Room text.old at most_numbers }
    ensures appended { (cell : Cell) → node ≡ entry cell →
        Appended text.old text.new at result (fields (numbers_of cell)) }
    ensures few { (result ≤ at + most_numbers) × ((node.kind ≡ 2) ⊎ (result ≤ at + 4 * most_body)) }
{
    if node.kind == Kind::Input.byte() {
        return put_set(text, at, node.set);
    }
    let operands = netlists::operands_of(node);
    let mut end = at;
    for operand in &operands.at[..operands.count] {
        end = put_field(text, end, usize::from(*operand));
    }
    end
}

// A node: the name of its kind, and its numbers.
fn put_node(text: &mut [u8], at: usize, node: Node) -> usize
    requires { Room text.old at most_node_line }
    ensures appended { (cell : Cell) → node ≡ entry cell →
        Appended text.old text.new at result (record_line (Records.node cell)) }
    ensures few { result ≤ at + most_node_line }
{
    let name = put_word(text, at, name_of(node.kind));
    let end = put_numbers(text, name, node);
    put_byte(text, end, b'\n')
}

// ---- all lines

// The lines of the variables, at the front.
// One function of a closure for this loop and the next would need the closure's contract, and so is no plainer.
fn put_variables(text: &mut [u8], netlist: Netlist) -> usize
    requires { Room text.old 0 most_words × (netlist.variables ≤ most_variables) }
    ensures appended { (n : Records.Netlist) → netlist ≡ flat_of n →
        Appended text.old text.new 0 result (record_lines (map Records.variable n.variables)) }
    ensures few { result ≤ most_variable_line * most_variables }
{
    let mut at = 0;
    for class in &netlist.classes[..netlist.variables] {
        at = put_class(text, at, *class);
    }
    at
}

// The lines of the nodes, behind those.
fn put_nodes(text: &mut [u8], at: usize, netlist: Netlist) -> usize
    requires { Room text.old 0 most_words × (at ≤ most_variable_line * most_variables) ×
        (netlist.count ≤ most_nodes) }
    ensures appended { (n : Records.Netlist) → netlist ≡ flat_of n →
        Appended text.old text.new at result (record_lines (map Records.node n.nodes)) }
    ensures few { result ≤ at + most_node_line * most_nodes }
{
    let mut next = at;
    for node in &netlist.nodes[..netlist.count] {
        next = put_node(text, next, *node);
    }
    next
}

// ---- the block

// Writes a netlist in words to the front of `text`, and answers how many bytes they are; beyond them `text` is as it
// was. Of a value that is no netlist's, the words are left open: the call returns, and answers no more than `text` has.
pub fn word_netlist(netlist: Netlist, text: &mut [u8; MOST_WORDS]) -> usize
    ensures long { (n : Records.Netlist) → WellFormed n → netlist ≡ flat_of n → result ≡ length (worded_out n) }
    ensures words { (n : Records.Netlist) → WellFormed n → netlist ≡ flat_of n →
        text.new ≡ worded_out n ++ drop result text.old }
    ensures most { result ≤ most_words }
{
    if netlist.variables > MOST_VARIABLES || netlist.count > MOST_NODES {
        return 0;
    }
    let first = put_variables(text, netlist);
    let end = put_nodes(text, first, netlist);
    put_word(text, end, b"end\n")
}

// The same for an open block, of its state and node records. Of a state and node records that are no open block's, the
// words are left open: the call returns, and answers no more than `text` has.
pub fn write_words(
    state: State,
    nodes: [NodeRecord; MOST_NODES],
    text: &mut [u8; MOST_WORDS],
) -> usize
    ensures long { (n : Records.Netlist) (work : List ℕ) → IsOpen n state nodes work → result ≡
        length (worded_out n) }
    ensures words { (n : Records.Netlist) (work : List ℕ) → IsOpen n state nodes work →
        text.new ≡ worded_out n ++ drop result text.old }
    ensures most { result ≤ most_words }
{
    match write_bytes::netlist_of(state, nodes) {
        Some(netlist) => word_netlist(netlist, text),
        None => 0,
    }
}
