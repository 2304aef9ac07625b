// What the test programs share: counts of what was seen, node records compared, and printing. It uses the record types
// and the refusals' numbers, and no part of the checker. For the test programs.
#![tactic(auto)]

ghost use Rattle.std.specs.Prelude.{◌≡◌, ◌&&◌, ◌==◌};

use rules::{Answer, Half, NodeRecord, Refusal};
use std::slice::Iter;

// Standard output's descriptor.
const STDOUT: i32 = 1;

// ---- counts

// What was seen: counts, in the order of the names that a program prints.
pub type Tally = [usize; 64];

// Adds to a count.
pub fn count(tally: &mut Tally, at: usize, more: usize) {
    tally[at % 64] = tally[at % 64].wrapping_add(more);
}

// Adds one to a count where the answer is yes.
pub fn count_if(tally: &mut Tally, at: usize, yes: bool) {
    if yes {
        count(tally, at, 1);
    }
}

// Raises a count that is lower to this value.
pub fn raise(tally: &mut Tally, at: usize, value: usize) {
    tally[at % 64] = tally[at % 64].max(value);
}

// ---- node records

// Whether two node records are the same, marks included: `rules` derives no `==` for them.
pub fn same_record(a: NodeRecord, b: NodeRecord) -> bool
    ensures { result ≡ (a.node.kind == b.node.kind && (a.node.first == b.node.first)
        && a.node.second == b.node.second && (a.node.set == b.node.set)
        && a.settled == b.settled && a.glitch == b.glitch) }
{
    a.node.kind == b.node.kind
        && a.node.first == b.node.first
        && a.node.second == b.node.second
        && a.node.set == b.node.set
        && a.settled == b.settled
        && a.glitch == b.glitch
}

// ---- printing

// Writes a text to standard output.
pub fn print(text: &[u8]) {
    io::write_all(STDOUT, text);
}

// A blank and a number.
pub fn print_number(x: usize) {
    print(b" ");
    io::print_decimal(STDOUT, x as u64);
}

// A byte.
pub fn print_byte(byte: u8) {
    print(&[byte]);
}

// The next of some counts, if any is left.
fn print_next(counts: &mut Iter<'_, usize>) {
    if let Some(x) = counts.next() {
        print_number(*x);
    }
}

// A text with counts: a `#` stands for a blank and the next count, and the end of a line has the next one, if any is
// left, before it.
pub fn print_counts(text: &[u8], counts: &[usize]) {
    let mut left = counts.iter();
    for letter in text {
        if matches!(*letter, b'#' | b'\n') {
            print_next(&mut left);
        }
        if *letter != b'#' {
            print_byte(*letter);
        }
    }
}

// The words of a reply, with a blank before each.
pub fn print_refusal(refusal: Refusal) {
    print(b" refused");
    print_number(refusals::number_of(refusal));
    print_number(refusal.place);
}

// A half of an answer, behind its name.
fn print_half(name: &[u8], half: Half) {
    print(name);
    match half {
        Half::Clear => print(b" clear"),
        Half::Suspect(node, set) => {
            print_number(node);
            print_number(set);
        }
    }
}

// The counts and the halves of an answer.
pub fn print_answer(answer: Answer) {
    print_counts(b" vars# nodes#", &[answer.variables, answer.nodes]);
    print_half(b" settled", answer.settled);
    print_half(b" glitch", answer.glitch);
}

// A refusal or an answer.
pub fn print_reply(reply: Result<Answer, Refusal>) {
    match reply {
        Err(refusal) => print_refusal(refusal),
        Ok(answer) => print_answer(answer),
    }
}
