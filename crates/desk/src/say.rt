// What several commands print, and the program for them: answers, refusals, sets, and what was expected
// where something else was found.
ghost use Rattle.std.specs.Prelude.{◌≤◌, List, ℕ};
ghost use Rattle.std.specs.Fn.{FnOnceReturnsAtMut};
ghost use Rattle.rules.specs.Listing.{most_text};

use desk_text::ROOM;
use netlists::Class;
use read_words::Fault;
use rules::{Answer, Half, MOST_VARIABLES, Reason, Refusal};

// Standard output.
const STDOUT: i32 = 1;

// The most bytes that are shown of what was found.
const SHOWN: usize = 80;

// Writes a text to standard output.
pub fn say(text: &[u8]) {
    io::write_all(STDOUT, text);
}

// Prints a number in base ten.
pub fn say_number(x: usize) {
    io::print_decimal(STDOUT, x as u64);
}

// Prints a blank and a number.
pub fn say_field(x: usize) {
    say(b" ");
    say_number(x);
}

// Writes the text that `put` puts at the front of bytes that have room for it, to standard output or standard error.
pub fn write_text<F: FnOnce(&mut [u8; ROOM]) -> usize>(to: i32, put: F)
    requires can { F.IsAlwaysCallable put }
    requires few { (before : List ℕ) (count : ℕ) (after : List ℕ) →
        FnOnceReturnsAtMut F.FnOnce put before count after → count ≤ most_text }
{
    let mut text = [0u8; ROOM];
    let count = put(&mut text);
    io::write_all(to, &text[..count]);
}

// Prints the text that `put` puts there.
pub fn say_text<F: FnOnce(&mut [u8; ROOM]) -> usize>(put: F)
    requires can { F.IsAlwaysCallable put }
    requires few { (before : List ℕ) (count : ℕ) (after : List ℕ) →
        FnOnceReturnsAtMut F.FnOnce put before count after → count ≤ most_text }
{
    write_text(STDOUT, put);
}

// ---- answers and refusals

// Ends the line of a half: where it is suspect, with the variables of its set, for people.
fn say_suspect(half: Half, classes: [u8; MOST_VARIABLES]) {
    if let Half::Suspect(_, set) = half {
        say(b" # ");
        say_set(classes, set);
    }
    say(b"\n");
}

// Prints the lines `vars`, `settled` and `glitch` of an answer, for a block whose variables have these classes.
pub fn say_answer(answer: Answer, classes: [u8; MOST_VARIABLES]) {
    say_text(|text| desk_text::counts_fields(text, answer));
    say(b"\n");
    say_text(|text| desk_text::settled_fields(text, answer));
    say_suspect(answer.settled, classes);
    say_text(|text| desk_text::glitch_fields(text, answer));
    say_suspect(answer.glitch, classes);
}

// Prints how a run of edits ended, of which so many were made: at fault, or with this answer, for a block
// whose variables have these classes.
pub fn say_closing(faulty: bool, answer: Answer, made: usize, classes: [u8; MOST_VARIABLES]) {
    say_text(|text| desk_text::edits_fields(text, faulty, answer, made));
    if faulty {
        say(b" # not every line was obeyed\n");
    } else {
        say_suspect(answer.glitch, classes);
    }
}

// The reason of a refusal, in words.
fn say_reason(reason: Reason) {
    match reason {
        Reason::UnknownKind => say(
            b"a kind above 7; words are read from a file whose name ends in .txt",
        ),
        Reason::LateVariable => say(b"a variable after a node"),
        Reason::OverLimit => say(b"the eleventh variable or the 201st node"),
        Reason::CutShort => say(b"the bytes end inside a record"),
        Reason::UnknownClass => say(b"a class above 2"),
        Reason::UndeclaredSet => say(b"an input names a variable that is not declared"),
        Reason::BadOperand => say(b"an operand is not a lower node"),
        Reason::NoEnd => say(b"the bytes run out with no end record"),
        Reason::BytesAfterEnd => say(b"bytes after the end record"),
        Reason::FewEntries => say(b"fewer entries than nodes"),
        Reason::ShortWork => say(b"work below 256 bytes a node"),
        Reason::NoSuchNode => say(b"there is no such node"),
        Reason::UndeclaredBit => say(b"the number has a bit of a variable that is not declared"),
        Reason::StillNamed => say(b"another node names this one"),
        Reason::TooManySteps => say(b"more steps than 512"),
        Reason::NotInFamily => say(b"the set is not in the family"),
    }
}

// A refusal's fields, with which its line begins.
fn say_refusal_fields(refusal: Refusal) {
    say_text(|text| desk_text::refusal_fields(text, refusal));
}

// Ends a line: with the number of the line in a block's text, unless that is 0.
fn say_line(line: usize) {
    if line > 0 {
        say(b", line ");
        say_number(line);
    }
    say(b"\n");
}

// Prints a refusal with its reason, and with the line of the block's text that the record stands on, unless that is 0.
pub fn say_refused(refusal: Refusal, line: usize) {
    say_refusal_fields(refusal);
    say(b" # ");
    say_reason(refusal.reason);
    say_line(line);
}

// Prints the refusal of a new node. Refusal 1 then is of every kind that is no node's, and not of those above
// 7 alone, so its reason is another.
pub fn say_refused_node(refusal: Refusal) {
    if let Reason::UnknownKind = refusal.reason {
        say_refusal_fields(refusal);
        say(b" # the record is no node\n");
    } else {
        say_refused(refusal, 0);
    }
}

// ---- sets, for people

// The letter of a class, by its byte: of secrets, masks and publics.
fn say_class(class: u8) {
    match Class::try_from(class) {
        Ok(Class::Secret) => say(b"s"),
        Ok(Class::Mask) => say(b"m"),
        _ => say(b"p"),
    }
}

// Prints a set as its variables, by class and number, as in `s0 m1`.
pub fn say_set(classes: [u8; MOST_VARIABLES], set: usize) {
    let mut others = false;
    for (v, class) in classes.iter().enumerate() {
        if (set >> v) % 2 == 1 {
            if others {
                say(b" ");
            }
            say_class(*class);
            say_number(v);
            others = true;
        }
    }
    if !others {
        say(b"the empty set");
    }
}

// ---- what was expected

// Prints a byte; `?` for one that is no printable character of ASCII.
fn say_byte(byte: u8) {
    match byte {
        b' '..=b'~' => say(&[byte]),
        _ => say(b"?"),
    }
}

// Prints what was found, at most `SHOWN` bytes of it, and ends the line.
pub fn say_found(word: &[u8]) {
    for byte in word.iter().take(SHOWN) {
        say_byte(*byte);
    }
    say(b"\n");
}

// What was expected of a record in words that has this fault.
fn say_expected(fault: Fault) {
    match fault {
        Fault::Record => say(b"expected secret, mask, public, in, not, xor, and, or, reg or end"),
        Fault::NoNumber => say(b"expected a record with no number"),
        Fault::OneNumber => say(b"expected a record with one number"),
        Fault::TwoNumbers => say(b"expected a record with two numbers"),
        Fault::Operand => say(b"expected a number from 0 to 255"),
        Fault::Variable => say(b"expected a number from 0 to 15"),
        Fault::Twice => say(b"expected each variable once"),
    }
}

// Prints what was expected of a record in words, and the line of the text that it stands on.
pub fn say_fault(fault: Fault, line: usize) {
    say_expected(fault);
    say_line(line);
}

// Prints what was expected of a record in words, and what was found.
pub fn say_fault_found(fault: Fault, word: &[u8]) {
    say_expected(fault);
    say(b", found: ");
    say_found(word);
}

// Prints that a number was expected, and what was found.
pub fn say_no_number(word: &[u8]) {
    say(b"expected a number from 0 to 18446744073709551615, found: ");
    say_found(word);
}
