// A line of edits: what it asks for. Only its form is looked at; whether the edit can be made is for the open block to
// say. It touches nothing. `edit_turns` asks it, and with the program `telgouin` does what it answers.
#![tactic(auto)]

ghost use Rattle.std.specs.Prelude.{◌≡◌, true, false, [], List, ℕ, ◌≤◌, ◌<◌, length, drop, MatchOption};
ghost use Rattle.scanner.specs.Numbers.{number_in};
ghost use Rattle.scanner.specs.Scans.{part};
ghost use Rattle.scanner.specs.Words.{words};
ghost use Rattle.edit_lines.specs.Asks.{addition, only, removal, written};
ghost use Rattle.edit_lines.specs.Asks.{alone, asked, stuck, unless_stuck, asks_in};
ghost use Rattle.edit_lines.specs.Meaning.{asks_by, asks_of, WithinBy, Within};

use read_words::{Fault, MOST_RECORD};
use scanner::{Place, is_blank, is_word, next_word};

// What a line asks for: nothing; a new node, by a record of so many bytes; a node to remove; the listing;
// the block written to the file that a part of the line names; the end of the edits. Or it is no edit:
// no record of a known form behind `add`, no number behind `remove`, or nothing of that sort at all.
#[derive(Clone, Copy)]
pub enum Ask {
    Nothing,
    Add(usize),
    Remove(usize),
    List,
    Write(usize, usize),
    Quit,
    NoRecord(Fault),
    NoNumber,
    NoEdit,
}

// The same, with the bytes that a new node's record begins.
#[derive(Clone, Copy)]
pub struct Asked {
    pub ask: Ask,
    pub own: [u8; MOST_RECORD],
}

// ---- what stands behind the first word, from `at` on

// The only word there, if there is no other.
fn only_word(line: &[u8], at: usize) -> Option<Place>
    requires { at ≤ length line.now }
    ensures { MatchOption result (only (words (drop at line.now)) ≡ []) (λ word. (word.from < word.to) ×
        (word.to ≤ length line.now) × (part word.from word.to line.now ≡ only (words (drop at line.now)))) }
{
    let word = next_word(line, at)?;
    match next_word(line, word.to) {
        Some(_) => None,
        None => Some(word),
    }
}

// A record in words.
fn added(line: &[u8], at: usize, own: &mut [u8; MOST_RECORD]) -> Ask
    requires { at ≤ length line.now }
    ensures asks { asks_by result own.new line.now ≡ addition (words (drop at line.now)) }
    ensures within { WithinBy result (length line.now) }
{
    match read_words::record_of(&line[at..], own) {
        Ok(None) => Ask::NoEdit,
        Ok(Some(count)) => Ask::Add(count),
        Err(fault) => Ask::NoRecord(fault),
    }
}

// A node to remove.
fn removed(line: &[u8], at: usize) -> Ask
    requires { at ≤ length line.now }
    ensures asks { (own : List ℕ) → asks_by result own line.now ≡
        removal (number_in (only (words (drop at line.now)))) }
    ensures within { WithinBy result (length line.now) }
{
    let Some(word) = only_word(line, at) else {
        return Ask::NoEdit;
    };
    match scanner::number_of(&line[word.from..word.to]) {
        Some(node) => Ask::Remove(node),
        None => Ask::NoNumber,
    }
}

// A file's name.
fn named(line: &[u8], at: usize) -> Ask
    requires { at ≤ length line.now }
    ensures asks { (own : List ℕ) → asks_by result own line.now ≡
        written (only (words (drop at line.now))) }
    ensures within { WithinBy result (length line.now) }
{
    match only_word(line, at) {
        Some(word) => Ask::Write(word.from, word.to),
        None => Ask::NoEdit,
    }
}

// Nothing: then it is what the first word asks for.
fn unless_more(line: &[u8], at: usize, first: Ask) -> Ask
    requires { at ≤ length line.now }
    ensures asks { (own : List ℕ) → asks_by result own line.now ≡
        alone (asks_by first own line.now) (words (drop at line.now)) }
    ensures within { WithinBy first (length line.now) → WithinBy result (length line.now) }
{
    match next_word(line, at) {
        Some(_) => Ask::NoEdit,
        None => first,
    }
}

// ---- a line

// What its words ask for.
fn by_words(line: &[u8], own: &mut [u8; MOST_RECORD]) -> Ask
    ensures asks { asks_by result own.new line.now ≡ asked (words line.now) }
    ensures within { WithinBy result (length line.now) }
{
    let Some(name) = next_word(line, 0) else {
        return Ask::Nothing;
    };
    let word = &line[name.from..name.to];
    // A `match` on the words leaves a goal for each letter at which its arms part, and they did not close.
    if is_word(word, b"add") {
        added(line, name.to, own)
    } else if is_word(word, b"remove") {
        removed(line, name.to)
    } else if is_word(word, b"write") {
        named(line, name.to)
    } else if is_word(word, b"list") {
        unless_more(line, name.to, Ask::List)
    } else if is_word(word, b"quit") {
        unless_more(line, name.to, Ask::Quit)
    } else {
        Ask::NoEdit
    }
}

// Whether a comment is stuck to a word.
fn is_stuck(line: &[u8]) -> bool
    ensures { result ≡ stuck false line.now }
{
    let mut begun = false;
    for letter in line {
        if *letter == b'#' {
            return begun;
        }
        begun = !is_blank(*letter);
    }
    false
}

// What is left of it where a comment is stuck to a word.
fn unless_named(ask: Ask) -> Ask
    ensures asks { (own line : List ℕ) → asks_by result own line ≡ unless_stuck true (asks_by ask own line) }
    ensures within { (long : ℕ) → WithinBy ask long → WithinBy result long }
{
    match ask {
        Ask::Write(_, _) => Ask::NoEdit,
        _ => ask,
    }
}

// What a line asks for, without its line feed.
pub fn asked_in(line: &[u8]) -> Asked
    ensures asks { asks_of result line.now ≡ asks_in line.now }
    ensures within { Within result (length line.now) }
{
    let mut own = [0u8; MOST_RECORD];
    let asked = by_words(line, &mut own);
    let ask = if is_stuck(line) {
        unless_named(asked)
    } else {
        asked
    };
    Asked { ask, own }
}
