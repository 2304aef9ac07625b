// The arguments, and the file that holds the block: what is read here is all that a command is given.
ghost use Rattle.std.specs.Prelude.{◌≡◌, ◌+◌, ◌<◌, get_or};
ghost use Rattle.io.specs.Counts.{IsPrefixLen};
ghost use Rattle.rules.specs.Paper.{number_of, place_of};
ghost use Rattle.telgouin.specs.Files.{SameBehind, FrontRead, FromFile, AsBytes, has_words, line_in};

use desk::say::{say, say_fault, say_found, say_no_number, say_number};
use read_words::{BlockSize, MOST_BLOCK, MOST_TEXT};
use rules::{Reason, Refusal};
use std::env::FillError;
use std::fs;
use std::rt::{Env, Files};

// The argument that names the file, and the first of the numbers behind it.
const FILE: usize = 2;

const NUMBERS: usize = 3;

// The most numbers that a command takes.
pub const MOST_NUMBERS: usize = 3;

// ---- arguments

// How many arguments the program was started with, its own name among them.
pub fn argument_count<R: Env>(rt: &R) -> usize {
    let mut word = [0u8; 1];
    for i in 0..usize::MAX {
        if let Err(FillError::NotPresent) = rt.arg(i, &mut word) {
            return i;
        }
    }
    usize::MAX
}

// Puts argument `i` at the front of `word`. Returns how many bytes it has, 0 where there is none, or one for which
// there is no room.
pub fn argument<R: Env>(rt: &R, i: usize, word: &mut [u8]) -> usize
    ensures { IsPrefixLen result word.new }
{
    match rt.arg(i, word) {
        Ok(length) => length,
        Err(_) => 0,
    }
}

// ---- numbers

// Takes argument `i` as number `k`: whether it is a number; where it is none, what was expected is printed.
fn take_number<R: Env>(rt: &R, i: usize, into: &mut [usize; MOST_NUMBERS], k: usize) -> bool
    requires { k < 3 }
    ensures { SameBehind (k + 1) into.old into.new }
{
    let mut word = io::buffer();
    let length = argument(rt, i, &mut word);
    match scanner::number_of(&word[..length]) {
        Some(number) => {
            into[k] = number;
            true
        }
        None => {
            say_no_number(&word[..length]);
            false
        }
    }
}

// Takes `count` numbers, at most three, from left to right: whether they are numbers; at the first that is none, what
// was expected is printed. Which numbers the arguments are no contract can say; those behind them stay as they were.
pub fn take_numbers<R: Env>(rt: &R, into: &mut [usize; MOST_NUMBERS], count: usize) -> bool
    ensures { SameBehind count into.old into.new }
{
    for k in 0..count.min(MOST_NUMBERS) {
        if !take_number(rt, NUMBERS + k, into, k) {
            return false;
        }
    }
    true
}

// ---- the file

// What was read: so many bytes, which are all, or the first of more; or nothing, since it cannot be read. Three cases
// that are told apart in what is printed, and so no `Result`.
#[derive(Clone, Copy)]
enum Read {
    All(usize),
    First(usize),
    Failed,
}

// Reads until the slice is full or the input ends.
fn read_from<F: std::io::Read>(file: &mut F, into: &mut [u8]) -> Read
    ensures { FrontRead result into.new }
{
    match input_bytes::read_input(file, into) {
        Err(_) => Read::Failed,
        Ok(count) => {
            if count < into.len() {
                return Read::All(count);
            }
            let mut more = [0u8; 1];
            match file.read(&mut more) {
                Err(_) => Read::Failed,
                Ok(behind) => {
                    if behind > 0 {
                        return Read::First(count);
                    }
                    Read::All(count)
                }
            }
        }
    }
}

// A block is answered by its size: how many bytes it has, and how many lines its text in words, or 0 for one that is
// given as bytes. Where there is none, what was expected has been printed.

// No block, since a file cannot be read; says so.
fn unreadable(name: &[u8]) -> Option<BlockSize>
    ensures { result ≡ None }
{
    say(b"expected a file that can be read, found: ");
    say_found(name);
    None
}

// The block that a text in words says, with the line of each record; says what was expected where it says none.
fn translated(
    text: &[u8],
    bytes: &mut [u8; MOST_BLOCK],
    lines: &mut [usize; MOST_BLOCK],
) -> Option<BlockSize>
    ensures { FromFile result bytes.old lines.old bytes.new lines.new }
{
    match read_words::block_of(text, bytes, lines) {
        Ok(size) => Some(size),
        Err(found) => {
            say_fault(found.fault, found.line);
            None
        }
    }
}

// No block, since a text in words is too long; says so.
fn too_long() -> Option<BlockSize>
    ensures { result ≡ None }
{
    say(b"expected at most ");
    say_number(MOST_TEXT);
    say(b" bytes of words, found more\n");
    None
}

// Reads a block in words from a file that is open, by way of `text`.
fn read_words<F: std::io::Read>(
    file: &mut F,
    name: &[u8],
    text: &mut [u8],
    bytes: &mut [u8; MOST_BLOCK],
    lines: &mut [usize; MOST_BLOCK],
) -> Option<BlockSize>
    ensures { FromFile result bytes.old lines.old bytes.new lines.new }
{
    match read_from(file, text) {
        Read::Failed => unreadable(name),
        Read::First(_) => too_long(),
        Read::All(count) => translated(&text[..count], bytes, lines),
    }
}

// Reads a block that is given as bytes from a file that is open: as many as fit, which are more than a block may have.
fn read_bytes<F: std::io::Read>(
    file: &mut F,
    name: &[u8],
    bytes: &mut [u8; MOST_BLOCK],
) -> Option<BlockSize>
    ensures { AsBytes result }
{
    match read_from(file, bytes) {
        Read::Failed => unreadable(name),
        Read::First(count) | Read::All(count) => Some(BlockSize {
            bytes: count,
            lines: 0,
        }),
    }
}

// Whether a file has a block in words: its name ends in `.txt`.
pub fn has_words(name: &[u8]) -> bool
    ensures { result ≡ has_words name.now }
{
    let from = name.len().saturating_sub(4);
    scanner::is_word(&name[from..], b".txt")
}

// The block of an open file, in words or as bytes by its name.
fn read_open<F: std::io::Read>(
    file: &mut F,
    name: &[u8],
    bytes: &mut [u8; MOST_BLOCK],
    lines: &mut [usize; MOST_BLOCK],
) -> Option<BlockSize>
    ensures { FromFile result bytes.old lines.old bytes.new lines.new }
{
    if has_words(name) {
        let mut text = io::large_buffer();
        return read_words(file, name, &mut text, bytes, lines);
    }
    read_bytes(file, name, bytes)
}

// The block of the file that is named. One whose name is no UTF-8 is not read, since std opens files by text alone.
fn read_named<R: Files>(
    rt: &R,
    name: &[u8],
    bytes: &mut [u8; MOST_BLOCK],
    lines: &mut [usize; MOST_BLOCK],
) -> Option<BlockSize>
    ensures { FromFile result bytes.old lines.old bytes.new lines.new }
{
    match std::str::from_utf8(name) {
        Err(_) => unreadable(name),
        Ok(path) => match fs::open(rt, path) {
            Err(_) => unreadable(name),
            Ok(mut file) => read_open(&mut file, name, bytes, lines),
        },
    }
}

// The block of the file that is named, or of standard input for `-` unless that has the edits.
pub fn read_block<R: Env + Files, I: std::io::Read>(
    rt: &R,
    input: &mut I,
    edits: bool,
    bytes: &mut [u8; MOST_BLOCK],
    lines: &mut [usize; MOST_BLOCK],
) -> Option<BlockSize>
    ensures { FromFile result bytes.old lines.old bytes.new lines.new }
{
    let mut path = io::buffer();
    let length = argument(rt, FILE, &mut path);
    if !scanner::is_word(&path[..length], b"-") {
        return read_named(rt, &path[..length], bytes, lines);
    }
    if edits {
        say(b"expected a file to edit, found: -, where the edits are\n");
        return None;
    }
    read_bytes(input, &path[..length], bytes)
}

// The line of the record at a place, and the last one where there is no such record.
fn line_at(lines: &[usize], place: usize, last: usize) -> usize
    ensures { result ≡ get_or lines.now place last }
{
    lines.get(place).copied().unwrap_or(last)
}

// The line of a text in words that a refused record stands on, where the text has so many lines: with no end record it
// is the last line. 0 for a block that is given as bytes, and for a refusal that is of no record.
pub fn line_of(refusal: Refusal, lines: &[usize; MOST_BLOCK], last: usize) -> usize
    ensures { result ≡ line_in (number_of refusal) (place_of refusal) lines.now last }
{
    if last == 0 {
        return 0;
    }
    match refusal.reason {
        Reason::NoEnd => last,
        Reason::UnknownKind
        | Reason::LateVariable
        | Reason::OverLimit
        | Reason::CutShort
        | Reason::UnknownClass
        | Reason::UndeclaredSet
        | Reason::BadOperand
        | Reason::BytesAfterEnd => line_at(lines, refusal.place, last),
        Reason::FewEntries
        | Reason::ShortWork
        | Reason::NoSuchNode
        | Reason::UndeclaredBit
        | Reason::StillNamed
        | Reason::TooManySteps
        | Reason::NotInFamily => 0,
    }
}
