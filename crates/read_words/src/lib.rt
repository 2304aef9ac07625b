// Blocks in words: the bytes of a block that is written in words, a record to a line. Only the form of each line is
// looked at; whether the records obey the rules is for the checker to say. It touches nothing but the arrays that it is
// lent. The program reads blocks by it, `edit_lines` the record of a new node, and `write_words` takes its words.
#![tactic(auto)]

ghost use Rattle.std.specs.Prelude.{◌≡◌, [], List, ℕ, ◌+◌, ◌≤◌, ◌<◌, min, length, get_or, set, find, MatchOption, MatchResult};
ghost use Rattle.std.proofs.lemmas.List.Edits.{sets};
ghost use Rattle.rules.specs.Records as Records;
ghost use Rattle.rules.specs.Records.{kind_number, variable, Record};
ghost use Rattle.netlists.specs.Kinds.{byte_of, class_in};
ghost use Rattle.scanner.specs.Words.{words, same};
ghost use Rattle.read_words.specs.Words.{says, wrong, Said, alone, with_numbers, operand_in, with_operands};
ghost use Rattle.read_words.specs.Words.{with_variables, forms, read_by, record_in};
ghost use Rattle.read_words.specs.Meaning.{name_of, form_by, form_at, reads_of, read_as, IsRecord, Tells, TellsRecord, TellsBlock};

use netlists::{Class, Kind};
use rules::MOST_BODY;
use scanner::{count_words, next_word, number_below, word_at};

// The most bytes of a block that are looked at.
pub const MOST_BLOCK: usize = 1024;

// The most bytes of a text in words that is read.
pub const MOST_TEXT: usize = 65536;

// The most bytes of a record: its kind byte and the longest body.
pub const MOST_RECORD: usize = 1 + MOST_BODY;

// What was expected: a record's word; a record with no, with one or with two numbers; an operand, from 0 to 255; a
// variable, from 0 to 15; each variable once.
#[derive(Clone, Copy, Debug, PartialEq, Eq)]
pub enum Fault {
    Record,
    NoNumber,
    OneNumber,
    TwoNumbers,
    Operand,
    Variable,
    Twice,
}

// What was expected instead, and in which line, from 1.
#[derive(Clone, Copy, Debug, PartialEq, Eq)]
pub struct LineFault {
    pub fault: Fault,
    pub line: usize,
}

// How many bytes a block has, and how many lines its text.
#[derive(Clone, Copy, Debug, PartialEq, Eq)]
pub struct BlockSize {
    pub bytes: usize,
    pub lines: usize,
}

// What the first word of a record says that it is.
#[derive(Clone, Copy, Debug, PartialEq, Eq)]
pub enum RecordForm {
    End,
    Secret,
    Mask,
    Public,
    Input,
    Not,
    Xor,
    And,
    Or,
    Register,
}

// All forms, in the order of their words, since an enum has no list of its own cases.
const FORMS: [RecordForm; 10] = [
    RecordForm::End,
    RecordForm::Secret,
    RecordForm::Mask,
    RecordForm::Public,
    RecordForm::Input,
    RecordForm::Not,
    RecordForm::Xor,
    RecordForm::And,
    RecordForm::Or,
    RecordForm::Register,
];

// The bytes of a record, of which the first `size` are its own, and those behind them are 0. An array and a size, since
// memory is fixed.
#[derive(Clone, Copy)]
struct RecordBytes {
    bytes: [u8; MOST_RECORD],
    size: usize,
}

// ---- the record of a line: `numbers` is what stands behind its first word

// The operand that word `k` of a line is.
fn operand_at(line: &[u8], k: usize) -> Option<u8>
    ensures { MatchOption result (255 < operand_in (get_or (words line.now) k []))
        (λ operand. operand ≡ operand_in (get_or (words line.now) k [])) }
{
    let word = word_at(line, k)?;
    let number = scanner::number_of(&line[word.from..word.to])?;
    u8::try_from(number).ok()
}

// That so many numbers stand behind a record's word.
fn has_numbers(numbers: &[u8], count: usize) -> Result<(), Fault>
    ensures { MatchResult result (λ _. length (words numbers.now) ≡ count)
        (λ fault. (said : Said) → with_numbers count (words numbers.now) said ≡ wrong fault) }
{
    if count_words(numbers) == count {
        return Ok(());
    }
    Err(match count {
        0 => Fault::NoNumber,
        1 => Fault::OneNumber,
        _ => Fault::TwoNumbers,
    })
}

// A record whose word has no number behind it.
fn alone_record(numbers: &[u8], given: RecordBytes) -> Result<RecordBytes, Fault>
    ensures { (own : Record) → IsRecord (says own) given.size given.bytes → Tells result (alone own (words numbers.now)) }
{
    has_numbers(numbers, 0)?;
    Ok(given)
}

// A variable, which has no number behind its class.
fn variable_record(numbers: &[u8], class: Class) -> Result<RecordBytes, Fault>
    ensures { Tells result (alone (variable (class_in class)) (words numbers.now)) }
{
    let bytes = [Kind::Variable.byte(), class.byte(), 0];
    alone_record(numbers, RecordBytes { bytes, size: 2 })
}

// An input: its variables, as the sum of 2 to the power v over its variables v.
fn input_record(numbers: &[u8]) -> Result<RecordBytes, Fault>
    ensures { Tells result (with_variables 0 (words numbers.now)) }
{
    let mut set: u16 = 0;
    let mut at = 0;
    while let Some(word) = next_word(numbers, at) {
        let variable = number_below(&numbers[word.from..word.to], 16).ok_or(Fault::Variable)?;
        let power = 1u16 << variable;
        if set / power % 2 == 1 {
            return Err(Fault::Twice);
        }
        set += power;
        at = word.to;
    }
    let [low, high] = set.to_le_bytes();
    Ok(RecordBytes {
        bytes: [Kind::Input.byte(), low, high],
        size: 3,
    })
}

// A gate or a register: as many numbers as its kind has operands.
fn gate_record(numbers: &[u8], kind: Kind) -> Result<RecordBytes, Fault>
    ensures { (own : Records.Kind) → byte_of kind ≡ kind_number own
        → Tells result (with_operands own (words numbers.now)) }
{
    let byte = kind.byte();
    let count = netlists::operand_count(byte);
    has_numbers(numbers, count)?;
    let mut bytes = [0u8; MOST_RECORD];
    bytes[0] = byte;
    for j in 0..count {
        bytes[1 + j] = operand_at(numbers, j).ok_or(Fault::Operand)?;
    }
    Ok(RecordBytes {
        bytes,
        size: 1 + count,
    })
}

// ---- the forms of a record

impl RecordForm {
    // The word of a form.
    pub fn word(self) -> &'static [u8]
        ensures named { result.now ≡ name_of (form_by self) }
        ensures short { length result.now ≤ 6 }
    {
        match self {
            RecordForm::End => b"end",
            RecordForm::Secret => b"secret",
            RecordForm::Mask => b"mask",
            RecordForm::Public => b"public",
            RecordForm::Input => listing_lines::name_of(Kind::Input.byte()),
            RecordForm::Not => listing_lines::name_of(Kind::Not.byte()),
            RecordForm::Xor => listing_lines::name_of(Kind::Xor.byte()),
            RecordForm::And => listing_lines::name_of(Kind::And.byte()),
            RecordForm::Or => listing_lines::name_of(Kind::Or.byte()),
            RecordForm::Register => listing_lines::name_of(Kind::Register.byte()),
        }
    }
}

// The word of the form with this number, from 0: its place among the forms. A number that is no form's has no letters.
pub fn word_of(form: u8) -> &'static [u8]
    ensures named { result.now ≡ name_of (form_at form) }
    ensures short { length result.now ≤ 6 }
{
    let at = usize::from(form);
    if at < FORMS.len() {
        FORMS[at].word()
    } else {
        b""
    }
}

// Whether a word is that of a form.
fn has_word(form: RecordForm, word: &[u8]) -> bool
    ensures { result ≡ same word.now (name_of (form_by form)) }
{
    scanner::is_word(word, form.word())
}

// The form whose word this is.
fn form_of(word: &[u8]) -> Option<RecordForm>
    ensures { result ≡ find (λ form. same word.now (name_of (form_by form))) FORMS }
{
    FORMS.iter().copied().find(|form| has_word(*form, word))
}

// The record of a form, of what stands behind its word.
fn record_by(form: RecordForm, numbers: &[u8]) -> Result<RecordBytes, Fault>
    ensures { Tells result (reads_of (form_by form) (words numbers.now)) }
{
    match form {
        RecordForm::End => alone_record(
            numbers,
            RecordBytes {
                bytes: [Kind::End.byte(), 0, 0],
                size: 1,
            },
        ),
        RecordForm::Secret => variable_record(numbers, Class::Secret),
        RecordForm::Mask => variable_record(numbers, Class::Mask),
        RecordForm::Public => variable_record(numbers, Class::Public),
        RecordForm::Input => input_record(numbers),
        RecordForm::Not => gate_record(numbers, Kind::Not),
        RecordForm::Xor => gate_record(numbers, Kind::Xor),
        RecordForm::And => gate_record(numbers, Kind::And),
        RecordForm::Or => gate_record(numbers, Kind::Or),
        RecordForm::Register => gate_record(numbers, Kind::Register),
    }
}

// The record that a line says, without its line feed: none where it has no words, so many bytes at the front of
// `bytes` with 0 behind them, or what was expected instead. Where there is no record, `bytes` is as it was.
pub fn record_of(line: &[u8], bytes: &mut [u8; MOST_RECORD]) -> Result<Option<usize>, Fault>
    ensures { TellsRecord result bytes.old bytes.new (record_in (words line.now)) }
{
    let Some(word) = next_word(line, 0) else {
        return Ok(None);
    };
    let form = form_of(&line[word.from..word.to]).ok_or(Fault::Record)?;
    let RecordBytes { bytes: own, size } = record_by(form, &line[word.to..])?;
    *bytes = own;
    Ok(Some(size))
}

// ---- the block of a text

// The line of a record at its place in a block, if there is room. By `get_mut` the goals did not close.
fn put_line(lines: &mut [usize], at: usize, line: usize)
    ensures { lines.new ≡ set lines.old at line }
{
    if at < lines.len() {
        lines[at] = line;
    }
}

// The bytes of a record behind the first `at` of a block, as far as there is room: how many the block has then.
fn put_record(bytes: &mut [u8], at: usize, own: &[u8]) -> usize
    requires { at ≤ length bytes.old }
    ensures end { result ≡ min (at + length own.now) (length bytes.old) }
    ensures bytes { bytes.new ≡ sets bytes.old at own.now }
{
    let room = own.len().min(bytes.len() - at);
    bytes[at..at + room].copy_from_slice(&own[..room]);
    at + room
}

// The block that a text says: how many bytes it has, those beyond 1,024 left out, and how many lines the text has,
// at least 1; or what was expected instead, and in which line. `lines[k]` is the line of the record whose kind byte
// is at offset `k` of the block. Where something else was expected, both arrays hold what the lines before it say.
// All else in them is as it was.
pub fn block_of(
    text: &[u8],
    bytes: &mut [u8; MOST_BLOCK],
    lines: &mut [usize; MOST_BLOCK],
) -> Result<BlockSize, LineFault>
    ensures { TellsBlock result text.now bytes.old lines.old bytes.new lines.new }
{
    let mut count = 0;
    let mut line = 0;
    let mut at = 0;
    while at < text.len() {
        let place = scanner::next_line(text, at);
        let mut record = [0u8; MOST_RECORD];
        line += 1;
        match record_of(&text[at..place.to], &mut record) {
            Ok(None) => {}
            Ok(Some(size)) => {
                put_line(lines, count, line);
                count = put_record(bytes, count, &record[..size]);
            }
            Err(fault) => return Err(LineFault { fault, line }),
        }
        at = place.next;
    }
    Ok(BlockSize {
        bytes: count,
        lines: line.max(1),
    })
}
