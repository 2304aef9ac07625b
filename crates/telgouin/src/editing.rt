// `edit`: edits of a block that is held by value, a line each. It reads standard input, prints to standard output, and
// writes the files that lines name.
ghost use Rattle.std.specs.Prelude.{◌≡◌, Ok, true, List, ℕ, ◌+◌, ◌≤◌, ◌<◌, length, take};
ghost use Rattle.rules.specs.Records as Records;
ghost use Rattle.rules.specs.Families.{findings};
ghost use Rattle.rules.specs.Checks.{answered};
ghost use Rattle.checker.specs.Work.{replied};
ghost use Rattle.held_blocks.specs.Held.{IsHeld};
ghost use Rattle.edit_turns.specs.Turns.{Standing, failed};
ghost use Rattle.edit_turns.specs.Meaning.{Stands};
ghost use Rattle.telgouin.specs.Editing.{Fits, Wrote, Obeyed, Stepped, Ran, Edited};

use crate::files::has_words;
use checker::Examined;
use desk::ask::list_held;
use desk::say::{
    say, say_answer, say_closing, say_fault_found, say_found, say_no_number, say_refused,
    say_refused_node,
};
use edit_lines::Ask;
use edit_turns::Turn;
use netlists::Netlist;
use read_words::Fault;
use rules::{Answer, MOST_VARIABLES, MOST_WORK, Refusal};
use std::fs::File;
use std::io::Read;
use std::random::RandomSource;
use std::rt::Files;
use write_bytes::MOST_WRITTEN;
use write_words::MOST_WORDS;

// The most bytes of an edit's line, its line feed among them.
const MOST_LINE: usize = 4097;

// The most turns. That an input ends is not known, so they are counted down from a number that nobody uses up.
const MOST_TURNS: u64 = u64::MAX;

// Between two lines: the open block, how many turns are left, and whether more edits are read.
#[derive(Clone, Copy)]
struct Run {
    turn: Turn,
    left: u64,
    more: bool,
}

// After a line: the open block, and whether more edits are read.
#[derive(Clone, Copy)]
struct Taken {
    turn: Turn,
    more: bool,
}

// ---- what is printed of a line

fn say_refused_edit(ask: Ask, refusal: Refusal) {
    match ask {
        Ask::Add(_) => say_refused_node(refusal),
        _ => say_refused(refusal, 0),
    }
}

// The answer for a block whose variables have these classes, or the refusal of an edit.
fn say_reply(ask: Ask, reply: Result<Answer, Refusal>, classes: [u8; MOST_VARIABLES]) {
    match reply {
        Err(refusal) => say_refused_edit(ask, refusal),
        Ok(answer) => say_answer(answer, classes),
    }
}

// Where the last word of a line ends.
fn words_end(line: &[u8]) -> usize
    ensures { result ≤ length line.now }
{
    let mut end = 0;
    while let Some(word) = scanner::next_word(line, end) {
        end = word.to;
    }
    end
}

// Whether a comment starts at a place.
fn starts_comment(line: &[u8], at: usize) -> bool {
    line.get(at).is_some_and(|letter| *letter == b'#')
}

// Where what is shown of a line ends: with its last word, and with the line where a comment is stuck to that, since its
// `#` may be meant for the word.
fn shown_end(line: &[u8]) -> usize
    ensures { result ≤ length line.now }
{
    let end = words_end(line);
    if starts_comment(line, end) {
        return line.len();
    }
    end
}

// A line from its word `k` on, from 0: nothing if it has no such word.
fn from_word(line: &[u8], k: usize) -> &[u8] {
    match scanner::word_at(line, k) {
        Some(word) => &line[word.from..],
        None => b"",
    }
}

// A line that is no edit, without its comment and the blanks round it.
fn say_no_edit(line: &[u8]) {
    say(b"expected add RECORD, remove NODE, list, write OUT or quit, found: ");
    say_found(from_word(&line[..shown_end(line)], 0));
}

// What stands behind `add` and is no record.
fn say_no_record(line: &[u8], fault: Fault) {
    say_fault_found(fault, from_word(&line[..words_end(line)], 1));
}

// The word behind `remove`, which is no number.
fn say_no_node(line: &[u8]) {
    if let Some(word) = scanner::word_at(line, 1) {
        say_no_number(&line[word.from..word.to]);
    }
}

// What is printed of an edit, and of a line that is none.
fn say_told(ask: Ask, line: &[u8], reply: Result<Answer, Refusal>, classes: [u8; MOST_VARIABLES]) {
    match ask {
        Ask::Add(_) => say_reply(ask, reply, classes),
        Ask::Remove(_) => say_reply(ask, reply, classes),
        Ask::NoRecord(fault) => say_no_record(line, fault),
        Ask::NoNumber => say_no_node(line),
        Ask::NoEdit => say_no_edit(line),
        _ => {}
    }
}

// ---- the block as it is now

// Writes the block to a file, in words where the file's name says so: whether it could.
fn write_block<R: Files<File = File> + RandomSource + Alloc>(
    rt: &R,
    name: &[u8],
    netlist: Netlist,
) -> bool {
    if has_words(name) {
        let mut text = [0u8; MOST_WORDS];
        let count = write_words::word_netlist(netlist, &mut text);
        return file_writes::write_file(rt, name, &text[..count]);
    }
    let mut bytes = [0u8; MOST_WRITTEN];
    let count = write_bytes::write_netlist(netlist, &mut bytes);
    file_writes::write_file(rt, name, &bytes[..count])
}

// Writes the block to a file; where it could not, the turn is at fault.
fn write<R: Files<File = File> + RandomSource + Alloc>(rt: &R, turn: Turn, name: &[u8]) -> Turn
    ensures { Wrote turn result }
{
    if write_block(rt, name, turn.netlist) {
        return turn;
    }
    say(b"expected a file that can be written, found: ");
    say_found(name);
    edit_turns::at_fault(turn)
}

// ---- lines

// Obeys a line, without its line feed.
fn obey<R: Files<File = File> + RandomSource + Alloc>(
    rt: &R,
    turn: Turn,
    line: &[u8],
    work: &mut [u8; MOST_WORK],
) -> Taken
    ensures { Obeyed line.now turn result.turn work.old work.new }
{
    let obeyed = edit_turns::obey(turn, line, work);
    let ask = obeyed.asked.ask;
    let next = obeyed.told.turn;
    match ask {
        Ask::Write(from, to) => Taken {
            turn: write(rt, next, &line[from..to]),
            more: true,
        },
        Ask::List => {
            list_held(next.answer, next.netlist, work);
            Taken {
                turn: next,
                more: true,
            }
        }
        Ask::Quit => Taken {
            turn: next,
            more: false,
        },
        _ => {
            say_told(ask, line, obeyed.told.reply, next.netlist.classes);
            Taken {
                turn: next,
                more: true,
            }
        }
    }
}

// A line of standard input, without its line feed: so many bytes; or more than a line may have; or none,
// since the input has ended, or cannot be read.
#[derive(Clone, Copy)]
enum Line {
    Of(usize),
    Long,
    End,
    Failed,
}

// The next byte of standard input, or none at its end.
fn next_byte<I: Read>(input: &mut I) -> std::io::Result<Option<u8>> {
    let mut one = [0u8; 1];
    if input.read(&mut one)? == 0 {
        return Ok(None);
    }
    Ok(Some(one[0]))
}

// The next line, at the front of `line`. What was read of a line before a read failed is no line.
fn read_line<I: Read>(input: &mut I, line: &mut [u8; MOST_LINE]) -> Line
    ensures { Fits result }
{
    for count in 0..MOST_LINE {
        match next_byte(input) {
            Err(_) => return Line::Failed,
            Ok(None) => {
                return if count == 0 {
                    Line::End
                } else {
                    Line::Of(count)
                };
            }
            Ok(Some(byte)) => {
                if byte == b'\n' {
                    return Line::Of(count);
                }
                line[count] = byte;
            }
        }
    }
    skip_line(input)
}

// Reads to the end of a line that is too long.
fn skip_line<I: Read>(input: &mut I) -> Line
    ensures { Fits result }
{
    for _ in 0..MOST_TURNS {
        match next_byte(input) {
            Err(_) => return Line::Failed,
            Ok(None) => return Line::Long,
            Ok(Some(byte)) => {
                if byte == b'\n' {
                    return Line::Long;
                }
            }
        }
    }
    Line::Failed
}

// Edits that cannot be read to their end.
fn unreadable(turn: Turn) -> Taken
    ensures { (s : Standing) (work : List ℕ) → Stands s turn work → Stands (failed s) result.turn work }
{
    say(b"expected edits that can be read, found: a read that failed\n");
    Taken {
        turn: edit_turns::at_fault(turn),
        more: false,
    }
}

// A line that is too long for an edit.
fn long_line(turn: Turn, line: &[u8; MOST_LINE]) -> Taken
    ensures { (s : Standing) (work : List ℕ) → Stands s turn work → Stands (failed s) result.turn work }
{
    say(b"expected add RECORD, remove NODE, list, write OUT or quit, found: ");
    say_found(line);
    Taken {
        turn: edit_turns::at_fault(turn),
        more: true,
    }
}

// Obeys the line that the first so many bytes are.
fn obey_first<R: Files<File = File> + RandomSource + Alloc>(
    rt: &R,
    turn: Turn,
    line: &[u8; MOST_LINE],
    count: usize,
    work: &mut [u8; MOST_WORK],
) -> Taken
    requires { count ≤ 4097 }
    ensures { Obeyed (take count line.now) turn result.turn work.old work.new }
{
    obey(rt, turn, &line[..count], work)
}

// The next line, obeyed.
fn take_line<R: Files<File = File> + RandomSource + Alloc, I: Read>(
    rt: &R,
    input: &mut I,
    turn: Turn,
    work: &mut [u8; MOST_WORK],
) -> Taken
    ensures { Stepped turn result.turn work.old work.new }
{
    let mut line = [0u8; MOST_LINE];
    match read_line(input, &mut line) {
        Line::End => Taken { turn, more: false },
        Line::Failed => unreadable(turn),
        Line::Long => long_line(turn, &line),
        Line::Of(count) => obey_first(rt, turn, &line, count, work),
    }
}

// One turn. At the last one the input has not ended, and goes unread.
fn step<R: Files<File = File> + RandomSource + Alloc, I: Read>(
    rt: &R,
    input: &mut I,
    run: Run,
    work: &mut [u8; MOST_WORK],
) -> Run
    requires { 0 < run.left }
    ensures taken { Stepped run.turn result.turn work.old work.new }
    ensures left { result.left + 1 ≡ run.left }
    ensures more { result.more ≡ true → 0 < result.left }
{
    let left = run.left - 1;
    if left == 0 {
        return Run {
            turn: unreadable(run.turn).turn,
            left,
            more: false,
        };
    }
    let taken = take_line(rt, input, run.turn, work);
    Run {
        turn: taken.turn,
        left,
        more: taken.more,
    }
}

// Line by line until the edits end.
fn run_lines<R: Files<File = File> + RandomSource + Alloc, I: Read>(
    rt: &R,
    input: &mut I,
    run: Run,
    work: &mut [u8; MOST_WORK],
) -> Run
    requires { 0 < run.left }
    ensures { Ran run.turn result.turn run.left result.left work.old work.new }
{
    let mut last = run;
    // A `while`: a turn says whether there is another, and the turns left are counted in what `Ran` says.
    while last.more {
        last = step(rt, input, last, work);
    }
    last
}

// ---- the whole

// All edits of a block that was opened: the block in the end.
fn edit_block<R: Files<File = File> + RandomSource + Alloc, I: Read>(
    rt: &R,
    input: &mut I,
    opened: Examined,
    work: &mut [u8; MOST_WORK],
) -> Turn
    ensures { (n : Records.Netlist) → IsHeld n opened.netlist opened.marks work.old →
        replied (Ok opened) ≡ answered (findings n) → Edited n result work.new }
{
    let run = Run {
        turn: edit_turns::begin_with(Ok(opened)).turn,
        left: MOST_TURNS,
        more: true,
    };
    run_lines(rt, input, run, work).turn
}

// Edits of a block that was opened over these work bytes; the last line says how they ended.
pub(crate) fn edit<R: Files<File = File> + RandomSource + Alloc, I: Read>(
    rt: &R,
    input: &mut I,
    opened: Examined,
    work: &mut [u8; MOST_WORK],
) {
    let turn = edit_block(rt, input, opened, work);
    say_closing(turn.faulty, turn.answer, turn.made, turn.netlist.classes);
}
