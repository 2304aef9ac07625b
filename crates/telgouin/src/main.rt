// The designer's desk: one program for what the library can do. `telgouin help` tells what it takes and prints.
// This file reads the command, `files` the numbers and the block, `editing` runs edits, and the crate `desk` prints.
// A block is examined once, and what was found of it is handed on. Reads the file that is named and standard input,
// and writes to standard output, to standard error and to the files that edits name.
#![tactic(auto)]

mod editing;
mod files;

ghost use Rattle.std.specs.Prelude.{◌≤◌};
ghost use Rattle.rules.specs.Listing.{most_input};
ghost use Rattle.derivations.specs.Written.{Known};
ghost use Rattle.desk.specs.Examined.{Seen};

use checker::Examined;
use desk::say::{say, say_found, say_refused};
use desk::{ask, help, picture, search, why};
use files::MOST_NUMBERS;
use read_words::{BlockSize, MOST_BLOCK};
use rules::{MOST_NODES, MOST_WORK, Refusal};
use std::fs::File;
use std::io::{IsTerminal, Read};
use std::random::RandomSource;
use std::rt::{Env, Files};

#[derive(Clone, Copy, PartialEq, Eq)]
enum Command {
    List,
    Pairs,
    Why,
    Value,
    Feeding,
    Member,
    Edit,
    Picture,
    Help,
}

// The command of a word.
fn command_of(word: &[u8]) -> Option<Command> {
    match word {
        b"list" => Some(Command::List),
        b"pairs" => Some(Command::Pairs),
        b"why" => Some(Command::Why),
        b"value" => Some(Command::Value),
        b"feeding" => Some(Command::Feeding),
        b"member" => Some(Command::Member),
        b"edit" => Some(Command::Edit),
        b"picture" => Some(Command::Picture),
        b"help" => Some(Command::Help),
        _ => None,
    }
}

// Whether a command takes so many words behind it, the file among them.
fn takes(command: Command, behind: usize) -> bool {
    match command {
        Command::Help => behind == 0,
        Command::List | Command::Edit | Command::Picture => behind == 1,
        Command::Feeding => behind == 2,
        Command::Value | Command::Member => behind == 3,
        Command::Pairs => behind == 1 || behind == 2,
        Command::Why => behind == 1 || behind == 4,
    }
}

// Prints what a command takes.
fn say_usage(command: Command) {
    say(b"expected ./telgouin ");
    match command {
        Command::List => say(b"list FILE\n"),
        Command::Pairs => say(b"pairs FILE [LIMIT]\n"),
        Command::Why => say(b"why FILE [NODE LAYER SET]\n"),
        Command::Value => say(b"value FILE NODE ASSIGNMENT\n"),
        Command::Feeding => say(b"feeding FILE NODE\n"),
        Command::Member => say(b"member FILE NODE SET\n"),
        Command::Edit => say(b"edit FILE\n"),
        Command::Picture => say(b"picture FILE\n"),
        Command::Help => say(b"help\n"),
    }
}

// Obeys a command over a whole block that was examined, with these numbers.
// The work bytes hold the block's families. How far a search is is told if that is to be shown.
fn obey_examined<R: Files<File = File> + RandomSource + Alloc, I: Read>(
    rt: &R,
    input: &mut I,
    shown: bool,
    command: Command,
    examined: Examined,
    work: &mut [u8; MOST_WORK],
    numbers: &[usize],
)
    requires { Seen examined work.old × Known examined.netlist work.old }
{
    let answer = examined.answer;
    let netlist = examined.netlist;
    match command {
        Command::List => ask::list_held(answer, netlist, work),
        Command::Pairs => {
            let limit = numbers.first().copied().unwrap_or(usize::MAX);
            search::pairs(examined, work, limit, shown);
        }
        Command::Why => match numbers {
            [node, layer, set] => why::why(netlist, work, *node, *layer, *set),
            _ => why::why_first(answer, netlist, work),
        },
        Command::Edit => editing::edit(rt, input, examined, work),
        Command::Picture => picture::picture(answer, netlist, examined.marks, work),
        _ => {}
    }
}

// Examines the block that these bytes are, and obeys a command over it, with these numbers.
// A block that is refused is left to the caller to print.
fn examine<R: Files<File = File> + RandomSource + Alloc, I: Read>(
    rt: &R,
    input: &mut I,
    shown: bool,
    command: Command,
    bytes: &[u8],
    numbers: &[usize],
) -> Result<(), Refusal> {
    let mut work = [0u8; MOST_WORK];
    let examined = checker::examine(bytes, MOST_NODES, &mut work)?;
    obey_examined(rt, input, shown, command, examined, &mut work, numbers);
    Ok(())
}

// Obeys a command over the block that these bytes are, with so many numbers: the queries read it for themselves,
// and for all others it is examined. Where the block is refused, or a query of it, nothing is printed.
fn obey<R: Files<File = File> + RandomSource + Alloc, I: Read>(
    rt: &R,
    input: &mut I,
    shown: bool,
    command: Command,
    bytes: &[u8],
    numbers: &[usize],
) -> Result<(), Refusal> {
    match (command, numbers) {
        (Command::Value, [node, assignment]) => ask::value(bytes, *node, *assignment),
        (Command::Feeding, [node]) => ask::feeding(bytes, *node),
        (Command::Member, [node, set]) => ask::member(bytes, *node, *set),
        _ => examine(rt, input, shown, command, bytes, numbers),
    }
}

// Obeys a command over the block of this size at the front of the bytes, with these numbers, and prints the
// refusal where there is one: a block that is refused gets it from every command, with the line that the record
// stands on where its text has lines.
fn run_block<R: Files<File = File> + RandomSource + Alloc, I: Read>(
    rt: &R,
    input: &mut I,
    shown: bool,
    command: Command,
    block: &[u8; MOST_BLOCK],
    size: BlockSize,
    lines: &[usize; MOST_BLOCK],
    numbers: &[usize],
)
    requires { size.bytes ≤ most_input }
{
    let outcome = obey(rt, input, shown, command, &block[..size.bytes], numbers);
    if let Err(refusal) = outcome {
        say_refused(refusal, files::line_of(refusal, lines, size.lines));
    }
}

// Obeys a command over the block of the file that is named, with so many numbers behind it. Where they are no numbers,
// or where the file has no block, what was expected is printed.
fn run<R: Files<File = File> + RandomSource + Alloc + Env, I: Read>(
    rt: &R,
    input: &mut I,
    shown: bool,
    command: Command,
    count: usize,
) {
    let mut numbers = [0usize; MOST_NUMBERS];
    if !files::take_numbers(rt, &mut numbers, count) {
        return;
    }
    let mut bytes = [0u8; MOST_BLOCK];
    let mut lines = [0usize; MOST_BLOCK];
    // Where standard input has the edits, the block cannot stand there.
    let edits = command == Command::Edit;
    if let Some(size) = files::read_block(rt, input, edits, &mut bytes, &mut lines) {
        let numbers = &numbers[..count.min(MOST_NUMBERS)];
        run_block(rt, input, shown, command, &bytes, size, &lines, numbers);
    }
}

// Prints which commands there are, and what stands in their place where there are arguments.
fn no_command(word: &[u8], words: usize) {
    say(b"expected a command: list, pairs, why, value, feeding, member, edit, picture or help");
    if words > 1 {
        say(b", found: ");
        say_found(word);
    } else {
        say(b"\n");
    }
}

fn main(rt: HostRuntime) {
    let words = files::argument_count(&rt);
    let mut word = io::buffer();
    let length = files::argument(&rt, 1, &mut word);
    let Some(command) = command_of(&word[..length]) else {
        no_command(&word[..length], words);
        return;
    };
    let behind = words.saturating_sub(2);
    if !takes(command, behind) {
        say_usage(command);
        return;
    }
    if command == Command::Help {
        help::help();
    } else if behind > 0 {
        let mut input = rt.stdin();
        // How far a search is is shown where standard error is a terminal.
        let shown = rt.stderr().is_terminal();
        run(&rt, &mut input, shown, command, behind - 1);
    }
}
