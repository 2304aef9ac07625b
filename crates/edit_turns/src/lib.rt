// Edits of a block that is held by value, a line each: what a line does to the block, whether it was at fault, and the
// reply. Of lent slices it touches the work bytes alone, and it prints and writes nothing. The program uses it.
#![tactic(auto)]

ghost use Rattle.std.specs.Prelude.{◌≡◌, true, List, ℕ, length};
ghost use Rattle.rules.specs.Records as Records;
ghost use Rattle.rules.specs.Records.{most_nodes};
ghost use Rattle.rules.specs.Families.{findings};
ghost use Rattle.rules.specs.Checks.{answered, refused, admitted, most_work};
ghost use Rattle.rules.specs.Slices.{reply};
ghost use Rattle.rules.specs.Paper.{reply_of};
ghost use Rattle.checker.specs.Work.{replied, kept_netlist, kept_marks};
ghost use Rattle.edit_rules.specs.Meaning.{edit_of};
ghost use Rattle.held_blocks.specs.Held.{IsHeld};
ghost use Rattle.edit_lines.specs.Asks.{changes, asks_in};
ghost use Rattle.edit_lines.specs.Meaning.{asks_of, Within};
ghost use Rattle.edit_turns.specs.Turns.{Standing, begun, failed};
ghost use Rattle.edit_turns.specs.Meaning.{Stands, Answers, turned_of, unchanged_of};

use checker::Examined;
use edit_lines::{Ask, Asked};
use edit_rules::Edit;
use held_blocks::HeldBlock;
use marks::Marks;
use netlists::Netlist;
use rules::{Answer, Half, MOST_WORK, Refusal};

// Between two lines: the netlist and its marks, its answer, whether something was at fault so far, and how many edits
// were made.
#[derive(Clone, Copy)]
pub struct Turn {
    pub netlist: Netlist,
    pub marks: Marks,
    pub answer: Answer,
    pub faulty: bool,
    pub made: usize,
}

// The turn after a line or an opening, and the reply: to an edit or an opening its own, and else the answer for the
// block as it is.
#[derive(Clone, Copy)]
pub struct Told {
    pub turn: Turn,
    pub reply: Result<Answer, Refusal>,
}

// What a line asks for, and what became of it.
#[derive(Clone, Copy)]
pub struct Obeyed {
    pub asked: Asked,
    pub told: Told,
}

// ---- the start

// A turn of no block, at fault: what `begin_with` gives where a block is refused, since a turn has a netlist, marks and
// an answer.
fn no_turn() -> Turn
    ensures { result.faulty ≡ true }
{
    let answer = Answer {
        variables: 0,
        nodes: 0,
        settled: Half::Clear,
        glitch: Half::Clear,
    };
    Turn {
        netlist: netlists::no_records(),
        marks: marks::no_marks(),
        answer,
        faulty: true,
        made: 0,
    }
}

// The turn of a block that was opened, and the reply to that. Where it was refused, the turn is at fault, and its
// netlist, marks and answer are left open.
pub fn begin_with(opened: Result<Examined, Refusal>) -> Told
    ensures reply { reply_of result.reply ≡ replied opened }
    ensures stands { (n : Records.Netlist) (work : List ℕ) → IsHeld n (kept_netlist opened) (kept_marks opened) work →
        replied opened ≡ answered (findings n) → Stands (begun n) result.turn work }
    ensures refused { (k p : ℕ) → reply_of result.reply ≡ refused k p → result.turn.faulty ≡ true }
{
    match opened {
        Err(refusal) => Told {
            turn: no_turn(),
            reply: Err(refusal),
        },
        Ok(examined) => Told {
            turn: Turn {
                netlist: examined.netlist,
                marks: examined.marks,
                answer: examined.answer,
                faulty: false,
                made: 0,
            },
            reply: Ok(examined.answer),
        },
    }
}

// Opens a block. Where it is refused, the turn is at fault, and its netlist, marks and answer are left open.
pub fn begin(bytes: &[u8], work: &mut [u8; MOST_WORK]) -> Told
    ensures reply { reply_of result.reply ≡ reply bytes.now most_nodes most_work }
    ensures stands { (n : Records.Netlist) → admitted bytes.now most_nodes most_work ≡ answered n →
        Stands (begun n) result.turn work.new }
    ensures refused { (k p : ℕ) → reply_of result.reply ≡ refused k p → result.turn.faulty ≡ true }
{
    let opened = held_blocks::open_held(bytes, work);
    begin_with(match opened.reply {
        Err(refusal) => Err(refusal),
        Ok(answer) => Ok(Examined {
            answer,
            netlist: opened.netlist,
            marks: opened.marks,
        }),
    })
}

// ---- a line

// Something could not be obeyed: the block stays as it is.
pub fn at_fault(mut turn: Turn) -> Turn
    ensures { (s : Standing) (work : List ℕ) → Stands s turn work → Stands (failed s) result work }
{
    turn.faulty = true;
    turn
}

// The turn once an edit gave this: its reply, and the netlist and its marks as they then are.
fn turned(turn: Turn, changed: HeldBlock) -> Turn
    ensures { result ≡ turned_of turn changed }
{
    let next = Turn {
        netlist: changed.netlist,
        marks: changed.marks,
        ..turn
    };
    match changed.reply {
        Err(_) => Turn {
            faulty: true,
            ..next
        },
        Ok(answer) => Turn {
            answer,
            made: next.made.saturating_add(1),
            ..next
        },
    }
}

// Makes an edit, with the bytes of its record: none, where a node is removed.
fn change(turn: Turn, edit: Edit, bytes: &[u8], work: &mut [u8; MOST_WORK]) -> Told
    ensures { (s : Standing) → Stands s turn work.old →
        Answers s (changes (edit_of edit bytes.now)) result work.new }
{
    let changed = held_blocks::edit_held(turn.netlist, turn.marks, edit, bytes, work);
    Told {
        turn: turned(turn, changed),
        reply: changed.reply,
    }
}

// The block as it is, and its answer.
fn unchanged(turn: Turn) -> Told
    ensures { result ≡ unchanged_of turn }
{
    let reply = Ok(turn.answer);
    Told { turn, reply }
}

// Does what a line asks for, as far as the block is concerned.
fn answer_to(turn: Turn, asked: Asked, line: &[u8], work: &mut [u8; MOST_WORK]) -> Told
    requires { Within asked (length line.now) }
    ensures { (s : Standing) → Stands s turn work.old →
        Answers s (asks_of asked line.now) result work.new }
{
    match asked.ask {
        Ask::Add(count) => change(turn, Edit::Add, &asked.own[..count], work),
        Ask::Remove(node) => change(turn, Edit::Remove(node), &[], work),
        Ask::NoRecord(_) | Ask::NoNumber | Ask::NoEdit => unchanged(at_fault(turn)),
        Ask::Nothing | Ask::List | Ask::Write(_, _) | Ask::Quit => unchanged(turn),
    }
}

// Obeys a line, without its line feed: the block after it is the one before it with just the edit that the line asks
// for.
pub fn obey(turn: Turn, line: &[u8], work: &mut [u8; MOST_WORK]) -> Obeyed
    ensures asked { asks_of result.asked line.now ≡ asks_in line.now }
    ensures within { Within result.asked (length line.now) }
    ensures answers { (s : Standing) → Stands s turn work.old →
        Answers s (asks_in line.now) result.told work.new }
{
    let asked = edit_lines::asked_in(line);
    let told = answer_to(turn, asked, line, work);
    Obeyed { asked, told }
}
