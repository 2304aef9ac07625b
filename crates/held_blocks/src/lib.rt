// An open block held by value: its netlist and its marks, beside the work bytes that hold its families. What opening
// gives is a block that is held, of no nodes where it is refused, and so is what an edit gives, made or refused, so that
// its holder need not look at the reply to go on. Of lent slices it touches the work bytes alone. `edit_turns` uses it,
// and through that the program.
#![tactic(auto)]

ghost use Rattle.std.specs.Prelude.{◌≡◌, length};
ghost use Rattle.rules.specs.Records as Records;
ghost use Rattle.rules.specs.Records.{most_nodes};
ghost use Rattle.rules.specs.Slices.{reply};
ghost use Rattle.rules.specs.Checks.{admitted};
ghost use Rattle.rules.specs.Paper.{reply_of};
ghost use Rattle.netlists.specs.Netlists.{kept};
ghost use Rattle.edit_rules.specs.Edits.{netlist_after, reply_after};
ghost use Rattle.edit_rules.specs.Meaning.{edit_of};
ghost use Rattle.held_blocks.specs.Held.{IsHeld};

use edit_rules::Edit;
use edit_steps::Loaded;
use marks::Marks;
use netlists::Netlist;
use rules::{Answer, MOST_NODES, Refusal};

// What opening or an edit gives: the reply, and the netlist and its marks as they then are, which there are on a refusal
// too.
#[derive(Clone, Copy)]
pub struct HeldBlock {
    pub reply: Result<Answer, Refusal>,
    pub netlist: Netlist,
    pub marks: Marks,
}

// Opens a block: the reply, and the netlist and its marks, which are those of no nodes where the block is refused.
pub fn open_held(bytes: &[u8], work: &mut [u8]) -> HeldBlock
    ensures reply { reply_of result.reply ≡ reply bytes.now most_nodes (length work.old) }
    ensures held { IsHeld (kept (admitted bytes.now most_nodes (length work.old))) result.netlist result.marks work.new }
{
    match checker::examine(bytes, MOST_NODES, work) {
        Err(refusal) => HeldBlock {
            reply: Err(refusal),
            netlist: netlists::no_records(),
            marks: marks::no_marks(),
        },
        Ok(examined) => HeldBlock {
            reply: Ok(examined.answer),
            netlist: examined.netlist,
            marks: examined.marks,
        },
    }
}

// Edits a block that is held: the reply, and the netlist and its marks as they then are, which on a refusal are those
// of before. Of a block that is not held, all of these are left open.
pub fn edit_held(
    netlist: Netlist,
    marks: Marks,
    edit: Edit,
    bytes: &[u8],
    work: &mut [u8],
) -> HeldBlock
    ensures reply { (n : Records.Netlist) → IsHeld n netlist marks work.old →
        reply_of result.reply ≡
        reply_after n (edit_of edit bytes.now) most_nodes (length work.old) }
    ensures held { (n : Records.Netlist) → IsHeld n netlist marks work.old →
        IsHeld (netlist_after n (edit_of edit bytes.now) most_nodes (length work.old))
        result.netlist result.marks work.new }
{
    let loaded = Loaded {
        block: netlist,
        marks,
    };
    match edit_steps::change(loaded, edit, bytes, MOST_NODES, work) {
        Err(refusal) => HeldBlock {
            reply: Err(refusal),
            netlist,
            marks,
        },
        Ok(changed) => HeldBlock {
            reply: Ok(changed.answer),
            netlist: changed.netlist,
            marks: changed.marks,
        },
    }
}
