// `why`: a derivation, a line a step.
ghost use Rattle.std.specs.Prelude.{◌≡◌, ◌+◌, ◌-◌, ◌<◌, ◌≤◌, set};
ghost use Rattle.derivation_rules.specs.Derivations.{most_steps};
ghost use Rattle.derivations.specs.Written.{Known};

use crate::node_words::{node_of, say_node};
use crate::say::{say, say_refused, say_set, say_text};
use crate::steps::step_at;
use derivations::{MOST_BYTES, MOST_STEPS};
use desk_text::Step;
use netlists::Netlist;
use rules::{Answer, Half, MOST_WORK};

// ---- how deep a step stands

// The depths of the steps that wait to be told, the next one's last: of at most one more than there may be steps.
#[derive(Drop)]
struct Waiting {
    depths: [usize; MOST_STEPS + 1],
    count: usize,
}

impl Waiting {
    // Lets one more step wait.
    fn push(&mut self, depth: usize)
        requires { self.old.count ≤ most_steps }
        ensures count { self.new.count ≡ self.old.count + 1 }
        ensures depths { self.new.depths ≡ set self.old.depths self.old.count depth }
    {
        self.depths[self.count] = depth;
        self.count += 1;
    }

    // Takes the next step's depth. Of steps that are no derivation's there may be no next; the depth is then left open.
    fn pop(&mut self) -> usize
        requires { self.old.count ≤ most_steps + 1 }
        ensures { self.new.count ≡ self.old.count - 1 }
    {
        self.count = self.count.saturating_sub(1);
        self.depths[self.count]
    }

    // Lets the steps wait that a step of this depth and rule needs, one level below it: one by rules 2, 4 and 5,
    // two by rule 6, and else none.
    fn push_operands(&mut self, depth: usize, rule: u8)
        requires { self.old.count < most_steps }
        ensures { self.new.count ≤ self.old.count + 2 }
    {
        let below = depth.wrapping_add(1);
        match rule {
            2 | 4 | 5 => self.push(below),
            6 => {
                self.push(below);
                self.push(below);
            }
            _ => {}
        }
    }
}

// ---- what it prints

// Two blanks for each level.
fn indent(depth: usize) {
    for _ in 0..depth {
        say(b"  ");
    }
}

// The layer's name, 0 for settled signals, between a comma and a colon; layer and rule are numbers, as they stand in a
// step's bytes (request A5).
fn say_layer(layer: u8) {
    if layer == 0 {
        say(b", settled: ");
    } else {
        say(b", glitching: ");
    }
}

// Which rule, in words, and the end of the line.
fn say_rule(rule: u8) {
    match rule {
        1 => say(b", its own set\n"),
        2 => say(b", as its operand has it\n"),
        3 => say(b", which such a gate always has\n"),
        4 => say(b", as its first operand has it\n"),
        5 => say(b", as its second operand has it\n"),
        _ => say(b", the difference of a set of each operand\n"),
    }
}

// The line of a step: its fields, and for people the node, the layer, the set and the rule.
fn say_step(netlist: Netlist, step: Step, depth: usize) {
    say_text(|text| desk_text::step_fields(text, step));
    say(b" # ");
    indent(depth);
    say_node(node_of(netlist, usize::from(step.node)));
    say_layer(step.layer);
    say_set(netlist.classes, usize::from(step.set));
    say_rule(step.rule);
}

// Prints the first `count` steps, a line each. A step's indentation is its depth: that of the step
// that needs it, and one more.
fn say_steps(netlist: Netlist, steps: &[u8; MOST_BYTES], count: usize)
    requires { count ≤ most_steps }
{
    let mut waiting = Waiting {
        depths: [0; MOST_STEPS + 1],
        count: 1,
    };
    for k in 0..count {
        let depth = waiting.pop();
        let step = step_at(steps, k);
        say_step(netlist, step, depth);
        waiting.push_operands(depth, step.rule);
    }
}

// The closing line: how many steps there were.
fn say_step_count(count: usize) {
    say_text(|text| desk_text::steps_fields(text, count));
    say(b"\n");
}

// Prints the derivation of a set of a node's family in a layer, or its refusal, for a netlist whose
// families are in the work bytes.
pub fn why(netlist: Netlist, work: &[u8; MOST_WORK], node: usize, layer: usize, set: usize)
    requires { Known netlist work.now }
{
    let mut steps = [0u8; MOST_BYTES];
    match derivations::derive_held(netlist, work, node, layer, set, &mut steps) {
        Err(refusal) => say_refused(refusal, 0),
        Ok(count) => {
            say_steps(netlist, &steps, count);
            say_step_count(count);
        }
    }
}

// Prints that there is no suspect to explain.
fn say_clear(answer: Answer) {
    say_text(|text| desk_text::glitch_fields(text, answer));
    say(b" # no node is suspect, so there is nothing to explain\n");
    say_step_count(0);
}

// Prints the derivation of the first glitch suspect of a netlist that got this answer, and whose
// families are in the work bytes.
pub fn why_first(answer: Answer, netlist: Netlist, work: &[u8; MOST_WORK])
    requires { Known netlist work.now }
{
    match answer.glitch {
        Half::Clear => say_clear(answer),
        Half::Suspect(node, set) => why(netlist, work, node, 1, set),
    }
}
