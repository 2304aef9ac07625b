// The suspect sets of one family, a part of the work bytes: which of them it reports, or that it holds none. A map of
// the suspect sets says whether it holds one, and only then its sets are tried, in the order of their report. Beside it
// the secrets and masks of a netlist, as sets, and which nodes are tested. Reads the work bytes and writes to no lent
// slice. Used by `suspects`, `marks`, `pair_tests` and `pair_search`.
#![tactic(auto)]

ghost use Rattle.std.specs.Prelude.{◌≡◌, ◌&&◌, List, ◌<◌, ◌≤◌, IfSome};
ghost use Rattle.rules.specs.Lists.{member};
ghost use Rattle.rules.specs.Records as Records;
ghost use Rattle.rules.specs.Records.{Cell, class_byte, kind_of, most_variables, most_sets};
ghost use Rattle.rules.specs.Families.{suspect, tested, reported};
ghost use Rattle.netlists.specs.Netlists.{flat_of};
ghost use Rattle.families.specs.Parts.{HasPart, family_at};
ghost use Rattle.suspect_sets.specs.Sets.{variables_of, ByClass, report_of};

use netlists::{Class, Kind, Netlist};
use set_order::sets_in_order;

// Which variables are secrets and which are masks, as sets.
#[derive(Clone, Copy)]
pub struct Classes {
    pub secrets: usize,
    pub masks: usize,
}

// The declared variables of a class, which is given by its byte, as a set.
pub fn variables_of(netlist: Netlist, class: u8) -> usize
    requires { netlist.variables ≤ most_variables }
    ensures { (n : Records.Netlist) (c : Records.Class) → netlist ≡ flat_of n → class ≡ class_byte c →
        result ≡ variables_of c n.variables }
{
    let mut set = 0;
    for v in 0..netlist.variables {
        if netlist.classes[v] == class {
            set += 1 << v;
        }
    }
    set
}

// The declared secrets and masks, as sets.
pub fn classes_of(netlist: Netlist) -> Classes
    requires { netlist.variables ≤ most_variables }
    ensures { (n : Records.Netlist) → netlist ≡ flat_of n → ByClass result n.variables }
{
    Classes {
        secrets: variables_of(netlist, Class::Secret.byte()),
        masks: variables_of(netlist, Class::Mask.byte()),
    }
}

// Whether a set holds a secret and no mask and is in the part. Most sets hold a mask, so that is tested first.
pub fn suspect_in(work: &[u8], part: usize, classes: Classes, set: usize) -> bool
    requires { HasPart work.now part × (set < most_sets) }
    ensures { (variables : List Records.Class) → ByClass classes variables →
        result ≡ (suspect variables set && member set (family_at work.now part)) }
{
    set & classes.masks == 0 && set & classes.secrets != 0 && families::holds(work, part, set)
}

// The suspect set that a part reports, if it holds one: that with fewest variables, and of those with as many the
// lowest-numbered.
pub fn first_suspect(work: &[u8], part: usize, classes: Classes) -> Option<usize>
    requires { HasPart work.now part }
    ensures reported { (variables : List Records.Class) → ByClass classes variables →
        report_of result ≡ reported variables (family_at work.now part) }
    ensures is_set { IfSome result (λ A. A < most_sets) }
{
    let map = suspect_maps::suspect_map(classes.secrets, classes.masks);
    if !suspect_maps::meets(work, part, map) {
        return None;
    }
    for set in sets_in_order() {
        let set = usize::from(set);
        if suspect_in(work, part, classes, set) {
            return Some(set);
        }
    }
    None
}

// Whether nodes of this kind are tested: all but inputs are.
pub fn is_tested(kind: u8) -> bool
    ensures { (cell : Cell) → kind ≡ kind_of cell → result ≡ tested cell }
{
    kind != Kind::Input.byte()
}
