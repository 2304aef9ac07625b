// The test of a pair: whether the product of two families, each a part of a slice of its own, holds a suspect set.
// Reads both slices, which may be one, makes the product in bytes of its own and writes to no lent slice.
// Used by `pair_search`.
#![tactic(auto)]

ghost use Rattle.std.specs.Prelude.{◌≡◌, List, ◌<◌, IfSome};
ghost use Rattle.rules.specs.Records.{Class, most_sets};
ghost use Rattle.families.specs.Parts.{HasPart, family_at, with_family};
ghost use Rattle.suspect_sets.specs.Sets.{ByClass, report_of};
ghost use Rattle.pair_tests.specs.Tests.{report_of_parts};

use families::PART;
use suspect_sets::Classes;

// Copies the family of a part of the work bytes into a part of `scratch`.
fn take_family(scratch: &mut [u8], into: usize, work: &[u8], from: usize)
    requires { HasPart scratch.old into × HasPart work.now from }
    ensures { scratch.new ≡
        with_family scratch.old into (family_at work.now from) }
{
    let into = PART * into;
    let from = PART * from;
    scratch[into..into + PART].copy_from_slice(&work[from..from + PART]);
}

// The set that the pair of part `p` of one slice and part `q` of another reports, if it is suspect.
// The product is made in bytes of its own.
pub fn pair_set(first: &[u8], p: usize, second: &[u8], q: usize, classes: Classes) -> Option<usize>
    requires { HasPart first.now p × HasPart second.now q }
    ensures reported { (variables : List Class) → ByClass classes variables →
        report_of result ≡ report_of_parts variables first.now p second.now q }
    ensures is_set { IfSome result (λ A. A < most_sets) }
{
    let mut scratch = [0u8; 3 * PART];
    take_family(&mut scratch, 0, first, p);
    take_family(&mut scratch, 1, second, q);
    family_products::multiply(&mut scratch, 2, 0, 1);
    suspect_sets::first_suspect(&scratch, 2, classes)
}
