// A refusal's number in document 01. Takes a refusal by value and touches no lent slice. Used by what prints a refusal
// or packs it: the texts of listing and desk, the program `telgouin`, the test programs and the benchmark.
#![tactic(auto)]

ghost use Rattle.std.specs.Prelude.{◌≡◌};
ghost use Rattle.rules.specs.Paper.{number_of};

use rules::Refusal;

// A refusal's number, from 1 on.
pub fn number_of(refusal: Refusal) -> usize
    ensures { result ≡ number_of refusal }
{
    refusal.reason as usize
}
