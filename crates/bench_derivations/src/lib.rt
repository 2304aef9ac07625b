// Derivations for the benchmark: the reply of `derive`, in one number. Writes to the slice of steps that it is lent.
// Called by the benchmark's Rust program (`bench/src`); no crate uses it.
#![tactic(auto)]

ghost use Rattle.std.specs.Prelude.{◌≡◌, length};
ghost use Rattle.rules.specs.Paper.{number_of, place_of};
ghost use Rattle.rules.specs.Checks.{refused};
ghost use Rattle.derivation_rules.specs.Derivations.{steps_reply, steps_after};
ghost use Rattle.bench_derivations.specs.Packed.{packed_steps};

use rules::Refusal;

// A refusal in one number: 4,096 times its number, and its place.
fn packed(refusal: Refusal) -> usize
    ensures { result ≡ packed_steps (refused (number_of refusal) (place_of refusal)) }
{
    refusals::number_of(refusal) % 4096 * 4096 + refusal.place % 4096
}

// Writes a derivation as `derive` does, and returns the number of steps, or the refusal in one number.
#[unsafe(no_mangle)]
pub extern "C" fn telgouin_derive(
    bytes: &[u8],
    node: usize,
    layer: usize,
    set: usize,
    steps: &mut [u8],
) -> usize
    ensures reply { result ≡
        packed_steps (steps_reply bytes.now node layer set (length steps.old)) }
    ensures steps { steps.new ≡ steps_after bytes.now node layer set steps.old }
{
    match derivations::derive(bytes, node, layer, set, steps) {
        Ok(count) => count,
        Err(refusal) => packed(refusal),
    }
}
