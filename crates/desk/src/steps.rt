// The steps of a derivation, by their bytes.
ghost use Rattle.std.specs.Prelude.{◌≡◌, ◌+◌, ◌*◌, ◌<◌, slice_index};
ghost use Rattle.derivation_rules.specs.Derivations.{most_steps};

use derivation_steps::STEP;
use derivations::MOST_BYTES;
use desk_text::Step;

// Step `k`, from 0, by bytes 5 × k to 5 × k + 4: node, layer, rule, and the set's low and high byte.
pub fn step_at(steps: &[u8; MOST_BYTES], k: usize) -> Step
    requires { k < most_steps }
    ensures node { result.node ≡ slice_index steps.now (5 * k) }
    ensures layer { result.layer ≡ slice_index steps.now (5 * k + 1) }
    ensures rule { result.rule ≡ slice_index steps.now (5 * k + 2) }
    ensures set { result.set ≡ slice_index steps.now (5 * k + 3) + 256 * slice_index steps.now (5 * k + 4) }
{
    let at = STEP * k;
    Step {
        node: steps[at],
        layer: steps[at + 1],
        rule: steps[at + 2],
        set: u16::from_le_bytes([steps[at + 3], steps[at + 4]]),
    }
}
