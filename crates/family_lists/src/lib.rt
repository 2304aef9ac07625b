// The list of a family's sets, by bytes of its part of a slice. Reads the slice of families, and writes to a slice of
// sets. Used by `family_products`, and by test programs.
#![tactic(auto)]

ghost use Rattle.std.specs.Prelude.{◌≡◌, ◌↔◌, List, ◌++◌, ℕ, ◌+◌, ◌*◌, ◌<◌, ◌≤◌, T, length, get_or, drop};
ghost use Rattle.rules.specs.Records.{most_sets};
ghost use Rattle.families.specs.Parts.{HasPart, family_at};
ghost use Rattle.families.specs.Present.{list_at, BitsOf, Listed};

use families::PART;

// Lists the sets of one byte, whose bit k is set low + k, behind those that are listed so far, which are below `low`.
// Returns how many are listed then.
fn list_byte(byte: u8, low: usize, sets: &mut [u16], listed: usize) -> usize
    requires { (low + 8 ≤ most_sets) × (listed + 8 ≤ length sets.old) }
    ensures sets { (bytes start : List ℕ) (part : ℕ) → BitsOf byte bytes part low →
        Listed bytes part low start sets.old listed →
        Listed bytes part (low + 8) start sets.new result }
    ensures few { result ≤ listed + 8 }
{
    let mut at = listed;
    for k in 0..8 {
        if (byte >> k) % 2 == 1 {
            sets[at] = (low + k) as u16;
            at += 1;
        }
    }
    at
}

// Whether all of the eight bytes from `at` on are 0, so that they hold no set. They are joined before the test:
// with `all` the list of a sparse family took a third longer, and with `==` of slices two thirds.
fn eight_zeros(work: &[u8], at: usize) -> bool
    requires { at + 8 ≤ length work.now }
    ensures { T result ↔ ((k : ℕ) → k < 8 → get_or work.now (at + k) 0 ≡ 0) }
{
    let mut joined = 0;
    for byte in &work[at..at + 8] {
        joined |= *byte;
    }
    joined == 0
}

// Lists the sets of the eight bytes from byte 8 × `eight` of a part on, behind those that are listed so far.
// Returns how many are listed then.
fn list_eight(work: &[u8], part: usize, eight: usize, sets: &mut [u16], before: usize) -> usize
    requires { HasPart work.now part × (eight < 16) × (before + 64 ≤ length sets.old) }
    ensures sets { (start : List ℕ) → Listed work.now part (64 * eight) start sets.old before →
        Listed work.now part (64 * eight + 64) start sets.new result }
    ensures few { result ≤ before + 64 }
{
    let from = PART * part + 8 * eight;
    let low = 64 * eight;
    let mut listed = before;
    for (passed, byte) in work[from..from + 8].iter().enumerate() {
        if *byte != 0 {
            listed = list_byte(*byte, low + 8 * passed, sets, listed);
        }
    }
    listed
}

// Lists the sets that a part holds, each once and from the lowest-numbered up, at the front of `sets`;
// beyond them it keeps what it held. Returns how many there are. Eight bytes at a time that are all 0 are passed over.
pub fn list_sets(work: &[u8], part: usize, sets: &mut [u16]) -> usize
    requires { HasPart work.now part × (most_sets ≤ length sets.old) }
    ensures sets { sets.new ≡ list_at work.now part ++ drop result sets.old }
    ensures count { result ≡ length (family_at work.now part) }
{
    let from = PART * part;
    let mut listed = 0;
    for eight in 0..16 {
        if !eight_zeros(work, from + 8 * eight) {
            listed = list_eight(work, part, eight, sets, listed);
        }
    }
    listed
}
