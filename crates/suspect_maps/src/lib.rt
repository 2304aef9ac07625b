// The map of the suspect sets, which are bits of 128 bytes as a family's sets are, and whether a part of a slice
// of families holds one of them: an answer without a walk over the sets. Reads the lent slice and writes to none.
// Used by `suspects`.
#![tactic(auto)]

ghost use Rattle.std.specs.Prelude.{◌≡◌, ◌↔◌, ℕ, ◌+◌, ◌*◌, ◌/◌, ◌^◌, ◌<◌, T, eqb};
ghost use Rattle.std.specs.Int.Bits.{bit_and};
ghost use Rattle.rules.specs.Lists.{member, tabulate};
ghost use Rattle.rules.specs.Records.{odd, most_sets};
ghost use Rattle.families.specs.Parts.{HasPart, family_at};
ghost use Rattle.suspect_maps.specs.Maps.{suspect_by, Common};

use families::PART;

// Which of the eight sets of variables 0 to 2 are disjoint, eight bytes in one number so that no table is indexed.
// Byte v, counted from the lowest, is for set v, and its bit k is 1 where set k has no variable of set v (k & v = 0).
//
//     set v     0   1   2   3   4   5   6   7
//     byte v   ff  55  33  11  0f  05  03  01
const APART: usize = 0x0103_050f_1133_55ff;

// The bits of those of the eight sets in byte `j` of a family, 8 × j to 8 × j + 7, that hold none of the variables.
fn disjoint_sets(variables: usize, j: u8) -> u8
    ensures { (k : ℕ) → k < 8 → odd (result / 2 ^ k) ≡ eqb (bit_and (8 * j + k) variables) 0 }
{
    let high = (variables / 8 % 256) as u8;
    let low = ((APART >> (8 * (variables % 8))) % 256) as u8;
    if j & high == 0 { low } else { 0 }
}

// The numbers of a family's bytes, 0 to 127. The map is made of these and not of a loop's counter,
// so that one instruction takes many.
fn byte_numbers() -> [u8; PART]
    ensures { result ≡ tabulate (λ j. j) 128 }
{
    let mut numbers = [0u8; PART];
    for (j, number) in numbers.iter_mut().enumerate() {
        *number = j as u8;
    }
    numbers
}

// The map of the sets that hold a secret and no mask, as the bytes of a family. Secrets and masks are given as sets.
pub fn suspect_map(secrets: usize, masks: usize) -> [u8; PART]
    ensures { (A : ℕ) → A < most_sets → member A (family_at result 0) ≡ suspect_by secrets masks A }
{
    let mut map = byte_numbers();
    // With the array's own `map` this took forty times as long.
    for byte in map.iter_mut() {
        *byte = !disjoint_sets(secrets, *byte) & disjoint_sets(masks, *byte);
    }
    map
}

// Whether a part holds one of the sets of a map. All bytes are joined before the test, so that
// one instruction takes many.
pub fn meets(work: &[u8], part: usize, map: [u8; PART]) -> bool
    requires { HasPart work.now part }
    ensures { T result ↔ Common (family_at map 0) (family_at work.now part) }
{
    let from = PART * part;
    let mut common = 0;
    for (j, byte) in work[from..from + PART].iter().enumerate() {
        common |= map[j] & *byte;
    }
    common != 0
}
