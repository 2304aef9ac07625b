// The product of two families: the sets of each are listed, and each pair of them is tried once and counted. Families
// are parts of a slice of bytes; a function writes to one part of it, and what it makes a family from is in lower
// parts. Used by `nodes` and `pair_tests`, and by test programs.
#![tactic(auto)]

ghost use Rattle.std.specs.Prelude.{◌≡◌, map, ◌+◌, ◌*◌, ◌^◌, ◌<◌, ◌≤◌, length};
ghost use Rattle.std.specs.Int.Bits.{bit_xor};
ghost use Rattle.rules.specs.Lists.{insert, union};
ghost use Rattle.rules.specs.Records.{most_sets};
ghost use Rattle.rules.specs.Families.{product, spread};
ghost use Rattle.families.specs.Parts.{HasPart, family_at, with_family};
ghost use Rattle.families.specs.Present.{Sets};

use families::SETS;
use family_lists::list_sets;

// Tries one pair: puts the symmetric difference of its two sets into a part, and returns the count with that pair.
fn try_pair(work: &mut [u8], into: usize, set: u16, other: u16, tried: usize) -> usize
    requires { HasPart work.old into × (set < most_sets) × (other < most_sets) × (tried < 2 ^ 32) }
    ensures made { work.new ≡ with_family work.old into
        (insert (bit_xor set other) (family_at work.old into)) }
    ensures tried { result ≡ tried + 1 }
{
    families::insert(work, into, (set ^ other) as usize);
    tried + 1
}

// Tries one set with each of the others, and returns the count with these pairs.
fn try_row(work: &mut [u8], into: usize, set: u16, others: &[u16], before: usize) -> usize
    requires { HasPart work.old into × (set < most_sets) × Sets others.now × (before + length others.now ≤ 2 ^ 32) }
    ensures made { work.new ≡ with_family work.old into
        (union (map (bit_xor set) others.now) (family_at work.old into)) }
    ensures tried { result ≡ before + length others.now }
{
    let mut tried = before;
    for other in others {
        tried = try_pair(work, into, set, *other, tried);
    }
    tried
}

// Makes a part hold the product of two lower ones, whatever it held: lists the sets of each, and tries each pair of
// them once. Returns how many pairs it tried, the number of sets of the one times that of the other.
pub fn product(work: &mut [u8], into: usize, first: usize, second: usize) -> usize
    requires { HasPart work.old into × (first < into) × (second < into) }
    ensures made { work.new ≡ with_family work.old into
        (product (family_at work.old first) (family_at work.old second)) }
    ensures tried { result ≡
        length (family_at work.old first) * length (family_at work.old second) }
{
    let mut sets = [0u16; SETS];
    let mut others = [0u16; SETS];
    let rows = list_sets(work, first, &mut sets);
    let columns = list_sets(work, second, &mut others);
    families::make_empty(work, into);
    let mut pairs = 0;
    // By index: what must not be tried is told by positions (`must-fail/equal_positions_left_out`).
    for i in 0..rows {
        pairs = try_row(work, into, sets[i], &others[..columns], pairs);
    }
    pairs
}

// Makes a part hold the product of two lower ones, as `product` does, and returns nothing.
pub fn multiply(work: &mut [u8], into: usize, first: usize, second: usize)
    requires { HasPart work.old into × (first < into) × (second < into) }
    ensures { work.new ≡ with_family work.old into
        (product (family_at work.old first) (family_at work.old second)) }
{
    product(work, into, first, second);
}

// Makes a part hold the empty set, the sets of two lower ones and their product, whatever it held.
pub fn spread(work: &mut [u8], into: usize, first: usize, second: usize)
    requires { HasPart work.old into × (first < into) × (second < into) }
    ensures { work.new ≡ with_family work.old into
        (spread (family_at work.old first) (family_at work.old second)) }
{
    multiply(work, into, first, second);
    families::unite(work, into, second);
    families::unite(work, into, first);
    families::insert(work, into, 0);
}
