// Families of sets in one slice of bytes, 128 bytes to each: part p is the bytes from 128 × p on,
// and set A is bit A mod 8 of its byte A / 8. Each function writes to one part of the slice that it is lent,
// or only reads; its promise is one equation for the whole slice, every bit of that part and all else as it was.
// Where a family is made from others, they are in lower parts. Used by all that works out, counts or looks up families:
// `family_products`, `nodes`, `suspects` and what stands on them.
#![tactic(auto)]

ghost use Rattle.std.specs.Prelude.{◌≡◌, [], ◌∷◌, ◌+◌, ◌*◌, ◌^◌, ◌<◌, ◌≤◌, length};
ghost use Rattle.rules.specs.Lists.{member, insert, union};
ghost use Rattle.rules.specs.Records.{most_sets};
ghost use Rattle.families.specs.Layers.{number_of, Numbered};
ghost use Rattle.families.specs.Parts.{HasPart, family_at, with_family};
ghost use Rattle.families.specs.Present.{bits_below};

use rules::MOST_VARIABLES;

// How many sets the variables have that there may be: 1,024.
pub const SETS: usize = 1 << MOST_VARIABLES;

// How many bytes hold a bit for each set, and so how long a part is: 128.
pub const PART: usize = SETS / 8;

// The layer of settled signals, and that of glitching ones, by their numbers.
#[derive(Clone, Copy, PartialEq, Eq)]
pub enum Layer {
    Settled = 0,
    Glitch = 1,
}

// No layer has the number.
#[derive(Clone, Copy, PartialEq, Eq)]
pub struct NoLayer;

impl TryFrom<usize> for Layer {
    type Error = NoLayer;

    ghost try_from_gives = { Numbered };

    fn try_from(number: usize) -> Result<Self, NoLayer> {
        match number {
            0 => Ok(Layer::Settled),
            1 => Ok(Layer::Glitch),
            _ => Err(NoLayer),
        }
    }
}

impl Layer {
    // The part of the work bytes that is a node's family in this layer.
    pub fn part(self, node: usize) -> usize
        requires { 2 * node + 1 < 2 ^ 64 }
        ensures at { result ≡ 2 * node + number_of self }
        ensures low { result ≤ 2 * node + 1 }
    {
        2 * node + self as usize
    }
}

// Whether a part holds a set. Reads one byte.
pub fn holds(work: &[u8], part: usize, set: usize) -> bool
    requires { HasPart work.now part × (set < most_sets) }
    ensures { result ≡ member set (family_at work.now part) }
{
    (work[PART * part + set / 8] >> (set % 8)) % 2 == 1
}

// How many of a byte's bits are set: counted in each two of them, then in each four, then in all eight.
fn ones(byte: u8) -> u8
    ensures { result ≡ bits_below byte 8 }
{
    let twos = byte - (byte / 2 & 85);
    let fours = (twos & 51) + (twos / 4 & 51);
    fours % 16 + fours / 16
}

// How many sets a part holds. It counts byte by byte, and in 16 bits, so that one instruction takes many.
pub fn size(work: &[u8], part: usize) -> usize
    requires { HasPart work.now part }
    ensures { result ≡ length (family_at work.now part) }
{
    let from = PART * part;
    let mut sets = 0;
    for byte in &work[from..from + PART] {
        sets += ones(*byte) as u16;
    }
    sets as usize
}

// Takes every set out of a part, so that it holds the empty family.
pub fn make_empty(work: &mut [u8], part: usize)
    requires { HasPart work.old part }
    ensures { work.new ≡ with_family work.old part [] }
{
    let from = PART * part;
    work[from..from + PART].fill(0);
}

// Puts a set into a part, if it is not there yet.
pub fn insert(work: &mut [u8], part: usize, set: usize)
    requires { HasPart work.old part × (set < most_sets) }
    ensures { work.new ≡ with_family work.old part
        (insert set (family_at work.old part)) }
{
    work[PART * part + set / 8] |= 1 << (set % 8);
}

// Puts all sets of a lower part into a part, beside those that it holds.
pub fn unite(work: &mut [u8], into: usize, from: usize)
    requires { HasPart work.old into × (from < into) }
    ensures { work.new ≡ with_family work.old into
        (union (family_at work.old from) (family_at work.old into)) }
{
    for j in 0..PART {
        work[PART * into + j] |= work[PART * from + j];
    }
}

// Makes a part hold one set only, whatever it held.
pub fn single(work: &mut [u8], into: usize, set: usize)
    requires { HasPart work.old into × (set < most_sets) }
    ensures { work.new ≡ with_family work.old into (set ∷ []) }
{
    make_empty(work, into);
    insert(work, into, set);
}

// Makes a part hold the sets of a lower one, whatever it held.
pub fn copy(work: &mut [u8], into: usize, from: usize)
    requires { HasPart work.old into × (from < into) }
    ensures { work.new ≡ with_family work.old into (family_at work.old from) }
{
    work.copy_within(PART * from..PART * from + PART, PART * into);
}
