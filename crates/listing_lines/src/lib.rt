// Words, numbers and lines of text, first those of the listing. `listing_text`, `desk_text` and `write_words` put them
// together, `read_words` and `desk` take from here what a kind of node is called, and each crate that writes behind
// the front of a slice says so by `Appended`. Each function that puts a text puts it behind the first `at` bytes of a
// slice, or at its front, and answers where the next one goes; its caller shows that there is room. Nothing but that
// slice is touched.
#![tactic(auto)]

ghost use Rattle.std.specs.Prelude.{◌≡◌, [], ◌∷◌, ◌++◌, ◌+◌, ◌*◌, ◌<◌, ◌≤◌, length};
ghost use Rattle.rules.specs.Records.{Cell, kind_of, most_variables, most_nodes, most_sets};
ghost use Rattle.rules.specs.Listing.{word, decimal, line, kind_name, half_line, most_line, most_text};
ghost use Rattle.rules.specs.Paper.{number_of, place_of, finding_of};
ghost use Rattle.listing_lines.specs.Text.{Room, Appended, Short, found_text};

use rules::{Half, Refusal};

// ---- words and numbers

// One byte.
pub fn put_byte(text: &mut [u8], at: usize, byte: u8) -> usize
    requires { Room text.old at 1 }
    ensures { Appended text.old text.new at result (byte ∷ []) }
{
    text[at] = byte;
    at + 1
}

// A word, byte by byte.
pub fn put_word(text: &mut [u8], at: usize, letters: &[u8]) -> usize
    requires { Room text.old at (length letters.now) }
    ensures { Appended text.old text.new at result letters.now }
{
    let end = at + letters.len();
    text[at..end].copy_from_slice(letters);
    end
}

// A number in base ten: the digit of its last place behind those of the rest.
pub fn put_decimal(text: &mut [u8], at: usize, number: usize) -> usize
    requires { Room text.old at (length (decimal number)) }
    ensures { Appended text.old text.new at result (decimal number) }
{
    if number < 10 {
        return put_byte(text, at, b'0' + number as u8);
    }
    let last = put_decimal(text, at, number / 10);
    put_byte(text, last, b'0' + (number % 10) as u8)
}

// A blank and a number.
pub fn put_field(text: &mut [u8], at: usize, number: usize) -> usize
    requires { Room text.old at (1 + length (decimal number)) }
    ensures { Appended text.old text.new at result (32 ∷ decimal number) }
{
    let behind = put_byte(text, at, b' ');
    put_decimal(text, behind, number)
}

// ---- kinds of nodes

// The name of a kind of node, by its number, as it stands in a node record, which may hold any; a kind that is no node's
// has that of a register.
pub fn name_of(kind: u8) -> &'static [u8]
    ensures named { (cell : Cell) → kind ≡ kind_of cell → result.now ≡ kind_name cell }
    ensures short { (length result.now ≤ 3) × (kind ≡ 2 → length result.now ≡ 2) }
{
    match kind {
        2 => b"in",
        3 => b"not",
        4 => b"xor",
        5 => b"and",
        6 => b"or",
        _ => b"reg",
    }
}

// ---- lines

// The line of a refusal.
pub fn put_refusal(text: &mut [u8], refusal: Refusal) -> usize
    requires { Room text.old 0 most_text }
    ensures { Appended text.old text.new 0 result
        (line (word "refused" ∷ decimal (number_of refusal) ∷ decimal (place_of refusal) ∷ [])) }
{
    let number = put_word(text, 0, b"refused");
    let place = put_field(text, number, refusals::number_of(refusal));
    let end = put_field(text, place, refusal.place);
    put_byte(text, end, b'\n')
}

// The line of the counts.
pub fn put_counts(text: &mut [u8], variables: usize, count: usize) -> usize
    requires { Room text.old 0 most_line × (variables ≤ most_variables) × (count ≤ most_nodes) }
    ensures appended { Appended text.old text.new 0 result
        (line (word "vars" ∷ decimal variables ∷ word "nodes" ∷ decimal count ∷ [])) }
    ensures few { result ≤ most_line }
{
    let first = put_word(text, 0, b"vars");
    let middle = put_field(text, first, variables);
    let second = put_word(text, middle, b" nodes");
    let end = put_field(text, second, count);
    put_byte(text, end, b'\n')
}

// The line of a node: number, kind name, number of sets in the settled family, number in the glitch family.
pub fn put_node(
    text: &mut [u8],
    at: usize,
    i: usize,
    kind: u8,
    settled: usize,
    glitch: usize,
) -> usize
    requires { Room text.old at most_line × (i < most_nodes) × (settled ≤ most_sets) × (glitch ≤ most_sets) }
    ensures appended { (cell : Cell) → kind ≡ kind_of cell →
        Appended text.old text.new at result
        (line (decimal i ∷ kind_name cell ∷ decimal settled ∷ decimal glitch ∷ [])) }
    ensures few { result ≤ at + most_line }
{
    let blank = put_decimal(text, at, i);
    let name = put_byte(text, blank, b' ');
    let first = put_word(text, name, name_of(kind));
    let second = put_field(text, first, settled);
    let end = put_field(text, second, glitch);
    put_byte(text, end, b'\n')
}

// What a half says, with a blank before it, and the end of its line.
fn put_finding(text: &mut [u8], at: usize, half: Half) -> usize
    requires { Room text.old at 10 × Short half }
    ensures appended { Appended text.old text.new at result (found_text (finding_of half)) }
    ensures few { result ≤ at + 10 }
{
    match half {
        Half::Clear => put_word(text, at, b" clear\n"),
        Half::Suspect(node, set) => {
            let behind = put_field(text, at, node);
            let end = put_field(text, behind, set);
            put_byte(text, end, b'\n')
        }
    }
}

// The lines of both halves.
pub fn put_halves(text: &mut [u8], at: usize, settled: Half, glitch: Half) -> usize
    requires { Room text.old at (2 * most_line) × Short settled × Short glitch }
    ensures { Appended text.old text.new at result
        (half_line (word "settled") (finding_of settled) ++ half_line (word "glitch") (finding_of glitch)) }
{
    let first = put_word(text, at, b"settled");
    let next = put_finding(text, first, settled);
    let second = put_word(text, next, b"glitch");
    put_finding(text, second, glitch)
}
