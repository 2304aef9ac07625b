// The lines that commands print. Each public function puts a text at the front of bytes that have room for it and
// answers how many bytes the text has: fields parted by one blank, and no line feed, so that words may follow.
// The bytes beyond are as they were. Nothing is printed here, and nothing but those bytes is written to. For `desk`.
#![tactic(auto)]

ghost use Rattle.std.specs.Prelude.{◌∷◌, ◌++◌, map, ◌+◌, ◌*◌, ◌≤◌, length};
ghost use Rattle.rules.specs.Listing.{word, decimal, most_text};
ghost use Rattle.rules.specs.Paper.{number_of, place_of, finding_of};
ghost use Rattle.listing_lines.specs.Text.{Room, Appended};
ghost use Rattle.pair_search.specs.Meaning.{pair_finding_of, searched_of};
ghost use Rattle.desk_text.specs.Desk.{behind, parted, yes_no, found_fields, refusal_text};
ghost use Rattle.desk_text.specs.Desk.{counts_text, half_text, pairs_text, progress_text, step_text};
ghost use Rattle.desk_text.specs.Desk.{steps_text, value_text, feeding_text, member_text, edits_fields, edits_text};

use listing_lines::{put_decimal, put_field, put_word};
use pair_search::{Found, Search};
use pairs::Progress;
use rules::{Answer, Half, MOST_NODES, Refusal};

// How many bytes have room for each of the texts, and for every listing.
pub const ROOM: usize = listing_text::MOST_TEXT;

// ---- words and numbers

// Puts numbers behind the first `at` bytes, a blank before each, and answers where the next text goes.
// A number has at most 20 digits.
fn put_numbers(text: &mut [u8], at: usize, numbers: &[usize]) -> usize
    requires { Room text.old at (21 * length numbers.now) }
    ensures appended { Appended text.old text.new at result (behind (map decimal numbers.now)) }
    ensures few { result ≤ at + 21 * length numbers.now }
{
    let mut end = at;
    for number in numbers {
        end = put_field(text, end, *number);
    }
    end
}

// Puts words behind the first `at` bytes and numbers behind them, and answers where the next text goes.
fn put_fields(text: &mut [u8], at: usize, words: &[u8], numbers: &[usize]) -> usize
    requires { Room text.old at (length words.now + 21 * length numbers.now) }
    ensures appended { Appended text.old text.new at result
        (words.now ++ behind (map decimal numbers.now)) }
    ensures few { result ≤ at + (length words.now + 21 * length numbers.now) }
{
    let numbers_at = put_word(text, at, words);
    put_numbers(text, numbers_at, numbers)
}

// ---- a refusal

// `refused NUMBER PLACE`.
pub fn refusal_fields(text: &mut [u8; ROOM], refusal: Refusal) -> usize
    ensures appended { Appended text.old text.new 0 result (refusal_text (number_of refusal) (place_of refusal)) }
    ensures most { result ≤ most_text }
{
    let number = refusals::number_of(refusal);
    put_fields(text, 0, b"refused", &[number, refusal.place])
}

// ---- an answer

// The counts of an answer: `vars V nodes N`.
pub fn counts_fields(text: &mut [u8; ROOM], answer: Answer) -> usize
    ensures appended { Appended text.old text.new 0 result (counts_text answer.variables answer.nodes) }
    ensures most { result ≤ most_text }
{
    let middle = put_fields(text, 0, b"vars", &[answer.variables]);
    put_fields(text, middle, b" nodes", &[answer.nodes])
}

// A half of an answer behind its name.
fn put_half(text: &mut [u8; ROOM], name: &[u8], half: Half) -> usize
    requires { length name.now ≤ 7 }
    ensures appended { Appended text.old text.new 0 result (half_text name.now (finding_of half)) }
    ensures few { result ≤ 49 }
{
    match half {
        Half::Clear => {
            let said = put_word(text, 0, name);
            put_word(text, said, b" clear")
        }
        Half::Suspect(node, set) => put_fields(text, 0, name, &[node, set]),
    }
}

// The half of settled signals: `settled clear` or `settled NODE SET`.
// Kept beside `glitch_fields`: each promises (docs/PROMISES.md) which half stands behind which name.
pub fn settled_fields(text: &mut [u8; ROOM], answer: Answer) -> usize
    ensures appended { Appended text.old text.new 0 result (half_text (word "settled") (finding_of answer.settled)) }
    ensures most { result ≤ most_text }
{
    put_half(text, b"settled", answer.settled)
}

// The half of glitching signals: `glitch clear` or `glitch NODE SET`.
pub fn glitch_fields(text: &mut [u8; ROOM], answer: Answer) -> usize
    ensures appended { Appended text.old text.new 0 result (half_text (word "glitch") (finding_of answer.glitch)) }
    ensures most { result ≤ most_text }
{
    put_half(text, b"glitch", answer.glitch)
}

// ---- two probes

// What a search over pairs found: `pairs clear`, `pairs suspect I J SET`, `pairs spent` or `pairs single`.
fn put_found(text: &mut [u8; ROOM], found: Found) -> usize
    ensures appended { Appended text.old text.new 0 result
        (parted (word "pairs" ∷ found_fields (pair_finding_of found))) }
    ensures few { result ≤ 76 }
{
    match found {
        Found::Single(_, _) => put_word(text, 0, b"pairs single"),
        Found::NoPair => put_word(text, 0, b"pairs clear"),
        Found::Pair(i, j, set) => put_fields(text, 0, b"pairs suspect", &[i, j, set]),
        Found::Spent => put_word(text, 0, b"pairs spent"),
    }
}

// What a search over pairs found, and how many it looked at: `pairs clear COUNT`, `pairs suspect I J SET COUNT`,
// `pairs spent COUNT` or `pairs single COUNT`.
pub fn search_fields(text: &mut [u8; ROOM], search: Search) -> usize
    ensures appended { Appended text.old text.new 0 result (pairs_text (searched_of search)) }
    ensures most { result ≤ most_text }
{
    let end = put_found(text, search.found);
    put_numbers(text, end, &[search.looked])
}

// How far a search is: `pairs looked at: COUNT, those of NEXT nodes of NODES`.
pub fn progress_fields(text: &mut [u8; ROOM], progress: Progress) -> usize
    ensures appended { Appended text.old text.new 0 result
        (progress_text progress.search.looked progress.next progress.nodes) }
    ensures most { result ≤ most_text }
{
    let looked = put_fields(text, 0, b"pairs looked at:", &[progress.search.looked]);
    let passed = put_fields(text, looked, b", those of", &[progress.next]);
    put_fields(text, passed, b" nodes of", &[progress.nodes])
}

// ---- a derivation

// A step, by numbers: its node, layer and rule, and its set.
#[derive(Clone, Copy)]
pub struct Step {
    pub node: u8,
    pub layer: u8,
    pub rule: u8,
    pub set: u16,
}

// A step: `NODE LAYER RULE SET`.
pub fn step_fields(text: &mut [u8; ROOM], step: Step) -> usize
    ensures appended { Appended text.old text.new 0 result (step_text step.node step.layer step.rule step.set) }
    ensures most { result ≤ most_text }
{
    let end = put_decimal(text, 0, step.node as usize);
    put_numbers(
        text,
        end,
        &[step.layer as usize, step.rule as usize, step.set as usize],
    )
}

// How many steps a derivation has: `steps COUNT`.
pub fn steps_fields(text: &mut [u8; ROOM], count: usize) -> usize
    ensures appended { Appended text.old text.new 0 result (steps_text count) }
    ensures most { result ≤ most_text }
{
    put_fields(text, 0, b"steps", &[count])
}

// ---- the queries

// The settled value of a node: `value 0` or `value 1`.
pub fn value_fields(text: &mut [u8; ROOM], value: bool) -> usize
    ensures appended { Appended text.old text.new 0 result (value_text value) }
    ensures most { result ≤ most_text }
{
    put_fields(text, 0, b"value", &[usize::from(value)])
}

// The feeding points of a node, by its marks: `feeding`, and the numbers of the marked nodes.
pub fn feeding_fields(text: &mut [u8; ROOM], marks: [bool; MOST_NODES]) -> usize
    ensures appended { Appended text.old text.new 0 result (feeding_text marks) }
    ensures most { result ≤ most_text }
{
    let mut end = put_word(text, 0, b"feeding");
    for (i, marked) in marks.iter().enumerate() {
        if *marked {
            end = put_field(text, end, i);
        }
    }
    end
}

// A membership, with a blank before it.
fn put_membership(text: &mut [u8], at: usize, holds: bool) -> usize
    requires { Room text.old at 4 }
    ensures appended { Appended text.old text.new at result (32 ∷ yes_no holds) }
    ensures few { result ≤ at + 4 }
{
    if holds {
        put_word(text, at, b" yes")
    } else {
        put_word(text, at, b" no")
    }
}

// Whether a set is in each of a node's families, as in `member settled no glitch yes`.
pub fn member_fields(text: &mut [u8; ROOM], settled: bool, glitch: bool) -> usize
    ensures appended { Appended text.old text.new 0 result
        (member_text (record { settled = settled; glitch = glitch })) }
    ensures most { result ≤ most_text }
{
    let first = put_word(text, 0, b"member settled");
    let name = put_membership(text, first, settled);
    let second = put_word(text, name, b" glitch");
    put_membership(text, second, glitch)
}

// ---- edits

// How a run of edits ended: `edits faulty`, `edits clear` or `edits suspect NODE SET`.
fn put_ended(text: &mut [u8; ROOM], faulty: bool, glitch: Half) -> usize
    ensures appended { Appended text.old text.new 0 result
        (parted (word "edits" ∷ edits_fields faulty (finding_of glitch))) }
    ensures few { result ≤ 55 }
{
    if faulty {
        return put_word(text, 0, b"edits faulty");
    }
    match glitch {
        Half::Clear => put_word(text, 0, b"edits clear"),
        Half::Suspect(node, set) => put_fields(text, 0, b"edits suspect", &[node, set]),
    }
}

// How a run of edits ended, and how many were made: `edits faulty COUNT`, `edits clear COUNT` or
// `edits suspect NODE SET COUNT`.
pub fn edits_fields(text: &mut [u8; ROOM], faulty: bool, answer: Answer, made: usize) -> usize
    ensures appended { Appended text.old text.new 0 result (edits_text faulty (finding_of answer.glitch) made) }
    ensures most { result ≤ most_text }
{
    let end = put_ended(text, faulty, answer.glitch);
    put_numbers(text, end, &[made])
}
