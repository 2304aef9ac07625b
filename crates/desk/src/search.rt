// `pairs`: the search over pairs of nodes, which tells on standard error how far it is, if that is to be shown.
ghost use Rattle.std.specs.Prelude.{◌≡◌, ℕ, List, length};
ghost use Rattle.rules.specs.Records.{most_nodes};
ghost use Rattle.pair_search.specs.Pairs.{pairs_reply};
ghost use Rattle.pairs.specs.Meaning.{pairs_reply_of};
ghost use Rattle.desk.specs.Examined.{Leaves, Seen};

use crate::say::{say, say_answer, say_refused, say_set, say_text, write_text};
use checker::Examined;
use pair_search::{Found, Search};
use pairs::{PairsAnswer, Progress};
use rules::{MOST_VARIABLES, MOST_WORK, Refusal};

// Standard error.
const STDERR: i32 = 2;

// How many nodes are passed before it first tells how far it is: the pairs of so few take no time.
const FIRST: usize = 32;

// ---- how far it is

// Writes to standard error.
fn tell(text: &[u8]) {
    io::write_all(STDERR, text);
}

// Tells how far a search is, if that is to be shown, in the place of what was told before.
fn tell_progress(shown: bool, progress: Progress) {
    if shown && progress.next >= FIRST {
        tell(b"\r");
        write_text(STDERR, |text| desk_text::progress_fields(text, progress));
    }
}

// Blanks what was told, before the answer is printed.
fn wipe_progress(shown: bool) {
    if shown {
        tell(b"\r                                                            \r");
    }
}

// ---- the search

// What `pairs::check_pairs` replies to the netlist bytes that were examined, with slices that hold every netlist.
// After each node it tells how far it is, if that is to be shown.
fn searched(
    examined: Examined,
    work: &[u8; MOST_WORK],
    limit: usize,
    shown: bool,
) -> Result<PairsAnswer, Refusal>
    requires { Seen examined work.now }
    ensures { (bytes before : List ℕ) → Leaves bytes before examined work.now →
        pairs_reply_of result ≡ pairs_reply bytes most_nodes (length before) limit }
{
    let mut progress = pairs::begin_pairs(Ok(examined));
    // A `while`: the steps are those of a caller of `pairs`, which says when they are done.
    while !pairs::is_done(progress) {
        progress = pairs::further(examined.netlist, work, limit, progress);
        tell_progress(shown, progress);
    }
    pairs::reply_after(progress)
}

// ---- what it prints

// The line of a search: its fields, and for people the set of a suspect pair.
fn say_search(search: Search, classes: [u8; MOST_VARIABLES]) {
    say_text(|text| desk_text::search_fields(text, search));
    if let Found::Pair(_, _, set) = search.found {
        say(b" # ");
        say_set(classes, set);
    }
    say(b"\n");
}

// Searches the pairs of nodes of a block that was examined, at most `limit` of them, and prints
// its answer and what was found. Tells how far it is, if that is to be shown.
pub fn pairs(examined: Examined, work: &[u8; MOST_WORK], limit: usize, shown: bool)
    requires { Seen examined work.now }
{
    let classes = examined.netlist.classes;
    let reply = searched(examined, work, limit, shown);
    wipe_progress(shown);
    match reply {
        Err(refusal) => say_refused(refusal, 0),
        Ok(both) => {
            say_answer(both.answer, classes);
            say_search(both.search, classes);
        }
    }
}
