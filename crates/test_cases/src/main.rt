// The cases and edges of document 01 that are not in its table: what a check, a query or the listing answers, and what
// the lent slices hold after it; and products of families. Where two conditions meet, the case shows which is checked
// first. It uses the functions that it tests, over slices that `test_trial` lends.
//
// Standard input has one case a line: a command with its numbers, a block and the case's name, with colons between
// them.
//
//     check ENTRIES BYTES : BLOCK : NAME
//         the reply, from where on the node entries and the work bytes are as they were, and each marked node with its
//         settled and its glitch mark, 0 for none
//     pairs LIMIT ENTRIES BYTES : BLOCK : NAME
//         the same with two probes, where at most so many pairs are looked at
//     ask NODE NUMBER : BLOCK : NAME
//         all three queries, with the number as assignment and as set
//     value NODE NUMBER : BLOCK
//         the settled value alone
//     points NODE : BLOCK
//         the points that feed a node alone
//     list BYTES : BLOCK : NAME
//         the listing, its length, and from where on the text is as it was
//     node NODE : BLOCK : NAME
//         the reply, the node's record with its two marks, and its two families, set by set
//     derive NODE LAYER SET BYTES : BLOCK : NAME
//         the reply, the first steps of the derivation, each as node, layer, rule and set, and from where on the slice
//         is as it was
//     edits ENTRIES BYTES : BLOCK : EDITS : NAME
//         the block is opened in slices that hold every block, then each edit is made in slices of these lengths; of
//         the opening and of each edit the reply, how many variables and nodes the state then has, from where to where
//         entries and work bytes change, and each marked node as above
//     product FIRST SECOND INTO : SETS : SETS : NAME
//         families of these sets are put into two parts of the work bytes, or both into one; in a part above them their
//         product is made, and apart from that the empty set with both families and their product: how many pairs were
//         tried, of each of the four families how many sets it has, how many are listed and the list, and from where to
//         where work bytes change each time
//
// A block is written in hexadecimal digits, with a blank before each record; `200*020000` is a record 200 times. A
// number is decimal: at most 200 ENTRIES, 51200 BYTES of work, 3654 of text and 2565 of steps, parts below 400, and any
// usize elsewhere. SETS are numbers below 1024, and `8-15` is all of them from 8 to 15; a list is printed so too. A
// line that starts with `=` is printed without that sign and the blank behind it. An edit is `+` and a record in
// hexadecimal digits, or `-` and a node. Empty lines, and lines that start with `#`, are for the reader. What the
// program does not understand it prints, as `not understood: ` and the line or the word.
#![tactic(auto)]

ghost use Rattle.std.specs.Prelude.{◌+◌, ◌*◌, ◌<◌, ◌≤◌, IfSome};
ghost use Rattle.rules.specs.Records.{most_nodes};
ghost use Rattle.rules.specs.Listing.{most_text};
ghost use Rattle.families.specs.Parts.{HasPart};

use edit_rules::{Edit, State};
use families::{PART, SETS};
use listing_text::MOST_TEXT;
use pair_search::{Found, Search};
use pairs::PairsAnswer;
use rules::{MOST_NODES, MOST_VARIABLES, MOST_WORK, NodeRecord, Refusal};
use test_tools::{
    print, print_answer, print_byte, print_counts, print_number, print_refusal, print_reply,
    same_record,
};
use test_trial::{Seen, SeenEdit};

// Standard input's and standard output's descriptors.
const STDIN: i32 = 0;

const STDOUT: i32 = 1;

// The most bytes of standard input, and of a block.
const MOST_INPUT: usize = 65536;

const MOST_BLOCK: usize = 1024;

// The most digits of a block.
const MOST_DIGITS: usize = 2048;

// The most bytes for steps, with room for one step more than there may be; and how many steps are printed.
const MOST_STEPS: usize = 2565;

const SHOWN: usize = 8;

// The parts of the work bytes, the entries for a list, and what each of them holds before; no set has such a number.
const PARTS: usize = 400;

const MOST_LIST: usize = 1100;

const NO_SET: u16 = 40000;

// ---- printing

// A question with its numbers, and whether it is answered.
fn print_outcome(question: &[u8], node: usize, number: usize, outcome: Result<(), Refusal>) {
    print_counts(question, &[node, number]);
    match outcome {
        Ok(()) => print(b" answered"),
        Err(refusal) => print_refusal(refusal),
    }
}

// A blank and yes or no.
fn print_yes(yes: bool) {
    print(if yes {
        b" yes".as_slice()
    } else {
        b" no".as_slice()
    });
}

// The numbers of the marked nodes.
fn print_marks(marks: [bool; MOST_NODES]) {
    for (i, marked) in marks.iter().enumerate() {
        if *marked {
            print_number(i);
        }
    }
}

// A node that is marked, with its settled and its glitch mark, 0 for none.
fn print_mark(i: usize, held: NodeRecord) {
    print_counts(
        b", marked###",
        &[i, held.settled as usize, held.glitch as usize],
    );
}

// The marked ones of the first `count` nodes.
fn print_marked(nodes: &[NodeRecord], count: usize) {
    for (i, held) in nodes.iter().enumerate() {
        if i < count && (held.settled != 0 || held.glitch != 0) {
            print_mark(i, *held);
        }
    }
}

// A text without its first letter, if it has one.
fn behind_first(text: &[u8]) -> &[u8] {
    match text.split_first() {
        Some((_, behind)) => behind,
        None => text,
    }
}

// What is not understood, on a line of its own.
fn complain(text: &[u8]) {
    print(b"\nnot understood: ");
    print(text);
    print_byte(b'\n');
}

// ---- words and numbers

// What stands before and behind the first such letter of a text, if it has one.
fn cut(text: &[u8], letter: u8) -> Option<(&[u8], &[u8])> {
    let at = text.iter().position(|x| *x == letter)?;
    Some((&text[..at], &text[at + 1..]))
}

// The value of a digit, decimal or hexadecimal.
fn digit_of(letter: u8) -> Option<u8>
    ensures { IfSome result (λ digit. digit < 16) }
{
    match letter {
        b'0'..=b'9' => Some(letter - b'0'),
        b'a'..=b'f' => Some(letter - b'a' + 10),
        _ => None,
    }
}

// The number that a word is.
fn number_of(word: &[u8]) -> Option<usize> {
    let mut value = 0usize;
    for letter in word {
        let digit = digit_of(*letter).filter(|digit| *digit < 10)?;
        value = value.checked_mul(10)?.checked_add(digit as usize)?;
    }
    Some(value)
}

// The number that a word is, or 0 with a complaint.
fn decimal(word: &[u8]) -> usize {
    let Some(value) = number_of(word) else {
        complain(word);
        return 0;
    };
    value
}

// How many numbers a command has, and the last four of them, zeros before those that there are.
#[derive(Clone, Copy)]
struct Numbers {
    count: usize,
    last: [usize; 4],
}

// The numbers of a command, with blanks between them.
fn numbers_of(words: &[u8]) -> Numbers {
    let mut count = 0usize;
    let mut last = [0usize; 4];
    for word in words.split(|x| *x == b' ') {
        if !word.is_empty() {
            last = [last[1], last[2], last[3], decimal(word)];
            count = count.saturating_add(1);
        }
    }
    Numbers { count, last }
}

// ---- blocks

// A block or a record by its hexadecimal digits: its bytes, and how many digits there are, unless some are not
// understood.
#[derive(Clone, Copy)]
struct Digits {
    bytes: [u8; MOST_BLOCK],
    count: Option<usize>,
}

impl Digits {
    // No digits.
    fn none() -> Digits {
        Digits {
            bytes: [0; MOST_BLOCK],
            count: Some(0),
        }
    }

    // Its bytes, or all that there may be.
    fn bytes(&self) -> &[u8] {
        &self.bytes[..self
            .count
            .map_or(MOST_BLOCK, |digits| digits / 2)
            .min(MOST_BLOCK)]
    }

    // Puts a digit behind the others.
    fn put(&mut self, letter: u8) {
        self.count = match (self.count, digit_of(letter)) {
            (Some(at), Some(digit)) if at < MOST_DIGITS => {
                let k = at / 2;
                self.bytes[k] = self.bytes[k] % 16 * 16 + digit % 16;
                Some(at + 1)
            }
            _ => None,
        };
    }

    // The same of several digits.
    fn put_digits(&mut self, digits: &[u8]) {
        for letter in digits {
            self.put(*letter);
        }
    }

    // A record, or how many times, a star and a record.
    fn put_word(&mut self, word: &[u8]) {
        let Some((times, digits)) = cut(word, b'*') else {
            self.put_digits(word);
            return;
        };
        let times = decimal(times);
        if times == 0 || digits.is_empty() {
            self.count = None;
        }
        for _ in 0..times {
            self.put_digits(digits);
        }
    }
}

// A block by its records, with a blank before each.
fn block_of(words: &[u8]) -> Digits {
    let mut block = Digits::none();
    for word in behind_first(words).split(|x| *x == b' ') {
        block.put_word(word);
    }
    block
}

// ---- commands: what each prints behind the case's name, but the last line feed

// Checks a block over so many entries and this work slice: prints the reply, and gives all entries.
fn reply_to(bytes: &[u8], entries: usize, work: &mut [u8]) -> [NodeRecord; MOST_NODES] {
    let before = [test_trial::entry_before(); MOST_NODES];
    let Seen { reply, nodes } = test_trial::check_over(bytes, entries, before, work);
    print_byte(b':');
    print_reply(reply);
    nodes
}

// From where on entries and work bytes are as they were before a check, and the marked nodes.
fn print_left(nodes: [NodeRecord; MOST_NODES], work: &[u8]) {
    let from = test_trial::entries_kept_from(nodes);
    print_counts(
        b", kept from# and#",
        &[from, test_trial::work_kept_from(work)],
    );
    print_marked(&nodes, from);
}

// A check with one probe, over so many entries and work bytes.
fn check(bytes: &[u8], entries: usize, room: usize)
    requires { room ≤ 256 * most_nodes }
{
    let mut most = [0u8; MOST_WORK];
    let work = &mut most[..room];
    test_trial::fill(work);
    let nodes = reply_to(bytes, entries, work);
    print_left(nodes, work);
}

// What a search over pairs found, and how many it looked at.
fn print_search(search: Search) {
    print_counts(b" looked at#", &[search.looked]);
    match search.found {
        Found::Single(node, set) => print_counts(b" single##", &[node, set]),
        Found::NoPair => print(b" no pair"),
        Found::Pair(i, j, set) => print_counts(b" pair###", &[i, j, set]),
        Found::Spent => print(b" spent"),
    }
}

// The reply to a check with two probes.
fn print_pairs(reply: Result<PairsAnswer, Refusal>) {
    print_byte(b':');
    match reply {
        Err(refusal) => print_refusal(refusal),
        Ok(both) => {
            print_answer(both.answer);
            print_search(both.search);
        }
    }
}

// The same with two probes.
fn check_pairs(bytes: &[u8], limit: usize, entries: usize, room: usize)
    requires { room ≤ 256 * most_nodes }
{
    let mut most = [0u8; MOST_WORK];
    let work = &mut most[..room];
    test_trial::fill(work);
    let before = [test_trial::entry_before(); MOST_NODES];
    let Seen { reply, nodes } = test_trial::check_pairs_over(limit, bytes, entries, before, work);
    print_pairs(reply);
    print_left(nodes, work);
}

// The settled value of a node.
fn value(bytes: &[u8], node: usize, assignment: usize) {
    let reply = queries::settled_value(bytes, node, assignment);
    print_outcome(b"value of# under#:", node, assignment, reply.outcome);
    print_yes(reply.value);
}

// The points that feed a node.
fn points(bytes: &[u8], node: usize) {
    let reply = queries::feeding_points(bytes, node);
    print_outcome(b"points of#:", node, 0, reply.outcome);
    print_marks(reply.marks);
}

// Whether the families of a node hold a set.
fn memberships(bytes: &[u8], node: usize, set: usize) {
    let reply = queries::memberships(bytes, node, set);
    print_outcome(b"families of# with#:", node, set, reply.outcome);
    print_yes(reply.settled);
    print_yes(reply.glitch);
}

// All three queries.
fn ask(bytes: &[u8], node: usize, number: usize) {
    print_byte(b'\n');
    value(bytes, node, number);
    print_byte(b'\n');
    points(bytes, node);
    print_byte(b'\n');
    memberships(bytes, node, number);
}

// The text that a listing of so many bytes left, and from where on it is as it was.
fn print_listing(text: &[u8], length: usize) {
    let from = test_trial::work_kept_from(text);
    print_byte(b'\n');
    print(&text[..from.min(text.len())]);
    print_counts(b"bytes#, kept from#", &[length, from]);
}

// The listing in a text of so many bytes.
fn list(bytes: &[u8], room: usize)
    requires { room ≤ most_text }
{
    let mut most = [0u8; MOST_TEXT];
    let text = &mut most[..room];
    test_trial::fill(text);
    let length = listing_text::telgouin_listing(bytes, text);
    print_listing(text, length);
}

// A node's record with its marks.
fn print_node(i: usize, held: NodeRecord) {
    let node = held.node;
    print_byte(b'\n');
    print_counts(
        b"node# kind# operands## set# marks##",
        &[
            i,
            node.kind as usize,
            node.first as usize,
            node.second as usize,
            node.set as usize,
            held.settled as usize,
            held.glitch as usize,
        ],
    );
}

// A family's name and size, and its sets.
fn print_family(name: &[u8], work: &[u8], part: usize)
    requires { HasPart work.now part }
{
    print_byte(b'\n');
    print_counts(name, &[families::size(work, part)]);
    for set in 0..SETS {
        if families::holds(work, part, set) {
            print_number(set);
        }
    }
}

// Both families of a node.
fn print_families(work: &[u8], i: usize)
    requires { HasPart work.now (2 * i + 1) }
{
    print_family(b"settled family# in all:", work, 2 * i);
    print_family(b"glitch family# in all:", work, 2 * i + 1);
}

// A check, and one node with its families.
fn check_node(bytes: &[u8], i: usize)
    requires { i < most_nodes }
{
    let mut work = [0u8; MOST_WORK];
    let nodes = reply_to(bytes, MOST_NODES, &mut work);
    print_node(i, test_trial::entry_at(nodes, i));
    print_families(&work, i);
}

// A step.
fn print_step(step: [u8; 5]) {
    let [node, layer, rule, low, high] = step;
    print_number(node as usize);
    print_number(layer as usize);
    print_number(rule as usize);
    print_number(low as usize + 256 * high as usize);
    print_byte(b',');
}

// The first `count` steps, as far as the slice holds them.
fn print_steps(steps: &[u8], count: usize) {
    for step in steps.as_chunks::<5>().0.iter().take(count) {
        print_step(*step);
    }
}

// The derivation of a set in a slice of so many bytes.
fn derive(bytes: &[u8], node: usize, layer: usize, set: usize, room: usize)
    requires { room ≤ 2565 }
{
    let mut most = [0u8; MOST_STEPS];
    let steps = &mut most[..room];
    test_trial::fill(steps);
    let reply = derivations::derive(bytes, node, layer, set, steps);
    print_byte(b':');
    match reply {
        Err(refusal) => {
            print_refusal(refusal);
            print_byte(b',');
        }
        Ok(count) => {
            print_counts(b" steps#:", &[count]);
            print_steps(steps, count.min(SHOWN));
            if count > SHOWN {
                print(b" ..,");
            }
        }
    }
    print_counts(b" kept from#", &[test_trial::work_kept_from(steps)]);
}

// ---- edits of an open block

// A block that is open: its state, and what both slices hold.
#[derive(Clone, Copy)]
struct Desk {
    state: State,
    nodes: [NodeRecord; MOST_NODES],
    work: [u8; MOST_WORK],
}

// From where to where something changes: nowhere where both are 0.
#[derive(Clone, Copy)]
struct Span {
    from: usize,
    to: usize,
}

// From where to where two slices are not the same.
fn span_of<T: Copy, F: Fn(T, T) -> bool>(before: &[T], after: &[T], is_same: F) -> Span
    requires { F.IsAlwaysCallable is_same }
{
    let mut span = Span { from: 0, to: 0 };
    for (k, (old, new)) in before.iter().zip(after).enumerate() {
        if !is_same(*old, *new) {
            if span.to == 0 {
                span.from = k;
            }
            span.to = k.saturating_add(1);
        }
    }
    span
}

// From where to where work bytes change.
fn bytes_span(before: &[u8; MOST_WORK], after: &[u8; MOST_WORK]) -> Span {
    span_of(before, after, |x, y| x == y)
}

// What a call gave, and what it changed. Gives the block after it.
fn print_edited(before: &Desk, seen: SeenEdit, work: [u8; MOST_WORK]) -> Desk {
    let SeenEdit { edited, nodes } = seen;
    let state = edited.state;
    let entries = span_of(&before.nodes, &nodes, same_record);
    let bytes = bytes_span(&before.work, &work);
    print_byte(b':');
    print_reply(edited.reply);
    print_counts(
        b", state##, changed## and##",
        &[
            state.variables,
            state.count,
            entries.from,
            entries.to,
            bytes.from,
            bytes.to,
        ],
    );
    print_marked(&nodes, state.count);
    Desk { state, nodes, work }
}

// A block, opened in slices that hold every block.
fn open_desk(bytes: &[u8]) -> Desk {
    let mut work = [0u8; MOST_WORK];
    test_trial::fill(&mut work);
    let nodes = [test_trial::entry_before(); MOST_NODES];
    let none = State {
        variables: 0,
        classes: [0u8; MOST_VARIABLES],
        count: 0,
    };
    let before = Desk {
        state: none,
        nodes,
        work,
    };
    let seen = test_trial::open_over(bytes, MOST_NODES, nodes, &mut work);
    print_edited(&before, seen, work)
}

// One edit of an open block, with the bytes of a record, in slices of these lengths.
fn one_edit(desk: &Desk, edit: Edit, record: &[u8], entries: usize, room: usize) -> Desk
    requires { room ≤ 256 * most_nodes }
{
    let mut work = desk.work;
    let seen = test_trial::edit_over(
        desk.state,
        edit,
        record,
        entries,
        desk.nodes,
        &mut work[..room],
    );
    print_edited(desk, seen, work)
}

// The edits of a block, with a blank before each: what the sign of a word says, with the digits behind it.
fn edits(bytes: &[u8], words: &[u8], entries: usize, room: usize)
    requires { room ≤ 256 * most_nodes }
{
    let mut desk = open_desk(bytes);
    for word in behind_first(words).split(|x| *x == b' ') {
        if let Some((sign, digits)) = word.split_first() {
            let mut record = Digits::none();
            let edit = if *sign == b'-' {
                Edit::Remove(decimal(digits))
            } else {
                record.put_digits(digits);
                Edit::Add
            };
            print_byte(b'\n');
            print(word);
            desk = one_edit(&desk, edit, record.bytes(), entries, room);
        }
    }
}

// ---- families

// Takes every set out of a part.
fn clear_part(work: &mut [u8; MOST_WORK], part: usize) {
    let from = part % PARTS * PART;
    work[from..from + PART].fill(0);
}

// Puts the sets from one to another into a part.
fn put_range(work: &mut [u8; MOST_WORK], part: usize, from: usize, to: usize) {
    for set in from..=to {
        work[part % PARTS * PART + set / 8 % PART] |= 1u8 << (set % 8);
    }
}

// A set, or the first and the last of several with a dash between them.
fn put_sets(work: &mut [u8; MOST_WORK], part: usize, word: &[u8]) {
    let (from, to) = match cut(word, b'-') {
        Some((first, last)) => (decimal(first), decimal(last)),
        None => {
            let set = decimal(word);
            (set, set)
        }
    };
    if to < SETS {
        put_range(work, part, from, to);
    } else {
        complain(word);
    }
}

// Puts sets, with a blank before each word, into a part.
fn put_family(work: &mut [u8; MOST_WORK], part: usize, words: &[u8]) {
    for word in behind_first(words).split(|x| *x == b' ') {
        if !word.is_empty() {
            put_sets(work, part, word);
        }
    }
}

// Whether the set at a place of a list is the one behind the set before it.
fn follows(sets: &[u16; MOST_LIST], k: usize) -> bool {
    k > 0 && k < MOST_LIST && sets[k - 1].wrapping_add(1) == sets[k]
}

// A set of a list, unless it follows the one before it and the next one follows it.
fn print_set(set: u16, joined: bool, more: bool) {
    if !joined {
        print_number(set as usize);
        return;
    }
    if !more {
        print_byte(b'-');
        io::print_decimal(STDOUT, set as u64);
    }
}

// The entries of a list that are written; of those that follow each other the first and the last, with a dash between
// them.
fn print_listed(sets: &[u16; MOST_LIST]) {
    for k in 0..MOST_LIST {
        if sets[k] != NO_SET {
            print_set(sets[k], follows(sets, k), follows(sets, k + 1));
        }
    }
}

// A family's name and size, how many sets are listed, and the list.
fn print_list(name: &[u8], work: &[u8; MOST_WORK], part: usize)
    requires { part < 400 }
{
    let mut sets = [NO_SET; MOST_LIST];
    let listed = family_lists::list_sets(work, part, &mut sets);
    print_byte(b'\n');
    print_counts(name, &[families::size(work, part), listed]);
    print_listed(&sets);
}

// The product of two families, and what a gate makes of it.
fn product(before: [u8; MOST_WORK], first: usize, second: usize, into: usize)
    requires { (into < 400) × (first < into) × (second < into) }
{
    let mut work = before;
    let mut wide = before;
    let tried = family_products::product(&mut work, into, first, second);
    family_products::spread(&mut wide, into, first, second);
    print_counts(b": pairs#", &[tried]);
    print_list(b"first#, listed#:", &work, first);
    print_list(b"second#, listed#:", &work, second);
    print_list(b"product#, listed#:", &work, into);
    print_list(b"spread#, listed#:", &wide, into);
    let made = bytes_span(&before, &work);
    let spread = bytes_span(&before, &wide);
    print_counts(
        b", changed## and##",
        &[made.from, made.to, spread.from, spread.to],
    );
}

// ---- lines

// Runs a command on a block; answers whether there is such a command of so many numbers, and they are within its
// limits.
fn run_command(command: &[u8], numbers: Numbers, bytes: &[u8]) -> bool {
    let [node, limit, first, last] = numbers.last;
    match (numbers.count, command) {
        (1, b"points") => points(bytes, last),
        (1, b"list") if last <= MOST_TEXT => list(bytes, last),
        (1, b"node") if last < MOST_NODES => check_node(bytes, last),
        (2, b"check") if first <= MOST_NODES && last <= MOST_WORK => check(bytes, first, last),
        (2, b"ask") => ask(bytes, first, last),
        (2, b"value") => value(bytes, first, last),
        (3, b"pairs") if first <= MOST_NODES && last <= MOST_WORK => {
            check_pairs(bytes, limit, first, last)
        }
        (4, b"derive") if last <= MOST_STEPS => derive(bytes, node, limit, first, last),
        _ => return false,
    }
    true
}

// Runs edits of a block, whose records are the words.
fn run_edits(numbers: Numbers, words: &[u8], edited: &[u8]) -> bool {
    let [_, _, entries, room] = numbers.last;
    let block = block_of(words);
    if block.count.is_none() || entries > MOST_NODES || room > MOST_WORK {
        return false;
    }
    edits(block.bytes(), edited, entries, room);
    true
}

// Runs a product of families of two lists of sets.
fn run_product(numbers: Numbers, rows: &[u8], columns: &[u8]) -> bool {
    let [_, first, second, into] = numbers.last;
    if into >= PARTS || first >= into || second >= into {
        return false;
    }
    let mut work = [170u8; MOST_WORK];
    clear_part(&mut work, first);
    clear_part(&mut work, second);
    put_family(&mut work, first, rows);
    put_family(&mut work, second, columns);
    product(work, first, second, into);
    true
}

// The first field, the second, and the case's name, where a case has two fields.
fn two_fields(fields: &[u8]) -> Option<(&[u8], &[u8], &[u8])> {
    let (first, behind) = cut(fields, b':')?;
    let (second, name) = cut(behind, b':').unwrap_or((behind, &[]));
    Some((first, second, name))
}

// Runs a case of two fields.
fn run_fields<F>(fields: &[u8], run: F) -> bool
where
    F: Fn(&[u8], &[u8]) -> bool,
    requires { F.IsAlwaysCallable run }
{
    let Some((first, second, name)) = two_fields(fields) else {
        return false;
    };
    print(behind_first(name));
    run(first, second)
}

// Runs a case by its command, its numbers and what stands behind the colon: one field or two, and the case's name.
fn run_case(command: &[u8], numbers: Numbers, fields: &[u8]) -> bool {
    if command == b"edits".as_slice() {
        return run_fields(fields, |words, edited| run_edits(numbers, words, edited));
    }
    if command == b"product".as_slice() {
        return run_fields(fields, |rows, columns| run_product(numbers, rows, columns));
    }
    let (words, name) = cut(fields, b':').unwrap_or((fields, &[]));
    let block = block_of(words);
    print(behind_first(name));
    match block.count {
        Some(digits) if digits % 2 == 0 => run_command(command, numbers, block.bytes()),
        _ => false,
    }
}

// The command of a line, its numbers, and what stands behind the colon.
fn parts_of(line: &[u8]) -> Option<(&[u8], &[u8], &[u8])> {
    let (command, behind) = cut(line, b' ')?;
    let (words, fields) = cut(behind, b':')?;
    Some((command, words, fields))
}

// Runs the case of a line; answers whether it is understood.
fn is_understood(line: &[u8]) -> bool {
    match parts_of(line) {
        Some((command, words, fields)) => run_case(command, numbers_of(words), fields),
        None => false,
    }
}

// A line: for the reader, to be printed, or a case.
fn run_line(line: &[u8]) {
    match line.first() {
        None | Some(b'#') => {}
        Some(b'=') => {
            print(behind_first(behind_first(line)));
            print_byte(b'\n');
        }
        Some(_) => {
            if is_understood(line) {
                print_byte(b'\n');
            } else {
                complain(line);
            }
        }
    }
}

// Every line of a text.
fn run_lines(text: &[u8]) {
    for line in text.split(|x| *x == b'\n') {
        run_line(line);
    }
}

fn main() {
    let mut text = [0u8; MOST_INPUT];
    let count = io::read_full(STDIN, &mut text);
    run_lines(&text[..count]);
    if count == MOST_INPUT {
        print(b"standard input is too long\n");
    }
}
