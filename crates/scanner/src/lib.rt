// Texts by letters, lines, words and numbers, whatever form they have: the next line of a text, the words of a line,
// two words compared, and the number that a word is. Reads the text that it is lent. Used by `read_words`, and by
// `edit_lines` and the program for words of their own.
#![tactic(auto)]

ghost use Rattle.std.specs.Prelude.{◌≡◌, true, false, [], ◌-◌, ◌≤◌, ◌<◌, length, get_or, drop, MatchOption, not, ◌==◌, position};
ghost use Rattle.scanner.specs.Words.{is_blank, ends_word, words, same};
ghost use Rattle.scanner.specs.Numbers.{is_digit, number_in, cut};
ghost use Rattle.scanner.specs.Scans.{NextLine, NextWord, IsWord};

// Where a word starts and ends in a line.
#[derive(Clone, Copy, Debug, PartialEq, Eq)]
pub struct Place {
    pub from: usize,
    pub to: usize,
}

// Where a line ends in a text, and where the next one starts.
#[derive(Clone, Copy, Debug, PartialEq, Eq)]
pub struct LinePlace {
    pub to: usize,
    pub next: usize,
}

// Whether a letter parts words.
pub fn is_blank(letter: u8) -> bool
    ensures { result ≡ is_blank letter }
{
    letter == b' ' || letter == b'\t' || letter == b'\r'
}

// ---- scans: functions of their own, since of a chain inside a longer function the proof learns no result

// How many blanks a text begins with, if something else follows.
fn blanks(text: &[u8]) -> Option<usize>
    ensures { result ≡ position (λ letter. not (is_blank letter)) text.now }
{
    text.iter().position(|letter| !is_blank(*letter))
}

// How many letters stand before the first that ends a word.
fn word_length(text: &[u8]) -> Option<usize>
    ensures { result ≡ position ends_word text.now }
{
    text.iter()
        .position(|letter| is_blank(*letter) || *letter == b'#')
}

// How many letters stand before the first line feed.
fn line_length(text: &[u8]) -> Option<usize>
    ensures { result ≡ position (λ letter. letter == 10) text.now }
{
    text.iter().position(|letter| *letter == b'\n')
}

// ---- lines

// Where the line of a text that starts at `at` ends, without its line feed, and where the next one starts: at the end
// of the text if there is none.
pub fn next_line(text: &[u8], at: usize) -> LinePlace
    requires { at < length text.now }
    ensures { NextLine text.now at result.to result.next }
{
    match line_length(&text[at..]) {
        Some(long) => LinePlace {
            to: at + long,
            next: at + long + 1,
        },
        None => LinePlace {
            to: text.len(),
            next: text.len(),
        },
    }
}

// ---- words

// Where the next word of a line from `at` on starts and ends. A comment, from `#` on, has no words.
pub fn next_word(line: &[u8], at: usize) -> Option<Place>
    requires { at ≤ length line.now }
    ensures { MatchOption result (words (drop at line.now) ≡ []) (λ word. NextWord line.now at word.from word.to) }
{
    let from = at + blanks(&line[at..])?;
    let long = word_length(&line[from..]).unwrap_or(line.len() - from);
    if long == 0 {
        return None;
    }
    Some(Place {
        from,
        to: from + long,
    })
}

// Where word `k` of a line, from 0, starts and ends.
pub fn word_at(line: &[u8], k: usize) -> Option<Place>
    ensures { MatchOption result (length (words line.now) ≤ k) (λ word. IsWord line.now k word.from word.to) }
{
    let mut at = 0;
    for _ in 0..k {
        at = next_word(line, at)?.to;
    }
    next_word(line, at)
}

// How many words a line has.
pub fn count_words(line: &[u8]) -> usize
    ensures { result ≡ length (words line.now) }
{
    let mut count = 0;
    let mut at = 0;
    while let Some(word) = next_word(line, at) {
        at = word.to;
        count += 1;
    }
    count
}

// Whether a word has the same bytes as another.
#[tactic(auto, unfolding(crate::specs::Words::same))]
pub fn is_word(word: &[u8], other: &[u8]) -> bool
    ensures { result ≡ same word.now other.now }
{
    word == other
}

// ---- numbers

// The value of a decimal digit.
fn digit_of(letter: u8) -> Option<usize>
    ensures { MatchOption result (is_digit letter ≡ false) (λ digit. (is_digit letter ≡ true) × (digit ≡ letter - 48)) }
{
    match letter {
        b'0'..=b'9' => Some(usize::from(letter - b'0')),
        _ => None,
    }
}

// The number that a word is in decimal digits: at least one, and below 2 to the power 64.
pub fn number_of(word: &[u8]) -> Option<usize>
    ensures { result ≡ number_in word.now }
{
    if word.is_empty() {
        return None;
    }
    let mut value: usize = 0;
    for letter in word {
        let digit = digit_of(*letter)?;
        value = value.checked_mul(10)?.checked_add(digit)?;
    }
    Some(value)
}

// The number that a word is, if it is below a limit.
#[tactic(auto, unfolding(crate::specs::Numbers::cut))]
pub fn number_below(word: &[u8], limit: usize) -> Option<usize>
    ensures { MatchOption result (cut limit (number_in word.now) ≡ limit)
        (λ number. (number < limit) × (number ≡ cut limit (number_in word.now))) }
{
    number_of(word).filter(|number| *number < limit)
}
