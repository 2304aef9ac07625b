// The listing program: reads a block from standard input, at most 1,024 bytes, and writes its listing to
// standard output. Where the input cannot be read it says so on standard error. It touches these three alone.
// No crate uses it; the script `listing` runs it.
#![tactic(auto)]

ghost use Rattle.std.specs.Prelude.{◌≡◌, List, ℕ, ◌≤◌, length, take};
ghost use Rattle.rules.specs.Listing.{listing, most_text, most_input};

use listing_text::MOST_TEXT;

// Where the program writes to.
const STDOUT: i32 = 1;

const STDERR: i32 = 2;

// How many bytes of standard input are read.
const MOST_INPUT: usize = 1024;

// Writes the listing of a file, of which all bytes, or as many as there is room for, stand at the front of `bytes`:
// what a longer file has beyond them changes no listing. Returns how many bytes the listing has.
fn list_file(bytes: &[u8], read: usize, text: &mut [u8]) -> usize
    requires { (length bytes.now ≡ most_input) × (read ≤ length bytes.now) × (most_text ≤ length text.old) }
    ensures listed { (file : List ℕ) → take read bytes.now ≡ take most_input file →
        take result text.new ≡ listing file }
    ensures most { result ≤ most_text }
{
    listing_text::telgouin_listing(&bytes[..read], text)
}

// Reads a block and writes its listing. A read that fails is no end of the block: then there is no listing.
fn main(rt: HostRuntime) {
    let mut bytes = [0u8; MOST_INPUT];
    let mut text = [0u8; MOST_TEXT];
    let mut input = rt.stdin();
    match input_bytes::read_input(&mut input, &mut bytes) {
        Err(_) => {
            io::write_all(STDERR, b"listing: standard input cannot be read\n");
        }
        Ok(read) => {
            let written = list_file(&bytes, read, &mut text);
            io::write_all(STDOUT, &text[..written]);
        }
    }
}
