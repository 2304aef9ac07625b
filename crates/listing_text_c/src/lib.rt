// The listing for callers in C and Rust: `telgouin_listing` of `listing_text`, under the same name.
#![tactic(auto)]

ghost use Rattle.std.specs.Prelude.{◌≡◌, ◌≤◌, length};
ghost use Rattle.rules.specs.Listing.{listing, shown, most_text};

// The listing of netlist bytes: checks them and writes the listing's text to the front of `text`.
// Returns how many bytes the text has; a slice that is too short for it keeps its contents.
// `MOST_TEXT` bytes are enough for every listing.
#[unsafe(no_mangle)]
pub extern "C" fn telgouin_listing(bytes: &[u8], text: &mut [u8]) -> usize
    ensures size { result ≡ length (listing bytes.now) }
    ensures most { result ≤ most_text }
    ensures text { text.new ≡ shown (listing bytes.now) text.old }
{
    listing_text::telgouin_listing(bytes, text)
}
