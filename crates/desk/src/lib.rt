// What the program `telgouin` prints, command by command. The commands over a whole block take what `checker::examine`
// left of it: the netlist with its marks and its answer by value, and the work bytes that hold its families,
// which no command writes to; none reads the block's bytes again. The three queries read them for themselves.
// Fields that scripts rely on are texts of `desk_text` and `listing_text`; what stands behind ` # ` is for people.
// Writes to standard output, and how far a search is to standard error. For `telgouin` alone.
#![tactic(auto)]

pub mod ask;
pub mod help;
mod node_words;
pub mod picture;
pub mod say;
pub mod search;
mod steps;
pub mod why;
