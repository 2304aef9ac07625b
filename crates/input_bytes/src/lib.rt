// Reading all of an input, where a read that fails is reported and not taken for the end of the input.
// Reads from the reader that it is given, and writes to the slice. Used by the programs `listing` and `telgouin`.
#![tactic(auto)]

ghost use Rattle.input_bytes.specs.Input.{Front};

use std::io::{Error, Read};

// Reads until the slice is full or the input ends: how many bytes then stand at its front, or what a read failed
// with. Which bytes they are no contract can say. Each read is tested by itself, since one that failed may be followed
// by one that finds an end, as after a connection that was lost.
pub fn read_input<R: Read>(from: &mut R, into: &mut [u8]) -> Result<usize, Error>
    ensures { Front result into.new }
{
    let mut count = 0;
    // A `while`: each read gives as many bytes as it likes, so that no count of turns is known.
    while count < into.len() {
        let more = from.read(&mut into[count..])?;
        if more == 0 {
            break;
        }
        count += more;
    }
    Ok(count)
}
