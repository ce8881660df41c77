// Program: document 01's samples that carry no star and those of the requests, run and compared. A line for each says what was tried, what
// came out, and whether that is what the document says; the last line counts them.
#![tactic(auto)]

mod counting;
mod frames;
mod hearing;
mod images;
mod listening;
mod reading_back;
mod tally;
mod writing;

use std::io;
use tally::Tally;

// In document 01's order ("Samples to try"); then those of the requests.
fn main(rt: HostRuntime) -> io::Result<()> {
    let mut t = Tally::new(rt.stdout());
    writing::identifiers(&mut t)?;
    writing::codes(&mut t)?;
    listening::code_15(&mut t)?;
    writing::captures(&mut t)?;
    listening::ready(&mut t)?;
    listening::between(&mut t)?;
    counting::groups(&mut t)?;
    reading_back::ends_dominant(&mut t)?;
    reading_back::ends_recessive(&mut t)?;
    listening::newer(&mut t)?;
    counting::asking(&mut t)?;
    reading_back::code_12(&mut t)?;
    writing::codes_to_15(&mut t)?;
    writing::identifiers_for_old(&mut t)?;
    writing::frames_for_old(&mut t)?;
    t.print()
}
