// The code of one map of pieces: scanning it, finding runs, listing pieces, and the modes by which two maps are mixed. Functions with preconditions serve
// the crates above.
#![tactic(auto)]

pub mod list;
pub mod locate;
pub mod modes;
pub mod scan;
