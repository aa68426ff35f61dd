// The lines of a block, each as it comes: what it says is kept, or the calls are asked for that make the store so, or that show what a
// call left.
#![tactic(auto)]

mod case;
mod log;
mod told;

pub use case::Case;
pub use log::LogLine;
