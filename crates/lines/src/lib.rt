// The lines of a file of recorded cases, as tests/rust/FORMAT.md has them: words with one space between them, of which the first says
// what the line is, and the others are numbers.
#![tactic(auto)]

pub mod input;
pub mod order;
pub mod words;
