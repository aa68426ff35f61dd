// What is prepared in a region, in lines: the rows, and the writes that a commit would make.
#![tactic(auto)]

mod plan;
pub mod prepared;
