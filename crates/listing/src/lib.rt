// What a region holds, in lines: its names with what they read, and its log.
#![tactic(auto)]

pub mod entries;
pub mod log;
