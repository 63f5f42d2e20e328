// The plan text: one form, read and written. Keys are fixed byte strings that the reader compares and the writer emits.
#![tactic(auto)]

pub mod keys;
pub mod lines;
mod placing;
pub mod reader;
pub mod reading;
pub mod writer;
pub mod writing;
