// What `trials` reads and writes, one number at a time: words of standard input, fields of standard output.
#![tactic(auto)]

pub mod show;
pub mod values;
pub mod words;

// How much is read and written at a time.
pub const BUFFER: usize = 65536;
