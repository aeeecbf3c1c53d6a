// The session program's work, on slices: its input, question 10, and the lines that it prints.
#![tactic(auto)]

mod digits;
mod input;
mod lines;
mod question;

pub use input::{Call, call_count, calls, first_call, memory, parameters};
pub use lines::{frames_line, refused_line, reply_line};
pub use question::accepted;
