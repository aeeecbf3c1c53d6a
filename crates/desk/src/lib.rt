// The updates of channel resources and sinks, and what an update reads of a record: each goes through the records of one section of
// the input and changes the rows of what they are for.
#![tactic(auto)]

mod channels;
mod records;
mod sinks;

pub use channels::update_channel_resources;
pub use records::put_floats;
pub use sinks::update_sinks;
