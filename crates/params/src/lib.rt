// What a renderer is opened with, and where the sections of an update's input lie.
#![tactic(auto)]

mod params;
mod sections;

pub use params::Params;
pub use sections::Sections;

// Bytes of a header, in the input and in the reply, and of each of the reply's records.
pub const HEADER_SIZE: usize = 0x40;

pub const MEMORY_POOL_OUT: usize = 0x10;

pub const VOICE_OUT: usize = 0x10;

pub const SINK_OUT: usize = 0x20;

pub const PERFORMANCE_OUT: usize = 0x10;

pub const BEHAVIOR_OUT: usize = 0xb0;

pub const RENDER_INFO_OUT: usize = 0x10;
