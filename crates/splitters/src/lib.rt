// What reads one record of the splitter section (mixer.rs `update_splitters`), on the section's bytes and on the rows of ns splitters and
// nd destinations. `section` goes from record to record.
// Words: for each splitter 129, its list's length and its list; then for each destination two, used and mix.
// Floats: for each destination 48, its volumes and its previous volumes.
#![tactic(auto)]

mod destinations;
mod lists;

pub use destinations::{find_stride, read_destination};
pub use lists::read_splitter;

pub const SPLITTER_HEADER_MAGIC: u32 = 0x4844_4e53;

pub const SPLITTER_MAGIC: u32 = 0x4944_4e53;

pub const DESTINATION_MAGIC: u32 = 0x4444_4e53;
