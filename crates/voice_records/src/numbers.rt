// Numbers of a voice's record that are not taken as they stand.
ghost use Rattle.std.specs.Prelude.{◌≡◌, ◌<◌};
ghost use Rattle.voice_records.specs.Record.{record_channels, channel_id, id_at, ids_of, splitter_of, flush_of, decoding_of};

use fields::{byte_at, u16_at, u32_at};

// The channels that a voice plays, of those that its record says.
pub fn record_channels(p: &[u8]) -> u32
    ensures { result ≡ record_channels p.now }
{
    u32_at(p, 0x18).clamp(1, 6)
}

// A channel resource: of those past the last, the last.
fn channel_id(count: u32, v: u32) -> u32
    ensures { result ≡ channel_id count v }
{
    fields::positive(v).min(count.saturating_sub(1))
}

// The resource of channel c.
pub fn id_at(p: &[u8], count: u32, c: usize) -> u32
    requires { c < 6 }
    ensures { result ≡ id_at count p.now c }
{
    channel_id(count, u32_at(p, 0x140 + c * 4))
}

// The resources of all six channels.
pub fn channel_ids(p: &[u8], count: u32) -> [u32; 6]
    ensures { result ≡ ids_of count p.now }
{
    std::array::from_fn(|c| id_at(p, count, c))
}

// The splitter; none before revision 2.
pub fn splitter_of(p: &[u8], revision: u32) -> u32
    ensures { result ≡ splitter_of revision p.now }
{
    if revision >= 2 {
        u32_at(p, 0x5c)
    } else {
        voice::UNUSED_SPLITTER
    }
}

// Buffers to flush: more by the record's byte from revision 5 on.
pub fn flush_of(flush: u32, p: &[u8], revision: u32) -> u32
    ensures { result ≡ flush_of revision p.now flush }
{
    if revision >= 5 {
        flush.wrapping_add(byte_at(p, 0x159) as u32)
    } else {
        flush
    }
}

// The decoding flags, from revision 5 on.
pub fn decoding_of(decoding: u32, p: &[u8], revision: u32) -> u32
    ensures { result ≡ decoding_of revision p.now decoding }
{
    if revision >= 5 {
        u16_at(p, 0x15c) as u32
    } else {
        decoding
    }
}
