// The wave buffers of a voice's record: four records of 0x38 bytes from 0x60 on.
ghost use Rattle.std.specs.Prelude.{◌≡◌, ◌<◌};
ghost use Rattle.voice_records.specs.Record.{recorded_buffer, recorded_buffers};

use voice::WaveBuffer;

// Wave buffer b: the record's where it is taken in, else the one that was.
fn recorded_buffer(old: WaveBuffer, p: &[u8], format: u32, b: usize) -> WaveBuffer
    requires { b < 4 }
    ensures { result ≡ recorded_buffer format p.now b old }
{
    let w = fields::section(p, 0x60 + b * 0x38, 0x38);
    if fields::byte_at(w, 0x1a) != 0 {
        return old;
    }
    let wb = WaveBuffer::parse(w);
    if wb.offsets_valid(format) { wb } else { old }
}

// All four, each by a call of its own: through `from_fn` an update with 64 voices takes 1.3 times the time and 950 bytes more of the stack.
pub fn recorded_buffers(old: [WaveBuffer; 4], p: &[u8], format: u32) -> [WaveBuffer; 4]
    ensures { result ≡ recorded_buffers format p.now old }
{
    [
        recorded_buffer(old[0], p, format, 0),
        recorded_buffer(old[1], p, format, 1),
        recorded_buffer(old[2], p, format, 2),
        recorded_buffer(old[3], p, format, 3),
    ]
}
