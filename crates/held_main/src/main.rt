// Held notes: where a render needs no new sample, the resampler has three points, and the fourth is 2 * third - second.
// Printed are the output halfway between the second and the third of some points, and two renders of a voice that is slowed and held.
#![tactic(auto)]

use std::io;
use turn::{Render, Turn};
use voice::{History, Play, Sound, Voice, WaveBuffer};

// Where sample memory begins.
const BASE: u64 = 0x10000;

// The sample rate of the renderer and of the voice.
const RATE: u32 = 48000;

// The outputs of a render.
const OUTPUTS: u32 = 3;

// A number from 0 up with three places, and a plus sign where it has more.
fn print_places(rt: &impl Print, x: f32) -> io::Result<()> {
    let n = floats::as_usize(x * 1000.0);
    print!(rt; "{}.{:03}", n / 1000, n % 1000)?;
    if floats::floor(x * 1000.0) != x * 1000.0 {
        print!(rt; "+")?;
    }
    Ok(())
}

// A name and a number.
fn print_number(rt: &impl Print, name: &str, x: f32) -> io::Result<()> {
    print!(rt; "{name}")?;
    if x < 0.0 {
        print!(rt; "-")?;
        print_places(rt, -x)
    } else {
        print_places(rt, x)
    }
}

// A name and three numbers.
fn print_three(rt: &impl Print, name: &str, [a, b, c]: [f32; 3]) -> io::Result<()> {
    print_number(rt, name, a)?;
    print_number(rt, " ", b)?;
    print_number(rt, " ", c)
}

// The output halfway between the second and the third of three or four points.
fn print_halfway(rt: &impl Print, points: &[f32]) -> io::Result<()> {
    if points.len() < 3 || points.len() > 4 {
        return Ok(());
    }
    let mut out = [0.0; 1];
    resample::resample(points, &mut out, 1, 0.0, 0.5);
    print_number(rt, ": ", out[0])?;
    println!(rt; "")
}

// Three points and the output between them.
fn print_of_three(rt: &impl Print, points: [f32; 3]) -> io::Result<()> {
    print_three(rt, "points ", points)?;
    print_halfway(rt, &points)
}

// The same with a fourth point.
fn print_of_four(rt: &impl Print, points: [f32; 3], fourth: f32) -> io::Result<()> {
    print_three(rt, "points ", points)?;
    print_number(rt, " ", fourth)?;
    print_halfway(rt, &[points[0], points[1], points[2], fourth])
}

// A wave buffer of four 16-bit samples.
fn four_samples() -> WaveBuffer {
    WaveBuffer {
        addr: BASE,
        size: 8,
        end: 4,
        ..WaveBuffer::default()
    }
}

// A voice of one channel that plays them and has played nothing yet.
fn voice() -> Voice {
    let buffers = [four_samples(); 4];
    let valid = [true, false, false, false];
    Voice {
        in_use: true,
        play: Play::Started,
        format: voice::PCM_INT16,
        sample_rate: RATE,
        channels: 1,
        pitch: 1.0,
        volume: 1.0,
        previous_volume: 1.0,
        queued: 1,
        splitter_id: voice::UNUSED_SPLITTER,
        buffers,
        valid,
        ..Voice::default()
    }
}

// A voice with its sound.
#[derive(Clone, Copy)]
struct VoiceSound {
    voice: Voice,
    sound: Sound,
}

// What moved in a turn at a pitch.
fn print_moved(rt: &impl Print, pitch: f32, t: Turn) -> io::Result<()> {
    print_number(rt, "pitch ", pitch)?;
    print!(rt;
        ": needed {}, rounds {}, played {}",
        t.needed, t.plan.rounds, t.voice.played
    )?;
    print_number(rt, ", fraction ", t.voice.fraction)
}

// What is heard of a turn: the history after it and its outputs.
fn print_heard(rt: &impl Print, h: History, out: [f32; 3]) -> io::Result<()> {
    print_three(rt, ", history ", [h.samples[0], h.samples[1], h.samples[2]])?;
    print_three(rt, ", outputs ", out)?;
    println!(rt; "")
}

// A render of a voice at a pitch, printed; where a turn requires more, nothing.
fn render(
    rt: &impl Print,
    before: VoiceSound,
    pitch: f32,
    memory: &[u8],
) -> io::Result<VoiceSound> {
    let v = Voice {
        pitch,
        ..before.voice
    };
    let r = Render {
        sample_count: OUTPUTS,
        sample_rate: RATE,
        buffers_v2: true,
    };
    if memory.len() > 8 || v.index > 3 || v.channels != 1 {
        return Ok(before);
    }
    if !(0.0 <= v.fraction && v.fraction < 1.0) {
        return Ok(before);
    }
    let ranges = [BASE, 0, memory.len() as u64];
    let t = turn::plan_turn(v, r, &ranges);
    if t.needed > 13 {
        return Ok(before);
    }
    let row = (3 + t.needed) as usize;
    let mut src = [0.0; 16];
    let mut out = [0.0; 3];
    let q = voice::queue_of(v);
    let s = turn::source_of(v, r);
    let sound = playing::play_channels(
        q,
        s,
        &ranges,
        t.plan.table,
        memory,
        before.sound,
        t.ratio,
        t.fraction,
        OUTPUTS,
        &mut src[..row],
        &mut out,
    );
    print_moved(rt, pitch, t)?;
    print_heard(rt, sound.history, out)?;
    Ok(VoiceSound {
        voice: t.voice,
        sound,
    })
}

fn main(rt: HostRuntime) -> io::Result<()> {
    let points = [100.0, 200.0, 250.0];
    print_of_three(&rt, points)?;
    print_of_four(&rt, points, 300.0)?;
    print_of_four(&rt, points, 250.0)?;
    // The samples 100, 12345, -12345 and 32767.
    let memory = [0x64, 0x00, 0x39, 0x30, 0xc7, 0xcf, 0xff, 0x7f];
    let new = VoiceSound {
        voice: voice(),
        sound: voice::silent(),
    };
    let slowed = render(&rt, new, 0.5, &memory)?;
    render(&rt, slowed, 0.0, &memory)?;
    Ok(())
}
