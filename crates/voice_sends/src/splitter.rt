// A voice's sends by a splitter: its destinations go to the channels in turn.
ghost use Rattle.std.specs.Prelude.{◌≡◌, ◌*◌, ◌<◌, length};
ghost use Rattle.voice_sends.specs.Sending.{passing, destination_sent, list_sent, splitter_sends, by_splitter};

use crate::gains::send_channel;
use crate::samples::Rows;
use desk_rows::Desk;

// Row c by destination d, where that is configured and its mix is there.
fn send_destination(
    buffers: &mut [f32],
    rows: &Rows,
    desk: &Desk,
    c: usize,
    d: usize,
    destinations: &mut [f32],
)
    requires { (c < rows.now.channels) × (length destinations.old ≡ desk.now.lists.nd * 48) }
    ensures { passing buffers.new destinations.new ≡ destination_sent rows.now.n rows.now.samples.now rows.now.channels desk.now.mixes.words.now desk.now.mixes.n desk.now.lists.words.now desk.now.lists.ns desk.now.lists.nd c d (passing buffers.old destinations.old) }
{
    if !desk.lists.configured(d) {
        return;
    }
    let m = desk.lists.destination_mix(d) as usize;
    if m >= desk.mixes.n {
        return;
    }
    send_channel(buffers, rows, &desk.mixes, m, c, destinations, d);
}

// Row c by its part of the list of splitter s.
fn send_list(
    buffers: &mut [f32],
    rows: &Rows,
    desk: &Desk,
    s: usize,
    c: usize,
    destinations: &mut [f32],
)
    requires there { (c < rows.now.channels) × (s < desk.now.lists.ns) }
    requires destinations { length destinations.old ≡ desk.now.lists.nd * 48 }
    ensures { passing buffers.new destinations.new ≡ list_sent rows.now.n rows.now.samples.now rows.now.channels desk.now.mixes.words.now desk.now.mixes.n desk.now.lists.words.now desk.now.lists.ns desk.now.lists.nd s c (passing buffers.old destinations.old) }
{
    let count = desk.lists.list_length(s);
    for k in (c..count).step_by(rows.channels) {
        let d = desk.lists.list_entry(s, k);
        send_destination(buffers, rows, desk, c, d, destinations);
    }
}

// Each channel by its part of the list of splitter s.
fn splitter_sends(buffers: &mut [f32], rows: &Rows, desk: &Desk, s: usize, destinations: &mut [f32])
    requires { (s < desk.now.lists.ns) × (length destinations.old ≡ desk.now.lists.nd * 48) }
    ensures { passing buffers.new destinations.new ≡ splitter_sends rows.now.n rows.now.samples.now rows.now.channels desk.now.mixes.words.now desk.now.mixes.n desk.now.lists.words.now desk.now.lists.ns desk.now.lists.nd s (passing buffers.old destinations.old) }
{
    for c in 0..rows.channels {
        send_list(buffers, rows, desk, s, c, destinations);
    }
}

// By splitter s, where there is one of that number.
pub fn by_splitter(
    buffers: &mut [f32],
    rows: &Rows,
    desk: &Desk,
    s: usize,
    destinations: &mut [f32],
)
    requires { length destinations.old ≡ desk.now.lists.nd * 48 }
    ensures { passing buffers.new destinations.new ≡ by_splitter rows.now.n rows.now.samples.now rows.now.channels desk.now.mixes.words.now desk.now.mixes.n desk.now.lists.words.now desk.now.lists.ns desk.now.lists.nd s (passing buffers.old destinations.old) }
{
    if s >= desk.lists.ns {
        return;
    }
    splitter_sends(buffers, rows, desk, s, destinations);
}
