// mixer.rs `update_channel_resources`. Floats: 48 for each channel resource, mix 24 and previous 24.
ghost use Rattle.std.specs.Prelude.{◌≡◌, ◌+◌, ◌*◌, ◌≤◌, length};
ghost use Rattle.desk.specs.Channels.{channel_step, channels_of};

use crate::records::put_floats;

// Channel resource k's mix, from its record.
fn channel_record(d: &[u8], k: usize, floats: &mut [f32])
    requires { (k * 0x70 + 0x70 ≤ length d.now) × (k * 48 + 48 ≤ length floats.old) }
    ensures { floats.new ≡ channel_step d.now k floats.old }
{
    let p = fields::section(d, k * 0x70, 0x70);
    put_floats(p, 4, 24, floats, k * 48);
}

pub fn update_channel_resources(d: &[u8], n: usize, floats: &mut [f32])
    requires { (length floats.old ≡ n * 48) × (n ≤ 64) }
    ensures { floats.new ≡ channels_of d.now n floats.old }
{
    for k in 0..n.min(d.len() / 0x70) {
        channel_record(d, k, floats);
    }
}
