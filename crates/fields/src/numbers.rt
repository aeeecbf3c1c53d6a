// Numbers that are not taken as they stand.
ghost use Rattle.std.specs.Prelude.{◌≡◌};
ghost use Rattle.fields.specs.Fields as Fields;

// The Rust's `i32.max(0)`, on the 32 bits.
pub fn positive(v: u32) -> u32
    ensures { result ≡ Fields.positive v }
{
    if v < 0x8000_0000 { v } else { 0 }
}
