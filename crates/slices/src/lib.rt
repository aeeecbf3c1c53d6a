// A renderer's state as its caller lends it: five slices that travel together.
#![tactic(auto)]

#[derive(Drop)]
pub struct Slices<'a> {
    pub words: &'a mut [u32],
    pub longs: &'a mut [u64],
    pub floats: &'a mut [f32],
    pub contexts: &'a mut [u16],
    pub history: &'a mut [f32],
}
