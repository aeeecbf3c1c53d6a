// Lines of names and numbers on standard output.
use adpcm::AdpcmContext;
use std::io;

// A name and a number.
pub fn print_field(rt: &impl Print, name: &[u8], value: u64) -> io::Result<()> {
    rt.write_all(name)?;
    println!(rt; " {value}")
}

// A name and signed numbers.
pub fn print_numbers(rt: &impl Print, name: &[u8], numbers: &[i16; 16]) -> io::Result<()> {
    rt.write_all(name)?;
    for &x in numbers {
        print!(rt; " {x}")?;
    }
    rt.write_all(b"\n")
}

// A name, a frame's header and the two samples before it.
pub fn print_context(rt: &impl Print, name: &[u8], x: AdpcmContext) -> io::Result<()> {
    rt.write_all(name)?;
    println!(rt; " {} {} {}", x.pred_scale, x.history0, x.history1)
}
