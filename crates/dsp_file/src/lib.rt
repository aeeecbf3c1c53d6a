// DSP files: a header of 96 bytes, then ADPCM frames. A reader, and a writer that gives back the same bytes.
// Both ask questions 11 and 12 of docs/QUESTIONS.md, in that sequence.
#![tactic(auto)]

ghost use Rattle.std.specs.Prelude.{◌≡◌};
ghost use Rattle.dsp_file.specs.File.{plain_values, holds_samples, has_room, data_of, number_of};
ghost use Rattle.dsp_file.specs.File.{read_seen, read_call, write_seen, write_call};

use adpcm::Sample;
use dsp_header::{DspHeader, HEADER_BYTES};

// Why a file is refused.
#[derive(Clone, Copy, Debug, PartialEq, Eq)]
pub enum DspError {
    // Fewer than 96 bytes, or format, gain or padding is not 0.
    Header,
    // The data is too short for the samples, or the output for the file.
    Short,
}

impl DspError {
    // The number of the question that refuses it.
    pub fn number(self) -> u32
        ensures { result ≡ number_of self }
    {
        match self {
            DspError::Header => 11,
            DspError::Short => 12,
        }
    }
}

// Whether format and gain are 0.
fn plain_header(format: u16, gain: u16) -> bool
    ensures { result ≡ plain_values format gain }
{
    format == 0 && gain == 0
}

// Whether so many bytes of data hold so many samples.
fn holds_samples(samples: u32, bytes: usize) -> bool
    ensures { result ≡ holds_samples samples bytes }
{
    let size = adpcm::adpcm_size(Sample(u64::from(samples)));
    size.0 <= bytes as u64
}

// Whether an output has room for a header and so many bytes of data.
fn has_room(bytes: usize, output: usize) -> bool
    ensures { result ≡ has_room bytes output }
{
    fields::inside(output, HEADER_BYTES, bytes)
}

// The header of a file that is accepted.
pub fn read_dsp(file: &[u8]) -> Result<DspHeader, DspError>
    ensures { read_seen result ≡ read_call file.now }
{
    if file.len() < HEADER_BYTES {
        return Err(DspError::Header);
    }
    let header = dsp_header::read_header(file);
    if !plain_header(header.format, header.gain) {
        return Err(DspError::Header);
    }
    if !dsp_header::padding_is_zero(file) {
        return Err(DspError::Header);
    }
    if !holds_samples(header.samples, file.len() - HEADER_BYTES) {
        return Err(DspError::Short);
    }
    Ok(header)
}

// The data of a file: everything behind its header, whether or not the file is accepted.
pub fn dsp_data(file: &[u8]) -> &[u8]
    ensures { result.now ≡ data_of file.now }
{
    fields::rest(file, HEADER_BYTES)
}

// A file of this header and all of this data, to the front of the output.
pub fn write_dsp(header: DspHeader, data: &[u8], output: &mut [u8]) -> Result<usize, DspError>
    ensures { write_seen result output.new ≡ write_call header «data».now output.old }
{
    if !plain_header(header.format, header.gain) {
        return Err(DspError::Header); // nothing is written
    }
    if !holds_samples(header.samples, data.len()) {
        return Err(DspError::Short);
    }
    if !has_room(data.len(), output.len()) {
        return Err(DspError::Short);
    }
    dsp_header::put_header(header, output);
    rows::copy_in(output, HEADER_BYTES, data);
    Ok(HEADER_BYTES + data.len())
}
