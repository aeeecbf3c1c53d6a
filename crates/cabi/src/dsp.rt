// The calls for DSP files.
ghost use Rattle.std.specs.Prelude.{◌≡◌};
ghost use Rattle.dsp_file.specs.File.{read_call, write_call};
ghost use Rattle.cabi.specs.Dsp.{header_in, placed, read_in, write_in, write_told};

use crate::decode::{JeqllunaContext, context_in, context_told};
use dsp_file::DspError;
use dsp_header::{DspHeader, HEADER_BYTES};

// The values of a DSP file's header.
#[repr(C)]
#[derive(Clone, Copy)]
pub struct JeqllunaDsp {
    pub samples: u32,
    pub nibbles: u32,
    pub rate: u32,
    pub loop_flag: u16,
    pub format: u16,
    pub loop_start: u32,
    pub loop_end: u32,
    pub address: u32,
    pub coefficients: [i16; 16],
    pub gain: u16,
    pub start_context: JeqllunaContext,
    pub loop_context: JeqllunaContext,
}

#[repr(C)]
#[derive(Clone, Copy)]
pub struct JeqllunaDspRead {
    pub number: u32,
    pub header: JeqllunaDsp,
    // Where the data begins, and its length.
    pub data: usize,
    pub data_len: usize,
}

#[repr(C)]
#[derive(Clone, Copy)]
pub struct JeqllunaDspWritten {
    pub number: u32,
    // How many bytes were written.
    pub size: usize,
}

// A header as C has it.
fn header_told(h: DspHeader) -> JeqllunaDsp
    ensures { header_in result ≡ h }
{
    let coefficients = h.coefficients;
    let start = h.start_context;
    let looped = h.loop_context;
    let start_context = context_told(start);
    let loop_context = context_told(looped);
    JeqllunaDsp {
        samples: h.samples,
        nibbles: h.nibbles,
        rate: h.rate,
        loop_flag: h.loop_flag,
        format: h.format,
        loop_start: h.loop_start,
        loop_end: h.loop_end,
        address: h.address,
        coefficients,
        gain: h.gain,
        start_context,
        loop_context,
    }
}

// A header from C.
fn header_in(h: JeqllunaDsp) -> DspHeader
    ensures { result ≡ header_in h }
{
    let coefficients = h.coefficients;
    let start = h.start_context;
    let looped = h.loop_context;
    let start_context = context_in(start);
    let loop_context = context_in(looped);
    DspHeader {
        samples: h.samples,
        nibbles: h.nibbles,
        rate: h.rate,
        loop_flag: h.loop_flag,
        format: h.format,
        loop_start: h.loop_start,
        loop_end: h.loop_end,
        address: h.address,
        coefficients,
        gain: h.gain,
        start_context,
        loop_context,
    }
}

// The header of a DSP file, where its data begins and how long that is.
#[unsafe(no_mangle)]
pub extern "C" fn jeqlluna_read_dsp(file: &[u8]) -> JeqllunaDspRead
    ensures { read_in result ≡ placed (read_call file.now) file.now }
{
    match dsp_file::read_dsp(file) {
        Ok(header) => JeqllunaDspRead {
            number: 0,
            header: header_told(header),
            data: HEADER_BYTES,
            data_len: dsp_file::dsp_data(file).len(),
        },
        Err(e) => JeqllunaDspRead {
            number: e.number(),
            header: header_told(DspHeader::default()),
            data: 0,
            data_len: 0,
        },
    }
}

// An answer in numbers.
fn write_told(a: Result<usize, DspError>) -> JeqllunaDspWritten
    ensures { result ≡ write_told a }
{
    match a {
        Ok(size) => JeqllunaDspWritten { number: 0, size },
        Err(e) => JeqllunaDspWritten {
            number: e.number(),
            size: 0,
        },
    }
}

// Writes a DSP file of this header and all of this data to the front of output.
#[unsafe(no_mangle)]
pub extern "C" fn jeqlluna_write_dsp(
    header: JeqllunaDsp,
    data: &[u8],
    output: &mut [u8],
) -> JeqllunaDspWritten
    ensures { write_in result output.new ≡ write_call (header_in header) «data».now output.old }
{
    write_told(dsp_file::write_dsp(header_in(header), data, output))
}
