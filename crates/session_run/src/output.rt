// Standard output, and the one error of a run.
use std::io;

// The error of a write. The field is this module's own: nothing else makes one, so no other error comes from a run.
#[derive(Debug, Drop)]
pub struct WriteFailed {
    error: io::Error,
}

impl From<WriteFailed> for io::Error {
    fn from(e: WriteFailed) -> io::Error {
        e.error
    }
}

// Writes all of the bytes.
pub fn write(rt: &impl Print, bytes: &[u8]) -> Result<(), WriteFailed> {
    match rt.write_all(bytes) {
        Ok(()) => Ok(()),
        Err(error) => Err(WriteFailed { error }),
    }
}
