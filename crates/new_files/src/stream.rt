//! What is written to.

ghost use Rattle.std.specs.Prelude.{IfOk};
ghost use Rattle.new_files.specs.Streams.{stream_contents, HasWritten, HasGot};

use std::io;
use std::io::{Printer, Write};
use std::rt::Files;

/// What is written to: a file, or the standard output that is open.
#[derive(Drop)]
pub enum NewStream<'r, R: Files + Print> {
    /// A file.
    File(R::File),
    /// The standard output.
    Standard(Printer<'r, R>),
}

/// A writer once bytes are written to it.
fn written<W: Write + Drop>(mut out: W, bytes: &[u8]) -> io::Result<W>
    ensures { IfOk result (λ written. HasWritten W.contents written bytes.now) }
{
    out.write_all(bytes)?;
    Ok(out)
}

impl<'r, R: Files + Print> NewStream<'r, R> {
    /// This stream once bytes are written to it.
    ///
    /// # Errors
    ///
    /// Where it takes no more.
    pub(crate) fn with_bytes(self, bytes: &[u8]) -> io::Result<Self>
        ensures { IfOk result (λ stream. HasGot R.File.contents stream bytes.now) }
    {
        match self {
            NewStream::File(file) => Ok(NewStream::File(written(file, bytes)?)),
            NewStream::Standard(out) => Ok(NewStream::Standard(written(out, bytes)?)),
        }
    }
}

impl<'r, R: Files + Print> Write for NewStream<'r, R> {
    ghost contents = { stream_contents R.File.contents };

    fn write(&mut self, buf: &[u8]) -> io::Result<usize> {
        match self {
            NewStream::File(file) => file.write(buf),
            NewStream::Standard(out) => out.write(buf),
        }
    }

    fn flush(&mut self) -> io::Result<()> {
        match self {
            NewStream::File(file) => file.flush(),
            NewStream::Standard(out) => out.flush(),
        }
    }
}
