//! The files that the calls are made of.

use job::{JobFault, read_all};
use std::fs::File;
use std::io::ErrorKind;
use std::rt::Files;

/// All bytes of the file of a name.
pub(crate) fn file<R: Files + AllocGlobal>(rt: &R, name: &str) -> Result<Vec<u8>, JobFault> {
    match File::open(rt, name) {
        Ok(mut file) => read_all(rt.alloc(), &mut file),
        Err(error) if error.kind() == ErrorKind::OutOfMemory => Err(JobFault::Memory),
        Err(_) => Err(JobFault::Read),
    }
}

/// The word that a file holds.
pub(crate) fn word<R: Files + AllocGlobal>(rt: &R, name: &str) -> Result<String, JobFault> {
    let bytes = file(rt, name)?;
    let text = String::from_utf8_lossy(rt.alloc(), &bytes)?;
    Ok(String::from_str(rt.alloc(), text.as_str().trim_end())?)
}
