//! Where the first records of their kind stand.

use import_words::{ImportCode, ImportFault, refused};
use std::alloc::{AllocError, AllocFailed, Global};

/// Where a record stands: in which of the files, counted from 0, and in which line of it.
#[derive(Clone, Copy)]
struct Spot {
    file: usize,
    line: u64,
}

/// Where the first records of their kind stand, in their order.
#[derive(Drop)]
pub(crate) struct Firsts {
    alloc: Global,
    files: Vec<String>,
    spots: Vec<Spot>,
}

impl Firsts {
    /// No records yet.
    pub(crate) fn new(alloc: Global) -> Firsts {
        Firsts {
            alloc,
            files: Vec::new(alloc),
            spots: Vec::new(alloc),
        }
    }

    /// Forgets all records.
    pub(crate) fn clear(&mut self) {
        self.files.clear();
        self.spots.clear();
    }

    /// Goes on to a file, in which the next records stand.
    pub(crate) fn begin_file(&mut self, file: &str) -> Result<(), AllocError> {
        let file = String::from_str(self.alloc, file)?;
        self.files.push(file)?;
        Ok(())
    }

    /// Notes the line of the next record that is the first of its kind.
    pub(crate) fn note(&mut self, line: u64) -> Result<(), AllocError> {
        let file = self.files.len().saturating_sub(1);
        self.spots.push(Spot { file, line })?;
        Ok(())
    }

    /// The refusal of a record in a line of a file, which is the same as that at a place.
    pub(crate) fn refusal(&self, file: &str, line: u64, place: usize) -> ImportFault {
        let spot = self.spots.get(place).copied();
        let spot = spot.unwrap_or(Spot { file: 0, line: 0 });
        let (first, at) = (self.file(spot.file), spot.line);
        refused(
            ImportCode::Twice,
            format!(in self.alloc;
                "{file}:{line}: the record of {first}:{at} is the same in the fields of --once"
            ),
        )
    }

    /// The name of a file.
    fn file(&self, place: usize) -> &str {
        match self.files.get(place) {
            Some(file) => file.as_str(),
            None => "",
        }
    }
}
