//! What a text is read with.

use crate::fault::LineFault;
use json::Scratch;
use std::alloc::Global;

/// What a text is read with, on the heap, since it has room for the places of a whole text. It comes onto the stack
/// when it is made and when it is let go, in frames of their own, which are not there while a text is read.
pub(crate) struct Room {
    scratch: Box<Scratch>,
}

impl Room {
    /// # Errors
    ///
    /// `Memory`.
    #[inline(never)]
    pub(crate) fn new(alloc: Global) -> Result<Room, LineFault> {
        match Box::new(alloc, Scratch::new(alloc)) {
            Ok(scratch) => Ok(Room { scratch }),
            Err(_) => Err(LineFault::Memory),
        }
    }

    pub(crate) fn scratch(&mut self) -> &mut Scratch {
        &mut self.scratch
    }
}

impl Drop for Room {
    #[inline(never)]
    fn drop(self) {
        let Room { scratch } = self;
        drop(scratch);
    }
}
