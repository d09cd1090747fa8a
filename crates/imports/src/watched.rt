//! Reading, with an eye on the lines without a character that stand before a text's records.

ghost use Rattle.std.specs.Prelude.{◌≡◌};

use std::alloc::Global;
use std::cell::Cell;
use std::io;
use std::io::Read;

/// The byte order mark of UTF-8.
const MARK: &[u8] = b"\xef\xbb\xbf";

/// The lines without a character before a record. A byte order mark before those of the first one counts for nothing.
#[derive(Clone, Copy)]
struct Front {
    /// Whether no byte of the record has come.
    is_open: bool,
    /// How many bytes of a byte order mark have come, and all where none can come.
    marks: usize,
    /// How many line feeds have come.
    lines: u64,
}

impl Front {
    /// Before a record none of which has come.
    fn new(marks: usize) -> Front {
        Front {
            is_open: true,
            marks,
            lines: 0,
        }
    }

    /// Whether a line without a character may end here: not within a byte order mark.
    fn is_at_line(&self) -> bool {
        self.marks == 0 || self.marks == MARK.len()
    }

    /// Takes in the next byte.
    fn take(&mut self, byte: u8) {
        if MARK.get(self.marks) == Some(&byte) {
            self.marks = self.marks.saturating_add(1);
        } else if self.is_at_line() && (byte == b'\n' || byte == b'\r') {
            self.marks = MARK.len();
            self.lines = self.lines.saturating_add(u64::from(byte == b'\n'));
        } else {
            self.is_open = false;
        }
    }

    /// Takes in the next bytes, up to the first of the record.
    fn watch(&mut self, bytes: &[u8]) {
        for byte in bytes {
            if !self.is_open {
                return;
            }
            self.take(*byte);
        }
    }
}

/// What has been read of a text.
#[derive(Drop)]
struct Seen {
    /// What was read last, and at which byte of the text it begins.
    last: Vec<u8>,
    begins_at: u64,
    /// Whether bytes stand behind the last line feed of all that was read.
    is_within_line: bool,
    front: Cell<Front>,
}

impl Seen {
    fn new(alloc: Global) -> Seen {
        Seen {
            last: Vec::new(alloc),
            begins_at: 0,
            is_within_line: false,
            front: Cell::new(Front::new(0)),
        }
    }

    /// Goes on to the record that is looked for from a byte of the text on, all before which is behind the reader.
    fn watch_from(&self, byte: u64) {
        let mut front = Front::new(MARK.len());
        let passed = byte.saturating_sub(self.begins_at);
        front.watch(self.last.get(passed as usize..).unwrap_or(&[]));
        self.front.set(front);
    }

    /// Forgets what was read last, and has room for so many bytes.
    fn make_room(&mut self, count: usize) -> io::Result<()> {
        self.begins_at = self.begins_at.saturating_add(self.last.len() as u64);
        self.last.clear();
        Ok(self.last.reserve(count)?)
    }

    /// Takes in what was read, for which there is room.
    fn take(&mut self, bytes: &[u8]) {
        let mut front = self.front.get();
        front.watch(bytes);
        self.front.set(front);
        if let Some(last) = bytes.last() {
            self.is_within_line = *last != b'\n';
        }
        let _ = self.last.extend_from_slice(bytes);
    }
}

/// A reader that counts the lines without a character before each record of what it reads.
#[derive(Drop)]
pub(crate) struct Watched<R> {
    reader: R,
    seen: Seen,
}

impl<R> Watched<R> {
    pub(crate) fn new(alloc: Global, reader: R) -> Watched<R>
        ensures { result.reader ≡ reader }
    {
        Watched {
            reader,
            seen: Seen::new(alloc),
        }
    }

    /// Goes on to the record that is looked for from a byte of the text on.
    pub(crate) fn watch_from(&self, byte: u64) {
        if byte > 0 {
            self.seen.watch_from(byte);
        }
    }

    /// Whether bytes stand behind the last line feed of all that was read.
    pub(crate) fn is_within_line(&self) -> bool {
        self.seen.is_within_line
    }

    /// How many line feeds stand between where the record was looked for and its first character.
    pub(crate) fn lines(&self) -> u64 {
        self.seen.front.get().lines
    }
}

impl<R: Read> Read for Watched<R> {
    ghost remaining = { λ w. R.remaining w.reader };

    fn read(&mut self, buf: &mut [u8]) -> io::Result<usize> {
        self.seen.make_room(buf.len())?;
        let count = self.reader.read(buf)?;
        self.seen.take(&buf[..count]);
        Ok(count)
    }
}
