//! Readers that give their bytes in pieces, fail at one of their reads, or are interrupted there.

use job::{JobFault, read_all};
use std::io::{Error, ErrorKind, Read, Result as IoResult};
use std::test::Fail;

/// Gives bytes, a few at a time, and fails at one of its reads, if any.
#[derive(Drop)]
struct Pieces<'a> {
    bytes: &'a [u8],
    most: usize,
    fails_at: Option<u32>,
    kind: ErrorKind,
    reads: u32,
}

impl<'a> Pieces<'a> {
    fn new(bytes: &'a [u8], most: usize, fails_at: Option<u32>, kind: ErrorKind) -> Pieces<'a> {
        Pieces {
            bytes,
            most,
            fails_at,
            kind,
            reads: 0,
        }
    }
}

impl Read for Pieces<'_> {
    fn read(&mut self, buf: &mut [u8]) -> IoResult<usize> {
        let number = self.reads;
        self.reads = number.saturating_add(1);
        if self.fails_at == Some(number) {
            return Err(Error::from(self.kind));
        }
        let count = self.bytes.len().min(self.most).min(buf.len());
        let (front, rest) = self.bytes.split_at(count);
        buf[..count].copy_from_slice(front);
        self.bytes = rest;
        Ok(count)
    }
}

/// A text that takes several reads, and its length in pieces.
const LONG: &[u8] = &[b'x'; 200_000];

/// Texts, how many bytes are given at once, and how many reads that takes, that which gives nothing among them.
const CASES: &[(&[u8], usize, u32)] = &[
    (b"", 1, 1),
    (b"abcdefg", 1, 8),
    (b"abcdefg", 3, 4),
    (b"abcdefg", 7, 2),
    (LONG, 65_536, 5),
    (LONG, usize::MAX, 5),
    (LONG, 50_000, 5),
];

#[test]
fn all_bytes_are_read_or_a_read_has_failed(rt: HostRuntime) -> Result<(), Fail> {
    for (bytes, most, reads) in CASES {
        let mut whole = Pieces::new(bytes, *most, None, ErrorKind::Other);
        assert_eq!(rt; read_all(rt.alloc(), &mut whole).as_deref(), Ok(*bytes));
        assert_eq!(rt; whole.reads, *reads);
        for number in 0..*reads {
            let mut failing = Pieces::new(bytes, *most, Some(number), ErrorKind::Other);
            assert_eq!(rt;
                read_all(rt.alloc(), &mut failing).err(),
                Some(JobFault::Read)
            );
            let mut interrupted = Pieces::new(bytes, *most, Some(number), ErrorKind::Interrupted);
            assert_eq!(rt;
                read_all(rt.alloc(), &mut interrupted).as_deref(),
                Ok(*bytes)
            );
        }
    }
    Ok(())
}
