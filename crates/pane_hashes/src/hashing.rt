//! Secret numbers, and hashes by them.

use std::hash::{BuildHasher, Hasher};
use std::io;
use std::random::RandomSource;

/// The secret numbers by which states hash the panes of their windows: the two numbers of a pane are
/// multiplied by one each and added up with the third, and the upper half of the 128 bits is the hash.
/// Whoever picks panes without knowing the numbers makes two of them agree in k bits of their hashes
/// with a chance of 1 in 2^k, so that no choice of keys makes a state slow. No answer depends on them.
#[derive(Clone, Copy)]
pub struct HashKeys {
    start: u128,
    key: u128,
    addend: u128,
}

impl HashKeys {
    /// Numbers from the system's source of randomness. A program draws them once.
    ///
    /// # Errors
    ///
    /// The system's, where it gives no random bytes.
    pub fn random<R: RandomSource>(rt: &R) -> io::Result<HashKeys> {
        Ok(HashKeys {
            start: random_number(rt)?,
            key: random_number(rt)?,
            addend: random_number(rt)?,
        })
    }
}

fn random_number<R: RandomSource>(rt: &R) -> io::Result<u128> {
    let mut bytes = [0; 16];
    rt.fill_bytes(&mut bytes)?;
    Ok(u128::from_le_bytes(bytes))
}

impl BuildHasher for HashKeys {
    type Hasher = PaneHasher;

    ghost use Rattle.pane_hashes.specs.Hashing.{first_hasher};

    ghost build_hasher = { first_hasher };

    #[inline(always)]
    fn build_hasher(&self) -> PaneHasher {
        PaneHasher {
            sum: self.addend,
            next: self.start,
            later: self.key,
        }
    }
}

/// What the numbers of a pane come to so far, and what the next two are multiplied by.
#[derive(Clone, Copy)]
pub struct PaneHasher {
    sum: u128,
    next: u128,
    later: u128,
}

impl Hasher for PaneHasher {
    ghost use Rattle.pane_hashes.specs.Hashing.{written, finished};

    ghost write = { written };

    ghost finish = { finished };

    #[inline(always)]
    fn finish(&self) -> u64 {
        (self.sum >> 64) as u64
    }

    #[inline(always)]
    fn write(&mut self, bytes: &[u8]) {
        let mut number = 0u64;
        for byte in bytes {
            number = number.wrapping_mul(256).wrapping_add(*byte as u64);
        }
        let product = self.next.wrapping_mul(number as u128);
        *self = PaneHasher {
            sum: self.sum.wrapping_add(product),
            next: self.later,
            later: self.next,
        };
    }
}
