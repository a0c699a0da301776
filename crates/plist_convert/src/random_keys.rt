//! Random keys for the hasher of a run.

use std::hash::RandomState;
use std::io::Read;
use std::random::RandomSource;
use std::rt::Files;
use std::{fs, io};

// Returns a hash builder with random keys from the system, or from `/dev/urandom` if the system
// gives none, as in some sandboxes.
pub(crate) fn random_state<R: Files + RandomSource>(rt: &R) -> io::Result<RandomState> {
    match RandomState::new(rt) {
        Ok(hasher) => Ok(hasher),
        Err(_) => RandomState::new(&RandomDevice { rt }),
    }
}

// The device `/dev/urandom` among these files.
#[derive(Drop)]
struct RandomDevice<'a, R> {
    rt: &'a R,
}

impl<R: Files> RandomSource for RandomDevice<'_, R> {
    fn fill_bytes(&self, buf: &mut [u8]) -> io::Result<()> {
        fs::open(self.rt, "/dev/urandom")?.read_exact(buf)
    }
}
