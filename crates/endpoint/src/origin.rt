//! Where the program reads from.

use either::{Either, Left, Right};
use std::fs::File;
use std::io::{self, Error, ErrorKind, Read};

/// A file that couldn't be opened: each read of it fails.
#[derive(Drop)]
pub struct Unopened;

impl Read for Unopened {
    fn read(&mut self, _into: &mut [u8]) -> io::Result<usize> {
        Err(Error::from(ErrorKind::NotFound))
    }
}

/// A file, or standard input.
pub type Origin<I> = Either<Either<File, Unopened>, I>;

/// The file at a path. Where it can't be opened, reading it fails.
pub fn file<I>(rt: &HostRuntime, path: &str) -> Origin<I> {
    match File::open(rt, path) {
        Ok(file) => Left(Left(file)),
        Err(_) => Left(Right(Unopened)),
    }
}
