//! The file that samples go to.

use std::alloc::Global;
use std::cell::RefCell;
use std::io;
use std::io::{BufWriter, ErrorKind, Read, Write};

/// A file that is written by pieces of whole blocks, up to so many bytes at a time.
const PIECE: usize = 65_536;

/// Keeps samples until a piece is full, or until they are handed on.
#[derive(Drop)]
pub(crate) struct Samples<W: Write + Drop> {
    waiting: RefCell<BufWriter<W>>,
}

impl<W: Write + Drop> Samples<W> {
    pub(crate) fn new(alloc: Global, file: W) -> io::Result<Samples<W>> {
        let writer = BufWriter::with_capacity(alloc, PIECE, file)?;
        Ok(Samples {
            waiting: RefCell::new(writer),
        })
    }

    /// Writes what waits. After a failure the rest waits on.
    pub(crate) fn hand_on(&self) -> io::Result<()> {
        match self.waiting.try_borrow_mut() {
            Ok(mut writer) => writer.flush(),
            Err(_) => Err(io::Error::from(ErrorKind::Other)),
        }
    }
}

/// A flush waits for a full piece, or for who hands them on.
impl<W: Write + Drop> Write for &Samples<W> {
    fn write(&mut self, bytes: &[u8]) -> io::Result<usize> {
        match self.waiting.try_borrow_mut() {
            Ok(mut writer) => writer.write(bytes),
            Err(_) => Err(io::Error::from(ErrorKind::Other)),
        }
    }

    fn flush(&mut self) -> io::Result<()> {
        Ok(())
    }
}

/// A reader before whose reads the samples that wait are handed on: who hears them while the script is written is never behind by a piece.
/// Where that fails they wait on, and the failure shows when the piece is full or at the end.
#[derive(Drop)]
pub(crate) struct HandsOn<'a, R, W: Write + Drop> {
    reader: R,
    samples: &'a Samples<W>,
}

impl<'a, R: Read, W: Write + Drop> HandsOn<'a, R, W> {
    pub(crate) fn new(reader: R, samples: &'a Samples<W>) -> HandsOn<'a, R, W> {
        HandsOn { reader, samples }
    }
}

impl<R: Read, W: Write + Drop> Read for HandsOn<'_, R, W> {
    fn read(&mut self, buf: &mut [u8]) -> io::Result<usize> {
        self.samples.hand_on().ok();
        self.reader.read(buf)
    }
}
