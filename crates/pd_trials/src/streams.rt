//! A reader, a writer and a sink that takes few bytes at a time.

ghost use Rattle.std.specs.Prelude.{Some};

use pd_io::{
    MemSink, MemSource, Sink, SinkFailed, Source, SourceFailed, StdSink, StdSource, write_whole,
};
use std::io;
use std::io::{ErrorKind, Read, Write};
use std::test::Fail;

/// A reader that is interrupted, gives two bytes, fails and ends, in this order.
#[derive(Drop)]
struct Reader {
    calls: u8,
}

impl Read for Reader {
    fn read(&mut self, buf: &mut [u8]) -> io::Result<usize> {
        self.calls = self.calls.saturating_add(1);
        match self.calls {
            1 => Err(io::Error::from(ErrorKind::Interrupted)),
            2 if buf.len() >= 2 => {
                buf[0] = b'a';
                buf[1] = b'b';
                Ok(2)
            }
            3 => Err(io::Error::from(ErrorKind::Other)),
            _ => Ok(0),
        }
    }
}

/// A writer that is interrupted, takes two bytes, takes none, fails, and then can't be flushed.
#[derive(Drop)]
struct Writer {
    taken: Vec<u8>,
    calls: u8,
}

impl Write for Writer {
    fn write(&mut self, bytes: &[u8]) -> io::Result<usize> {
        self.calls = self.calls.saturating_add(1);
        match self.calls {
            1 => Err(io::Error::from(ErrorKind::Interrupted)),
            3 => Ok(0),
            4 => Err(io::Error::from(ErrorKind::Other)),
            _ => {
                let count = bytes.len().min(2);
                self.taken.extend_from_slice(&bytes[..count])?;
                Ok(count)
            }
        }
    }

    fn flush(&mut self) -> io::Result<()> {
        if self.calls < 5 {
            Ok(())
        } else {
            Err(io::Error::from(ErrorKind::Other))
        }
    }
}

/// A sink that takes one byte a call.
#[derive(Drop)]
struct OneByte {
    sink: MemSink,
}

impl Sink for OneByte {
    ghost taken = { λ s. Some s.sink.taken };

    ghost faults = { λ s. s.sink.calls.faults };

    fn write(&mut self, bytes: &[u8]) -> Result<usize, SinkFailed> {
        match bytes {
            [first, ..] => self.sink.write(&[*first]),
            [] => Ok(0),
        }
    }
}

/// The number of bytes read, or none where the read failed.
fn count_read<S: Source>(source: &mut S, buf: &mut [u8]) -> Option<usize> {
    match source.read(buf) {
        Ok(count) => Some(count),
        Err(SourceFailed) => None,
    }
}

/// The number of bytes taken, or none where the write failed.
fn count_written<K: Sink>(sink: &mut K, bytes: &[u8]) -> Option<usize> {
    match sink.write(bytes) {
        Ok(count) => Some(count),
        Err(SinkFailed) => None,
    }
}

#[test]
fn reader_as_source(rt: HostRuntime) {
    let mut source = StdSource::new(Reader { calls: 0 });
    let mut buf = [0; 4];
    for (count, faults) in [(Some(2), 0), (None, 1), (Some(0), 1)] {
        assert_eq!(rt; count_read(&mut source, &mut buf), count);
        assert_eq!(rt; source.faults(), faults);
    }
    assert_eq!(rt; buf, *b"ab\0\0");
}

#[test]
fn writer_as_sink(rt: HostRuntime) {
    let mut writer = Writer {
        taken: Vec::new(rt.alloc()),
        calls: 0,
    };
    let mut sink = StdSink::new(&mut writer);
    for (faults, count) in [(0, Some(2)), (1, None), (2, None), (3, None)] {
        assert_eq!(rt; count_written(&mut sink, b"abc"), count);
        assert_eq!(rt; sink.faults(), faults);
    }
    drop(sink);
    assert_eq!(rt; writer.taken.as_slice(), b"abab".as_slice());
}

#[test]
fn source_in_memory(rt: HostRuntime) -> Result<(), Fail> {
    let bytes = Vec::from_slice(rt.alloc(), b"abcde")?;
    let mut source = MemSource::new(bytes, 2, Vec::from_slice(rt.alloc(), &[1])?);
    let mut buf = [0; 3];
    for count in [Some(2), None, Some(2), Some(1), Some(0)] {
        assert_eq!(rt; count_read(&mut source, &mut buf), count);
    }
    assert_eq!(rt; source.faults(), 1);
    Ok(())
}

/// Whether all was written.
fn is_written<K: Sink>(sink: &mut K, bytes: &[u8]) -> bool {
    write_whole(sink, bytes).is_ok()
}

#[test]
fn whole_write(rt: HostRuntime) -> Result<(), Fail> {
    let mut slow = OneByte {
        sink: MemSink::new(rt.alloc(), 9, Vec::from_slice(rt.alloc(), &[2])?)?,
    };
    for written in [false, true] {
        assert_eq!(rt; is_written(&mut slow, b"abcd"), written);
    }
    assert_eq!(rt; slow.sink.taken(), b"ababcd".as_slice());
    Ok(())
}
