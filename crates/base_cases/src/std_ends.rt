//! Ends over the readers and writers of std.
use geo_io::{
    Failed, ReadFault, Sink, Source, StdSink, StdSource, WriteFault, read_all, write_all,
};
use std::alloc::Global;
use std::io;
use std::io::{ErrorKind, Read, Write};

/// A reader and a writer that give only errors.
#[derive(Drop)]
struct Broken;

impl Read for Broken {
    fn read(&mut self, _buf: &mut [u8]) -> io::Result<usize> {
        Err(io::Error::from(ErrorKind::BrokenPipe))
    }
}

impl Write for Broken {
    fn write(&mut self, _buf: &[u8]) -> io::Result<usize> {
        Err(io::Error::from(ErrorKind::BrokenPipe))
    }

    fn flush(&mut self) -> io::Result<()> {
        Ok(())
    }
}

#[test]
fn source_over_a_reader(rt: HostRuntime) {
    assert!(rt; is_given(rt.alloc(), b"abcd"));

    let mut source = StdSource::new(Broken);
    assert!(rt; read_all(rt.alloc(), &mut source, 4).err() == Some(ReadFault::Failed));
    assert!(rt; source.read(&mut [0; 4]) == Err(Failed));
}

/// Whether a source over bytes gives all.
fn is_given(alloc: Global, input: &[u8]) -> bool {
    match read_all(alloc, &mut StdSource::new(input), input.len()) {
        Ok(bytes) => bytes.as_slice() == input,
        Err(_) => false,
    }
}

#[test]
fn sink_over_a_writer(rt: HostRuntime) {
    assert!(rt; is_taken(rt.alloc(), b"abcd"));

    // A writer over a slice takes 0 bytes once the slice is full.
    let mut room = [0u8; 3];
    let mut sink = StdSink::new(&mut room[..]);
    assert!(rt; write_all(&mut sink, b"abcd") == Err(WriteFault { out: 3 }));
    assert!(rt; sink.write(b"") == Ok(0));

    let mut sink = StdSink::new(Broken);
    assert!(rt; write_all(&mut sink, b"abcd") == Err(WriteFault { out: 0 }));
}

/// Whether a sink over a vector puts all there.
fn is_taken(alloc: Global, output: &[u8]) -> bool {
    let mut bytes = Vec::new(alloc);
    let is_whole = write_all(&mut StdSink::new(&mut bytes), output).is_ok();
    is_whole && bytes.as_slice() == output
}
