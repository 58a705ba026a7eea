//! Readers and writers of std behind a source and a sink: what they give and take, and where they fail.
use bn_io::{
    ReadRefusal, Sink, Source, SourceFailed, StdSink, StdSource, WriteFault, read_all, write_all,
};
use std::io::{Cursor, Error, ErrorKind, Read, Write};
use std::test::Fail;

#[test]
fn reads_from_a_reader_of_std(rt: HostRuntime) -> Result<(), Fail> {
    let mut source = StdSource::new(b"some text".as_slice());
    let read = read_all(rt.alloc(), &mut source, 100)?;
    assert_eq!(rt; read.as_slice(), b"some text".as_slice());
    Ok(())
}

#[test]
fn writes_to_a_writer_of_std(rt: HostRuntime) -> Result<(), Fail> {
    let mut kept = Vec::new(rt.alloc());
    {
        let mut sink = StdSink::new(Cursor::new(&mut kept));
        assert_eq!(rt; write_all(&mut sink, b"some text"), Ok(()));
    }
    assert_eq!(rt; kept.as_slice(), b"some text".as_slice());
    Ok(())
}

#[test]
fn counts_a_writer_that_takes_nothing_as_failing(rt: HostRuntime) -> Result<(), Fail> {
    let mut room = [0u8; 3];
    {
        let mut sink = StdSink::new(room.as_mut_slice());
        assert_eq!(rt; write_all(&mut sink, b"four"), Err(WriteFault));
    }
    assert_eq!(rt; room, *b"fou");
    Ok(())
}

/// A reader that gives at most two bytes a call, and fails in its second call.
#[derive(Drop)]
struct FailingReader<'a> {
    rest: &'a [u8],
    calls: u64,
}

impl Read for FailingReader<'_> {
    fn read(&mut self, buf: &mut [u8]) -> std::io::Result<usize> {
        self.calls = self.calls.saturating_add(1);
        if self.calls == 2 {
            return Err(Error::from(ErrorKind::Interrupted));
        }
        let count = buf.len().min(self.rest.len()).min(2);
        buf[..count].copy_from_slice(&self.rest[..count]);
        self.rest = &self.rest[count..];
        Ok(count)
    }
}

/// A writer that takes at most two bytes a call, and fails in its second call.
#[derive(Drop)]
struct FailingWriter {
    taken: Vec<u8>,
    calls: u64,
}

impl Write for FailingWriter {
    fn write(&mut self, buf: &[u8]) -> std::io::Result<usize> {
        self.calls = self.calls.saturating_add(1);
        if self.calls == 2 {
            return Err(Error::from(ErrorKind::Interrupted));
        }
        let count = buf.len().min(2);
        self.taken.extend_from_slice(&buf[..count])?;
        Ok(count)
    }

    fn flush(&mut self) -> std::io::Result<()> {
        Ok(())
    }
}

#[test]
fn tells_of_a_reader_that_fails_in_the_middle(rt: HostRuntime) -> Result<(), Fail> {
    let mut reader = FailingReader {
        rest: b"abcde",
        calls: 0,
    };
    let mut source = StdSource::new(&mut reader);
    let mut piece = [0u8; 4];
    assert_eq!(rt; source.take(&mut piece[..]), Ok(2));
    assert_eq!(rt; source.take(&mut piece[..]), Err(SourceFailed));
    assert_eq!(rt; piece, *b"ab\0\0");
    assert_eq!(rt; source.take(&mut piece[..]), Ok(2));
    assert_eq!(rt; piece, *b"cd\0\0");
    assert_eq!(rt; reader.calls, 3);
    assert_eq!(rt; reader.rest, b"e".as_slice());
    Ok(())
}

#[test]
fn reads_no_further_where_a_reader_fails(rt: HostRuntime) -> Result<(), Fail> {
    let mut reader = FailingReader {
        rest: b"abcde",
        calls: 0,
    };
    let mut source = StdSource::new(&mut reader);
    let read = read_all(rt.alloc(), &mut source, 100);
    assert!(rt; matches!(read, Err(ReadRefusal::ReadFault)));
    assert_eq!(rt; reader.calls, 2);
    assert_eq!(rt; reader.rest, b"cde".as_slice());
    Ok(())
}

#[test]
fn writes_no_further_where_a_writer_fails(rt: HostRuntime) -> Result<(), Fail> {
    let mut writer = FailingWriter {
        taken: Vec::new(rt.alloc()),
        calls: 0,
    };
    let mut sink = StdSink::new(&mut writer);
    assert_eq!(rt; write_all(&mut sink, b"abcde"), Err(WriteFault));
    assert_eq!(rt; sink.give(b"fgh"), Ok(2));
    assert_eq!(rt; writer.calls, 3);
    assert_eq!(rt; writer.taken.as_slice(), b"abfg".as_slice());
    Ok(())
}
