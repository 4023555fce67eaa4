//! Each source and sink, succeeding and failing once.
ghost use Rattle.std.specs.Prelude.{◌≤◌, IfOk};

use nio_bytes::*;
use std::io;
use std::io::{ErrorKind, Read, Write};
use std::process::Abort;
use std::test::Fail;

/// A reader and a writer that does what its steps say, and then passes nothing.
#[derive(Drop)]
struct Scripted<'a> {
    steps: &'a [Result<usize, ErrorKind>],
}

impl Scripted<'_> {
    fn next(&mut self, most: usize) -> io::Result<usize>
        ensures { IfOk result (λ count. count ≤ most) }
    {
        match self.steps {
            [] => Ok(0),
            [first, rest @ ..] => {
                self.steps = rest;
                match first {
                    Ok(count) => Ok(most.min(*count)),
                    Err(kind) => Err(io::Error::from(*kind)),
                }
            }
        }
    }
}

impl Read for Scripted<'_> {
    fn read(&mut self, buf: &mut [u8]) -> io::Result<usize> {
        self.next(buf.len())
    }
}

impl Write for Scripted<'_> {
    fn write(&mut self, buf: &[u8]) -> io::Result<usize> {
        self.next(buf.len())
    }

    fn flush(&mut self) -> io::Result<()> {
        self.next(0)?;
        Ok(())
    }
}

/// Reads four bytes a call. A step is a call's result, and the bytes in front of the buffer then.
fn assert_reads<S: Source>(
    rt: &impl Abort,
    source: &mut S,
    steps: &[(Result<usize, Failed>, &str)],
) {
    let mut into = [0; 4];
    for (count, text) in steps {
        assert_eq!(rt; source.read(&mut into), *count, "before {text:?}");
        assert!(rt; into.starts_with(text.as_bytes()), "not {text:?}");
    }
}

#[test]
fn sources_give_bytes_and_faults(rt: HostRuntime) -> Result<(), Fail> {
    let bytes = b"hello".to_vec(rt.alloc())?;
    let fail_at = vec![in rt.alloc(); 1, 4]?;
    let pieces = [
        (Ok(3), "hel"),
        (Err(Failed), "hel"),
        (Ok(2), "lo"),
        (Ok(0), ""),
        (Err(Failed), ""),
        (Ok(0), ""),
    ];
    assert_reads(&rt, &mut MemorySource::make(bytes, 3, fail_at), &pieces);

    let whole = [(Ok(4), "hell"), (Ok(1), "o"), (Ok(0), "")];
    let bytes = b"hello".to_vec(rt.alloc())?;
    assert_reads(&rt, &mut SteadySource::make(bytes), &whole);
    assert_reads(&rt, &mut StdSource::over(b"hello".as_slice()), &whole);

    let steps = [
        Ok(3),
        Err(ErrorKind::Interrupted),
        Ok(2),
        Err(ErrorKind::ConnectionReset),
        Ok(1),
    ];
    let counts = [
        (Ok(3), ""),
        (Ok(2), ""),
        (Err(Failed), ""),
        (Ok(1), ""),
        (Ok(0), ""),
    ];
    assert_reads(
        &rt,
        &mut StdSource::over(Scripted { steps: &steps }),
        &counts,
    );
    Ok(())
}

/// Writes these bytes, or flushes, which writes none.
fn write_or_flush<S: Sink>(sink: &mut S, text: Option<&str>) -> Result<usize, Failed> {
    match text {
        Some(text) => sink.write(text.as_bytes()),
        None => {
            sink.flush()?;
            Ok(0)
        }
    }
}

/// A step is a write's bytes, or none for a flush, and the call's result.
fn assert_writes<S: Sink>(
    rt: &impl Abort,
    sink: &mut S,
    steps: &[(Option<&str>, Result<usize, Failed>)],
) {
    for (text, count) in steps {
        assert_eq!(rt; write_or_flush(sink, *text), *count, "{text:?}");
    }
}

#[test]
fn sinks_take_bytes_and_pass_faults_on(rt: HostRuntime) -> Result<(), Fail> {
    let fail_at = vec![in rt.alloc(); 2, 3]?;
    let mut sink = MemorySink::make(rt.alloc(), 5, fail_at, 11)?;
    let pieces = [
        (Some("hello you"), Ok(5)),
        (Some(" you"), Ok(4)),
        (Some("!!!"), Err(Failed)),
        (None, Err(Failed)),
        (Some("!!!"), Ok(2)),
        (Some("!"), Err(Failed)),
        (Some(""), Ok(0)),
        (None, Ok(0)),
    ];
    assert_writes(&rt, &mut sink, &pieces);
    assert_eq!(rt; sink.bytes(), b"hello you!!".as_slice());

    let mut written = Vec::new(rt.alloc());
    let whole = [(Some("hello"), Ok(5)), (None, Ok(0))];
    assert_writes(&rt, &mut StdSink::over(&mut written), &whole);
    assert_eq!(rt; written.as_slice(), b"hello".as_slice());

    let steps = [
        Ok(3),
        Err(ErrorKind::Interrupted),
        Ok(2),
        Err(ErrorKind::StorageFull),
        Ok(0),
        Err(ErrorKind::Interrupted),
        Err(ErrorKind::StorageFull),
    ];
    let results = [
        (Some("hello"), Ok(3)),
        (Some("hello"), Ok(2)),
        (Some("hello"), Err(Failed)),
        (Some("hello"), Err(Failed)),
        (None, Err(Failed)),
        (None, Ok(0)),
    ];
    assert_writes(
        &rt,
        &mut StdSink::over(Scripted { steps: &steps }),
        &results,
    );
    Ok(())
}
