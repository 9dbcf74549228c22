//! Sources and sinks, in memory and over readers and writers of std.
ghost use Rattle.std.specs.Prelude.{◌≡◌, ◌<◌, length, IfOk};

use kms_io::{Failed, MemSink, MemSource, Sink, Source, StdSink, StdSource};
use std::alloc::{AllocError, Global};
use std::io;
use std::io::{Cursor, Error, ErrorKind, Read, Write};
use std::process::Abort;
use std::test::Fail;

/// Asserts what each read into a buffer answers, and what stands in the buffer then.
fn assert_reads<S: Source>(
    rt: &impl Abort,
    case: &str,
    source: &mut S,
    buffer: &mut [u8],
    reads: &[(Result<usize, Failed>, &[u8])],
)
    requires { 0 < length buffer.old }
{
    for (i, (answer, stands)) in reads.iter().enumerate() {
        let found = source.read(buffer);
        assert!(rt; found == *answer && &*buffer == *stands, "{case}, read {i}");
    }
}

/// Asserts what each write of a piece answers.
fn assert_writes<S: Sink>(
    rt: &impl Abort,
    case: &str,
    sink: &mut S,
    writes: &[(&[u8], Result<usize, Failed>)],
) {
    for (i, (piece, answer)) in writes.iter().enumerate() {
        assert!(rt;
            !piece.is_empty() && sink.write(piece) == *answer,
            "{case}, write {i}"
        );
    }
}

/// A source that gives at most 4 bytes a call, some of whose reads fail.
fn digits(alloc: Global, fails: &[u32]) -> Result<MemSource, AllocError> {
    let bytes = Vec::from_slice(alloc, b"0123456789")?;
    Ok(MemSource::new(bytes, 4, Vec::from_slice(alloc, fails)?))
}

#[test]
fn a_source_in_memory_gives_its_bytes(rt: HostRuntime) -> Result<(), Fail> {
    let short = [
        (Ok(3), b"012".as_slice()),
        (Ok(3), b"345"),
        (Ok(3), b"678"),
        (Ok(1), b"978"),
        (Ok(0), b"978"),
        (Ok(0), b"978"),
    ];
    assert_reads(
        &rt,
        "a short buffer",
        &mut digits(rt.alloc(), &[])?,
        &mut [0; 3],
        &short,
    );
    let long = [
        (Ok(4), b"0123----".as_slice()),
        (Ok(4), b"4567----"),
        (Ok(2), b"8967----"),
        (Ok(0), b"8967----"),
    ];
    assert_reads(
        &rt,
        "a long buffer",
        &mut digits(rt.alloc(), &[])?,
        &mut [b'-'; 8],
        &long,
    );
    Ok(())
}

#[test]
fn a_source_in_memory_goes_on_after_a_read_that_fails(rt: HostRuntime) -> Result<(), Fail> {
    let reads = [
        (Ok(4), b"0123".as_slice()),
        (Err(Failed), b"0123"),
        (Ok(4), b"4567"),
        (Ok(2), b"8967"),
        (Ok(0), b"8967"),
    ];
    assert_reads(
        &rt,
        "a read that fails",
        &mut digits(rt.alloc(), &[2])?,
        &mut [b'-'; 4],
        &reads,
    );
    Ok(())
}

#[test]
fn a_sink_in_memory_takes_its_step_then_its_room_and_then_fails(
    rt: HostRuntime,
) -> Result<(), Fail> {
    let mut sink = MemSink::new(rt.alloc(), 6, 4, Vec::new(rt.alloc()))?;
    let writes = [
        (b"abcdef".as_slice(), Ok(4)),
        (b"ef", Ok(2)),
        (b"g", Err(Failed)),
    ];
    assert_writes(&rt, "room for 6", &mut sink, &writes);
    assert!(rt; sink.written() == b"abcdef".as_slice());
    Ok(())
}

#[test]
fn a_sink_in_memory_writes_nothing_in_a_call_that_fails(rt: HostRuntime) -> Result<(), Fail> {
    let fails = Vec::from_slice(rt.alloc(), &[1, 3])?;
    let mut sink = MemSink::new(rt.alloc(), 6, 4, fails)?;
    let writes = [
        (b"abc".as_slice(), Err(Failed)),
        (b"abc", Ok(3)),
        (b"abc", Err(Failed)),
        (b"abc", Ok(3)),
        (b"abc", Err(Failed)),
    ];
    assert_writes(&rt, "calls that fail", &mut sink, &writes);
    assert!(rt; sink.written() == b"abcabc".as_slice());
    Ok(())
}

/// A reader and writer that fails in every second call, and that takes nothing in its first write.
#[derive(Drop)]
struct Flaky {
    calls: u8,
}

impl Flaky {
    fn answer(&mut self, count: usize) -> io::Result<usize>
        ensures { IfOk result (λ n. n ≡ count) }
    {
        self.calls = self.calls.saturating_add(1);
        if self.calls % 2 == 0 {
            return Err(Error::from(ErrorKind::Other));
        }
        Ok(count)
    }
}

impl Read for Flaky {
    fn read(&mut self, buf: &mut [u8]) -> io::Result<usize> {
        self.answer(buf.len())
    }
}

impl Write for Flaky {
    fn write(&mut self, buf: &[u8]) -> io::Result<usize> {
        let count = if self.calls == 0 { 0 } else { buf.len() };
        self.answer(count)
    }

    fn flush(&mut self) -> io::Result<()> {
        Ok(())
    }
}

#[test]
fn a_reader_of_std_is_read(rt: HostRuntime) {
    let slice = [(Ok(3), b"hel".as_slice()), (Ok(2), b"lol"), (Ok(0), b"lol")];
    let mut source = StdSource::new(b"hello".as_slice());
    assert_reads(&rt, "a slice", &mut source, &mut [b'-'; 3], &slice);
    let cursor = [(Ok(5), b"hello\0\0\0".as_slice()), (Ok(0), b"hello\0\0\0")];
    let mut source = StdSource::new(Cursor::new(b"hello".as_slice()));
    assert_reads(&rt, "a cursor", &mut source, &mut [0; 8], &cursor);
    let same = b"----".as_slice();
    let flaky = [
        (Ok(4), same),
        (Err(Failed), same),
        (Ok(4), same),
        (Err(Failed), same),
    ];
    let mut source = StdSource::new(Flaky { calls: 0 });
    assert_reads(&rt, "errors", &mut source, &mut [b'-'; 4], &flaky);
}

#[test]
fn a_writer_of_std_is_written_to(rt: HostRuntime) {
    let mut sink = StdSink::new(Vec::new(rt.alloc()));
    assert_writes(
        &rt,
        "a Vec",
        &mut sink,
        &[(b"hello, ", Ok(7)), (b"world", Ok(5))],
    );
    let text = b"text".as_slice();
    let flaky = [
        (text, Err(Failed)),
        (text, Err(Failed)),
        (text, Ok(4)),
        (text, Err(Failed)),
    ];
    assert_writes(&rt, "errors", &mut StdSink::new(Flaky { calls: 0 }), &flaky);
}
