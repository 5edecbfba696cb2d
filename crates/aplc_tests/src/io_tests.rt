//! Answers of the objects in memory with ample memory, and of the adapters over small readers and writers.
ghost use Rattle.std.specs.Prelude.{◌≤◌, IfOk};

use aplc_io::{
    Failed, FetchFault, FsHost, Host, MemHost, MemSink, MemSource, Sink, Source, StdSink,
    StdSource, put_all, write_all, write_pieces,
};
use std::io::{self, Read, Write};
use std::test::Fail;

#[test]
fn host_in_memory(rt: HostRuntime) -> Result<(), Fail> {
    let alloc = rt.alloc();
    let mut host = MemHost::new(alloc, 5, [7].to_vec(alloc)?)?;
    host.add("a", [1, 2, 3].to_vec(alloc)?)?;
    host.add("b", [9].to_vec(alloc)?)?;
    host.add("a", [4, 5].to_vec(alloc)?)?;
    let fetched = host.fetch(alloc, "a", 2)?;
    assert_eq!(rt; fetched.as_slice(), [4, 5].as_slice());
    assert!(rt; matches!(host.fetch(alloc, "a", 1), Err(FetchFault::TooLong)));
    assert!(rt; matches!(host.fetch(alloc, "c", 1), Err(FetchFault::Failed)));
    assert_eq!(rt; host.fetch_faults(), 0);
    assert!(rt; host.target().is_none());
    assert_eq!(rt; host.text_to(Some("out"), true), Ok(()));
    assert_eq!(rt; put_all(&mut host, b"12345"), Ok(()));
    assert_eq!(rt; host.text(), b"12345".as_slice());
    assert_eq!(rt; host.put_text(b"6"), Err(Failed));
    assert_eq!(rt; host.text_to(None, false), Err(Failed));
    assert_eq!(rt; host.text_faults(), 2);
    assert!(rt; host.text().is_empty());
    let target = host.target();
    assert!(rt; target.is_some());
    if let Some((name, run)) = target {
        assert!(rt; run);
        assert_eq!(rt; name.unwrap_or(b"none".as_slice()), b"out".as_slice());
    }
    Ok(())
}

#[test]
fn source_and_sink_in_memory(rt: HostRuntime) -> Result<(), Fail> {
    let alloc = rt.alloc();
    let mut source = MemSource::new(b"abc".to_vec(alloc)?, [2].to_vec(alloc)?);
    let mut buf = [0; 2];
    let mut answers = [Ok(0); 4];
    for answer in &mut answers {
        *answer = source.read(&mut buf);
    }
    assert_eq!(rt; answers, [Ok(2), Err(Failed), Ok(1), Ok(0)]);
    assert_eq!(rt; buf, *b"cb");
    assert_eq!(rt; source.faults(), 1);

    let mut sink = MemSink::new(alloc, 3, Vec::new(alloc))?;
    let pieces: [&[u8]; 3] = [b"0", b" ", b"0 0\n"];
    assert_eq!(rt; write_pieces(&mut sink, &pieces), Err(Failed));
    assert_eq!(rt; sink.bytes(), b"0 0".as_slice());
    assert_eq!(rt; sink.faults(), 1);
    Ok(())
}

// Answers with an error at its first call, with nothing at its second, and with one byte from then on.
#[derive(Drop)]
struct Flaky {
    calls: u64,
}

impl Flaky {
    fn next(&mut self, room: usize) -> io::Result<usize>
        ensures { IfOk result (λ n. n ≤ room) }
    {
        self.calls = self.calls.saturating_add(1);
        match self.calls {
            1 => Err(io::Error::from(io::ErrorKind::TimedOut)),
            2 => Ok(0),
            _ => Ok(room.min(1)),
        }
    }
}

impl Read for Flaky {
    fn read(&mut self, buf: &mut [u8]) -> io::Result<usize> {
        self.next(buf.len())
    }
}

impl Write for Flaky {
    fn write(&mut self, buf: &[u8]) -> io::Result<usize> {
        self.next(buf.len())
    }

    fn flush(&mut self) -> io::Result<()> {
        Ok(())
    }
}

#[test]
fn adapters(rt: HostRuntime) -> Result<(), Fail> {
    let mut source = StdSource::new(Flaky { calls: 0 });
    let mut sink = StdSink::new(Flaky { calls: 0 });
    let mut reads = [Ok(0); 3];
    let mut writes = [Ok(0); 3];
    for (read, write) in reads.iter_mut().zip(writes.iter_mut()) {
        *read = source.read(&mut [0; 2]);
        *write = sink.write(b"ab");
    }
    assert_eq!(rt; reads, [Err(Failed), Ok(0), Ok(1)]);
    assert_eq!(rt; writes, [Err(Failed), Err(Failed), Ok(1)]);

    let mut host = FsHost::new(&rt);
    assert!(rt;
        matches!(
            host.fetch(rt.alloc(), "no/such/file", 9),
            Err(FetchFault::Failed)
        )
    );
    assert_eq!(rt; host.text_to(None, true), Ok(()));
    assert_eq!(rt; host.put_text(b"ab"), Ok(2));
    assert_eq!(rt; host.text_to(Some("no/such/file"), true), Err(Failed));
    assert_eq!(rt; host.put_text(b"ab"), Err(Failed));
    Ok(())
}

#[test]
fn files_and_bytes(rt: HostRuntime) -> Result<(), Fail> {
    let alloc = rt.alloc();
    let mut bytes = Vec::new(alloc);
    for i in 0..10_000u32 {
        bytes.push((i % 251) as u8)?;
    }
    let mut host = FsHost::new(&rt);
    assert_eq!(rt; host.text_to(Some("written"), false), Ok(()));
    assert_eq!(rt; put_all(&mut host, bytes.as_slice()), Ok(()));
    let again = host.fetch(alloc, "written", 10_000)?;
    assert!(rt; again.as_slice() == bytes.as_slice());
    assert!(rt;
        matches!(
            host.fetch(alloc, "written", 9_999),
            Err(FetchFault::TooLong)
        )
    );
    Ok(())
}

#[test]
fn adapters_move_bytes(rt: HostRuntime) -> Result<(), Fail> {
    let alloc = rt.alloc();
    let mut source = StdSource::new(b"abc".as_slice());
    let mut buf = [0; 2];
    assert_eq!(rt; source.read(&mut buf), Ok(2));
    assert_eq!(rt; buf, *b"ab");
    assert_eq!(rt; source.read(&mut buf), Ok(1));
    assert_eq!(rt; buf, *b"cb");
    assert_eq!(rt; source.read(&mut buf), Ok(0));
    let mut held: Vec<u8> = Vec::new(alloc);
    let mut sink = StdSink::new(&mut held);
    assert_eq!(rt; write_all(&mut sink, b"ab"), Ok(()));
    assert_eq!(rt; write_all(&mut sink, b"c"), Ok(()));
    drop(sink);
    assert_eq!(rt; held.as_slice(), b"abc".as_slice());
    Ok(())
}
