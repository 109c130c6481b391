//! A call of each public function, and devices that fail.
use crate::{
    ByteList, Clock, Errno, Failed, FixedClock, Kind, MemSink, MemSource, NumberList, Sequence,
    Sink, Source, StdClock, StdSink, StdSource, WordList,
};
use std::cmp::Ordering;
use std::io;
use std::io::{ErrorKind, Read, Write};
use std::test::Fail;

// A device that takes and gives no byte: it answers 0, or an error.
#[derive(Debug, Drop)]
struct Stuck {
    errs: bool,
}

impl Read for Stuck {
    fn read(&mut self, _buf: &mut [u8]) -> io::Result<usize> {
        if self.errs {
            return Err(io::Error::from(ErrorKind::ConnectionReset));
        }
        Ok(0)
    }
}

impl Write for Stuck {
    fn write(&mut self, _buf: &[u8]) -> io::Result<usize> {
        if self.errs {
            return Err(io::Error::from(ErrorKind::ConnectionReset));
        }
        Ok(0)
    }

    fn flush(&mut self) -> io::Result<()> {
        Ok(())
    }
}

#[test]
fn memory(rt: HostRuntime) -> Result<(), Fail> {
    let alloc = rt.alloc();
    let bytes = ByteList::from_slice(alloc, b"abcde")?;
    let mut source = MemSource::new(bytes, NumberList::from_slice(alloc, &[1])?);
    let mut buf = [0u8; 2];
    assert_eq!(rt; source.next(&mut buf), Ok(2));
    assert_eq!(rt; buf, *b"ab");
    assert_eq!(rt; source.next(&mut buf), Err(Failed));
    assert_eq!(rt; source.next(&mut buf), Ok(2));
    assert_eq!(rt; buf, *b"cd");
    assert_eq!(rt; source.next(&mut buf), Ok(1));
    assert_eq!(rt; buf[0], b'e');
    assert_eq!(rt; source.next(&mut buf), Ok(0));

    let mut sink = MemSink::new(alloc, NumberList::from_slice(alloc, &[0])?);
    assert_eq!(rt; sink.put(b"lost"), Err(Failed));
    assert!(rt; sink.bytes().is_empty());
    assert_eq!(rt; sink.put(b"kept"), Ok(()));
    assert_eq!(rt; sink.bytes(), b"kept".as_slice());
    Ok(())
}

#[test]
fn standard(rt: HostRuntime) -> Result<(), Fail> {
    let mut source = StdSource::new(b"abc".as_slice());
    let mut buf = [0u8; 2];
    assert_eq!(rt; source.next(&mut buf), Ok(2));
    assert_eq!(rt; buf, *b"ab");
    assert_eq!(rt; source.next(&mut buf), Ok(1));
    assert_eq!(rt; source.next(&mut buf), Ok(0));
    assert_eq!(rt;
        StdSource::new(Stuck { errs: true }).next(&mut buf),
        Err(Failed)
    );

    let mut out = Vec::new(rt.alloc());
    {
        let mut sink = StdSink::new(&mut out);
        assert_eq!(rt; sink.put(b"ab"), Ok(()));
        assert_eq!(rt; sink.put(b"c"), Ok(()));
    }
    assert_eq!(rt; out.as_slice(), b"abc".as_slice());
    for errs in [false, true] {
        assert_eq!(rt; StdSink::new(Stuck { errs }).put(b"a"), Err(Failed));
    }
    Ok(())
}

#[test]
fn clocks(rt: HostRuntime) {
    assert_eq!(rt; FixedClock(7).now(), 7);
    let now = StdClock::new(rt).now();
    assert!(rt; now > 1_600_000_000_000_000_000);
    assert!(rt; now < 1 << 62);
}

#[test]
fn lists(rt: HostRuntime) -> Result<(), Fail> {
    let alloc = rt.alloc();
    let mut ab = ByteList::new(alloc);
    assert!(rt; ab.is_empty());
    ab.push(b'a')?;
    ab.extend_from_slice(b"b")?;
    assert_eq!(rt; ab.as_slice(), b"ab".as_slice());
    assert_eq!(rt; ab.len(), 2);
    assert!(rt; ab == ByteList::from(Vec::from_slice(alloc, b"ab")?));
    let last = ByteList::from_slice(alloc, &[0xff])?;
    assert_eq!(rt; ab.cmp(&last), Ordering::Less);
    assert_eq!(rt; last.partial_cmp(&ab), Some(Ordering::Greater));
    ab.clear();
    assert!(rt; ab.is_empty());

    let mut words = WordList::new(alloc);
    words.push(last)?;
    assert_eq!(rt; words.as_slice().len(), 1);

    let mut numbers = NumberList::new(alloc);
    numbers.push(5)?;
    assert!(rt; numbers.contains(5) && !numbers.contains(4));
    assert_eq!(rt; numbers.as_slice(), [5].as_slice());
    assert!(rt; Errno(2) != Errno(3));
    Ok(())
}

#[test]
fn sequences(rt: HostRuntime) -> Result<(), Fail> {
    let alloc = rt.alloc();
    let name = ByteList::from_slice(alloc, b"name")?;
    let mut names = Sequence::new(alloc);
    assert_eq!(rt; names.len(), 0);
    names.push(name.clone()?)?;
    assert_eq!(rt; names.as_slice().len(), 1);
    assert!(rt; names.as_slice()[0] == name);
    let kinds = Sequence::from(Vec::from_slice(alloc, &[Kind::Link, Kind::Regular])?);
    assert_eq!(rt;
        kinds.into_vec().as_slice(),
        [Kind::Link, Kind::Regular].as_slice()
    );
    Ok(())
}
