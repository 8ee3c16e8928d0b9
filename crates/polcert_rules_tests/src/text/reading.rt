//! Sources that give a text in pieces, fail or never end.
use polcert_testing::{Endless, Giver, expect_eq};
use polcert_text::{ReadFault, ReaderSource, SliceSource, Source, SourceFailed, read_all};
use std::alloc::Global;

/// Whether just these bytes were read.
fn are(read: Result<Vec<u8>, ReadFault>, bytes: &[u8]) -> bool {
    match read {
        Ok(found) => found.as_slice() == bytes,
        Err(_) => false,
    }
}

/// Whether the text is read in pieces of this size, and the failures and reads.
fn read_in_pieces(alloc: Global, text: &[u8], most: usize) -> (bool, u64, u64) {
    let mut source = ReaderSource::new(Giver::new(text, most, None));
    let is_read = are(read_all(alloc, &mut source, 100), text);
    (is_read, source.failures(), source.reader.reads)
}

/// In pieces, and of a reader of std.
#[test]
fn reads_in_pieces(rt: HostRuntime) {
    for (most, reads) in [(1usize, 12u64), (2, 7), (4, 4), (100, 2)] {
        expect_eq!(rt;
            read_in_pieces(rt.alloc(), b"discount: 1", most),
            (true, 0, reads)
        );
    }
    let mut source = ReaderSource::new(b"a text".as_slice());
    let is_read = are(read_all(rt.alloc(), &mut source, 100), b"a text");
    expect_eq!(rt; (is_read, source.failures()), (true, 0));
}

/// A source that fails at any of its reads was not read whole. The failure was counted once, and the read is not tried
/// again, though it would succeed then.
#[test]
fn fails_at_each_read(rt: HostRuntime) {
    for failing in 0..12u64 {
        let mut source = ReaderSource::new(Giver::new(b"discount: 1", 1, Some(failing)));
        let fault = read_all(rt.alloc(), &mut source, 100).err();
        let found = (fault, source.failures(), source.reader.reads);
        expect_eq!(rt; found, (Some(ReadFault::Device), 1, failing + 1));
    }
}

/// How many bytes are read of a source that never ends, up to 10,000, and the reads.
fn read_endless(alloc: Global) -> Option<(usize, u64)> {
    let mut source = ReaderSource::new(Endless::new(b'1'));
    let bytes = read_all(alloc, &mut source, 10_000).ok()?;
    Some((bytes.len(), source.reader.reads))
}

/// A read has room for 4,096 bytes, and the third for as many as lead one past the limit.
#[test]
fn stops_past_the_limit(rt: HostRuntime) {
    expect_eq!(rt; read_endless(rt.alloc()), Some((10_001, 3)));
    for (text, front) in [(b"abc".as_slice(), b"abc".as_slice()), (b"abcde", b"abcd")] {
        let read = read_all(rt.alloc(), &mut SliceSource::new(text), 3);
        assert!(rt; are(read, front));
    }
}

/// What a read answered, what stands in the piece then, and how often the source failed and was read until then.
type Found = (Result<usize, SourceFailed>, [u8; 6], u64, u64);

fn read_once(source: &mut ReaderSource<Giver<'_>>, piece: &mut [u8; 6]) -> Found {
    let answer = source.read(piece);
    (answer, *piece, source.failures(), source.reader.reads)
}

/// One read of a slice, or of a reader of std, is one read of what is below, and leaves the piece after what it gave as it was.
/// The end is answered again, each time by one read.
#[test]
fn one_read_for_one_read(rt: HostRuntime) {
    let mut slice = SliceSource::new(b"abc");
    let mut piece = [b'.'; 6];
    for count in [3, 0] {
        expect_eq!(rt; (slice.read(&mut piece), piece), (Ok(count), *b"abc..."));
    }
    let mut source = ReaderSource::new(Giver::new(b"abc", 2, Some(1)));
    let mut piece = [b'.'; 6];
    for found in [
        (Ok(2), *b"ab....", 0, 1),
        (Err(SourceFailed), *b"ab....", 1, 2),
        (Ok(1), *b"cb....", 1, 3),
        (Ok(0), *b"cb....", 1, 4),
        (Ok(0), *b"cb....", 1, 5),
    ] {
        expect_eq!(rt; read_once(&mut source, &mut piece), found);
    }
}
