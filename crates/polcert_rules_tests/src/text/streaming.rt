//! The tokens of sources that give a text in pieces, fail or never end.
use polcert_testing::{Endless, Pieces, expect_eq};
use polcert_text::{
    ReaderSource, Source, StreamFault, StreamTokens, TEXT_LIMIT, TokenFault, TokenKind,
};
use std::process::Abort;

/// The first of these tokens, if any, that isn't the next one.
fn first_wrong<S: Source>(
    found: &mut StreamTokens,
    source: &mut S,
    tokens: &[(TokenKind, u64, &[u8])],
) -> Option<u64> {
    for &(kind, place, bytes) in tokens {
        let is_next = match found.next_token(source) {
            Ok(Some(it)) => {
                (it.kind, it.place, it.bytes) == (kind, place, bytes)
                    && it.stop.saturating_sub(place) == bytes.len() as u64
            }
            _ => false,
        };
        if !is_next {
            return Some(place);
        }
    }
    None
}

/// The end that comes next, or the place of a token that comes in its place.
type End = Result<Option<StreamFault>, u64>;

fn next_end<S: Source>(found: &mut StreamTokens, source: &mut S) -> End {
    match found.next_token(source) {
        Ok(None) => Ok(None),
        Err(fault) => Ok(Some(fault)),
        Ok(Some(token)) => Err(token.place),
    }
}

/// The first of these tokens, if any, that isn't the next one, what three further calls answer, and how often the source was
/// read by the first of these, and by all.
fn cut(
    source: &mut Pieces<'_>,
    limit: u64,
    tokens: &[(TokenKind, u64, &[u8])],
) -> (Option<u64>, [End; 3], [u64; 2]) {
    let mut found = StreamTokens::new(limit);
    let wrong = first_wrong(&mut found, source, tokens);
    let first = next_end(&mut found, source);
    let reads = source.reads;
    let ends = [
        first,
        next_end(&mut found, source),
        next_end(&mut found, source),
    ];
    (wrong, ends, [reads, source.reads])
}

/// The tokens of the source are these, and then comes this end, in this many reads. Two further calls answer the same, with no
/// read.
fn assert_tokens(
    rt: &impl Abort,
    source: &mut Pieces<'_>,
    tokens: &[(TokenKind, u64, &[u8])],
    end: Option<StreamFault>,
    reads: u64,
) {
    expect_eq!(rt;
        cut(source, TEXT_LIMIT, tokens),
        (None, [Ok(end); 3], [reads; 2])
    );
}

/// 38 bytes.
const MODEL: &[u8] = b"discount: 0.95 # a line\nT: * -1e-3 x_9";

const MODEL_TOKENS: &[(TokenKind, u64, &[u8])] = &[
    (TokenKind::Name, 0, b"discount"),
    (TokenKind::Colon, 8, b":"),
    (TokenKind::Numeral, 10, b"0.95"),
    (TokenKind::Name, 24, b"T"),
    (TokenKind::Colon, 25, b":"),
    (TokenKind::Star, 27, b"*"),
    (TokenKind::Minus, 29, b"-"),
    (TokenKind::Numeral, 30, b"1e-3"),
    (TokenKind::Name, 35, b"x_9"),
];

/// Texts, whether their source fails after them, their tokens and how these end, how often the source failed then, and how often it was
/// read, in pieces of several sizes.
const CUT: &[(
    &[u8],
    bool,
    &[(TokenKind, u64, &[u8])],
    Option<StreamFault>,
    u64,
    &[(usize, u64)],
)] = &[
    (
        MODEL,
        false,
        MODEL_TOKENS,
        None,
        0,
        &[
            (1, 39),
            (2, 20),
            (3, 14),
            (399, 2),
            (400, 2),
            (401, 2),
            (4095, 2),
            (4096, 2),
            (4097, 2),
        ],
    ),
    // what is glued is known with the eleventh byte
    (
        b"-12.5E-7 2ab",
        true,
        &[
            (TokenKind::Minus, 0, b"-"),
            (TokenKind::Numeral, 1, b"12.5E-7"),
        ],
        Some(StreamFault::Token(TokenFault::Glued(9))),
        0,
        &[(1, 11), (2, 6), (3, 4), (4, 3), (5, 3), (6, 2), (7, 2)],
    ),
    // a failed read is no end
    (
        b"ab 12",
        true,
        &[(TokenKind::Name, 0, b"ab")],
        Some(StreamFault::Device),
        1,
        &[(1, 6), (2, 4), (3, 3), (4, 3)],
    ),
    // what is refused is refused before the read after it, which would fail
    (
        b"discount: 2ab",
        true,
        &[
            (TokenKind::Name, 0, b"discount"),
            (TokenKind::Colon, 8, b":"),
        ],
        Some(StreamFault::Token(TokenFault::Glued(10))),
        0,
        &[(1, 12)],
    ),
];

#[test]
fn tokens_of_pieces(rt: HostRuntime) {
    for &(text, fails, tokens, end, failures, sizes) in CUT {
        for &(most, reads) in sizes {
            let mut source = Pieces::new(text, most, fails);
            assert_tokens(&rt, &mut source, tokens, end, reads);
            expect_eq!(rt; source.failures, failures);
        }
    }
}

const MARKS: &[(&[u8], TokenKind)] = &[
    (b":", TokenKind::Colon),
    (b"*", TokenKind::Star),
    (b"+", TokenKind::Plus),
    (b"-", TokenKind::Minus),
];

/// Whether the mark is given after one read, and the next call names the read after it, which fails.
fn is_given_with_its_byte(text: &[u8], kind: TokenKind) -> bool {
    let mut found = StreamTokens::new(TEXT_LIMIT);
    let mut source = Pieces::new(text, 1, true);
    let wrong = first_wrong(&mut found, &mut source, &[(kind, 0, text)]);
    let given = (source.reads, source.failures);
    let end = next_end(&mut found, &mut source);
    let ended = (source.reads, source.failures);
    (wrong, given, end, ended) == (None, (1, 0), Ok(Some(StreamFault::Device)), (2, 1))
}

/// Nothing prolongs a mark: it is given with its byte, and the read after it, which fails, comes with the next call.
#[test]
fn a_mark_is_given_with_its_byte(rt: HostRuntime) {
    for &(text, kind) in MARKS {
        expect_eq!(rt; is_given_with_its_byte(text, kind), true, kind);
    }
}

/// 4,095 blanks and a name of this many bytes, and a line end after it.
fn long_name(count: usize) -> [u8; 4500] {
    let mut text = [b' '; 4500];
    for at in 4095..4095 + count.min(401) {
        text[at] = b'n';
    }
    text[4499] = b'\n';
    text
}

/// The name is read with the 4,500 bytes and their end; that it is too long is known with byte 4,496.
#[test]
fn a_name_at_the_end_of_the_buffer(rt: HostRuntime) {
    for (most, reads, reads_of_longer) in [
        (1usize, 4501u64, 4496u64),
        (399, 13, 12),
        (4095, 3, 2),
        (4096, 3, 2),
        (4097, 3, 2),
    ] {
        let text = long_name(400);
        assert_tokens(
            &rt,
            &mut Pieces::new(&text, most, false),
            &[(TokenKind::Name, 4095, &text[4095..4495])],
            None,
            reads,
        );
        let longer = long_name(401);
        let too_long = Some(StreamFault::Token(TokenFault::TokenTooLong(4095)));
        let mut source = Pieces::new(&longer, most, false);
        assert_tokens(&rt, &mut source, &[], too_long, reads_of_longer);
    }
}

#[test]
fn a_comment_longer_than_the_buffer(rt: HostRuntime) {
    let mut text = [b'c'; 10_003];
    text[0] = b'#';
    text[10_000] = b'\n';
    text[10_001] = b':';
    text[10_002] = b'a';
    for (most, reads) in [(1usize, 10_004u64), (400, 27), (4096, 4)] {
        assert_tokens(
            &rt,
            &mut Pieces::new(&text, most, false),
            &[
                (TokenKind::Colon, 10_001, b":"),
                (TokenKind::Name, 10_002, b"a"),
            ],
            None,
            reads,
        );
    }
}

/// The ends that tokens of at most 10,000 bytes of the same byte for ever come to, twice, and the reads.
fn ends_of_endless(byte: u8) -> ([End; 2], u64) {
    let mut source = ReaderSource::new(Endless::new(byte));
    let mut found = StreamTokens::new(10_000);
    let first = next_end(&mut found, &mut source);
    let ends = [first, next_end(&mut found, &mut source)];
    (ends, source.reader.reads)
}

/// A read gives 4,096 bytes, and the byte at the limit comes with the third.
#[test]
fn a_source_that_never_ends(rt: HostRuntime) {
    for (byte, fault, reads) in [
        (b' ', TokenFault::TextTooLong(10_000), 3),
        (b'#', TokenFault::TextTooLong(10_000), 3),
        (b'1', TokenFault::TokenTooLong(0), 1),
    ] {
        let end = Ok(Some(StreamFault::Token(fault)));
        expect_eq!(rt; ends_of_endless(byte), ([end; 2], reads));
    }
}

#[test]
fn a_token_ends_at_the_limit(rt: HostRuntime) {
    let too_long = Some(StreamFault::Token(TokenFault::TextTooLong(3)));
    for (text, most, end, reads) in [(b"abcd".as_slice(), 4, too_long, 1), (b"abc", 1, None, 4)] {
        let found = cut(
            &mut Pieces::new(text, most, false),
            3,
            &[(TokenKind::Name, 0, b"abc")],
        );
        expect_eq!(rt; found, (None, [Ok(end); 3], [reads; 2]));
    }
}
