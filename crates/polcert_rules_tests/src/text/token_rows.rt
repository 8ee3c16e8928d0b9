//! The cuts of small texts.
use polcert_testing::expect_eq;
use polcert_text::{TEXT_LIMIT, TokenFault, TokenKind, Tokens};
use std::process::Abort;

/// The first of these tokens, if any, that isn't the next one.
fn first_wrong(found: &mut Tokens<'_>, tokens: &[(TokenKind, u64, &[u8])]) -> Option<u64> {
    for &(kind, place, bytes) in tokens {
        let is_next = match found.next_token() {
            Some(Ok(it)) => {
                (it.kind, it.place, it.bytes) == (kind, place, bytes)
                    && it.stop.saturating_sub(place) == bytes.len() as u64
            }
            _ => false,
        };
        if !is_next {
            return Some(place);
        }
    }
    None
}

/// The end that comes next, or the place of a token that comes in its place.
fn next_end(found: &mut Tokens<'_>) -> Result<Option<TokenFault>, u64> {
    match found.next_token() {
        None => Ok(None),
        Some(Err(fault)) => Ok(Some(fault)),
        Some(Ok(token)) => Err(token.place),
    }
}

/// The tokens of the text are these, with their places, and then comes this end, again at each further call.
fn assert_cut(
    rt: &impl Abort,
    text: &[u8],
    limit: u64,
    tokens: &[(TokenKind, u64, &[u8])],
    end: Option<TokenFault>,
) {
    let mut found = Tokens::new(text, limit);
    expect_eq!(rt; first_wrong(&mut found, tokens), None);
    for _ in 0..3 {
        expect_eq!(rt; next_end(&mut found), Ok(end));
    }
}

/// Texts, limits, the tokens of the texts with their places, and the end.
const CUT: &[(&[u8], u64, &[(TokenKind, u64, &[u8])], Option<TokenFault>)] = &[
    (b"", TEXT_LIMIT, &[], None),
    (
        b"12-3",
        TEXT_LIMIT,
        &[
            (TokenKind::Numeral, 0, b"12"),
            (TokenKind::Minus, 2, b"-"),
            (TokenKind::Numeral, 3, b"3"),
        ],
        None,
    ),
    (b"ab-#c", TEXT_LIMIT, &[(TokenKind::Name, 0, b"ab-")], None),
    (
        b"T: *+1.5e-3\t:x_9\r\n",
        TEXT_LIMIT,
        &[
            (TokenKind::Name, 0, b"T"),
            (TokenKind::Colon, 1, b":"),
            (TokenKind::Star, 3, b"*"),
            (TokenKind::Plus, 4, b"+"),
            (TokenKind::Numeral, 5, b"1.5e-3"),
            (TokenKind::Colon, 12, b":"),
            (TokenKind::Name, 13, b"x_9"),
        ],
        None,
    ),
    (
        b"5.e1",
        TEXT_LIMIT,
        &[(TokenKind::Numeral, 0, b"5.e1")],
        None,
    ),
    (
        b"# T\n a#b\n#",
        TEXT_LIMIT,
        &[(TokenKind::Name, 5, b"a")],
        None,
    ),
    (b"1e", TEXT_LIMIT, &[], Some(TokenFault::Glued(0))),
    (b"1e5x", TEXT_LIMIT, &[], Some(TokenFault::Glued(0))),
    (b"5e+", TEXT_LIMIT, &[], Some(TokenFault::Glued(0))),
    (b"1.2.3", TEXT_LIMIT, &[], Some(TokenFault::Glued(0))),
    (b"2_", TEXT_LIMIT, &[], Some(TokenFault::Glued(0))),
    (b".", TEXT_LIMIT, &[], Some(TokenFault::BadByte(0))),
    (b" ;", TEXT_LIMIT, &[], Some(TokenFault::BadByte(1))),
    (b"_a", TEXT_LIMIT, &[], Some(TokenFault::BadByte(0))),
    (
        b"ab cd",
        2,
        &[(TokenKind::Name, 0, b"ab")],
        Some(TokenFault::TextTooLong(2)),
    ),
    (b"ab", 2, &[(TokenKind::Name, 0, b"ab")], None),
    (
        b"ab.",
        TEXT_LIMIT,
        &[(TokenKind::Name, 0, b"ab")],
        Some(TokenFault::BadByte(2)),
    ),
    (
        b"12 3a",
        TEXT_LIMIT,
        &[(TokenKind::Numeral, 0, b"12")],
        Some(TokenFault::Glued(3)),
    ),
];

#[test]
fn tokens(rt: HostRuntime) {
    for &(text, limit, tokens, end) in CUT {
        assert_cut(&rt, text, limit, tokens, end);
    }
}

/// 400 bytes are a token, 401 are too long, and that comes before what follows them.
#[test]
fn longest_tokens(rt: HostRuntime) {
    let mut text = [b'1'; 402];
    let digits = [b'1'; 400];
    assert_cut(
        &rt,
        &digits,
        TEXT_LIMIT,
        &[(TokenKind::Numeral, 0, &digits)],
        None,
    );
    text[401] = b'x';
    assert_cut(
        &rt,
        &text,
        TEXT_LIMIT,
        &[],
        Some(TokenFault::TokenTooLong(0)),
    );
}

/// Each byte alone: a token, a part of a gap, or refused.
#[test]
fn single_bytes(rt: HostRuntime) {
    for byte in 0..=255u8 {
        let kind = match byte {
            b'a'..=b'z' | b'A'..=b'Z' => Some(TokenKind::Name),
            b'0'..=b'9' => Some(TokenKind::Numeral),
            b':' => Some(TokenKind::Colon),
            b'*' => Some(TokenKind::Star),
            b'+' => Some(TokenKind::Plus),
            b'-' => Some(TokenKind::Minus),
            _ => None,
        };
        let gap = matches!(byte, 9 | 10 | 13 | 32 | b'#');
        let text = [byte];
        match kind {
            Some(kind) => assert_cut(&rt, &text, TEXT_LIMIT, &[(kind, 0, &text)], None),
            None if gap => assert_cut(&rt, &text, TEXT_LIMIT, &[], None),
            None => assert_cut(&rt, &text, TEXT_LIMIT, &[], Some(TokenFault::BadByte(0))),
        }
    }
}

/// Bytes beyond ASCII may stand in a comment, and nowhere else.
#[test]
fn bytes_beyond_ascii(rt: HostRuntime) {
    for byte in 128..=255u8 {
        assert_cut(
            &rt,
            &[b'#', byte, b'\n', b'a'],
            TEXT_LIMIT,
            &[(TokenKind::Name, 3, b"a")],
            None,
        );
        assert_cut(
            &rt,
            &[b'a', byte],
            TEXT_LIMIT,
            &[(TokenKind::Name, 0, b"a")],
            Some(TokenFault::BadByte(1)),
        );
    }
}

#[test]
fn ends(rt: HostRuntime) {
    expect_eq!(rt; Tokens::new(b"ab cd", 5).end(), 5);
    expect_eq!(rt; Tokens::new(b"ab cd", 2).end(), 2);
    let mut tokens = Tokens::new(b"ab ", 5);
    let _ = tokens.next_token();
    let _ = tokens.next_token();
    expect_eq!(rt; tokens.end(), 3);
    expect_eq!(rt; TokenFault::Glued(7).place(), 7);
}
