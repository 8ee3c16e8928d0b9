//! Numbers of millionths as they are written.
use polcert_text::{SliceSink, write_scaled};

/// Whether the number is written as this text.
fn is_written(scaled: i64, text: &[u8]) -> bool {
    let mut bytes = [0u8; 24];
    let mut sink = SliceSink::new(&mut bytes);
    write_scaled(scaled, &mut sink).is_ok() && sink.written() == text
}

const TEXTS: &[(i64, &[u8])] = &[
    (0, b"0"),
    (1, b"0.000001"),
    (-1, b"-0.000001"),
    (500_000, b"0.5"),
    (-1_000_000, b"-1"),
    (950_000, b"0.95"),
    (10_000_000_000_000, b"10000000"),
    (i64::MIN, b"-9223372036854.775808"),
    (i64::MAX, b"9223372036854.775807"),
];

#[test]
fn scaled_texts(rt: HostRuntime) {
    for &(scaled, want) in TEXTS {
        assert!(rt; is_written(scaled, want), "{scaled}");
    }
}
