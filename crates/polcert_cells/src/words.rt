//! The words of a model's text.
ghost use Rattle.std.specs.Prelude.{◌≡◌, ◌↔◌, IsTrue, false, bytes_eq, [], ◌∷◌};
ghost use Rattle.std.specs.List.{list_any};
ghost use Rattle.polcert_text.specs.Reading.{lexeme_of};
ghost use Rattle.polcert_cells.specs.Words.{topic_of, is_reserved, inner_words, topic, IsWord};

use crate::Table;
use polcert_text::{Token, TokenKind};

/// What an item is about, as its first word says.
#[derive(Clone, Copy, Debug, PartialEq, Eq)]
pub enum Topic {
    Discount,
    Values,
    States,
    Actions,
    Observations,
    Start,
    Cells(Table),
}

/// Returns the topic of an item that begins with this word. `None`: the word begins none.
#[tactic(auto, unfolding(crate::specs::Words::topic_of))]
#[inline(always)]
fn topic_of(word: &[u8]) -> Option<Topic>
    ensures { result ≡ topic_of word.now }
{
    if is_same_word(word, b"discount") {
        return Some(Topic::Discount);
    }
    if is_same_word(word, b"values") {
        return Some(Topic::Values);
    }
    if is_same_word(word, b"states") {
        return Some(Topic::States);
    }
    if is_same_word(word, b"actions") {
        return Some(Topic::Actions);
    }
    if is_same_word(word, b"observations") {
        return Some(Topic::Observations);
    }
    if is_same_word(word, b"start") {
        return Some(Topic::Start);
    }
    if is_letter(word, b'T') {
        return Some(Topic::Cells(Table::Transition));
    }
    if is_letter(word, b'O') {
        return Some(Topic::Cells(Table::Observation));
    }
    if is_letter(word, b'R') {
        return Some(Topic::Cells(Table::Reward));
    }
    None
}

/// Tests whether two words are equal. Most differ in their lengths, which takes no call.
#[inline(always)]
fn is_same_word(word: &[u8], other: &[u8]) -> bool
    ensures { result ≡ bytes_eq word.now other.now }
{
    word.len() == other.len() && has_same_bytes(word, other)
}

/// Tests byte by byte whether two words are equal: called if their lengths are.
#[inline(never)]
fn has_same_bytes(word: &[u8], other: &[u8]) -> bool
    ensures { result ≡ bytes_eq word.now other.now }
{
    word == other
}

/// Tests whether the word is this letter.
#[inline(always)]
fn is_letter(word: &[u8], letter: u8) -> bool
    ensures { result ≡ bytes_eq word.now (letter ∷ []) }
{
    word.len() == 1 && word[0] == letter
}

/// Returns the topic of the item that the token begins, if it begins one.
#[inline(always)]
pub fn begun_topic(token: &Token<'_>) -> Option<Topic>
    ensures { result ≡ topic (lexeme_of token.now) }
{
    match token.kind {
        TokenKind::Name => topic_of(token.bytes),
        _ => None,
    }
}

/// Tests whether the word is reserved, so that no element has it as its name.
#[inline(always)]
pub fn is_reserved(word: &[u8]) -> bool
    ensures { result ≡ is_reserved word.now }
{
    !ends_in_digit(word) && is_some_reserved(word)
}

/// Tests whether the word ends in a digit, as no reserved word does.
#[inline(always)]
fn ends_in_digit(word: &[u8]) -> bool
    ensures { IsTrue result → is_reserved word.now ≡ false }
{
    let len = word.len();
    if len == 0 {
        return false;
    }
    word[len - 1].is_ascii_digit()
}

/// Tests whether the word begins an item or is reserved inside one: called unless its last byte shows that it is not.
#[tactic(auto, unfolding(crate::specs::Words::is_reserved))]
#[inline(never)]
fn is_some_reserved(word: &[u8]) -> bool
    ensures { result ≡ is_reserved word.now }
{
    topic_of(word).is_some() || is_inner_word(word)
}

/// Tests whether the word is reserved and begins no item.
fn is_inner_word(word: &[u8]) -> bool
    ensures { result ≡ list_any (bytes_eq word.now) inner_words }
{
    is_same_word(word, b"reward")
        || is_same_word(word, b"cost")
        || is_same_word(word, b"include")
        || is_same_word(word, b"exclude")
        || is_same_word(word, b"uniform")
        || is_same_word(word, b"identity")
        || is_same_word(word, b"reset")
}

/// Tests whether the token is this word.
pub fn is_word(token: &Token<'_>, word: &[u8]) -> bool
    ensures { IsTrue result ↔ IsWord word.now (lexeme_of token.now) }
{
    match token.kind {
        TokenKind::Name => is_same_word(token.bytes, word),
        _ => false,
    }
}
