//! How a text is cut into lexemes and tokens, one after another.
ghost use Rattle.std.specs.Prelude.{◌≡◌, ◌+◌, ◌<◌, ◌≤◌, ◌^◌, ◌++◌, ℕ, List, length, Option, MatchResult, ◌∷◌};
ghost use Rattle.std.specs.Prelude.{[], take, slice_index, true, false, ◌⊎◌, IfSome, IsTrue};
ghost use Rattle.polcert_text.specs.Fronts.{IsLongestGap};
ghost use Rattle.polcert_text.specs.Steps.Scan.{gap_after, gap_through, state_after, state_through, kind_at};
ghost use Rattle.polcert_text.specs.Steps.Scan.{is_numeral_kind};
ghost use Rattle.polcert_text.specs.Steps.Classes.{class_of};

use crate::bytes::{
    ByteClass, class_of, is_blank, quick_ends_gap, quick_is_blank, quick_is_colon, quick_is_digit,
    quick_is_letter,
};
use crate::numeral_ends::ended_numeral;
use memchr::memchr;
use std::marker::Model;
use thiserror::Error;

/// A token of a text: the bytes from the offset `place` up to the offset `stop`.
#[derive(Clone, Copy, Debug)]
pub struct Token<'a> {
    pub kind: TokenKind,
    pub place: u64,
    pub stop: u64,
    pub bytes: &'a [u8],
}

/// Why the tokens of a text stop before its end, and the offset of the byte where.
#[derive(Clone, Copy, Debug, PartialEq, Eq, Error)]
pub enum TokenFault {
    /// K1: no token begins at this byte.
    #[error("no token begins at byte {0}")]
    BadByte(u64),
    /// K2: the token that begins here is longer than 400 bytes.
    #[error("the token at byte {0} is longer than 400 bytes")]
    TokenTooLong(u64),
    /// K3: a letter, `_` or a point directly follows the numeral that begins here.
    #[error("a letter, `_` or a point directly follows the numeral at byte {0}")]
    Glued(u64),
    /// K4: the text has a byte at the limit.
    #[error("the text goes on at byte {0}")]
    TextTooLong(u64),
}

impl TokenFault {
    ghost use Rattle.polcert_text.specs.Reading.{fault_place};

    /// Returns the offset of the byte at which the text is refused.
    pub fn place(self) -> u64
        ensures { result ≡ fault_place self }
    {
        match self {
            TokenFault::BadByte(place)
            | TokenFault::TokenTooLong(place)
            | TokenFault::Glued(place)
            | TokenFault::TextTooLong(place) => place,
        }
    }
}

/// The number of bytes that a model, a policy graph or vectors may have.
pub const TEXT_LIMIT: u64 = 4_294_967_296;

/// The tokens of a text in memory, and where they continue. Tests use it; readers use `StreamTokens`.
#[derive(Drop)]
pub struct Tokens<'a> {
    rest: &'a [u8],
    place: u64,
    ending: Option<TokenFault>,
}

impl<'a> Model for Tokens<'a> {
    ghost use Rattle.std.specs.Prelude.{◌+◌, ◌<◌, ◌^◌, length};
    ghost use Rattle.polcert_text.specs.Cut.{Rest};

    ghost Value = { Rest };

    ghost view = { λ t. record { place = t.place; bytes = t.rest.now; ending = t.ending } };

    ghost invariant = { λ t. t.place + length t.rest.now < 2 ^ 64 };
}

impl<'a> Tokens<'a> {
    ghost use Rattle.polcert_text.specs.Cut.{text_rest};
    ghost use Rattle.polcert_text.specs.Reading.{GivesNext};

    /// Makes the tokens of the bytes below the limit, an offset. A byte at the limit is refused there.
    pub fn new(text: &'a [u8], limit: u64) -> Self
        ensures { result ≡ text_rest text.now limit }
    {
        if limit < text.len() as u64 {
            Tokens {
                rest: &text[..limit as usize],
                place: 0,
                ending: Some(TokenFault::TextTooLong(limit)),
            }
        } else {
            Tokens {
                rest: text,
                place: 0,
                ending: None,
            }
        }
    }

    /// Returns the next token, a refusal, or `None` at the clean end. After a refusal or the end every
    /// further call answers the same.
    #[inline(always)]
    pub fn next_token(&mut self) -> Option<Result<Token<'a>, TokenFault>>
        ensures { GivesNext self.old result self.new }
    {
        let gap = gap_len(self.rest);
        let rest = &self.rest[gap..];
        let place = self.place + gap as u64;
        if rest.is_empty() {
            return match self.ending {
                Some(fault) => Some(Err(fault)),
                None => None,
            };
        }
        match token_at(rest, place) {
            Ok(token) => {
                self.rest = &rest[token.bytes.len()..];
                self.place = token.stop;
                Some(Ok(token))
            }
            Err(fault) => Some(Err(fault)),
        }
    }
}

impl Tokens<'_> {
    ghost use Rattle.polcert_text.specs.Cut.{end_place};

    /// Returns the offset at which the bytes below the limit end.
    pub fn end(&self) -> u64
        ensures { result ≡ end_place self.now }
    {
        self.place + self.rest.len() as u64
    }
}

ghost use Rattle.polcert_text.specs.Bytes.{is_glue};
ghost use Rattle.polcert_text.specs.Cut.{is_glued, IsFaultAt};
ghost use Rattle.polcert_text.specs.Reading.{IsReadAt};
ghost use Rattle.polcert_text.specs.Steps.ScanOf.{front_len};
ghost use Rattle.polcert_text.specs.Steps.Streaming.{IsFrontSeen};

/// Returns the token at the front of the bytes, of which the first is at offset `place`, or why it is refused.
#[inline(always)]
fn token_at(bytes: &[u8], place: u64) -> Result<Token<'_>, TokenFault>
    requires { place + length bytes.now < 2 ^ 64 }
    ensures { MatchResult result (IsReadAt place bytes.now) (IsFaultAt place bytes.now) }
{
    token_of(longest_lexeme(bytes), bytes, place)
}

/// Returns the token of the lexeme that was seen at the front of the bytes, whatever follows them, or why it is refused: for one, no lexeme
/// was seen. The first byte is at offset `place`.
#[inline(always)]
pub fn token_of(
    front: Option<LexemePrefix>,
    bytes: &[u8],
    place: u64,
) -> Result<Token<'_>, TokenFault>
    requires place { place + length bytes.now < 2 ^ 64 }
    requires within { front_len front ≤ length bytes.now }
    ensures { (tail : List ℕ) → IsFrontSeen bytes.now tail front
        → MatchResult result (IsReadAt place (bytes.now ++ tail)) (IsFaultAt place (bytes.now ++ tail)) }
{
    let Some(front) = front else {
        return Err(TokenFault::BadByte(place));
    };
    if front.len > LONGEST_TOKEN {
        return Err(TokenFault::TokenTooLong(place));
    }
    let (text, rest) = bytes.split_at(front.len);
    if is_glued(front.kind, rest) {
        return Err(TokenFault::Glued(place));
    }
    Ok(Token {
        kind: front.kind,
        place,
        stop: place + front.len as u64,
        bytes: text,
    })
}

/// Tests whether a lexeme is a numeral that a letter, `_` or a point follows directly.
#[inline(always)]
fn is_glued(kind: TokenKind, rest: &[u8]) -> bool
    ensures { result ≡ is_glued kind rest.now }
{
    match (kind, rest) {
        (TokenKind::Numeral, [byte, ..]) => !quick_is_blank(*byte) && is_glue(*byte),
        _ => false,
    }
}

/// Tests whether the byte may not directly follow a numeral: a letter, `_` or a point.
#[inline(never)]
#[tactic(auto, unfolding(crate::specs::Bytes::is_glue, crate::specs::Bytes::is_letter))]
fn is_glue(byte: u8) -> bool
    ensures { result ≡ is_glue byte }
{
    byte.is_ascii_alphabetic() || byte == b'_' || byte == b'.'
}

#[derive(Clone, Copy, Debug, PartialEq, Eq)]
pub enum TokenKind {
    Name,
    Numeral,
    Colon,
    Star,
    Plus,
    Minus,
}

/// The state between two lexemes, after the bytes so far.
#[derive(Clone, Copy)]
pub enum Gap {
    Between,
    Comment,
    Ended,
}

impl Gap {
    /// Returns the state after a byte of this class.
    #[inline(always)]
    pub fn after(self, class: ByteClass) -> Gap
        ensures { result ≡ gap_after self class }
    {
        match self {
            Gap::Between => match class {
                ByteClass::Blank | ByteClass::LineEnd => Gap::Between,
                ByteClass::Hash => Gap::Comment,
                _ => Gap::Ended,
            },
            Gap::Comment => match class {
                ByteClass::LineEnd => Gap::Between,
                _ => Gap::Comment,
            },
            Gap::Ended => Gap::Ended,
        }
    }
}

/// The state inside a lexeme, after the bytes so far.
#[derive(Clone, Copy)]
pub enum State {
    Start,
    Name,
    Whole,
    Point,
    Fraction,
    Mark,
    Sign,
    Exponent,
    Single(TokenKind),
    Stuck,
}

impl State {
    /// Returns the state after the first byte.
    #[inline(always)]
    fn first(class: ByteClass) -> State
        ensures { result ≡ state_after State.Start class }
    {
        match class {
            ByteClass::Letter | ByteClass::ExponentMark => State::Name,
            ByteClass::Digit => State::Whole,
            ByteClass::Point => State::Point,
            ByteClass::Colon => State::Single(TokenKind::Colon),
            ByteClass::Star => State::Single(TokenKind::Star),
            ByteClass::Plus => State::Single(TokenKind::Plus),
            ByteClass::Minus => State::Single(TokenKind::Minus),
            _ => State::Stuck,
        }
    }

    /// Returns the state after one more byte.
    #[inline(always)]
    pub fn after(self, class: ByteClass) -> State
        ensures { result ≡ state_after self class }
    {
        match self {
            State::Start => State::first(class),
            State::Name => match class {
                ByteClass::Letter
                | ByteClass::ExponentMark
                | ByteClass::Digit
                | ByteClass::Underscore
                | ByteClass::Minus => State::Name,
                _ => State::Stuck,
            },
            State::Whole => match class {
                ByteClass::Digit => State::Whole,
                ByteClass::Point => State::Fraction,
                ByteClass::ExponentMark => State::Mark,
                _ => State::Stuck,
            },
            State::Point => match class {
                ByteClass::Digit => State::Fraction,
                _ => State::Stuck,
            },
            State::Fraction => match class {
                ByteClass::Digit => State::Fraction,
                ByteClass::ExponentMark => State::Mark,
                _ => State::Stuck,
            },
            State::Mark => match class {
                ByteClass::Plus | ByteClass::Minus => State::Sign,
                ByteClass::Digit => State::Exponent,
                _ => State::Stuck,
            },
            State::Sign | State::Exponent => match class {
                ByteClass::Digit => State::Exponent,
                _ => State::Stuck,
            },
            State::Single(_) | State::Stuck => State::Stuck,
        }
    }

    /// Tests whether the bytes so far are a numeral.
    #[inline(always)]
    pub fn is_numeral(self) -> bool
        ensures { result ≡ is_numeral_kind (kind_at self) }
    {
        match self {
            State::Whole | State::Fraction | State::Exponent => true,
            State::Single(kind) => matches!(kind, TokenKind::Numeral),
            _ => false,
        }
    }

    /// Returns the kind of the lexeme if one may end in this state.
    #[inline(always)]
    pub fn kind(self) -> Option<TokenKind>
        ensures { result ≡ kind_at self }
    {
        match self {
            State::Name => Some(TokenKind::Name),
            State::Whole | State::Fraction | State::Exponent => Some(TokenKind::Numeral),
            State::Single(kind) => Some(kind),
            _ => None,
        }
    }
}

/// Returns how long the gap at the front of the bytes is: the blanks, line ends and comments.
#[inline(always)]
pub fn gap_len(bytes: &[u8]) -> usize
    ensures { IsLongestGap bytes.now result }
{
    let (len, _) = gap_prefix(Gap::Between, bytes);
    len
}

/// Returns how many bytes continue the gap, and the state of the gap after them.
#[inline(always)]
pub fn gap_prefix(gap: Gap, bytes: &[u8]) -> (usize, Gap)
    requires { gap ≡ Gap.Ended → ⊥ }
    ensures within { result.0 ≤ length bytes.now }
    ensures state { gap_through gap (take result.0 bytes.now) ≡ result.1 }
    ensures open { result.1 ≡ Gap.Ended → ⊥ }
    ensures stops { result.0 < length bytes.now
        → gap_after result.1 (class_of (slice_index bytes.now result.0)) ≡ Gap.Ended }
{
    let mut gap = gap;
    let mut at: usize = 0;
    while at < bytes.len() {
        if let Gap::Comment = gap {
            let (count, next) = seen_comment(&bytes[at..]);
            at += count;
            gap = next;
            continue;
        }
        if is_blank(bytes[at]) {
            at += 1;
            continue;
        }
        if quick_ends_gap(bytes[at]) {
            return (at, gap);
        }
        match gap.after(class_of(bytes[at])) {
            Gap::Ended => return (at, gap),
            next => gap = next,
        }
        at += 1;
    }
    (bytes.len(), gap)
}

/// Returns how many bytes continue a comment, up to and with the end of its line, and the state of the gap
/// after them.
#[inline(never)]
fn seen_comment(bytes: &[u8]) -> (usize, Gap)
    requires { 0 < length bytes.now }
    ensures within { (0 < result.0) × (result.0 ≤ length bytes.now) }
    ensures state { gap_through Gap.Comment (take result.0 bytes.now) ≡ result.1 }
    ensures open { result.1 ≡ Gap.Ended → ⊥ }
{
    match memchr(b'\n', bytes) {
        Some(line) => (line + 1, Gap::Between),
        None => (bytes.len(), Gap::Comment),
    }
}

/// The lexeme at the front of some bytes: its kind, and how long it is.
#[derive(Clone, Copy)]
pub struct LexemePrefix {
    pub kind: TokenKind,
    pub len: usize,
}

/// The number of bytes that a token may have.
pub const LONGEST_TOKEN: usize = 400;

/// A lexeme read byte by byte: how far it has come, and the longest so far.
#[derive(Clone, Copy)]
pub struct LexemeScan {
    state: State,
    len: usize,
    longest: Option<LexemePrefix>,
}

impl LexemeScan {
    ghost use Rattle.polcert_text.specs.Steps.ScanOf.{IsScanOf, is_over, is_stuck, front_len};

    /// Makes the scan before the first byte.
    #[tactic(auto, unfolding(crate::specs::Lexemes::kind_of))]
    pub fn new() -> LexemeScan
        ensures { IsScanOf [] result }
    {
        LexemeScan {
            state: State::Start,
            len: 0,
            longest: None,
        }
    }

    /// Returns the scan after one more byte.
    #[inline(always)]
    pub fn with_byte(self, byte: u8) -> LexemeScan
        requires { self.len < usize.MAX }
        ensures scan { (read : List ℕ) → IsScanOf read self → IsScanOf (read ++ byte ∷ []) result }
        ensures len { result.len ≡ self.len + 1 }
    {
        let state = self.state.after(class_of(byte));
        let len = self.len + 1;
        let longest = match state.kind() {
            Some(kind) => Some(LexemePrefix { kind, len }),
            None => self.longest,
        };
        LexemeScan {
            state,
            len,
            longest,
        }
    }

    /// Tests whether no lexeme continues, whatever bytes follow.
    #[inline(always)]
    pub fn is_stuck(self) -> bool
        ensures { result ≡ is_stuck self.state }
    {
        matches!(self.state, State::Stuck)
    }

    /// Continues over bytes of which it was fed a front, up to the last or one that no lexeme continues with.
    #[inline(always)]
    pub fn scan_over(self, bytes: &[u8]) -> LexemeScan
        requires with_byte { IsScanOf (take self.len bytes.now) self }
        ensures with_byte { IsScanOf (take result.len bytes.now) result }
        ensures all { is_stuck result.state ≡ false → result.len ≡ length bytes.now }
    {
        let mut scan = self;
        while scan.len < bytes.len() {
            if scan.is_stuck() {
                return scan;
            }
            scan = scan.with_byte(bytes[scan.len]);
        }
        scan
    }

    /// Returns the longest lexeme at the front of the scanned bytes. `None`: none begins there.
    pub fn longest(self) -> Option<LexemePrefix>
        ensures { result ≡ self.longest }
    {
        self.longest
    }

    /// Tests whether no byte that follows changes the lexeme: nothing prolongs it, or it is too long already.
    pub fn is_known(self) -> bool
        ensures known { result ≡ true → (is_over self.state ≡ true) ⊎ (400 < front_len self.longest) }
        ensures not_known { result ≡ false → (is_over self.state ≡ false) × (front_len self.longest ≤ 400) }
    {
        if matches!(self.state, State::Single(_) | State::Stuck) {
            return true;
        }
        match self.longest {
            Some(front) => front.len > LONGEST_TOKEN,
            None => false,
        }
    }
}

ghost use Rattle.polcert_text.specs.Steps.ScanOf.{IsFrontOf, EndsWithin, IsNameOrMark};
ghost use Rattle.polcert_text.specs.declared.tokens.State.{State};

/// Returns where the name ends that the bytes before `from` begin.
#[inline(always)]
fn name_end(bytes: &[u8], from: usize) -> usize
    requires { from ≤ length bytes.now }
    ensures within { (from ≤ result) × (result ≤ length bytes.now) }
    ensures same { state_through State.Start (take from bytes.now) ≡ State.Name
        → state_through State.Start (take result bytes.now) ≡ State.Name }
    ensures stops { result < length bytes.now
        → state_after State.Name (class_of (slice_index bytes.now result)) ≡ State.Stuck }
{
    let mut at = from;
    while at < bytes.len() && continues_name(bytes[at]) {
        at += 1;
    }
    at
}

/// Tests whether a name continues with the byte. For most bytes a test decides that is quicker than their
/// class.
#[inline(always)]
fn continues_name(byte: u8) -> bool
    ensures on { IsTrue result → state_after State.Name (class_of byte) ≡ State.Name }
    ensures off { result ≡ false → state_after State.Name (class_of byte) ≡ State.Stuck }
{
    if quick_is_letter(byte) || quick_is_digit(byte) {
        return true;
    }
    if quick_is_blank(byte) || quick_is_colon(byte) {
        return false;
    }
    class_continues_name(byte)
}

/// Tests whether a name continues with a byte of this byte's class: called if no quicker test decides.
#[inline(never)]
fn class_continues_name(byte: u8) -> bool
    ensures on { IsTrue result → state_after State.Name (class_of byte) ≡ State.Name }
    ensures off { result ≡ false → state_after State.Name (class_of byte) ≡ State.Stuck }
{
    matches!(
        class_of(byte),
        ByteClass::Letter
            | ByteClass::ExponentMark
            | ByteClass::Digit
            | ByteClass::Underscore
            | ByteClass::Minus
    )
}

/// Returns the lexeme at the front, if a byte after it is there and ends it: a name, a mark, or a numeral of
/// digits, perhaps with a point and digits. Most are, and these are cut without
/// a step for each byte. `None`: unknown, take the slow path.
#[inline(always)]
pub fn delimited_lexeme(bytes: &[u8]) -> Option<LexemePrefix>
    ensures { IfSome result (EndsWithin bytes.now) }
{
    if bytes.len() < 2 {
        return None;
    }
    if quick_is_digit(bytes[0]) {
        return match ended_numeral(bytes) {
            Some(ends) => Some(LexemePrefix {
                kind: TokenKind::Numeral,
                len: ends.end,
            }),
            None => None,
        };
    }
    ended_name_or_mark(bytes)
}

/// Returns the name or the mark at the front, if a byte after it is there and ends it. `None`: unknown, take
/// the slow path.
#[inline(always)]
pub fn ended_name_or_mark(bytes: &[u8]) -> Option<LexemePrefix>
    requires { 1 < length bytes.now }
    ensures ends { IfSome result (EndsWithin bytes.now) }
    ensures word { IfSome result (IsNameOrMark bytes.now) }
{
    if quick_is_letter(bytes[0]) {
        return ended_name(bytes);
    }
    match State::first(class_of(bytes[0])) {
        State::Single(kind) => Some(LexemePrefix { kind, len: 1 }),
        _ => None,
    }
}

/// Returns the name at the front, if a byte after it shows its end. `None`: unknown.
#[inline(always)]
pub fn ended_name(bytes: &[u8]) -> Option<LexemePrefix>
    requires some { 0 < length bytes.now }
    requires letter { (class_of (slice_index bytes.now 0) ≡ ByteClass.Letter)
        ⊎ (class_of (slice_index bytes.now 0) ≡ ByteClass.ExponentMark) }
    ensures ends { IfSome result (EndsWithin bytes.now) }
    ensures word { IfSome result (IsNameOrMark bytes.now) }
    ensures kind { IfSome result (λ front. front.kind ≡ TokenKind.Name) }
{
    // (The word of an entry is mostly one letter before a colon.)
    if bytes.len() > 1 && quick_is_colon(bytes[1]) {
        return Some(LexemePrefix {
            kind: TokenKind::Name,
            len: 1,
        });
    }
    let end = name_end(bytes, 1);
    if end == bytes.len() {
        return None;
    }
    Some(LexemePrefix {
        kind: TokenKind::Name,
        len: end,
    })
}

/// Returns the longest lexeme at the front of the bytes, if one begins there.
fn longest_lexeme(bytes: &[u8]) -> Option<LexemePrefix>
    ensures { IsFrontOf bytes.now result }
{
    LexemeScan::new().scan_over(bytes).longest()
}
