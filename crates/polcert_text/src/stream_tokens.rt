//! The bytes and tokens of a text that comes from a source, one after another.
ghost use Rattle.std.specs.Prelude.{◌≡◌, ◌+◌, ◌≤◌, Option, Some, None, length, ◌<◌, ◌-◌, ◌^◌, [], ℕ};
ghost use Rattle.std.specs.Prelude.{List, true, false, take, slice_index, IfOk, OnErr, ◌++◌, OnOk};
ghost use Rattle.std.specs.Prelude.{drop};
ghost use Rattle.polcert_text.specs.Steps.Classes.{class_of};
ghost use Rattle.polcert_text.specs.Steps.Scan.{gap_after, gap_through};
ghost use Rattle.polcert_text.specs.Steps.ScanOf.{is_over, front_len};
ghost use Rattle.polcert_text.specs.Stream.{Ahead, visible, skip};
ghost use Rattle.polcert_text.specs.Steps.Streaming.{end_of, Fills, FailsAt, SkipsGapOrFails};
ghost use Rattle.polcert_text.specs.Steps.Streaming.{ScansLexemeOrFails, IsReadToLimit};

use crate::tokens::{Gap, LexemePrefix, LexemeScan, delimited_lexeme, gap_prefix, token_of};
use crate::{BUFFER_SIZE, Source, SourceFailed, Token, TokenFault, TokenKind};
use std::marker::Model;
use thiserror::Error;

/// Why the tokens of a source stop before its end.
#[derive(Clone, Copy, Debug, PartialEq, Eq, Error)]
pub enum StreamFault {
    /// A read failed.
    #[error("the source failed")]
    Device,
    /// The text is refused here.
    #[error("{0}")]
    Token(TokenFault),
}

/// What every further call answers, once the tokens have stopped.
#[derive(Clone, Copy)]
pub enum LastAnswer {
    End,
    Fault(StreamFault),
}

impl LastAnswer {
    ghost use Rattle.polcert_text.specs.Stream.{answer_of};

    /// Returns the answer of every later call.
    fn answer(self) -> Result<Option<TokenKind>, StreamFault>
        ensures { result ≡ answer_of self }
    {
        match self {
            LastAnswer::End => Ok(None),
            LastAnswer::Fault(fault) => Err(fault),
        }
    }
}

/// Reads the tokens of a text that comes from a source, through a buffer of 4,096 bytes. The source is borrowed to each
/// call, and no memory is taken.
#[derive(Drop)]
pub struct StreamTokens {
    bytes: StreamBytes,
    taken: usize,
    stop: Option<LastAnswer>,
}

impl Model for StreamTokens {
    ghost use Rattle.std.specs.Prelude.{◌≡◌, ◌+◌, ◌≤◌, length, take};
    ghost use Rattle.polcert_text.specs.Stream.{Stream};
    ghost use Rattle.polcert_text.specs.Steps.Streaming.{EndsAsAnswered};
    ghost use Rattle.polcert_text.specs.Stream.{visible, skip};

    ghost Value = { Stream };

    ghost view = { λ t. record { ahead = skip t.taken t.bytes; borrowed = take t.taken t.bytes.kept; stop = t.stop } };

    ghost invariant = { λ t. (t.taken ≤ length (visible t.bytes))
        × EndsAsAnswered (skip t.taken t.bytes) t.stop };
}

impl StreamTokens {
    ghost use Rattle.std.specs.Prelude.{⊤, List, ℕ, IfOk, IfSome};
    ghost use Rattle.std.specs.Borrow.{sem};
    ghost use mathlib.Core.Option.{none};
    ghost use denote.Follow.{follows_so};
    ghost use Rattle.polcert_text.specs.contracts.stream_tokens.StreamTokens.{the_row};
    ghost use Rattle.polcert_text.specs.Cut.{text_rest};
    ghost use Rattle.polcert_text.specs.Reading.{lexeme_of};
    ghost use Rattle.polcert_text.specs.Stream.{fresh, rest_with, AnswersNext};
    ghost use Rattle.polcert_text.specs.Beginning.{passed};
    ghost use Rattle.polcert_text.specs.Steps.Streaming.{borrowed_lexeme, TakesNext};
    ghost use Rattle.polcert_text.specs.Stream.{visible};

    /// Makes the tokens below the limit, an offset in the text. A byte at the limit is refused there.
    pub fn new(limit: u64) -> StreamTokens
        ensures fresh { result ≡ fresh limit }
        ensures text { (text : List ℕ) → rest_with result.ahead text ≡ text_rest text limit }
    {
        StreamTokens {
            bytes: StreamBytes::new(limit),
            taken: 0,
            stop: None,
        }
    }

    /// Returns the next token, or `None` at the clean end. It reads only if the next token needs a byte that
    /// the buffer lacks. After a fault or the end every further call answers the same, and reads nothing.
    #[inline(always)]
    pub fn next_token<'t, S: Source>(
        &'t mut self,
        source: &mut S,
    ) -> Result<Option<Token<'t>>, StreamFault>
        ensures* next { sem 𝓛 (follows_so the_row the_row self.entry.ghost_name none (λ _ _. ⊤)
            (λ new. AnswersNext S.reads S.failures lexeme_of self.old source.old result new source.new)) }
        ensures stop { IfOk result
            (λ next. IfSome next (λ token. token.stop ≡ token.place + length token.bytes.now)) }
    {
        match self.advance(source) {
            Ok(Some(kind)) => Ok(Some(self.current(kind))),
            Ok(None) => Ok(None),
            Err(fault) => Err(fault),
        }
    }

    /// Returns the offset of the first byte that is not given yet: after the clean end, the number of the
    /// text's bytes.
    pub fn place(&self) -> u64
        ensures { result ≡ self.now.ahead.place }
    {
        let token = &self.bytes.visible()[..self.taken];
        self.bytes.place() + token.len() as u64
    }

    /// Returns the bytes below the limit that were read and are not given yet.
    #[inline(always)]
    pub fn lookahead(&self) -> &[u8]
        ensures { result.now ≡ visible self.now.ahead }
    {
        &self.bytes.visible()[self.taken..]
    }

    /// Skips the first `count` bytes of `lookahead`. It does not look at them: after a count that ends inside a token, the next token
    /// begins there. So a caller skips only tokens that it has cut off `lookahead` whole, as `front_colon` and `front_number` do.
    #[inline(always)]
    pub fn skip(&mut self, count: usize)
        requires continues { self.old.stop ≡ None }
        requires few { count ≤ length (visible self.old.ahead) }
        ensures { self.new ≡ passed count self.old }
    {
        self.bytes.consume(self.taken);
        self.bytes.consume(count);
        self.taken = 0;
    }

    /// Returns the token of this kind that was taken last.
    #[inline(always)]
    fn current(&self, kind: TokenKind) -> Token<'_>
        ensures lexeme { lexeme_of result ≡ borrowed_lexeme self.now kind }
        ensures stop { result.stop ≡ result.place + length result.bytes.now }
    {
        let place = self.bytes.place();
        let bytes = self.bytes.visible();
        Token {
            kind,
            place,
            stop: place + self.taken as u64,
            bytes: &bytes[..self.taken],
        }
    }

    /// Takes the next token, and answers its kind.
    #[inline(always)]
    fn advance<S: Source>(&mut self, source: &mut S) -> Result<Option<TokenKind>, StreamFault>
        ensures { AnswersNext S.reads S.failures (borrowed_lexeme self.new) self.old source.old result
            self.new source.new }
    {
        if let Some(stop) = self.stop {
            return stop.answer();
        }
        let result = self.take_token(source);
        self.stop = match result {
            Ok(Some(_)) => None,
            Ok(None) => Some(LastAnswer::End),
            Err(fault) => Some(LastAnswer::Fault(fault)),
        };
        result
    }

    /// Gives up the token before, skips the gap, and takes the next token.
    #[inline(always)]
    fn take_token<S: Source>(&mut self, source: &mut S) -> Result<Option<TokenKind>, StreamFault>
        requires { self.old.stop ≡ None }
        ensures next { TakesNext S.reads S.failures self.old source.old result self.new source.new }
        ensures stop { self.new.stop ≡ None }
    {
        self.bytes.consume(self.taken);
        self.taken = 0;
        match self.bytes.skip_gap(source) {
            Ok(true) => {}
            Ok(false) => {
                return match self.bytes.ending() {
                    None => Ok(None),
                    Some(fault) => Err(StreamFault::Token(fault)),
                };
            }
            Err(_) => return Err(StreamFault::Device),
        }
        let front = match self.bytes.scan_lexeme(source) {
            Ok(front) => front,
            Err(_) => return Err(StreamFault::Device),
        };
        match token_of(front, self.bytes.visible(), self.bytes.place()) {
            Ok(token) => {
                let kind = token.kind;
                self.taken = token.bytes.len();
                Ok(Some(kind))
            }
            Err(fault) => Err(StreamFault::Token(fault)),
        }
    }
}

/// The bytes that were read and not yet taken, and where they stand in the text.
#[derive(Drop)]
pub struct StreamBytes {
    window: Window,
    place: u64,
    limit: u64,
    is_whole: bool,
}

impl Model for StreamBytes {
    ghost use Rattle.std.specs.Prelude.{◌≤◌};
    ghost use Rattle.polcert_text.specs.Stream.{Ahead};

    ghost Value = { Ahead };

    ghost view = { λ b. record { place = b.place; kept = b.window; limit = b.limit; is_whole = b.is_whole } };

    ghost invariant = { λ b. b.place ≤ b.limit };
}

impl StreamBytes {
    ghost use Rattle.std.specs.Prelude.{◌≤◌, ◌⊎◌, OnErr, OnOk, IfOk, Option};
    ghost use Rattle.polcert_text.specs.declared.tokens.LexemePrefix.{LexemePrefix};

    /// Makes the state before the first byte of a text.
    pub fn new(limit: u64) -> StreamBytes
        ensures { result ≡ (let a : Ahead = record { place = 0; kept = []; limit = limit; is_whole = false }
            in a) }
    {
        StreamBytes {
            window: Window::new(),
            place: 0,
            limit,
            is_whole: false,
        }
    }

    /// Returns the offset in the text of the first byte that is not taken yet.
    #[inline(always)]
    pub fn place(&self) -> u64
        ensures { result ≡ self.now.place }
    {
        self.place
    }

    /// Returns the fault of a text that continues at the limit, or `None` if it ends cleanly. Called if no byte below the limit is left.
    pub fn ending(&self) -> Option<TokenFault>
        ensures { result ≡ end_of self.now }
    {
        if self.window.as_bytes().is_empty() {
            None
        } else {
            Some(TokenFault::TextTooLong(self.limit))
        }
    }

    /// Returns the bytes that were read and not yet taken, up to the limit.
    #[inline(always)]
    pub fn visible(&self) -> &[u8]
        ensures bytes { result.now ≡ visible self.now }
        ensures below { self.now.place + length (visible self.now) ≤ self.now.limit }
        ensures fits { self.now.place + length (visible self.now) < 2 ^ 64 }
    {
        let bytes = self.window.as_bytes();
        let room = self.limit - self.place;
        if room < bytes.len() as u64 {
            &bytes[..room as usize]
        } else {
            bytes
        }
    }

    /// Takes bytes off the front.
    #[inline(always)]
    pub fn consume(&mut self, count: usize)
        requires { count ≤ length (visible self.old) }
        ensures { self.new ≡ skip count self.old }
    {
        self.window.consume(count);
        self.place += count as u64;
    }

    /// Reads once into the window. `false`: the source is at its true end.
    fn fill<S: Source>(&mut self, source: &mut S) -> Result<bool, SourceFailed>
        requires { length self.old.kept < 4096 }
        ensures ok { IfOk result
            (λ is_more. Fills S.reads S.failures self.old source.old is_more self.new source.new) }
        ensures err { OnErr result (FailsAt S.reads S.failures source.old source.new) }
    {
        match self.window.fill(source) {
            Ok(count) => {
                self.is_whole = count == 0;
                Ok(count > 0)
            }
            Err(error) => Err(error),
        }
    }

    /// Tests whether the gap may continue with a byte that is not read yet: none is left, and the true end was not seen.
    #[inline(always)]
    fn lacks_byte(&self) -> bool
        ensures lacks { result ≡ true → (length self.now.kept ≡ 0) × (self.now.is_whole ≡ false) }
        ensures has { result ≡ false → (self.now.is_whole ≡ true) ⊎ (0 < length self.now.kept) }
    {
        if self.is_whole {
            return false;
        }
        self.window.as_bytes().is_empty()
    }

    /// Takes the bytes that continue the gap off the front, and returns the state of the gap after them.
    #[inline(always)]
    fn skip_seen(&mut self, gap: Gap) -> Gap
        requires { gap ≡ Gap.Ended → ⊥ }
        ensures below { self.old.place ≤ self.old.limit }
        ensures skipped { (n : ℕ) × (n ≤ length (visible self.old)) × (self.new ≡ skip n self.old)
            × (gap_through gap (take n self.old.kept) ≡ result) × (result ≡ Gap.Ended → ⊥)
            × (n < length (visible self.old)
            → gap_after result (class_of (slice_index self.old.kept n)) ≡ Gap.Ended) }
    {
        let (count, next) = gap_prefix(gap, self.visible());
        self.consume(count);
        next
    }

    /// Takes the gap off the front. `true`: a byte below the limit comes after it. `false`: the text ends, or is at the limit.
    #[inline(always)]
    pub fn skip_gap<S: Source>(&mut self, source: &mut S) -> Result<bool, SourceFailed>
        ensures { SkipsGapOrFails S.reads S.failures self.old source.old result self.new source.new }
    {
        let mut gap = self.skip_seen(Gap::Between);
        while self.lacks_byte() {
            match self.fill(source) {
                Ok(true) => gap = self.skip_seen(gap),
                Ok(false) => return Ok(false),
                Err(error) => return Err(error),
            }
        }
        Ok(!self.visible().is_empty())
    }

    /// Tests whether another read could change the lexeme at the front.
    fn lacks_lexeme(&self, scan: LexemeScan) -> bool
        ensures lacks { result ≡ true → (self.now.is_whole ≡ false)
            × (self.now.place + length self.now.kept < self.now.limit)
            × (is_over scan.state ≡ false) × (front_len scan.longest ≤ 400) }
        ensures has { result ≡ false
            → IsReadToLimit self.now ⊎ ((is_over scan.state ≡ true) ⊎ (400 < front_len scan.longest)) }
    {
        if self.is_whole {
            return false;
        }
        if self.limit - self.place <= self.window.as_bytes().len() as u64 {
            return false;
        }
        !scan.is_known()
    }

    /// Returns the lexeme at the front, the longest or one that is too long, and reads as far as that takes. `None`: no lexeme begins
    /// there.
    #[inline(always)]
    pub fn scan_lexeme<S: Source>(
        &mut self,
        source: &mut S,
    ) -> Result<Option<LexemePrefix>, SourceFailed>
        ensures { ScansLexemeOrFails S.reads S.failures self.old source.old result self.new source.new }
    {
        match delimited_lexeme(self.visible()) {
            Some(front) => Ok(Some(front)),
            None => self.scan_on(source),
        }
    }

    /// Returns what `scan_lexeme` does, byte by byte and with further reads: called if the lexeme doesn't end in the buffer or isn't
    /// simple.
    #[inline(never)]
    fn scan_on<S: Source>(&mut self, source: &mut S) -> Result<Option<LexemePrefix>, SourceFailed>
        ensures { ScansLexemeOrFails S.reads S.failures self.old source.old result self.new source.new }
    {
        let mut scan = LexemeScan::new().scan_over(self.visible());
        while self.lacks_lexeme(scan) {
            match self.fill(source) {
                Ok(true) => scan = scan.scan_over(self.visible()),
                Ok(false) => return Ok(scan.longest()),
                Err(error) => return Err(error),
            }
        }
        Ok(scan.longest())
    }
}

/// Up to 4,096 bytes, kept in the value itself. They are taken at the front, and come from a source after. Contracts
/// see them as a list.
#[derive(Drop)]
pub struct Window {
    bytes: [u8; BUFFER_SIZE],
    start: usize,
    end: usize,
}

impl Model for Window {
    ghost use Rattle.std.specs.Prelude.{List, ℕ, take, drop, ◌-◌, ◌≤◌};

    ghost Value = { List ℕ };

    ghost view = { λ w. take (w.end - w.start) (drop w.start w.bytes) };

    ghost invariant = { λ w. (w.start ≤ w.end) × (w.end ≤ 4096) };
}

impl Window {
    /// Makes an empty window.
    pub fn new() -> Window
        ensures { result ≡ [] }
    {
        Window {
            bytes: [0; BUFFER_SIZE],
            start: 0,
            end: 0,
        }
    }

    /// Returns the bytes, in the order in which they came.
    #[inline(always)]
    pub fn as_bytes(&self) -> &[u8]
        ensures bytes { result.now ≡ self.now }
        ensures few { length self.now ≤ 4096 }
    {
        &self.bytes[self.start..self.end]
    }

    /// Takes bytes off the front.
    #[inline(always)]
    pub fn consume(&mut self, count: usize)
        requires { count ≤ length self.old }
        ensures { self.new ≡ drop count self.old }
    {
        self.start += count;
    }

    /// Puts the bytes of one read after those that it has, and answers how many they are; none come at the true end.
    pub fn fill<S: Source>(&mut self, source: &mut S) -> Result<usize, SourceFailed>
        requires { length self.old < 4096 }
        ensures ok { IfOk result (λ count. (given : List ℕ)
            × (self.new ≡ self.old ++ given)
            × (count ≡ length given)
            × ((room : ℕ) × (0 < room) × S.reads source.old room (Some given) source.new)) }
        ensures same_count { OnOk result (S.failures source.new ≡ S.failures source.old) }
        ensures err { OnErr result (FailsAt S.reads S.failures source.old source.new) }
    {
        self.bytes.copy_within(self.start..self.end, 0);
        self.end -= self.start;
        self.start = 0;
        match source.read(&mut self.bytes[self.end..]) {
            Ok(count) => {
                self.end += count;
                Ok(count)
            }
            Err(error) => Err(error),
        }
    }
}
