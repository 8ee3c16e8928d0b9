//! Laws of the definitions, each the contract of a function with nothing to do. Nothing calls them: they are for readers, and for proofs to
//! cite.
ghost use Rattle.std.specs.Prelude.{◌≡◌, ℕ, Bool, Option, Some, None, Result, Err, List, ℤ, ◌≤ℤ◌, IfSome};
ghost use Rattle.std.specs.Io.KnownBytes.{Appends};
ghost use Rattle.polcert_text.specs.Cut.{Lexeme, Rest, TakesToken, Ends, IsCut, HasCut, text_rest, text_limit};
ghost use Rattle.polcert_text.specs.Tokens.{AreTokens};
ghost use Rattle.polcert_text.specs.Reading.{GivesNext};
ghost use Rattle.polcert_text.specs.Numbers.{IsReadable, IsExact, IsFloor, IsCeil, IsRounded, IsRefused, IsRefusedExactly};
ghost use Rattle.polcert_text.specs.Source.{IsText};
ghost use Rattle.polcert_text.specs.Sink.{Takes};
ghost use Rattle.polcert_text.specs.Memory.{ReadsSlice};
ghost use Rattle.polcert_text.specs.Known.{ReadsKnown, WritesKnown};

use crate::{NumberFault, ReaderSource, Rounding, Sink, Source, Token, TokenFault, WriterSink};
use std::fs::File;
use std::io::Printer;

/// A text has one cut: one list of tokens, and one end.
pub fn one_cut()
    ensures { (rest : Rest) (ss ts : List Lexeme) (x y : Option TokenFault) →
        IsCut rest ss x → IsCut rest ts y → (ss ≡ ts) × (x ≡ y) }
{}

/// A text has a cut.
pub fn some_cut()
    ensures { (rest : Rest) → HasCut rest }
{}

/// The tokens of a text without a fault are its cut, if that ends cleanly.
pub fn tokens_are_the_clean_cut()
    ensures cut { (text : List ℕ) (tokens : List Lexeme) →
        AreTokens text tokens → IsCut (text_rest text text_limit) tokens None }
    ensures tokens { (text : List ℕ) (tokens : List Lexeme) →
        IsCut (text_rest text text_limit) tokens None → AreTokens text tokens }
{}

/// At most one token comes next, and it leaves one rest.
pub fn one_next_token()
    ensures { (rest : Rest) (s t : Lexeme) (x y : Rest) →
        TakesToken rest s x → TakesToken rest t y → (s ≡ t) × (x ≡ y) }
{}

/// The rest of a text ends in one way if no token comes next, and does not end if one does.
pub fn one_end()
    ensures end { (rest : Rest) (x y : Option TokenFault) → Ends rest x → Ends rest y → x ≡ y }
    ensures no_token { (rest : Rest) (t : Lexeme) (following : Rest) (x : Option TokenFault) →
        TakesToken rest t following → Ends rest x → ⊥ }
{}

/// After a refusal or the clean end every further call of `Tokens::next_token` answers the same.
pub fn same_answer_again()
    ensures refusal { (old new later : Rest) (fault : TokenFault)
        (answer : Option (Result Token TokenFault)) →
        GivesNext old (Some (Err fault)) new → GivesNext new answer later →
        (answer ≡ Some (Err fault)) × (later ≡ new) }
    ensures clean_end { (old new later : Rest) (answer : Option (Result Token TokenFault)) →
        GivesNext old None new → GivesNext new answer later → (answer ≡ None) × (later ≡ new) }
{}

/// A sign and a numeral denote at most one whole number of millionths exactly, one rounded down, and one rounded up.
pub fn one_value()
    ensures exact { (negative : Bool) (bs : List ℕ) (h k : ℤ) →
        IsExact negative bs h → IsExact negative bs k → h ≡ k }
    ensures floor { (negative : Bool) (bs : List ℕ) (h k : ℤ) →
        IsFloor negative bs h → IsFloor negative bs k → h ≡ k }
    ensures ceil { (negative : Bool) (bs : List ℕ) (h k : ℤ) →
        IsCeil negative bs h → IsCeil negative bs k → h ≡ k }
{}

/// Rounding leaves a whole number of millionths as it is; and a value rounded down is at most the value rounded up.
pub fn rounding_either_way()
    ensures exact { (rounding : Rounding) (negative : Bool) (bs : List ℕ) (h : ℤ) →
        IsExact negative bs h → IsRounded rounding negative bs h }
    ensures ordered { (negative : Bool) (bs : List ℕ) (h k : ℤ) →
        IsFloor negative bs h → IsCeil negative bs k → h ≤ℤ k }
{}

/// Bytes are refused for one reason, and only if they are not readable, or have no exact value.
pub fn one_refusal()
    ensures exact { (negative : Bool) (bs : List ℕ) (f g : NumberFault) →
        IsRefusedExactly negative bs f → IsRefusedExactly negative bs g → f ≡ g }
    ensures floor { (bs : List ℕ) (f g : NumberFault) → IsRefused bs f → IsRefused bs g → f ≡ g }
    ensures no_value { (negative : Bool) (bs : List ℕ) (f : NumberFault) (h : ℤ) →
        IsReadable bs → IsExact negative bs h → IsRefusedExactly negative bs f → ⊥ }
    ensures unreadable { (bs : List ℕ) (f : NumberFault) → IsReadable bs → IsRefused bs f → ⊥ }
{}

/// The text of a slice that is read whole is the slice.
pub fn text_of_a_slice()
    ensures { (rest after text : List ℕ) → IsText ReadsSlice rest text after → text ≡ rest }
{}

/// The text of a reader of std that is read whole is what it had left, if that is known.
pub fn text_of_a_reader()
    ensures { (rest after : Option (List ℕ)) (text : List ℕ) →
        IsText ReadsKnown rest text after → IfSome rest (λ xs. text ≡ xs) }
{}

/// Shows a limit of what runs promise, and no proof cites it: every text fits a source over a file of the system, since std's contracts do
/// not say which bytes its reads give.
pub fn any_text_of_a_file()
    ensures { (old new : ReaderSource File) (text : List ℕ) →
        IsText ⟦<ReaderSource<File> as Source>⟧.reads old text new }
{}

/// Shows a limit of what runs promise, and no proof cites it: every text fits what a sink over standard output took, since std's contracts
/// do not say which bytes are printed.
pub fn any_text_of_standard_output<P: Print>()
    ensures { (old new : WriterSink (Printer P)) (text : List ℕ) →
        Takes ⟦<WriterSink<Printer<'static, P>> as Sink>⟧.writes old text new }
{}

/// A writer of std holds, after what it held, what it took, if that is known.
pub fn bytes_of_a_writer()
    ensures { (held after : Option (List ℕ)) (bytes : List ℕ) →
        Takes WritesKnown held bytes after → Appends held after bytes }
{}
