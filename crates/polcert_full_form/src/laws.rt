//! Laws of the full form: each function has an empty body, and its contract is the law. Nothing calls them: they are for readers, and for
//! proofs to cite.
ghost use Rattle.std.specs.Prelude.{◌≡◌, ◌<◌, ℕ, List, length};
ghost use Rattle.polcert_text.specs.Cut.{text_limit};
ghost use Rattle.polcert_cells.specs.Meaning.{Meaning, IsSame};
ghost use Rattle.polcert_format.specs.FullForm.{full_form};
ghost use Rattle.polcert_format.specs.Printable.{IsPrintable};
ghost use Rattle.polcert_format.specs.Text.{IsModelText};
ghost use Rattle.polcert_tables.specs.Contents.{Contents, meaning};

/// Equal models have the same full form, and models of one full form are equal, if they are not too large to print.
pub fn one_full_form()
    ensures equal { (m n : Meaning) → IsSame m n → full_form m ≡ full_form n }
    ensures same { (text other : List ℕ) (m n : Meaning) → IsModelText text m → IsModelText other n →
        IsPrintable m.preamble → IsPrintable n.preamble → full_form m ≡ full_form n → IsSame m n }
{}

/// The full form of what a `Model` means is a text of it, and shorter than a text may be, if it is not too large to print. So
/// is that of whatever a text denotes.
pub fn full_form_reads_back()
    ensures short { (c : Contents) → IsPrintable (meaning c).preamble
        → length (full_form (meaning c)) < text_limit }
    ensures contents { (c : Contents) → IsPrintable (meaning c).preamble
        → IsModelText (full_form (meaning c)) (meaning c) }
    ensures text { (text : List ℕ) (m : Meaning) → IsModelText text m → IsPrintable m.preamble
        → IsModelText (full_form m) m }
{}
