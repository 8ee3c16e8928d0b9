//! Laws of the definitions: each function has an empty body, and its contract is the law. Nothing calls them: they are for readers, and for
//! proofs to cite.
ghost use Rattle.std.specs.Prelude.{◌≡◌, ◌≢◌, ℕ, List, ℤ, pos, Option, Some, None, ◌+◌, ◌≤◌, ◌++◌, ◌∷◌, [], true, false, length};
ghost use Rattle.std.specs.List.{list_any};
ghost use Rattle.polcert_text.specs.Cut.{Lexeme};
ghost use Rattle.polcert_text.specs.declared.tokens.TokenFault.{TokenFault};
ghost use Rattle.polcert_cells.specs.declared.entries.Table.{Table};
ghost use Rattle.polcert_cells.specs.Numbers.{AreNumbers};
ghost use Rattle.polcert_cells.specs.declared.elements.Elements.{Elements};
ghost use Rattle.polcert_cells.specs.Elements.{StandsFor, count_of};
ghost use Rattle.polcert_cells.specs.Preamble.{Preamble, observed};
ghost use Rattle.polcert_cells.specs.Entry.{IsEntry};
ghost use Rattle.polcert_cells.specs.declared.entries.Entry.{Entry};
ghost use Rattle.polcert_cells.specs.declared.elements.StartWeights.{StartWeights};
ghost use Rattle.polcert_cells.specs.Start.{IsStart};
ghost use Rattle.polcert_cells.specs.Meaning.{Meaning, IsSame, HasLimitedNumbers};
ghost use Rattle.polcert_format.specs.Text.{Denotes, IsModelText, ModelSoFar, nothing_known, IsComplete, IsRight, AreRight, IsRightText};
ghost use Rattle.polcert_cells.specs.declared.entries.Table.TheVariants.{Reward};
ghost use Rattle.polcert_cells.specs.Cells.{covers, weight, reward};
ghost use Rattle.polcert_format.specs.Laws.{HasDivision, HasOneDivision};
ghost use Rattle.polcert_cells.specs.Laws.{GivesLastCovering, OneMoreWeight, OneMoreReward, UniformRowSums};
ghost use Rattle.polcert_cells.specs.declared.words.Topic.{Topic};
ghost use Rattle.polcert_cells.specs.Words.{topic, begins_item};
ghost use Rattle.polcert_format.specs.Reading.{AreRightItems, IsWithinItem, CannotGoOn, IsWrong};
ghost use Rattle.polcert_format.specs.FirstNumber.{IsLateIn};
ghost use Rattle.polcert_format.specs.FirstWrong.{TextTokens, text_tokens, IsFirstWrong, IsDecided, AreTokensOf, HasTokens, word_place, LiesInItem};
ghost use Rattle.polcert_format.specs.declared.fault.ItemFault.{ItemFault};
ghost use Rattle.polcert_format.specs.Order.{preamble_fault, word_fault};
ghost use Rattle.polcert_format.specs.declared.fault.ModelFault.{ModelFault};
ghost use Rattle.polcert_format.specs.Refusals.{IsRefusal, SaysOfText, StandsRight, place_or};
ghost use Rattle.polcert_format.specs.RefusedTexts.{IsRefusedModelText};
ghost use Rattle.polcert_format.specs.Items.{Item, IsDivided};
ghost use Rattle.polcert_format.specs.Forms.{PassesCellLimit, IsPossible};
ghost use Rattle.polcert_format.specs.Limits.{HasFewPairs, HasFewCells};
ghost use Rattle.polcert_format.specs.Printable.{IsPrintable};
ghost use Rattle.polcert_format.specs.Reasons.{IsReason, PassesLimit};

/// Each list of lexemes is divided into items in just one way.
pub fn one_division()
    ensures some { (lexemes : List Lexeme) → HasDivision lexemes }
    ensures one { (lexemes : List Lexeme) → HasOneDivision lexemes }
{}

/// A lexeme stands for at most one element.
pub fn one_element()
    ensures { (elements : Elements) (l : Lexeme) (i j : ℕ) → StandsFor elements l i → StandsFor elements l j
        → i ≡ j }
{}

/// Lexemes are at most one list of numbers.
pub fn one_list_of_numbers()
    ensures { (lexemes : List Lexeme) (x y : List ℤ) → AreNumbers lexemes x → AreNumbers lexemes y → x ≡ y }
{}

/// The lexemes after the word of a table are at most one entry.
pub fn one_entry()
    ensures { (p : Preamble) (table : Table) (lexemes : List Lexeme) (x y : Entry) →
        IsEntry p table lexemes x → IsEntry p table lexemes y → x ≡ y }
{}

/// The lexemes after `start` give at most one start.
pub fn one_start()
    ensures { (states : Elements) (lexemes : List Lexeme) (x y : StartWeights) →
        IsStart states lexemes x → IsStart states lexemes y → x ≡ y }
{}

/// A cell has one value: that of the last entry that covers it.
pub fn one_cell_value()
    ensures { (entries : List Entry) (table : Table) (indices : List ℕ)
        → GivesLastCovering entries table indices }
{}

/// A cell that no entry covers is 0.
pub fn uncovered_is_zero()
    ensures weight { (p : Preamble) (entries : List Entry) (table : Table) (indices : List ℕ) →
        list_any (covers table indices) entries ≡ false → weight p entries table indices ≡ 0 }
    ensures reward { (p : Preamble) (entries : List Entry) (indices : List ℕ) →
        list_any (covers Reward indices) entries ≡ false → reward p entries indices ≡ pos 0 }
{}

/// A further entry gives its value to the cells that it covers, and the others keep theirs.
pub fn one_more_entry()
    ensures weight { (p : Preamble) (entries : List Entry) (entry : Entry) (table : Table)
        (indices : List ℕ) →
        OneMoreWeight p entries entry table indices }
    ensures reward { (p : Preamble) (entries : List Entry) (entry : Entry) (indices : List ℕ) →
        OneMoreReward p entries entry indices }
{}

/// A row that one `uniform` covers sums to its scale.
pub fn uniform_sums_to_scale()
    ensures { (p : Preamble) (entries : List Entry) (entry : Entry) (table : Table) (row : List ℕ)
        → UniformRowSums p entries entry table row }
{}

/// Lexemes denote at most one model, and so does a text.
pub fn one_model()
    ensures lexemes { (lexemes : List Lexeme) (m n : Meaning) → Denotes lexemes m → Denotes lexemes n
        → IsSame m n }
    ensures text { (text : List ℕ) (m n : Meaning) → IsModelText text m → IsModelText text n → IsSame m n }
{}

/// Each text has tokens, and they end in one way.
pub fn one_list_of_tokens()
    ensures some { (text : List ℕ) → HasTokens text }
    ensures one { (text : List ℕ) (ts us : TextTokens) → AreTokensOf text ts → AreTokensOf text us → ts ≡ us }
{}

/// A right text is read in one way: one preamble, one start and one list of entries.
pub fn one_right_text()
    ensures { (lexemes : List Lexeme) (p q : Preamble) (x y : ModelSoFar) →
        IsRightText lexemes p x → IsRightText lexemes q y → (p ≡ q) × (x ≡ y) }
{}

/// What lexemes denote is within its limits.
pub fn within_limits()
    ensures { (lexemes : List Lexeme) (m : Meaning) → Denotes lexemes m → HasLimitedNumbers m }
{}

/// If the last item is right with the lexemes so far, these are right items.
pub fn right_item_ends()
    ensures { (seen body : List Lexeme) (k after : ModelSoFar) (t : Topic) →
        IsWithinItem seen k t body → IsRight k t body after → AreRightItems seen after }
{}

/// After right items, the item that is the first wrong one is settled by the lexemes taken so far, however the text
/// continues: an item that cannot continue, one that isn't right where the next begins or the text ends, and one in which
/// the tokens end in a fault.
pub fn first_wrong_stays()
    ensures within { (seen body : List Lexeme) (k : ModelSoFar) (t : Topic) (w : IsWithinItem seen k t body) →
        CannotGoOn k t body → (more : List Lexeme) (ending : Option TokenFault) (stop : ℕ) →
        IsFirstWrong (text_tokens (seen ++ more) ending stop) (length w.items.items + 1) }
    ensures at_word { (seen body : List Lexeme) (k : ModelSoFar) (t : Topic) (next : Lexeme)
        (w : IsWithinItem seen k t body) →
        IsWrong k t body → begins_item next ≡ true →
        (more : List Lexeme) (ending : Option TokenFault) (stop : ℕ) →
        IsFirstWrong (text_tokens (seen ++ next ∷ more) ending stop) (length w.items.items + 1) }
    ensures at_end { (seen body : List Lexeme) (k : ModelSoFar) (t : Topic) (w : IsWithinItem seen k t body) →
        IsWrong k t body → (ending : Option TokenFault) (stop : ℕ) →
        IsFirstWrong (text_tokens seen ending stop) (length w.items.items + 1) }
    ensures at_fault { (seen body : List Lexeme) (k : ModelSoFar) (t : Topic) (w : IsWithinItem seen k t body)
        (fault : TokenFault) (stop : ℕ) →
        IsFirstWrong (text_tokens seen (Some fault) stop) (length w.items.items + 1) }
{}

/// What stands before the first item word is item 0, and the end is one more than the last item.
pub fn first_wrong_outside_items()
    ensures before { (l : Lexeme) → begins_item l ≡ false →
        (more : List Lexeme) (ending : Option TokenFault) (stop : ℕ)
        → IsFirstWrong (text_tokens (l ∷ more) ending stop) 0 }
    ensures at_once { (fault : TokenFault) (stop : ℕ) → IsFirstWrong (text_tokens [] (Some fault) stop) 0 }
    ensures following { (seen : List Lexeme) (k : ModelSoFar) (r : AreRightItems seen k) →
        ((p : Preamble) → IsComplete k p → ⊥) → (stop : ℕ) →
        IsFirstWrong (text_tokens seen None stop) (length r.items + 1) }
{}

/// A text with a first wrong item isn't right.
pub fn first_wrong_is_not_right()
    ensures { (ts : TextTokens) (n : ℕ) (p : Preamble) (k : ModelSoFar) →
        IsFirstWrong ts n → ts.ending ≡ None → IsRightText ts.lexemes p k → ⊥ }
{}

/// At most one item is the first that isn't right.
pub fn one_first_wrong()
    ensures { (ts : TextTokens) (m n : ℕ) → IsFirstWrong ts m → IsFirstWrong ts n → m ≡ n }
{}

/// What is decided at an item's word is so: with such a fault no body makes the item right, and at the end the
/// preamble isn't complete; without one the preamble is complete.
pub fn order_is_decided()
    ensures at_word { (k : ModelSoFar) (t : Topic) (fault : ItemFault) (body : List Lexeme) →
        word_fault k t ≡ Some fault → IsWrong k t body }
    ensures incomplete { (k : ModelSoFar) (p : Preamble) (fault : ItemFault) → preamble_fault k ≡ Some fault
        → IsComplete k p → ⊥ }
    ensures complete { (k : ModelSoFar) → preamble_fault k ≡ None → ((p : Preamble) × IsComplete k p) }
{}

/// What is decided before an item's body is read is one kind and one place, and nothing is decided where the item's
/// word may stand.
pub fn one_decision()
    ensures one { (ts : TextTokens) (n : ℕ) (f g : ItemFault) (p q : ℕ) →
        IsDecided ts n f p → IsDecided ts n g q → (f ≡ g) × (p ≡ q) }
    ensures nothing { (ts : TextTokens) (before : List Item) (item : Item) (after : List Item)
        (k : ModelSoFar) (t : Topic) (f : ItemFault) (p : ℕ) →
        IsDivided ts.lexemes [] (before ++ item ∷ after) → AreRight nothing_known before k →
        topic item.word ≡ Some t → word_fault k t ≡ None → IsDecided ts (length before + 1) f p → ⊥ }
{}

/// What is wrong with a start item's first number, if it is due only after the number, is one kind at one place, and
/// nothing is decided before the item's body.
pub fn one_late_refusal()
    ensures one { (ts : TextTokens) (n : ℕ) (f g : ItemFault) (p q : ℕ) →
        IsLateIn ts n f p → IsLateIn ts n g q → (f ≡ g) × (p ≡ q) }
    ensures undecided { (ts : TextTokens) (n : ℕ) (f g : ItemFault) (p q : ℕ) → IsLateIn ts n f p
        → IsDecided ts n g q → ⊥ }
{}

/// An entry that gives too many cells isn't right, though all of its body is possible; nothing is decided before its body, and no
/// refusal of it has another kind or place.
pub fn one_refusal_of_cells()
    ensures wrong { (k : ModelSoFar) (t : Topic) (body : List Lexeme) → PassesCellLimit k t body
        → IsWrong k t body }
    ensures possible { (k : ModelSoFar) (t : Topic) (body : List Lexeme) → PassesCellLimit k t body
        → IsPossible k t body }
    ensures one { (ts : TextTokens) (n p q : ℕ) → PassesLimit ts n p → PassesLimit ts n q → p ≡ q }
    ensures undecided { (ts : TextTokens) (n p q : ℕ) (g : ItemFault) → PassesLimit ts n p
        → IsDecided ts n g q → ⊥ }
    ensures only { (ts : TextTokens) (kind : ItemFault) (n p q : ℕ) → PassesLimit ts n p →
        IsReason ts n q kind → StandsRight ts kind n q →
        (kind ≡ ItemFault.TooManyCells) × (q ≡ p) }
{}

/// If there are at most 1,000 states and 1,000 observations and no table has more cells than are printed, no limit of cells is
/// passed, whatever the entries are.
pub fn small_models_are_within_limits()
    ensures pairs { (p : Preamble) → count_of p.states ≤ 1000 → count_of (observed p) ≤ 1000 → HasFewPairs p }
    ensures cells { (p : Preamble) (es : List Entry) → IsPrintable p → HasFewCells p es }
{}

/// A text that is refused, except out of memory, isn't the text of a model.
pub fn refused_is_not_accepted()
    ensures { (text : List ℕ) (ts : TextTokens) (fault : ModelFault) (m : Meaning) →
        AreTokensOf text ts → IsRefusal ts fault → SaysOfText fault → IsModelText text m → ⊥ }
{}

/// A text is refused as a model for at most one reason, and at one place, running out of memory aside.
pub fn one_model_refusal()
    ensures { (text : List ℕ) (f g : ModelFault) → f ≢ ModelFault.Memory → g ≢ ModelFault.Memory →
        IsRefusedModelText f text → IsRefusedModelText g text → f ≡ g }
{}

/// The places of a text's tokens rise. So the place where a part of an item's body was taken lies in the item, and so
/// does that of its word, of what stands before all items, and of the end.
pub fn places_lie_in_items()
    ensures in_body { (text : List ℕ) (ts : TextTokens) (before : List Item) (item : Item) (after : List Item)
        (taken rest : List Lexeme) → AreTokensOf text ts → IsDivided ts.lexemes [] (before ++ item ∷ after) →
        item.body ≡ taken ++ rest → LiesInItem ts (length before + 1)
        (place_or rest (word_place after ts.end 0)) }
    ensures at_word { (text : List ℕ) (ts : TextTokens) (before : List Item) (item : Item)
        (after : List Item) →
        AreTokensOf text ts → IsDivided ts.lexemes [] (before ++ item ∷ after) →
        LiesInItem ts (length before + 1) item.word.place }
    ensures before_items { (text : List ℕ) (ts : TextTokens) (l : Lexeme) (ls : List Lexeme)
        (items : List Item) →
        AreTokensOf text ts → IsDivided ts.lexemes (l ∷ ls) items → LiesInItem ts 0 l.place }
    ensures at_end { (ts : TextTokens) (items : List Item) →
        IsDivided ts.lexemes [] items → LiesInItem ts (length items + 1) ts.end }
{}
