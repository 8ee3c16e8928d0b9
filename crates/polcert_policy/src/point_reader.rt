//! Reads belief points.
ghost use Rattle.std.specs.Prelude.{◌≡◌, ℕ, suc, ◌+◌, ◌<◌, ◌≤◌, ◌⊎◌, true, List, IfErr, MatchResult, OnOk, length};
ghost use Rattle.polcert_cells.specs.Elements.{most_states, most_actions, most_observations};
ghost use Rattle.polcert_text.specs.Cut.{Lexeme};
ghost use Rattle.polcert_text.specs.Reading.{lexeme_of};
ghost use Rattle.polcert_text.specs.ReadTexts.{ReadsText};
ghost use Rattle.polcert_policy.specs.Fields.{numeral_kind};
ghost use Rattle.polcert_policy.specs.Vectors.{sign_kind};
ghost use Rattle.polcert_policy.specs.Points.{IsMass};
ghost use Rattle.polcert_policy.specs.PointTokens.{nothing_read, TakesNumber, TakesWeight, TakesValue, TakesName};
ghost use Rattle.polcert_policy.specs.PointTokens.{TakesSign, TakesField, TakesAll, IsWeight, IsRefusedWeight};
ghost use Rattle.polcert_policy.specs.PointTokens.{IsWrongNumber, IsWrongWeight, IsWrongValue, IsWrongName};
ghost use Rattle.polcert_policy.specs.PointTokens.{IsWrongField, IsWrongPoint, IsApart, IsJoined, TakesPointToken};
ghost use Rattle.polcert_policy.specs.PointTokens.{after_weight, field_after_name, is_negated, value_place};
ghost use Rattle.polcert_policy.specs.PointTokens.{sign_of};
ghost use Rattle.polcert_policy.specs.PointText.{ArePointTokens, IsPointsText, IsNoPointsText, IsPointsRefusal};
ghost use Rattle.polcert_policy.specs.PointText.{IsRefusedPointsText};
ghost use Rattle.polcert_policy.specs.Steps.PointsRead.{so_far, HasShape, IsMemoryOr, IsRightNumber, ReadWeight};
ghost use Rattle.polcert_policy.specs.Steps.PointsRead.{IsPointsEnd};
ghost use Rattle.polcert_policy.specs.declared.points_reading.PointField.TheVariants as fields;

use crate::fault::PointFault;
use crate::graph::{Successor, first_beyond, minus_of, push, successor_of, whole_of};
use crate::points::PointSet;
use crate::points_reading::{PointField, PointsReading};
use crate::vectors::OpenSign;
use crate::weight_rows::WeightRows;
use polcert_cells::{Cell, ONE};
use polcert_text::{
    NumberFault, Rounding, SliceSource, Source, SourceFault, StreamFault, StreamTokens, TEXT_LIMIT,
    Token, TokenKind, rounded_of,
};
use std::alloc::{AllocError, Global};

const MOST_POINTS: usize = 10_000;

/// Returns the numeral's value in millionths, rounded down, if it is at most 1.
fn weight_of_numeral(numeral: &[u8]) -> Result<u64, NumberFault>
    ensures { MatchResult result (IsWeight numeral.now) (IsRefusedWeight numeral.now) }
{
    let floor = rounded_of(Rounding::Down, false, numeral)?;
    if floor < ONE as i64 {
        return Ok(floor as u64);
    }
    let ceiling = rounded_of(Rounding::Up, false, numeral)?;
    if ceiling > ONE as i64 {
        return Err(NumberFault::TooLarge);
    }
    Ok(floor as u64)
}

/// Returns the weight that the token is, or its refusal.
fn read_weight(token: Token<'_>) -> Result<u64, PointFault>
    ensures { ReadWeight (lexeme_of token.entry) result }
{
    match token.kind {
        TokenKind::Numeral => match weight_of_numeral(token.bytes) {
            Ok(weight) => Ok(weight),
            Err(fault) => Err(PointFault::Number {
                fault,
                place: token.place,
            }),
        },
        _ => Err(PointFault::BadShape(token.place)),
    }
}

impl PointsReading {
    /// Makes the state before the first token.
    fn new(alloc: Global, states: usize, actions: usize, observations: usize) -> Self
        requires some_states { 1 ≤ states }
        requires few_states { states ≤ most_states }
        requires some_actions { 1 ≤ actions }
        requires few_actions { actions ≤ most_actions }
        requires some_observations { 1 ≤ observations }
        requires few_observations { observations ≤ most_observations }
        ensures nothing { so_far result ≡ nothing_read }
        ensures shape { HasShape states actions observations result }
    {
        PointsReading {
            states,
            actions,
            observations,
            field: PointField::Number,
            sign: None,
            minus: None,
            mass: 0,
            rows: WeightRows::new(alloc),
            values: Vec::new(alloc),
            names: Vec::new(alloc),
        }
    }

    /// Refuses a token that isn't the number of the next point, or a point too many.
    fn check_number(&self, token: Token<'_>) -> Result<(), PointFault>
        ensures { MatchResult result (λ _. IsRightNumber (so_far self.now) (lexeme_of token.entry))
            (IsWrongNumber (so_far self.now) (lexeme_of token.entry)) }
    {
        if self.rows.len() >= MOST_POINTS {
            return Err(PointFault::TooManyPoints(token.place));
        }
        match whole_of(token) {
            None => Err(PointFault::BadShape(token.place)),
            Some(number) => {
                if number == self.rows.len() {
                    Ok(())
                } else {
                    Err(PointFault::PointOutOfOrder(token.place))
                }
            }
        }
    }

    /// Takes the number of a point.
    fn take_number(&mut self, token: Token<'_>) -> Result<(), PointFault>
        ensures takes { MatchResult result
            (λ _. TakesNumber (so_far self.old) (lexeme_of token.entry) (so_far self.new))
            (IsWrongNumber (so_far self.old) (lexeme_of token.entry)) }
        ensures shape { HasShape self.old.states self.old.actions self.old.observations self.new }
    {
        self.check_number(token)?;
        self.field = PointField::Weight(0);
        self.mass = 0;
        Ok(())
    }

    /// Adds the weight of state `s`, and continues to the next field.
    fn add_weight(&mut self, s: usize, weight: u64) -> Result<(), AllocError>
        requires field { self.old.field ≡ fields.Weight s }
        requires small { weight ≤ 1_000_000 }
        ensures added { OnOk result
            (so_far self.new ≡ after_weight self.old.states s weight (so_far self.old)) }
        ensures shape { HasShape self.old.states self.old.actions self.old.observations self.new }
    {
        if weight > 0 {
            self.rows.push(Cell { column: s, weight })?;
        }
        if s + 1 == self.states {
            self.rows.end_row()?;
            self.field = PointField::Value(0);
        } else {
            self.field = PointField::Weight(s + 1);
        }
        self.mass += weight;
        Ok(())
    }
}

impl PointsReading {
    /// Refuses a sum of weights that is nothing or more than 1, if this is the last weight.
    fn check_mass(&self, s: usize, weight: u64, place: u64) -> Result<(), PointFault>
        requires field { self.now.field ≡ fields.Weight s }
        requires small { weight ≤ 1_000_000 }
        ensures { MatchResult result (λ _. suc s ≡ self.now.states → IsMass (self.now.mass + weight))
            (λ fault. (fault ≡ PointFault.WrongMass place) × (suc s ≡ self.now.states)
            × (IsMass (self.now.mass + weight) → ⊥)) }
    {
        let mass = self.mass + weight;
        if s + 1 < self.states {
            return Ok(());
        }
        if mass == 0 {
            return Err(PointFault::WrongMass(place));
        }
        if mass > 1_000_000 {
            return Err(PointFault::WrongMass(place));
        }
        Ok(())
    }

    /// Takes the weight of state `s`.
    fn take_weight(&mut self, s: usize, token: Token<'_>) -> Result<(), PointFault>
        requires field { self.old.field ≡ fields.Weight s }
        ensures takes { MatchResult result
            (λ _. TakesWeight self.old.states s (so_far self.old) (lexeme_of token.entry) (so_far self.new))
            (IsMemoryOr (IsWrongWeight self.old.states s (so_far self.old) (lexeme_of token.entry))) }
        ensures shape { HasShape self.old.states self.old.actions self.old.observations self.new }
    {
        let weight = read_weight(token)?;
        self.check_mass(s, weight, token.place)?;
        self.add_weight(s, weight)?;
        Ok(())
    }

    /// Tests whether a minus came before the next numeral.
    fn is_negated(&self) -> bool
        ensures { result ≡ is_negated self.now.sign }
    {
        match self.sign {
            None => false,
            Some(sign) => sign.is_negative,
        }
    }

    /// Returns where the value begins to which the token belongs.
    fn value_place(&self, token: Token<'_>) -> u64
        ensures { result ≡ value_place self.now.sign (lexeme_of token.entry) }
    {
        match self.sign {
            None => token.place,
            Some(sign) => sign.place,
        }
    }

    /// Takes a sign before a value, whose numeral is still to come. A second sign is refused at the first.
    fn take_sign(&mut self, sign: OpenSign) -> Result<(), PointFault>
        ensures takes { (t : Lexeme) → sign_kind t.kind ≡ true → sign ≡ sign_of t →
            MatchResult result (λ _. TakesSign (so_far self.old) t (so_far self.new))
            (IsWrongValue (so_far self.old) t) }
        ensures shape { HasShape self.old.states self.old.actions self.old.observations self.new }
    {
        match self.sign {
            Some(before) => Err(PointFault::BadShape(before.place)),
            None => {
                self.sign = Some(sign);
                Ok(())
            }
        }
    }

    /// Takes the numeral of the value of action `a`.
    fn take_numeral(&mut self, a: usize, token: Token<'_>) -> Result<(), PointFault>
        requires field { self.old.field ≡ fields.Value a }
        requires numeral { numeral_kind token.kind ≡ true }
        ensures takes { MatchResult result
            (λ _. TakesValue a (so_far self.old) (lexeme_of token.entry) (so_far self.new))
            (IsMemoryOr (IsWrongValue (so_far self.old) (lexeme_of token.entry))) }
        ensures shape { HasShape self.old.states self.old.actions self.old.observations self.new }
    {
        match rounded_of(Rounding::Up, self.is_negated(), token.bytes) {
            Err(fault) => Err(PointFault::Number {
                fault,
                place: self.value_place(token),
            }),
            Ok(value) => {
                push(&mut self.values, value)?;
                self.sign = None;
                self.field = PointField::Name {
                    action: a,
                    observation: 0,
                };
                Ok(())
            }
        }
    }

    /// Takes a sign or the numeral of the value of action `a`.
    fn take_value(&mut self, a: usize, token: Token<'_>) -> Result<(), PointFault>
        requires field { self.old.field ≡ fields.Value a }
        ensures takes { MatchResult result
            (λ _. TakesSign (so_far self.old) (lexeme_of token.entry) (so_far self.new)
            ⊎ TakesValue a (so_far self.old) (lexeme_of token.entry) (so_far self.new))
            (IsMemoryOr (IsWrongValue (so_far self.old) (lexeme_of token.entry))) }
        ensures shape { HasShape self.old.states self.old.actions self.old.observations self.new }
    {
        match token.kind {
            TokenKind::Numeral => self.take_numeral(a, token),
            TokenKind::Plus => self.take_sign(OpenSign {
                place: token.place,
                is_negative: false,
            }),
            TokenKind::Minus => self.take_sign(OpenSign {
                place: token.place,
                is_negative: true,
            }),
            _ => Err(PointFault::BadShape(self.value_place(token))),
        }
    }

    /// Continues after the point that is named for action `a` and observation `z`.
    fn advance(&mut self, a: usize, z: usize)
        requires field { self.old.field ≡ fields.Name a z }
        ensures advanced { so_far self.new ≡
            record (so_far self.old) { field = field_after_name self.old.actions self.old.observations a z } }
        ensures shape { HasShape self.old.states self.old.actions self.old.observations self.new }
    {
        self.field = if z + 1 < self.observations {
            PointField::Name {
                action: a,
                observation: z + 1,
            }
        } else if a + 1 < self.actions {
            PointField::Value(a + 1)
        } else {
            PointField::Number
        };
    }

    /// Takes the point that is named for action `a` and observation `z`, or that none is.
    fn take_name(&mut self, a: usize, z: usize, token: Token<'_>) -> Result<(), PointFault>
        requires field { self.old.field ≡ fields.Name a z }
        requires stop { token.stop ≡ token.place + length token.bytes.now }
        ensures takes { MatchResult result
            (λ _. TakesName self.old.actions self.old.observations a z (so_far self.old)
            (lexeme_of token.entry) (so_far self.new))
            (IsMemoryOr (IsWrongName (lexeme_of token.entry))) }
        ensures shape { HasShape self.old.states self.old.actions self.old.observations self.new }
    {
        let Some(name) = successor_of(token) else {
            return Err(PointFault::BadShape(token.place));
        };
        push(&mut self.names, Successor::of(name))?;
        self.minus = minus_of(token);
        self.advance(a, z);
        Ok(())
    }

    /// Takes the next token of a point.
    fn take_field(&mut self, token: Token<'_>) -> Result<(), PointFault>
        requires stop { token.stop ≡ token.place + length token.bytes.now }
        ensures takes { MatchResult result
            (λ _. TakesField self.old.states self.old.actions self.old.observations self.old.field
            (so_far self.old) (lexeme_of token.entry) (so_far self.new))
            (IsMemoryOr (IsWrongField self.old.states self.old.field (so_far self.old)
            (lexeme_of token.entry))) }
        ensures shape { HasShape self.old.states self.old.actions self.old.observations self.new }
    {
        match self.field {
            PointField::Number => self.take_number(token),
            PointField::Weight(s) => self.take_weight(s, token),
            PointField::Value(a) => self.take_value(a, token),
            PointField::Name {
                action,
                observation,
            } => self.take_name(action, observation, token),
        }
    }

    /// Refuses a numeral directly after a `-` that names no point.
    fn check_apart(&self, token: Token<'_>) -> Result<(), PointFault>
        ensures { MatchResult result (λ _. IsApart self.now.minus (lexeme_of token.entry))
            (IsJoined self.now.minus (lexeme_of token.entry)) }
    {
        match self.minus {
            None => Ok(()),
            Some(minus) => {
                if minus.is_joined(token) {
                    Err(PointFault::BadShape(minus.place))
                } else {
                    Ok(())
                }
            }
        }
    }

    /// Reads one more token.
    fn take(&mut self, token: Token<'_>) -> Result<(), PointFault>
        requires { token.stop ≡ token.place + length token.bytes.now }
        ensures takes { MatchResult result
            (λ _. TakesPointToken self.old.states self.old.actions self.old.observations (so_far self.old)
            (lexeme_of token.entry) (so_far self.new))
            (IsMemoryOr (IsWrongPoint self.old.states (so_far self.old) (lexeme_of token.entry))) }
        ensures shape { HasShape self.old.states self.old.actions self.old.observations self.new }
    {
        self.check_apart(token)?;
        self.minus = None;
        self.take_field(token)
    }

    /// Returns the points, if the text ends here.
    fn finish(self, end: u64) -> Result<PointSet, PointFault>
        requires { (seen : List Lexeme)
            × TakesAll self.states self.actions self.observations nothing_read seen (so_far self) }
        ensures { (seen : List Lexeme)
            → TakesAll self.states self.actions self.observations nothing_read seen (so_far self)
            → MatchResult result
            (ArePointTokens self.states self.actions self.observations seen)
            (IsPointsEnd self.states self.actions self.observations seen end) }
    {
        match self.field {
            PointField::Number => {}
            _ => return Err(PointFault::Truncated(end)),
        }
        if let Some(place) = first_beyond(&self.names, self.rows.len()) {
            let of_action = place / self.observations;
            return Err(PointFault::NextOutOfRange {
                point: of_action / self.actions,
                action: of_action % self.actions,
                observation: place % self.observations,
            });
        }
        Ok(PointSet::of(self))
    }
}

/// Reads belief points for a model of these counts, from a text in memory: one point after another, each with its number, a weight for each
/// state, and for each action its value and for each observation the number of the point that covers the belief after it, `-` or `X` where
/// none does. Weights are rounded down to whole millionths and values up. A text of no points is accepted.
///
/// # Errors
///
/// The first token or number that can't stand at its place (B1 to B5, B8): a value at its sign; a `-` that names no point and has a numeral
/// directly after it; weights that sum to nothing or to more than 1 at the last of them. A clean end of the text inside a point (B7), or
/// else the first by point, action and observation that names no point (B6). B9 where memory ran out.
pub fn read_points(
    alloc: Global,
    text: &[u8],
    states: usize,
    actions: usize,
    observations: usize,
) -> Result<PointSet, PointFault>
    requires some_states { 1 ≤ states }
    requires few_states { states ≤ most_states }
    requires some_actions { 1 ≤ actions }
    requires few_actions { actions ≤ most_actions }
    requires some_observations { 1 ≤ observations }
    requires few_observations { observations ≤ most_observations }
    ensures accepted { MatchResult result (IsPointsText states actions observations text.now)
        (IsNoPointsText states actions observations text.now) }
    ensures refused { IfErr result (IsPointsRefusal states actions observations text.now) }
{
    let mut source = SliceSource::new(text);
    match read_points_from(alloc, &mut source, states, actions, observations) {
        Ok(points) => Ok(points),
        Err(SourceFault::Refused(fault)) => Err(fault),
        Err(SourceFault::Device) => unreachable!(),
    }
}

/// Reads belief points, as `read_points` does, from the text that the source gives, to its true end. Nothing of the text is kept but the
/// points.
///
/// # Errors
///
/// `Device` if a read failed, and else what `read_points` refuses. A text that is refused before its source fails is refused.
pub fn read_points_from<S: Source>(
    alloc: Global,
    source: &mut S,
    states: usize,
    actions: usize,
    observations: usize,
) -> Result<PointSet, SourceFault<PointFault>>
    requires some_states { 1 ≤ states }
    requires few_states { states ≤ most_states }
    requires some_actions { 1 ≤ actions }
    requires few_actions { actions ≤ most_actions }
    requires some_observations { 1 ≤ observations }
    requires few_observations { observations ≤ most_observations }
    ensures read { ReadsText S.reads S.failures source.old source.new
        (IsPointsText states actions observations) (IsRefusedPointsText states actions observations) result }
{
    let mut tokens = StreamTokens::new(TEXT_LIMIT);
    let mut reading = PointsReading::new(alloc, states, actions, observations);
    loop {
        match tokens.next_token(source) {
            Ok(Some(token)) => {
                if let Err(fault) = reading.take(token) {
                    return Err(SourceFault::Refused(fault));
                }
            }
            Ok(None) => {
                return match reading.finish(tokens.place()) {
                    Ok(points) => Ok(points),
                    Err(fault) => Err(SourceFault::Refused(fault)),
                };
            }
            Err(StreamFault::Token(fault)) => {
                return Err(SourceFault::Refused(PointFault::Token(fault)));
            }
            Err(StreamFault::Device) => return Err(SourceFault::Device),
        }
    }
}
