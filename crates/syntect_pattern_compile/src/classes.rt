//! Classes in brackets.
ghost use Rattle.std.specs.Prelude.{◌≡◌, ◌<◌, [], List, ℕ, true, length, nat_eq, chars, codes, option_map, IfOk, OnOk, IfSome};
ghost use Rattle.std.specs.List.{starts_with};
ghost use Rattle.syntect_pattern.specs.Sets.{Set, from_to, negate_if};
ghost use Rattle.syntect_pattern_table.specs.SetTable.{AreOrdered, set_in, sets, part_set, made_before, SetsGrow, HasSet};
ghost use Rattle.syntect_pattern_words.specs.MemberViews.{leaf_set, leafed, started};
ghost use Rattle.syntect_pattern.specs.Grammar.{dot_set};
ghost use Rattle.syntect_pattern.specs.Classes as definition;

use crate::syntect_values::seq::Seq;
use std::alloc::{AllocError, Global};
use syntect_pattern_table::sets::Part;
use syntect_pattern_words::members::{Leaf, Next, next_in, plain_item, posix_item};
use syntect_pattern_words::text::{after, begins};

/// Groups and classes nest at most this deep.
pub const DEEPEST: u32 = 200;

/// The parts of sets so far, each after those that it is made of.
#[derive(Drop)]
pub struct SetBuilder {
    pub parts: Seq<Part>,
    pub ghost ordered: { AreOrdered parts },
}

/// A class that is being read: the sides of `&&` before this one, and what this one has so far.
#[derive(Clone, Copy)]
pub struct Bracket {
    sides: Option<usize>,
    side: usize,
}

/// What one step makes of a class: it is over, or goes on.
#[derive(Clone, Copy)]
pub enum Step<'a> {
    Over(&'a str),
    On(Bracket, &'a str),
}

/// For how many parts of a class in brackets there is room from the start.
pub const BRACKET_ROOM: usize = 16;

/// For how many parts of a set without brackets there is room: one, and what negates it.
pub const SET_ROOM: usize = 2;

/// The part of the characters from the first to the last, with `fold` all of equal simple folding.
fn span_part(fold: bool, low: char, high: char) -> Part
    ensures alone { (k : ℕ) → made_before k result ≡ true }
    ensures same { (before : List Set) → part_set before result ≡ from_to fold low high }
{
    if fold {
        Part::Alike(low, high)
    } else {
        Part::Range(low, high)
    }
}

/// The part whose set an item adds, where that takes a single one.
pub fn part_of(leaf: Leaf) -> Option<Part>
    ensures single { IfSome result (λ p. made_before 0 p ≡ true) }
    ensures same { IfSome result (λ p. part_set [] p ≡ leaf_set leaf) }
{
    match leaf {
        Leaf::Span { fold, low, high } => Some(span_part(fold, low, high)),
        Leaf::Set { negated, set } => {
            if negated {
                None
            } else {
                Some(Part::Named(set))
            }
        }
    }
}

/// Whether the class is negated, and what comes after the `^`.
#[tactic(auto, unfolding(syntect_pattern::specs::Classes::start_of))]
fn start_of(text: &str) -> (bool, &str)
    ensures { definition.start_of (chars text.now) ≡ started result.0 (chars result.1.now) }
{
    if begins(text, &['^']) {
        (true, after(text, 1))
    } else {
        (false, text)
    }
}

impl SetBuilder {
    /// No parts, with room for so many.
    pub fn new(alloc: Global, room: usize) -> Result<SetBuilder, AllocError> {
        Ok(SetBuilder {
            parts: Seq::from_vec(Vec::with_capacity(alloc, room)?),
        })
    }

    /// Appends a part.
    fn push(&mut self, part: Part) -> Result<usize, AllocError>
        requires { made_before (length self.old.parts) part ≡ true }
        ensures grows { OnOk result (SetsGrow self.old.parts self.new.parts) }
        ensures has { IfOk result (λ k. HasSet self.new.parts k
            (part_set (sets self.old.parts) part)) }
    {
        let place = self.parts.len();
        self.parts.push(part)?;
        Ok(place)
    }

    /// Appends a set, negated if wanted.
    fn negate_if(&mut self, negated: bool, set: usize) -> Result<usize, AllocError>
        requires { set < length self.old.parts }
        ensures grows { OnOk result (SetsGrow self.old.parts self.new.parts) }
        ensures has { IfOk result (λ k. HasSet self.new.parts k
            (negate_if negated (set_in self.old.parts set))) }
    {
        if negated {
            self.push(Part::Negated(set))
        } else {
            Ok(set)
        }
    }

    /// Puts the set of `.` last, with `any` every character.
    pub fn push_dot(&mut self, any: bool) -> Result<usize, AllocError>
        ensures grows { OnOk result (SetsGrow self.old.parts self.new.parts) }
        ensures has { IfOk result (λ k. HasSet self.new.parts k (dot_set any)) }
    {
        if any {
            let none = self.push(Part::Nothing)?;
            self.push(Part::Negated(none))
        } else {
            let newline = self.push(Part::Range('\n', '\n'))?;
            self.push(Part::Negated(newline))
        }
    }

    /// Appends what an item adds.
    pub fn push_leaf(&mut self, leaf: Leaf) -> Result<usize, AllocError>
        ensures grows { OnOk result (SetsGrow self.old.parts self.new.parts) }
        ensures has { IfOk result (λ k. HasSet self.new.parts k (leaf_set leaf)) }
    {
        match leaf {
            Leaf::Span { fold, low, high } => self.push(span_part(fold, low, high)),
            Leaf::Set { negated, set } => {
                let part = self.push(Part::Named(set))?;
                self.negate_if(negated, part)
            }
        }
    }
}

impl SetBuilder {
    ghost use Rattle.syntect_pattern_compile.specs.ClassViews.{bracket_as, IsBracketIn, step_as, IsStepIn, begun, set_as, rest_of, step_of};

    /// A class with nothing in it.
    fn begin(&mut self) -> Result<Bracket, AllocError>
        ensures grows { OnOk result (SetsGrow self.old.parts self.new.parts) }
        ensures inside { IfOk result (λ o. IsBracketIn self.new.parts o) }
        ensures is { IfOk result (λ o. bracket_as self.new.parts o ≡ definition.empty_class) }
    {
        let side = self.push(Part::Nothing)?;
        Ok(Bracket { sides: None, side })
    }

    /// The class with a set more.
    fn add(&mut self, bracket: Bracket, set: usize) -> Result<Bracket, AllocError>
        requires held { IsBracketIn self.old.parts bracket }
        requires set { set < length self.old.parts }
        ensures grows { OnOk result (SetsGrow self.old.parts self.new.parts) }
        ensures inside { IfOk result (λ o. IsBracketIn self.new.parts o) }
        ensures is { IfOk result (λ o. bracket_as self.new.parts o
            ≡ definition.with_set (bracket_as self.old.parts bracket) (set_in self.old.parts set)) }
    {
        let Bracket { sides, side } = bracket;
        let side = self.push(Part::Either(side, set))?;
        Ok(Bracket { sides, side })
    }

    /// What the sides have in common.
    fn all_of(&mut self, bracket: Bracket) -> Result<usize, AllocError>
        requires { IsBracketIn self.old.parts bracket }
        ensures grows { OnOk result (SetsGrow self.old.parts self.new.parts) }
        ensures has { IfOk result (λ k. HasSet self.new.parts k
            (definition.all_of (bracket_as self.old.parts bracket))) }
    {
        match bracket.sides {
            Some(sides) => self.push(Part::Both(sides, bracket.side)),
            None => Ok(bracket.side),
        }
    }

    /// The class after `&&`.
    fn next_side(&mut self, bracket: Bracket) -> Result<Bracket, AllocError>
        requires { IsBracketIn self.old.parts bracket }
        ensures grows { OnOk result (SetsGrow self.old.parts self.new.parts) }
        ensures inside { IfOk result (λ o. IsBracketIn self.new.parts o) }
        ensures is { IfOk result (λ o. bracket_as self.new.parts o
            ≡ definition.next_side (bracket_as self.old.parts bracket)) }
    {
        let sides = self.all_of(bracket)?;
        let side = self.push(Part::Nothing)?;
        Ok(Bracket {
            sides: Some(sides),
            side,
        })
    }

    /// The class with what an item adds.
    fn add_leaf<'a>(
        &mut self,
        bracket: Bracket,
        found: Option<(Leaf, &'a str)>,
    ) -> Result<Option<Step<'a>>, AllocError>
        requires { IsBracketIn self.old.parts bracket }
        ensures grows { OnOk result (SetsGrow self.old.parts self.new.parts) }
        ensures inside { IfOk result (λ s. IfSome s (IsStepIn self.new.parts)) }
        ensures reads { IfOk result (λ s. (fold : _)
            → definition.adds fold (bracket_as self.old.parts bracket) (leafed found.entry)
            ≡ option_map (step_as self.new.parts) s) }
    {
        let Some((leaf, rest)) = found else {
            return Ok(None);
        };
        let set = self.push_leaf(leaf)?;
        let bracket = self.add(bracket, set)?;
        Ok(Some(Step::On(bracket, rest)))
    }

    /// The class after its bracket and `^`: a first `]` is a character.
    fn first_item<'a>(
        &mut self,
        fold: bool,
        text: &'a str,
    ) -> Result<Option<(Bracket, &'a str)>, AllocError>
        ensures grows { OnOk result (SetsGrow self.old.parts self.new.parts) }
        ensures inside { IfOk result (λ f. IfSome f (λ x. IsBracketIn self.new.parts x.0)) }
        ensures reads { IfOk result (λ f. definition.first_item fold
            (starts_with nat_eq (chars text.now) (codes "]")) (chars text.now)
            ≡ begun self.new.parts f) }
    {
        let bracket = self.begin()?;
        if !begins(text, &[']']) {
            return Ok(Some((bracket, text)));
        }
        let Some((leaf, rest)) = plain_item(fold, text) else {
            return Ok(None);
        };
        let set = self.push_leaf(leaf)?;
        let bracket = self.add(bracket, set)?;
        Ok(Some((bracket, rest)))
    }

    /// One step of reading a class that stands so deep.
    #[cycle(class)]
    fn step<'a>(
        &mut self,
        fold: bool,
        depth: u32,
        bracket: Bracket,
        text: &'a str,
    ) -> Result<Option<Step<'a>>, AllocError>
        requires held { IsBracketIn self.old.parts bracket }
        ensures grows { OnOk result (SetsGrow self.old.parts self.new.parts) }
        ensures inside { IfOk result (λ s. IfSome s (IsStepIn self.new.parts)) }
        ensures reads { IfOk result (λ s.
            step_of fold depth (bracket_as self.old.parts bracket) (chars text.now)
            ≡ option_map (step_as self.new.parts) s) }
    {
        match next_in(text) {
            Next::Closing => Ok(Some(Step::Over(after(text, 1)))),
            Next::Intersecting => {
                let bracket = self.next_side(bracket)?;
                Ok(Some(Step::On(bracket, after(text, 2))))
            }
            Next::Nested => {
                let Some((set, rest)) = self.class(fold, depth, after(text, 1))? else {
                    return Ok(None);
                };
                let bracket = self.add(bracket, set)?;
                Ok(Some(Step::On(bracket, rest)))
            }
            Next::Posix => Ok(self.add_leaf(bracket, posix_item(fold, text))?),
            Next::Plain => Ok(self.add_leaf(bracket, plain_item(fold, text))?),
        }
    }

    /// The rest of a class that stands so deep.
    #[cycle(class)]
    fn class_rest<'a>(
        &mut self,
        fold: bool,
        depth: u32,
        bracket: Bracket,
        text: &'a str,
    ) -> Result<Option<(usize, &'a str)>, AllocError>
        requires held { IsBracketIn self.old.parts bracket }
        ensures grows { OnOk result (SetsGrow self.old.parts self.new.parts) }
        ensures inside { IfOk result (λ f. IfSome f (λ x. x.0 < length self.new.parts)) }
        ensures reads { IfOk result (λ f.
            rest_of fold depth (bracket_as self.old.parts bracket) (chars text.now)
            ≡ set_as self.new.parts f) }
    {
        let mut bracket = bracket;
        let mut text = text;
        'steps: loop {
            match self.step(fold, depth, bracket, text)? {
                Some(Step::Over(rest)) => {
                    let set = self.all_of(bracket)?;
                    return Ok(Some((set, rest)));
                }
                Some(Step::On(next, rest)) => {
                    bracket = next;
                    text = rest;
                }
                None => return Ok(None),
            }
        }
    }

    /// A class inside so many groups and classes, from just after its bracket on.
    #[cycle(class)]
    pub fn class<'a>(
        &mut self,
        fold: bool,
        depth: u32,
        text: &'a str,
    ) -> Result<Option<(usize, &'a str)>, AllocError>
        ensures grows { OnOk result (SetsGrow self.old.parts self.new.parts) }
        ensures inside { IfOk result (λ f. IfSome f (λ x. x.0 < length self.new.parts)) }
        ensures reads { IfOk result (λ f. definition.class fold depth (chars text.now)
            ≡ set_as self.new.parts f) }
    {
        if depth >= DEEPEST {
            return Ok(None);
        }
        let (negated, inside) = start_of(text);
        let Some((bracket, rest)) = self.first_item(fold, inside)? else {
            return Ok(None);
        };
        let Some((set, rest)) = self.class_rest(fold, depth + 1, bracket, rest)? else {
            return Ok(None);
        };
        let set = self.negate_if(negated, set)?;
        Ok(Some((set, rest)))
    }
}
