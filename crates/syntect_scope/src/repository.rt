//! The repository of atoms: their texts, each with its number.
ghost use Rattle.std.specs.Prelude.{◌≡◌, ◌≢◌, ◌==◌, ◌<◌, ◌≤◌, ◌+◌, ◌-◌, ◌↔◌, [], ◌∷◌, ◌++◌, length, map, take, List, ℕ, IsTrue, IsErr, IfOk, OnOk, OnErr, IfErr, IsErrOf, IfSome, IfNone, string_bytes, None, Some, if◌then◌else◌, unwrap_or, is_some, not, nat_lt};
ghost use Rattle.std.specs.BTreeMap.{get_by_text};
ghost use Rattle.std.specs.Option.{option_copied, option_map};
ghost use Rattle.std.specs.List.{slice_split, list_any};
ghost use Rattle.std.specs.Str.{bytes_eq, trim};
ghost use Rattle.syntect_scope.specs.Repository.{between_dots, atom_in, atom_text, atom_texts, place_in, scope_in, scope_text, with_atom, with_atoms, with_scopes, first_refusal, IsRefusalOrMemory, number_in, without_dots, IsRepository};
ghost use Rattle.syntect_scope.specs.Stack.{plain};
ghost use Rattle.syntect_scope.specs.Words.{words};
ghost use Rattle.syntect_scope.specs.declared.repository.ParseScopeError.TheVariants.{Memory};

use crate::scope::Scope;
use crate::stack::ScopeStack;
use std::alloc::{AllocError, AllocFailed, Global};
use std::collections::BTreeMap;
use std::marker::Model;
use syntect_values::text::Text;
use thiserror::Error;

/// Why a text is no scope. The repository is then as it was.
#[derive(Debug, Drop, PartialEq, Eq, Error)]
pub enum ParseScopeError {
    /// The text has more than eight atoms. This is tested before anything else.
    #[error("Too long scope. Scopes can be at most 8 atoms long.")]
    TooLong,
    /// The repository has no room for all of the text's atoms that it lacks.
    #[error("Too many atoms. Max 2^16-2 atoms allowed.")]
    TooManyAtoms,
    /// There was no memory.
    #[error("Memory")]
    Memory,
}

impl From<AllocError> for ParseScopeError {
    ghost from_gives = { λ _ e. e ≡ Memory };

    fn from(_e: AllocError) -> ParseScopeError {
        ParseScopeError::Memory
    }
}

impl<T: Drop> From<AllocFailed<T>> for ParseScopeError {
    ghost from_gives = { λ _ e. e ≡ Memory };

    fn from(_e: AllocFailed<T>) -> ParseScopeError {
        ParseScopeError::Memory
    }
}

/// How many atoms a repository can hold: their numbers are those of `u16` but 0 and the last.
const MAX_ATOMS: usize = 65534;

/// The texts of the atoms, numbered from 1 in the order in which they came. Contracts see the list
/// of the texts.
#[derive(Debug)]
pub struct ScopeRepository {
    atoms: Vec<Text>,
    numbers: BTreeMap<String, u16>,
}

/// Written out, so that crates above call it and needn't prove each part's drop again.
impl Drop for ScopeRepository {
    fn drop(self) {
        let ScopeRepository {
            atoms: _,
            numbers: _,
        } = self;
    }
}

impl Model for ScopeRepository {
    ghost use Rattle.std.specs.Prelude.{List, ℕ, length, ◌≤◌, ◌≡◌, ◌+◌};
    ghost use Rattle.std.specs.Option.{option_map};
    ghost use Rattle.std.specs.BTreeMap.{get_by_text};
    ghost use Rattle.syntect_scope.specs.Repository.{IsRepository, place_in};

    ghost Value = { List (List ℕ) };

    ghost view = { λ a. a.atoms.items };

    ghost invariant = { λ a. IsRepository a.atoms.items × ((t : List ℕ) → get_by_text a.numbers t
        ≡ option_map (λ i. i + 1) (place_in a.atoms.items t)) };
}

/// How many parts a text has between its dots.
fn count_parts(s: &str) -> usize
    ensures { result ≡ length (between_dots s.now) }
{
    s.split('.').count()
}

/// Whether one of a text's first parts between its dots, so many of them, is this one.
fn stands_before(s: &str, count: usize, part: &str) -> bool
    ensures { result ≡ list_any (bytes_eq part.now) (take count (between_dots s.now)) }
{
    s.split('.').take(count).any(|other| part == other)
}

/// The text without the dots at its end.
fn trimmed(s: &str) -> &str
    ensures { result.now ≡ without_dots s.now }
{
    s.trim_end_matches('.')
}

/// The words of a text: what stands between white space, where that is something.
pub fn words_of(alloc: Global, s: &str) -> Result<Vec<&str>, AllocError>
    ensures { IfOk result (λ v. map (λ x. x.now) v.items ≡ words s.now) }
{
    s.split_whitespace().collect(alloc)
}

/// Appends a copy of a text.
fn push_text(atoms: &mut Vec<Text>, part: &str) -> Result<(), AllocError>
    ensures ok { OnOk result (atoms.new.items ≡ atoms.old.items ++ part.now ∷ []) }
    ensures err { OnErr result (atoms.new.items ≡ atoms.old.items) }
{
    atoms.push(Text::from_str(*atoms.allocator(), part)?)?;
    Ok(())
}

/// The number of a text, which is `next` from now on where it had none.
fn number_or(
    alloc: Global,
    numbers: &mut BTreeMap<String, u16>,
    part: &str,
    next: u16,
) -> Result<u16, AllocError>
    ensures number { IfOk result (λ n. n ≡ unwrap_or (get_by_text numbers.old part.now) next) }
    ensures ok { IfOk result (λ n. (t : List ℕ) → get_by_text numbers.new t
        ≡ (if bytes_eq part.now t then Some n else get_by_text numbers.old t)) }
    ensures err { OnErr result ((t : List ℕ)
        → get_by_text numbers.new t ≡ get_by_text numbers.old t) }
{
    let key = String::from_str(alloc, part)?;
    Ok(*numbers.entry(key)?.or_insert(next))
}

impl ScopeRepository {
    /// No atoms. Takes no memory.
    pub fn new(alloc: Global) -> ScopeRepository
        ensures atoms { result ≡ [] }
        ensures whole { IsRepository result }
    {
        ScopeRepository {
            atoms: Vec::new(alloc),
            numbers: BTreeMap::new(alloc),
        }
    }

    /// A copy of the repository: the same atoms have the same numbers.
    pub fn clone(&self) -> Result<ScopeRepository, AllocError>
        ensures { IfOk result (λ copy. copy ≡ self.now) }
    {
        let mut copy = ScopeRepository::new(*self.atoms.allocator());
        for text in &self.atoms {
            if copy.number(text.as_str()).is_err() {
                return Err(AllocError);
            }
        }
        Ok(copy)
    }

    /// The text of an atom number, if the repository has it. Numbers begin at 1.
    pub fn atom_str(&self, number: u16) -> Option<&str>
        ensures { option_copied result ≡ atom_in self.now number }
    {
        if number == 0 {
            return None;
        }
        let text = self.atoms.get(usize::from(number) - 1)?;
        Some(text.as_str())
    }

    /// The number of an atom that it has.
    fn known(&self, part: &str) -> Option<u16>
        ensures number { result ≡ option_map (λ i. i + 1) (place_in self.now part.now) }
        ensures whole { IsRepository self.now }
    {
        self.numbers.get(part).copied()
    }

    /// The number of an atom, which is added if the repository lacks it.
    fn number(&mut self, part: &str) -> Result<u16, ParseScopeError>
        ensures ok { IfOk result
            (λ n. (self.new ≡ with_atom self.old part.now) × (n ≡ number_in self.new part.now)) }
        ensures positive { IfOk result (λ n. 0 < n) }
        ensures whole { OnOk result (IsRepository self.new) }
        ensures too_many { IfErr result
            (λ e. e ≡ ParseScopeError.TooManyAtoms → 65534 < length (with_atom self.old part.now)) }
        ensures too_long { IfErr result (λ e. e ≢ ParseScopeError.TooLong) }
        ensures err { OnErr result (self.new ≡ self.old) }
    {
        let held = self.atoms.len();
        if held >= MAX_ATOMS {
            return self.known(part).ok_or(ParseScopeError::TooManyAtoms);
        }
        let alloc = *self.atoms.allocator();
        let next = held as u16 + 1;
        let number = number_or(alloc, &mut self.numbers, part, next)?;
        if number != next {
            return Ok(number);
        }
        match push_text(&mut self.atoms, part) {
            Ok(()) => Ok(number),
            Err(_) => {
                let _ = self.numbers.remove(part);
                Err(ParseScopeError::Memory)
            }
        }
    }

    /// Holds at most 65534 texts, each once. It does nothing: it is for callers whose contracts say
    /// so of a repository that they were handed.
    pub fn is_whole(&self)
        ensures { IsRepository self.now }
    {
        let _ = &self.atoms;
    }

    /// Removes the last atom.
    fn forget_last(&mut self)
        ensures { self.new ≡ take (length self.old - 1) self.old }
    {
        if let Some(text) = self.atoms.pop() {
            let _ = self.numbers.remove(text.as_str());
        }
    }

    /// How many atoms it has. Takes no memory.
    pub fn atom_count(&self) -> usize
        ensures { result ≡ length self.now }
    {
        self.atoms.len()
    }

    /// Removes the atoms after the first `held`, for a caller that added them and then refused what
    /// has them. A scope that has such an atom is another one afterwards, or none; every other
    /// scope stays what it is. Takes no memory.
    pub fn forget(&mut self, held: usize)
        ensures { self.new ≡ take held self.old }
    {
        while self.atoms.len() > held {
            self.forget_last();
        }
    }

    /// The numbers of a text's parts between its dots, which are added where they are lacking.
    /// After an `Err` it may have more atoms at its end.
    fn numbers(&mut self, text: &str) -> Result<Scope, ParseScopeError>
        requires { length (between_dots text.now) ≤ 8 }
        ensures ok { IfOk result (λ s. (self.new ≡ with_atoms self.old (between_dots text.now))
            × (s ≡ map (number_in self.new) (between_dots text.now))) }
        ensures whole { OnOk result (IsRepository self.new) }
        ensures too_many { IfErr result (λ e. e ≡ ParseScopeError.TooManyAtoms
            → 65534 < length (with_atoms self.old (between_dots text.now))) }
        ensures too_long { IfErr result (λ e. e ≢ ParseScopeError.TooLong) }
        ensures err { OnErr result (take (length self.old) self.new ≡ self.old) }
    {
        let _ = &self.atoms;
        let mut scope = Scope::empty();
        for part in text.split('.') {
            match self.number(part) {
                Ok(n) => scope.push(n),
                Err(e) => return Err(e),
            }
        }
        Ok(scope)
    }

    /// Whether it would lack a part once it had added those before it, so many, in the same text.
    fn lacks(&self, text: &str, before: usize, part: &str) -> bool
        ensures { result ≡ not (is_some
            (place_in (with_atoms self.now (take before (between_dots text.now))) part.now)) }
    {
        self.known(part).is_none() && !stands_before(text, before, part)
    }

    /// How many atoms it would have with a text's parts between its dots. Takes no memory.
    fn count_with(&self, text: &str) -> usize
        requires { length (between_dots text.now) ≤ 8 }
        ensures { result ≡ length (with_atoms self.now (between_dots text.now)) }
    {
        self.is_whole();
        let mut count = self.atoms.len();
        let mut before = 0;
        for part in text.split('.') {
            if self.lacks(text, before, part) {
                count += 1;
            }
            before += 1;
        }
        count
    }

    /// Why it does not add a text's parts between its dots: they are too many,
    /// or else there was no memory.
    fn refusal(&self, text: &str) -> ParseScopeError
        requires { length (between_dots text.now) ≤ 8 }
        ensures { result ≡ (if nat_lt 65534 (length (with_atoms self.now (between_dots text.now)))
            then ParseScopeError.TooManyAtoms else ParseScopeError.Memory) }
    {
        if self.count_with(text) > MAX_ATOMS {
            ParseScopeError::TooManyAtoms
        } else {
            ParseScopeError::Memory
        }
    }

    /// The scope of a text: its parts between dots are the atoms. Dots at the end are cut, empty
    /// parts before them are atoms, and the empty text names the scope of no atoms. Atoms that the
    /// repository lacks are added. A text of more than eight atoms is `TooLong`, whatever else
    /// there is to say of it, and one of which there is no room for all atoms `TooManyAtoms`, also
    /// where there is no memory.
    pub fn build(&mut self, s: &str) -> Result<Scope, ParseScopeError>
        ensures atoms { OnOk result (self.new ≡ with_atoms self.old (atom_texts s.now)) }
        ensures scope { IfOk result (λ scope. scope ≡ scope_in self.new s.now) }
        ensures too_long { IsErrOf result ParseScopeError.TooLong
            ↔ (8 < length (atom_texts s.now)) }
        ensures too_many { IsErrOf result ParseScopeError.TooManyAtoms
            ↔ ((length (atom_texts s.now) ≤ 8)
            × (65534 < length (with_atoms self.old (atom_texts s.now)))) }
        ensures full { 65534 < length (with_atoms self.old (atom_texts s.now)) → IsErr result }
        ensures whole { IsRepository self.new }
        ensures err { OnErr result (self.new ≡ self.old) }
    {
        let _ = &self.atoms;
        if s.is_empty() {
            return Ok(Scope::empty());
        }
        let text = trimmed(s);
        if count_parts(text) > 8 {
            return Err(ParseScopeError::TooLong);
        }
        let held = self.atoms.len();
        match self.numbers(text) {
            Ok(scope) => Ok(scope),
            Err(_) => {
                self.forget(held);
                Err(self.refusal(text))
            }
        }
    }

    /// The text of an atom number, and `?` for one that the repository does not have.
    pub fn atom_or_mark(&self, number: u16) -> &str
        ensures { result.now ≡ atom_text self.now number }
    {
        match self.atom_str(number) {
            Some(text) => text,
            None => "?",
        }
    }

    /// Adds the text of a scope to a text. After an `Err` a part of it may have been added.
    pub(crate) fn append_scope(&self, text: &mut String, scope: Scope) -> Result<(), AllocError>
        ensures { OnOk result
            (string_bytes text.new ≡ string_bytes text.old ++ scope_text self.now scope) }
    {
        for i in 0..scope.len() as usize {
            if i > 0 {
                text.push('.')?;
            }
            text.push_str(self.atom_or_mark(scope.atom_at(i)))?;
        }
        Ok(())
    }

    /// The text of a scope: the texts of its atoms, joined by dots. An atom number that the
    /// repository does not have is written as `?`.
    pub fn to_string(&self, scope: Scope) -> Result<String, AllocError>
        ensures { IfOk result (λ text. string_bytes text ≡ scope_text self.now scope) }
    {
        let mut text = String::new(*self.atoms.allocator());
        self.append_scope(&mut text, scope)?;
        Ok(text)
    }
}

impl Scope {
    /// The scope of a text, without the white space around it.
    /// Refusals are those of `ScopeRepository::build`.
    pub fn new(s: &str, repository: &mut ScopeRepository) -> Result<Scope, ParseScopeError>
        ensures atoms { OnOk result
            (repository.new ≡ with_atoms repository.old (atom_texts (trim s.now))) }
        ensures scope { IfOk result (λ scope. scope ≡ scope_in repository.new (trim s.now)) }
        ensures too_long { IsErrOf result ParseScopeError.TooLong
            ↔ (8 < length (atom_texts (trim s.now))) }
        ensures too_many { IsErrOf result ParseScopeError.TooManyAtoms
            ↔ ((length (atom_texts (trim s.now)) ≤ 8)
            × (65534 < length (with_atoms repository.old (atom_texts (trim s.now))))) }
        ensures full { 65534 < length (with_atoms repository.old (atom_texts (trim s.now)))
            → IsErr result }
        ensures whole { IsRepository repository.new }
        ensures err { OnErr result (repository.new ≡ repository.old) }
    {
        repository.build(s.trim())
    }

    /// The text of the scope in a repository, as `ScopeRepository::to_string` writes it.
    pub fn build_string(self, repository: &ScopeRepository) -> Result<String, AllocError>
        ensures { IfOk result (λ text. string_bytes text ≡ scope_text repository.now self) }
    {
        repository.to_string(self)
    }
}

impl ScopeStack {
    /// The scopes that a text names, separated by white space, the bottom one first. A refusal is
    /// that of the first scope that is refused, or lack of memory; the repository may then have
    /// more atoms, and the old ones keep their numbers.
    pub fn from_text(
        alloc: Global,
        s: &str,
        repository: &mut ScopeRepository,
    ) -> Result<ScopeStack, ParseScopeError>
        ensures atoms { OnOk result (repository.new ≡ with_scopes repository.old (words s.now)) }
        ensures scopes { IfOk result
            (λ stack. stack ≡ plain (map (scope_in repository.new) (words s.now))) }
        ensures accepted { OnOk result (first_refusal repository.old (words s.now) ≡ None) }
        ensures refused { IfErr result
            (IsRefusalOrMemory (first_refusal repository.old (words s.now))) }
        ensures whole { IsRepository repository.new }
        ensures kept { take (length repository.old) repository.new ≡ repository.old }
    {
        let _ = &repository.atoms;
        let words = words_of(alloc, s)?;
        let mut scopes = Vec::new(alloc);
        for word in &words {
            match repository.build(word) {
                Ok(scope) => scopes.push(scope)?,
                Err(e) => return Err(e),
            }
        }
        Ok(ScopeStack::from_vec(scopes))
    }
}
