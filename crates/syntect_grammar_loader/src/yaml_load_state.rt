//! What has been read of a grammar so far.
ghost use Rattle.std.specs.Prelude.{◌≡◌, IfOk};
ghost use Rattle.syntect_grammar_loader.specs.LoadingContexts as contexts;
ghost use Rattle.syntect_grammar_loader.specs.LoadingParts as parts;
ghost use Rattle.syntect_grammar_loader.specs.LoadingSteps.{Gives, KeepsAtoms, scope_seen, refusal_of_error};
ghost use Rattle.syntect_grammar_loader.specs.declared.yaml_load_state.Reading.{Reading};

use crate::below::scope::repository::{ParseScopeError, ScopeRepository};
use crate::below::scope::scope::Scope;
use crate::below::scope::stack::ScopeStack;
use crate::below::values::seq::Seq;
use crate::below::values::table::Table;
use crate::below::values::text::Text;
use std::alloc::Global;
use syntect_base::syntax::ParseSyntaxError;
use syntect_grammar_contexts::context::Context;

/// What has been read of a grammar so far.
#[derive(Drop)]
pub(crate) struct Reading {
    pub(crate) repository: ScopeRepository,
    pub(crate) variables: Table<Text, Text>,
    pub(crate) lines_include_newline: bool,
    /// The contexts that have been read, by name.
    pub(crate) contexts: Table<Text, Context>,
    /// The name of the top context that is being read.
    pub(crate) top: Text,
    /// The names of the inner contexts of it whose reading has begun.
    pub(crate) begun: Seq<Text>,
}

/// The refusal of a scope's text as that of a grammar.
fn refused(e: ParseScopeError) -> ParseSyntaxError
    ensures { refusal_of_error result ≡ scope_seen e }
{
    match e {
        ParseScopeError::Memory => ParseSyntaxError::Memory,
        e => ParseSyntaxError::InvalidScope(e),
    }
}

impl Reading {
    /// The scopes that a text names, in no more memory than they take: grammars are kept long.
    pub(crate) fn scopes(
        &mut self,
        alloc: Global,
        text: &str,
    ) -> Result<Seq<Scope>, ParseSyntaxError>
        ensures value { Gives (λ s. s) result self.new (parts.scopes text.now self.old) }
        ensures kept { KeepsAtoms self.old.repository self.new.repository }
    {
        match ScopeStack::from_text(alloc, text, &mut self.repository) {
            Ok(stack) => {
                let mut scopes = stack.scopes;
                scopes.shrink_to_fit();
                Ok(scopes)
            }
            Err(e) => Err(refused(e)),
        }
    }

    /// The one scope of a text.
    #[tactic(auto, using(crate::proofs::LoadingLaws::keeps_built))]
    pub(crate) fn scope(&mut self, text: &str) -> Result<Scope, ParseSyntaxError>
        ensures value { Gives (λ s. s) result self.new (parts.scope text.now self.old) }
        ensures kept { KeepsAtoms self.old.repository self.new.repository }
    {
        match self.repository.build(text) {
            Ok(scope) => Ok(scope),
            Err(e) => Err(refused(e)),
        }
    }

    /// One more inner context begins; its name.
    pub(crate) fn begin(&mut self, alloc: Global) -> Result<Text, ParseSyntaxError>
        ensures value { Gives (λ t. t) result self.new (contexts.begin self.old) }
        ensures kept { KeepsAtoms self.old.repository self.new.repository }
    {
        let top = self.top.as_str();
        let count = self.begun.len();
        let name = Text::from_string(format!(in alloc; "#anon_{top}_{count}")?);
        self.begun.push(name.clone()?)?;
        Ok(name)
    }

    /// Records a context; its name.
    pub(crate) fn keep(&mut self, name: Text, context: Context) -> Result<Text, ParseSyntaxError>
        ensures value { Gives (λ t. t) result self.new (contexts.keep name context self.old) }
        ensures kept { KeepsAtoms self.old.repository self.new.repository }
    {
        let key = name.clone()?;
        match self.contexts.insert(key, context) {
            Ok(_) => Ok(name),
            Err(_) => Err(ParseSyntaxError::Memory),
        }
    }
}
