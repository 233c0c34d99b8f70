//! Sets of metadata.
ghost use Rattle.std.specs.Prelude.{◌≡◌, false, length, take, string_bytes, IfOk, OnOk, IfErr, Ok};
ghost use Rattle.serde_json.specs.Data.{object};
ghost use Rattle.serde_json.specs.View.{members_view, view};
ghost use Rattle.syntect_metadata.specs.syntect_scope.Repository.{with_scopes, IsRepository};
ghost use Rattle.syntect_metadata.specs.syntect_scope.SelectorText.{union_words};
ghost use Rattle.syntect_metadata.specs.Items.{has_known_key};
ghost use Rattle.syntect_metadata.specs.Sets.{set_with, set_of, scope_refusal, Refuses};

use crate::below::scope::repository::{ParseScopeError, ScopeRepository};
use crate::below::scope::selector::ScopeSelectors;
use crate::below::values::text::Text;
use crate::error::MetadataError;
use crate::items::{MetadataItems, has_known_key, items};
use serde_json::{Map, Value};
use std::alloc::{AllocError, Global};

/// What is said of the lines where selectors match.
#[derive(Clone, PartialEq, Eq)]
pub struct MetadataSet {
    /// The text of the selectors.
    pub selector_string: Text,
    /// Where the items hold.
    pub selector: ScopeSelectors,
    /// What is said there.
    pub items: MetadataItems,
}

/// Written out, so that crates above call it and needn't prove each part's drop again.
impl Drop for MetadataSet {
    fn drop(self) {
        let MetadataSet {
            selector_string: _,
            selector: _,
            items: _,
        } = self;
    }
}

impl MetadataSet {
    /// An equal set.
    pub fn clone(&self, alloc: Global) -> Result<MetadataSet, AllocError>
        ensures { IfOk result (λ set. set ≡ self.now) }
    {
        Ok(MetadataSet {
            selector_string: self.selector_string.clone()?,
            selector: self.selector.clone()?,
            items: self.items.clone(alloc)?,
        })
    }

    /// The set of a selector's text and the members of an object, of which the repository takes up
    /// the scopes. It is `Skipped` where none of the seven keys is there, which is tested before
    /// memory is taken; else `BadItems` where a pattern's key has neither a text nor null,
    /// `indentParens` neither a truth value nor null, or `shellVariables` no object of texts; else
    /// `BadSelector` with the refusal of the first scope that is refused. Other keys are not looked
    /// at. After a refusal the repository may have more atoms, and the old ones keep their numbers.
    pub fn from_raw(
        alloc: Global,
        raw: (String, Map<String, Value>),
        repository: &mut ScopeRepository,
    ) -> Result<MetadataSet, MetadataError>
        ensures ok { IfOk result (λ set.
            set_of repository.old (string_bytes raw.0) (object (members_view raw.1.entries))
            ≡ Ok set) }
        ensures atoms { OnOk result (repository.new
            ≡ with_scopes repository.old (union_words (string_bytes raw.0))) }
        ensures err { IfErr result (Refuses
            (set_of repository.old (string_bytes raw.0) (object (members_view raw.1.entries)))) }
        ensures skipped { IfErr result (λ e.
            has_known_key (object (members_view raw.1.entries)) ≡ false
            → e ≡ MetadataError.Skipped) }
        ensures whole { IsRepository repository.new }
        ensures kept { take (length repository.old) repository.new ≡ repository.old }
    {
        repository.is_whole();
        let (text, settings) = raw;
        let settings = Value::Object(settings);
        if !has_known_key(&settings) {
            return Err(MetadataError::Skipped);
        }
        let items = match items(alloc, &settings) {
            Ok(items) => items,
            Err(e) => return Err(e),
        };
        set_with(alloc, Text::from_string(text), items, repository)
    }
}

/// A refusal of scopes, passed on.
fn of_scopes(e: ParseScopeError) -> MetadataError
    ensures { result ≡ scope_refusal e }
{
    match e {
        ParseScopeError::Memory => MetadataError::Memory,
        e => MetadataError::BadSelector(e),
    }
}

/// A set of items, for the selectors of a text.
fn set_with(
    alloc: Global,
    text: Text,
    items: MetadataItems,
    repository: &mut ScopeRepository,
) -> Result<MetadataSet, MetadataError>
    ensures ok { IfOk result (λ set. set_with repository.old text items ≡ Ok set) }
    ensures atoms { OnOk result (repository.new ≡ with_scopes repository.old (union_words text)) }
    ensures err { IfErr result (Refuses (set_with repository.old text items)) }
    ensures whole { IsRepository repository.new }
    ensures kept { take (length repository.old) repository.new ≡ repository.old }
{
    match ScopeSelectors::from_text(alloc, text.as_str(), repository) {
        Ok(selector) => Ok(MetadataSet {
            selector_string: text,
            selector,
            items,
        }),
        Err(e) => Err(of_scopes(e)),
    }
}
