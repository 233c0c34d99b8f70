//! Syntaxes that are linked together.
ghost use Rattle.std.specs.Prelude.{◌≡◌, [], ◌∷◌, ◌++◌, length, take, IfOk, IfSome, OnOk, OnErr};
ghost use Rattle.std.specs.Option.{option_copied};
ghost use Rattle.syntect_grammar_lists.specs.Slims.{origin_of};
ghost use Rattle.syntect_grammar.specs.Contexts.{context_at};
ghost use Rattle.syntect_grammar.specs.Flats.{AreFlatsOf, pattern_at};
ghost use Rattle.syntect_grammar.specs.Link.{definitions_in, paths_in, syntaxes_in, set_paths, linked};
ghost use Rattle.syntect_grammar.specs.Metadata.{entries_in, kept_sets, metadata_in, IsMergedOf};
ghost use Rattle.syntect_grammar.specs.syntect_scope.Repository.{IsRepository};

pub use crate::below::grammar_contexts::syntax_reference::SyntaxReference;
use crate::below::scope::repository::ScopeRepository;
use crate::below::values::seq::Seq;
use crate::below::values::text::Text;
use crate::heads::link_definitions;
use crate::syntax_definition::{
    Context, ContextId, HoldsContexts, MatchPattern, Pattern, SyntaxDefinition,
};
use crate::syntaxes::Syntaxes;
use crate::walk::flats_walked;
use std::alloc::{AllocError, AllocFailed, Global};
use syntect_grammar_lists::flats::{Flat, Origin};
use syntect_grammar_lists::list::FlatList;
use syntect_metadata::metadata::Metadata;
use syntect_metadata::raw::{LoadMetadata, RawMetadataEntry};

/// Syntaxes whose contexts are linked.
#[derive(Clone)]
pub struct SyntaxSet {
    syntaxes: Syntaxes,
    /// The paths of files that were loaded, each with the place of its syntax.
    path_syntaxes: Seq<(Text, usize)>,
    metadata: Metadata,
}

/// Written out as the builder's is: crates above call it and needn't prove each part's drop again.
impl Drop for SyntaxSet {
    fn drop(self) {
        let SyntaxSet {
            syntaxes: _,
            path_syntaxes: _,
            metadata: _,
        } = self;
    }
}

/// Definitions that are to be linked.
#[derive(Clone)]
pub struct SyntaxSetBuilder {
    syntaxes: Seq<SyntaxDefinition>,
    /// The paths of files that were loaded, each with the place of its definition.
    path_syntaxes: Seq<(Text, usize)>,
    /// The metadata of files that were loaded.
    raw_metadata: LoadMetadata,
    /// The metadata of the set that the builder was made of.
    metadata: Metadata,
}

impl Drop for SyntaxSetBuilder {
    fn drop(self) {
        let SyntaxSetBuilder {
            syntaxes: _,
            path_syntaxes: _,
            raw_metadata: _,
            metadata: _,
        } = self;
    }
}

impl SyntaxSet {
    /// A set of no syntaxes. Takes no memory.
    pub fn new(alloc: Global) -> SyntaxSet
        ensures syntaxes { syntaxes_in result ≡ [] }
        ensures paths { set_paths result ≡ [] }
        ensures metadata { metadata_in result ≡ [] }
    {
        SyntaxSet {
            syntaxes: Syntaxes::new(alloc),
            path_syntaxes: Seq::new(alloc),
            metadata: Metadata::default(alloc),
        }
    }

    /// A set of no syntaxes, as `new` gives it. Takes no memory.
    pub fn default(alloc: Global) -> SyntaxSet
        ensures syntaxes { syntaxes_in result ≡ [] }
        ensures paths { set_paths result ≡ [] }
        ensures metadata { metadata_in result ≡ [] }
    {
        SyntaxSet::new(alloc)
    }

    /// Its syntaxes, in the order in which their definitions were added.
    pub fn syntaxes(&self) -> &[SyntaxReference]
        ensures { result.now ≡ syntaxes_in self.now }
    {
        self.syntaxes.as_slice()
    }

    /// Its metadata.
    pub fn metadata(&self) -> &Metadata
        ensures { result.now.scoped_metadata ≡ metadata_in self.now }
    {
        &self.metadata
    }

    /// Puts metadata in the place of its own, which is dropped. All else stays.
    pub fn set_metadata(&mut self, metadata: Metadata)
        ensures metadata { metadata_in self.new ≡ metadata.scoped_metadata }
        ensures syntaxes { syntaxes_in self.new ≡ syntaxes_in self.old }
        ensures paths { set_paths self.new ≡ set_paths self.old }
    {
        self.metadata = metadata;
    }

    /// The paths of files that were loaded, each with the place of its syntax.
    pub(crate) fn paths(&self) -> &[(Text, usize)]
        ensures { result.now ≡ set_paths self.now }
    {
        self.path_syntaxes.as_slice()
    }

    /// The allocator that the list of syntaxes was made with.
    pub(crate) fn allocator(&self) -> Global {
        self.syntaxes.allocator()
    }

    /// Its syntaxes, the paths of loaded files, each with its syntax's place, and its metadata.
    pub(crate) fn into_parts(self) -> (Seq<SyntaxReference>, Seq<(Text, usize)>, Metadata)
        ensures syntaxes { result.0 ≡ syntaxes_in self }
        ensures paths { result.1 ≡ set_paths self }
        ensures metadata { result.2.scoped_metadata ≡ metadata_in self }
    {
        let SyntaxSet {
            syntaxes,
            path_syntaxes,
            metadata,
        } = self;
        (syntaxes.into_seq(), path_syntaxes, metadata)
    }

    /// The context of a number, if the set has it.
    pub fn context_at(&self, id: ContextId) -> Option<&Context>
        ensures { option_copied result ≡ context_at self.now id }
    {
        self.syntaxes.context_at(id)
    }

    /// The patterns of the walk of a context, which stands on its own include path, enough to find
    /// the first that passes a test: repeated ones may be left out. None where they aren't kept: of
    /// a context that the set lacks, or where includes would make too many.
    pub fn flats_of(&self, id: ContextId) -> Option<&FlatList>
        ensures { IfSome result (λ flats. AreFlatsOf self.now id flats.now) }
    {
        self.syntaxes.flats_of(id)
    }

    /// The patterns of the walk of any context, walked now, as `flats_of` answers kept ones.
    pub fn flats_walked(&self, alloc: Global, id: ContextId) -> Result<FlatList, AllocError>
        ensures { IfOk result (λ flats. AreFlatsOf self.now id flats) }
    {
        flats_walked(alloc, self.syntaxes(), id)
    }

    /// The pattern that stands at the place, if there is one.
    pub fn pattern_at(&self, origin: Origin) -> Option<&MatchPattern>
        ensures { (flat : Flat) → origin_of flat ≡ origin
            → option_copied result ≡ pattern_at self.now flat }
    {
        match self.context_at(origin.context)?.patterns.get(origin.index)? {
            Pattern::Match(m) => Some(m),
            Pattern::Include(_) => None,
        }
    }
}

impl HoldsContexts for SyntaxSet {
    ghost use Rattle.syntect_grammar_lists.specs.Slims.{origin_of};
    ghost use Rattle.syntect_grammar.specs.Contexts.{context_at};

    ghost contexts = { context_at };

    fn context_of(&self, id: ContextId) -> Option<&Context> {
        self.context_at(id)
    }
}

impl SyntaxSetBuilder {
    /// No definitions. Takes no memory.
    pub fn new(alloc: Global) -> SyntaxSetBuilder
        ensures definitions { definitions_in result ≡ [] }
        ensures paths { paths_in result ≡ [] }
        ensures entries { entries_in result ≡ [] }
        ensures metadata { kept_sets result ≡ [] }
    {
        SyntaxSetBuilder {
            syntaxes: Seq::new(alloc),
            path_syntaxes: Seq::new(alloc),
            raw_metadata: LoadMetadata::default(alloc),
            metadata: Metadata::default(alloc),
        }
    }

    /// A builder of definitions, loaded files' paths with their definitions' places, and metadata.
    pub(crate) fn from_parts(
        alloc: Global,
        syntaxes: Seq<SyntaxDefinition>,
        path_syntaxes: Seq<(Text, usize)>,
        metadata: Metadata,
    ) -> SyntaxSetBuilder
        ensures definitions { definitions_in result ≡ syntaxes }
        ensures paths { paths_in result ≡ path_syntaxes }
        ensures entries { entries_in result ≡ [] }
        ensures metadata { kept_sets result ≡ metadata.scoped_metadata }
    {
        SyntaxSetBuilder {
            syntaxes,
            path_syntaxes,
            raw_metadata: LoadMetadata::default(alloc),
            metadata,
        }
    }

    /// No definitions, as `new` gives them. Takes no memory.
    pub fn default(alloc: Global) -> SyntaxSetBuilder
        ensures definitions { definitions_in result ≡ [] }
        ensures paths { paths_in result ≡ [] }
        ensures entries { entries_in result ≡ [] }
        ensures metadata { kept_sets result ≡ [] }
    {
        SyntaxSetBuilder::new(alloc)
    }

    /// Appends a definition. Without memory the builder stays, and the definition is dropped.
    pub fn add(&mut self, syntax: SyntaxDefinition) -> Result<(), AllocError>
        ensures ok { OnOk result
            (definitions_in self.new ≡ definitions_in self.old ++ syntax ∷ []) }
        ensures paths { paths_in self.new ≡ paths_in self.old }
        ensures entries { entries_in self.new ≡ entries_in self.old }
        ensures metadata { kept_sets self.new ≡ kept_sets self.old }
        ensures err { OnErr result (self.new ≡ self.old) }
    {
        self.syntaxes.push(syntax)?;
        Ok(())
    }

    /// Appends an entry of metadata. Without memory for it the builder stays as it is.
    pub(crate) fn add_entry(&mut self, entry: RawMetadataEntry) -> Result<(), AllocError>
        ensures ok { OnOk result (entries_in self.new ≡ entries_in self.old ++ entry ∷ []) }
        ensures definitions { definitions_in self.new ≡ definitions_in self.old }
        ensures paths { paths_in self.new ≡ paths_in self.old }
        ensures metadata { kept_sets self.new ≡ kept_sets self.old }
        ensures err { OnErr result (self.new ≡ self.old) }
    {
        self.raw_metadata.add_raw(entry)
    }

    /// Appends a definition loaded from the file of this path. Without memory the builder stays.
    pub fn add_loaded(&mut self, syntax: SyntaxDefinition, path: Text) -> Result<(), AllocError>
        ensures ok { OnOk result
            (definitions_in self.new ≡ definitions_in self.old ++ syntax ∷ []) }
        ensures paths { OnOk result
            (paths_in self.new ≡ paths_in self.old ++ (path, length (definitions_in self.old))
            ∷ []) }
        ensures entries { entries_in self.new ≡ entries_in self.old }
        ensures metadata { kept_sets self.new ≡ kept_sets self.old }
        ensures err { OnErr result (self.new ≡ self.old) }
    {
        self.path_syntaxes.push((path, self.syntaxes.len()))?;
        match self.syntaxes.push(syntax) {
            Ok(()) => Ok(()),
            Err(_) => {
                self.path_syntaxes.pop();
                Err(AllocError)
            }
        }
    }

    /// The definitions, in the order in which they were added.
    pub fn syntaxes(&self) -> &[SyntaxDefinition]
        ensures { result.now ≡ definitions_in self.now }
    {
        self.syntaxes.as_slice()
    }

    /// Links the definitions into a set. Contexts are numbered in the byte order of their names. A
    /// reference by name is linked to that context of its own syntax, `$top_level_main` being
    /// `main`. One by scope or by the name of a syntax is linked to the last syntax of it: to the
    /// sub context, or to `main`; with a way out, where there is no such context, to `main` of the
    /// last syntax named `Plain Text`. A reference that has a number keeps it, and what cannot be
    /// linked stays unresolved. A context without a prototype of its own is given its syntax's
    /// `prototype`, if it wants one and isn't reached from it. Contexts that include one with back
    /// references, over any number of includes, are marked as it is. First-line patterns are
    /// compiled. The metadata of files becomes sets, in the order of scope texts; a builder made of
    /// a set keeps that set's, but new ones replace those of equal scope text. The repository is
    /// that of the definitions' scopes; it takes up those of metadata, and old atoms keep their
    /// numbers. Without memory the definitions are dropped.
    pub fn build(
        self,
        alloc: Global,
        scope_repo: &mut ScopeRepository,
    ) -> Result<SyntaxSet, AllocError>
        ensures linked { IfOk result (λ set. syntaxes_in set ≡ linked (definitions_in self)) }
        ensures paths { IfOk result (λ set. set_paths set ≡ paths_in self) }
        ensures metadata { IfOk result
            (λ set. IsMergedOf scope_repo.old self scope_repo.new (metadata_in set)) }
        ensures whole { IsRepository scope_repo.new }
        ensures kept { take (length scope_repo.old) scope_repo.new ≡ scope_repo.old }
    {
        scope_repo.is_whole();
        let SyntaxSetBuilder {
            syntaxes,
            path_syntaxes,
            raw_metadata,
            metadata,
        } = self;
        let syntaxes = Syntaxes::from_linked(link_definitions(alloc, syntaxes)?)?;
        let metadata = metadata.merged_with_raw(alloc, raw_metadata, scope_repo)?;
        Ok(SyntaxSet {
            syntaxes,
            path_syntaxes,
            metadata,
        })
    }
}
