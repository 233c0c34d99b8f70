//! The files of a folder.
ghost use Rattle.std.specs.Prelude.{◌≡◌, ◌≢◌, ◌==◌, ℕ, ◌+◌, ◌<◌, ◌≤◌, true, false, List, [], ◌∷◌, ◌++◌, map, reverse, IsUtf8, IsPermutation, length, None, IfOk, OnOk, IfErr, IfSome, IfNone};
ghost use Rattle.std.specs.IoError.{error_kind};
ghost use Rattle.std.specs.Option.{option_copied};
ghost use Rattle.std.specs.Path.{path_bytes};
ghost use Rattle.std.specs.List.{filter_map, position_or_len};
ghost use Rattle.syntect_base.specs.Names.{entry_name, entry_of, entries_in, is_sought, lost_of, lost_in};
ghost use Rattle.syntect_base.specs.Walks.{joined, InByteOrder, Lists, Unlisted, Entry, End, files_of, broken, Visits, IsWalk, RefusesWalk, GivesFile, GivesNone, RefusesFile};
ghost use Rattle.syntect_base.specs.declared.loading.LoadingError.TheVariants.{WalkDir, Memory};
ghost use Rattle.syntect_base.specs.declared.utils.Sought.{Sought as ASought};

use crate::loading::LoadingError;
use crate::syntect_values::seq::Seq;
use crate::syntect_values::text::Text;
use crate::tree::{Kind, Tree};
use std::alloc::{AllocError, Global};
use std::io::ErrorKind;
use std::marker::Model;
use std::path::Path;
use std::{io, str};

/// What a walk looks for.
#[derive(Clone, Copy)]
pub enum Sought {
    Grammars,
    Themes,
}

/// A fault of a walk.
fn walk_fault(e: io::Error) -> LoadingError
    ensures memory { error_kind e ≡ ErrorKind.OutOfMemory → result ≡ Memory }
    ensures other { error_kind e ≢ ErrorKind.OutOfMemory → result ≡ WalkDir }
{
    if e.kind() == ErrorKind::OutOfMemory {
        LoadingError::Memory
    } else {
        LoadingError::WalkDir
    }
}

/// The path of a name in a folder.
fn path_below(alloc: Global, folder: &str, name: &str) -> Result<Text, AllocError>
    ensures { IfOk result (λ path. path ≡ joined folder.now name.now) }
{
    let mut path = Text::from_str(alloc, folder)?;
    path.push('/')?;
    path.push_str(name)?;
    Ok(path)
}

/// Whether a name may be that of a file that is looked for.
fn is_sought(sought: Sought, name: &[u8]) -> bool
    ensures { result ≡ is_sought sought name.now }
{
    match sought {
        Sought::Grammars => name.ends_with(b".sublime-syntax"),
        Sought::Themes => {
            let from = name.len().saturating_sub(8);
            name[from..].eq_ignore_ascii_case(b".tmTheme")
        }
    }
}

/// The name of an entry. The folder itself and the one above it are none.
fn entry_name(text: &str) -> Option<&str>
    ensures { option_copied result ≡ entry_name text.now }
{
    if text == "" || text == "." || text == ".." {
        None
    } else {
        Some(text)
    }
}

/// The name of an entry from its bytes. One that is no text is passed over, since no path leads
/// there; but where it may be that of a file that is looked for, it is a fault.
#[tactic(auto, using(crate::proofs::NameLaws::entry_text, crate::proofs::NameLaws::entry_none, crate::proofs::NameLaws::lost_text, crate::proofs::NameLaws::lost_one))]
fn entry_of(sought: Sought, name: &[u8]) -> Result<Option<&str>, LoadingError>
    ensures entry { IfOk result (λ entry. option_copied entry ≡ entry_of name.now) }
    ensures passed { IfOk result (λ entry. lost_of sought name.now ≡ None) }
    ensures fault { IfErr result (λ e. lost_of sought name.now ≢ None) }
    ensures err { IfErr result (λ e. e ≡ WalkDir) }
{
    match str::from_utf8(name) {
        Ok(text) => Ok(entry_name(text)),
        Err(_) if is_sought(sought, name) => Err(LoadingError::WalkDir),
        Err(_) => Ok(None),
    }
}

/// Adds the name of an entry, if it is one.
fn add_entry(
    alloc: Global,
    sought: Sought,
    name: &[u8],
    names: &mut Vec<Text>,
) -> Result<(), LoadingError>
    ensures ok { OnOk result
        (names.new.items ≡ names.old.items ++ filter_map entry_of (name.now ∷ [])) }
    ensures none_lost { OnOk result (filter_map (lost_of sought) (name.now ∷ []) ≡ []) }
    ensures err { IfErr result (λ e. e ≢ Memory → e ≡ WalkDir) }
    ensures one_lost { IfErr result (λ e. e ≢ Memory → lost_of sought name.now ≢ None) }
{
    match entry_of(sought, name) {
        Ok(Some(entry)) => names.push(Text::from_str(alloc, entry)?)?,
        Ok(None) => {}
        Err(e) => return Err(e),
    }
    Ok(())
}

/// How many bytes stand before the first NUL.
fn name_len(bytes: &[u8]) -> usize
    ensures value { result ≡ position_or_len (λ b. b == 0) bytes.now }
    ensures within { result ≤ length bytes.now }
{
    bytes.iter().take_while(|b| **b != 0).count()
}

/// What comes before the first NUL, and what comes after it.
fn first_name(bytes: &[u8]) -> (&[u8], &[u8])
    ensures entries { entries_in bytes.now
        ≡ filter_map entry_of (result.0.now ∷ []) ++ entries_in result.1.now }
    ensures lost { (sought : ASought) → lost_in sought bytes.now
        ≡ filter_map (lost_of sought) (result.0.now ∷ []) ++ lost_in sought result.1.now }
    ensures shorter { 0 < length bytes.now → length result.1.now < length bytes.now }
{
    let (name, rest) = bytes.split_at(name_len(bytes));
    if rest.is_empty() {
        return (name, rest);
    }
    let (_, behind) = rest.split_at(1);
    (name, behind)
}

/// The names of entries among bytes in which a NUL comes after each, in byte order. One that is no
/// text is a fault where it may be that of a file that is looked for.
fn entries_among(alloc: Global, bytes: &[u8], sought: Sought) -> Result<Vec<Text>, LoadingError>
    ensures all { IfOk result (λ names. IsPermutation (entries_in bytes.now) names.items) }
    ensures order { IfOk result (λ names. InByteOrder names.items) }
    ensures none_lost { IfOk result (λ names. lost_in sought bytes.now ≡ []) }
    ensures err { IfErr result (λ e. e ≢ Memory → e ≡ WalkDir) }
    ensures one_lost { IfErr result (λ e. e ≢ Memory → lost_in sought bytes.now ≢ []) }
{
    let mut names = Vec::new(alloc);
    let mut rest = bytes;
    'names: while !rest.is_empty() {
        let (name, behind) = first_name(rest);
        match add_entry(alloc, sought, name, &mut names) {
            Ok(()) => {}
            Err(e) => return Err(e),
        }
        rest = behind;
    }
    names.sort()?;
    Ok(names)
}

/// Adds the paths of names in a folder, the last name first.
fn add_paths(
    alloc: Global,
    folder: &str,
    names: &[Text],
    paths: &mut Seq<Text>,
) -> Result<(), AllocError>
    ensures { OnOk result (paths.new ≡ paths.old ++ reverse (map (joined folder.now) names.now)) }
{
    for name in names.iter().rev() {
        paths.push(path_below(alloc, folder, name.as_str())?)?;
    }
    Ok(())
}

/// Puts the paths of a folder's entries on what is still to be visited, so that the first is
/// visited first.
fn enter<T: Tree>(
    tree: &T,
    alloc: Global,
    folder: &str,
    sought: Sought,
    ahead: &mut Seq<Text>,
) -> Result<(), LoadingError>
    ensures ok { OnOk result ((names : List (List ℕ))
        × Lists (T.told tree.now) sought folder.now names
        × (ahead.new ≡ ahead.old ++ reverse (map (joined folder.now) names))) }
    ensures err { IfErr result (λ e. e ≢ Memory → e ≡ WalkDir) }
    ensures unlisted { IfErr result (λ e. e ≢ Memory
        → Unlisted (T.told tree.now) sought folder.now) }
{
    let bytes = match tree.list_folder(alloc, folder) {
        Ok(bytes) => bytes,
        Err(e) => return Err(walk_fault(e)),
    };
    let names = match entries_among(alloc, bytes.as_slice(), sought) {
        Ok(names) => names,
        Err(e) => return Err(e),
    };
    add_paths(alloc, folder, names.as_slice(), ahead)?;
    Ok(())
}

/// Visits what stands at a path, and answers it. A folder is entered.
fn visit<T: Tree>(
    tree: &T,
    alloc: Global,
    path: &str,
    sought: Sought,
    ahead: &mut Seq<Text>,
) -> Result<Kind, LoadingError>
    ensures ok { IfOk result (λ kind. (rest : List Entry) (end : End)
        → Visits (T.told tree.now) sought (reverse ahead.new) rest end
        → Visits (T.told tree.now) sought (path.now ∷ reverse ahead.old)
        ((path.now, kind) ∷ rest) end) }
    ensures err { IfErr result (λ e. e ≢ Memory → e ≡ WalkDir) }
    ensures breaks { IfErr result (λ e. e ≢ Memory
        → (seen : List Entry) × (files_of seen ≡ [])
        × Visits (T.told tree.now) sought (path.now ∷ reverse ahead.old) seen broken) }
{
    match tree.kind_at(path) {
        Ok(Kind::Folder) => match enter(tree, alloc, path, sought, ahead) {
            Ok(()) => Ok(Kind::Folder),
            Err(e) => Err(e),
        },
        Ok(Kind::File) => Ok(Kind::File),
        Ok(Kind::Other) => Ok(Kind::Other),
        Err(e) => Err(walk_fault(e)),
    }
}

/// Whether an entry is a file.
fn is_file(kind: Kind) -> bool
    ensures file { result ≡ true → kind ≡ Kind.File }
    ensures other { result ≡ false → kind ≢ Kind.File }
{
    match kind {
        Kind::File => true,
        Kind::Folder => false,
        Kind::Other => false,
    }
}

/// Visits what is ahead up to the next file, which it answers by its path; so many entries at most.
fn go_on<T: Tree>(
    tree: &T,
    alloc: Global,
    sought: Sought,
    ahead: &mut Seq<Text>,
    left: &mut u64,
) -> Result<Option<Text>, LoadingError>
    ensures found { IfOk result (λ found. IfSome found (GivesFile (T.told tree.now)
        (record { sought = sought; paths = reverse ahead.old; left = left.old })
        (record { sought = sought; paths = reverse ahead.new; left = left.new }))) }
    ensures none { IfOk result (λ found. IfNone found (GivesNone (T.told tree.now)
        (record { sought = sought; paths = reverse ahead.old; left = left.old }))) }
    ensures err { IfErr result (RefusesFile (T.told tree.now)
        (record { sought = sought; paths = reverse ahead.old; left = left.old })) }
{
    'entries: while let Some(path) = ahead.pop() {
        if *left == 0 {
            return Err(LoadingError::WalkDir);
        }
        *left -= 1;
        let kind = match visit(tree, alloc, path.as_str(), sought, ahead) {
            Ok(kind) => kind,
            Err(e) => return Err(e),
        };
        if is_file(kind) {
            return Ok(Some(path));
        }
    }
    Ok(None)
}

/// A walk through the files in a folder and in the folders below it: each folder's entries in the
/// byte order of their names, a subfolder's files at its place. Links to folders are not followed,
/// and names that are no UTF-8 are passed over, unless they may be those of files that the walk
/// looks for.
#[derive(Drop)]
pub struct Walk {
    sought: Sought,
    /// The paths that are still to be visited, the next one last.
    ahead: Seq<Text>,
    /// How many entries may still be visited.
    left: u64,
}

impl Model for Walk {
    ghost use Rattle.std.specs.Prelude.{reverse};
    ghost use Rattle.syntect_base.specs.Ahead.{Ahead};

    ghost Value = { Ahead };

    ghost view = { λ a. record { sought = a.sought; paths = reverse a.ahead; left = a.left } };
}

impl Walk {
    ghost use Rattle.syntect_base.specs.Walks.{IsWalkSoFar};

    /// The walk through a folder, whose entries are listed. One that cannot be listed is `WalkDir`.
    pub fn new<T: Tree>(
        tree: &T,
        alloc: Global,
        folder: Path<'_>,
        sought: Sought,
    ) -> Result<Walk, LoadingError>
        ensures ok { IfOk result
            (IsWalkSoFar (T.told tree.now) sought (path_bytes folder.entry) []) }
        ensures err { IfErr result
            (RefusesWalk (T.told tree.now) sought (path_bytes folder.entry) []) }
    {
        let mut ahead = Seq::new(alloc);
        match enter(tree, alloc, folder.as_str(), sought, &mut ahead) {
            Ok(()) => Ok(Walk {
                sought,
                ahead,
                left: u64::MAX,
            }),
            Err(e) => Err(e),
        }
    }

    /// The next file, and nothing after the last. A path is the folder's text and the names, joined
    /// by `/`. A fault of the walk, or more than 2^64 - 1 entries, is `WalkDir`; what is visited
    /// after it is left open.
    pub fn next_file<T: Tree>(
        &mut self,
        tree: &T,
        alloc: Global,
    ) -> Result<Option<Text>, LoadingError>
        ensures found { IfOk result
            (λ found. IfSome found (GivesFile (T.told tree.now) self.old self.new)) }
        ensures none { IfOk result
            (λ found. IfNone found (GivesNone (T.told tree.now) self.old)) }
        ensures err { IfErr result (RefusesFile (T.told tree.now) self.old) }
    {
        go_on(tree, alloc, self.sought, &mut self.ahead, &mut self.left)
    }
}

/// The paths of the files in a folder and in the folders below it, in the order of a walk that
/// looks for themes. A fault of the walk is `WalkDir`.
pub fn files_below<T: Tree>(
    tree: &T,
    alloc: Global,
    folder: Path<'_>,
) -> Result<Seq<Text>, LoadingError>
    ensures ok { IfOk result
        (IsWalk (T.told tree.now) Sought.Themes (path_bytes folder.entry)) }
    ensures err { IfErr result (λ e. (found : List (List ℕ))
        × RefusesWalk (T.told tree.now) Sought.Themes (path_bytes folder.entry) found e) }
{
    let mut found = Seq::new(alloc);
    let mut walk = match Walk::new(tree, alloc, folder, Sought::Themes) {
        Ok(walk) => walk,
        Err(e) => return Err(e),
    };
    'files: loop {
        match walk.next_file(tree, alloc) {
            Ok(Some(path)) => match found.push(path) {
                Ok(()) => {}
                Err(_) => return Err(LoadingError::Memory),
            },
            Ok(None) => return Ok(found),
            Err(e) => return Err(e),
        }
    }
}
