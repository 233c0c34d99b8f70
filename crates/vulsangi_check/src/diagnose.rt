//! One grammar by itself, looked through.
ghost use Rattle.std.specs.Prelude.{IfOk, true, string_bytes};
ghost use Rattle.std.specs.Path.{path_file_stem};
ghost use Rattle.syntect_grammar_limits.specs.Limited.{left_of};
ghost use Rattle.syntect_grammar_limits.specs.syntect_base.Limiting.{usual};
ghost use Rattle.syntect_grammar_limits.specs.syntect_grammar_loader.Loading.{loaded};
ghost use Rattle.vulsangi_check.specs.Faults.{IsFaultOf};

use crate::check::{check_grammars, read_grammar};
use crate::vulsangi_grammar::findings::Findings;
use crate::vulsangi_grammar::syntect::assets::AssetsError;
use crate::vulsangi_grammar::syntect::parsing::{LoadWithinError, ScopeRepository};
use std::alloc::Global;
use std::slice;

/// What is found in a grammar by itself.
#[derive(Drop)]
pub struct Diagnosis {
    /// Why loading refuses it, if it does.
    pub fault: Option<LoadWithinError>,
    /// What is found: the fault with its place, and what can't be meant or costs much.
    pub findings: Findings,
}

/// Looks through a grammar's text, under the path of its file. There is a fault exactly where
/// `load_from_str_within` refuses the text within the default limits, and it is that refusal. Out
/// of memory is `Memory`, and no fault. What other grammars define is told as missing.
pub fn diagnose(
    alloc: Global,
    path: &str,
    text: String,
    repository: &mut ScopeRepository,
) -> Result<Diagnosis, AssetsError>
    ensures { IfOk result (λ d. IsFaultOf (left_of usual (string_bytes text))
        (loaded (string_bytes text) true (path_file_stem path.now) repository.old) d.fault) }
{
    let (grammar, fault) = read_grammar(alloc, path, text, repository)?;
    let mut findings = Findings::new(alloc);
    let (grammars, faults) = (slice::from_ref(&grammar), slice::from_ref(&fault));
    check_grammars(alloc, grammars, faults, &[], &mut findings)?;
    Ok(Diagnosis { fault, findings })
}
