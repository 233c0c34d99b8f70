//! Syntaxes by first lines.
ghost use Rattle.std.specs.Prelude.{◌≡◌, ◌-◌, ◌≤◌, IfErr, IfOk};
ghost use Rattle.std.specs.Option.{option_copied};
ghost use Rattle.std.specs.Path.{path_bytes};
ghost use Rattle.syntect_grammar_limits.specs.syntect_base.Limiting.{IsWithinLimit, limit_of};
ghost use Rattle.syntect_grammar.specs.Finding.{found_by_first_line, IsFoundFor, last_fitting, without_mark};
ghost use Rattle.syntect_grammar.specs.Finding as finding;
ghost use Rattle.syntect_grammar_limits.specs.syntect_count.Meter.{Advances, StopsAt};
ghost use Rattle.syntect_grammar_limits.specs.FirstLines.{NoneBehind, NotFoundWithin, ReachesSteps, StopsSearch};
ghost use Rattle.syntect_grammar.specs.Link.{syntaxes_in};

use crate::below::base::limits::Limits;
use crate::below::base::tree::{Tree, first_line};
use crate::below::count::count::GhostCount;
use crate::below::count::counts::add;
use crate::below::count::meter::Meter;
use crate::below::count::stop::Stop;
use crate::below::regexes::region::Region;
use crate::first_line_error::{FindWithinError, stopped};
use std::alloc::Global;
use std::path::Path;
use syntect_grammar::error::Error;
use syntect_grammar::finders::without_mark;
use syntect_grammar::syntax_set::{SyntaxReference, SyntaxSet};

/// A meter of as many steps as the limit says, if it is one.
fn meter_of(steps: usize) -> Meter
    ensures made { result.made ≡ 0 }
    ensures left { result.left ≡ limit_of steps }
{
    if steps == usize::MAX {
        Meter::unlimited()
    } else {
        Meter::within(steps)
    }
}

/// Whether the first-line pattern of a syntax is found in a line.
fn fits_line(
    syntax: &SyntaxReference,
    line: &str,
    region: &mut Region,
    meter: &mut Meter,
) -> Result<bool, Stop>
    ensures fits { IfOk result (λ fits. fits ≡ finding.fits_line line.now syntax.now) }
    ensures advances { Advances meter.old meter.new }
    ensures stops { IfErr result (StopsAt meter.new) }
{
    match &syntax.first_line {
        Some(pattern) => pattern.search_by_meter(line, 0, line.len(), region, meter),
        None => Ok(false),
    }
}

/// The last syntax whose first-line pattern is found in a line without a mark.
fn find_by_meter<'s>(
    alloc: Global,
    set: &'s SyntaxSet,
    line: &str,
    meter: &mut Meter,
) -> Result<Option<&'s SyntaxReference>, FindWithinError>
    ensures found { IfOk result (λ found. option_copied found
        ≡ last_fitting (finding.fits_line line.now) (syntaxes_in set.now)) }
    ensures refused { IfErr result (NoneBehind set.now line.now) }
    ensures advances { Advances meter.old meter.new }
    ensures stops { IfErr result (StopsSearch meter.new) }
{
    let mut region = Region::new(alloc);
    let syntaxes = set.syntaxes();
    let mut left = syntaxes.len();
    while left > 0 {
        left -= 1;
        let syntax = &syntaxes[left];
        match fits_line(syntax, line, &mut region, meter) {
            Ok(true) => return Ok(Some(syntax)),
            Ok(false) => {}
            Err(stop) => return Err(stopped(stop, left)),
        }
    }
    Ok(None)
}

/// The syntax that `SyntaxSet::find_syntax_by_first_line` finds, where the searches for it make no
/// more steps together than `Limits::steps` of `limits`. Their steps are added to `count`, as
/// `Regex::search_counted` counts them.
///
/// `LimitReached` where they made as many and it isn't known yet, with the syntax whose pattern was
/// searched last; `Refused` for lack of memory alone.
pub fn find_syntax_by_first_line_within<'s>(
    alloc: Global,
    set: &'s SyntaxSet,
    line: &str,
    limits: &Limits,
    count: &mut GhostCount,
) -> Result<Option<&'s SyntaxReference>, FindWithinError>
    ensures found { IfOk result (λ found. option_copied found
        ≡ found_by_first_line set.now line.now) }
    // none of the syntaxes after the one that is named fits
    ensures refused { IfErr result (NoneBehind set.now (without_mark line.now)) }
    // no more steps are made than the limit says, and as many where it is reached
    ensures no_fewer { count.old.made ≤ count.new.made }
    ensures few_steps { IsWithinLimit limits.now.steps (count.new.made - count.old.made) }
    ensures reached { IfErr result
        (ReachesSteps limits.now (count.new.made - count.old.made)) }
{
    let mut meter = meter_of(limits.steps);
    let found = find_by_meter(alloc, set, without_mark(line), &mut meter);
    add(count, meter.count());
    found
}

/// The syntax that `SyntaxSet::find_syntax_for_file` finds, where the searches of the first line
/// make no more steps together than `Limits::steps` of `limits`. Their steps are added to `count`.
/// The file is opened, and its line read, only where its path tells nothing.
///
/// `Refused` as that call is; `LimitReached` as `find_syntax_by_first_line_within` is.
pub fn find_syntax_for_file_within<'s, T: Tree>(
    tree: &T,
    alloc: Global,
    set: &'s SyntaxSet,
    path: Path<'_>,
    limits: &Limits,
    count: &mut GhostCount,
) -> Result<Option<&'s SyntaxReference>, FindWithinError>
    ensures found { IfOk result (λ found.
        IsFoundFor (T.told tree.now) set.now (path_bytes path.entry) (option_copied found)) }
    ensures refused { IfErr result
        (NotFoundWithin (T.told tree.now) set.now (path_bytes path.entry)) }
    ensures no_fewer { count.old.made ≤ count.new.made }
    ensures few_steps { IsWithinLimit limits.now.steps (count.new.made - count.old.made) }
    ensures reached { IfErr result
        (ReachesSteps limits.now (count.new.made - count.old.made)) }
{
    if let Some(syntax) = set.find_syntax_by_file_name(path) {
        return Ok(Some(syntax));
    }
    let line = match first_line(tree, alloc, path.as_str()) {
        Ok(line) => line,
        Err(e) => return Err(FindWithinError::Refused(Error::from(e))),
    };
    find_syntax_by_first_line_within(alloc, set, line.as_str(), limits, count)
}
