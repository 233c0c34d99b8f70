//! Patterns.
ghost use Rattle.std.specs.Prelude.{◌≡◌, ℕ, ◌+◌, ◌≤◌, ◌<◌, length, ◌==◌, ◌++◌, encode_utf8_all, OnOk, take, string_bytes, IfErr, IfOk, OnErr, IfSome, IfNone, IsCharBoundary, is_some, is_ok, unwrap_or, option_and_then, if◌then◌else◌, None, true, false};
ghost use Rattle.std.specs.Option.{option_copied};
ghost use Rattle.std.specs.Cmp.Lexicographic.{pointwise};
ghost use Rattle.std.proofs.Common.{rules};
ghost use Rattle.std.specs.Cmp.Rules.{comparing};
ghost use Rattle.syntect_regex.specs.syntect_pattern.Trees.{group_in_look};
ghost use Rattle.syntect_regex.specs.syntect_pattern.Pattern.{pattern_tree, pattern_found};
ghost use Rattle.syntect_regex.specs.syntect_pattern.Found.{GroupsLie};
ghost use Rattle.syntect_regex.specs.syntect_pattern_compile.Compiled.{Compiles};
ghost use Rattle.syntect_regex.specs.syntect_pattern.declared.error.PatternError.{PatternError};
ghost use Rattle.syntect_regex.specs.Bounds.{pattern_is_linear, search_bound};
ghost use Rattle.syntect_regex.specs.Begins.{NoneBeginsBefore, NoneBeginsOutside, BeginsAtEdges, BeginsAtLines};
ghost use Rattle.syntect_pattern_seek.specs.Depths.{AreDepthsIn};
ghost use Rattle.syntect_pattern_seek.specs.Prospect.{IsProspectOf};
ghost use Rattle.syntect_regex.specs.syntect_count.Meter.{Advances, StopsAt};
ghost use Rattle.syntect_regex.specs.Escape.{is_special, escaped_char, escaped};
ghost use Rattle.syntect_regex.specs.Region.{TakesMatch, TriesAt, Leaves, pattern_begins};

use crate::below::count::count::GhostCount;
use crate::below::count::counts::add;
use crate::below::count::meter::Meter;
use crate::below::count::stop::Stop;
use crate::below::pattern_backtrack::state::Search;
use crate::below::pattern_compile::compiler::compile;
use crate::below::pattern_plan::plan::Plan;
use crate::below::pattern_plan::spelt::spelt;
use crate::below::pattern_table::program::Program;
use crate::below::pattern_table::starts::Places;
use crate::body::RegexBody;
use crate::compiled::{Kept, program_in};
use crate::error::PatternError;
use crate::outline::Outline;
use crate::region::Region;
use once_cell::race::OnceBox;
use std::alloc::{AllocError, Global};
use std::marker::Model;
use syntect_pattern_seek::depths::Depths;
use syntect_pattern_seek::prospect::Prospect;
use syntect_pattern_seek::seek::begins_known;

/// A pattern of more bytes is compiled for searches when made: each would compare its text.
const LONG: usize = 4096;

/// A pattern. It is its text: equal texts are equal patterns.
///
/// A text is compiled when the pattern is made, for what is asked of patterns that aren't searched,
/// and again when it is first searched, for its program, which is kept from then on; so those never
/// searched take little memory. One of more than 4096 bytes keeps its program at once.
pub struct Regex {
    body: Box<RegexBody>,
}

/// Written out, so that crates above call it and needn't prove each part's drop again.
impl Drop for Regex {
    fn drop(self) {
        let Regex { body: _ } = self;
    }
}

impl Model for Regex {
    ghost use Rattle.std.specs.Prelude.{List, ℕ, string_bytes};
    ghost use Rattle.syntect_regex.specs.Kept.{IsKeptOf};
    ghost use Rattle.syntect_regex.specs.Outline.{IsOutlineOf};
    ghost use Rattle.syntect_regex.specs.Body.{outline_in};

    ghost Value = { List ℕ };

    ghost view = { λ a. string_bytes a.body.value.text };

    ghost invariant = { λ a. let body = a.body.value in
        IsOutlineOf (string_bytes body.text) (outline_in body)
        × IsKeptOf (string_bytes body.text) body.kept };
}

impl Regex {
    /// The pattern of the text. A text that is no pattern matches nothing.
    pub fn new(alloc: Global, text: String) -> Result<Regex, AllocError>
        ensures { IfOk result (λ r. r ≡ string_bytes text) }
    {
        // Texts that grew as they were read have up to twice the room that they need, and patterns
        // of grammars are kept long
        let mut text = text;
        text.shrink_to_fit();
        if text.len() > LONG {
            return Regex::ready(alloc, text);
        }
        let program = compile(alloc, text.as_str())?;
        let outline = Outline::new(alloc, &program)?;
        let parts = RegexBody::new(text, Kept::Late(OnceBox::new(alloc)), outline);
        let body = Box::new(alloc, parts)?;
        Ok(Regex { body })
    }

    /// The pattern of the text, compiled for searches at once: a pattern that is searched soon is
    /// so compiled a single time, and its searches take a little less.
    pub fn ready(alloc: Global, text: String) -> Result<Regex, AllocError>
        ensures { IfOk result (λ r. r ≡ string_bytes text) }
    {
        let program = compile(alloc, text.as_str())?;
        let outline = Outline::new(alloc, &program)?;
        let made = Box::new(alloc, program)?;
        let parts = RegexBody::new(text, Kept::Own(made), outline);
        let body = Box::new(alloc, parts)?;
        Ok(Regex { body })
    }

    /// The program, which the first search makes. None if the text is no pattern.
    #[inline]
    fn program(&self) -> Result<Option<&Program>, AllocError>
        ensures { IfOk result (λ p. Compiles self.now (option_copied p)) }
    {
        let body: &RegexBody = &self.body;
        let text = &body.text;
        let program = program_in(*text.allocator(), &body.kept, text.as_str())?;
        Ok(program.as_ref())
    }

    /// Why the text is no pattern, if it is none: `NotAPattern`, or `Memory` where memory ran out.
    pub fn try_compile(alloc: Global, text: &str) -> Option<PatternError>
        ensures some { IfSome result
            (λ e. e ≡ PatternError.NotAPattern → pattern_tree text.now ≡ None) }
        ensures none { IfNone result (is_some (pattern_tree text.now) ≡ true) }
    {
        match compile(alloc, text) {
            Ok(Some(_)) => None,
            Ok(None) => Some(PatternError::NotAPattern),
            Err(_) => Some(PatternError::Memory),
        }
    }

    /// The text of the pattern.
    pub fn regex_str(&self) -> &str
        ensures { result.now ≡ self.now }
    {
        self.body.text.as_str()
    }

    /// Whether a lookaround holds the group with this number; none holds group 0, the whole match.
    /// No answer where the pattern has no such group, nor where the text is no pattern.
    pub fn group(&self, number: usize) -> Option<bool>
        ensures { result ≡ option_and_then (λ tree. group_in_look tree number)
            (pattern_tree self.now) }
    {
        self.body.details.group(number)
    }

    /// What can stand at a place where a match begins: where something else stands none begins.
    pub fn begins(&self) -> Places
        ensures { NoneBeginsOutside result self.now }
    {
        self.body.begins()
    }

    /// Whether the pattern is seen at once to begin with `\b`: then no match of it begins in the
    /// midst of a word. Without it nothing is known.
    pub fn begins_at_edges(&self) -> bool
        ensures { result ≡ true → BeginsAtEdges self.now }
    {
        self.body.at_edges
    }

    /// Whether the pattern is seen at once to begin with `^`, each branch of it: then a match of it
    /// begins where a line does alone. Without it nothing is known.
    pub fn begins_at_lines(&self) -> bool
        ensures { result ≡ true → BeginsAtLines self.now }
    {
        self.body.at_lines
    }

    /// What can come after a word in which a match begins: in a word that has something else after
    /// it none begins. The word's characters are those of ASCII.
    pub fn behind_words(&self) -> Places
        ensures { NoneBeginsBefore false result self.now }
    {
        self.body.details.words()
    }

    /// What can come after white space in which a match begins: in white space that has something
    /// else after it none begins. It is tabs, line feeds and spaces.
    pub fn behind_blanks(&self) -> Places
        ensures { NoneBeginsBefore true result self.now }
    {
        self.body.details.blanks()
    }

    /// Whether each search takes steps in proportion to the text: those of a pattern without back
    /// references, whose lookbehinds look for nothing but characters, anchors, sequences and
    /// branches, and, if they are negated, groups, in which no lookahead sets groups in a loop of
    /// more turns than one, and which is not too large with its counted loops written out. A text
    /// that is no pattern is searched in no step.
    pub fn is_linear(&self, alloc: Global) -> Result<bool, AllocError>
        ensures { IfOk result (λ linear. linear ≡ pattern_is_linear self.now) }
    {
        let Some(program) = compile(alloc, self.body.text.as_str())? else {
            return Ok(true);
        };
        let program = spelt(alloc, &program)?;
        let plan = Plan::new(alloc, &program, &mut GhostCount::none())?;
        Ok(plan.is_some())
    }

    /// An equal pattern. It is not compiled before it is searched.
    pub fn clone(&self, alloc: Global) -> Result<Regex, AllocError>
        ensures { IfOk result (λ r. r ≡ self.now) }
    {
        let parts = RegexBody {
            ascii: self.body.ascii,
            text: String::from_str(alloc, self.body.text.as_str())?,
            kept: Kept::Late(OnceBox::new(alloc)),
            details: self.body.details.clone(alloc)?,
            wide: self.body.wide,
            end: self.body.end,
            at_edges: self.body.at_edges,
            at_lines: self.body.at_lines,
        };
        let body = Box::new(alloc, parts)?;
        Ok(Regex { body })
    }

    /// Searches `text[..end]` from `begin` on, both being byte positions: whether the pattern
    /// matches at some place there. The least place counts, and the first match at it. Where there
    /// is one, the region has its groups; else, and where memory runs out, the region stays.
    ///
    /// Group 0 is the whole match. Each group that is set lies in the text and between characters.
    /// Those that stand in no lookaround lie in the match, and each two of them lie apart or one in
    /// the other.
    pub fn search_into(
        &self,
        text: &str,
        begin: usize,
        end: usize,
        region: &mut Region,
    ) -> Result<bool, AllocError>
        requires order { begin ≤ end }
        requires begin_boundary { IsCharBoundary text.now begin }
        requires end_boundary { IsCharBoundary text.now end }
        ensures ok { IfOk result
            (λ found. TakesMatch (pattern_found self.now
            (take end text.now) begin) region.old found region.new) }
        ensures groups { IfOk result
            (λ found. found ≡ true → GroupsLie self.now
            (take end text.now) begin region.new) }
        ensures err { OnErr result (region.new ≡ region.old) }
    {
        self.search_counted(text, begin, end, region, &mut GhostCount::none())
    }

    /// Searches as `search_into` does, and counts its steps. Of a linear pattern they are within a
    /// bound that goes by the pattern and the length of what is searched. A step is one of the
    /// search that backs up, which may read letters in a row at once, or one at a cell of the
    /// pattern's plan; a stretch of characters counts one, and one more for each eight of them, and
    /// a plan's pass over the text for what lookbehinds look for one for each four bytes. What is
    /// passed over before a place where a match may begin isn't counted, nor are a plan's passes
    /// over the pattern's nodes and the ordering of its cells. The count never falls, and a search
    /// that finds something has counted a step at least.
    pub fn search_counted(
        &self,
        text: &str,
        begin: usize,
        end: usize,
        region: &mut Region,
        count: &mut GhostCount,
    ) -> Result<bool, AllocError>
        requires order { begin ≤ end }
        requires begin_boundary { IsCharBoundary text.now begin }
        requires end_boundary { IsCharBoundary text.now end }
        ensures ok { IfOk result (λ found. TakesMatch
            (pattern_found self.now (take end text.now) begin) region.old found region.new) }
        ensures groups { IfOk result (λ found. found ≡ true
            → GroupsLie self.now (take end text.now) begin region.new) }
        ensures err { OnErr result (region.new ≡ region.old) }
        ensures steps { pattern_is_linear self.now ≡ true
            → OnOk result (count.new.made ≤ count.old.made + search_bound self.now end) }
        ensures rises { OnOk result (count.old.made ≤ count.new.made) }
        ensures counted { IfOk result (λ found. found ≡ true → count.old.made < count.new.made) }
    {
        let mut meter = Meter::unlimited();
        match self.search_by_meter(text, begin, end, region, &mut meter) {
            Ok(found) => {
                add(count, meter.count());
                Ok(found)
            }
            Err(_) => Err(AllocError),
        }
    }

    /// Searches as `search_counted` does, its steps made by the meter: where it has too few left,
    /// the search stops once it has made them, and the region stays.
    pub fn search_by_meter(
        &self,
        text: &str,
        begin: usize,
        end: usize,
        region: &mut Region,
        meter: &mut Meter,
    ) -> Result<bool, Stop>
        requires order { begin ≤ end }
        requires begin_boundary { IsCharBoundary text.now begin }
        requires end_boundary { IsCharBoundary text.now end }
        ensures ok { IfOk result (λ found. TakesMatch
            (pattern_found self.now (take end text.now) begin) region.old found region.new) }
        ensures groups { IfOk result (λ found. found ≡ true
            → GroupsLie self.now (take end text.now) begin region.new) }
        ensures err { OnErr result (region.new ≡ region.old) }
        ensures steps { pattern_is_linear self.now ≡ true
            → OnOk result (meter.new.made ≤ meter.old.made + search_bound self.now end) }
        ensures advances { Advances meter.old meter.new }
        ensures stops { IfErr result (StopsAt meter.new) }
        ensures counted { IfOk result (λ found. found ≡ true → meter.old.made < meter.new.made) }
    {
        crate::below::pattern::laws::pattern_matches_are_laid_out();
        let Some(program) = self.program()? else {
            return Ok(false);
        };
        let size = self.body.text.len();
        region.find(program, size, text.split_at(end).0, begin, meter)
    }

    /// Whether a match begins at the place, a byte position. Where one does, the region has the
    /// groups of the first one; else, and where memory runs out, the region stays, and a search
    /// from just after the place on finds what one from the place on does.
    pub fn match_at(
        &self,
        text: &str,
        place: usize,
        region: &mut Region,
    ) -> Result<bool, AllocError>
        ensures ok { IfOk result (λ b. TriesAt self.now text.now place region.old b region.new) }
        ensures err { OnErr result (region.new ≡ region.old) }
    {
        self.match_at_counted(text, place, region, &mut GhostCount::none())
    }

    /// Tells as `match_at` does, and counts the steps as `search_counted` does, and as
    /// `match_at_known` does those of a try.
    pub fn match_at_counted(
        &self,
        text: &str,
        place: usize,
        region: &mut Region,
        count: &mut GhostCount,
    ) -> Result<bool, AllocError>
        ensures ok { IfOk result (λ b. TriesAt self.now text.now place region.old b region.new) }
        ensures err { OnErr result (region.new ≡ region.old) }
        ensures steps { pattern_is_linear self.now ≡ true
            → OnOk result (count.new.made
            ≤ count.old.made + search_bound self.now (length text.now)) }
        ensures rises { OnOk result (count.old.made ≤ count.new.made) }
        ensures counted { IfOk result (λ found. found ≡ true → count.old.made < count.new.made) }
    {
        let alloc = *self.body.text.allocator();
        let mut known = Prospect::new();
        let mut depths = Depths::new(alloc);
        let mut meter = Meter::unlimited();
        match self.match_at_known(text, place, &mut known, &mut depths, region, &mut meter) {
            Ok(found) => {
                add(count, meter.count());
                Ok(found)
            }
            Err(_) => Err(AllocError),
        }
    }

    /// Tells as `match_at` does, with what is known of the pattern in this text, of which more may
    /// be known after: nothing is searched at a place where no match can begin by that. To try a
    /// pattern at place after place of one text, hand in what was left the last time. Patterns that
    /// backed up too often leave the plans that they go on by in `depths`, which may be handed in
    /// for all patterns that are tried in the text.
    ///
    /// The steps are made by the meter: where it has too few left, the search stops once it has
    /// made them, and the region stays. Each try is a step, whatever it finds; it counts one more
    /// for each 256 bytes of the pattern's text, as far as these are 14000, and one for each 64
    /// bytes of the text that are looked at for what matches need.
    pub fn match_at_known(
        &self,
        text: &str,
        place: usize,
        known: &mut Prospect,
        depths: &mut Depths,
        region: &mut Region,
        meter: &mut Meter,
    ) -> Result<bool, Stop>
        requires known { IsProspectOf self.now text.now known.old }
        requires depths { AreDepthsIn text.now depths.old }
        ensures known { IsProspectOf self.now text.now known.new }
        ensures depths { OnOk result (AreDepthsIn text.now depths.new) }
        ensures ok { IfOk result (λ b. TriesAt self.now text.now place region.old b region.new) }
        ensures err { OnErr result (region.new ≡ region.old) }
        ensures steps { pattern_is_linear self.now ≡ true
            → OnOk result (meter.new.made
            ≤ meter.old.made + search_bound self.now (length text.now)) }
        ensures advances { Advances meter.old meter.new }
        ensures stops { IfErr result (StopsAt meter.new) }
        ensures counted { OnOk result (meter.old.made < meter.new.made) }
    {
        meter.spend(try_steps(self.body.text.len()))?;
        if known.rules_out(place) {
            return Ok(false);
        }
        let Some(program) = self.program()? else {
            return Ok(false);
        };
        let before = *known;
        let is_left = known.is_left(program, text, place);
        meter.spend(known.look_steps(&before, text, place))?;
        if !is_left {
            return Ok(false);
        }
        let pattern = self.body.text.as_str();
        region.find_known(program, pattern, text, place, known, depths, meter)
    }

    /// Searches as `search_into` does, with a region if one is lent; else the memory is dropped.
    pub fn search(
        &self,
        alloc: Global,
        text: &str,
        begin: usize,
        end: usize,
        region: Option<&mut Region>,
    ) -> Result<bool, AllocError>
        requires order { begin ≤ end }
        requires begin_boundary { IsCharBoundary text.now begin }
        requires end_boundary { IsCharBoundary text.now end }
        ensures found { IfOk result
            (λ found. found ≡ is_some (pattern_found self.now (take end text.now) begin)) }
        ensures groups { IfOk result
            (λ found. found ≡ true → Leaves (λ old new.
            GroupsLie self.now (take end text.now) begin new) region.entry region.exit) }
        ensures region { Leaves
            (λ old new. new ≡ (if is_ok result
            then unwrap_or (pattern_found self.now (take end text.now) begin) old
            else old)) region.entry region.exit }
    {
        match region {
            Some(region) => self.search_into(text, begin, end, region),
            None => self.search_into(text, begin, end, &mut Region::new(alloc)),
        }
    }

    /// Whether a match begins at place 0, wherever it ends.
    pub fn is_match(&self, alloc: Global, text: &str) -> Result<bool, AllocError>
        ensures { IfOk result (λ found. found ≡ pattern_begins self.now text.now 0) }
    {
        let Some(program) = self.program()? else {
            return Ok(false);
        };
        let mut search = Search::new(alloc);
        let pattern = self.body.text.as_str();
        let mut known = Prospect::new();
        let mut depths = Depths::new(alloc);
        let mut meter = Meter::unlimited();
        match begins_known(
            &mut search,
            program,
            pattern,
            text,
            0,
            &mut known,
            &mut depths,
            &mut meter,
        ) {
            Ok(found) => Ok(found),
            Err(_) => Err(AllocError),
        }
    }
}

/// At a try a pattern's text may be compared with that of its program, and with those of plans: so
/// many bytes count as a step.
const COMPARED_A_STEP: usize = 256;

/// But no more steps than so many.
const MOST_COMPARED: usize = 14000;

/// As how many steps a try of a pattern of so many bytes counts, besides those of its search.
#[inline]
fn try_steps(size: usize) -> usize
    ensures counted { 0 < result }
    ensures bound { result ≤ 14001 }
{
    1 + (size / COMPARED_A_STEP).min(MOST_COMPARED)
}

/// The character can have a meaning of its own in a pattern.
#[tactic(auto, unfolding(crate::specs::Escape::is_special))]
fn is_special(c: char) -> bool
    ensures { result ≡ is_special c }
{
    matches!(
        c,
        '\\' | '.'
            | '+'
            | '*'
            | '?'
            | '('
            | ')'
            | '|'
            | '['
            | ']'
            | '{'
            | '}'
            | '^'
            | '$'
            | '#'
            | '&'
            | '-'
            | '~'
    )
}

/// Appends the character, escaped if it can have a meaning of its own.
fn push_escaped(pattern: &mut String, c: char) -> Result<(), AllocError>
    ensures { OnOk result (string_bytes pattern.new
        ≡ string_bytes pattern.old ++ encode_utf8_all (escaped_char c)) }
{
    if is_special(c) {
        pattern.push('\\')?;
    }
    pattern.push(c)
}

/// The text as a pattern: a backslash stands before each character that can have a meaning in one.
/// White space stays as it is, so where the flag `x` is set, the pattern passes over it.
pub fn escape(alloc: Global, text: &str) -> Result<String, AllocError>
    ensures { IfOk result (λ t. string_bytes t ≡ escaped text.now) }
{
    let mut pattern = String::new(alloc);
    for c in text.chars() {
        push_escaped(&mut pattern, c)?;
    }
    Ok(pattern)
}

impl Clone for Regex {
    ghost is_clone = { λ x y. y ≡ x };

    fn clone(&self) -> Result<Regex, AllocError> {
        Regex::clone(self, *self.body.text.allocator())
    }
}

impl PartialEq for Regex {
    ghost eq = { pointwise ◌==◌ };

    ghost laws = { Prim.search (comparing, rules) };

    fn eq(&self, other: &Self) -> bool {
        self.body.text == other.body.text
    }
}

impl Eq for Regex {
    ghost laws = { Prim.search (comparing, rules) };
}
