//! What each match needs.
ghost use Rattle.std.specs.Prelude.{◌≡◌, ◌<◌, ◌∷◌, ℕ, IfSome, List, length, slice_index_or, true};
ghost use Rattle.syntect_pattern.specs.Trees.{Tree, alt, nothing, one_of, seq};
ghost use Rattle.syntect_pattern.specs.Sets.{Set};
ghost use Rattle.syntect_pattern.specs.Letters.{letters_tree};
ghost use Rattle.syntect_pattern_table.specs.Builder.{tree_in};
ghost use Rattle.syntect_pattern_table.specs.Needs.{AreNeeded, MayNeed};
ghost use Rattle.syntect_pattern_table.specs.Starts.{AreFirsts, is_in};
ghost use Rattle.syntect_pattern_table.specs.Table.{node_tree, parts_before};
ghost use Rattle.syntect_pattern_compile.specs.NeedViews.{AreJust, BeginsIn, BothAreNeeded, IsAmong, IsNeeded, IsTable, PassesNeeds, is_one};

use syntect_pattern_table::needs::{Need, TwoNeeds};
use syntect_pattern_table::node::Node;
use syntect_pattern_table::place_list::PlaceList;
use syntect_pattern_table::starts::{Places, anywhere, either, places_of_char, places_of_letter};

/// The characters that make up four fifths of usual texts: most small letters, spaces and newlines.
const FREQUENT: u128 = 0x003d_f37a_0000_0000_0000_0001_0000_0400;

/// The characters that make up most of the rest of usual texts: other small letters, some capital
/// ones, brackets, and signs between words.
const USUAL: u128 = 0x2bc0_0884_801d_522a_7c00_f304_0000_0200;

/// How much a need weighs at most that is worth to be looked for.
const LIMIT: u32 = 12000;

/// How much a need weighs that is met so seldom that no other is looked for.
const SELDOM: u32 = 90;

/// One of these, with one of those right after it, and a weight that grows with how common it is.
#[derive(Clone, Copy)]
struct Sought {
    here: Places,
    next: Places,
    weight: u32,
}

/// How often one of these stands at a place of a usual text.
fn weight_of(places: Places) -> u32 {
    let frequent = (places.ascii & FREQUENT).count_ones();
    let usual = (places.ascii & USUAL).count_ones();
    let all = places.ascii.count_ones() + u32::from(places.wide);
    frequent * 16 + usual * 4 + all
}

/// What is sought, with its weight.
fn weighed(here: Places, next: Places) -> Sought
    ensures here { result.here ≡ here }
    ensures next { result.next ≡ next }
{
    let weight = if here.end {
        u32::MAX
    } else {
        weight_of(here).saturating_mul(weight_of(next))
    };
    Sought { here, next, weight }
}

/// What stands everywhere.
fn unknown() -> Sought
    ensures { (t : Tree) → IsNeeded result t }
{
    weighed(anywhere(), anywhere())
}

/// One of the two.
fn one_of_two(a: Sought, b: Sought) -> Sought
    ensures left { IsAmong a (is_in result.here) (is_in result.next) }
    ensures right { IsAmong b (is_in result.here) (is_in result.next) }
{
    weighed(either(a.here, b.here), either(a.next, b.next))
}

/// Where matches of the node at the place begin.
fn places_at(firsts: &PlaceList, place: usize) -> Places
    requires { place < length firsts.now }
    ensures { (ts : List Tree) → AreFirsts firsts.now ts
        → BeginsIn result (slice_index_or ts place nothing) }
{
    firsts.get(place).unwrap_or(anywhere())
}

/// What matches of the node at the place begin with.
fn begin_of(firsts: &PlaceList, place: usize) -> Sought
    requires { place < length firsts.now }
    ensures { (ts : List Tree) → AreFirsts firsts.now ts
        → IsNeeded result (slice_index_or ts place nothing) }
{
    weighed(places_at(firsts, place), anywhere())
}

/// Whether the node is a single character.
fn is_single(node: &Node) -> bool
    ensures { result ≡ true → (ts : List Tree) → is_one (node_tree ts node.now) ≡ true }
{
    matches!(node, Node::Char(_) | Node::Class(_))
}

/// The first of two parts in a row, if it is of ASCII, with what the other begins with.
fn pair_of(nodes: &[Node], firsts: &PlaceList, first: usize, second: usize) -> Option<Sought>
    requires table { IsTable nodes.now firsts.now }
    requires first { first < length nodes.now }
    requires second { second < length nodes.now }
    ensures { IfSome result (λ x. IsNeeded x
        (seq (tree_in nodes.now first) (tree_in nodes.now second))) }
{
    let here = places_at(firsts, first);
    if here.wide || !is_single(&nodes[first]) {
        return None;
    }
    Some(weighed(here, places_at(firsts, second)))
}

/// What stands at a character with one of these after it, of which nothing is known where the
/// character may be beyond ASCII.
fn pair_at(here: Places, next: Places) -> Sought
    ensures { (a : Set) (u : Tree) → BeginsIn here (one_of a) → BeginsIn next u
        → IsNeeded result (seq (one_of a) u) }
{
    if here.wide {
        return weighed(here, anywhere());
    }
    weighed(here, next)
}

/// What a letter needs before other letters and what begins with these.
fn pair_of_letters(fold: bool, first: u8, others: &[u8], behind: Places) -> Sought
    ensures { (u : Tree) → BeginsIn behind u
        → IsNeeded result (letters_tree fold (first ∷ others.now) u) }
{
    let here = places_of_letter(fold, first);
    match others.split_first() {
        Some((second, _)) => pair_at(here, places_of_letter(fold, *second)),
        None => pair_at(here, behind),
    }
}

/// What matches of the node at the place begin with, and what comes after that where it is known.
fn leading(nodes: &[Node], firsts: &PlaceList, place: usize) -> Sought
    requires table { IsTable nodes.now firsts.now }
    requires inside { place < length nodes.now }
    ensures { IsNeeded result (tree_in nodes.now place) }
{
    match &nodes[place] {
        Node::Sequence(first, second) => match pair_of(nodes, firsts, *first, *second) {
            Some(pair) => pair,
            None => begin_of(firsts, place),
        },
        Node::Text { letters, rest } => {
            let behind = places_at(firsts, *rest);
            pair_of_letters(letters.fold, letters.first, letters.others(), behind)
        }
        _ => begin_of(firsts, place),
    }
}

/// The part that each match of the node matches as well, at its place or after it, if the node is
/// no sequence.
fn part_needed(node: &Node) -> Option<usize>
    ensures before { IfSome result (λ part. (place : ℕ) → parts_before place node.now ≡ true
        → part < place) }
    ensures leads { IfSome result (λ part. (ts : List Tree)
        → PassesNeeds (slice_index_or ts part nothing) (node_tree ts node.now)) }
{
    match node {
        Node::Repeat {
            greedy: _,
            least,
            most: _,
            body,
        } => { if *least == 0 { None } else { Some(*body) } }
        Node::Group { number: _, body } => Some(*body),
        Node::Atomic(body) => Some(*body),
        Node::Ahead { negated, body } => { if *negated { None } else { Some(*body) } }
        _ => None,
    }
}

/// What a branch needs: with `begins` what it begins with.
#[cycle(needs)]
fn need_of_branch(nodes: &[Node], firsts: &PlaceList, place: usize, begins: bool) -> Sought
    requires table { IsTable nodes.now firsts.now }
    requires inside { place < length nodes.now }
    ensures { IsNeeded result (tree_in nodes.now place) }
{
    if begins {
        return leading(nodes, firsts, place);
    }
    let mut found = Found::new();
    found.add_needs(nodes, firsts, place);
    found.rarest
}

/// What one of several branches needs, the first one or one of the rest.
#[cycle(needs)]
fn need_of_branches(
    nodes: &[Node],
    firsts: &PlaceList,
    first: usize,
    rest: usize,
    begins: bool,
) -> Sought
    requires table { IsTable nodes.now firsts.now }
    requires first { first < length nodes.now }
    requires rest { rest < length nodes.now }
    ensures { IsNeeded result (alt (tree_in nodes.now first) (tree_in nodes.now rest)) }
{
    let mut all = need_of_branch(nodes, firsts, first, begins);
    let mut place = rest;
    'branches: loop {
        if all.weight > LIMIT {
            return unknown();
        }
        let Node::Alternation(first, second) = &nodes[place] else {
            return one_of_two(all, need_of_branch(nodes, firsts, place, begins));
        };
        all = one_of_two(all, need_of_branch(nodes, firsts, *first, begins));
        place = *second;
    }
}

/// The two needs of a pattern that weigh least, of those that were found so far.
#[derive(Drop)]
struct Found {
    rarest: Sought,
    other: Sought,
}

impl Found {
    /// Nothing was found yet.
    fn new() -> Found
        ensures { (t : Tree) → BothAreNeeded result t }
    {
        Found {
            rarest: unknown(),
            other: unknown(),
        }
    }

    /// Takes another need into account.
    fn add(&mut self, need: Sought)
        ensures { (t : Tree) → IsNeeded need t → BothAreNeeded self.old t
            → BothAreNeeded self.new t }
    {
        if need.weight < self.rarest.weight {
            self.other = self.rarest;
            self.rarest = need;
        } else if need.weight < self.other.weight {
            self.other = need;
        }
    }

    /// Adds what matches of a sequence need for the first of its two parts.
    #[cycle(needs)]
    fn add_first(&mut self, nodes: &[Node], firsts: &PlaceList, first: usize, second: usize)
        requires table { IsTable nodes.now firsts.now }
        requires first { first < length nodes.now }
        requires second { second < length nodes.now }
        ensures { (t : Tree)
            → PassesNeeds (seq (tree_in nodes.now first) (tree_in nodes.now second)) t
            → BothAreNeeded self.old t → BothAreNeeded self.new t }
    {
        match pair_of(nodes, firsts, first, second) {
            Some(pair) => self.add(pair),
            None => self.add_needs(nodes, firsts, first),
        }
    }

    /// Adds what letters need that stand before what begins with these.
    fn add_letters(&mut self, fold: bool, first: u8, others: &[u8], behind: Places)
        ensures { (t u : Tree) → PassesNeeds (letters_tree fold (first ∷ others.now) u) t
            → BeginsIn behind u → BothAreNeeded self.old t → BothAreNeeded self.new t }
    {
        self.add(pair_of_letters(fold, first, others, behind));
        if self.rarest.weight <= SELDOM {
            return;
        }
        if let Some((second, more)) = others.split_first() {
            self.add_letters(fold, *second, more, behind);
        }
    }

    /// Adds what matches of the node at the place need at their place or after it. Parts stand in a
    /// row on the right, and nest elsewhere no deeper than groups do.
    #[cycle(needs)]
    fn add_needs(&mut self, nodes: &[Node], firsts: &PlaceList, root: usize)
        requires table { IsTable nodes.now firsts.now }
        requires inside { root < length nodes.now }
        ensures { (t : Tree) → PassesNeeds (tree_in nodes.now root) t → BothAreNeeded self.old t
            → BothAreNeeded self.new t }
    {
        let mut place = root;
        'parts: loop {
            if self.rarest.weight <= SELDOM {
                return;
            }
            place = match &nodes[place] {
                Node::Sequence(first, second) => {
                    self.add_first(nodes, firsts, *first, *second);
                    *second
                }
                Node::Text { letters, rest } => {
                    let behind = places_at(firsts, *rest);
                    self.add_letters(letters.fold, letters.first, letters.others(), behind);
                    *rest
                }
                Node::Alternation(first, rest) => {
                    self.add(need_of_branches(nodes, firsts, *first, *rest, true));
                    if self.rarest.weight > SELDOM {
                        self.add(need_of_branches(nodes, firsts, *first, *rest, false));
                    }
                    return;
                }
                node => match part_needed(node) {
                    Some(part) => part,
                    None => {
                        self.add(begin_of(firsts, place));
                        return;
                    }
                },
            };
        }
    }
}

/// The ASCII character that is the only one of these, if there is just one.
fn single_of(places: Places) -> Option<u8>
    ensures { IfSome result (AreJust places) }
{
    let first = places.ascii.trailing_zeros();
    if places.wide || places.end || first >= 128 {
        return None;
    }
    let byte = first as u8;
    if places.ascii == places_of_char(byte as char).ascii {
        Some(byte)
    } else {
        None
    }
}

/// The need, if it is worth to be looked for.
fn need_of(found: Sought) -> Need
    ensures { (t : Tree) → IsNeeded found t → MayNeed result t }
{
    if found.here.end || found.weight > LIMIT {
        return Need::Unknown;
    }
    match single_of(found.here) {
        Some(byte) => Need::Byte {
            byte,
            next: found.next,
        },
        None => Need::One {
            here: found.here,
            next: found.next,
        },
    }
}

/// What matches of the node at the place need at their place or after it: two of the needs that are
/// known, those that are met least often.
pub fn needs_of(nodes: &[Node], firsts: &PlaceList, root: usize) -> TwoNeeds
    requires table { IsTable nodes.now firsts.now }
    requires inside { root < length nodes.now }
    ensures { AreNeeded result (tree_in nodes.now root) }
{
    let mut found = Found::new();
    found.add_needs(nodes, firsts, root);
    TwoNeeds {
        rarest: need_of(found.rarest),
        other: need_of(found.other),
    }
}
