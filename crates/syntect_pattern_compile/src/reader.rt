//! The reading of a pattern.
ghost use Rattle.std.specs.Prelude.{◌≡◌, ◌<◌, ◌≤◌, [], ℕ, true, Option, length, chars, option_map, IfOk, OnOk, IfSome};
ghost use Rattle.syntect_pattern_table.specs.Builder.{Grows, Holds, tree_in};
ghost use Rattle.syntect_pattern_words.specs.BodyViews.{body_of};
ghost use Rattle.syntect_pattern_words.specs.OpeningViews.{place_as, wrapped};
ghost use Rattle.syntect_pattern_words.specs.TokenViews.{token_as};
ghost use Rattle.syntect_pattern_words.specs.EscapeViews.{escape_of};
ghost use Rattle.syntect_pattern_words.specs.MemberViews.{leaf_set};
ghost use Rattle.syntect_pattern.specs.Trees.{one_of, anchor};
ghost use Rattle.syntect_pattern.specs.Sets.{from_to};
ghost use Rattle.syntect_pattern_table.specs.SetTable.{set_in};
ghost use Rattle.syntect_pattern.specs.Escapes as definition;
ghost use Rattle.syntect_pattern.specs.Grammar as grammar;

use crate::builder::{Builder, Item};
use crate::classes::{BRACKET_ROOM, DEEPEST, SET_ROOM, SetBuilder};
use crate::syntect_values::seq::Seq;
use std::alloc::{AllocError, Global};
use syntect_pattern::anchor::Anchor;
use syntect_pattern_table::node::Node;
use syntect_pattern_words::escapes::{Escape, read_escape};
use syntect_pattern_words::members::Leaf;
use syntect_pattern_words::openings::{
    Names, Opening, Place, Wrap, forward, number_of, read_opening,
};
use syntect_pattern_words::quantifiers::pass;
use syntect_pattern_words::text::{after, begins};
use syntect_pattern_words::tokens::{Token, next_token, plain_in, read_looping};

/// For how many items of a group there is room from the start.
const ITEMS: usize = 16;

/// What is read of a group: the alternatives before this one, and the items of this one.
#[derive(Drop)]
pub struct Body {
    before: Seq<usize>,
    items: Seq<Item>,
}

/// A pattern that is being read.
#[derive(Drop)]
pub struct Reader {
    pub builder: Builder,
    pub names: Names,
    /// Whether a back reference was met. Else it makes no difference which groups are known.
    pub refers: bool,
    /// Whether a lookbehind was met.
    pub looks_back: bool,
}

impl Reader {
    ghost use Rattle.syntect_pattern_compile.specs.JoinViews.{IsItemIn, item_tree};
    ghost use Rattle.syntect_pattern_compile.specs.ReaderViews.{body_as, IsBodyIn, tree_as, StaysMet, WithGroups, ReadsItem, ReadsFirm, ReadsEscape, ReadsStep, inner_of};

    /// Nothing read, with room for so many nodes.
    pub fn new(alloc: Global, room: usize) -> Result<Reader, AllocError>
        ensures { IfOk result (λ r. r.names ≡ []) }
    {
        let nodes = Seq::from_vec(Vec::with_capacity(alloc, room)?);
        Ok(Reader {
            builder: Builder { nodes },
            names: Seq::new(alloc),
            refers: false,
            looks_back: false,
        })
    }

    /// Appends the node of a group.
    fn push_group(&mut self, wrap: Wrap, body: usize) -> Result<usize, AllocError>
        requires { body < length self.old.builder.nodes }
        ensures grows { OnOk result (Grows self.old.builder.nodes self.new.builder.nodes) }
        ensures names { OnOk result (self.new.names ≡ self.old.names) }
        ensures refers { OnOk result (self.new.refers ≡ self.old.refers) }
        ensures holds { IfOk result (λ k. Holds self.new.builder.nodes k
            (wrapped wrap (tree_in self.old.builder.nodes body))) }
    {
        match wrap {
            Wrap::Plain => Ok(body),
            Wrap::Group(number) => self.builder.push(Node::Group { number, body }),
            Wrap::Atomic => self.builder.push(Node::Atomic(body)),
            Wrap::Ahead(negated) => self.builder.push(Node::Ahead { negated, body }),
            Wrap::Behind(negated) => {
                self.looks_back = true;
                self.builder.push(Node::Behind { negated, body })
            }
        }
    }

    /// An item that no quantifier may follow.
    fn firm<'a>(
        &mut self,
        body: Body,
        item: Item,
        place: Place<'a>,
    ) -> Result<Option<(Body, Place<'a>)>, AllocError>
        requires body { IsBodyIn self.old.builder.nodes body }
        requires item { IsItemIn (length self.old.builder.nodes) item }
        ensures grows { OnOk result (Grows self.old.builder.nodes self.new.builder.nodes) }
        ensures names { OnOk result (self.new.names ≡ self.old.names) }
        ensures refers { OnOk result (self.new.refers ≡ self.old.refers) }
        ensures inside { IfOk result (λ f. IfSome f (λ x. IsBodyIn self.new.builder.nodes x.0)) }
        ensures reads { IfOk result (ReadsFirm self.old self.new body place.entry
            (item_tree self.old.builder.nodes item)) }
    {
        let Body { before, mut items } = body;
        items.push(item)?;
        Ok(Some((Body { before, items }, place)))
    }

    /// An item, perhaps with a quantifier after it.
    fn item<'a>(
        &mut self,
        body: Body,
        node: usize,
        place: Place<'a>,
    ) -> Result<Option<(Body, Place<'a>)>, AllocError>
        requires body { IsBodyIn self.old.builder.nodes body }
        requires node { node < length self.old.builder.nodes }
        ensures grows { OnOk result (Grows self.old.builder.nodes self.new.builder.nodes) }
        ensures names { OnOk result (self.new.names ≡ self.old.names) }
        ensures refers { OnOk result (self.new.refers ≡ self.old.refers) }
        ensures inside { IfOk result (λ f. IfSome f (λ x. IsBodyIn self.new.builder.nodes x.0)) }
        ensures reads { IfOk result (ReadsItem self.old self.new body place.entry
            (tree_in self.old.builder.nodes node)) }
    {
        let Some((looping, rest)) = read_looping(place) else {
            return Ok(None);
        };
        let node = self.builder.push_looping(looping, node)?;
        Ok(self.firm(body, Item::Node(node), rest)?)
    }

    /// A character as an item.
    fn char_item<'a>(
        &mut self,
        body: Body,
        c: char,
        place: Place<'a>,
    ) -> Result<Option<(Body, Place<'a>)>, AllocError>
        requires body { IsBodyIn self.old.builder.nodes body }
        ensures grows { OnOk result (Grows self.old.builder.nodes self.new.builder.nodes) }
        ensures names { OnOk result (self.new.names ≡ self.old.names) }
        ensures refers { OnOk result (self.new.refers ≡ self.old.refers) }
        ensures inside { IfOk result (λ f. IfSome f (λ x. IsBodyIn self.new.builder.nodes x.0)) }
        ensures reads { IfOk result (ReadsItem self.old self.new body place.entry
            (one_of (from_to place.entry.flags.fold c c))) }
    {
        let Some((looping, rest)) = read_looping(place) else {
            return Ok(None);
        };
        let item = self.builder.looped_char(looping, place.flags.fold, c)?;
        Ok(self.firm(body, item, rest)?)
    }

    /// Characters that stand for themselves, as most of a pattern does, one after another.
    fn plain_chars<'a>(
        &mut self,
        body: Body,
        place: Place<'a>,
    ) -> Result<(Body, Place<'a>), AllocError>
        requires { IsBodyIn self.old.builder.nodes body }
        ensures grows { OnOk result (Grows self.old.builder.nodes self.new.builder.nodes) }
        ensures names { OnOk result (self.new.names ≡ self.old.names) }
        ensures refers { OnOk result (self.new.refers ≡ self.old.refers) }
        ensures inside { IfOk result (λ x. IsBodyIn self.new.builder.nodes x.0) }
        ensures shorter { IfOk result (λ x. length (chars x.1.text.now)
            ≤ length (chars place.entry.text.now)) }
        ensures reads { IfOk result (λ x. (groups : Option grammar.Names) (depth : ℕ)
            → body_of groups depth (body_as self.old.builder.nodes body)
            (place_as self.old.names place.entry)
            ≡ body_of groups depth (body_as self.new.builder.nodes x.0)
            (place_as self.new.names x.1)) }
    {
        let Body { before, mut items } = body;
        let flags = place.flags;
        let mut text = place.text;
        'plain: while let Some((c, rest)) = plain_in(text) {
            let item = self.builder.char_item(flags.fold, c)?;
            items.push(item)?;
            text = rest;
        }
        Ok((Body { before, items }, Place { flags, text }))
    }

    /// A set as an item.
    fn class_item<'a>(
        &mut self,
        body: Body,
        sets: SetBuilder,
        root: usize,
        place: Place<'a>,
    ) -> Result<Option<(Body, Place<'a>)>, AllocError>
        requires body { IsBodyIn self.old.builder.nodes body }
        ensures grows { OnOk result (Grows self.old.builder.nodes self.new.builder.nodes) }
        ensures names { OnOk result (self.new.names ≡ self.old.names) }
        ensures refers { OnOk result (self.new.refers ≡ self.old.refers) }
        ensures inside { IfOk result (λ f. IfSome f (λ x. IsBodyIn self.new.builder.nodes x.0)) }
        ensures reads { IfOk result (ReadsItem self.old self.new body place.entry
            (one_of (set_in sets.parts root))) }
    {
        let node = self.builder.push_class(sets, root)?;
        Ok(self.item(body, node, place)?)
    }

    fn anchor_item<'a>(
        &mut self,
        body: Body,
        which: Anchor,
        place: Place<'a>,
    ) -> Result<Option<(Body, Place<'a>)>, AllocError>
        requires body { IsBodyIn self.old.builder.nodes body }
        ensures grows { OnOk result (Grows self.old.builder.nodes self.new.builder.nodes) }
        ensures names { OnOk result (self.new.names ≡ self.old.names) }
        ensures refers { OnOk result (self.new.refers ≡ self.old.refers) }
        ensures inside { IfOk result (λ f. IfSome f (λ x. IsBodyIn self.new.builder.nodes x.0)) }
        ensures reads { IfOk result (ReadsFirm self.old self.new body place.entry
            (anchor which)) }
    {
        let node = self.builder.push(Node::Anchor(which))?;
        Ok(self.firm(body, Item::Node(node), place)?)
    }

    /// A set that has a name as an item.
    fn named_item<'a>(
        &mut self,
        body: Body,
        leaf: Leaf,
        place: Place<'a>,
    ) -> Result<Option<(Body, Place<'a>)>, AllocError>
        requires body { IsBodyIn self.old.builder.nodes body }
        ensures grows { OnOk result (Grows self.old.builder.nodes self.new.builder.nodes) }
        ensures names { OnOk result (self.new.names ≡ self.old.names) }
        ensures refers { OnOk result (self.new.refers ≡ self.old.refers) }
        ensures inside { IfOk result (λ f. IfSome f (λ x. IsBodyIn self.new.builder.nodes x.0)) }
        ensures reads { IfOk result (ReadsItem self.old self.new body place.entry
            (one_of (leaf_set leaf))) }
    {
        let node = self.builder.push_leaf(leaf)?;
        Ok(self.item(body, node, place)?)
    }

    /// A `.` as an item.
    fn dot_item<'a>(
        &mut self,
        body: Body,
        place: Place<'a>,
    ) -> Result<Option<(Body, Place<'a>)>, AllocError>
        requires body { IsBodyIn self.old.builder.nodes body }
        ensures grows { OnOk result (Grows self.old.builder.nodes self.new.builder.nodes) }
        ensures names { OnOk result (self.new.names ≡ self.old.names) }
        ensures refers { OnOk result (self.new.refers ≡ self.old.refers) }
        ensures inside { IfOk result (λ f. IfSome f (λ x. IsBodyIn self.new.builder.nodes x.0)) }
        ensures reads { IfOk result (ReadsItem self.old self.new body place.entry
            (one_of (grammar.dot_set place.entry.flags.any))) }
    {
        let mut sets = SetBuilder::new(self.names.allocator(), SET_ROOM)?;
        let root = sets.push_dot(place.flags.any)?;
        Ok(self.class_item(body, sets, root, place)?)
    }

    /// The alternative is over.
    fn next_alternative(&mut self, body: Body) -> Result<Body, AllocError>
        requires { IsBodyIn self.old.builder.nodes body }
        ensures grows { OnOk result (Grows self.old.builder.nodes self.new.builder.nodes) }
        ensures names { OnOk result (self.new.names ≡ self.old.names) }
        ensures refers { OnOk result (self.new.refers ≡ self.old.refers) }
        ensures inside { IfOk result (λ b. IsBodyIn self.new.builder.nodes b) }
        ensures is { IfOk result (λ b. body_as self.new.builder.nodes b
            ≡ grammar.next_alternative (body_as self.old.builder.nodes body)) }
    {
        let Body {
            mut before,
            mut items,
        } = body;
        let last = self.builder.sequence(&mut items)?;
        before.push(last)?;
        Ok(Body { before, items })
    }

    /// The node of a whole group.
    fn finish(&mut self, body: Body) -> Result<usize, AllocError>
        requires { IsBodyIn self.old.builder.nodes body }
        ensures grows { OnOk result (Grows self.old.builder.nodes self.new.builder.nodes) }
        ensures names { OnOk result (self.new.names ≡ self.old.names) }
        ensures refers { OnOk result (self.new.refers ≡ self.old.refers) }
        ensures holds { IfOk result (λ k. Holds self.new.builder.nodes k
            (grammar.tree_of_body (body_as self.old.builder.nodes body))) }
    {
        let Body {
            mut before,
            mut items,
        } = body;
        let last = self.builder.sequence(&mut items)?;
        if before.is_empty() {
            return Ok(last);
        }
        before.push(last)?;
        self.builder.branches(&mut before)
    }

    /// What a back reference to the number stands for, if to a group: nothing till those are known.
    fn by_number(
        &mut self,
        known: &Option<Names>,
        fold: bool,
        number: usize,
    ) -> Result<Option<usize>, AllocError>
        ensures grows { OnOk result (Grows self.old.builder.nodes self.new.builder.nodes) }
        ensures names { OnOk result (self.new.names ≡ self.old.names) }
        ensures refers { OnOk result (self.new.refers ≡ true) }
        ensures inside { IfOk result (λ f. IfSome f (λ k. k < length self.new.builder.nodes)) }
        ensures reads { IfOk result (λ f. grammar.by_number known.now fold number
            ≡ option_map (tree_in self.new.builder.nodes) f) }
    {
        self.refers = true;
        let Some(names) = known else {
            return Ok(Some(self.builder.push(Node::Nothing)?));
        };
        if number > names.len() {
            return Ok(None);
        }
        Ok(Some(
            self.builder.push(Node::Same {
                fold,
                group: number,
            })?,
        ))
    }

    /// What a back reference to the name stands for, if to a group: nothing till those are known.
    fn by_name(
        &mut self,
        known: &Option<Names>,
        fold: bool,
        name: &str,
    ) -> Result<Option<usize>, AllocError>
        ensures grows { OnOk result (Grows self.old.builder.nodes self.new.builder.nodes) }
        ensures names { OnOk result (self.new.names ≡ self.old.names) }
        ensures refers { OnOk result (self.new.refers ≡ true) }
        ensures inside { IfOk result (λ f. IfSome f (λ k. k < length self.new.builder.nodes)) }
        ensures reads { IfOk result (λ f. grammar.by_name known.now fold (chars name.now)
            ≡ option_map (tree_in self.new.builder.nodes) f) }
    {
        self.refers = true;
        let Some(names) = known else {
            return Ok(Some(self.builder.push(Node::Nothing)?));
        };
        let Some(group) = number_of(names.as_slice(), name) else {
            return Ok(None);
        };
        Ok(Some(self.builder.push(Node::Same { fold, group })?))
    }

    /// A back reference as an item.
    fn number_item<'a>(
        &mut self,
        known: &Option<Names>,
        body: Body,
        number: usize,
        place: Place<'a>,
    ) -> Result<Option<(Body, Place<'a>)>, AllocError>
        requires body { IsBodyIn self.old.builder.nodes body }
        ensures grows { OnOk result (Grows self.old.builder.nodes self.new.builder.nodes) }
        ensures names { OnOk result (self.new.names ≡ self.old.names) }
        ensures refers { OnOk result (self.new.refers ≡ true) }
        ensures inside { IfOk result (λ f. IfSome f (λ x. IsBodyIn self.new.builder.nodes x.0)) }
        ensures reads { IfOk result (ReadsEscape self.old self.new body place.entry known.now
            (definition.number number)) }
    {
        let Some(node) = self.by_number(known, place.flags.fold, number)? else {
            return Ok(None);
        };
        Ok(self.item(body, node, place)?)
    }

    /// A back reference by a name as an item.
    fn name_item<'a>(
        &mut self,
        known: &Option<Names>,
        body: Body,
        name: &str,
        place: Place<'a>,
    ) -> Result<Option<(Body, Place<'a>)>, AllocError>
        requires body { IsBodyIn self.old.builder.nodes body }
        ensures grows { OnOk result (Grows self.old.builder.nodes self.new.builder.nodes) }
        ensures names { OnOk result (self.new.names ≡ self.old.names) }
        ensures refers { OnOk result (self.new.refers ≡ true) }
        ensures inside { IfOk result (λ f. IfSome f (λ x. IsBodyIn self.new.builder.nodes x.0)) }
        ensures reads { IfOk result (ReadsEscape self.old self.new body place.entry known.now
            (definition.name (chars name.now))) }
    {
        let Some(node) = self.by_name(known, place.flags.fold, name)? else {
            return Ok(None);
        };
        Ok(self.item(body, node, place)?)
    }

    /// What an escape stands for.
    fn escaped<'a>(
        &mut self,
        known: &Option<Names>,
        body: Body,
        escape: Escape<'a>,
        place: Place<'a>,
    ) -> Result<Option<(Body, Place<'a>)>, AllocError>
        requires body { IsBodyIn self.old.builder.nodes body }
        ensures grows { OnOk result (Grows self.old.builder.nodes self.new.builder.nodes) }
        ensures refers { OnOk result (StaysMet self.old.refers self.new.refers) }
        ensures inside { IfOk result (λ f. IfSome f (λ x. IsBodyIn self.new.builder.nodes x.0)) }
        ensures names { OnOk result (self.new.names ≡ self.old.names) }
        ensures reads { IfOk result (λ f. WithGroups self.new known.now (λ groups.
            ReadsEscape self.old self.new body place.entry groups (escape_of escape.entry) f)) }
    {
        match escape {
            Escape::Char(c) => Ok(self.char_item(body, c, place)?),
            Escape::Set { negated, set } => {
                Ok(self.named_item(body, Leaf::Set { negated, set }, place)?)
            }
            Escape::Edge(which) => Ok(self.anchor_item(body, which, place)?),
            Escape::Number(number) => Ok(self.number_item(known, body, number, place)?),
            Escape::Name(name) => Ok(self.name_item(known, body, name, place)?),
        }
    }

    /// An escape, from its backslash on.
    fn backslash<'a>(
        &mut self,
        known: &Option<Names>,
        body: Body,
        here: Place<'a>,
    ) -> Result<Option<(Body, Place<'a>)>, AllocError>
        requires body { IsBodyIn self.old.builder.nodes body }
        ensures grows { OnOk result (Grows self.old.builder.nodes self.new.builder.nodes) }
        ensures refers { OnOk result (StaysMet self.old.refers self.new.refers) }
        ensures inside { IfOk result (λ f. IfSome f (λ x. IsBodyIn self.new.builder.nodes x.0)) }
        ensures reads { IfOk result (λ f. WithGroups self.new known.now (λ groups.
            (inner : _) (depth : ℕ)
            → ReadsStep self.old self.new body here.entry groups inner depth grammar.backslash f)) }
    {
        let Some((escape, text)) = read_escape(after(here.text, 1)) else {
            return Ok(None);
        };
        let place = Place {
            flags: here.flags,
            text,
        };
        Ok(self.escaped(known, body, escape, place)?)
    }

    /// A class, from its bracket on.
    fn bracket<'a>(
        &mut self,
        depth: u32,
        body: Body,
        here: Place<'a>,
    ) -> Result<Option<(Body, Place<'a>)>, AllocError>
        requires body { IsBodyIn self.old.builder.nodes body }
        ensures grows { OnOk result (Grows self.old.builder.nodes self.new.builder.nodes) }
        ensures refers { OnOk result (self.new.refers ≡ self.old.refers) }
        ensures inside { IfOk result (λ f. IfSome f (λ x. IsBodyIn self.new.builder.nodes x.0)) }
        ensures reads { IfOk result (λ f. (known : Option grammar.Names) (inner : _)
            → ReadsStep self.old self.new body here.entry known inner depth grammar.bracket f) }
    {
        let mut sets = SetBuilder::new(self.names.allocator(), BRACKET_ROOM)?;
        let Some((root, text)) = sets.class(here.flags.fold, depth, after(here.text, 1))? else {
            return Ok(None);
        };
        let place = Place {
            flags: here.flags,
            text,
        };
        Ok(self.class_item(body, sets, root, place)?)
    }

    /// A group, from its parenthesis on, inside so many groups and classes.
    #[cycle(body)]
    fn group<'a>(
        &mut self,
        known: &Option<Names>,
        depth: u32,
        body: Body,
        here: Place<'a>,
    ) -> Result<Option<(Body, Place<'a>)>, AllocError>
        requires body { IsBodyIn self.old.builder.nodes body }
        ensures grows { OnOk result (Grows self.old.builder.nodes self.new.builder.nodes) }
        ensures refers { OnOk result (StaysMet self.old.refers self.new.refers) }
        ensures inside { IfOk result (λ f. IfSome f (λ x. IsBodyIn self.new.builder.nodes x.0)) }
        ensures reads { IfOk result (λ f. WithGroups self.new known.now (λ groups.
            ReadsStep self.old self.new body here.entry groups (inner_of groups depth) depth
            grammar.opener f)) }
    {
        let Some((opening, place)) = read_opening(&mut self.names, forward(here, 1))? else {
            return Ok(None);
        };
        let Opening::Opens(wrap) = opening else {
            return Ok(Some((body, place)));
        };
        if depth >= DEEPEST {
            return Ok(None);
        }
        let Some((inner, last)) = self.body(known, depth + 1, place)? else {
            return Ok(None);
        };
        if !begins(last.text, &[')']) {
            return Ok(None);
        }
        let node = self.push_group(wrap, inner)?;
        let outside = here.flags;
        let place = Place {
            flags: outside,
            text: after(last.text, 1),
        };
        Ok(self.item(body, node, place)?)
    }

    /// One step of reading a group that stands so deep.
    #[cycle(body)]
    fn step<'a>(
        &mut self,
        known: &Option<Names>,
        depth: u32,
        body: Body,
        here: Place<'a>,
        token: Token,
    ) -> Result<Option<(Body, Place<'a>)>, AllocError>
        requires body { IsBodyIn self.old.builder.nodes body }
        ensures grows { OnOk result (Grows self.old.builder.nodes self.new.builder.nodes) }
        ensures refers { OnOk result (StaysMet self.old.refers self.new.refers) }
        ensures inside { IfOk result (λ f. IfSome f (λ x. IsBodyIn self.new.builder.nodes x.0)) }
        ensures reads { IfOk result (λ f. WithGroups self.new known.now (λ groups.
            ReadsStep self.old self.new body here.entry groups (inner_of groups depth) depth
            (token_as token) f)) }
    {
        match token {
            Token::Bar => {
                let body = self.next_alternative(body)?;
                Ok(Some((body, forward(here, 1))))
            }
            Token::Opener => Ok(self.group(known, depth, body, here)?),
            Token::Bracket => Ok(self.bracket(depth, body, here)?),
            Token::Backslash => Ok(self.backslash(known, body, here)?),
            Token::Dot => Ok(self.dot_item(body, forward(here, 1))?),
            Token::Caret => Ok(self.anchor_item(body, Anchor::LineStart, forward(here, 1))?),
            Token::Dollar => Ok(self.anchor_item(body, Anchor::LineEnd, forward(here, 1))?),
            Token::Loops => Ok(None),
            Token::Plain(c) => Ok(self.char_item(body, c, forward(here, 1))?),
        }
    }

    /// What stands in a group that stands so deep, up to its parenthesis or the text's end.
    #[cycle(body)]
    pub fn body<'a>(
        &mut self,
        known: &Option<Names>,
        depth: u32,
        place: Place<'a>,
    ) -> Result<Option<(usize, Place<'a>)>, AllocError>
        ensures grows { OnOk result (Grows self.old.builder.nodes self.new.builder.nodes) }
        ensures refers { OnOk result (StaysMet self.old.refers self.new.refers) }
        ensures inside { IfOk result (λ f. IfSome f (λ x. x.0 < length self.new.builder.nodes)) }
        ensures reads { IfOk result (λ f. WithGroups self.new known.now (λ groups.
            body_of groups depth grammar.empty_body (place_as self.old.names place.entry)
            ≡ tree_as self.new f)) }
    {
        let alloc = self.names.allocator();
        let mut body = Body {
            before: Seq::new(alloc),
            items: Seq::from_vec(Vec::with_capacity(alloc, ITEMS)?),
        };
        let mut place = place;
        'steps: loop {
            let flags = place.flags;
            let Some(text) = pass(flags.spaced, place.text) else {
                return Ok(None);
            };
            let here = Place { flags, text };
            let Some(token) = next_token(text) else {
                let node = self.finish(body)?;
                return Ok(Some((node, here)));
            };
            let Some((read, next)) = self.step(known, depth, body, here, token)? else {
                return Ok(None);
            };
            let (more, rest) = self.plain_chars(read, next)?;
            body = more;
            place = rest;
        }
    }
}
