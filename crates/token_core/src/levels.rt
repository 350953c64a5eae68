//! How deep a list nests.

ghost use Rattle.std.specs.Prelude.{◌≡◌, ◌≤◌, ◌↔◌, ◌∷◌, ◌++◌, [], Option, IfOk, MatchOption};
ghost use Rattle.token_core.specs.Classes.{text_class};
ghost use Rattle.token_core.specs.Levels as spec;
ghost use Rattle.token_core.specs.declared.levels.Last.{Last};

use crate::class::{Class, text_class, tree_class};
use crate::error::{Error, ErrorKind};
use crate::span::Span;
use crate::tree::{Delimiter, Spacing, TokenStream, TokenTree};
use std::alloc::{AllocError, Global};
use std::marker::Model;

/// How many levels an open `<` takes: what reads its arguments takes most of the stack.
const ANGLE: usize = 3;

/// The number of `unsafe` among the words; a type after `unsafe<'a>` takes two levels.
const UNSAFE: u8 = 16;

/// What stands just before a token, where that matters.
#[derive(Clone, Copy, PartialEq, Eq)]
pub(crate) enum Last {
    /// A `-` that belongs with the next mark.
    Minus,
    /// A `=` that belongs with the next mark.
    Equals,
    /// The quote of a lifetime.
    Quote,
    /// An identifier, after which `&` and `*` are operators.
    Name,
    /// A literal or parentheses, after which `<` is one too.
    Value,
    Other,
}

/// The levels around an open group.
#[derive(Clone, Copy)]
pub(crate) struct Around {
    pub(crate) delimiter: Delimiter,
    pub(crate) base: usize,
    pub(crate) here: usize,
    pub(crate) angles: usize,
}

/// The levels at a token of a list, or of a text whose tokens are taken one by one.
#[derive(Drop)]
pub struct Levels {
    /// Those around each open group, the outermost first.
    around: Vec<Around>,
    /// Where the innermost group begins.
    base: usize,
    here: usize,
    /// How many `<` are open in the innermost group.
    angles: usize,
    last: Last,
}

impl Model for Levels {
    ghost use Rattle.std.specs.Prelude.{reverse};
    ghost use Rattle.token_core.specs.Levels.{State};

    ghost Value = { State };

    ghost view = { λ l. record {
      around = reverse l.around.items;
      base = l.base;
      here = l.here;
      angles = l.angles;
      last = l.last;
    } };
}

/// Whether a type, a bound or a pattern goes on after the word of this number.
fn deepens(word: u8) -> bool
    ensures { result ≡ spec.deepens word }
{
    match word {
        5 | 7 | 9 | 10 | 12 | UNSAFE => true,
        _ => false,
    }
}

/// Whether an item, a statement or an expression begins with the word of this number, and no type, bound or pattern.
fn begins_anew(word: u8) -> bool
    ensures { result ≡ spec.begins_anew word }
{
    match word {
        11 | 27 | 28 | 32 | 35 | 36 | 41 | 42 | 43 | 44 | 46 | 50 => true,
        _ => false,
    }
}

/// What a mark is for the next token.
fn last_mark(ch: char, spacing: Spacing) -> Last
    ensures { result ≡ spec.last_mark ch spacing }
{
    match (ch, spacing) {
        ('-', Spacing::Joint) => Last::Minus,
        ('=', Spacing::Joint) => Last::Equals,
        ('\'', Spacing::Joint) => Last::Quote,
        _ => Last::Other,
    }
}

impl Levels {
    /// Those at the front of a list.
    pub fn new(alloc: Global) -> Levels
        ensures { result ≡ spec.start }
    {
        Levels {
            around: Vec::new(alloc),
            base: 0,
            here: 0,
            angles: 0,
            last: Last::Other,
        }
    }

    /// The level that the last token is at.
    pub fn here(&self) -> usize
        ensures { result ≡ self.now.here }
    {
        self.here
    }

    fn deepen(&mut self, levels: usize)
        ensures { self.new ≡ spec.deeper levels self.old }
    {
        self.here = self.here.saturating_add(levels);
        self.last = Last::Other;
    }

    /// Back to where the innermost group begins.
    fn begin_anew(&mut self)
        ensures { self.new ≡ spec.anew self.old }
    {
        self.here = self.base;
        self.angles = 0;
        self.last = Last::Other;
    }

    fn take_word(&mut self, number: u8)
        ensures { self.new ≡ spec.word number self.old }
    {
        if self.last == Last::Quote {
            self.last = Last::Other;
        } else if deepens(number) {
            self.deepen(if number == UNSAFE { 2 } else { 1 });
        } else if begins_anew(number) {
            self.begin_anew();
        } else {
            self.last = Last::Other;
        }
    }

    /// An identifier that is no keyword.
    fn take_name(&mut self)
        ensures { self.new ≡ spec.name self.old }
    {
        self.last = if self.last == Last::Quote {
            Last::Other
        } else {
            Last::Name
        };
    }

    /// A `<`, which may be an operator.
    fn open_angle(&mut self)
        ensures { self.new ≡ spec.open_angle self.old }
    {
        if self.last == Last::Value {
            return;
        }
        self.here = self.here.saturating_add(ANGLE);
        self.angles = self.angles.saturating_add(1);
        self.last = Last::Other;
    }

    fn close_angle(&mut self)
        ensures { self.new ≡ spec.close_angle self.old }
    {
        if self.angles > 0 {
            self.here = self.here.saturating_sub(ANGLE);
            self.angles -= 1;
        }
        self.last = Last::Other;
    }

    /// A `>`, which may be the end of an arrow.
    fn take_greater(&mut self)
        ensures { self.new ≡ spec.greater self.old }
    {
        match self.last {
            Last::Minus => self.deepen(1),
            Last::Equals => self.begin_anew(),
            Last::Quote | Last::Name | Last::Value | Last::Other => self.close_angle(),
        }
    }

    fn take_comma(&mut self)
        ensures { self.new ≡ spec.comma self.old }
    {
        if self.angles == 0 {
            self.here = self.base;
        }
        self.last = Last::Other;
    }

    /// A `&` or `*`, which may be an operator.
    fn take_prefix(&mut self)
        ensures { self.new ≡ spec.prefix self.old }
    {
        match self.last {
            Last::Name | Last::Value => (),
            Last::Minus | Last::Equals | Last::Quote | Last::Other => self.deepen(1),
        }
    }

    /// Past a mark character.
    pub fn take_mark(&mut self, ch: char, spacing: Spacing)
        ensures { self.new ≡ spec.mark spacing ch self.old }
    {
        match ch {
            '<' => self.open_angle(),
            '>' => self.take_greater(),
            ',' => self.take_comma(),
            ';' | '|' => self.begin_anew(),
            '&' | '*' => self.take_prefix(),
            '@' => self.deepen(1),
            _ => self.last = last_mark(ch, spacing),
        }
    }

    /// Into a group.
    pub fn open_group(&mut self, delimiter: Delimiter) -> Result<(), AllocError>
        ensures { IfOk result (λ _. self.new ≡ spec.open_group delimiter self.old) }
    {
        self.around.push(Around {
            delimiter,
            base: self.base,
            here: self.here,
            angles: self.angles,
        })?;
        self.here = self.here.saturating_add(1);
        self.base = self.here;
        self.angles = 0;
        self.last = Last::Other;
        Ok(())
    }

    /// Past the end of a group; where none is open, no further than past a token that says nothing.
    pub fn close_group(&mut self)
        ensures { self.new ≡ spec.close_group self.old }
    {
        self.last = Last::Other;
        if let Some(around) = self.around.pop() {
            self.leave(around);
        }
    }

    /// Back to what was around a group.
    fn leave(&mut self, around: Around)
        ensures { self.new ≡ spec.leave around self.old }
    {
        self.base = around.base;
        self.here = around.here;
        self.angles = around.angles;
        match around.delimiter {
            Delimiter::Parenthesis => self.last = Last::Value,
            // braces outside of `<` end what stands before them
            Delimiter::Brace => self.take_comma(),
            Delimiter::Bracket | Delimiter::None => self.last = Last::Other,
        }
    }

    /// Past an identifier of this text, which may be a keyword.
    pub fn take_ident(&mut self, text: &str)
        ensures { self.new ≡ spec.ident (text_class text.now) self.old }
    {
        match text_class(text) {
            Class::Word(number) => self.take_word(number),
            Class::Raw => self.take_name(),
            Class::Ident => self.take_name(),
            // (no text has these)
            Class::Mark(_, _) => self.take_name(),
            Class::Literal(_) => self.take_name(),
            Class::Open(_) => self.take_name(),
            Class::End => self.take_name(),
        }
    }

    /// Past a literal.
    pub fn take_literal(&mut self)
        ensures { self.new ≡ spec.with_last Last.Value self.old }
    {
        self.last = Last::Value;
    }

    /// Past the next token.
    pub(crate) fn take(&mut self, class: Class) -> Result<(), AllocError>
        ensures { IfOk result (λ _. self.new ≡ spec.step class self.old) }
    {
        match class {
            Class::Word(number) => self.take_word(number),
            Class::Raw | Class::Ident => self.take_name(),
            Class::Mark(spacing, ch) => self.take_mark(ch, spacing),
            Class::Literal(_) => self.take_literal(),
            Class::Open(delimiter) => return self.open_group(delimiter),
            Class::End => self.close_group(),
        }
        Ok(())
    }
}

/// A tree, or the end of a group.
#[derive(Clone, Copy)]
pub(crate) enum Step<'a> {
    Tree(&'a TokenTree),
    End,
}

/// The class of a tree or of an end.
fn class_of(step: Step<'_>) -> Class
    ensures { result ≡ (spec.token_of step.entry).0 }
{
    match step {
        Step::Tree(tree) => tree_class(tree),
        Step::End => Class::End,
    }
}

/// Where a tree begins; an end stands nowhere.
fn place_of(step: Step<'_>) -> Span
    ensures { result ≡ (spec.token_of step.entry).1 }
{
    match step {
        Step::Tree(tree) => front_of(tree),
        Step::End => Span::none(),
    }
}

/// The span of a tree, of a group its opening bracket's.
fn front_of(tree: &TokenTree) -> Span
    ensures { result ≡ (spec.front tree.now).1 }
{
    match tree {
        TokenTree::Ident(ident) => ident.span,
        TokenTree::Punct(punct) => punct.span,
        TokenTree::Literal(literal) => literal.span,
        TokenTree::Group(group) => group.delim_span().opening,
    }
}

/// What is left of a list that is walked, groups within groups too, without a call for each.
#[derive(Drop)]
pub(crate) struct Walk<'a> {
    /// What follows each open group, of the outermost first.
    after: Vec<&'a [TokenTree]>,
    rest: &'a [TokenTree],
}

impl<'a> Model for Walk<'a> {
    ghost use Rattle.std.specs.Prelude.{List, ◌++◌, map, reverse};
    ghost use Rattle.token_core.specs.Levels.{Token, tokens, pending};

    ghost Value = { List Token };

    ghost view = { λ w. tokens w.rest.now ++ pending (map (λ r. r.now) (reverse w.after.items)) };
}

impl<'a> Walk<'a> {
    fn new(alloc: Global, trees: &'a [TokenTree]) -> Walk<'a>
        ensures { result ≡ spec.tokens trees.now }
    {
        Walk {
            after: Vec::new(alloc),
            rest: trees,
        }
    }

    /// Into the group that a tree is.
    fn enter(&mut self, tree: &'a TokenTree) -> Result<(), AllocError>
        ensures { IfOk result (λ _. spec.front tree.now ∷ self.new ≡ spec.tree_tokens tree.now ++ self.old) }
    {
        match tree {
            TokenTree::Group(group) => {
                self.after.push(self.rest)?;
                self.rest = group.stream().trees();
            }
            TokenTree::Ident(_) => (),
            TokenTree::Punct(_) => (),
            TokenTree::Literal(_) => (),
        }
        Ok(())
    }

    /// The next tree, and what a group holds after it, or the end of a group.
    fn next(&mut self) -> Result<Option<Step<'a>>, AllocError>
        ensures { IfOk result (λ o. MatchOption o (self.old ≡ [])
            (λ step. self.old ≡ spec.token_of step ∷ self.new)) }
    {
        match self.rest.split_first() {
            Some((tree, rest)) => {
                self.rest = rest;
                self.enter(tree)?;
                Ok(Some(Step::Tree(tree)))
            }
            None => match self.after.pop() {
                Some(rest) => {
                    self.rest = rest;
                    Ok(Some(Step::End))
                }
                None => Ok(None),
            },
        }
    }
}

/// How many levels readers of types, patterns and generics go down on a list, at most: calls within calls.
///
/// A group takes a level for what it holds, an open `<` three; `&`, `*`, `@`, `->`, `dyn`, `impl`, `fn`, `for` and `box` take one for what
/// follows, and `unsafe` two, up to the next `,` outside of `<`, or the next `;` or `|`, where readers are back (`specs/Levels.antt`).
/// Copies, prints and the end of a list go down by its groups alone. It takes time in proportion to the tokens, and no call for each group.
#[tactic(auto, unfolding(crate::specs::Levels::nesting))]
pub fn nesting(alloc: Global, tokens: &TokenStream) -> Result<usize, AllocError>
    ensures { IfOk result (λ n. n ≡ spec.nesting tokens.now) }
{
    let mut walk = Walk::new(alloc, tokens.trees());
    let mut levels = Levels::new(alloc);
    let mut most = 0;
    while let Some(step) = walk.next()? {
        levels.take(class_of(step))?;
        most = most.max(levels.here());
    }
    Ok(most)
}

/// Refuses a list whose `nesting` is above a limit (`NestedTooDeep`), at the first token that passes it.
#[tactic(auto, using(crate::proofs::Nestings::deeper_than), unfolding(crate::specs::Levels::too_deep))]
pub fn check_nesting(alloc: Global, tokens: &TokenStream, limit: usize) -> Result<(), Error>
    // It is refused at the first token that passes the limit, or else for want of memory,
    ensures exact { spec.Checked (spec.too_deep limit tokens.now) result }
    // and there is such a token where the nesting is above the limit, and only there.
    ensures above { (spec.too_deep limit tokens.now ≡ Option.None) ↔ (spec.nesting tokens.now ≤ limit) }
{
    let mut walk = Walk::new(alloc, tokens.trees());
    let mut levels = Levels::new(alloc);
    while let Some(step) = walk.next()? {
        levels.take(class_of(step))?;
        if levels.here() > limit {
            return Err(Error::named(alloc, ErrorKind::NestedTooDeep, place_of(step)));
        }
    }
    Ok(())
}
