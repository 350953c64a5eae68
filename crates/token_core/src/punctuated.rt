//! Values with marks between them.

ghost use Rattle.std.specs.Prelude.{◌≡◌, ◌++◌, ◌∷◌, [], ◌<◌, length, OnOk, OnErr, IsTrue, ◌↔◌, ◌+◌, option_map, slice_get, min, ◌^◌, ◌-◌, MatchOption, Ok, Err, IsFalse, Some};
ghost use Rattle.token_core.specs.Fronted.{KeepsFront};
ghost use Rattle.token_core.specs.fronts.Lists as lists;
ghost use Rattle.token_core.specs.Lists as spec;
ghost use Rattle.token_core.specs.Prints.{Appends};
ghost use Rattle.token_core.specs.Reads.{Parsed, Follows};
ghost use Rattle.token_core.specs.Terminated as terminated;
ghost use Rattle.token_core.specs.Trees.{trees};
ghost use Rattle.std.specs.Iterator.{YieldsFirstBy, YieldsFirstRef, YieldsFirstMut, item_count};
ghost use Rattle.token_core.specs.Lent.{values_left};

use crate::error::{Error, ErrorKind};
use crate::items::Items;
use crate::parse::{Parse, Parser};
use crate::parse_stream::ParseStream;
use crate::to_tokens::ToTokens;
use crate::tree::TokenStream;
use std::alloc::{AllocError, Global};
use std::marker::{Model, PhantomData};
use std::ops::Index;
use std::slice;

/// Values with marks between them, and perhaps one after the last. Contracts see a list of values and a list of marks,
/// which are as many or one fewer: `empty_or_trailing` says which.
pub struct Punctuated<T, P> {
    values: Items<T>,
    marks: Items<P>,
}

impl<T: Drop, P: Drop> Drop for Punctuated<T, P> {
    #[inline(never)]
    fn drop(self) {
        let Punctuated {
            values: _values,
            marks: _marks,
        } = self;
    }
}

impl<T, P> Model for Punctuated<T, P> {
    ghost use Rattle.std.specs.Prelude.{List, length};
    ghost use Rattle.std.specs.Coded.{coded_list, coded×};
    ghost use Rattle.token_core.specs.Lists.{Alternate};

    ghost Value = { List T × List P };

    ghost coded = { coded× (coded_list T.code) (coded_list P.code) };

    ghost view = { λ p. (p.values, p.marks) };

    ghost invariant = { λ p. Alternate (length p.values) (length p.marks) };
}

#[tactic(auto, using(crate::proofs::Lists::lists))]
impl<T, P> Punctuated<T, P> {
    pub fn new(alloc: Global) -> Punctuated<T, P>
        ensures { result ≡ ([], []) }
    {
        Punctuated {
            values: Items::new(alloc),
            marks: Items::new(alloc),
        }
    }

    /// Whether a value may be put at the end, and no mark; else a mark may, and no value.
    #[tactic(auto, using(crate::proofs::Lists::shapes))]
    pub fn empty_or_trailing(&self) -> bool
        ensures value { IsTrue result ↔ (length self.now.0 ≡ length self.now.1) }
        ensures mark { IsFalse result ↔ (length self.now.0 ≡ length self.now.1 + 1) }
        ensures shape { spec.IsShaped self.now }
    {
        self.values.len() == self.marks.len()
    }

    /// Whether a mark stands after the last value.
    pub fn trailing_punct(&self) -> bool
        ensures { IsTrue result ↔ ((length self.now.0 ≡ length self.now.1) × (0 < length self.now.1)) }
    {
        self.empty_or_trailing() && !self.is_empty()
    }

    pub fn is_empty(&self) -> bool
        ensures { IsTrue result ↔ (length self.now.0 ≡ 0) }
    {
        self.values.len() == 0
    }

    /// The values.
    pub fn values(&self) -> &[T]
        ensures { result.now ≡ self.now.0 }
    {
        self.values.as_slice()
    }

    /// The marks: as many as the values, or one fewer.
    #[tactic(auto, using(crate::proofs::Lists::shapes))]
    pub fn marks(&self) -> &[P]
        ensures marks { result.now ≡ self.now.1 }
        ensures shape { spec.IsShaped self.now }
    {
        self.marks.as_slice()
    }

    /// The first value.
    #[tactic(auto, using(crate::proofs::Lists::ends))]
    pub fn first(&self) -> Option<&T>
        ensures { option_map (λ x. x.now) result ≡ spec.first self.now.0 }
    {
        self.values.as_slice().first()
    }

    /// The last value.
    #[tactic(auto, using(crate::proofs::Lists::ends))]
    pub fn last(&self) -> Option<&T>
        ensures { option_map (λ x. x.now) result ≡ spec.last self.now.0 }
    {
        self.values.as_slice().last()
    }

    /// Removes the last value, and its mark if it has one.
    pub fn pop(&mut self) -> Option<(T, Option<P>)>
        ensures popped { MatchOption result ((self.old ≡ ([], [])) × (self.new ≡ ([], [])))
            (λ x. self.old ≡ spec.put_last self.new x) }
        ensures left { length self.new.0 ≡ length self.new.1 }
    {
        let Some(value) = self.values.pop() else {
            return None;
        };
        if self.values.len() < self.marks.len() {
            Some((value, self.marks.pop()))
        } else {
            Some((value, None))
        }
    }

    /// Each value with its mark, if it has one.
    pub fn pairs(&self) -> Pairs<'_, T, P>
        ensures { result ≡ spec.pairs self.now.0 self.now.1 }
    {
        Pairs {
            values: self.values.iter(),
            marks: self.marks.iter(),
        }
    }

    /// The values.
    pub fn iter(&self) -> Iter<'_, T>
        ensures { result ≡ self.now.0 }
    {
        Iter {
            values: self.values.iter(),
        }
    }

    /// The values, for writing.
    pub fn iter_mut(&mut self) -> IterMut<'_, T>
        ensures { values_left result ≡ self.old.0 }
    {
        IterMut {
            values: self.values.as_mut_slice().iter_mut(),
        }
    }

    /// The number of values; the contract has 2^64 - 1 in place of more, though no list holds so many.
    pub fn len(&self) -> usize
        ensures { result ≡ min (length self.now.0) (2 ^ 64 - 1) }
    {
        self.values.len()
    }

    /// The `i`th value.
    pub fn value(&self, i: usize) -> Option<&T>
        ensures { option_map (λ x. x.now) result ≡ slice_get self.now.0 i }
    {
        self.values.get(i)
    }

    /// The mark after the `i`th value.
    pub fn mark(&self, i: usize) -> Option<&P>
        ensures { option_map (λ x. x.now) result ≡ slice_get self.now.1 i }
    {
        self.marks.get(i)
    }
}

#[tactic(auto, using(crate::proofs::Lists::lists))]
impl<T: Drop, P: Drop> Punctuated<T, P> {
    /// Puts a value at the end; refused, it changes nothing and drops the value.
    pub fn push_value(&mut self, value: T) -> Result<(), AllocError>
        requires { length self.old.0 ≡ length self.old.1 }
        ensures ok { OnOk result (self.new ≡ (self.old.0 ++ value ∷ [], self.old.1)) }
        ensures err { OnErr result (self.new ≡ self.old) }
    {
        self.values.push_sparing(value)
    }

    /// Puts a mark after the last value; refused, it changes nothing and drops the mark.
    pub fn push_punct(&mut self, mark: P) -> Result<(), AllocError>
        requires { length self.old.0 ≡ length self.old.1 + 1 }
        ensures ok { OnOk result (self.new ≡ (self.old.0, self.old.1 ++ mark ∷ [])) }
        ensures err { OnErr result (self.new ≡ self.old) }
    {
        self.marks.push_sparing(mark)
    }
}

/// Each value with its mark, if it has one, in order; contracts see those that are left.
#[derive(Drop)]
pub struct Pairs<'a, T, P> {
    values: slice::Iter<'a, T>,
    marks: slice::Iter<'a, P>,
}

impl<'a, T, P> Model for Pairs<'a, T, P> {
    ghost use Rattle.std.specs.Prelude.{List, Option};
    ghost use Rattle.std.specs.Slice.Iter.{iter_rest};
    ghost use Rattle.token_core.specs.Lists.{pairs};

    ghost Value = { List (T × Option P) };

    ghost view = { λ s. pairs (iter_rest s.values) (iter_rest s.marks) };
}

impl<'a, T, P> Iterator for Pairs<'a, T, P> {
    type Item = (&'a T, Option<&'a P>);

    ghost next_gives = { YieldsFirstBy (λ x. (x.0.now, option_map (λ p. p.now) x.1)) (λ s. s) };

    ghost remaining = { item_count (λ s. s) };

    fn next(&mut self) -> Option<(&'a T, Option<&'a P>)> {
        match self.values.next() {
            Some(value) => Some((value, self.marks.next())),
            None => None,
        }
    }
}

/// The values in order; contracts see those that are left.
#[derive(Drop)]
pub struct Iter<'a, T> {
    values: slice::Iter<'a, T>,
}

impl<'a, T> Model for Iter<'a, T> {
    ghost use Rattle.std.specs.Prelude.{List};
    ghost use Rattle.std.specs.Slice.Iter.{iter_rest};

    ghost Value = { List T };

    ghost view = { λ s. iter_rest s.values };
}

impl<'a, T> Iterator for Iter<'a, T> {
    type Item = &'a T;

    ghost next_gives = { YieldsFirstRef (λ s. s) };

    ghost remaining = { item_count (λ s. s) };

    fn next(&mut self) -> Option<&'a T> {
        self.values.next()
    }
}

impl<'a, T, P> IntoIterator for &'a Punctuated<T, P> {
    type Item = &'a T;

    type IntoIter = Iter<'a, T>;

    ghost into_iter_gives = { λ list it. it ≡ list.now.0 };

    fn into_iter(self) -> Iter<'a, T> {
        self.iter()
    }
}

/// `list[i]`, the `i`th value.
impl<T, P> Index<usize> for Punctuated<T, P> {
    type Output = T;

    ghost can_index = { λ list i. i < length list.0 };

    ghost index_gives = { λ list i x. slice_get list.0 i ≡ Some x };

    fn index(&self, i: usize) -> &T {
        &self.values[i]
    }
}

/// The values in order, for writing.
#[derive(Drop)]
pub struct IterMut<'a, T> {
    values: slice::IterMut<'a, T>,
}

impl<'a, T> Iterator for IterMut<'a, T> {
    type Item = &'a mut T;

    ghost next_gives = { YieldsFirstMut values_left };

    ghost remaining = { item_count values_left };

    fn next(&mut self) -> Option<&'a mut T> {
        self.values.next()
    }
}

impl<T: Parse, P: Parse> Punctuated<T, P> {
    /// Reads values and marks in turn up to the end of the stream; a mark may be last. A value and a mark that take no token
    /// are refused as `unexpected token`, since they would come for ever.
    pub fn parse_terminated(
        alloc: Global,
        input: &mut ParseStream<'_>,
    ) -> Result<Punctuated<T, P>, Error>
        ensures reads { Parsed (terminated.Answers T.reads P.reads input.old)
            (λ e. terminated.Refused T.reads P.reads T.refuses P.refuses e input.old) result input.new }
        ensures within { Follows input.old input.new }
        ensures fronts { KeepsFront (lists.listings T.fronts P.fronts) input.old result input.new }
    {
        Punctuated::parse_turns(alloc, input)
    }

    /// The same; what it says of each value and mark has what these promise on fronts.
    #[tactic(auto, using(crate::proofs::Suffixes::follows))]
    fn parse_turns(alloc: Global, input: &mut ParseStream<'_>) -> Result<Punctuated<T, P>, Error>
        ensures reads { lists.ReadTurns T.reads T.refuses P.reads P.refuses T.fronts P.fronts
            input.old result input.new }
        ensures within { Follows input.old input.new }
    {
        let mut list = Punctuated::new(alloc);
        'turn: while !input.is_empty() {
            let begin = input.cursor();
            list.push_value(T::parse(alloc, input)?)?;
            if input.is_empty() {
                return Ok(list);
            }
            list.push_punct(P::parse(alloc, input)?)?;
            if !begin.is_before(&input.cursor()) {
                return Err(input.refuse(alloc, ErrorKind::Unexpected));
            }
        }
        Ok(list)
    }
}

/// `Punctuated::parse_terminated`, as a parser.
#[derive(Drop)]
pub struct ByTerminated<T, P> {
    value: PhantomData<T>,
    mark: PhantomData<P>,
}

impl<T, P> ByTerminated<T, P> {
    pub fn new() -> ByTerminated<T, P>
        ensures { result ≡ record { value = record {}; mark = record {} } }
    {
        ByTerminated {
            value: PhantomData,
            mark: PhantomData,
        }
    }
}

impl<T: Parse, P: Parse> Parser for ByTerminated<T, P> {
    type Output = Punctuated<T, P>;

    ghost can_parse = { λ _. Unit {0} };

    ghost reads = { λ _. terminated.Answers T.reads P.reads };

    ghost refuses = { λ _ s e. terminated.Refused T.reads P.reads T.refuses P.refuses e s };

    ghost fronts = { λ _. lists.listings T.fronts P.fronts };

    #[tactic(auto, using(crate::specs::Reads::no_promise))]
    fn parse(self, alloc: Global, input: &mut ParseStream<'_>) -> Result<Punctuated<T, P>, Error> {
        Punctuated::parse_terminated(alloc, input)
    }
}

// ---- prints

/// Each value with its mark, if it has one.
impl<T: ToTokens, P: ToTokens> ToTokens for Punctuated<T, P> {
    ghost print = { λ v. spec.joined T.print P.print v.0 v.1 };

    fn append_tokens(&self, alloc: Global, out: &mut TokenStream) -> Result<(), AllocError> {
        put_parts(alloc, self, out)
    }
}

/// Appends each value with its mark; refused, what stood before is kept.
#[tactic(auto, using(crate::proofs::Puts::puts))]
fn put_parts<T: ToTokens, P: ToTokens>(
    alloc: Global,
    list: &Punctuated<T, P>,
    out: &mut TokenStream,
) -> Result<(), AllocError>
    ensures appends { Appends (spec.joined T.print P.print list.now.0 list.now.1) result out.old out.new }
{
    for (i, value) in list.values().iter().enumerate() {
        value.append_tokens(alloc, out)?;
        list.mark(i).append_tokens(alloc, out)?;
    }
    Ok(())
}
