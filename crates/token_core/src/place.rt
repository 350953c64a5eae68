//! Where a stream stands in its buffer.

ghost use Rattle.std.specs.Prelude.{◌≡◌, [], ◌∷◌, ◌++◌, length, map};
ghost use Rattle.token_core.specs.Entries.{entries_view, saw, Nested};
ghost use Rattle.token_core.specs.Positions.{items, an_end, Holds};
ghost use Rattle.token_core.specs.Reads.{IsSuffix};

use crate::buffer::past_bounds;
use crate::class::Entry;
use crate::cursor::Cursor;
use std::marker::Model;

/// A position up to the end of its scope: the entries from there on.
#[derive(Drop)]
pub(crate) struct Place<'a> {
    pub(crate) entries: &'a [Entry<'a>],
    pub(crate) front: &'a [Entry<'a>],
}

impl<'a> Model for Place<'a> {
    ghost use Rattle.std.specs.Prelude.{map};
    ghost use Rattle.token_core.specs.Toks.{Toks};
    ghost use Rattle.token_core.specs.Pieces.{toks_code};

    ghost Value = { Toks };

    ghost coded = { toks_code };

    ghost use Rattle.token_core.specs.Entries.{entries_view, saw, Nested};
    ghost use Rattle.token_core.specs.Front as spec;
    ghost use Rattle.std.specs.Prelude.{◌≡◌};

    ghost view = { λ p. entries_view p.entries.now };

    // each group's entry is followed by those of its content; the front is past the bounds of invisible groups
    ghost invariant = { λ p. Nested (map saw p.entries.now) × (Nested (map saw p.front.now) × (entries_view p.front.now
        ≡ spec.front (entries_view p.entries.now))) };
}

impl<'a> Place<'a> {
    /// The same place.
    pub(crate) fn again(&self) -> Place<'a>
        ensures { result ≡ self.now }
    {
        Place {
            entries: self.entries,
            front: self.front,
        }
    }

    /// At these entries.
    pub(crate) fn of(entries: &'a [Entry<'a>]) -> Place<'a>
        requires { Nested (map saw entries.now) }
        ensures { result ≡ entries_view entries.now }
    {
        let front = past_bounds(entries);
        Place { entries, front }
    }

    /// How many entries are left in the scope.
    fn len(&self) -> usize
        ensures { result ≡ length (items self.now) }
    {
        self.entries.len()
    }
}

/// A place, and the entries from there on to the end of the whole buffer.
#[derive(Drop)]
pub(crate) struct Placed<'a> {
    place: Place<'a>,
    entries: &'a [Entry<'a>],
}

impl<'a> Model for Placed<'a> {
    ghost use Rattle.std.specs.Prelude.{◌≡◌, ◌++◌, map, drop, length};
    ghost use Rattle.token_core.specs.Positions.{Placed, placed_code, items, entries_items};

    ghost Value = { Placed };

    ghost coded = { placed_code };

    ghost use Rattle.token_core.specs.Entries.{saw, Nested};

    ghost view = { λ p.
        record { rest = p.place; after = drop (length (items p.place)) (entries_items p.entries.now) } };

    // the entries of the scope are the first ones of those of the buffer
    ghost invariant = { λ p. Nested (map saw p.entries.now) × (entries_items p.entries.now
        ≡ items p.place ++ drop (length (items p.place)) (entries_items p.entries.now)) };
}

impl<'a> Placed<'a> {
    /// At the front of a whole buffer.
    pub(crate) fn begin(place: Place<'a>) -> Placed<'a>
        ensures { result ≡ record { rest = place.entry; after = [] } }
    {
        let entries = place.entries;
        Placed { place, entries }
    }

    /// The place in its scope.
    pub(crate) fn place(&self) -> Place<'a>
        ensures { result ≡ self.now.rest }
    {
        self.place.again()
    }

    /// The position in the whole buffer.
    pub(crate) fn cursor(&self) -> Cursor<'a>
        ensures { result ≡ items self.now.rest ++ self.now.after }
    {
        Cursor {
            entries: self.entries,
        }
    }

    /// The same place.
    pub(crate) fn again(&self) -> Placed<'a>
        ensures { result ≡ self.now }
    {
        Placed {
            place: self.place.again(),
            entries: self.entries,
        }
    }

    /// Further on in the same scope.
    pub(crate) fn at(&self, place: Place<'a>) -> Placed<'a>
        requires { IsSuffix place self.now.rest }
        ensures { result ≡ record { rest = place.entry; after = self.now.after } }
    {
        let past = self.place.len() - place.len();
        Placed {
            place,
            entries: &self.entries[past..],
        }
    }

    /// At the content of a group that is left in this scope, and is followed by `more`.
    pub(crate) fn inside(&self, content: Place<'a>, more: &Place<'_>) -> Placed<'a>
        requires { Holds self.now.rest content more.now }
        ensures { result ≡ record { rest = content.entry; after = an_end ∷ (items more.now ++ self.now.after) } }
    {
        let past = self.place.len() - (content.len() + 1 + more.len());
        Placed {
            place: content,
            entries: &self.entries[past..],
        }
    }
}
