//! What a group holds.

ghost use Rattle.std.specs.Prelude.{◌≡◌, IfOk, IfSome};

use crate::items::Items;
use crate::tree::Delimiter;
use std::alloc::{AllocError, Global};
use std::marker::Model;
use std::rc::Rc;

/// An `Rc` that contracts see as its value.
pub struct Held<T> {
    inner: Rc<T>,
}

impl<T: Drop> Drop for Held<T> {
    fn drop(self) {
        let Held { inner: _inner } = self;
    }
}

impl<T> Model for Held<T> {
    ghost Value = { T };

    ghost coded = { T.code };

    ghost view = { λ b. b.inner.value };
}

impl<T> Held<T> {
    pub fn get(&self) -> &T
        ensures { result.now ≡ self.now }
    {
        self.inner.as_ref()
    }
}

impl<T: Drop> Held<T> {
    pub fn new(alloc: Global, value: T) -> Result<Held<T>, AllocError>
        ensures { IfOk result (λ h. h ≡ value) }
    {
        Ok(Held {
            inner: Rc::new(alloc, value)?,
        })
    }

    /// The same value, by one count more.
    pub fn share(&self) -> Result<Held<T>, AllocError>
        ensures { IfOk result (λ h. h ≡ self.now) }
    {
        Ok(Held {
            inner: self.inner.clone()?,
        })
    }
}

/// A list of its own, or a shared one. The delimiter stands beside what tells the two apart, and takes no room there.
pub enum Keep<T> {
    Own(Delimiter, Items<T>),
    Shared(Delimiter, Held<Items<T>>),
}

impl<T: Drop> Drop for Keep<T> {
    fn drop(self) {
        match self {
            Keep::Own(_, _list) => (),
            Keep::Shared(_, _list) => (),
        }
    }
}

/// What is kept so, and contracts see as the list and the delimiter.
pub struct Content<T> {
    kept: Keep<T>,
}

impl<T: Drop> Drop for Content<T> {
    fn drop(self) {
        let Content { kept: _kept } = self;
    }
}

impl<T> Model for Content<T> {
    ghost use Rattle.std.specs.Prelude.{List};
    ghost use Rattle.std.specs.Coded.{coded_list, coded×};
    ghost use Rattle.token_core.specs.declared.tree.Delimiter.{Delimiter};
    ghost use Rattle.token_core.specs.Codes.{delimiter_code};
    ghost use Rattle.token_core.specs.Kept.{list_of, delimiter_of};

    ghost Value = { List T × Delimiter };

    ghost coded = { coded× (coded_list T.code) delimiter_code };

    ghost view = { λ c. (list_of c.kept, delimiter_of c.kept) };
}

impl<T> Content<T> {
    pub fn own(delimiter: Delimiter, list: Items<T>) -> Content<T>
        ensures { result ≡ (list, delimiter) }
    {
        Content {
            kept: Keep::Own(delimiter, list),
        }
    }

    pub fn get(&self) -> &Items<T>
        ensures { result.now ≡ self.now.0 }
    {
        match &self.kept {
            Keep::Own(_, list) => list,
            Keep::Shared(_, list) => list.get(),
        }
    }

    pub fn delimiter(&self) -> Delimiter
        ensures { result ≡ self.now.1 }
    {
        match &self.kept {
            Keep::Own(delimiter, _) => *delimiter,
            Keep::Shared(delimiter, _) => *delimiter,
        }
    }
}

impl<T: Drop> Content<T> {
    /// A list that is shared, in no more room than it needs.
    pub fn shared(
        alloc: Global,
        delimiter: Delimiter,
        list: Items<T>,
    ) -> Result<Content<T>, AllocError>
        ensures { IfOk result (λ c. c ≡ (list, delimiter)) }
    {
        Ok(Content {
            kept: Keep::Shared(delimiter, Held::new(alloc, list.fitted()?)?),
        })
    }

    /// Its equal, which shares the list; none where the list is its own.
    pub fn share(&self) -> Result<Option<Content<T>>, AllocError>
        ensures { IfOk result (λ o. IfSome o (λ c. c ≡ self.now)) }
    {
        match &self.kept {
            Keep::Own(_, _) => Ok(None),
            Keep::Shared(delimiter, list) => Ok(Some(Content {
                kept: Keep::Shared(*delimiter, list.share()?),
            })),
        }
    }
}
