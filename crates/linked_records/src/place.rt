//! What stands in an arena.
ghost use Rattle.std.specs.Prelude.{◌≡◌, Option, Some};
ghost use Rattle.std.specs.Borrow.{sem};

/// Where a record stands: its list, and the records before and after it there.
#[derive(Clone, Copy)]
pub(crate) struct Links {
    pub(crate) list: u32,
    pub(crate) prev: Option<u32>,
    pub(crate) next: Option<u32>,
}

/// The first and the last record of a list.
#[derive(Clone, Copy)]
pub(crate) struct Ends {
    pub(crate) first: Option<u32>,
    pub(crate) last: Option<u32>,
}

/// A place for one record.
#[derive(Drop)]
pub(crate) enum Place<T> {
    /// No record stands here. It has the free place after it.
    Free(Option<u32>),
    /// A record, and where it stands.
    Taken(Links, T),
}

impl<T> Place<T> {
    ghost use Rattle.linked_records.specs.Places.{IsTaken, links_of, value_of, with_links};
    ghost use Rattle.linked_records.specs.Lent.{LendsValue};

    /// Where the record stands.
    pub(crate) fn links(&self) -> Links
        requires { IsTaken self.now }
        ensures { result ≡ links_of self.now }
    {
        match self {
            Place::Taken(links, _) => *links,
            Place::Free(_) => unreachable!(),
        }
    }

    /// The record stands elsewhere.
    pub(crate) fn set_links(&mut self, new: Links)
        requires { IsTaken self.old }
        ensures { self.new ≡ with_links new self.old }
    {
        match self {
            Place::Taken(links, _) => *links = new,
            Place::Free(_) => unreachable!(),
        }
    }

    pub(crate) fn value(&self) -> &T
        requires { IsTaken self.now }
        ensures { value_of self.now ≡ Some result.now }
    {
        match self {
            Place::Taken(_, value) => value,
            Place::Free(_) => unreachable!(),
        }
    }

    pub(crate) fn value_mut(&mut self) -> &mut T
        requires { IsTaken self.old }
        ensures* lends { sem 𝓛 (LendsValue T.row self.entry result) }
        ensures value { value_of self.old ≡ Some result.now }
    {
        match self {
            Place::Taken(_, value) => value,
            Place::Free(_) => unreachable!(),
        }
    }
}
