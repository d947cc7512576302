//! Lists that grow without a copy: a first run, and pages of one size behind it.

ghost use Rattle.std.specs.Prelude.{◌≡◌, ◌↔◌, ◌⊎◌, ◌<◌, ◌≤◌, length, drop, IsTrue, vec_len, vec_capacity};

use abs_codec::NoMemory;
use std::alloc::Global;
use std::marker::Model;
use std::mem::replace;

/// How many items a page has.
const PAGE: usize = 64;

/// The items of a run from a place on.
fn items_from<T>(run: &Vec<T>, place: usize) -> &[T]
    requires { place ≤ length run.now.items }
    ensures { result.now ≡ drop place run.now.items }
{
    &run[place..]
}

/// A list in pages, of which all but the last are full.
#[derive(Drop)]
struct Tail<T> {
    /// The pages before the last, in order.
    full: Vec<Vec<T>>,
    /// The page that items are put in.
    last: Vec<T>,
}

impl<T> Model for Tail<T> {
    ghost use Rattle.std.specs.Prelude.{List, ◌++◌};
    ghost use Rattle.commit_sink.specs.Pages.{AreFull, joined};

    ghost Value = { List T };

    ghost view = { λ t. joined t.full.items ++ t.last.items };

    ghost invariant = { λ t. AreFull t.full.items };
}

impl<T: Drop> Tail<T> {
    ghost use Rattle.std.specs.Prelude.{◌≡◌, ◌↔◌, ◌<◌, [], ◌∷◌, ◌++◌, length, IsTrue, OnOk, OnErr, IfOk};
    ghost use Rattle.commit_sink.specs.Runs.{IsRunFrom};

    /// The empty list, which takes no memory.
    fn new(alloc: Global) -> Tail<T>
        ensures { result ≡ [] }
    {
        Tail {
            full: Vec::new(alloc),
            last: Vec::new(alloc),
        }
    }

    /// There is no item.
    fn is_empty(&self) -> bool
        ensures { IsTrue result ↔ (self.now ≡ []) }
    {
        self.full.is_empty() && self.last.is_empty()
    }

    /// Where the last page is full, another follows it. A page takes all its memory at once.
    fn turn_page(&mut self) -> Result<(), NoMemory>
        ensures { self.new ≡ self.old }
    {
        if self.last.len() == PAGE {
            self.full.reserve(1)?;
            let page = Vec::new(*self.last.allocator());
            self.full.push_reserved(replace(&mut self.last, page));
        }
        if self.last.is_empty() {
            self.last.reserve(PAGE)?;
        }
        Ok(())
    }

    /// Puts an item last.
    fn push(&mut self, item: T) -> Result<(), NoMemory>
        ensures ok { OnOk result (self.new ≡ self.old ++ item ∷ []) }
        ensures err { OnErr result (self.new ≡ self.old) }
    {
        self.turn_page()?;
        self.last.reserve(1)?;
        self.last.push_reserved(item);
        Ok(())
    }

    /// The items from a place on, as many as stand together.
    fn run_from(&self, place: usize) -> &[T]
        requires { place < length self.now }
        ensures { IsRunFrom self.now place result.now }
    {
        let page = place / PAGE;
        if page < self.full.len() {
            return items_from(&self.full[page], place % PAGE);
        }
        items_from(&self.last, place - PAGE * self.full.len())
    }

    /// Keeps no more memory than it needs.
    fn shrink(&mut self)
        ensures { self.new ≡ self.old }
    {
        self.full.shrink_to_fit();
        self.last.shrink_to_fit();
    }

    /// Puts its items behind others.
    fn append_to(self, mut all: Vec<T>) -> Result<Vec<T>, NoMemory>
        ensures { IfOk result (λ whole. whole.items ≡ all.items ++ self) }
    {
        let Tail { full, mut last } = self;
        for mut page in full {
            all.append(&mut page)?;
        }
        all.append(&mut last)?;
        Ok(all)
    }
}

/// A list that grows without a copy.
#[derive(Drop)]
pub(crate) struct Pages<T> {
    /// The first run, of any length.
    first: Vec<T>,
    /// What follows, in pages.
    tail: Tail<T>,
    /// How many items there are.
    len: usize,
}

impl<T> Model for Pages<T> {
    ghost use Rattle.std.specs.Prelude.{◌≡◌, ◌+◌, List, ◌++◌, length};

    ghost Value = { List T };

    ghost view = { λ p. p.first.items ++ p.tail };

    ghost invariant = { λ p. p.len ≡ length p.first.items + length p.tail };
}

/// The first run takes more while it has room, or fewer items than a page.
fn takes_more<T>(first: &Vec<T>) -> bool
    ensures { IsTrue result ↔ (vec_len first.now < PAGE)
        ⊎ (vec_len first.now < vec_capacity first.now) }
{
    first.len() < PAGE || first.len() < first.capacity()
}

impl<T: Drop> Pages<T> {
    ghost use Rattle.std.specs.Prelude.{◌≡◌, ◌<◌, [], ◌∷◌, ◌++◌, length, OnOk, OnErr, IfOk};
    ghost use Rattle.commit_sink.specs.Runs.{IsRunFrom};

    /// The list of a `Vec`, which is not copied.
    pub(crate) fn from_vec(first: Vec<T>) -> Pages<T>
        ensures { result ≡ first.items }
    {
        let tail = Tail::new(*first.allocator());
        let len = first.len();
        Pages { first, tail, len }
    }

    /// The empty list, with room for so many items if there is memory.
    pub(crate) fn with_room(alloc: Global, room: usize) -> Pages<T>
        ensures { result ≡ [] }
    {
        let mut first = Vec::new(alloc);
        let _ = first.reserve(room);
        Pages::from_vec(first)
    }

    /// Puts an item last. Where memory is refused, the list stays and the item is dropped.
    pub(crate) fn push(&mut self, item: T) -> Result<(), NoMemory>
        ensures ok { OnOk result (self.new ≡ self.old ++ item ∷ []) }
        ensures err { OnErr result (self.new ≡ self.old) }
    {
        let Some(len) = self.len.checked_add(1) else {
            return Err(NoMemory);
        };
        if takes_more(&self.first) && self.tail.is_empty() {
            self.first.reserve(1)?;
            self.first.push_reserved(item);
        } else {
            self.tail.push(item)?;
        }
        self.len = len;
        Ok(())
    }

    /// How many items there are.
    pub(crate) fn len(&self) -> usize
        ensures { result ≡ length self.now }
    {
        self.len
    }

    /// The items from a place on, as many as stand together.
    pub(crate) fn run_from(&self, place: usize) -> &[T]
        requires { place < length self.now }
        ensures { IsRunFrom self.now place result.now }
    {
        if place < self.first.len() {
            return items_from(&self.first, place);
        }
        self.tail.run_from(place - self.first.len())
    }

    /// Keeps no more memory than it needs.
    pub(crate) fn shrink(&mut self)
        ensures { self.new ≡ self.old }
    {
        self.first.shrink_to_fit();
        self.tail.shrink();
    }

    /// Drops the items, and their memory.
    pub(crate) fn clear(&mut self)
        ensures { self.new ≡ [] }
    {
        *self = Pages::from_vec(Vec::new(*self.first.allocator()));
    }

    /// The items in one `Vec`. Where they stand in one run, they are not copied.
    pub(crate) fn into_vec(self) -> Result<Vec<T>, NoMemory>
        ensures { IfOk result (λ whole. whole.items ≡ self) }
    {
        let Pages { first, tail, .. } = self;
        tail.append_to(first)
    }
}
