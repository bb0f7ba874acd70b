//! A list that only clauses read.
ghost use Rattle.std.specs.Prelude.{◌≡◌, ◌+◌, ◌∷◌, []};
ghost use Rattle.zh_film.specs.Past.{items, number};

use std::snapshot::Snapshot;

/// A list of values, the latest first. The running program stores only whether the list is empty.
#[derive(Drop)]
pub enum Past<T> {
    Start,
    After(Snapshot<T>, Snapshot<Past<T>>),
}

impl<T> Past<T> {
    /// The empty list.
    pub fn new() -> Past<T>
        ensures { items result ≡ [] }
    {
        Past::Start
    }

    /// Adds a value.
    pub fn push(&mut self, value: Snapshot<T>)
        ensures { items self.new ≡ value.value ∷ items self.old }
    {
        *self = Past::After(value, Snapshot::of(self));
    }
}

impl Past<()> {
    /// Adds an entry to a list of which only the length matters.
    pub fn add(&mut self)
        ensures { number self.new ≡ number self.old + 1 }
    {
        self.push(Snapshot::of(&()));
    }
}
