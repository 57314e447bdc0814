//! A list that is written over and never cut.

ghost use Rattle.std.specs.Prelude.{◌≤◌, vec_len};

use std::alloc::{AllocError, Global};

/// A list of which the first items count. Those behind them are left from before, to be written over.
#[derive(Drop)]
pub(crate) struct Front<T> {
    /// All items.
    pub(crate) items: Vec<T>,
    /// How many of them count.
    pub(crate) count: usize,
    ghost within: { count ≤ vec_len items },
}

impl<T> Front<T> {
    ghost use Rattle.std.specs.Prelude.{◌≡◌, ◌+◌, ◌<◌, [], OnErr, vec_capacity};
    ghost use Rattle.lbk_passage.specs.Front.{items_of};
    ghost use Rattle.lbk_passage.specs.Room.{MakesRoom};

    /// A list with no items. It reserves no room.
    pub(crate) fn new(alloc: Global) -> Front<T>
        ensures count { result.count ≡ 0 }
        ensures room { vec_capacity result.items ≡ 0 }
    {
        Front {
            items: Vec::new(alloc),
            count: 0,
        }
    }

    /// Lets no item count.
    #[inline(always)]
    pub(crate) fn clear(&mut self)
        ensures items { items_of self.new ≡ [] }
        ensures count { self.new.count ≡ 0 }
        ensures room { vec_capacity self.new.items ≡ vec_capacity self.old.items }
    {
        self.count = 0;
    }

    /// Sees to it that there are `more` items or more behind those that count, `filler` where there were none. Where there
    /// was too little room, there is room for twice as many as are then to count at most, so that a list that grows is
    /// seldom moved.
    #[inline(always)]
    pub(crate) fn make_room(&mut self, more: usize, filler: T) -> Result<(), AllocError>
    where
        T: Copy,
        ensures makes { MakesRoom self.old self.new more result }
        ensures full { OnErr result (vec_capacity self.old.items < self.old.count + more) }
    {
        if more <= self.items.len() - self.count {
            return Ok(());
        }
        self.lengthen(more, filler)
    }

    /// The same where there are fewer items.
    #[inline(never)]
    fn lengthen(&mut self, more: usize, filler: T) -> Result<(), AllocError>
    where
        T: Copy,
        requires { vec_len self.old.items < self.old.count + more }
        ensures makes { MakesRoom self.old self.new more result }
        ensures full { OnErr result (vec_capacity self.old.items < self.old.count + more) }
    {
        let all = self.count.saturating_add(more);
        if self.items.capacity() < all {
            let missing = all - self.items.len();
            self.items.reserve_exact(all.saturating_add(missing))?;
        }
        while self.items.len() < self.items.capacity() {
            self.items.push_reserved(filler);
        }
        Ok(())
    }

    /// The items that count.
    #[inline(always)]
    pub(crate) fn as_slice(&self) -> &[T]
        ensures { result.now ≡ items_of self.now }
    {
        &self.items[..self.count]
    }
}
