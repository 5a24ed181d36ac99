ghost use Rattle.std.specs.Prelude.{◌≡◌, ◌<◌, ◌≤◌, [], ◌∷◌, ◌++◌, length, take};
ghost use Rattle.directory.specs.Lists.{items_of, first_of, rest_of};

use crate::lists::ShortList;

impl<T: Copy> ShortList<T> {
    // The list of nothing; `spare` fills the array.
    pub(crate) fn empty(spare: T) -> ShortList<T>
        ensures { items_of result ≡ [] }
    {
        ShortList {
            items: [spare; 8],
            used: 0,
        }
    }

    // The list of one item.
    pub(crate) fn alone(item: T) -> ShortList<T>
        ensures { items_of result ≡ item ∷ [] }
    {
        ShortList {
            items: [item; 8],
            used: 1,
        }
    }

    // The items, first to last.
    pub fn as_slice(&self) -> &[T]
        ensures { result.now ≡ items_of self.now }
    {
        &self.items[..self.used]
    }

    pub fn len(self) -> usize
        ensures value { result ≡ length (items_of self) }
        ensures bound { result ≤ 8 }
        ensures items { items_of self ≡ take result self.items }
    {
        self.used
    }

    pub fn first(self) -> Option<T>
        ensures { result ≡ first_of (items_of self) }
    {
        self.as_slice().first().copied()
    }

    // One item more, before the others.
    pub(crate) fn push_front(self, item: T) -> ShortList<T>
        requires { length (items_of self) < 8 }
        ensures { items_of result ≡ item ∷ items_of self }
    {
        let mut items = self.items;
        items.rotate_right(1);
        items[0] = item;
        ShortList {
            items,
            used: self.used + 1,
        }
    }

    // One item more, behind the others.
    pub(crate) fn push_back(self, item: T) -> ShortList<T>
        requires { length (items_of self) < 8 }
        ensures { items_of result ≡ items_of self ++ item ∷ [] }
    {
        let mut items = self.items;
        items[self.used] = item;
        ShortList {
            items,
            used: self.used + 1,
        }
    }

    // All but the first.
    pub(crate) fn rest(self) -> ShortList<T>
        ensures { items_of result ≡ rest_of (items_of self) }
    {
        let mut items = self.items;
        items.rotate_left(1);
        ShortList {
            items,
            used: self.used.saturating_sub(1),
        }
    }
}
