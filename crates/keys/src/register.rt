// The register: keys in use stand at the front of a lent row, each at its place, counted from 0.
ghost use Rattle.std.specs.Prelude.{◌≡◌, ◌≤◌, [], length, take, drop};
ghost use Rattle.std.specs.Option.{option_map};
ghost use Rattle.keys.specs.Places.{place_of, place_given, keys_after, key_at};
ghost use Rattle.keys.specs.Promises.{Apart, Apart-prop, SamePlaceSameMeaning, OwnPlaces, PlacesStay};

use crate::key::Key;

// The place of the key that means the same, among the keys in use: proved once for every kind of key.
fn find_in<K: Key>(keys: &[K], key: &K) -> Option<usize>
    ensures { result ≡ place_of K.meaning keys.now key.now }
{
    keys.iter().position(|k| k.same(key))
}

// The first `used` keys of the row are in use, each at its place, and no two of them mean the same.
// A slice that the caller lends with a count beside it: the library has no heap.
#[derive(Drop)]
pub struct Register<'a, K: Key> {
    row: &'a mut [K],
    used: usize,
    ghost within: { used ≤ length row.now },
    ghost apart: { Apart K.meaning (take used row.now) } by { Apart-prop K.meaning (take used row.now) },
}

impl<'a, K: Key + Drop> Register<'a, K> {
    ghost use Rattle.keys.specs.Registers.{in_use, row_of, rest_of, RowKept};

    // Over a lent row: nothing is in use.
    #[tactic(auto, using(crate::proofs::Promises::apart_none))]
    pub fn new(row: &'a mut [K]) -> Register<'a, K>
        ensures keys { in_use result ≡ [] }
        ensures row { row_of result ≡ row.old }
        ensures lender { result.row.ghost_name ≡ row.entry.ghost_name }
    {
        Register { row, used: 0 }
    }

    // The keys in use, in order of place.
    fn keys(&self) -> &[K]
        ensures { result.now ≡ in_use self.now }
    {
        &self.row[..self.used]
    }

    // How many keys are in use.
    pub fn len(&self) -> usize
        ensures { result ≡ length (in_use self.now) }
    {
        self.keys().len()
    }

    // How many keys the row has places for.
    pub fn capacity(&self) -> usize
        ensures { result ≡ length (row_of self.now) }
    {
        self.row.len()
    }

    // The key in use at a place: the one first seen there.
    pub fn key_at(&self, place: usize) -> Option<&K>
        ensures { option_map (λ x. x.now) result ≡ key_at (in_use self.now) place }
    {
        self.keys().get(place)
    }

    // The place that the key has.
    pub fn find(&self, key: &K) -> Option<usize>
        ensures { result ≡ place_of K.meaning (in_use self.now) key.now }
    {
        find_in(self.keys(), key)
    }

    // The place that the key has, or would be given next. Changes nothing.
    pub fn place(&self, key: &K) -> Option<usize>
        ensures { result ≡ place_given K.meaning (in_use self.now) (length (row_of self.now)) key.now }
    {
        let next = (self.used < self.row.len()).then_some(self.used);
        self.find(key).or(next)
    }

    // Gives the key its place: the one that it has, where the key first seen is kept, or the next. A full row adds nothing.
    #[tactic(auto, using(crate::proofs::Promises::adding))]
    pub fn add(&mut self, key: K) -> Option<usize>
        ensures place { result ≡ place_given K.meaning (in_use self.old) (length (row_of self.old)) key }
        ensures keys { in_use self.new ≡ keys_after K.meaning (in_use self.old) (length (row_of self.old)) key }
        ensures rest { rest_of self.new ≡ drop self.new.used (row_of self.old) }
        ensures len { length (row_of self.new) ≡ length (row_of self.old) }
        ensures lender { self.new.row.ghost_name ≡ self.old.row.ghost_name }
        ensures kept { RowKept self.old self.new }
        ensures same_place_same_meaning { SamePlaceSameMeaning K.meaning (in_use self.new) }
        ensures places_stay { PlacesStay K.meaning (in_use self.old) (in_use self.new) }
        ensures stays_apart { Apart K.meaning (in_use self.new) }
        ensures own_places { OwnPlaces K.meaning (in_use self.new) }
    {
        if let Some(place) = self.find(&key) {
            return Some(place);
        }
        let next = self.used;
        if next >= self.row.len() {
            return None;
        }
        self.row[next] = key;
        self.used = next + 1;
        Some(next)
    }
}

#[cfg(test)]
mod tests {
    use super::*;
    use crate::kinds::{CageTag, GroupNumber};
    use std::test::Fail;

    #[test]
    fn reprinted_tag_has_the_first_ones_place(rt: HostRuntime) -> Result<(), Fail> {
        let mut row = [CageTag::new(0, 0, 0); 4];
        let mut register = Register::new(&mut row);
        assert_eq!(rt; register.add(CageTag::new(7, 70, 1)), Some(0));
        assert_eq!(rt; register.add(CageTag::new(7, 71, 1)), Some(1));
        assert_eq!(rt; register.find(&CageTag::new(7, 70, 2)), Some(0));
        assert_eq!(rt; register.add(CageTag::new(7, 70, 3)), Some(0));
        match register.key_at(0) {
            Some(tag) => {
                assert_eq!(rt; tag.reprint(), 1);
                Ok(())
            },
            None => Err(Fail::new("no key at place 0")),
        }
    }

    #[test]
    fn full_row_adds_nothing(rt: HostRuntime) {
        let mut row = [GroupNumber::new(0); 1];
        let mut register = Register::new(&mut row);
        assert_eq!(rt; register.place(&GroupNumber::new(5)), Some(0));
        assert_eq!(rt; register.add(GroupNumber::new(5)), Some(0));
        assert_eq!(rt; register.place(&GroupNumber::new(6)), None);
        assert_eq!(rt; register.add(GroupNumber::new(6)), None);
        assert_eq!(rt; register.len(), register.capacity());
    }
}
