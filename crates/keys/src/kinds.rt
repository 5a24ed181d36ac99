// The two kinds of key: group numbers and cage tags.
ghost use Rattle.std.specs.Prelude.{◌≡◌};
ghost use Rattle.keys.specs.Meanings.{group_meaning, tag_meaning};

use crate::key::Key;

// A sort group by its number.
#[derive(Clone, Copy, PartialEq, Eq, Debug)]
pub struct GroupNumber {
    number: u64,
}

impl GroupNumber {
    pub fn new(number: u64) -> GroupNumber
        ensures { result.number ≡ number }
    {
        GroupNumber { number }
    }

    pub fn number(self) -> u64
        ensures { result ≡ self.number }
    {
        self.number
    }
}

impl Key for GroupNumber {
    ghost meaning = { group_meaning };

    fn same(&self, other: &GroupNumber) -> bool {
        self == other
    }
}

// A sort group by the tag on its cage. A tag that is printed again has another reprint number and means the same.
#[derive(Clone, Copy)]
pub struct CageTag {
    carrier: u16,
    cage: u32,
    reprint: u8,
}

impl CageTag {
    pub fn new(carrier: u16, cage: u32, reprint: u8) -> CageTag
        ensures carrier { result.carrier ≡ carrier }
        ensures cage { result.cage ≡ cage }
        ensures reprint { result.reprint ≡ reprint }
    {
        CageTag {
            carrier,
            cage,
            reprint,
        }
    }

    pub fn carrier(self) -> u16
        ensures { result ≡ self.carrier }
    {
        self.carrier
    }

    pub fn cage(self) -> u32
        ensures { result ≡ self.cage }
    {
        self.cage
    }

    pub fn reprint(self) -> u8
        ensures { result ≡ self.reprint }
    {
        self.reprint
    }
}

impl Key for CageTag {
    ghost meaning = { tag_meaning };

    fn same(&self, other: &CageTag) -> bool {
        // Not a derived equality: the reprint is no part of the meaning.
        (self.carrier, self.cage) == (other.carrier, other.cage)
    }
}
