// The morning of a four-zone sorter as a table: each call in its order, those that are refused among them.
use super::script::{Line, Wish};

// The groups that are loaded.
const LETTERS: u64 = 4_012;

const PARCELS: u64 = 4_040;

const RETURNS: u64 = 5_012;
// A group that comes up in the morning, and one for which no place is left.
const EXPRESS: u64 = 5_090;

const BULKY: u64 = 6_001;

pub(crate) const SCENES: [&[Line]; 10] = [
    STOCK,
    SHARED_READS,
    LET_GO,
    WRITE_OVER_READERS,
    CROSSING,
    PAUSED_ZONE,
    REMOVE,
    NEW_GROUP,
    WRITERS_AT_ONCE,
    END,
];

const STOCK: &[Line] = &[
    Line::Load(0, LETTERS, 12, 5),
    Line::Load(1, PARCELS, 40, 5),
    Line::Load(2, RETURNS, 7, 5),
];

const SHARED_READS: &[Line] = &[
    Line::Title("zone 0 reads what it has; zones 1, 2 and 3 read it too, one after the other"),
    Line::Start(0, LETTERS, Wish::CarbonCopy),
    Line::Start(1, LETTERS, Wish::CarbonCopy),
    Line::Start(1, LETTERS, Wish::Remove),
    Line::Start(2, LETTERS, Wish::CarbonCopy),
    Line::DeliverUp(1),
    Line::DeliverUp(2),
    Line::TakeUp(LETTERS),
    Line::TakeUp(LETTERS),
    Line::DeliverDown(0),
    Line::DeliverUp(0),
    Line::DeliverDown(1),
    Line::TakeUp(LETTERS),
    Line::DeliverDown(1),
    Line::DeliverUp(1),
    Line::DeliverDown(2),
    Line::TakeUp(LETTERS),
    Line::Start(3, LETTERS, Wish::CarbonCopy),
    Line::DeliverUp(3),
    Line::TakeUp(LETTERS),
    Line::DeliverDown(2),
    Line::DeliverUp(2),
    Line::DeliverDown(3),
    Line::Start(1, LETTERS, Wish::CarbonCopy),
];

const LET_GO: &[Line] = &[
    Line::Title("zone 1 lets go of its copy; the owner, zone 3, cannot"),
    Line::LetGo(3, LETTERS),
    Line::LetGo(1, LETTERS),
    Line::LetGo(1, LETTERS),
    Line::DeliverUp(1),
    Line::DeliverUp(1),
    Line::DeliverDown(1),
];

const WRITE_OVER_READERS: &[Line] = &[
    Line::Title(
        "zone 0 writes, and the readers in zones 2 and 3 are invalidated; zone 3 reads once more before it hears of it",
    ),
    Line::Start(0, LETTERS, Wish::GetIfAnyAndPut(31, 6)),
    Line::DeliverUp(0),
    Line::TakeUp(LETTERS),
    Line::DeliverDown(2),
    Line::Start(3, LETTERS, Wish::CarbonCopy),
    Line::DeliverDown(3),
    Line::DeliverUp(3),
    Line::DeliverUp(2),
    Line::DeliverDown(0),
    Line::Start(0, LETTERS, Wish::CarbonCopy),
];

const CROSSING: &[Line] = &[
    Line::Title("zone 1 puts; zone 0's extraction crosses the invalidate"),
    Line::Start(1, LETTERS, Wish::Put(8, 7)),
    Line::DeliverUp(1),
    Line::TakeUp(LETTERS),
    Line::Start(0, LETTERS, Wish::GetIfAny),
    Line::DeliverDown(0),
    Line::DeliverUp(0),
    Line::DeliverDown(1),
    Line::Start(1, LETTERS, Wish::CarbonCopy),
];

const PAUSED_ZONE: &[Line] = &[
    Line::Title("zone 2 is paused: it takes no starts, and still gives up what it holds to zone 3"),
    Line::Pause(2),
    Line::Start(2, RETURNS, Wish::CarbonCopy),
    Line::Start(3, RETURNS, Wish::GetIfAnyAndPut(9, 6)),
    Line::DeliverUp(3),
    Line::TakeUp(RETURNS),
    Line::DeliverDown(2),
    Line::DeliverUp(2),
    Line::DeliverDown(3),
    Line::Title("after the pause zone 2 reads what zone 3 wrote"),
    Line::Resume(2),
    Line::Start(2, RETURNS, Wish::CarbonCopy),
    Line::DeliverUp(2),
    Line::TakeUp(RETURNS),
    Line::DeliverDown(3),
    Line::DeliverUp(3),
    Line::DeliverDown(2),
];

const REMOVE: &[Line] = &[
    Line::Title("zone 2 removes what zone 1 has; zone 0 then finds nothing to replace"),
    Line::Start(2, PARCELS, Wish::Remove),
    Line::DeliverUp(2),
    Line::TakeUp(PARCELS),
    Line::DeliverDown(1),
    Line::DeliverUp(1),
    Line::DeliverDown(2),
    Line::Start(0, PARCELS, Wish::GetAndPutIfAny(50, 8)),
    Line::DeliverUp(0),
    Line::TakeUp(PARCELS),
    Line::DeliverDown(0),
];

const NEW_GROUP: &[Line] = &[
    Line::Title("a new group takes the last place, and the next one has none"),
    Line::TakeUp(EXPRESS),
    Line::Start(3, EXPRESS, Wish::Put(60, 9)),
    Line::DeliverUp(3),
    Line::TakeUp(EXPRESS),
    Line::DeliverDown(3),
    Line::Start(0, BULKY, Wish::CarbonCopy),
    Line::LetGo(0, BULKY),
];

const WRITERS_AT_ONCE: &[Line] = &[
    Line::Title("zones 0 and 1 write at once; zone 1's demand arrives first and is settled first"),
    Line::Start(0, EXPRESS, Wish::GetIfAnyAndPut(61, 9)),
    Line::Start(1, EXPRESS, Wish::GetIfAnyAndPut(62, 9)),
    Line::DeliverUp(1),
    Line::DeliverUp(0),
    Line::TakeUp(EXPRESS),
    Line::DeliverDown(3),
    Line::DeliverUp(3),
    Line::TakeUp(EXPRESS),
    Line::DeliverDown(1),
    Line::DeliverDown(1),
    Line::DeliverUp(1),
    Line::DeliverDown(0),
];

const END: &[Line] = &[
    Line::Title("the sorter has no zone 4"),
    Line::Start(4, EXPRESS, Wish::CarbonCopy),
    Line::DeliverUp(4),
    Line::DeliverDown(4),
    Line::LetGo(4, EXPRESS),
    Line::Title("zone 0 removes what it alone has, and the last report arrives"),
    Line::Start(0, EXPRESS, Wish::Remove),
    Line::DeliverUp(0),
];
