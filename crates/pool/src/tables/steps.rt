// What the calls do to the tables: one slot, one row or one zone's counts at a time.
ghost use Rattle.std.specs.Prelude.{◌≡◌, ◌+◌, ◌*◌, ◌<◌, ◌&&◌, [], ◌∷◌, map, replicate, None, slice_index_or, slice_set};
ghost use Rattle.line.specs.declared.states.State.TheVariants.{Exclusive};
ghost use Rattle.directory.specs.Directory.{view_of, directory};
ghost use Rattle.directory.specs.Sound.{sound};
ghost use Rattle.calls.specs.Model.{slot, blank_slot, fresh_row, no_counts};
ghost use Rattle.calls.specs.Questions.{none_wait, rows_calm};
ghost use Rattle.pool.specs.Steps.{state_in};

use crate::line_steps::LineStep;
use crate::tables::Tables;
use calls::slots::{Counts, Slot};
use directory::records::Record;
use directory::rows::Row;
use line::lines::Line;
use messages::assignments::Assignment;
use rules::plan::places::Place;
use rules::plan::zones::Zone;

// Where the line of a zone for a place stands. The two are no struct: the model, the lanes and the faults take them apart.
fn slot_index(zone: Zone, place: Place) -> usize
    ensures value { result ≡ zone * 32 + place }
    ensures below { result < 256 }
{
    usize::from(zone.number()) * 32 + usize::from(place.number())
}

// Lends the line to its step, and sets the number of its request. What the step answers is known before.
fn step_line<S: LineStep>(target: &mut Slot, step: S, number: u32)
    ensures { target.new ≡ slot (state_in (S.outcome step target.old.line.state)) number }
{
    let _ = step.step(&mut target.line);
    target.number = number;
}

// An Invalid line that had no request.
fn blank_slot() -> Slot
    ensures { result ≡ blank_slot }
{
    Slot {
        line: Line::fresh(),
        number: 0,
    }
}

fn fresh_row() -> Row
    ensures { view_of result ≡ fresh_row }
{
    Record::fresh().row()
}

// Whether a row is sound, as each row of the tables is, and no request waits there.
fn is_calm(row: Row) -> bool
    ensures { result ≡ (sound (view_of row) && none_wait (view_of row).waiting) }
{
    Record::from_row(row).is_some_and(|record| !record.has_waiting())
}

impl Tables {
    // Every line Invalid, every row fresh, nothing counted.
    pub(crate) fn unloaded() -> Tables
        ensures slots { result.slots ≡ replicate 256 blank_slot }
        ensures rows { map view_of result.rows ≡ replicate 32 fresh_row }
        ensures counts { result.counts ≡ replicate 8 no_counts }
    {
        Tables {
            slots: [blank_slot(); 256],
            rows: [fresh_row(); 32],
            counts: [Counts::default(); 8],
        }
    }

    // An assignment at a zone in E, listed there.
    pub(crate) fn load(&mut self, zone: Zone, place: Place, assignment: Assignment)
        ensures in_range { (zone < 8) × (place < 32) }
        ensures slots { self.new.slots ≡ slice_set self.old.slots (zone * 32 + place) (slot (Exclusive assignment) 0) }
        ensures rows { map view_of self.new.rows ≡ slice_set (map view_of self.old.rows) place (directory (zone ∷ []) [] None) }
        ensures counts { self.new.counts ≡ self.old.counts }
    {
        self.slots[slot_index(zone, place)] = Slot {
            line: Line::loaded(assignment),
            number: 0,
        };
        self.keep(place, Record::loaded(zone.number()).unwrap());
    }

    // A zone's line for a place, with the number of its last request.
    pub(crate) fn slot(&self, zone: Zone, place: Place) -> Slot
        ensures { result ≡ slice_index_or self.now.slots (zone * 32 + place) blank_slot }
    {
        self.slots[slot_index(zone, place)]
    }

    // Lends a zone's line to its step, and sets the number of its request.
    pub(crate) fn step<S: LineStep>(&mut self, zone: Zone, place: Place, step: S, number: u32)
        ensures slots { self.new.slots ≡ slice_set self.old.slots (zone * 32 + place) (slot (state_in (S.outcome step (slice_index_or self.old.slots (zone * 32 + place) blank_slot).line.state)) number) }
        ensures rows { self.new.rows ≡ self.old.rows }
        ensures counts { self.new.counts ≡ self.old.counts }
    {
        step_line(&mut self.slots[slot_index(zone, place)], step, number);
    }

    pub(crate) fn counts(&self, zone: Zone) -> Counts
        ensures { result ≡ slice_index_or self.now.counts zone no_counts }
    {
        self.counts[usize::from(zone.number())]
    }

    // Sets a zone's counts.
    pub(crate) fn count(&mut self, zone: Zone, counts: Counts)
        ensures slots { self.new.slots ≡ self.old.slots }
        ensures rows { self.new.rows ≡ self.old.rows }
        ensures counts { self.new.counts ≡ slice_set self.old.counts zone counts }
    {
        self.counts[usize::from(zone.number())] = counts;
    }

    // The number of the last request of a zone for a place. A step of the directory names the zone by its number, which its record keeps below 8, so the 0 is never told.
    pub(crate) fn number(&self, zone: u8, place: Place) -> u32
        ensures { result ≡ (slice_index_or self.now.slots (zone * 32 + place) blank_slot).number }
    {
        self.slots
            .get(usize::from(zone) * 32 + usize::from(place.number()))
            .map_or(0, |kept| kept.number)
    }

    // The record of a row, after its check.
    #[tactic(auto, using(crate::proofs::Rows::view_at, crate::proofs::Rows::found))]
    pub(crate) fn record(&self, place: Place) -> Record
        ensures { view_of result.row ≡ slice_index_or (map view_of self.now.rows) place fresh_row }
    {
        Record::from_row(self.rows[usize::from(place.number())]).unwrap()
    }

    // Writes a record back as the row of its place.
    #[tactic(auto, using(crate::proofs::Rows::set_view))]
    pub(crate) fn keep(&mut self, place: Place, kept: Record)
        ensures slots { self.new.slots ≡ self.old.slots }
        ensures rows { map view_of self.new.rows ≡ slice_set (map view_of self.old.rows) place (view_of kept.row) }
        ensures counts { self.new.counts ≡ self.old.counts }
    {
        self.rows[usize::from(place.number())] = kept.row();
    }

    // Whether no request waits at the directory.
    pub(crate) fn rows_are_calm(&self) -> bool
        ensures { result ≡ rows_calm (map view_of self.now.rows) }
    {
        self.rows.iter().all(|row| is_calm(*row))
    }
}
