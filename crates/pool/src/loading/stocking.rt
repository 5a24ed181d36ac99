// Making a pool for loading, and loading.
ghost use Rattle.std.specs.Prelude.{◌≡◌, ℕ, ◌<◌, List, [], length, IfOk, None, Option, OnErr, OnOk, slice_index_or};
ghost use Rattle.messages.specs.declared.assignments.Assignment.{Assignment};
ghost use Rattle.line.specs.declared.states.State.TheVariants.{Invalid};
ghost use Rattle.transport.specs.Lanes.{all_empty};
ghost use Rattle.keys.specs.Registers.{in_use, row_of, RowKept};
ghost use Rattle.calls.specs.Faults.{seen};
ghost use Rattle.calls.specs.Model.{blank_slot, row_at};
ghost use Rattle.calls.specs.Opening.{TiedTo};
ghost use Rattle.pool.specs.Laws.{Tied};
ghost use Rattle.pool.specs.Stocks.{opens_as, unloaded, loaded_with, load_free, load_in, load_one, load_all, loads_in, stocked_from};

use crate::loading::Loading;
use crate::naming::{place_named, zone_named};
use crate::tables::Tables;
use calls::faults::Fault;
use calls::stock::Stock;
use keys::key::Key;
use keys::register::Register;
use messages::refusals::Refusal;
use rules::plan::Plan;
use rules::plan::places::Place;
use rules::plan::zones::Zone;
use transport::interface::Transport;

impl<T: Transport + Drop> Loading<T> {
    // All 256 lines begin Invalid, and the transport is cleared.
    pub fn new(plan: Plan, mut transport: T) -> Loading<T>
        ensures tables { opens_as result ≡ unloaded plan }
        ensures each_line_invalid { (k : ℕ) → k < 256 → (slice_index_or result.tables.slots k blank_slot).line.state ≡ Invalid }
        ensures lanes { T.waiting result.transport ≡ all_empty }
        ensures nothing_loaded { TiedTo [] (loads_in (opens_as result)) (λ _. None) }
    {
        transport.clear();
        Loading {
            plan,
            transport,
            tables: Tables::unloaded(),
        }
    }

    // The place that a load writes, or refusal 8 or 4.
    fn free_place(&self, zone: Zone, place: Option<usize>) -> Result<Place, Fault>
        ensures place { seen result ≡ load_in (opens_as self.now) zone place }
        ensures free { IfOk result (λ place. (row_at (opens_as self.now) place).list ≡ []) }
    {
        let place = place_named(self.plan, place).ok_or(Fault::at_zone(
            Refusal::NoPlace,
            zone.number(),
        ))?;
        if self.tables.record(place).owner().is_some() {
            return Err(Fault::at_zone(Refusal::AlreadyLoaded, zone.number()));
        }
        Ok(place)
    }

    // Puts an assignment at a zone. A new key enters the register only with an accepted load.
    pub fn load<K: Key + Drop>(
        &mut self,
        register: &mut Register<'_, K>,
        stock: Stock<K>,
    ) -> Result<(), Fault>
        ensures outcome { (seen result, opens_as self.new, in_use register.new) ≡ load_one K.meaning (length (row_of register.old)) (opens_as self.old) (in_use register.old) stock }
        ensures lanes { T.waiting self.new.transport ≡ T.waiting self.old.transport }
        ensures row { length (row_of register.new) ≡ length (row_of register.old) }
        ensures kept { RowKept register.old register.new }
        ensures refusal_changes_nothing { OnErr result ((opens_as self.new ≡ opens_as self.old) × (in_use register.new ≡ in_use register.old)) }
    {
        let zone = zone_named(self.plan, stock.zone)?;
        let place = self.free_place(zone, register.place(&stock.key))?;
        let _ = register.add(stock.key);
        self.tables.load(zone, place, stock.assignment);
        Ok(())
    }

    // The loads of a stock one after the other. Apart from `load_all`, so that a wrong body there is refused for what it promises: the proof of this loop names the call in it.
    fn load_each<K: Key + Copy>(
        &mut self,
        register: &mut Register<'_, K>,
        stock: &[Stock<K>],
    ) -> Result<(), Fault>
        ensures outcome { (seen result, opens_as self.new, in_use register.new) ≡ load_all K.meaning (length (row_of register.old)) (opens_as self.old) (in_use register.old) stock.now }
        ensures lanes { T.waiting self.new.transport ≡ T.waiting self.old.transport }
        ensures kept { RowKept register.old register.new }
        ensures tied { (values : List ℕ → Option Assignment) → Tied K.meaning (opens_as self.old) (in_use register.old) values → OnOk result (Tied K.meaning (opens_as self.new) (in_use register.new) (stocked_from K.meaning values stock.now)) }
    {
        for item in stock {
            self.load(register, *item)?;
        }
        Ok(())
    }

    // Loads the stock from first to last, up to the first refusal. Where values were tied to the keys in use, those of the stock are too.
    pub fn load_all<K: Key + Copy>(
        &mut self,
        register: &mut Register<'_, K>,
        stock: &[Stock<K>],
    ) -> Result<(), Fault>
        ensures outcome { (seen result, opens_as self.new, in_use register.new) ≡ load_all K.meaning (length (row_of register.old)) (opens_as self.old) (in_use register.old) stock.now }
        ensures lanes { T.waiting self.new.transport ≡ T.waiting self.old.transport }
        ensures row { length (row_of register.new) ≡ length (row_of register.old) }
        ensures kept { RowKept register.old register.new }
        ensures tied { (values : List ℕ → Option Assignment) → Tied K.meaning (opens_as self.old) (in_use register.old) values → OnOk result (Tied K.meaning (opens_as self.new) (in_use register.new) (stocked_from K.meaning values stock.now)) }
    {
        self.load_each(register, stock)
    }
}
