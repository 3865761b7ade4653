//! The bars of a run while it goes on.

ghost use Rattle.std.specs.Prelude.{◌≡◌, ◌<◌, ◌≤◌, ◌^◌, length, take, Some, IfOk, option_to_list};
ghost use Rattle.std.specs.List.{fold};
ghost use Rattle.std.specs.Option.{ForSome};
ghost use Rattle.power_model.specs.Price.{metered};
ghost use Rattle.run_stretches.specs.Recorded.{added, all_bars, can_pay, finished, has_room, is_port, is_short, longer, no_bars, paid_on, put, put_behind, squeezed, tracked, untracked};

use crate::bars::{BarEnd, NO_END};
use power_model::{Meter, Power};
use scale_base::{NoMemory, Stepped};
use speed_sim::Watches;
use std::alloc::Global;
use std::marker::Model;

/// The most bars of a run.
const MOST_BARS: usize = 512;

/// Room for the bars of a run, all of it taken at once. Of more stretches than there is room for, the short ones are joined.
#[derive(Drop)]
pub struct BarRoom {
    slots: Vec<BarEnd>,
    count: usize,
    last: Option<BarEnd>,
    begin: u128,
    grain: u128,
}

impl Model for BarRoom {
    ghost use Rattle.std.specs.Prelude.{◌≡◌, ◌≤◌, length, take};
    ghost use Rattle.run_stretches.specs.Recorded.{BarList};

    ghost Value = { BarList };

    ghost view = { λ r. record { done = take r.count r.slots.items; last = r.last; begin = r.begin; grain = r.grain } };

    ghost invariant = { λ r. (length r.slots.items ≡ 512) × (r.count ≤ 511) };
}

/// A bar that goes on to another end.
fn longer(bar: BarEnd, end: BarEnd) -> BarEnd
    ensures { result ≡ longer bar end }
{
    BarEnd {
        level: bar.level,
        ..end
    }
}

impl BarRoom {
    pub fn new(alloc: Global) -> Result<BarRoom, NoMemory>
        ensures { IfOk result (λ room. room ≡ no_bars 0) }
    {
        Ok(BarRoom {
            slots: vec![in alloc; NO_END; MOST_BARS]?,
            count: 0,
            last: None,
            begin: 0,
            grain: 0,
        })
    }

    /// Takes all bars away.
    fn clear(&mut self, grain: u128)
        ensures { self.new ≡ no_bars grain }
    {
        self.count = 0;
        self.last = None;
        self.begin = 0;
        self.grain = grain;
    }

    /// Whether there is room for one more bar behind the last one.
    fn has_room(&self) -> bool
        ensures { result ≡ has_room self.now }
    {
        self.count < MOST_BARS - 1
    }

    /// Whether a bar that would go on to this end were short.
    fn is_short(&self, end: BarEnd) -> bool
        ensures { result ≡ is_short self.now end }
    {
        end.time.saturating_sub(self.begin) < self.grain
    }

    /// One more end of a stretch, or of several: that of a bar of its own, or one to which the last bar goes on.
    #[tactic(auto, unfolding(crate::specs::Recorded::put))]
    fn put(&mut self, end: BarEnd)
        ensures { self.new ≡ put self.old end }
    {
        match self.last {
            None => self.last = Some(end),
            Some(bar) => self.put_behind(bar, end),
        }
    }

    /// The same behind a bar.
    fn put_behind(&mut self, bar: BarEnd, end: BarEnd)
        ensures { self.new ≡ put_behind self.old (Some bar) end }
    {
        if self.is_short(end) || !self.has_room() {
            self.last = Some(longer(bar, end));
        } else {
            self.slots[self.count] = bar;
            self.count += 1;
            self.last = Some(end);
            self.begin = bar.time;
        }
    }

    /// The ends of the bars that are done, and how many there are.
    fn copy_to(&self, ends: &mut [BarEnd]) -> usize
        requires { length ends.old ≡ 512 }
        ensures done { take result ends.new ≡ self.now.done }
        ensures few { result ≤ 511 }
        ensures size { length ends.new ≡ 512 }
    {
        ends.copy_from_slice(&self.slots);
        self.count
    }

    /// The last bar.
    fn last_bar(&self) -> Option<BarEnd>
        ensures { result ≡ self.now.last }
    {
        self.last
    }

    /// So many ends, one after another.
    fn put_all(&mut self, ends: &[BarEnd], count: usize)
        requires { count ≤ length ends.now }
        ensures { self.new ≡ fold put self.old (take count ends.now) }
    {
        for k in 0..count {
            self.put(ends[k]);
        }
    }

    /// One more end, if there is one.
    fn put_last(&mut self, last: Option<BarEnd>)
        ensures { self.new ≡ fold put self.old (option_to_list last) }
    {
        match last {
            Some(end) => self.put(end),
            None => {}
        }
    }

    /// Joins the bars that stay short.
    fn squeeze(&mut self, grain: u128)
        ensures { self.new ≡ squeezed self.old grain }
    {
        let mut ends = [NO_END; MOST_BARS];
        let count = self.copy_to(&mut ends);
        let kept = self.last_bar();
        self.clear(grain);
        self.put_all(&ends, count);
        self.put_last(kept);
    }

    /// One more end of a stretch, for which room is made.
    #[tactic(auto, unfolding(crate::specs::Recorded::added))]
    pub fn add(&mut self, end: BarEnd)
        ensures { self.new ≡ added self.old end }
    {
        if !self.has_room() {
            self.squeeze(end.time / 200 + 1);
        }
        self.put(end);
    }

    /// All bars.
    pub fn bars(self) -> Vec<BarEnd>
        ensures { result.items ≡ all_bars self }
    {
        let BarRoom {
            slots,
            count,
            last,
            ..
        } = self;
        let mut slots = slots;
        let mut count = count;
        if let Some(end) = last {
            slots[count] = end;
            count += 1;
        }
        slots.truncate(count);
        slots
    }
}

/// Sees the steps of a run, and keeps the bars of its stretches.
#[derive(Drop)]
pub struct Recorder<'a> {
    power: &'a Power,
    meter: Meter,
    closed: u64,
    room: BarRoom,
}

impl<'a> Model for Recorder<'a> {
    ghost use Rattle.std.specs.Prelude.{◌<◌, ◌≤◌, ◌^◌, length};
    ghost use Rattle.run_stretches.specs.Recorded.{Track};

    ghost Value = { Track };

    ghost view = { λ r. record { power = r.power.now; paid = r.meter; closed = r.closed; bars = r.room } };

    ghost invariant = { λ r. (r.meter.level < length r.power.now.levels) × (r.meter.steps ≤ 2 ^ 40) };
}

/// Whether what a step stored at the port, if it did, is one of so many levels.
fn is_port(levels: u8, port: Option<u8>) -> bool
    ensures { result ≡ is_port levels port }
{
    match port {
        None => true,
        Some(level) => level < levels,
    }
}

impl<'a> Recorder<'a> {
    /// A recorder of a run before its first step, at a level.
    pub fn new(alloc: Global, power: &'a Power, start: u8) -> Result<Recorder<'a>, NoMemory>
        requires { start < length power.now.levels }
        ensures { IfOk result (λ recorder. recorder ≡ untracked power.now start) }
    {
        Ok(Recorder {
            power,
            meter: Meter::new(start),
            closed: 0,
            room: BarRoom::new(alloc)?,
        })
    }

    /// Whether a step can be paid: each step of a run can be.
    fn can_pay(&self, step: &Stepped) -> bool
        ensures { result ≡ can_pay self.now step.now }
    {
        let power = self.power;
        self.meter.steps < 1 << 40 && is_port(power.levels.count(), step.port)
    }

    /// One more step, which can be paid.
    #[tactic(auto, using(crate::proofs::PayLaws::level_within))]
    fn pay(&mut self, step: &Stepped)
        requires few { self.old.paid.steps < 2 ^ 40 }
        requires port { ForSome step.now.port (λ l. l < length self.old.power.levels) }
        ensures { self.new ≡ paid_on self.old (metered self.old.power self.old.paid step.now) }
    {
        let power = self.power;
        let level = self.meter.level;
        self.meter.add(power, step);
        if self.meter.level != level {
            self.closed = self.meter.steps;
            self.room.add(BarEnd {
                level,
                time: self.meter.time,
                energy: self.meter.energy,
                stretches: self.meter.switches,
            });
        }
    }

    /// One more step.
    #[tactic(auto, unfolding(crate::specs::Recorded::tracked))]
    pub fn see(&mut self, step: &Stepped)
        ensures { self.new ≡ tracked self.old step.now }
    {
        if self.can_pay(step) {
            self.pay(step);
        }
    }

    /// The bars of the run, which ended with these numbers.
    pub fn finish(self, end: &Meter) -> Vec<BarEnd>
        ensures { result.items ≡ finished self.entry end.now }
    {
        let Recorder {
            meter,
            closed,
            room,
            ..
        } = self;
        let mut room = room;
        if closed < end.steps {
            room.add(BarEnd {
                level: meter.level,
                time: end.time,
                energy: end.energy,
                stretches: meter.switches + 1,
            });
        }
        room.bars()
    }
}

impl Watches for Recorder<'_> {
    ghost use Rattle.run_stretches.specs.Recorded.{tracked};

    ghost watched = { tracked };

    #[inline(always)]
    fn show(&mut self, step: &Stepped) {
        self.see(step);
    }
}
