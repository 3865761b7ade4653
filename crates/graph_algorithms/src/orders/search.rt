//! A depth-first search along arcs.

ghost use Rattle.std.specs.Prelude.{◌≡◌, ◌≢◌, ℕ, ◌+◌, ◌^◌, ◌<◌, length, None, [], OnOk, IfOk};
ghost use Rattle.graph_algorithms.specs.Arcs.{AreNumbered, HasArc, number_in_place};
ghost use Rattle.graph_algorithms.specs.DepthFirst.{IsSearch, AreMet, IsMet, IsBack, mark, arc_next, work};
ghost use Rattle.graph_algorithms.specs.declared.orders.search.Mark.TheVariants.{Unmet};

use crate::Arc;
use crate::orders::chains::chains_of;
use scale_base::NoMemory;
use std::alloc::Global;

/// Where a number stands: not met, at a place on the path, or at a place in the order.
#[derive(Clone, Copy, Drop)]
pub enum Mark {
    Unmet,
    OnPath(usize),
    Done(usize),
}

#[derive(Drop)]
pub struct Search {
    /// By number.
    pub marks: Vec<Mark>,
    /// The next arc to follow from each number.
    pub next: Vec<Option<usize>>,
    /// The arc that comes after each arc from the same number.
    pub before: Vec<Option<usize>>,
    /// From the root, an arc from each number to the next.
    pub path: Vec<usize>,
    pub order: Vec<usize>,
}

impl Search {
    pub fn new(alloc: Global, count: usize, arcs: &[Arc]) -> Result<Search, NoMemory>
        requires count { count < 2 ^ 32 }
        requires arcs { length arcs.now < 2 ^ 32 }
        requires numbered { AreNumbered count arcs.now }
        ensures size { IfOk result (λ new. length new.marks.items ≡ count) }
        ensures search { IfOk result (λ new. IsSearch arcs.now new.before.items new.next.items new.marks.items new.path.items
            new.order.items) }
        ensures path { IfOk result (λ new. length new.path.items ≡ 0) }
    {
        let (next, before) = chains_of(alloc, count, arcs)?;
        let marks = vec![in alloc; Mark::Unmet; count]?;
        Ok(Search {
            marks,
            next,
            before,
            path: Vec::new(alloc),
            order: Vec::new(alloc),
        })
    }

    /// Puts a number that isn't met at the end of the path.
    fn open(&mut self, arcs: &[Arc], number: usize) -> Result<(), NoMemory>
        requires search { IsSearch arcs.now self.old.before.items self.old.next.items self.old.marks.items self.old.path.items
            self.old.order.items }
        requires within { number < length self.old.marks.items }
        requires unmet { mark self.old.marks.items number ≡ Unmet }
        requires joins { (i : ℕ) → i + 1 ≡ length self.old.path.items → HasArc arcs.now (number_in_place self.old.path.items i) number }
        ensures size { OnOk result (length self.new.marks.items ≡ length self.old.marks.items) }
        ensures search { OnOk result (IsSearch arcs.now self.new.before.items self.new.next.items self.new.marks.items self.new.path.items
            self.new.order.items) }
        ensures met { OnOk result (AreMet self.old.marks.items self.new.marks.items) }
        ensures here { OnOk result (IsMet self.new.marks.items number) }
        ensures work { OnOk result (work self.new.next.items self.new.marks.items < work self.old.next.items self.old.marks.items) }
    {
        self.marks[number] = Mark::OnPath(self.path.len());
        self.path.push(number)?;
        Ok(())
    }

    /// Takes a number without further arcs from the end of the path, and orders it.
    fn close(&mut self, arcs: &[Arc], number: usize) -> Result<(), NoMemory>
        requires search { IsSearch arcs.now self.old.before.items self.old.next.items self.old.marks.items self.old.path.items
            self.old.order.items }
        requires end { (i : ℕ) → i + 1 ≡ length self.old.path.items → number_in_place self.old.path.items i ≡ number }
        requires some { 0 < length self.old.path.items }
        requires over { arc_next self.old.next.items number ≡ None }
        ensures size { OnOk result (length self.new.marks.items ≡ length self.old.marks.items) }
        ensures search { OnOk result (IsSearch arcs.now self.new.before.items self.new.next.items self.new.marks.items self.new.path.items
            self.new.order.items) }
        ensures met { OnOk result (AreMet self.old.marks.items self.new.marks.items) }
        ensures work { OnOk result (work self.new.next.items self.new.marks.items < work self.old.next.items self.old.marks.items) }
    {
        self.path.pop();
        self.marks[number] = Mark::Done(self.order.len());
        self.order.push(number)?;
        Ok(())
    }

    /// One step from the end of the path: along an arc, past an arc or back. The place on the path to which the arc leads, if it closes a cycle.
    fn step(&mut self, arcs: &[Arc]) -> Result<Option<usize>, NoMemory>
        requires arcs { length arcs.now < 2 ^ 32 }
        requires numbered { AreNumbered (length self.old.marks.items) arcs.now }
        requires search { IsSearch arcs.now self.old.before.items self.old.next.items self.old.marks.items self.old.path.items
            self.old.order.items }
        requires some { 0 < length self.old.path.items }
        ensures size { OnOk result (length self.new.marks.items ≡ length self.old.marks.items) }
        ensures search { OnOk result (IsSearch arcs.now self.new.before.items self.new.next.items self.new.marks.items self.new.path.items
            self.new.order.items) }
        ensures met { OnOk result (AreMet self.old.marks.items self.new.marks.items) }
        ensures back { IfOk result (λ found. IsBack arcs.now self.new.path.items found) }
        ensures work { IfOk result (λ found. found ≡ None → work self.new.next.items self.new.marks.items < work self.old.next.items
            self.old.marks.items) }
    {
        let number = self.path[self.path.len() - 1];
        match self.next[number] {
            None => self.close(arcs, number)?,
            Some(s) => {
                let to = arcs[s].to;
                match self.marks[to] {
                    Mark::Unmet => self.open(arcs, to)?,
                    Mark::OnPath(start) => return Ok(Some(start)),
                    Mark::Done(_) => self.next[number] = self.before[s],
                }
            }
        }
        Ok(None)
    }

    /// Orders all to which arcs lead from a number, and the number. Where a cycle is met, its start on the path, which ends with its end.
    pub fn visit(&mut self, arcs: &[Arc], root: usize) -> Result<Option<usize>, NoMemory>
        requires arcs { length arcs.now < 2 ^ 32 }
        requires numbered { AreNumbered (length self.old.marks.items) arcs.now }
        requires search { IsSearch arcs.now self.old.before.items self.old.next.items self.old.marks.items self.old.path.items
            self.old.order.items }
        requires path { length self.old.path.items ≡ 0 }
        requires within { root < length self.old.marks.items }
        ensures size { OnOk result (length self.new.marks.items ≡ length self.old.marks.items) }
        ensures search { OnOk result (IsSearch arcs.now self.new.before.items self.new.next.items self.new.marks.items self.new.path.items
            self.new.order.items) }
        ensures met { OnOk result (AreMet self.old.marks.items self.new.marks.items) }
        ensures here { OnOk result (IsMet self.new.marks.items root) }
        ensures back { IfOk result (λ found. IsBack arcs.now self.new.path.items found) }
        ensures path { IfOk result (λ found. found ≡ None → length self.new.path.items ≡ 0) }
    {
        if let Mark::Unmet = self.marks[root] {
            self.open(arcs, root)?;
        }
        while !self.path.is_empty() {
            if let Some(start) = self.step(arcs)? {
                return Ok(Some(start));
            }
        }
        Ok(None)
    }
}
