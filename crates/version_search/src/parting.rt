//! Parts of the code that turn and are entered at several nodes: which of these stays one, and which nodes are copied for each other one.

use crate::code::Code;
use crate::functions::Functions;
use scale_base::{Instr, NoMemory};
use std::alloc::Global;
use std::collections::BTreeMap;

/// As many entries a part may have, and all parts together.
const MOST_ENTRIES: usize = 16;

const MOST_ENTRIES_OF_ALL: usize = 64;

/// By node the last edge that leads to it, and by edge the one before it that leads to the same node.
#[derive(Drop)]
struct Arrivals {
    last: Vec<Option<usize>>,
    before: Vec<Option<usize>>,
}

/// A search in the nodes: by node, in which search it was last reached; the nodes that were reached in this one, and such whose edges aren't followed yet.
#[derive(Drop)]
struct Reach {
    number: usize,
    seen: Vec<usize>,
    reached: Vec<usize>,
    waiting: Vec<usize>,
}

/// An entry of a part that isn't to stay one, and the nodes that are copied for it, ascending.
#[derive(Drop)]
pub struct Lead {
    pub node: usize,
    pub nodes: Vec<usize>,
}

/// How a part is split: the words outside of it from which its other entries are reached, ascending, these entries, and about how many pieces the copies have.
#[derive(Drop)]
pub struct Choice {
    pub words: Vec<usize>,
    pub leads: Vec<Lead>,
    pub size: usize,
}

/// What is searched. By node, the number of its part, from 1 on, or 0.
#[derive(Drop)]
struct Parting<'a> {
    code: &'a Code<'a>,
    functions: &'a Functions,
    parts: Vec<usize>,
    arrivals: Arrivals,
    reach: Reach,
}

impl Arrivals {
    fn of(alloc: Global, code: &Code<'_>) -> Result<Arrivals, NoMemory> {
        let mut arrivals = Arrivals {
            last: vec![in alloc; None; code.node_count()]?,
            before: vec![in alloc; None; code.edge_count()]?,
        };
        for e in 0..code.edge_count() {
            if let Some((_, to)) = code.edge_ends(e) {
                arrivals.add(e, to);
            }
        }
        Ok(arrivals)
    }

    fn add(&mut self, e: usize, to: usize) {
        if e < self.before.len() && to < self.last.len() {
            self.before[e] = self.last[to];
            self.last[to] = Some(e);
        }
    }

    // The nodes from which edges lead to a node.
    fn sources(&self, alloc: Global, code: &Code<'_>, k: usize) -> Result<Vec<usize>, NoMemory> {
        let mut sources = Vec::new(alloc);
        let mut next = self.last.get(k).copied().flatten();
        for _ in 0..code.edge_count() {
            let Some(e) = next else {
                break;
            };
            if let Some((from, _)) = code.edge_ends(e) {
                sources.push(from)?;
            }
            next = self.before.get(e).copied().flatten();
        }
        Ok(sources)
    }
}

impl Reach {
    fn new(alloc: Global, count: usize) -> Result<Reach, NoMemory> {
        Ok(Reach {
            number: 0,
            seen: vec![in alloc; 0; count]?,
            reached: Vec::new(alloc),
            waiting: Vec::new(alloc),
        })
    }

    // Begins another search.
    fn begin(&mut self) {
        self.number = self.number.saturating_add(1);
        self.reached.clear();
        self.waiting.clear();
    }

    fn reach(&mut self, k: usize) -> Result<(), NoMemory> {
        if k < self.seen.len() && self.seen[k] != self.number {
            self.seen[k] = self.number;
            self.reached.push(k)?;
            self.waiting.push(k)?;
        }
        Ok(())
    }
}

// Whether what a word does can be done in front of a copy that it leads to.
fn is_moved(instr: Instr) -> bool {
    matches!(
        instr,
        Instr::Branch { .. }
            | Instr::Jal { rd: 0, .. }
            | Instr::Lui { .. }
            | Instr::Load { .. }
            | Instr::Store { .. }
            | Instr::Imm { .. }
            | Instr::Reg { .. }
            | Instr::Fence { .. }
    )
}

fn put(items: &mut [usize], k: usize, item: usize) {
    if k < items.len() {
        items[k] = item;
    }
}

fn is_marked(marks: &[bool], k: usize) -> bool {
    marks.get(k) == Some(&true)
}

// By node, whether it is one of those at some addresses.
fn marked(alloc: Global, code: &Code<'_>, addresses: &[u32]) -> Result<Vec<bool>, NoMemory> {
    let mut marks = vec![in alloc; false; code.node_count()]?;
    for at in addresses {
        if let Some(k) = code.find(*at) {
            if k < marks.len() {
                marks[k] = true;
            }
        }
    }
    Ok(marks)
}

// The nodes at some addresses.
fn nodes_at(alloc: Global, code: &Code<'_>, addresses: &[u32]) -> Result<Vec<usize>, NoMemory> {
    let mut nodes = Vec::new(alloc);
    for at in addresses {
        if let Some(k) = code.find(*at) {
            nodes.push(k)?;
        }
    }
    Ok(nodes)
}

impl<'a> Parting<'a> {
    fn new(
        alloc: Global,
        code: &'a Code<'a>,
        functions: &'a Functions,
    ) -> Result<Parting<'a>, NoMemory> {
        Ok(Parting {
            code,
            functions,
            parts: vec![in alloc; 0; code.node_count()]?,
            arrivals: Arrivals::of(alloc, code)?,
            reach: Reach::new(alloc, code.node_count())?,
        })
    }

    fn part(&self, k: usize) -> usize {
        self.parts.get(k).copied().unwrap_or(0)
    }

    // Searches on from a node, by edges that don't lead to headers.
    fn search_on(&mut self, headers: &[bool], from: usize) -> Result<(), NoMemory> {
        self.reach.begin();
        self.reach.reach(from)?;
        for _ in 0..self.code.node_count() {
            let Some(k) = self.reach.waiting.pop() else {
                break;
            };
            for next in self.code.next_nodes(k) {
                if let Some(next) = next {
                    if !is_marked(headers, next) {
                        self.reach.reach(next)?;
                    }
                }
            }
        }
        Ok(())
    }

    // Searches back from a node, in those that a search on from it reached. These get a number of a part.
    fn search_back(
        &mut self,
        alloc: Global,
        number: usize,
        inside: &[bool],
        from: usize,
    ) -> Result<(), NoMemory> {
        self.reach.begin();
        self.reach.reach(from)?;
        for _ in 0..self.code.node_count() {
            let Some(k) = self.reach.waiting.pop() else {
                break;
            };
            put(&mut self.parts, k, number);
            for before in &self.arrivals.sources(alloc, self.code, k)? {
                if is_marked(inside, *before) {
                    self.reach.reach(*before)?;
                }
            }
        }
        Ok(())
    }

    // Finds the nodes of a part: those on ways from an entry of it back to it.
    fn find_part(
        &mut self,
        alloc: Global,
        headers: &[bool],
        number: usize,
        from: usize,
    ) -> Result<(), NoMemory> {
        self.search_on(headers, from)?;
        let mut inside = vec![in alloc; false; self.code.node_count()]?;
        for k in &self.reach.reached {
            if *k < inside.len() {
                inside[*k] = true;
            }
        }
        self.search_back(alloc, number, &inside, from)
    }

    // The words outside a part that lead to an entry of it.
    fn words_to(&self, alloc: Global, number: usize, entry: usize) -> Result<Vec<usize>, NoMemory> {
        let mut words = self.arrivals.sources(alloc, self.code, entry)?;
        words.retain(|k| self.part(*k) != number);
        Ok(words)
    }

    // Whether all ways from outside a part to an entry of it can be led elsewhere.
    fn is_free(&self, alloc: Global, number: usize, entry: usize) -> Result<bool, NoMemory> {
        if self.code.is_begin(entry) {
            return Ok(false);
        }
        let words = self.words_to(alloc, number, entry)?;
        Ok(words.iter().all(|k| is_moved(self.code.instr(*k))))
    }

    // The nodes that are reached within a part from an entry of it without passing another, ascending; none where one can't be copied.
    fn copied_from(
        &mut self,
        alloc: Global,
        header: usize,
        entry: usize,
    ) -> Result<Option<(Vec<usize>, usize)>, NoMemory> {
        let number = self.part(entry);
        self.reach.begin();
        self.reach.reach(entry)?;
        for _ in 0..self.code.node_count() {
            let Some(k) = self.reach.waiting.pop() else {
                break;
            };
            for next in self.code.next_nodes(k) {
                if let Some(next) = next {
                    if next != header && self.part(next) == number {
                        self.reach.reach(next)?;
                    }
                }
            }
        }
        let mut nodes = self.reach.reached.to_vec(alloc)?;
        nodes.sort()?;
        match self.functions.size_of(self.code, &nodes) {
            Some(size) => Ok(Some((nodes, size))),
            None => Ok(None),
        }
    }

    // The copies for all entries of a part but one; none where a word can't be copied, or an entry can't be led elsewhere.
    fn choice_of(
        &mut self,
        alloc: Global,
        entries: &[usize],
        free: &[bool],
        header: usize,
    ) -> Result<Option<Choice>, NoMemory> {
        let mut choice = Choice {
            words: Vec::new(alloc),
            leads: Vec::new(alloc),
            size: 0,
        };
        for (i, entry) in entries.iter().enumerate() {
            if *entry != header {
                if !is_marked(free, i) {
                    return Ok(None);
                }
                let Some((nodes, size)) = self.copied_from(alloc, header, *entry)? else {
                    return Ok(None);
                };
                choice.size = choice.size.saturating_add(size);
                choice.leads.push(Lead {
                    node: *entry,
                    nodes,
                })?;
            }
        }
        Ok(Some(choice))
    }

    // Adds the words from which the entries are reached, each once.
    fn add_words(&self, alloc: Global, number: usize, choice: &mut Choice) -> Result<(), NoMemory> {
        let mut words = BTreeMap::new(alloc);
        for lead in &choice.leads {
            for word in &self.words_to(alloc, number, lead.node)? {
                words.insert(*word, ())?;
            }
        }
        for (word, _) in &words {
            choice.words.push(*word)?;
        }
        Ok(())
    }

    // The smallest choice for a part.
    fn least_choice(
        &mut self,
        alloc: Global,
        number: usize,
        entries: &[usize],
    ) -> Result<Option<Choice>, NoMemory> {
        let mut free = Vec::new(alloc);
        for entry in entries {
            free.push(self.is_free(alloc, number, *entry)?)?;
        }
        let mut least = None;
        let mut size = usize::MAX;
        for header in entries {
            if let Some(choice) = self.choice_of(alloc, entries, &free, *header)? {
                if choice.size < size {
                    size = choice.size;
                    least = Some(choice);
                }
            }
        }
        if let Some(choice) = &mut least {
            self.add_words(alloc, number, choice)?;
        }
        Ok(least)
    }
}

// Whether all entries of a part, by the first of which it was found, are of it.
fn are_of_part(parting: &Parting<'_>, number: usize, entries: &[usize]) -> bool {
    entries.iter().all(|k| parting.part(*k) == number)
}

/// How each of some parts is split, by the addresses of its entries and those of the headers of all loops. Parts that can't be split are left out.
pub fn choices_of(
    alloc: Global,
    code: &Code<'_>,
    functions: &Functions,
    headers: &[u32],
    parts: &[Vec<u32>],
) -> Result<Vec<Choice>, NoMemory> {
    let headers = marked(alloc, code, headers)?;
    let mut parting = Parting::new(alloc, code, functions)?;
    let mut choices = Vec::new(alloc);
    let mut left = MOST_ENTRIES_OF_ALL;
    for (i, part) in parts.iter().enumerate() {
        let entries = nodes_at(alloc, code, part)?;
        if entries.len() > left || entries.len() > MOST_ENTRIES {
            continue;
        }
        left -= entries.len();
        let Some(first) = entries.first() else {
            continue;
        };
        let number = i.saturating_add(1);
        parting.find_part(alloc, &headers, number, *first)?;
        if !are_of_part(&parting, number, &entries) {
            continue;
        }
        if let Some(choice) = parting.least_choice(alloc, number, &entries)? {
            choices.push(choice)?;
        }
    }
    Ok(choices)
}
