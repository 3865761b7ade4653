//! Tables of values and of stack words.

use crate::states::Facts;
use scale_base::NoMemory;
use stack_tables::StackTable;
use std::alloc::Global;
use value_checks::ValueTable;
use wrapped_intervals::Arc;

/// How many nodes there are between those at which memory is given back.
const BLOCK: usize = 4096;

/// Intervals of the registers, by register.
pub type Row = [Option<Arc>; 32];

/// What is proposed of a program: intervals of its registers, and what is known of the words of its stack.
#[derive(Drop)]
pub struct Tables {
    pub values: ValueTable,
    pub stack: StackTable,
}

impl Tables {
    /// Tables of no node and of no function.
    pub fn none(alloc: Global) -> Tables {
        Tables {
            values: ValueTable {
                live: Vec::new(alloc),
                rows: Vec::new(alloc),
                exits: Vec::new(alloc),
                forms: Vec::new(alloc),
                lines: Vec::new(alloc),
            },
            stack: StackTable {
                names: Vec::new(alloc),
                spans: Vec::new(alloc),
                words: Vec::new(alloc),
                begins: Vec::new(alloc),
                restored: Vec::new(alloc),
                place: None,
                spared: Vec::new(alloc),
                cells: Vec::new(alloc),
                told: Vec::new(alloc),
                dwindling: Vec::new(alloc),
                areas: Vec::new(alloc),
                fixed: Vec::new(alloc),
                doubtful: Vec::new(alloc),
                kept: Vec::new(alloc),
            },
        }
    }

    // Adds what is known at the next node.
    fn add_node(&mut self, facts: Facts) -> Result<(), NoMemory> {
        let Facts {
            row,
            names,
            spans,
            words,
            lines,
            told,
            dwindling,
        } = facts;
        self.values.rows.push(row)?;
        self.values.lines.push(lines)?;
        self.stack.names.push(names)?;
        self.stack.spans.push(spans)?;
        self.stack.words.push(words)?;
        self.stack.told.push(told)?;
        self.stack.dwindling.push(dwindling)?;
        Ok(())
    }

    /// Adds what is known at nodes, the first ones where nothing is known yet, and gives the memory of that back on the way.
    pub fn add_nodes(&mut self, nodes: Vec<Facts>) -> Result<(), NoMemory> {
        let mut nodes = nodes;
        for _ in 0..nodes.len() {
            let Some(facts) = nodes.pop() else {
                break;
            };
            self.add_node(facts)?;
            if nodes.len() % BLOCK == 0 {
                nodes.shrink_to_fit();
            }
        }
        self.turn_round();
        Ok(())
    }

    // Puts the nodes the other way round: the last ones were added first.
    fn turn_round(&mut self) {
        self.values.rows.reverse();
        self.values.lines.reverse();
        self.stack.names.reverse();
        self.stack.spans.reverse();
        self.stack.words.reverse();
        self.stack.told.reverse();
        self.stack.dwindling.reverse();
    }

    /// Adds what is known of the next function: at its returns, of x2 when it begins, which registers it gives back, and which of its words are kept.
    pub fn add_function(
        &mut self,
        exit: Row,
        begins: Option<Arc>,
        restored: [bool; 32],
        kept: [bool; 64],
    ) -> Result<(), NoMemory> {
        self.values.exits.push(exit)?;
        self.stack.begins.push(begins)?;
        self.stack.restored.push(restored)?;
        self.stack.kept.push(kept)?;
        Ok(())
    }
}
