//! Prefixes of stacks, each found by the prefix that it goes on from and its last step.

ghost use Rattle.std.specs.Prelude.{◌≡◌, ◌<◌, ◌≤◌, ◌++◌, ◌∷◌, [], false, take, length, is_some, slice_index_or, IfOk, IfSome, IfNone};
ghost use Rattle.std.specs.List.{list_all};
ghost use Rattle.reports.specs.Prefixes.{prefixes, distinct, has, room};
ghost use Rattle.prefix_table.specs.Edges.{IsBelow, made_by};

use ctx_set::StackStep;
use std::alloc::{AllocError, Global};
use std::collections::HashMap;
use std::marker::Model;

// So many different prefixes there is room for.
const ROOM: usize = 65536;

// What makes a prefix: the number of the prefix that it goes on from, none for the empty one, and its last step.
#[derive(Clone, Copy, PartialEq, Eq, Hash)]
pub(crate) struct Edge {
    pub(crate) parent: Option<u32>,
    pub(crate) step: StackStep,
}

/// The first 65,536 different prefixes of stacks that were entered, in their order, in memory that is taken once.
#[derive(Drop)]
pub struct PrefixTable {
    numbers: HashMap<Edge, u32>,
    edges: Vec<Edge>,
}

impl Model for PrefixTable {
    ghost use Rattle.std.specs.Prelude.{List, vec_capacity};
    ghost use Rattle.ctx_set.specs.declared.steps.StackStep.{StackStep};
    ghost use Rattle.prefix_table.specs.Edges.{stacks_of, IsTable};

    ghost Value = { List (List StackStep) };

    ghost view = { λ t. stacks_of t.edges.items };

    ghost invariant = { λ t. IsTable t.numbers t.edges.items (vec_capacity t.edges) };
}

impl PrefixTable {
    /// The table without prefixes, with the memory for all that there is room for.
    pub fn new(alloc: Global) -> Result<PrefixTable, AllocError>
        ensures { IfOk result (λ table. table ≡ []) }
    {
        let numbers = HashMap::with_capacity(alloc, ROOM)?;
        let edges = Vec::with_capacity(alloc, ROOM)?;
        Ok(PrefixTable { numbers, edges })
    }

    /// Enters all prefixes of a stack that has a step, the shortest first, where they are new and there is room, with one look-up a
    /// step. Gives the number of the stack, from 0 on in the order of the table, or none where there is no room for one of its prefixes.
    pub fn enter(&mut self, stack: &[StackStep]) -> Option<u32>
        requires { 0 < length stack.now }
        ensures held { self.new ≡ take room (distinct (self.old ++ prefixes stack.now)) }
        ensures number { IfSome result (λ number. (number < length self.new) × (slice_index_or self.new number [] ≡ stack.now)) }
        ensures room { is_some result ≡ list_all (has self.new) (prefixes stack.now) }
    {
        self.law_firsts();
        let mut parent = None;
        'each: for step in stack {
            parent = Some(self.enter_edge(Edge {
                parent,
                step: *step,
            })?);
        }
        parent
    }

    /// How many prefixes there are; no more than there is room for.
    pub fn len(&self) -> usize
        ensures count { result ≡ length self.now }
        ensures room { result ≤ room }
    {
        self.edges.len()
    }

    /// The steps of the prefix with this number, from the first on.
    pub fn steps(&self, alloc: Global, number: u32) -> Result<Vec<StackStep>, AllocError>
        requires { number < length self.now }
        ensures { IfOk result (λ steps. steps.items ≡ slice_index_or self.now number []) }
    {
        let mut steps = Vec::new(alloc);
        let mut rest = Some(number);
        'up: while let Some(reached) = rest {
            let edge = self.edges[reached as usize];
            steps.push(edge.step)?;
            rest = edge.parent;
        }
        steps.reverse();
        Ok(steps)
    }

    // The prefixes differ, and there are no more than there is room for.
    fn law_firsts(&self)
        ensures { take room (distinct self.now) ≡ self.now }
    {
        let _ = &self.edges;
    }

    // Enters the prefix that an edge makes, where it is new and there is room, and gives its number.
    fn enter_edge(&mut self, edge: Edge) -> Option<u32>
        requires { IsBelow edge.parent (length self.old) }
        ensures held { self.new ≡ take room (distinct (self.old ++ made_by self.old edge ∷ [])) }
        ensures number { IfSome result (λ number. (number < length self.new) × (slice_index_or self.new number [] ≡ made_by self.old edge)) }
        ensures none { IfNone result ((self.new ≡ self.old) × (has self.old (made_by self.old edge) ≡ false) × (room ≤ length self.old)) }
    {
        if let Some(number) = self.numbers.get(&edge) {
            return Some(*number);
        }
        let number = self.edges.len();
        if number == ROOM {
            return None;
        }
        match self.numbers.insert(edge, number as u32) {
            Ok(_) => {}
            Err(_) => unreachable!(),
        }
        match self.edges.push(edge) {
            Ok(()) => {}
            Err(_) => unreachable!(),
        }
        Some(number as u32)
    }
}
