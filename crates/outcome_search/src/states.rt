//! The states of a search, by the digest of each.

use crate::nodes::{Move, Nodes, next_index};
use cil_model::limits::MOST_THREADS;
use cil_model::memory::NoMemory;
use exploration::{Path, PathStep};
use std::alloc::Global;
use std::collections::HashMap;

/// What is known of the step of a thread from a state.
#[derive(Clone, Copy)]
pub enum Edge {
    /// The thread can make a step, and the search has not made it yet.
    Unknown,
    /// The thread has ended.
    Ended,
    /// The next step of the thread is blocked.
    Blocked,
    /// The thread uses up its budget by this step.
    OverBudget,
    /// The thread is refused memory for an object at this step.
    Refused,
    /// The step and local instructions lead to another state.
    To { next: u32, by: Move },
}

/// A state: the first node that was visited with it, the index of its first edge, the number of its threads, which is 0 until it has edges, and the threads after
/// whose moves it was visited. It is found once it is the initial state or an edge of a visited state leads to it.
#[derive(Clone, Copy)]
struct State {
    node: Option<u32>,
    first_edge: u32,
    threads: u8,
    is_found: bool,
    visited: [bool; MOST_THREADS],
}

/// All states with their edges, and the index of the state with each digest.
pub struct States {
    all: Vec<State>,
    found: usize,
    edges: Vec<Edge>,
    indices: HashMap<u64, u32>,
}

/// Each part is dropped.
impl Drop for States {
    fn drop(self) {
        let States {
            all: _all,
            found: _,
            edges: _edges,
            indices: _indices,
        } = self;
    }
}

impl States {
    /// No states.
    pub fn new(alloc: Global) -> States {
        States {
            all: Vec::new(alloc),
            found: 0,
            edges: Vec::new(alloc),
            indices: HashMap::new(alloc),
        }
    }

    /// The number of states that are found.
    pub fn found_count(&self) -> usize {
        self.found
    }

    /// The number of states, found or not.
    pub fn count(&self) -> usize {
        self.all.len()
    }

    /// The index of the state with a digest. None if there is none.
    pub fn find(&self, digest: u64) -> Option<u32> {
        self.indices.get(&digest).copied()
    }

    /// Adds a state with a digest that no other state has, and returns its index.
    pub fn add(&mut self, digest: u64) -> Result<u32, NoMemory> {
        let index = next_index(self.all.len())?;
        self.all.push(State {
            node: None,
            first_edge: 0,
            threads: 0,
            is_found: false,
            visited: [false; MOST_THREADS],
        })?;
        if self.indices.insert(digest, index).is_err() {
            return Err(NoMemory);
        }
        Ok(index)
    }

    /// Marks a state as found. Returns false, and changes nothing, if it is not found yet and `most` states are.
    pub fn mark_found(&mut self, index: u32, most: usize) -> bool {
        let Some(state) = self.all.get_mut(index as usize) else {
            return true;
        };
        if state.is_found {
            return true;
        }
        if self.found >= most {
            return false;
        }
        state.is_found = true;
        self.found = self.found.saturating_add(1);
        true
    }

    /// Marks a state as visited by a node after a move of a thread. Returns whether it was not visited before.
    pub fn visit(&mut self, index: u32, thread: u8, node: u32) -> bool {
        let Some(state) = self.all.get_mut(index as usize) else {
            return false;
        };
        if let Some(visited) = state.visited.get_mut(usize::from(thread)) {
            *visited = true;
        }
        let is_first = state.node.is_none();
        state.node = state.node.or(Some(node));
        is_first
    }

    /// Whether a state was visited after a move of a thread; true if there is no such state or thread.
    pub fn is_visited(&self, index: u32, thread: u8) -> bool {
        match self.all.get(index as usize) {
            Some(state) => state
                .visited
                .get(usize::from(thread))
                .copied()
                .unwrap_or(true),
            None => true,
        }
    }

    /// The number of threads of a state with edges; 0 for any other.
    pub fn threads(&self, index: u32) -> u8 {
        match self.all.get(index as usize) {
            Some(state) => state.threads,
            None => 0,
        }
    }

    /// Adds the edge of the next thread from a state, of which no other state gets edges in between.
    pub fn add_edge(&mut self, index: u32, edge: Edge) -> Result<(), NoMemory> {
        let next = next_index(self.edges.len())?;
        self.edges.push(edge)?;
        if let Some(state) = self.all.get_mut(index as usize) {
            if state.threads == 0 {
                state.first_edge = next;
            }
            state.threads = state.threads.saturating_add(1);
        }
        Ok(())
    }

    /// The index of the edge of a thread from a state among all edges. None if the state has no edges, or there is no such thread.
    fn edge_index(&self, index: u32, thread: u8) -> Option<usize> {
        let state = self.all.get(index as usize)?;
        if thread >= state.threads {
            return None;
        }
        Some((state.first_edge as usize).saturating_add(usize::from(thread)))
    }

    /// The edge of a thread from a state. None if the state has no edges, or there is no such thread.
    pub fn edge(&self, index: u32, thread: u8) -> Option<Edge> {
        self.edges.get(self.edge_index(index, thread)?).copied()
    }

    /// Replaces the edge of a thread from a state.
    pub fn set_edge(&mut self, index: u32, thread: u8, edge: Edge) {
        let Some(index) = self.edge_index(index, thread) else {
            return;
        };
        if let Some(old) = self.edges.get_mut(index) {
            *old = edge;
        }
    }

    /// Whether the edge of a thread from a state is not known.
    fn is_unknown(&self, index: u32, thread: u8) -> bool {
        match self.edge(index, thread) {
            Some(Edge::Unknown) => true,
            _ => false,
        }
    }

    /// A thread whose edge from a state is not known: this one, or else the first one. None if all edges are known.
    pub fn unknown_edge(&self, index: u32, thread: u8) -> Option<u8> {
        if self.is_unknown(index, thread) {
            return Some(thread);
        }
        for other in 0..self.threads(index) {
            if self.is_unknown(index, other) {
                return Some(other);
            }
        }
        None
    }

    /// Whether a state has edges, and all of them are known.
    pub fn is_expanded(&self, index: u32) -> bool {
        self.threads(index) > 0 && self.unknown_edge(index, 0).is_none()
    }

    /// Whether no thread can make a step from a state with edges.
    pub fn is_terminal(&self, index: u32) -> bool {
        for thread in 0..self.threads(index) {
            match self.edge(index, thread) {
                Some(Edge::Ended) | Some(Edge::Blocked) | None => {}
                _ => return false,
            }
        }
        true
    }

    /// The path of each state, by its index; it has no events if the state was not visited.
    pub fn paths(&self, alloc: Global, nodes: &Nodes) -> Result<Vec<Path>, NoMemory> {
        let mut paths = Vec::with_capacity(alloc, self.all.len())?;
        self.add_paths(alloc, nodes, &mut paths)?;
        self.add_all_incoming(&mut paths)?;
        Ok(paths)
    }

    /// Adds the path of each state, without steps that lead to it.
    fn add_paths(
        &self,
        alloc: Global,
        nodes: &Nodes,
        paths: &mut Vec<Path>,
    ) -> Result<(), NoMemory> {
        for state in &self.all {
            let path = path_to(alloc, nodes, state.node)?;
            paths.push(path)?;
        }
        Ok(())
    }

    /// Adds each step from each state to the path of the state to which it leads.
    fn add_all_incoming(&self, paths: &mut [Path]) -> Result<(), NoMemory> {
        for index in 0..next_index(self.all.len())? {
            self.add_incoming(paths, index)?;
        }
        Ok(())
    }

    /// Adds each step from a state to the path of the state to which it leads.
    fn add_incoming(&self, paths: &mut [Path], index: u32) -> Result<(), NoMemory> {
        for thread in 0..self.threads(index) {
            let next = match self.edge(index, thread) {
                Some(Edge::To { next, .. }) => next,
                Some(Edge::Blocked) => index,
                _ => continue,
            };
            if let Some(path) = paths.get_mut(next as usize) {
                path.incoming.push(PathStep {
                    path: index,
                    thread,
                })?;
            }
        }
        Ok(())
    }
}

/// The path by the schedule of a node, without steps that lead to it; one without events if there is no node.
fn path_to(alloc: Global, nodes: &Nodes, node: Option<u32>) -> Result<Path, NoMemory> {
    let events = match node {
        Some(node) => nodes.schedule(alloc, node)?,
        None => Vec::new(alloc),
    };
    Ok(Path {
        events,
        incoming: Vec::new(alloc),
    })
}
