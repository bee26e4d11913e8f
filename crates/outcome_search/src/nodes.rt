//! The nodes of a search, and their order.

use cil_model::events::Event;
use cil_model::limits::MOST_THREADS;
use cil_model::memory::NoMemory;
use std::alloc::Global;
use std::collections::BTreeMap;

/// Steps of one thread, followed by local instructions of the thread that was started last.
#[derive(Clone, Copy)]
pub struct Move {
    /// The thread that makes the steps.
    pub thread: u8,
    /// The thread that was started last, by these steps or earlier.
    pub newest: u8,
    /// The number of steps of `thread`.
    pub count: u32,
    /// The number of local instructions of `newest` after these steps.
    pub more: u32,
}

/// The end of a schedule, which leads to a state by one move after the schedule of another node.
#[derive(Clone, Copy)]
pub struct Node {
    /// The index of the state.
    pub state: u32,
    /// The index of the previous node; None for the first node.
    pub parent: Option<u32>,
    /// The number of preemptions of the schedule.
    pub preemptions: u32,
    /// The number of steps of the schedule.
    pub steps: u32,
    /// The last move.
    pub last: Move,
}

/// The position of a node in the order of the search: the number of preemptions of its schedule, then that of its steps. Nodes of the same rank are in the
/// order of discovery.
pub type Rank = (u32, u32);

/// A node that is not visited: the next one after another node, by a step of a thread.
#[derive(Clone, Copy)]
pub struct Candidate {
    /// The index of the previous node.
    pub parent: u32,
    /// The thread that makes the step.
    pub thread: u8,
}

/// All nodes that were visited, and a queue of those that are not, by rank and then by the order of discovery.
pub struct Nodes {
    all: Vec<Node>,
    queue: BTreeMap<(Rank, u64), Candidate>,
    pushed: u64,
}

/// Each part is dropped.
impl Drop for Nodes {
    fn drop(self) {
        let Nodes {
            all: _all,
            queue: _queue,
            pushed: _,
        } = self;
    }
}

/// The index of the next element of a list of this length. `NoMemory` if there is no such index.
pub fn next_index(length: usize) -> Result<u32, NoMemory> {
    match u32::try_from(length) {
        Ok(index) => Ok(index),
        Err(_) => Err(NoMemory),
    }
}

impl Nodes {
    /// No nodes.
    pub fn new(alloc: Global) -> Nodes {
        Nodes {
            all: Vec::new(alloc),
            queue: BTreeMap::new(alloc),
            pushed: 0,
        }
    }

    /// Adds a node that is visited, and returns its index.
    pub fn add(&mut self, node: Node) -> Result<u32, NoMemory> {
        let index = next_index(self.all.len())?;
        self.all.push(node)?;
        Ok(index)
    }

    /// Adds a candidate to the queue, after those of the same rank.
    pub fn push(&mut self, rank: Rank, candidate: Candidate) -> Result<(), NoMemory> {
        self.pushed = self.pushed.saturating_add(1);
        self.queue.insert((rank, self.pushed), candidate)?;
        Ok(())
    }

    /// Takes the first candidate from the queue, with its rank. None if the queue is empty.
    pub fn pop(&mut self) -> Option<(Rank, Candidate)> {
        let ((rank, _), candidate) = self.queue.pop_first()?;
        Some((rank, candidate))
    }

    /// The node at an index.
    pub fn get(&self, index: u32) -> Option<Node> {
        self.all.get(index as usize).copied()
    }

    /// The previous node of a node. None for the first node.
    fn parent(&self, node: Node) -> Option<Node> {
        self.get(node.parent?)
    }

    /// The number of steps of the schedule of a node; 0 if there is no such node.
    fn steps(&self, index: u32) -> usize {
        match self.get(index) {
            Some(node) => node.steps as usize,
            None => 0,
        }
    }

    /// The moves of the schedule of a node, in order.
    // Each move but the first one has a step at least.
    fn moves(&self, alloc: Global, index: u32) -> Result<Vec<Move>, NoMemory> {
        let mut moves = Vec::with_capacity(alloc, self.steps(index).saturating_add(1))?;
        let mut next = self.get(index);
        for _node in 0..self.all.len() {
            let Some(node) = next else {
                break;
            };
            moves.push(node.last)?;
            next = self.parent(node);
        }
        moves.reverse();
        Ok(moves)
    }

    /// The schedule of a node, whose events lead to its state. A new thread runs its first local instructions right before its first move, or at the end if it
    /// makes none, so that a change of threads is one of the search.
    pub fn schedule(&self, alloc: Global, index: u32) -> Result<Vec<Event>, NoMemory> {
        let moves = self.moves(alloc, index)?;
        let mut events = Vec::with_capacity(alloc, self.steps(index))?;
        push_moves(&mut events, &moves)?;
        Ok(events)
    }
}

/// Appends the events of the moves of a schedule.
fn push_moves(events: &mut Vec<Event>, moves: &[Move]) -> Result<(), NoMemory> {
    let mut pending = [0; MOST_THREADS];
    for step in moves {
        push_pending(events, &mut pending, step.thread)?;
        push_steps(events, step.thread, step.count)?;
        if let Some(count) = pending.get_mut(usize::from(step.newest)) {
            *count = step.more.max(*count);
        }
    }
    push_all_pending(events, &mut pending)
}

/// Appends the pending steps of each thread, of which none are pending afterwards.
fn push_all_pending(events: &mut Vec<Event>, pending: &mut [u32]) -> Result<(), NoMemory> {
    for thread in 0..MOST_THREADS {
        push_pending(events, pending, thread as u8)?;
    }
    Ok(())
}

/// Appends the pending steps of a thread, of which none are pending afterwards.
fn push_pending(events: &mut Vec<Event>, pending: &mut [u32], thread: u8) -> Result<(), NoMemory> {
    if let Some(count) = pending.get_mut(usize::from(thread)) {
        push_steps(events, thread, *count)?;
        *count = 0;
    }
    Ok(())
}

/// Appends `count` steps of a thread.
fn push_steps(events: &mut Vec<Event>, thread: u8, count: u32) -> Result<(), NoMemory> {
    for _step in 0..count {
        events.push(Event::Step(thread))?;
    }
    Ok(())
}
