//! The search for all outcomes of a program. It promises nothing about what it finds: `exploration` checks that.

ghost use Rattle.exploration.specs.simulation.cil_model.Legality.{IsLegal};

use crate::bounds::{Bounds, Goal, Stop};
use crate::nodes::{Candidate, Move, Node, Nodes, Rank};
use crate::states::{Edge, States};
use crate::walks::Walks;
use cil_model::memory::NoMemory;
use exploration::{FIRST_THREAD, First, FoundOutcome, Path, Replayer};
use std::alloc::Global;

/// What a search found: the number of states and the outcomes. `stop` is None if it visited all states; only then are there paths, one for each state.
#[derive(Drop)]
pub struct SearchResult {
    pub states: usize,
    pub paths: Vec<Path>,
    pub found: Vec<FoundOutcome>,
    pub stop: Option<Stop>,
}

/// A search in progress.
struct Searching {
    bounds: Bounds,
    states: States,
    nodes: Nodes,
    found: Vec<FoundOutcome>,
    stop: Option<Stop>,
}

/// Each part is dropped.
impl Drop for Searching {
    fn drop(self) {
        let Searching {
            bounds: _,
            states: _states,
            nodes: _nodes,
            found: _found,
            stop: _,
        } = self;
    }
}

/// Searches for all states of a program, by schedules with the fewest preemptions first, and of those with the fewest steps first. The machine is
/// left in any state. It fails only if memory runs out.
pub fn search<M: First>(
    replayer: &mut Replayer<M>,
    alloc: Global,
    bounds: Bounds,
) -> Result<SearchResult, NoMemory>
    requires { IsLegal M.first.tree }
{
    let mut searching = Searching::new(alloc, bounds);
    searching.start(replayer, alloc)?;
    searching.visit_all(replayer, alloc)?;
    let paths = searching.paths(alloc)?;
    Ok(searching.into_result(paths))
}

/// Whether an outcome is of this kind, given the first outcome.
fn is_of_kind(goal: Goal, found: &FoundOutcome, first: &FoundOutcome) -> bool {
    match goal {
        Goal::Fault => found.has_fault(),
        Goal::Deadlock => found.has_deadlock(),
        Goal::Output => !found.prints_same(first),
    }
}

/// The rank of the node after a node by a move, which may be a preemption.
fn rank_after(node: Node, by: Move, preempts: bool) -> Rank {
    let steps = node.steps.saturating_add(by.count).saturating_add(by.more);
    (node.preemptions.saturating_add(u32::from(preempts)), steps)
}

impl Searching {
    /// A search without states.
    fn new(alloc: Global, bounds: Bounds) -> Searching {
        Searching {
            bounds,
            states: States::new(alloc),
            nodes: Nodes::new(alloc),
            found: Vec::new(alloc),
            stop: None,
        }
    }

    /// Visits the first node, which is that of the initial state.
    fn start<M: First>(&mut self, replayer: &mut Replayer<M>, alloc: Global) -> Result<(), NoMemory>
        requires { IsLegal M.first.tree }
    {
        replayer.replay(alloc, &[])?;
        let count = replayer.run_local(alloc, FIRST_THREAD)?;
        let state = self.states.add(replayer.digest())?;
        self.states.mark_found(state, usize::MAX);
        let node = Node {
            state,
            parent: None,
            preemptions: 0,
            steps: count,
            last: Move {
                thread: FIRST_THREAD,
                newest: FIRST_THREAD,
                count,
                more: 0,
            },
        };
        self.visit(replayer, alloc, node)
    }

    /// Visits the nodes of the queue until the search is over.
    fn visit_all<M: First>(
        &mut self,
        replayer: &mut Replayer<M>,
        alloc: Global,
    ) -> Result<(), NoMemory>
        requires { IsLegal M.first.tree }
    {
        for _node in 0..u64::MAX {
            if self.is_over() {
                break;
            }
            let Some((rank, candidate)) = self.nodes.pop() else {
                break;
            };
            if let Some(node) = self.node_of(rank, candidate) {
                self.visit(replayer, alloc, node)?;
            }
        }
        Ok(())
    }

    /// The path of each state, by its index. None of them if the search stopped early, since the check needs all states.
    fn paths(&self, alloc: Global) -> Result<Vec<Path>, NoMemory> {
        if self.stop.is_some() {
            return Ok(Vec::new(alloc));
        }
        self.states.paths(alloc, &self.nodes)
    }

    /// What was found, with these paths.
    fn into_result(self, paths: Vec<Path>) -> SearchResult {
        let Searching {
            bounds: _,
            states,
            nodes: _nodes,
            found,
            stop,
        } = self;
        SearchResult {
            states: states.found_count(),
            paths,
            found,
            stop,
        }
    }

    /// Whether it stops here.
    fn is_over(&self) -> bool {
        match self.stop {
            None | Some(Stop::Preemptions) => false,
            Some(_) => true,
        }
    }

    /// The node of a candidate of a rank.
    fn node_of(&self, rank: Rank, candidate: Candidate) -> Option<Node> {
        let (preemptions, steps) = rank;
        let parent = self.nodes.get(candidate.parent)?;
        let (state, last) = self.move_from(parent.state, candidate.thread)?;
        Some(Node {
            state,
            parent: Some(candidate.parent),
            preemptions,
            steps,
            last,
        })
    }

    /// Visits a node, unless its state was visited after a move of the same thread before.
    fn visit<M: First>(
        &mut self,
        replayer: &mut Replayer<M>,
        alloc: Global,
        node: Node,
    ) -> Result<(), NoMemory>
        requires { IsLegal M.first.tree }
    {
        if self.states.is_visited(node.state, node.last.thread) {
            return Ok(());
        }
        let index = self.nodes.add(node)?;
        if self.states.visit(node.state, node.last.thread, index) {
            self.expand(replayer, alloc, node, index)?;
        }
        self.push_successors(node, index)
    }

    /// Finds the edges of a state that is visited for the first time, the states to which they lead, and its outcome if no thread can make a step.
    fn expand<M: First>(
        &mut self,
        replayer: &mut Replayer<M>,
        alloc: Global,
        node: Node,
        index: u32,
    ) -> Result<(), NoMemory>
        requires { IsLegal M.first.tree }
    {
        if !self.states.is_expanded(node.state) {
            self.find_edges(replayer, alloc, node, index)?;
        }
        if self.states.is_terminal(node.state) {
            self.find_outcome(replayer, alloc, node, index)?;
        }
        self.find_successors(node.state);
        Ok(())
    }

    /// Finds the edges of the state of a node.
    fn find_edges<M: First>(
        &mut self,
        replayer: &mut Replayer<M>,
        alloc: Global,
        node: Node,
        index: u32,
    ) -> Result<(), NoMemory>
        requires { IsLegal M.first.tree }
    {
        let events = self.nodes.schedule(alloc, index)?;
        let walks = Walks {
            start: node.state,
            last: node.last.thread,
            most_states: self.bounds.states,
        };
        walks.find_edges(&mut self.states, replayer, alloc, &events)
    }

    /// Brings the machine to the state of a node, and adds its outcome, unless it is known.
    fn find_outcome<M: First>(
        &mut self,
        replayer: &mut Replayer<M>,
        alloc: Global,
        node: Node,
        index: u32,
    ) -> Result<(), NoMemory>
        requires { IsLegal M.first.tree }
    {
        let events = self.nodes.schedule(alloc, index)?;
        replayer.replay(alloc, &events)?;
        if self.knows(replayer, alloc)? {
            return Ok(());
        }
        let found = replayer.outcome(alloc, events, node.preemptions as usize)?;
        self.add_outcome(found)
    }

    /// Marks the states to which the edges of a state lead as found. The search stops if there are too many, or if an edge leads out.
    fn find_successors(&mut self, state: u32) {
        for thread in 0..self.states.threads(state) {
            match self.states.edge(state, thread) {
                Some(Edge::To { next, .. }) => {
                    if !self.states.mark_found(next, self.bounds.states) {
                        self.stop = Some(Stop::States);
                    }
                }
                Some(Edge::OverBudget) => self.stop = Some(Stop::Budget(thread)),
                Some(Edge::Refused) => self.stop = Some(Stop::Refusal(thread)),
                _ => {}
            }
        }
    }

    /// Adds an outcome, at which the search may stop.
    fn add_outcome(&mut self, found: FoundOutcome) -> Result<(), NoMemory> {
        self.stop = self.stop_at(&found).or(self.stop);
        self.found.push(found)?;
        Ok(())
    }

    /// Whether the outcome of the machine's state is known.
    fn knows<M: First>(&self, replayer: &Replayer<M>, alloc: Global) -> Result<bool, NoMemory> {
        for found in &self.found {
            if replayer.shows(alloc, found)? {
                return Ok(true);
            }
        }
        Ok(false)
    }

    /// Why the search stops at an outcome that is found next. None if it does not.
    fn stop_at(&self, found: &FoundOutcome) -> Option<Stop> {
        let goal = self.bounds.until?;
        let first = self.found.first().unwrap_or(found);
        if is_of_kind(goal, found, first) {
            Some(Stop::Goal(goal))
        } else {
            None
        }
    }

    /// Adds the nodes after a node whose state is expanded, except those that would not be visited.
    fn push_successors(&mut self, node: Node, index: u32) -> Result<(), NoMemory> {
        let last = node.last.thread;
        let can_continue = self.move_from(node.state, last).is_some();
        for thread in 0..self.states.threads(node.state) {
            let Some((next, by)) = self.move_from(node.state, thread) else {
                continue;
            };
            let rank = rank_after(node, by, can_continue && thread != last);
            if self.is_beyond(rank) {
                self.stop = self.stop.or(Some(Stop::Preemptions));
            } else if !self.states.is_visited(next, thread) {
                let candidate = Candidate {
                    parent: index,
                    thread,
                };
                self.nodes.push(rank, candidate)?;
            }
        }
        Ok(())
    }

    /// The state to which a thread leads from a state, and the move. None if it can't make a step.
    fn move_from(&self, state: u32, thread: u8) -> Option<(u32, Move)> {
        match self.states.edge(state, thread)? {
            Edge::To { next, by } => Some((next, by)),
            _ => None,
        }
    }

    /// Whether a schedule of a rank has more preemptions than the bound.
    fn is_beyond(&self, rank: Rank) -> bool {
        let (preemptions, _) = rank;
        match self.bounds.preemptions {
            Some(most) => preemptions as usize > most,
            None => false,
        }
    }
}
