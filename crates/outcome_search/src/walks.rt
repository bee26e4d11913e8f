//! Moves from state to state, by which the edges of states are found.

ghost use Rattle.exploration.specs.simulation.cil_model.Legality.{IsLegal};

use crate::nodes::Move;
use crate::states::{Edge, States};
use cil_model::events::Event;
use cil_model::limits::MOST_THREADS;
use cil_model::memory::NoMemory;
use cil_model::reports::{End, Report};
use exploration::{First, Replayer, is_ordinary};
use std::alloc::Global;

/// The maximum number of moves of a walk.
const MOST_MOVES: usize = 64;

/// Walks from a state: each replays the events that lead to it, and then makes moves.
#[derive(Clone, Copy)]
pub struct Walks {
    /// The state.
    pub start: u32,
    /// The thread that made the last move before it.
    pub last: u8,
    /// Once this number of states is reached, only the first move of a walk adds another one.
    pub most_states: usize,
}

/// The move of a thread that has made its first step, after which it and the newest thread run local instructions.
fn finish_move<M: First>(
    replayer: &mut Replayer<M>,
    alloc: Global,
    thread: u8,
) -> Result<Move, NoMemory>
    requires { IsLegal M.first.tree }
{
    let count = replayer.run_local(alloc, thread)?;
    let newest = replayer.started().saturating_sub(1) as u8;
    let more = replayer.run_local(alloc, newest)?;
    Ok(Move {
        thread,
        newest,
        count: count.saturating_add(1),
        more,
    })
}

/// Adds the edges of the state of the machine, as far as they are known before a step is made.
fn add_edges<M: First>(
    states: &mut States,
    state: u32,
    replayer: &Replayer<M>,
) -> Result<(), NoMemory> {
    let count = replayer.started();
    for thread in 0..count {
        states.add_edge(state, first_edge(replayer, thread as u8))?;
    }
    Ok(())
}

/// The edge of a thread, as far as it is known before a step is made.
fn first_edge<M: First>(replayer: &Replayer<M>, thread: u8) -> Edge {
    if replayer.can_step(thread) {
        Edge::Unknown
    } else if replayer.is_live(thread) {
        Edge::Blocked
    } else {
        Edge::Ended
    }
}

/// The edge of a thread whose step has a report that is not ordinary.
fn last_edge(report: Report) -> Edge {
    match report {
        Report::Ended(End::Budget) => Edge::OverBudget,
        _ => Edge::Refused,
    }
}

impl Walks {
    /// Finds all edges of the state, to which these events lead, and edges of other states.
    pub fn find_edges<M: First>(
        self,
        states: &mut States,
        replayer: &mut Replayer<M>,
        alloc: Global,
        events: &[Event],
    ) -> Result<(), NoMemory>
        requires { IsLegal M.first.tree }
    {
        for _thread in 0..MOST_THREADS {
            replayer.replay(alloc, events)?;
            self.walk(states, replayer, alloc)?;
            if states.is_expanded(self.start) {
                break;
            }
        }
        Ok(())
    }

    /// Makes moves from the state, which is that of the machine, as long as the edge of a move is not known: with the same thread, if it can. So one
    /// replay finds the edges of many states.
    fn walk<M: First>(
        self,
        states: &mut States,
        replayer: &mut Replayer<M>,
        alloc: Global,
    ) -> Result<(), NoMemory>
        requires { IsLegal M.first.tree }
    {
        let mut state = self.start;
        let mut last = self.last;
        for _move in 0..MOST_MOVES {
            if states.threads(state) == 0 {
                add_edges(states, state, replayer)?;
            }
            let Some(thread) = states.unknown_edge(state, last) else {
                break;
            };
            let Some(next) = self.make_move(states, replayer, alloc, state, thread)? else {
                break;
            };
            state = next;
            last = thread;
        }
        Ok(())
    }

    /// Makes a move of a thread from a state, which is that of the machine, stores its edge, and returns the next state. None if it leads out, or if there are
    /// states enough. The remaining steps of a later state of a walk are not those of its node: that a move leads out is found once such a state is visited.
    fn make_move<M: First>(
        self,
        states: &mut States,
        replayer: &mut Replayer<M>,
        alloc: Global,
        state: u32,
        thread: u8,
    ) -> Result<Option<u32>, NoMemory>
        requires { IsLegal M.first.tree }
    {
        let is_first = state == self.start;
        let report = replayer.step(alloc, thread)?;
        if !is_ordinary(report) {
            if is_first {
                states.set_edge(state, thread, last_edge(report));
            }
            return Ok(None);
        }
        let by = finish_move(replayer, alloc, thread)?;
        let next = self.state_of(states, replayer.digest(), is_first)?;
        if let Some(next) = next {
            states.set_edge(state, thread, Edge::To { next, by });
        }
        Ok(next)
    }

    /// The index of the state with a digest, which is added if there is none. None if there are states enough, unless it is for the first move of a walk.
    fn state_of(
        self,
        states: &mut States,
        digest: u64,
        is_first: bool,
    ) -> Result<Option<u32>, NoMemory> {
        if let Some(index) = states.find(digest) {
            return Ok(Some(index));
        }
        if !is_first && states.count() >= self.most_states {
            return Ok(None);
        }
        Ok(Some(states.add(digest)?))
    }
}
