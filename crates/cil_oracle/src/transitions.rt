//! One step of one thread.

use crate::effects::{Effect, Halt};
use crate::frames::Frame;
use crate::state::{OracleStep, State};
use crate::values::Value;
use cil_model::reports::{End, Report};

impl<'a> State<'a> {
    /// One step of a thread, in which a birth is refused or not.
    pub fn step(&mut self, thread: usize, is_refused: bool) -> Result<Report, Halt> {
        if !self.is_live(thread) {
            return Ok(Report::Absent);
        }
        let mut frame = self.take_frame(thread, is_refused)?;
        match self.execute(&mut frame) {
            Ok(effect) => {
                self.advance(frame, effect)?;
                Ok(self.report(Report::Ran))
            }
            Err(Halt::Blocks) => {
                self.put_frame(frame)?;
                Ok(self.report(Report::Blocked))
            }
            Err(Halt::Raises(fault)) => Ok(self.end(End::Fault(fault))),
            Err(halt) => Err(halt),
        }
    }

    /// Takes the running frame of a thread, and a step of its budget.
    fn take_frame(&mut self, thread: usize, is_refused: bool) -> Result<Frame<'a>, Halt> {
        let Some(running) = self.threads.get_mut(thread) else {
            return Err(Halt::Sticks);
        };
        running.steps_left = running.steps_left.saturating_sub(1);
        let depth = running.frames.len();
        let frame = running.frames.pop();
        self.transition = OracleStep {
            thread,
            depth,
            is_refused,
        };
        frame.ok_or(Halt::Sticks)
    }

    /// Puts a frame above the others of the thread.
    fn put_frame(&mut self, frame: Frame<'a>) -> Result<(), Halt> {
        if let Some(running) = self.threads.get_mut(self.transition.thread) {
            running.frames.push(frame)?;
        }
        Ok(())
    }

    /// The thread continues, in this frame or in another one.
    fn advance(&mut self, mut frame: Frame<'a>, effect: Effect) -> Result<(), Halt> {
        frame.pc = match effect {
            Effect::Jump(pc) => pc,
            _ => frame.pc.saturating_add(1),
        };
        match effect {
            Effect::Next | Effect::Jump(_) => self.put_frame(frame),
            Effect::Call => {
                self.put_frame(frame)?;
                self.enter_callee()
            }
            Effect::Return(None) => Ok(()),
            Effect::Return(Some(value)) => self.give_back(value),
        }
    }

    /// Puts the frame of the method that is called above the others of the thread.
    fn enter_callee(&mut self) -> Result<(), Halt> {
        match self.callee.take() {
            None => Err(Halt::Sticks),
            Some(callee) => self.put_frame(callee),
        }
    }

    /// Puts a value onto the stack of the caller, where there is one (ECMA-335 III.3.57).
    fn give_back(&mut self, value: Value) -> Result<(), Halt> {
        if let Some(running) = self.threads.get_mut(self.transition.thread) {
            if let Some(caller) = running.frames.last_mut() {
                caller.stack.push(value)?;
            }
        }
        Ok(())
    }

    /// The report of a step, unless the thread ends with it: without a frame it is done, and without a step left it has used
    /// its budget up.
    fn report(&mut self, report: Report) -> Report {
        match self.threads.get(self.transition.thread) {
            Some(running) if running.frames.is_empty() => self.end(End::Done),
            Some(running) if running.steps_left == 0 => self.end(End::Budget),
            _ => report,
        }
    }

    /// Ends the thread, which drops its frames; monitors that it holds stay held.
    fn end(&mut self, end: End) -> Report {
        if let Some(running) = self.threads.get_mut(self.transition.thread) {
            running.frames.clear();
            running.ended = Some(end);
        }
        Report::Ended(end)
    }
}
