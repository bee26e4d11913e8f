//! The top frame of a thread outside of its machine, and local instructions on it.

ghost use Rattle.std.specs.Prelude.{◌≡◌, ◌↔◌, ◌<◌, ◌≤◌, ◌-◌, ℕ, IfOk, IsTrue, Some, slice_get, true, false};
ghost use Rattle.threads_monitors.specs.Frames.{Frame, Frames, with_running};
ghost use Rattle.simulation.specs.interpreter.Local.{AreLocalSteps, IsNextLocal, IsReadySomewhere, single_frame, frames_over};
ghost use Rattle.threads_monitors.specs.Threads.{is_live, is_live_at};
ghost use Rattle.simulation.specs.LentFrames.{with_live};
ghost use Rattle.interleaving_core.specs.Views.{machine_state_of};
ghost use Rattle.simulation.specs.MachineStates.{frame_room};
ghost use Rattle.simulation.specs.Transitions.{live_thread};
ghost use Rattle.interleaving_core.specs.Loans.{Begins, CanContinueLocally, IsAlone, IsAtOrigin, IsLent, IsLocalRun, RanInPlace, RanLocally};

use crate::engine::Engine;
use crate::thread_starts::FRAME_ROOM;
use cil_model::memory::NoMemory;
use simulation::interpreter_code::loaded_code::LoadedProgram;
use simulation::interpreter_code::local_runs::{is_next_local, run_local};
use std::alloc::{AllocError, Global};
use std::marker::Model;
use threads_monitors::{FrameMemory, Thread, ThreadStatus};

/// A share of the program, and memory for two frames.
struct Rooms {
    program: LoadedProgram,
    origin: FrameMemory,
    frame: FrameMemory,
}

/// Each part is dropped.
impl Drop for Rooms {
    fn drop(self) {
        let Rooms {
            program: _program,
            origin: _origin,
            frame: _frame,
        } = self;
    }
}

/// Memory for a loan, and a share of the program. It is taken before the loan, so that to lend a frame takes none.
// It is behind a pointer, since it is moved at the beginning and at the end of each loan.
pub struct LoanRoom {
    rooms: Box<Rooms>,
}

/// It gives back its own.
impl Drop for LoanRoom {
    fn drop(self) {
        let LoanRoom { rooms: _rooms } = self;
    }
}

/// Contracts see the tree of the program.
impl Model for LoanRoom {
    ghost use Rattle.cil_model.specs.declared.trees.Tree.{Tree};
    ghost use Rattle.interleaving_core.specs.Loans.{IsAlone};

    ghost Value = { Tree };

    ghost view = { λ r. r.rooms.value.program };

    ghost invariant = { λ r. IsAlone r.rooms.value.origin × IsAlone r.rooms.value.frame };
}

/// A copy of the top frame of a thread, lent by its machine, with the frame that it was as it was lent. Local instructions are done on it
/// while its machine does other things. The thread stands where it stood until the machine takes the loan back.
pub struct Loan {
    rooms: Box<Rooms>,
    thread: u8,
    left: u32,
    done: u32,
}

/// Each part is dropped.
impl Drop for Loan {
    fn drop(self) {
        let Loan {
            rooms: _rooms,
            thread: _,
            left: _,
            done: _,
        } = self;
    }
}

impl Model for Loan {
    ghost use Rattle.interleaving_core.specs.Loans.{IsAlone, IsLent, Lent};

    ghost Value = { Lent };

    ghost view = { λ l. record { tree = l.rooms.value.program; thread = l.thread; left = l.left; origin = l.rooms.value.origin.running; frame = l.rooms.value.frame.running; done = l.done } };

    ghost invariant = { λ l. IsAlone l.rooms.value.origin × IsAlone l.rooms.value.frame × IsLent (record { tree = l.rooms.value.program; thread = l.thread; left = l.left; origin = l.rooms.value.origin.running; frame = l.rooms.value.frame.running; done = l.done }) };
}

/// Memory for one frame.
fn room_for_frame(alloc: Global) -> Result<FrameMemory, NoMemory>
    ensures { IfOk result IsAlone }
{
    FrameMemory::new(alloc, 1, FRAME_ROOM, 0, &[], &[])
}

impl LoanRoom {
    /// Memory for a loan of a frame of this program. The only error is out of memory.
    pub(crate) fn new(alloc: Global, program: LoadedProgram) -> Result<LoanRoom, NoMemory>
        ensures { IfOk result (λ room. room ≡ program) }
    {
        let origin = room_for_frame(alloc)?;
        let frame = room_for_frame(alloc)?;
        let rooms = Rooms {
            program,
            origin,
            frame,
        };
        Ok(LoanRoom {
            rooms: Box::new(alloc, rooms).map_err(AllocError::from)?,
        })
    }

    /// A loan of the frame that runs, of a thread that has the given number of steps left.
    pub(crate) fn fill(self, frames: &FrameMemory, thread: u8, left: u32) -> Loan
        requires room { frames.now.room ≡ frame_room }
        requires some { 0 < left }
        requires ready { CanContinueLocally self left frames.now.running }
        ensures { result ≡ record { tree = self; thread = thread; left = left; origin = frames.now.running; frame = frames.now.running; done = 0 } }
    {
        let LoanRoom { mut rooms } = self;
        rooms.origin.set_running(frames);
        rooms.frame.set_running(frames);
        Loan {
            rooms,
            thread,
            left,
            done: 0,
        }
    }
}

impl Loan {
    /// The number of the thread.
    pub fn thread(&self) -> u8
        ensures { result ≡ self.now.thread }
    {
        self.thread
    }

    /// How many local instructions were done.
    pub fn step_count(&self) -> u32
        ensures { result ≡ self.now.done }
    {
        self.done
    }

    /// What holds of a loan. It does nothing; its contract says so.
    pub fn laws(&self)
        ensures { IsLent self.now }
    {
        // For the prover alone: it brings in the laws of the loan.
        let _done = &self.done;
    }

    /// Does local instructions on the frame, at most the given number. It stops before one that is not local or that would raise a fault, and before
    /// the last one of the thread's budget. It takes no memory and no lock.
    pub fn run(&mut self, most: u32)
        ensures { RanLocally self.old most self.new }
    {
        let spare = self.left - 1 - self.done;
        let most = most.min(spare);
        let rooms = &mut *self.rooms;
        self.done += run_local(&rooms.program, &mut rooms.frame, most);
    }

    /// The memory of a loan that has ended.
    pub(crate) fn into_room(self) -> LoanRoom
        ensures { result ≡ self.tree }
    {
        let Loan {
            rooms,
            thread: _,
            left: _,
            done: _,
        } = self;
        LoanRoom { rooms }
    }

    /// Whether a thread stands as it did when the loan began: live, with the same number of steps left, and with the frame that was lent.
    pub(crate) fn is_origin_in(&self, thread: &Thread) -> bool
        requires room { (left : ℕ) (m : Frames) → thread.now ≡ live_thread left m → m.room ≡ frame_room }
        ensures yes { IsTrue result → (m : Frames) × (thread.now ≡ live_thread self.now.left m) × (m.running ≡ self.now.origin) }
        ensures no { (m : Frames) → thread.now ≡ live_thread self.now.left m → m.running ≡ self.now.origin → IsTrue result }
    {
        match &thread.thread_status {
            ThreadStatus::Live(frames) => {
                thread.steps_left == self.left && frames.runs_same(&self.rooms.origin)
            }
            ThreadStatus::Ended(_) => false,
        }
    }

    /// Brings a thread that stands as it did when the loan began to where the loan is, with one step less for each instruction that was done.
    pub(crate) fn give_back_to(&self, thread: &mut Thread)
        requires { (m : Frames) × (thread.old ≡ live_thread self.now.left m) × (m.room ≡ frame_room) }
        ensures { (m : Frames) → thread.old ≡ live_thread self.now.left m → thread.new ≡ live_thread (self.now.left - self.now.done) (with_running m self.now.frame) }
    {
        let ThreadStatus::Live(frames) = &mut thread.thread_status else {
            unreachable!()
        };
        frames.set_running(&self.rooms.frame);
        thread.steps_left -= self.done;
    }
}

/// Has a live thread do local instructions where it is, at most the given number, and returns how many it did. It stops as a loan does.
fn run_in_place(program: &LoadedProgram, thread: &mut Thread, most: u32) -> u32
    requires live { is_live thread.old ≡ true }
    requires ready { (left : ℕ) (m : Frames) → thread.old ≡ live_thread left m → (m.room ≡ frame_room) × (0 < left) × CanContinueLocally program.now left m.running }
    ensures { (left : ℕ) (m : Frames) → thread.old ≡ live_thread left m → (f : Frame) × IsLocalRun program.now left m.running most result f × (thread.new ≡ live_thread (left - result) (with_running m f)) }
{
    let ThreadStatus::Live(frames) = &mut thread.thread_status else {
        unreachable!()
    };
    let spare = thread.steps_left - 1;
    let count = run_local(program, frames, most.min(spare));
    thread.steps_left -= count;
    count
}

impl Engine {
    /// Whether the next instruction of a live thread is a local one; false for any other thread.
    pub(crate) fn is_next_local(&self, thread: u8) -> bool
        requires { (left : ℕ) (m : Frames) → slice_get self.now.threads.items thread ≡ Some (live_thread left m) → IsReadySomewhere self.now.program m.room m.running }
        ensures live { (left : ℕ) (m : Frames) → slice_get self.now.threads.items thread ≡ Some (live_thread left m) → IsNextLocal self.now.program m.room m.running result }
        ensures others { is_live_at self.now.threads.items thread ≡ false → result ≡ false }
    {
        match self.thread(thread) {
            Some(theirs) => match &theirs.thread_status {
                ThreadStatus::Live(frames) => is_next_local(&self.program, frames),
                ThreadStatus::Ended(_) => false,
            },
            None => false,
        }
    }

    /// A loan of the top frame of a live thread.
    pub(crate) fn lend(&self, thread: u8, room: LoanRoom) -> Loan
        requires live { is_live_at self.now.threads.items thread ≡ true }
        requires tree { room ≡ self.now.program }
        requires ready { (left : ℕ) (m : Frames) → slice_get self.now.threads.items thread ≡ Some (live_thread left m) → (m.room ≡ frame_room) × (0 < left) × CanContinueLocally self.now.program left m.running }
        ensures { Begins (machine_state_of self.now) thread result }
    {
        let Some(theirs) = self.thread(thread) else {
            unreachable!()
        };
        match &theirs.thread_status {
            ThreadStatus::Live(frames) => room.fill(frames, thread, theirs.steps_left),
            ThreadStatus::Ended(_) => unreachable!(),
        }
    }

    /// Whether the thread of a loan stands as it did when the loan began.
    pub(crate) fn is_at_origin(&self, loan: &Loan) -> bool
        requires room { (left : ℕ) (m : Frames) → slice_get self.now.threads.items loan.now.thread ≡ Some (live_thread left m) → m.room ≡ frame_room }
        ensures { IsTrue result ↔ IsAtOrigin (machine_state_of self.now) loan.now }
    {
        match self.thread(loan.thread()) {
            Some(thread) => loan.is_origin_in(thread),
            None => false,
        }
    }

    /// Has the thread of a loan, which stands as it did when the loan began, stand where the loan is.
    pub(crate) fn take_back(&mut self, loan: &Loan)
        requires { IsAtOrigin (machine_state_of self.old) loan.now }
        ensures { (at : IsAtOrigin (machine_state_of self.old) loan.now) → machine_state_of self.new ≡ with_live (machine_state_of self.old) loan.now.thread (loan.now.left - loan.now.done) (frames_over loan.now.frame at.below at.depth frame_room) }
    {
        let Some(thread) = self.threads.get_mut(usize::from(loan.thread())) else {
            unreachable!()
        };
        loan.give_back_to(thread);
    }

    /// Has a live thread do local instructions where it is, at most the given number, and returns how many it did.
    pub(crate) fn run_local(&mut self, thread: u8, most: u32) -> u32
        requires live { is_live_at self.old.threads.items thread ≡ true }
        requires ready { (left : ℕ) (m : Frames) → slice_get self.old.threads.items thread ≡ Some (live_thread left m) → (m.room ≡ frame_room) × (0 < left) × CanContinueLocally self.old.program left m.running }
        ensures { RanInPlace (machine_state_of self.old) thread most result (machine_state_of self.new) }
    {
        run_in_place(&self.program, &mut self.threads[usize::from(thread)], most)
    }
}
