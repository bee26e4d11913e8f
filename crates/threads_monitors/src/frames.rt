//! The frames of a thread.

ghost use Rattle.std.specs.Prelude.{◌≡◌, ◌<◌, ◌≤◌, ◌+◌, ◌*◌, ◌^◌, ◌∷◌, ◌++◌, [], length, map, slice_get, None, Some, IfOk, ◌==◌, vec_len, vec_capacity};
ghost use Rattle.std.specs.Prelude.{◌-◌, ◌↔◌, All, IfSome, IsTrue, drop, option_map, take, true};
ghost use Rattle.threads_monitors.specs.Frames.{zero_value};
ghost use Rattle.threads_monitors.specs.Roots.{AnswersAt, IsAnswer, reference_in, with_reference};
ghost use Rattle.threads_monitors.specs.Activations.{moved_to, with_constructed};
ghost use Rattle.object_memory.specs.declared.addresses.Addr.{Addr as AnyAddr};

use cil_model::memory::NoMemory;
use object_memory::{Addr, Digest, Value, ValueKind};
use std::alloc::Global;
use std::marker::Model;

/// Where the values of a frame begin in the stack of all values: its arguments, its locals and its stack. Beside them what
/// it runs, the pc of the next instruction, and the object to push at the end of a constructor.
#[derive(Clone, Copy, PartialEq, Eq)]
struct Activation {
    method: u32,
    pc: u32,
    constructed: Option<Addr>,
    arguments: usize,
    locals: usize,
    stack: usize,
}

impl Activation {
    /// Adds the activation to a digest.
    fn digest(&self, digest: &mut Digest) {
        digest.add(u64::from(self.method));
        digest.add(u64::from(self.pc));
        digest.add(self.arguments as u64);
        digest.add(self.locals as u64);
        digest.add(self.stack as u64);
        if let Some(object) = self.constructed {
            digest.add(Value::Ref(object).word());
        }
    }
}

/// The frames of a live thread (ECMA-335 I.12.3.2), one of which runs. All memory is taken when the first one is made: no
/// call and no return takes any. Contracts see a list of frames with their arguments, locals and stacks.
#[derive(Drop)]
pub struct FrameMemory {
    values: Vec<Value>,
    running: Activation,
    below: Vec<Activation>,
    depth: usize,
    room: usize,
}

impl Model for FrameMemory {
    ghost use Rattle.std.specs.Prelude.{vec_capacity};
    ghost use Rattle.threads_monitors.specs.Activations.{IsSoundStack, visible_frames};
    ghost use Rattle.threads_monitors.specs.Frames.{Frames};

    ghost Value = { Frames };

    ghost view = { λ m. visible_frames m.values.items m.running m.below.items m.depth m.room };

    ghost invariant = { λ m. IsSoundStack m.values.items m.running m.below.items m.depth m.room (vec_capacity m.values) (vec_capacity m.below) };
}

impl FrameMemory {
    ghost use Rattle.threads_monitors.specs.Frames.{size, new_frame, return_frames, with_argument, with_call, with_inserted, with_local, with_pc, with_running, with_stack};
    ghost use Rattle.threads_monitors.specs.Roots.{frames_upward, roots, values_of, with_references};
    ghost use Rattle.threads_monitors.specs.Activations.{lowest, value_stack};
    ghost use Rattle.object_memory.specs.declared.values.Value.{Value};

    /// The memory of a thread that begins with a frame of the method, with these arguments and with zeros in locals of
    /// these kinds. There is room for `depth` frames, and in each for `room` values: arguments, locals and stack.
    ///
    /// No other call takes memory. `NoMemory` where there is none; nothing is kept then.
    pub fn new(
        alloc: Global,
        depth: usize,
        room: usize,
        method: u32,
        arguments: &[Value],
        locals: &[ValueKind],
    ) -> Result<FrameMemory, NoMemory>
        requires some { 0 < depth }
        requires limits { depth * room < 2 ^ 32 }
        requires fits { length arguments.now + length locals.now ≤ room }
        ensures { IfOk result (λ m. m ≡ record { running = new_frame method arguments.now locals.now None; below = []; depth = depth; room = room }) }
    {
        let mut values = Vec::with_capacity(alloc, depth * room)?;
        let below = Vec::with_capacity(alloc, depth - 1)?;
        push_values(&mut values, arguments);
        push_zeros(&mut values, locals);
        let running = Activation {
            method,
            pc: 0,
            constructed: None,
            arguments: 0,
            locals: arguments.len(),
            stack: values.len(),
        };
        Ok(FrameMemory {
            values,
            running,
            below,
            depth,
            room,
        })
    }

    /// Whether two threads have the same frames, and room for the same number of frames. True only if they do.
    pub fn is_like(&self, other: &FrameMemory) -> bool
        ensures { result ≡ true → self.now ≡ other.now }
    {
        self.depth == other.depth
            && self.room == other.room
            && self.running == other.running
            && are_same(&self.values, &other.values)
            && are_same_activations(&self.below, &other.below)
    }

    /// Adds all frames to a digest. Frames of which `is_like` is true add the same words.
    pub fn digest(&self, digest: &mut Digest) {
        for activation in &self.below {
            activation.digest(digest);
        }
        self.running.digest(digest);
        for value in &self.values {
            digest.add(value.word());
        }
    }

    /// The number of the method that runs.
    pub fn method(&self) -> u32
        ensures { result ≡ self.now.running.method }
    {
        self.running.method
    }

    /// The pc of the next instruction of the running method.
    pub fn pc(&self) -> u32
        ensures { result ≡ self.now.running.pc }
    {
        self.running.pc
    }

    /// Sets the pc of the next instruction. Nothing else changes.
    pub fn set_pc(&mut self, pc: u32)
        ensures { self.new ≡ with_pc self.old pc }
    {
        self.running.pc = pc;
    }

    /// The object that the running constructor of `newobj` makes (ECMA-335 III.4.21). None in any other method.
    pub fn constructed_object(&self) -> Option<Addr>
        ensures { result ≡ self.now.running.constructed }
    {
        self.running.constructed
    }

    /// Pushes a value on the running frame's stack.
    pub fn push(&mut self, value: Value)
        requires { size self.old.running < self.old.room }
        ensures { self.new ≡ with_stack self.old (value ∷ self.old.running.stack) }
    {
        self.values.push_reserved(value);
    }

    /// Inserts a value beneath the given number of topmost ones of the running frame's stack.
    pub fn insert(&mut self, below: usize, value: Value)
        requires there { below ≤ length self.old.running.stack }
        requires room { size self.old.running < self.old.room }
        ensures { self.new ≡ with_inserted self.old below value }
    {
        if below == 0 {
            self.push(value);
        } else {
            self.insert_beneath(below, value);
        }
    }

    /// The same, for any number of values above it. Apart, so that a birth whose constructor has no arguments is short.
    #[inline(never)]
    fn insert_beneath(&mut self, below: usize, value: Value)
        requires there { below ≤ length self.old.running.stack }
        requires room { size self.old.running < self.old.room }
        ensures { self.new ≡ with_inserted self.old below value }
    {
        let index = self.values.len() - below;
        let inserted = self.values.insert(index, value);
        inserted.unwrap();
    }

    /// Takes the topmost value off the running frame's stack.
    pub fn pop(&mut self) -> Value
        requires { 0 < length self.old.running.stack }
        ensures popped { self.old.running.stack ≡ result ∷ self.new.running.stack }
        ensures others { self.new ≡ with_stack self.old self.new.running.stack }
    {
        self.values.pop().unwrap()
    }

    /// The value so far below the topmost one of the running frame's stack. It stays there.
    pub fn operand(&self, below: usize) -> Value
        requires { below < length self.now.running.stack }
        ensures { slice_get self.now.running.stack below ≡ Some result }
    {
        self.values[self.values.len() - 1 - below]
    }

    /// An argument of the running frame (ECMA-335 III.3.38). They count from 0.
    pub fn argument(&self, index: usize) -> Value
        requires { index < length self.now.running.arguments }
        ensures { slice_get self.now.running.arguments index ≡ Some result }
    {
        self.values[self.running.arguments + index]
    }

    /// Stores to an argument of the running frame (ECMA-335 III.3.61). Nothing else changes.
    pub fn set_argument(&mut self, index: usize, value: Value)
        requires { index < length self.old.running.arguments }
        ensures { self.new ≡ with_argument self.old index value }
    {
        self.values[self.running.arguments + index] = value;
    }

    /// A local of the running frame (ECMA-335 III.3.43). They count from 0.
    pub fn local(&self, index: usize) -> Value
        requires { index < length self.now.running.locals }
        ensures { slice_get self.now.running.locals index ≡ Some result }
    {
        self.values[self.running.locals + index]
    }

    /// Stores to a local of the running frame (ECMA-335 III.3.63). Nothing else changes.
    pub fn set_local(&mut self, index: usize, value: Value)
        requires { index < length self.old.running.locals }
        ensures { self.new ≡ with_local self.old index value }
    {
        self.values[self.running.locals + index] = value;
    }

    /// Whether the number of frames is at its limit.
    pub fn is_full(&self) -> bool
        ensures { result ≡ (length self.now.below + 1 == self.now.depth) }
    {
        self.below.len() + 1 == self.depth
    }

    /// Whether the running frame is the thread's first one, with none below it.
    pub fn is_first(&self) -> bool
        ensures { result ≡ (length self.now.below == 0) }
    {
        self.below.is_empty()
    }

    /// How many frames there are, the running one counted.
    pub fn frame_count(&self) -> usize
        ensures { result ≡ length self.now.below + 1 }
    {
        self.below.len() + 1
    }

    /// How many values the running frame's stack holds.
    pub fn stack_height(&self) -> usize
        ensures { result ≡ length self.now.running.stack }
    {
        self.values.len() - self.running.stack
    }

    /// Calls a method (ECMA-335 III.3.19): the uppermost `arguments` values of the stack become the new frame's arguments,
    /// which had been pushed in their order, and its locals are zeros of these kinds. It takes no memory, and moves no argument.
    pub fn push_frame(
        &mut self,
        method: u32,
        arguments: usize,
        locals: &[ValueKind],
        constructed: Option<Addr>,
    )
        requires depth { length self.old.below + 1 < self.old.depth }
        requires arguments { arguments ≤ length self.old.running.stack }
        requires room { arguments + length locals.now ≤ self.old.room }
        ensures { self.new ≡ with_call self.old method arguments locals.now constructed }
    {
        let locals_start = self.values.len();
        let arguments_start = locals_start - arguments;
        push_zeros(&mut self.values, locals);
        self.below.push_reserved(self.running);
        self.running = Activation {
            method,
            pc: 0,
            constructed,
            arguments: arguments_start,
            locals: locals_start,
            stack: self.values.len(),
        };
    }

    /// Puts the frame that runs in other memory in place of the one that runs here. The frames below stay, and no memory is taken.
    pub fn set_running(&mut self, other: &FrameMemory)
        requires { other.now.room ≤ self.old.room }
        ensures { self.new ≡ with_running self.old other.now.running }
    {
        let start = self.running.arguments;
        self.values.truncate(start);
        push_values(
            &mut self.values,
            values_from(&other.values, other.running.arguments),
        );
        self.running = move_activation(other.running, start);
    }

    /// Whether the frame that runs is the one that runs in other memory: the same method, pc and values, and the same object to push.
    pub fn runs_same(&self, other: &FrameMemory) -> bool
        ensures { IsTrue result ↔ (self.now.running ≡ other.now.running) }
    {
        is_same_activation(self.running, other.running)
            && are_same(
                values_from(&self.values, self.running.arguments),
                values_from(&other.values, other.running.arguments),
            )
    }

    /// Drops the running frame with its values, and the one below it runs again (ECMA-335 III.3.57).
    pub fn pop_frame(&mut self)
        requires { 0 < length self.old.below }
        ensures { self.new ≡ return_frames self.old }
    {
        self.values.truncate(self.running.arguments);
        self.running = self.below.pop().unwrap();
    }

    /// What a frame holds: its arguments, its locals, and its stack upward. Frames count from the thread's first one.
    ///
    /// With `constructed_of` it gives the roots of a collection that a frame has; what a thread has are those of its frames
    /// in their order.
    pub fn values_of(&self, frame: usize) -> &[Value]
        requires { frame ≤ length self.now.below }
        ensures { option_map values_of (slice_get (frames_upward self.now) frame) ≡ Some result.now }
    {
        part(
            &self.values,
            self.activation(frame).arguments,
            self.end_of(frame),
        )
    }

    /// The object that the constructor makes which a frame runs for `newobj` (ECMA-335 III.4.21). None in any other frame.
    /// Frames count from the thread's first one.
    pub fn constructed_of(&self, frame: usize) -> Option<Addr>
        requires { frame ≤ length self.now.below }
        ensures { option_map (λ f. f.constructed) (slice_get (frames_upward self.now) frame) ≡ Some result }
    {
        self.activation(frame).constructed
    }

    /// The activation of a frame, the first one's at 0.
    fn activation(&self, frame: usize) -> &Activation
        requires { frame ≤ length self.now.below }
        ensures begins { result.now.arguments ≡ length (value_stack (lowest frame (self.now.running ∷ self.now.below))) }
        ensures constructed { option_map (λ f. f.constructed) (slice_get (frames_upward self.now) frame) ≡ Some result.now.constructed }
    {
        match self.below.get(frame) {
            Some(activation) => activation,
            None => &self.running,
        }
    }

    /// Where the values of a frame end in the value stack.
    fn end_of(&self, frame: usize) -> usize
        requires { frame ≤ length self.now.below }
        ensures { result ≡ length (value_stack (lowest (frame + 1) (self.now.running ∷ self.now.below))) }
    {
        if frame < self.below.len() {
            self.activation(frame + 1).arguments
        } else {
            self.values.len()
        }
    }

    /// Replaces each reference that a frame holds by what `change` returns for it. All else stays, and no memory
    /// is taken.
    ///
    /// `change` is asked for these references alone, and may be asked for each of them oftener than once: so its result must be a function of the
    /// address.
    pub fn replace_references<F: Fn(Addr) -> Addr>(&mut self, change: F)
        requires { (g : AnyAddr → AnyAddr) × AnswersAt (F.pre change) (F.post change) g (roots self.old) }
        ensures { (g : AnyAddr → AnyAddr) → AnswersAt (F.pre change) (F.post change) g (roots self.old) → self.new ≡ with_references g self.old }
    {
        replace_in_values(&mut self.values, &change);
        replace_in_activations(&mut self.below, &change);
        self.running = replace_in_activation(self.running, &change);
    }
}

/// 0 of the kind, or null: what a location holds at first (ECMA-335 I.12.3.2.2).
pub fn zero_value(kind: ValueKind) -> Value
    ensures { result ≡ zero_value kind }
{
    match kind {
        ValueKind::Int32 => Value::Int32(0),
        ValueKind::Int64 => Value::Int64(0),
        ValueKind::Native => Value::Native(0),
        ValueKind::Ref => Value::Ref(Addr::null()),
    }
}

/// Appends a zero of each kind. There is room for them.
fn push_zeros(values: &mut Vec<Value>, kinds: &[ValueKind])
    requires room { vec_len values.old + length kinds.now ≤ vec_capacity values.old }
    ensures items { values.new.items ≡ values.old.items ++ map zero_value kinds.now }
    ensures capacity { vec_capacity values.new ≡ vec_capacity values.old }
{
    for kind in kinds {
        values.push_reserved(zero_value(*kind));
    }
}

/// Appends the values. There is room for them.
fn push_values(values: &mut Vec<Value>, more: &[Value])
    requires room { vec_len values.old + length more.now ≤ vec_capacity values.old }
    ensures items { values.new.items ≡ values.old.items ++ more.now }
    ensures capacity { vec_capacity values.new ≡ vec_capacity values.old }
{
    for value in more {
        values.push_reserved(*value);
    }
}

/// The values of a list from an index on.
fn values_from(values: &[Value], start: usize) -> &[Value]
    requires { start ≤ length values.now }
    ensures { result.now ≡ drop start values.now }
{
    &values[start..]
}

/// The activation of the same frame where its values begin at another index of the value stack.
fn move_activation(activation: Activation, start: usize) -> Activation
    requires order { (activation.arguments ≤ activation.locals) × (activation.locals ≤ activation.stack) }
    requires fits { start + (activation.stack - activation.arguments) < 2 ^ 63 }
    ensures { result ≡ moved_to start activation }
{
    Activation {
        arguments: start,
        locals: start + (activation.locals - activation.arguments),
        stack: start + (activation.stack - activation.arguments),
        ..activation
    }
}

/// Whether the values are the same, one by one.
pub fn are_same(one: &[Value], other: &[Value]) -> bool
    ensures { IsTrue result ↔ (one.now ≡ other.now) }
{
    one == other
}

/// Whether a constructor makes the same object, or neither makes any.
fn is_same_object(one: Option<Addr>, other: Option<Addr>) -> bool
    ensures { IsTrue result ↔ (one ≡ other) }
{
    one == other
}

/// Whether two activations are of the same method at the same pc, with the same numbers of arguments and locals and the same object to push.
fn is_same_activation(one: Activation, other: Activation) -> bool
    requires { (one.arguments ≤ one.locals) × (one.locals ≤ one.stack) × (other.arguments ≤ other.locals) × (other.locals ≤ other.stack) }
    ensures { IsTrue result ↔ (moved_to 0 one ≡ moved_to 0 other) }
{
    one.method == other.method
        && one.pc == other.pc
        && is_same_object(one.constructed, other.constructed)
        && one.locals - one.arguments == other.locals - other.arguments
        && one.stack - one.arguments == other.stack - other.arguments
}

/// The values of a list from one index to another.
fn part(values: &[Value], start: usize, end: usize) -> &[Value]
    requires order { start ≤ end }
    requires within { end ≤ length values.now }
    ensures { result.now ≡ take (end - start) (drop start values.now) }
{
    &values[start..end]
}

/// Replaces each reference among the values by what `change` returns for it.
fn replace_in_values<F: Fn(Addr) -> Addr>(values: &mut [Value], change: &F)
    requires { (g : AnyAddr → AnyAddr) × All (λ v. IfSome (reference_in v) (IsAnswer (F.pre change.now) (F.post change.now) g)) values.old }
    ensures { (g : AnyAddr → AnyAddr) → All (λ v. IfSome (reference_in v) (IsAnswer (F.pre change.now) (F.post change.now) g)) values.old → values.new ≡ map (with_reference g) values.old }
{
    for value in values.iter_mut() {
        *value = replace_in_value(*value, change);
    }
}

/// The value, or where it is a reference what `change` returns for it.
fn replace_in_value<F: Fn(Addr) -> Addr>(value: Value, change: &F) -> Value
    requires { IfSome (reference_in value) (F.pre change.now) }
    ensures { (g : AnyAddr → AnyAddr) → IfSome (reference_in value) (IsAnswer (F.pre change.now) (F.post change.now) g) → result ≡ with_reference g value }
{
    match value {
        Value::Ref(address) => Value::Ref(change(address)),
        Value::Int32(_) | Value::Int64(_) | Value::Native(_) => value,
    }
}

/// Replaces the object that a constructor makes, in each activation, by what `change` returns for it.
fn replace_in_activations<F: Fn(Addr) -> Addr>(activations: &mut [Activation], change: &F)
    requires { (g : AnyAddr → AnyAddr) × All (λ a. IfSome a.constructed (IsAnswer (F.pre change.now) (F.post change.now) g)) activations.old }
    ensures { (g : AnyAddr → AnyAddr) → All (λ a. IfSome a.constructed (IsAnswer (F.pre change.now) (F.post change.now) g)) activations.old → activations.new ≡ map (with_constructed g) activations.old }
{
    for activation in activations.iter_mut() {
        *activation = replace_in_activation(*activation, change);
    }
}

/// The activation, with what `change` returns for the object that its constructor makes.
fn replace_in_activation<F: Fn(Addr) -> Addr>(activation: Activation, change: &F) -> Activation
    requires { IfSome activation.constructed (F.pre change.now) }
    ensures { (g : AnyAddr → AnyAddr) → IfSome activation.constructed (IsAnswer (F.pre change.now) (F.post change.now) g) → result ≡ with_constructed g activation }
{
    Activation {
        constructed: activation.constructed.map(change),
        ..activation
    }
}

/// Whether two lists of activations are equal. True only if they are.
fn are_same_activations(activations: &[Activation], others: &[Activation]) -> bool
    ensures { result ≡ true → activations.now ≡ others.now }
{
    if activations.len() != others.len() {
        return false;
    }
    for index in 0..activations.len() {
        if activations[index] != others[index] {
            return false;
        }
    }
    true
}
