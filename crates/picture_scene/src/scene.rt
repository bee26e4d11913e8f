//! What a picture shows beside its rows, gathered while the events are done.

ghost use Rattle.std.specs.Prelude.{◌<◌, IfSome, length};

use crate::marks::{COLLECTOR, Kind, Mark, OPEN, Part, part_of};
use cil_model::reports::End;
use std::alloc::Global;
use std::str;

/// The lane of a thread.
#[derive(Clone, Copy)]
pub struct Lane {
    /// The event from which on the thread is there.
    pub from: usize,
    /// The thread that started it by an event that is drawn.
    pub starter: Option<u8>,
    /// The method of its first step. Empty before that.
    pub method: Part,
    /// How it ended. None while it is live.
    pub end: Option<End>,
    /// The number after the event that ended it, and the largest number while it is live.
    pub to: usize,
    /// Whether its last step was blocked.
    pub is_waiting: bool,
    /// How many times it has waited.
    pub waits: usize,
}

impl Lane {
    /// The lane of a thread that is there from this event on.
    pub fn new(from: usize, starter: Option<u8>) -> Lane {
        Lane {
            from,
            starter,
            method: Part { from: 0, to: 0 },
            end: None,
            to: OPEN,
            is_waiting: false,
            waits: 0,
        }
    }
}

/// A static field that events load or store.
#[derive(Clone, Copy)]
pub struct Field {
    /// The index of its class in the source.
    pub class: usize,
    /// The index of its declaration among the members of the class.
    pub member: usize,
    /// Its name after that of its class.
    pub name: Part,
    /// The thread that loaded or stored it first.
    pub thread: usize,
    /// Whether another thread loads or stores it.
    pub is_shared: bool,
}

/// Threads none of which continues any more.
#[derive(Clone, Copy)]
pub struct Deadlock {
    /// The event by which they became deadlocked.
    pub at: usize,
    /// Who waits for whom.
    pub sentence: Part,
}

/// What a picture shows beside its rows. Where memory runs out for it, it is not whole from then on; whoever gathers asks for that after each event.
pub struct Scene {
    /// Those of the threads, by number.
    pub lanes: Vec<Lane>,
    /// What has ended.
    pub marks: Vec<Mark>,
    /// What lasts.
    open: Vec<Mark>,
    /// The static fields, in the order of their first loads or stores.
    pub fields: Vec<Field>,
    /// Names and sentences.
    pub text: String,
    /// The first deadlock.
    pub deadlock: Option<Deadlock>,
    /// The first field that has a lost update, by its index. The largest number if there is none.
    pub(crate) lost: usize,
    /// How many fields at least two threads load or store.
    pub(crate) shared: usize,
    /// How many monitors were entered.
    pub monitors: usize,
    /// How many cycles of the collector ended.
    pub cycles: usize,
    /// Whether there is an event of the collector, or it posts another phase.
    pub has_collector: bool,
    is_whole: bool,
}

/// Each list gives back its own.
impl Drop for Scene {
    fn drop(self) {
        let Scene {
            lanes: _lanes,
            marks: _marks,
            open: _open,
            fields: _fields,
            text: _text,
            deadlock: _deadlock,
            lost: _lost,
            shared: _shared,
            monitors: _monitors,
            cycles: _cycles,
            has_collector: _has_collector,
            is_whole: _is_whole,
        } = self;
    }
}

impl Scene {
    /// What is to be seen of no event.
    pub fn new(alloc: Global) -> Scene {
        Scene {
            lanes: Vec::new(alloc),
            marks: Vec::new(alloc),
            open: Vec::new(alloc),
            fields: Vec::new(alloc),
            text: String::new(alloc),
            deadlock: None,
            lost: OPEN,
            shared: 0,
            monitors: 0,
            cycles: 0,
            has_collector: false,
            is_whole: true,
        }
    }

    /// Whether there was memory for all that was gathered.
    pub fn is_whole(&self) -> bool {
        self.is_whole
    }

    /// Memory ran out for what was to be gathered.
    pub fn lose(&mut self) {
        self.is_whole = false;
    }

    /// Adds what has ended.
    pub fn add(&mut self, mark: Mark) {
        if self.marks.push(mark).is_err() {
            self.lose();
        }
    }

    /// Adds what lasts from an event on.
    pub fn begin(&mut self, kind: Kind, lane: usize, from: usize, value: usize, other: usize) {
        let mark = Mark {
            kind,
            lane,
            from,
            to: OPEN,
            value,
            other,
        };
        if self.open.push(mark).is_err() {
            self.lose();
        }
    }

    /// The index of the last mark of this kind in a lane that lasts; given a value, of the last one with it.
    fn find(&self, kind: Kind, lane: usize, value: Option<usize>) -> Option<usize>
        ensures { IfSome result (λ index. index < length self.now.open.items) }
    {
        for index in (0..self.open.len()).rev() {
            let mark = self.open[index];
            if mark.is(kind, lane) && mark.value == value.unwrap_or(mark.value) {
                return Some(index);
            }
        }
        None
    }

    /// The last mark of this kind in a lane that lasts, with this value if one is given, ends before an event. A stripe is kept only if some of it is drawn.
    pub fn end(&mut self, kind: Kind, lane: usize, value: Option<usize>, to: usize) {
        if let Some(index) = self.find(kind, lane, value) {
            let mark = self.open.remove(index);
            if mark.from < to || !matches!(kind, Kind::Held) {
                self.add(Mark { to, ..mark });
            }
        }
    }

    /// From an event on a lane has these values: a phase, or words in use. Nothing changes if it had them already.
    pub fn change(&mut self, kind: Kind, lane: usize, at: usize, value: usize, other: usize) {
        if let Some(index) = self.find(kind, lane, None) {
            let last = self.open[index];
            if last.value == value && last.other == other {
                return;
            }
            let _last = self.open.remove(index);
            if last.from < at {
                self.add(Mark { to: at, ..last });
                self.has_collector = self.has_collector || last.is(Kind::Phase, COLLECTOR);
            }
        }
        self.begin(kind, lane, at, value, other);
    }

    /// A thread enters a monitor, which has the first stripe that is free.
    pub fn enter(&mut self, lane: usize, monitor: usize, at: usize) {
        let depth = if !self.is_held(lane, 0) {
            0
        } else if !self.is_held(lane, 1) {
            1
        } else if !self.is_held(lane, 2) {
            2
        } else {
            3
        };
        self.begin(Kind::Held, lane, at, monitor, depth);
    }

    /// Whether the thread of a lane holds a monitor in the stripe of this depth.
    fn is_held(&self, lane: usize, depth: usize) -> bool {
        for mark in self.open.as_slice() {
            if mark.is(Kind::Held, lane) && mark.other == depth {
                return true;
            }
        }
        false
    }

    /// Adds the lane of the next thread.
    pub fn start(&mut self, lane: Lane) {
        if self.lanes.push(lane).is_err() {
            self.lose();
        }
    }

    /// A thread is ended by this event, and waits no longer from the event `to` on.
    pub fn stop(&mut self, lane: usize, end: End, at: usize, to: usize) {
        if let Some(ended) = self.lanes.as_mut_slice().get_mut(lane) {
            ended.end = Some(end);
            ended.to = at.saturating_add(1);
        }
        self.advance(lane, to);
    }

    /// The step of a thread at this event is blocked. Returns whether the thread waits from this step on.
    pub fn block(&mut self, lane: usize, at: usize, kind: Kind, value: usize) -> bool {
        let Some(blocked) = self.lanes.as_mut_slice().get_mut(lane) else {
            return false;
        };
        if blocked.is_waiting {
            return false;
        }
        blocked.is_waiting = true;
        blocked.waits = blocked.waits.saturating_add(1);
        self.begin(kind, lane, at, value, 0);
        true
    }

    /// A thread waits no longer from this event on.
    pub fn advance(&mut self, lane: usize, at: usize) {
        if let Some(waiting) = self.lanes.as_mut_slice().get_mut(lane) {
            if waiting.is_waiting {
                waiting.is_waiting = false;
                self.end(Kind::Wait, lane, None, at);
                self.end(Kind::Join, lane, None, at);
            }
        }
    }

    /// The index of a static field: the number of all where it is new.
    pub fn field(&self, class: usize, member: usize) -> usize {
        for (index, field) in self.fields.as_slice().iter().enumerate() {
            if field.class == class && field.member == member {
                return index;
            }
        }
        self.fields.len()
    }

    /// A thread loads or stores the static field of this index.
    pub fn access(&mut self, kind: Kind, lane: usize, at: usize, field: usize) {
        if let Some(known) = self.fields.as_mut_slice().get_mut(field) {
            if known.thread != lane && !known.is_shared {
                known.is_shared = true;
                self.shared = self.shared.saturating_add(1);
            }
        }
        if matches!(kind, Kind::Store) {
            self.update(lane, at, field);
        }
        self.add(Mark::at(kind, lane, at, field, 0));
    }

    /// Adds the update that a store ends, if its thread has loaded the field since its last store.
    fn update(&mut self, lane: usize, to: usize, field: usize) {
        let mut lost = None;
        for index in (0..self.marks.len()).rev() {
            let mark = self.marks[index];
            if mark.value == field {
                match mark.kind {
                    Kind::Load if mark.lane == lane => {
                        self.add_update(Mark { to, ..mark }, lost);
                        return;
                    }
                    Kind::Store if mark.lane == lane => return,
                    Kind::Store if lost.is_none() => lost = Some(index),
                    _ => {}
                }
            }
        }
    }

    /// Adds an update, given the index of the last store that it overwrites.
    fn add_update(&mut self, update: Mark, lost: Option<usize>) {
        match lost {
            Some(other) => {
                self.lost = self.lost.min(update.value);
                self.add(Mark {
                    kind: Kind::LostUpdate,
                    other,
                    ..update
                });
            }
            None => self.add(Mark {
                kind: Kind::Update,
                ..update
            }),
        }
    }

    /// After the last event: what lasts is drawn up to the end of the picture.
    pub fn finish(&mut self) {
        if self.marks.extend_from_slice(self.open.as_slice()).is_err() {
            self.lose();
        }
    }

    /// How many marks of this kind there are.
    pub(crate) fn count(&self, kind: Kind) -> usize {
        let mut count = 0usize;
        for mark in self.marks.as_slice() {
            if mark.kind == kind {
                count = count.saturating_add(1);
            }
        }
        count
    }

    /// Whether at least two threads load or store the static field of this index.
    pub(crate) fn is_shared(&self, field: usize) -> bool {
        match self.fields.as_slice().get(field) {
            Some(field) => field.is_shared,
            None => false,
        }
    }

    /// A part of the text. Empty if it has no such part.
    pub(crate) fn part(&self, part: Part) -> &[u8] {
        part_of(self.text.as_str().as_bytes(), part.from, part.to)
    }

    /// A part of the text, as words. Empty if it has no such part.
    pub(crate) fn words(&self, part: Part) -> &str {
        match str::from_utf8(self.part(part)) {
            Ok(words) => words,
            Err(_) => "",
        }
    }
}
