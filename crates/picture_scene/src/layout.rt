//! Where the parts of a picture are, in pixels.

ghost use Rattle.std.specs.Prelude.{◌≤◌, ◌+◌};
ghost use Rattle.picture_scene.specs.declared.layout.TheConstants.{LEFT, TOP, WIDTH};

use crate::marks::COLLECTOR;
use crate::scene::Scene;
use cil_model::limits::MOST_THREADS;

/// How far to the right the events begin, after the names of the lanes.
pub const LEFT: usize = 150;

/// How wide all events are together.
pub const WIDTH: usize = 980;

/// How far to the right the events end.
pub(crate) const RIGHT: usize = 1_130;

/// How wide a picture is.
pub const WHOLE_WIDTH: usize = 1_280;

/// How far below the top the lanes begin.
pub(crate) const TOP: usize = 92;

/// How high the lane of the collector is.
const COLLECTOR_HEIGHT: usize = 28;

/// How high the curve of the heap is.
pub(crate) const HEAP_HEIGHT: usize = 70;

/// The most lanes that have room for names.
const MOST_WIDE_LANES: usize = 6;

/// How wide an event is at least that has the name of its instruction.
const NAME_WIDTH: usize = 15;

/// The largest number of fields that have lines.
pub(crate) const MOST_FIELDS: usize = 6;

/// Where the parts of a picture are. A field `_y` is how far below the top a part begins.
#[derive(Clone, Copy)]
pub struct Layout {
    /// The number of the first event that is drawn, from 0.
    pub start: usize,
    /// How many events are drawn, or 1 where none is.
    pub count: usize,
    /// Whether none is.
    pub(crate) is_empty: bool,
    /// How many lanes of threads there are.
    pub(crate) lanes: usize,
    /// Whether there are more than `MOST_WIDE_LANES` lanes, so that each one is low.
    pub is_compact: bool,
    /// Whether instructions have names.
    pub has_names: bool,
    pub has_collector: bool,
    pub collector_y: usize,
    pub(crate) fields_y: usize,
    pub(crate) heap_y: usize,
    pub axis_y: usize,
    /// The sentences: of the first deadlock, of a lost update, and of the threads that are deadlocked after the last event.
    pub(crate) deadlock_y: usize,
    pub(crate) lost_y: usize,
    pub deadlocked_y: usize,
    pub(crate) legend_y: usize,
    /// How high the picture is.
    pub height: usize,
    ghost some: { 1 ≤ count },
    ghost collector_below: { TOP ≤ collector_y },
    ghost collector_above: { collector_y ≤ 840 },
    ghost fields_above: { fields_y ≤ 890 },
    ghost heap_above: { heap_y ≤ 1040 },
    ghost axis_below: { TOP ≤ axis_y },
    ghost axis_above: { axis_y ≤ 1120 },
    ghost legend_above: { legend_y ≤ 1220 },
}

impl Layout {
    /// The layout of a picture of the events of these numbers, from 1, given the number of all events, and whether threads are deadlocked after them.
    pub fn new(
        first: usize,
        last: usize,
        events: usize,
        scene: &Scene,
        deadlocked: bool,
    ) -> Layout {
        let start = first.saturating_sub(1);
        let drawn = events.min(last).saturating_sub(start);
        let count = drawn.max(1);
        let lanes = scene.lanes.len().min(MOST_THREADS);
        let is_compact = lanes > MOST_WIDE_LANES;
        let has_names = !is_compact && WIDTH / count >= NAME_WIDTH;
        let collector_y = lane_y(is_compact, has_names, lanes) + 6;
        let collector = if scene.has_collector { 34 } else { 0 };
        let fields_y = collector_y + collector + 14;
        let heap_y = fields_y + 24 * scene.shared.min(MOST_FIELDS) - 6;
        let axis_y = heap_y + HEAP_HEIGHT + 6;
        let deadlock_y = axis_y + 36;
        let lost_y = deadlock_y + line_height(scene.deadlock.is_some());
        let deadlocked_y = lost_y + line_height(scene.lost < scene.fields.len());
        let legend_y = deadlocked_y + line_height(deadlocked);
        Layout {
            start,
            count,
            is_empty: drawn == 0,
            lanes,
            is_compact,
            has_names,
            has_collector: scene.has_collector,
            collector_y,
            fields_y,
            heap_y,
            axis_y,
            deadlock_y,
            lost_y,
            deadlocked_y,
            legend_y,
            height: legend_y + 30,
        }
    }

    /// The number after the last event that is drawn.
    pub(crate) fn end(&self) -> usize {
        self.start.saturating_add(self.count)
    }

    /// How far to the right an event begins.
    pub fn x(&self, at: usize) -> usize
        ensures left { LEFT ≤ result }
        ensures right { result ≤ LEFT + WIDTH }
    {
        let events = at.saturating_sub(self.start).min(self.count);
        LEFT + (WIDTH.saturating_mul(events) / self.count).min(WIDTH)
    }

    /// How far to the right the middle of an event is.
    pub(crate) fn middle_x(&self, at: usize) -> usize
        ensures left { LEFT ≤ result }
        ensures right { result ≤ LEFT + WIDTH }
    {
        (self.x(at) + self.x(at.saturating_add(1))) / 2
    }

    /// How far below the top a lane begins.
    pub fn lane_y(&self, lane: usize) -> usize
        ensures below { TOP ≤ result }
        ensures above { result ≤ 840 }
    {
        if lane == COLLECTOR {
            self.collector_y
        } else {
            lane_y(self.is_compact, self.has_names, lane)
        }
    }

    /// How high the ground of a lane is.
    pub(crate) fn lane_height(&self, lane: usize) -> usize {
        if lane == COLLECTOR {
            COLLECTOR_HEIGHT
        } else if self.is_compact {
            26
        } else if self.has_names {
            119
        } else {
            46
        }
    }

    /// How far below the top the middle of the steps of a thread is.
    pub fn middle_y(&self, thread: usize) -> usize
        ensures below { TOP ≤ result }
        ensures above { result ≤ 860 }
    {
        let half = if self.is_compact { 12 } else { 15 };
        self.lane_y(thread) + half
    }

    /// How far below the top the stripes of a lane at a depth are.
    pub(crate) fn stripe_y(&self, lane: usize, depth: usize) -> usize
        ensures { result ≤ 890 }
    {
        if self.is_compact {
            self.lane_y(lane) + 22 + 4 * depth.min(1)
        } else {
            self.lane_y(lane) + 30 + 7 * depth.min(2)
        }
    }

    /// How far below the top a number of words is in the curve of the heap, given the greatest number.
    pub(crate) fn level(&self, words: usize, most: usize) -> usize {
        let height = words.min(most).saturating_mul(HEAP_HEIGHT - 8) / most.max(1);
        self.heap_y + HEAP_HEIGHT - height.min(HEAP_HEIGHT)
    }
}

/// How far below the top the lane of a thread begins, of those beyond the last one that has room as that one.
fn lane_y(is_compact: bool, has_names: bool, thread: usize) -> usize
    ensures below { TOP ≤ result }
    ensures above { result ≤ 830 }
{
    if is_compact {
        TOP + thread.min(MOST_THREADS) * 30
    } else if has_names {
        TOP + thread.min(MOST_WIDE_LANES) * 123
    } else {
        TOP + thread.min(MOST_WIDE_LANES) * 50
    }
}

/// How high a sentence is, if it is there.
fn line_height(is_there: bool) -> usize
    ensures { result ≤ 17 }
{
    if is_there { 17 } else { 0 }
}
