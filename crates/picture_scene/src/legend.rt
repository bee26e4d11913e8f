//! What the colors of a picture mean.

use crate::layout::Layout;
use crate::marks::Kind;
use crate::scene::Scene;
use svg_text::{Class, Color, Content};

/// What is in a picture.
#[derive(Clone, Copy)]
enum Feature {
    Step,
    Wait,
    Monitor,
    Update,
    LostUpdate,
    Collector,
}

/// A sample in its color, and what it means.
#[derive(Clone, Copy)]
struct Sample {
    /// What it is drawn for.
    feature: Feature,
    class: Class,
    color: Color,
    words: &'static str,
}

/// All samples, from left to right.
const SAMPLES: [Sample; 10] = [
    Sample {
        feature: Feature::Step,
        class: Class::StepKey,
        color: Color::Thread(0),
        words: "a step",
    },
    Sample {
        feature: Feature::Wait,
        class: Class::BlockKey,
        color: Color::Inherit,
        words: "a blocked step",
    },
    Sample {
        feature: Feature::Wait,
        class: Class::HatchKey,
        color: Color::Inherit,
        words: "it waits",
    },
    Sample {
        feature: Feature::Monitor,
        class: Class::Held,
        color: Color::Monitor(0),
        words: "a monitor",
    },
    Sample {
        feature: Feature::Update,
        class: Class::Update,
        color: Color::Thread(0),
        words: "load to store",
    },
    Sample {
        feature: Feature::LostUpdate,
        class: Class::Lost,
        color: Color::Inherit,
        words: "lost update",
    },
    Sample {
        feature: Feature::Collector,
        class: Class::Acknowledgement,
        color: Color::Inherit,
        words: "an acknowledgement",
    },
    Sample {
        feature: Feature::Collector,
        class: Class::WorkKey,
        color: Color::Inherit,
        words: "the collector works",
    },
    Sample {
        feature: Feature::Collector,
        class: Class::PauseKey,
        color: Color::Inherit,
        words: "it waits for a thread",
    },
    Sample {
        feature: Feature::Collector,
        class: Class::CycleKey,
        color: Color::Inherit,
        words: "it ends a cycle",
    },
];

/// Appends a sample of each feature that is in the picture.
pub(crate) fn add_legend(page: &mut Content, layout: &Layout, scene: &Scene) {
    let y = layout.legend_y + 6;
    let mut x = 24usize;
    for sample in &SAMPLES {
        if has(scene, layout, sample.feature) {
            add_sample(page, sample, x, y);
            x = x.saturating_add(40 + 6 * sample.words.len().min(40));
        }
    }
}

/// Appends a sample at a point.
fn add_sample(page: &mut Content, sample: &Sample, x: usize, y: usize) {
    let words = sample.words.as_bytes();
    let right = x.saturating_add(22);
    let below = y.saturating_add(4);
    page.shape(sample.class, sample.color, x, y, "h16");
    page.label(Class::Quiet, Color::Inherit, right, below, words);
}

/// Whether a picture has such a feature.
fn has(scene: &Scene, layout: &Layout, feature: Feature) -> bool {
    match feature {
        Feature::Step => true,
        Feature::Wait => scene.count(Kind::Wait) > 0 || scene.count(Kind::Join) > 0,
        Feature::Monitor => scene.monitors > 0,
        Feature::Update => has_update(scene),
        Feature::LostUpdate => scene.count(Kind::LostUpdate) > 0,
        Feature::Collector => layout.has_collector,
    }
}

/// Whether there is an update of a field that at least two threads load or store.
fn has_update(scene: &Scene) -> bool {
    for mark in scene.marks.as_slice() {
        if matches!(mark.kind, Kind::Update | Kind::LostUpdate) && scene.is_shared(mark.value) {
            return true;
        }
    }
    false
}
