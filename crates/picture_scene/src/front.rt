//! What lies over the rows.

use crate::above::add_above;
use crate::arrows::add_arrows;
use crate::heap::{add_collector, add_heap};
use crate::layout::{Layout, TOP, WIDTH};
use crate::legend::add_legend;
use crate::lines::add_fields;
use crate::scene::Scene;
use crate::stripes::add_stripes;
use crate::tooltips::add_names;
use svg_text::{Class, Color, Content};

/// How wide events are at least that have lines between them.
const CUT_WIDTH: usize = 4;

/// Appends what lies over the rows, given what was printed.
pub fn add_front(page: &mut Content, layout: &Layout, scene: &Scene, console: &[u8]) {
    if WIDTH / layout.count >= CUT_WIDTH {
        add_cuts(page, layout);
    }
    add_stripes(page, layout, scene);
    if layout.has_names {
        add_names(page, layout, scene);
    }
    add_arrows(page, layout, scene);
    add_above(page, layout, scene, console);
    if layout.has_collector {
        add_collector(page, layout, scene);
    }
    add_fields(page, layout, scene);
    add_heap(page, layout, scene);
    add_legend(page, layout, scene);
}

/// A line down the lanes between each two events.
fn add_cuts(page: &mut Content, layout: &Layout) {
    let height = layout.collector_y - TOP;
    for event in 1..layout.count {
        page.put_point('M', layout.x(layout.start.saturating_add(event)), TOP);
        page.put_command('v', height);
    }
    page.path(Class::Cut, Color::Inherit);
}
