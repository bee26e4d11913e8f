//! The rows as paths, and parts of a picture in which x counts events.

ghost use Rattle.std.specs.Prelude.{List, ℕ};
ghost use Rattle.run_picture.specs.Paths.{Draws, HasPaths};

use crate::rows::{CYCLE_ENDS, KINDS, NO_THREAD, ROWS, Rows, WAITED, WORKED};
use event_rows::Row;
use picture_scene::{LEFT, Layout, WIDTH};
use std::alloc::Global;
use std::fmt::Write;
use svg_text::{Attribute, Class, Color, Content, Name, Tag};

/// The paths of the rows, each at its height.
pub(crate) fn rows(alloc: Global, layout: &Layout, rows: &Rows) -> Content
    ensures { HasPaths result rows.now.rows.items }
{
    let mut content = Content::new(alloc);
    for number in 0..ROWS {
        let ink = row_ink(layout, number);
        add_row(alloc, &mut content, ink, &rows.rows[number]);
    }
    content
}

/// Appends the path of a row. Nothing where the row draws no event.
fn add_row(alloc: Global, content: &mut Content, ink: Ink, row: &Row)
    ensures { Draws content.old content.new row.now }
{
    let mut data = String::new(alloc);
    match row.add_path(ink.y, &mut data) {
        Ok(()) => {
            if !data.as_str().is_empty() {
                content.path_of(ink.class, ink.color, data.as_str());
            }
        }
        Err(_) => content.lose(),
    }
}

/// Appends a part of the picture in which x counts events, and those that are drawn are as wide as the whole of it.
pub(crate) fn add_plot(alloc: Global, page: &mut Content, layout: &Layout, inside: &Content)
    ensures { (rows : List (List ℕ)) → HasPaths inside.now rows → HasPaths page.new rows }
{
    let height = layout.height;
    let start = layout.start;
    let count = layout.count;
    match format!(in alloc; "{start} 0 {count} {height}") {
        Ok(view) => page.around(
            Tag::Svg,
            &[
                Attribute::number(Name::X, LEFT),
                Attribute::number(Name::Y, 0),
                Attribute::number(Name::Width, WIDTH),
                Attribute::number(Name::Height, height),
                Attribute::words(Name::ViewBox, view.as_str()),
                Attribute::words(Name::PreserveAspectRatio, "none"),
            ],
            inside,
        ),
        Err(_) => page.lose(),
    }
}

/// How far below the top a row is.
fn row_y(layout: &Layout, number: usize) -> usize {
    if number >= NO_THREAD {
        layout.axis_y - 3
    } else if number >= WORKED {
        layout.collector_y + 8
    } else if number % KINDS < 3 {
        layout.middle_y(number / KINDS)
    } else {
        layout.lane_y(number / KINDS) + 2
    }
}

/// How a row is drawn: its class in the style, its color, and its height.
#[derive(Clone, Copy)]
struct Ink {
    class: Class,
    color: Color,
    y: usize,
}

/// How the row of this number is drawn.
fn row_ink(layout: &Layout, number: usize) -> Ink {
    let y = row_y(layout, number);
    if number < WORKED {
        let class = thread_class(number % KINDS, layout.is_compact);
        let color = Color::Thread(number / KINDS);
        return Ink { class, color, y };
    }
    let class = match number {
        WORKED => Class::Work,
        WAITED => Class::Pause,
        CYCLE_ENDS => Class::Cycle,
        _ => Class::Gone,
    };
    Ink {
        class,
        color: Color::Inherit,
        y,
    }
}

/// The class of a thread's row of this kind.
fn thread_class(kind: usize, is_compact: bool) -> Class {
    match kind {
        0 if is_compact => Class::StepSlim,
        0 => Class::Step,
        1 if is_compact => Class::FailSlim,
        1 => Class::Fail,
        2 if is_compact => Class::BlockSlim,
        2 => Class::Block,
        3 => Class::Acknowledgement,
        _ => Class::Idle,
    }
}
