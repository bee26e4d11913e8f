//! The document of a picture.

ghost use Rattle.std.specs.Prelude.{IfOk, string_bytes};
ghost use Rattle.run_picture.specs.Paths.{HasPaths, HasWords};
ghost use Rattle.run_picture.specs.Pictures.{IsDrawn};

use crate::plots::{add_plot, rows};
use crate::rows::Rows;
use cil_model::memory::NoMemory;
use picture_scene::{
    Layout, MOST_TIPS, Scene, WHOLE_WIDTH, add_below, add_front, add_ground, tints, tips,
};
use std::alloc::Global;
use svg_text::{Attribute, Class, Content, Name, Tag};

/// The document of what was gathered, and of what was printed.
pub(crate) fn document(
    alloc: Global,
    console: &[u8],
    layout: &Layout,
    scene: &Scene,
    drawn: &Rows,
    sentence: &str,
) -> Result<String, NoMemory>
    ensures { IfOk result (λ text. IsDrawn (string_bytes text) drawn.now.rows.items sentence.now) }
{
    let page = page(alloc, console, layout, scene, drawn, sentence);
    let view = format!(in alloc; "0 0 {WHOLE_WIDTH} {}", layout.height)?;
    Ok(page.into_document(
        alloc,
        &[
            Attribute::words(Name::Namespace, "http://www.w3.org/2000/svg"),
            Attribute::words(Name::ViewBox, view.as_str()),
            Attribute::number(Name::Width, WHOLE_WIDTH),
            Attribute::number(Name::Height, layout.height),
        ],
    )?)
}

/// All that stands in the document.
fn page(
    alloc: Global,
    console: &[u8],
    layout: &Layout,
    scene: &Scene,
    drawn: &Rows,
    sentence: &str,
) -> Content
    ensures paths { HasPaths result drawn.now.rows.items }
    ensures sentence { HasWords result sentence.now }
{
    let mut page = ground(alloc, layout, scene);
    add_plot(alloc, &mut page, layout, &rows(alloc, layout, drawn));
    page.append(&front(alloc, layout, console, scene));
    page.append(&deadlock_content(alloc, layout, sentence));
    page
}

/// What lies below the rows: the style, the titles, the grounds of the lanes with their tints, the grid, and times of waiting.
fn ground(alloc: Global, layout: &Layout, scene: &Scene) -> Content {
    let mut page = Content::new(alloc);
    add_ground(&mut page, layout, scene);
    add_plot(alloc, &mut page, layout, &tints(alloc, layout, scene));
    add_below(&mut page, layout, scene);
    page
}

/// What lies over the rows, with the tooltips of the events.
fn front(alloc: Global, layout: &Layout, console: &[u8], scene: &Scene) -> Content {
    let mut page = Content::new(alloc);
    add_front(&mut page, layout, scene, console);
    if layout.count <= MOST_TIPS {
        add_plot(alloc, &mut page, layout, &tips(alloc, layout, scene));
    }
    page
}

/// The sentence of the threads that are deadlocked after the last event.
fn deadlock_content(alloc: Global, layout: &Layout, sentence: &str) -> Content
    ensures { HasWords result sentence.now }
{
    let mut content = Content::new(alloc);
    if sentence.is_empty() {
        return content;
    }
    content.words(
        Tag::Text,
        &[
            Attribute::words(Name::Class, Class::Bad.name()),
            Attribute::number(Name::X, 24),
            Attribute::number(Name::Y, layout.deadlocked_y),
        ],
        sentence.as_bytes(),
    );
    content
}
