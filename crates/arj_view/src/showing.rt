// What an input is shown as.
ghost use Rattle.std.specs.Prelude.{◌≡◌, IfOk, true};
ghost use Rattle.arj_seen.specs.Input.{IsSeen};
ghost use Rattle.arj_seen.specs.declared.seen.Seen.{Seen as seen_type};
ghost use Rattle.arj_view.specs.Shown.{Shows};
ghost use Rattle.arj_view_html.specs.Page.{page_text};
ghost use Rattle.arj_view_html.specs.declared.page.TheConstants.{BACK, FRONT};

use crate::way::Way;
use arj_base::Bytes;
use arj_seen::{Seen, SeenFault, see};
use arj_view_ascii::{Ups, write_ascii};
use arj_view_html::write_html;
use arj_view_text::write_text;
use arj_words::{Names, Page};
use std::alloc::{AllocError, Global};

// What was seen, as a text.
fn text_of(alloc: Global, seen: &Seen) -> Result<Bytes, AllocError> {
    let names = Names::new(alloc, &seen.header, seen.lines.as_slice())?;
    let mut page = Page::new(alloc);
    write_text(&mut page, &names, seen);
    page.finish()
}

// What was seen, as a chart.
fn chart_of(alloc: Global, seen: &Seen) -> Result<Bytes, AllocError> {
    let names = Names::new(alloc, &seen.header, seen.lines.as_slice())?;
    let mut page = Page::new(alloc);
    let mut ups = Ups::new(alloc)?;
    write_ascii(&mut page, &names, &mut ups, seen);
    page.finish()
}

// What was seen, as a page.
fn page_of(alloc: Global, seen: &Seen) -> Result<Bytes, AllocError>
    ensures { IfOk result (λ shown. shown ≡ page_text FRONT.now BACK.now seen.now) }
{
    let mut page = Page::new(alloc);
    write_html(alloc, &mut page, seen)?;
    page.finish()
}

// What was seen, shown.
fn show(alloc: Global, way: Way, seen: &Seen) -> Result<Bytes, AllocError>
    ensures { IfOk result (Shows way seen.now) }
{
    match way {
        Way::Text => text_of(alloc, seen),
        Way::Ascii => chart_of(alloc, seen),
        Way::Html => page_of(alloc, seen),
    }
}

/// An input, shown. It is shown only where it is a script, a line `journal`, and a journal.
pub fn view(alloc: Global, way: Way, input: &[u8]) -> Result<Bytes, SeenFault>
    ensures { IfOk result (λ shown. (seen : seen_type) × IsSeen input.now seen × Shows way seen shown) }
{
    let seen = see(alloc, input)?;
    let shown = show(alloc, way, &seen)?;
    Ok(shown)
}
