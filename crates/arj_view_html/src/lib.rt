//! A run as one page of HTML, which stands alone: a picture of its frames, a slider over its lines, and at the place of the slider
//! the stores, the nodes and the locks.
//!
//! It stands on `arj_view_data`, `arj_last` and `arj_pending`, which tell of the run, and on `arj_words`. What it gives upward:
//! `write_html` appends exactly `page_text` of what was seen (`specs/Page.antt`): what is told of it, escaped, in a page that is the
//! same for each run. How the page draws that stands in `src/page.rt`, and nothing is proved of it.
#![tactic(auto)]

mod page;
mod writing;

pub use writing::write_html;
