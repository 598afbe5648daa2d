// Sentences for lines.
ghost use Rattle.arj_words.specs.Page.{Stays};

use crate::act_sentences::say_act;
use crate::{Names, Page};
use arj_journal::Body;

/// Says what a line of a journal tells.
pub fn say_body(page: &mut Page, names: &Names, body: &Body)
    ensures { Stays page.old.bytes page.new.bytes }
{
    say_act(page, names, body);
}
