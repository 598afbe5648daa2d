// A row of a chart.
ghost use Rattle.arj_words.specs.Page.{Stays};

use crate::arrow::{Arrow, COLUMN};
use crate::up::Ups;
use arj_words::Page;

/// What is drawn in a row: how many columns there are, a mark at a node's column, and an arrow.
#[derive(Clone, Copy)]
pub struct Row<'a> {
    pub nodes: usize,
    pub mark: Option<(usize, u8)>,
    pub arrow: Option<Arrow<'a>>,
}

impl Row<'_> {
    // The character in the column of a node, from 1.
    fn column(&self, ups: &Ups, node: usize) -> u8 {
        if let Some((marked, mark)) = self.mark {
            if marked == node {
                return mark;
            }
        }
        if ups.is_up(node) { b'|' } else { b' ' }
    }

    // The character of the arrow at a place, or a space.
    fn between(&self, at: usize) -> u8 {
        let Some(arrow) = &self.arrow else {
            return b' ';
        };
        match arrow.at(at) {
            Some(byte) => byte,
            None => b' ',
        }
    }

    // The character at a place.
    fn at(&self, ups: &Ups, at: usize) -> u8 {
        let between = self.between(at);
        if at % COLUMN == 0 && between == b' ' {
            return self.column(ups, at / COLUMN + 1);
        }
        between
    }

    /// Draws the row, without its end.
    pub fn draw(&self, page: &mut Page, ups: &Ups)
        ensures { Stays page.old.bytes page.new.bytes }
    {
        for at in 0..self.nodes.saturating_mul(COLUMN) {
            page.put(&[self.at(ups, at)]);
        }
    }
}
