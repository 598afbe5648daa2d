// How many lines of each kind are folded.
ghost use Rattle.arj_words.specs.Page.{Stays};

use crate::details::Detail;
use arj_words::{Names, Page, Word, say};

/// How many lines of the kinds that a long block only counts.
#[derive(Clone, Copy)]
pub struct Counts {
    pub sent: usize,
    pub got: usize,
    pub void: usize,
    pub lost: usize,
    pub locks: usize,
    pub copies: usize,
    pub states: usize,
}

/// No lines.
pub const NONE: Counts = Counts {
    sent: 0,
    got: 0,
    void: 0,
    lost: 0,
    locks: 0,
    copies: 0,
    states: 0,
};

impl Counts {
    /// One line more.
    pub fn count(&mut self, detail: Detail) {
        match detail {
            Detail::Sent => self.sent = self.sent.saturating_add(1),
            Detail::Got => self.got = self.got.saturating_add(1),
            Detail::Void => self.void = self.void.saturating_add(1),
            Detail::Lost => self.lost = self.lost.saturating_add(1),
            Detail::Lock => self.locks = self.locks.saturating_add(1),
            Detail::Copy => self.copies = self.copies.saturating_add(1),
            Detail::State => self.states = self.states.saturating_add(1),
        }
    }
}

/// Writes how many there were.
pub fn put_counts(page: &mut Page, names: &Names, counts: &Counts)
    ensures { Stays page.old.bytes page.new.bytes }
{
    say(
        page,
        names,
        b"          frames: @ sent, @ delivered, @ without effect, @ lost; changes of locks: @, of copies and bindings: @, of states: @\n",
        &[
            Word::Number(counts.sent as u64),
            Word::Number(counts.got as u64),
            Word::Number(counts.void as u64),
            Word::Number(counts.lost as u64),
            Word::Number(counts.locks as u64),
            Word::Number(counts.copies as u64),
            Word::Number(counts.states as u64),
        ],
    );
}
