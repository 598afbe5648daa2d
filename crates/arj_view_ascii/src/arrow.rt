// Arrows between the columns of nodes.

/// How many characters a column has.
pub const COLUMN: usize = 12;

/// An arrow from one column to another, with a word on it and its head.
#[derive(Clone, Copy)]
pub struct Arrow<'a> {
    pub from: usize,
    pub to: usize,
    pub word: &'a [u8],
    /// Its head where it points to the right, and where it points to the left.
    pub heads: (u8, u8),
}

/// The place of a node's column in a row.
pub fn place_of(node: usize) -> usize {
    node.saturating_sub(1).saturating_mul(COLUMN)
}

impl Arrow<'_> {
    // Its left end, and its right end.
    fn ends(&self) -> (usize, usize) {
        let (from, to) = (place_of(self.from), place_of(self.to));
        (from.min(to), from.max(to))
    }

    // The character where its head is, if it is at this place.
    fn head_at(&self, at: usize, left: usize, right: usize) -> Option<u8> {
        if self.from < self.to {
            if at.saturating_add(1) == right {
                return Some(self.heads.0);
            }
            return None;
        }
        if at == left.saturating_add(1) {
            return Some(self.heads.1);
        }
        None
    }

    // The character of its shaft at this place: that of its word, or a dash.
    fn shaft_at(&self, at: usize, left: usize) -> u8 {
        let behind = at.saturating_sub(left.saturating_add(2));
        if at < left.saturating_add(2) {
            return b'-';
        }
        match self.word.get(behind) {
            Some(byte) => *byte,
            None => b'-',
        }
    }

    /// Its character at this place of a row, if it goes there.
    pub fn at(&self, at: usize) -> Option<u8> {
        let (left, right) = self.ends();
        if at <= left || right <= at {
            return None;
        }
        if let Some(head) = self.head_at(at, left, right) {
            return Some(head);
        }
        Some(self.shaft_at(at, left))
    }
}
