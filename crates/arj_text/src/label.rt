// The names that a script gives to actions.
ghost use Rattle.std.specs.Prelude.{◌≡◌, ◌≤◌, ◌-◌, length, drop, replicate};
ghost use Rattle.std.proofs.Common.{rules};
ghost use Rattle.std.specs.Cmp.{partial_order_from_own_ties};
ghost use Rattle.std.specs.Cmp.Rules.{comparing};
ghost use Rattle.std.specs.Cmp.Lexicographic.{slice_cmp};
ghost use Rattle.std.specs.Ordering.{is_eq, nat_cmp, on, as_partial_cmp};
ghost use Rattle.arj_text.specs.declared.label.TheConstants.{LABEL_BYTES};

use std::cmp::Ordering;

/// The most bytes that a label has.
pub const LABEL_BYTES: usize = 16;

/// A label: a letter followed by at most 15 letters or digits, padded with zeros. Two labels are one exactly where
/// their bytes are.
#[derive(Clone, Copy, Debug)]
pub struct Label {
    pub len: u8,
    pub text: [u8; LABEL_BYTES],
    ghost whole: { length text ≡ LABEL_BYTES },
    ghost short: { len ≤ LABEL_BYTES },
    ghost zeros: { drop len text ≡ replicate (LABEL_BYTES - len) 0 },
}

impl Label {
    ghost use Rattle.arj_text.specs.Label.{name};

    /// The label with these bytes.
    pub fn new(bytes: &[u8]) -> Label
        requires { length bytes.now ≤ LABEL_BYTES }
        ensures { name result ≡ bytes.now }
    {
        let mut text = [0; LABEL_BYTES];
        text[..bytes.len()].copy_from_slice(bytes);
        Label {
            len: bytes.len() as u8,
            text,
        }
    }

    /// The bytes without the padding.
    pub fn as_bytes(&self) -> &[u8]
        ensures { result.now ≡ name self.now }
    {
        &self.text[..usize::from(self.len)]
    }
}

// Labels are compared by their bytes.
impl Ord for Label {
    ghost use Rattle.arj_text.specs.Label.{name};

    ghost cmp = { on name (slice_cmp nat_cmp) };

    ghost total = { Prim.search (comparing, rules) };

    ghost matches_partial_cmp = { Prim.search (comparing, rules) };

    ghost matches_eq = { Prim.search (comparing, rules) };

    fn cmp(&self, other: &Label) -> Ordering {
        self.as_bytes().cmp(other.as_bytes())
    }
}

impl PartialOrd for Label {
    ghost use Rattle.arj_text.specs.Label.{name};

    ghost partial_cmp = { as_partial_cmp (on name (slice_cmp nat_cmp)) };

    ghost laws = { partial_order_from_own_ties (Prim.search (comparing, rules)) (Prim.search (comparing, rules)) };

    fn partial_cmp(&self, other: &Label) -> Option<Ordering> {
        Some(self.cmp(other))
    }
}

impl PartialEq for Label {
    ghost use Rattle.arj_text.specs.Label.{name};

    ghost eq = { λ a b. is_eq (on name (slice_cmp nat_cmp) a b) };

    ghost laws = { Prim.search (comparing, rules) };

    fn eq(&self, other: &Label) -> bool {
        self.cmp(other) == Ordering::Equal
    }
}

impl Eq for Label {
    ghost use Rattle.arj_text.specs.Label.{name};

    ghost laws = { Prim.search (comparing, rules) };
}
