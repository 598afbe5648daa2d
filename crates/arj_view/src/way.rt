// The ways in which a run is shown.
ghost use Rattle.std.specs.Prelude.{◌≡◌, ◌≢◌, MatchOption};
ghost use Rattle.arj_view.specs.Ways.{way_word};

/// The ways in which a run is shown.
#[derive(Clone, Copy, Debug, PartialEq, Eq)]
pub enum Way {
    Text,
    Ascii,
    Html,
}

/// The way that a word asks for.
pub fn way_of(word: &str) -> Option<Way>
    ensures { MatchOption result ((way : Way) → word.now ≢ way_word way) (λ way. word.now ≡ way_word way) }
{
    if word == "text" {
        return Some(Way::Text);
    }
    if word == "ascii" {
        return Some(Way::Ascii);
    }
    if word == "html" {
        return Some(Way::Html);
    }
    None
}
