// A law of what is escaped.
ghost use Rattle.std.specs.Prelude.{◌≡◌, ℕ, List, true};
ghost use Rattle.arj_words.specs.Page.{escaped, is_text_alone};

/// Whatever bytes are escaped, no markup stands in what comes of them: neither `<` nor `>` nor a quote, and each ampersand begins an
/// entity. It does nothing when it runs.
pub fn escaped_is_text_alone()
    ensures { (bytes : List ℕ) → is_text_alone (escaped bytes) ≡ true }
{}
