// What the words of the command line ask for.
ghost use Rattle.std.specs.Prelude.{◌≡◌, ◌<◌, ℕ, List, MatchBool, MatchOption};
ghost use Rattle.std.specs.Fmt.{decimal};
ghost use Rattle.arj_command.specs.Command.{IsAudit, IsCheck, IsImage, IsPlain, IsProgram, IsReplay, NamesBank, Says, most_banks};

/// What is asked for.
#[derive(Clone, Copy)]
pub enum Command {
    /// A script is read and run.
    Replay,
    /// The bank of a number is run.
    Bank(u32),
    /// A finished journal is checked.
    Check,
    /// Client programs are run.
    Program,
    /// An image is audited.
    Audit,
    /// A script is run, and its image written.
    Image,
    /// Nothing: the words aren't a command line.
    None,
}

// The second word, where the first of two is `generate`.
fn bank_word(words: &[String]) -> Option<&str>
    ensures { MatchOption result ((text : List ℕ) → NamesBank words.now text → ⊥) (λ word. NamesBank words.now word.now) }
{
    let [word, number] = words else {
        return None;
    };
    if word.as_str() != "generate" {
        return None;
    }
    Some(number.as_str())
}

// Whether a text begins with no `+`, and with a zero only where that is all of it.
fn is_plain(bytes: &[u8]) -> bool
    ensures { MatchBool result (IsPlain bytes.now) (IsPlain bytes.now → ⊥) }
{
    match bytes {
        [] => false,
        [first] => *first != b'+',
        [first, ..] => *first != b'0' && *first != b'+',
    }
}

// The number that a word says: of 32 bits, in decimal without leading zeros. It is read without memory.
fn bank_number(word: &str) -> Option<u32>
    ensures { MatchOption result ((n : ℕ) → n < most_banks → word.now ≡ decimal n → ⊥) (λ n. word.now ≡ decimal n) }
{
    if !is_plain(word.as_bytes()) {
        return None;
    }
    match word.parse::<u32>() {
        Ok(n) => Some(n),
        Err(_) => None,
    }
}

// Whether it is the one word `replay`.
fn is_replay(words: &[String]) -> bool
    ensures { MatchBool result (IsReplay words.now) (IsReplay words.now → ⊥) }
{
    let [word] = words else {
        return false;
    };
    word.as_str() == "replay"
}

// Whether it is the one word `check`.
fn is_check(words: &[String]) -> bool
    ensures { MatchBool result (IsCheck words.now) (IsCheck words.now → ⊥) }
{
    let [word] = words else {
        return false;
    };
    word.as_str() == "check"
}

// Whether it is the one word `program`.
fn is_program(words: &[String]) -> bool
    ensures { MatchBool result (IsProgram words.now) (IsProgram words.now → ⊥) }
{
    let [word] = words else {
        return false;
    };
    word.as_str() == "program"
}

// Whether it is the one word `audit`.
fn is_audit(words: &[String]) -> bool
    ensures { MatchBool result (IsAudit words.now) (IsAudit words.now → ⊥) }
{
    let [word] = words else {
        return false;
    };
    word.as_str() == "audit"
}

// Whether it is the one word `image`.
fn is_image(words: &[String]) -> bool
    ensures { MatchBool result (IsImage words.now) (IsImage words.now → ⊥) }
{
    let [word] = words else {
        return false;
    };
    word.as_str() == "image"
}

/// What the words ask for.
pub fn asked_for(words: &[String]) -> Command
    ensures { Says words.now result }
{
    if is_replay(words) {
        return Command::Replay;
    }
    if is_check(words) {
        return Command::Check;
    }
    if is_program(words) {
        return Command::Program;
    }
    if is_audit(words) {
        return Command::Audit;
    }
    if is_image(words) {
        return Command::Image;
    }
    let Some(word) = bank_word(words) else {
        return Command::None;
    };
    match bank_number(word) {
        Some(n) => Command::Bank(n),
        None => Command::None,
    }
}
