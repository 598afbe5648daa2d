// What stands behind a front.
ghost use Rattle.std.specs.Prelude.{◌≡◌, ◌≢◌, ◌++◌, ℕ, List, MatchOption, IfSome, true};

use arj_text::field;

/// What stands behind a front, as `arj_text` cuts it off. Most lines differ from a front in the first byte, so that is
/// looked at first.
pub fn after<'a>(bytes: &'a [u8], front: &[u8]) -> Option<&'a [u8]>
    ensures cases { MatchOption result
        ((rest : List ℕ) → bytes.now ≢ front.now ++ rest)
        (λ rest. bytes.now ≡ front.now ++ rest.now) }
    ensures only { IfSome result
        (λ rest. (other : List ℕ) → bytes.now ≡ front.now ++ other → rest.now ≡ other) }
{
    if begin_apart(bytes, front) {
        return None;
    }
    field::after(bytes, front)
}

// Whether both have a first byte, and another one.
fn begin_apart(bytes: &[u8], front: &[u8]) -> bool
    ensures { result ≡ true → (rest : List ℕ) → bytes.now ≢ front.now ++ rest }
{
    match (bytes.first(), front.first()) {
        (Some(one), Some(other)) => *one != *other,
        _ => false,
    }
}
