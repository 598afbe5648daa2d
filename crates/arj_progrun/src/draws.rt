// The draws of a schedule.
ghost use Rattle.std.specs.Prelude.{◌≡◌};
ghost use Rattle.arj_gen.specs.Bank.{drawn, next_state};

/// The state behind this one: the draws are those of the generated banks.
#[tactic(auto, using(arj_gen::proofs::Counts::wraps))]
pub fn next_of(state: u64) -> u64
    ensures { result ≡ next_state state }
{
    state
        .wrapping_mul(6364136223846793005)
        .wrapping_add(1442695040888963407)
}
