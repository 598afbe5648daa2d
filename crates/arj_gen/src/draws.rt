// The draws that make the transfers.
ghost use Rattle.std.specs.Prelude.{◌≡◌};
ghost use Rattle.arj_gen.specs.Bank.{behind_four, drawn, next_state, transfer_from};

/// What makes the draws: a congruential generator of 64 bits.
#[derive(Drop)]
pub struct Draws {
    pub state: u64,
}

/// A transfer of an amount from an account to another, that begins at a node.
#[derive(Clone, Copy)]
pub struct Transfer {
    pub node: u32,
    pub source: u16,
    pub target: u16,
    pub amount: u64,
}

// The state behind this one.
#[tactic(auto, using(crate::proofs::Counts::wraps))]
fn next_of(state: u64) -> u64
    ensures { result ≡ next_state state }
{
    state
        .wrapping_mul(6364136223846793005)
        .wrapping_add(1442695040888963407)
}

impl Draws {
    // The next draw, below 2^31.
    fn draw(&mut self) -> u64
        ensures drawn { result ≡ drawn self.old.state }
        ensures state { self.new.state ≡ next_state self.old.state }
    {
        self.state = next_of(self.state);
        self.state / 8589934592
    }

    /// The next transfer.
    pub fn transfer(&mut self) -> Transfer
        ensures transfer { result ≡ transfer_from self.old.state }
        ensures state { self.new.state ≡ behind_four self.old.state }
    {
        let node = 1 + (self.draw() % 5) as u32;
        let source = 1 + (self.draw() % 20) as u16;
        let target = 1 + (source + (self.draw() % 19) as u16) % 20;
        let amount = 1 + self.draw() % 5;
        Transfer {
            node,
            source,
            target,
            amount,
        }
    }
}
