// Naming with its pair of entries.
ghost use Rattle.std.specs.Prelude.{◌≡◌, ℕ, Bool};
ghost use Rattle.arj_base.specs.declared.binding.Binding.{Binding};
ghost use Rattle.arj_base.specs.declared.mode.End.{End};
ghost use Rattle.arj_base.specs.declared.path.Path.{Path};
ghost use Rattle.arj_base.specs.declared.uid.Uid.{Uid};
ghost use Rattle.arj_law_parts.specs.parts.Entries.{IsConfirmed, IsGoodNaming, IsGoodPair, IsNoted, Past, confirm_answer, names_after, wrote_of};
ghost use Rattle.arj_law_parts.specs.parts.Tops.{Fits, Owners};
ghost use Rattle.arj_protocol.specs.Confirm.{Grants, Marks, confirm, recovered_naming};
ghost use Rattle.arj_protocol.specs.Effect.{Pair};
ghost use Rattle.arj_protocol.specs.Naming.{Naming, bind, hello, note, told};

/// Naming stays good with its pair of entries, whatever comes: a Bind and a Record of a top, a Confirm, the end of any
/// action, told in any order and as often as may be, a server that comes back, and a restart from any good pair. A Confirm
/// is answered as its checks say: the store never refuses what they pass. It does nothing when it runs.
pub fn naming_stays_good()
    ensures bind { (owner : Owners) (past : Past) (p : Path) (x : ℕ) (include : Bool) (avoid : Binding) (n : Naming) (d : Pair) → Fits owner p → IsGoodNaming owner past n d
        → IsGoodNaming owner past (bind p x include avoid d n).part (names_after (bind p x include avoid d n).outs d) }
    ensures note { (owner : Owners) (past : Past) (p : Path) (x : ℕ) (b : Binding) (i g : ℕ) (n : Naming) (d : Pair) → Fits owner p → IsNoted p x n d → IsGoodNaming owner past n d
        → IsGoodNaming owner past (note p x b i g n).part (names_after (note p x b i g n).outs d) }
    ensures confirm { (owner : Owners) (past : Past) (p : Path) (grants : Grants) (excluded included : Marks) (n : Naming) (d : Pair) → Fits owner p → IsConfirmed past p included n d → IsGoodNaming owner past n d
        → IsGoodNaming owner past (confirm p grants excluded included d n).part (names_after (confirm p grants excluded included d n).outs d) }
    ensures answer { (owner : Owners) (past : Past) (p : Path) (grants : Grants) (excluded included : Marks) (n : Naming) (d : Pair) → Fits owner p → IsConfirmed past p included n d → IsGoodNaming owner past n d
        → (confirm p grants excluded included d n).reply ≡ confirm_answer p grants excluded included d n }
    ensures told { (owner : Owners) (past : Past) (u : Uid) (n : Naming) (d : Pair) → IsGoodNaming owner past n d → (e : End) → IsGoodNaming owner past (told u e d n).part (names_after (told u e d n).outs d) }
    ensures hello { (owner : Owners) (past : Past) (node inc : ℕ) (n : Naming) (d : Pair) → IsGoodNaming owner past n d → IsGoodNaming owner past (hello node inc n) d }
    ensures restart { (owner : Owners) (inc : ℕ) (d : Pair) → IsGoodPair owner d → IsGoodNaming owner (wrote_of d) (recovered_naming inc d) d }
{}
