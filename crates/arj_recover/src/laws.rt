// How a restart of the protocol goes through.
ghost use Rattle.std.specs.Prelude.{◌≡◌, ◌∷◌, ◌++◌, ℕ};
ghost use Rattle.arj_journal.specs.declared.header.Header.{Header};
ghost use Rattle.arj_protocol.specs.Effect.{Disk, Do, Look};
ghost use Rattle.arj_protocol.specs.Step.{naming_at, naming_back, recovered_records, restart_outs};
ghost use Rattle.arj_recover.specs.Done.{begins_again, sent_again};

/// A restart of the protocol is what `restart` does, behind it what naming finds, behind that what `resume` does, and
/// last what is sent.
pub fn restarts_go_in_order()
    ensures { (hd : Header) (n inc : ℕ) (d : Disk) → restart_outs hd n inc d
        ≡ begins_again n inc ++ (naming_back (naming_at n inc d.names) ++ ((Do Look ∷ recovered_records n d.intents) ++ sent_again hd n inc d)) }
{}
