// Changes of a coordinator, one after another.
ghost use Rattle.std.specs.Prelude.{◌≡◌};
ghost use Rattle.arj_protocol.specs.Coord.{Coord, Doing, on_doing};
ghost use Rattle.arj_protocol.specs.Words.{Uid};

/// What changes an action at work twice changes it at once. It does nothing when it runs.
pub fn doings_change_at_once()
    ensures { (u : Uid) (f g : Doing → Doing) (c : Coord) → on_doing u f (on_doing u g c) ≡ on_doing u (λ d. f (g d)) c }
{}
