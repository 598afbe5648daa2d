// Laws of every call.
ghost use Rattle.std.specs.Prelude.{◌≡◌, ◌<◌, ℕ, Bool, Option, None};
ghost use Rattle.arj_msg.specs.declared.message.Message.{Message};
ghost use Rattle.arj_protocol.specs.Ask.{Reply, reply_kind};
ghost use Rattle.arj_protocol.specs.Call.{Known, Goal, At, Steps, answered, given_up};
ghost use Rattle.arj_protocol.specs.Coord.{Keeping};
ghost use Rattle.arj_bind.specs.Heard.{Onward, heard_in, hears};
ghost use Rattle.arj_bind.specs.Laws.{kind_at, IsNext, IsAgain, KeepsOn};

/// A call's requests come in the order bind, load, activate, record, invoke, each once but for loads to further stores, and
/// a bind that is answered by a live binding is followed by the invoke. No message answers two requests of it. What a root
/// keeps of an object stays, with the first incarnation that was named, until a greater binding replaces it. It does nothing
/// when it runs.
pub fn calls_go_in_order()
    ensures order { (free : Bool) (kept : Option Known) (g : Goal) (at : At) (r : Reply) → reply_kind r ≡ kind_at at → IsNext at (answered free kept g at r).step }
    ensures again { (at : At) → IsAgain at (given_up at) }
    ensures once { (from : ℕ) (m : Message) (free : Bool) (k : Keeping) (s t : Steps) → s.req < 4294967295 → (hears free k s (heard_in from m s)).came ≡ Onward t → heard_in from m t ≡ None }
    ensures keeps { (free : Bool) (kept : Option Known) (g : Goal) (at : At) (r : Reply) → KeepsOn kept (answered free kept g at r).kept }
{}
