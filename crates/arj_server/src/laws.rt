// Laws of what a server answers, and of the lines that it appends.
ghost use Rattle.std.specs.Prelude.{◌≡◌, ◌||◌, ℕ, List, false, true, None, Some};
ghost use Rattle.arj_base.specs.Path.{tops_of, uids_of};
ghost use Rattle.arj_base.specs.Uid.{object};
ghost use Rattle.arj_base.specs.declared.state.Class.{Class};
ghost use Rattle.arj_base.specs.declared.state.ObjectState.{ObjectState};
ghost use Rattle.arj_class.specs.Table.{has_op, own_class};
ghost use Rattle.arj_class.specs.declared.op.Op.{Op};
ghost use Rattle.arj_journal.specs.declared.body.Part.TheVariants as part;
ghost use Rattle.arj_msg.specs.declared.message.Activate.{Activate};
ghost use Rattle.arj_msg.specs.declared.message.Invoke.{Invoke};
ghost use Rattle.arj_msg.specs.declared.message.Told.{Told};
ghost use Rattle.arj_msg.specs.declared.message.Vote.{Vote};
ghost use Rattle.arj_msg.specs.declared.message.VotedReply.TheVariants as voted_as;
ghost use Rattle.arj_protocol.specs.Ask.{actor};
ghost use Rattle.arj_protocol.specs.Effect.{Effect, reply};
ghost use Rattle.arj_protocol.specs.Laws.{AreOfActions, Holders, IsPathOf, server_rows};
ghost use Rattle.arj_protocol.specs.Says.{AreAll, is_server_effect};
ghost use Rattle.arj_protocol.specs.Order.{at_uid, binding_less};
ghost use Rattle.arj_protocol.specs.Server.{Kept, Server, active_binding, changed_by, has_ended, is_below, new_server};
ghost use Rattle.arj_protocol.specs.Values.{state_value};
ghost use Rattle.arj_protocol.specs.World.{bodies, numbered};
ghost use Rattle.arj_server.specs.Calls.{activated, invoked, told, voted};
ghost use Rattle.arj_server.specs.Classes.{HasOp, IsOfClass};
ghost use Rattle.arj_server.specs.Lines.{said, rows_by_lines};
ghost use Rattle.arj_server.specs.Meaning.{AreBound, VoidWhere};

use arj_class::operations_keep;
use arj_protocol::server_locks_follow_lines;

/// The locks of a server on an object change by the lines that its calls append, and by these alone. The path of a
/// request is that of its action. It does nothing when it runs.
pub fn locks_follow_lines()
    ensures activate { (h : Holders) (n x : ℕ) (m : Activate) (s : Server)
        → server_rows x (activated n m s).part ≡ rows_by_lines h n part.Server (object x) (said (activated n m s).outs) (server_rows x s) }
    ensures invoke { (h : Holders) (n x : ℕ) (m : Invoke) (s : Server)
        → IsPathOf h (actor m.head.path) (uids_of m.head.path) (tops_of m.head.path) → AreOfActions m.ends
        → server_rows x (invoked n m s).part ≡ rows_by_lines h n part.Server (object x) (said (invoked n m s).outs) (server_rows x s) }
    ensures vote { (h : Holders) (n x : ℕ) (m : Vote) (s : Server) → AreOfActions m.ends
        → server_rows x (voted n m s).part ≡ rows_by_lines h n part.Server (object x) (said (voted n m s).outs) (server_rows x s) }
    ensures told { (h : Holders) (n x : ℕ) (m : Told) (s : Server) → AreOfActions m.ends
        → server_rows x (told n m s).part ≡ rows_by_lines h n part.Server (object x) (said (told n m s).outs) (server_rows x s) }
{
    server_locks_follow_lines();
}

/// What a server's call appends is all that a node makes of the call's effects, wherever it stands among frames. It
/// does nothing when it runs.
pub fn lines_are_all()
    ensures { (n k : ℕ) (outs : List Effect) → AreAll (is_server_effect n) outs → numbered 0 (bodies n k outs) ≡ said outs }
{}

/// Where a message is void, it changes nothing and appends nothing; everywhere else it is answered. It does nothing when it
/// runs.
pub fn messages_are_void_exactly()
    ensures activate { (n : ℕ) (m : Activate) (s : Server) → VoidWhere (has_ended m.head.path s || binding_less m.binding (active_binding m.state.uid.num s)) s (activated n m s) }
    ensures invoke { (n : ℕ) (m : Invoke) (s : Server) → VoidWhere (has_ended m.head.path s || is_below m.head.req (at_uid (actor m.head.path) s.kept)) s (invoked n m s) }
    ensures vote { (n : ℕ) (m : Vote) (s : Server) → VoidWhere (has_ended m.head.path s) s (voted n m s) }
{}

/// The last request of an action again is answered by what was kept, and nothing changes, whatever ends it brings. It
/// does nothing when it runs.
pub fn repeats_change_nothing()
    ensures { (n : ℕ) (m : Invoke) (s : Server) (k : Kept) → has_ended m.head.path s ≡ false → changed_by m.server_inc m.x m.binding s ≡ None
        → at_uid (actor m.head.path) s.kept ≡ Some k → k.req ≡ m.head.req → invoked n m s ≡ reply s k.answer }
{}

/// A yes is given in the incarnation of the request alone, and where each object is active by its binding. It does
/// nothing when it runs.
pub fn a_yes_is_of_one_life()
    ensures { (n : ℕ) (m : Vote) (s : Server) (states : List ObjectState) → (voted n m s).reply ≡ Some (voted_as.Yes states) → (m.server_inc ≡ s.inc) × AreBound s m.objects }
{}

/// An object's class stays at a server, also while the object is gone, whatever it is asked, as long as each state that is
/// activated as this object is of that class or says that one of that class is gone; so its operations may be asked. It does
/// nothing when it runs.
pub fn classes_stay()
    ensures empty { (x inc : ℕ) (k : Class) → IsOfClass x k (new_server inc) }
    ensures activate { (n x : ℕ) (k : Class) (m : Activate) (s : Server) → (x ≡ m.state.uid.num → own_class (state_value m.state) ≡ k)
        → IsOfClass x k s → IsOfClass x k (activated n m s).part }
    ensures invoke { (n x : ℕ) (k : Class) (m : Invoke) (s : Server) → IsOfClass x k s → IsOfClass x k (invoked n m s).part }
    ensures vote { (n x : ℕ) (k : Class) (m : Vote) (s : Server) → IsOfClass x k s → IsOfClass x k (voted n m s).part }
    ensures told { (n x : ℕ) (k : Class) (m : Told) (s : Server) → IsOfClass x k s → IsOfClass x k (told n m s).part }
    ensures may { (x : ℕ) (k : Class) (op : Op) (s : Server) → IsOfClass x k s → has_op k op ≡ true → HasOp x op s.objects }
{
    operations_keep();
}
