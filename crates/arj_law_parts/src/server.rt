// A server in an incarnation.
ghost use Rattle.std.specs.Prelude.{◌≡◌, ◌⊎◌, ℕ, Bool, List, Some, false, true};
ghost use Rattle.arj_base.specs.Path.{uids_of};
ghost use Rattle.arj_base.specs.Rows.{last_uid};
ghost use Rattle.arj_base.specs.declared.binding.Binding.{Binding};
ghost use Rattle.arj_base.specs.declared.mode.End.{End};
ghost use Rattle.arj_base.specs.declared.path.Path.{Path};
ghost use Rattle.arj_base.specs.declared.state.ObjectState.{ObjectState};
ghost use Rattle.arj_base.specs.declared.uid.Uid.{Uid};
ghost use Rattle.arj_law_parts.specs.parts.Copies.{IsTree, Paths};
ghost use Rattle.arj_law_parts.specs.parts.Servers.{AreInTurn, IsGoodServer, IsKeptCall};
ghost use Rattle.arj_protocol.specs.Server.{Server, activate, invoke, told, vote};
ghost use Rattle.arj_protocol.specs.Words.invoked;
ghost use Rattle.arj_protocol.specs.Words.{Answer, Head, Op, mode_code, op_mode};

/// The lock of a call that ran stands at a server, under each call with ends in their turn, until the root's end is told or
/// an abort of an action on the call's path: by each commit it goes up the path. It does nothing when it runs.
pub fn calls_keep_their_locks()
    ensures ran { (n : ℕ) (h : Head) (x : ℕ) (b : Binding) (i : ℕ) (ends : List (Uid × End)) (op : Op) (s : Server) (a : Answer) → (invoke n h x b i ends op s).reply ≡ Some (invoked.Answered a)
        → ((invoke n h x b i ends op s).part ≡ s) ⊎ IsKeptCall (uids_of h.path) x b (mode_code (op_mode op)) (invoke n h x b i ends op s).part }
    ensures activate { (path : List Uid) (x : ℕ) (b : Binding) (k : ℕ) (n : ℕ) (p : Path) (a : Binding) (st : ObjectState) (s : Server) → IsKeptCall path x b k s → IsKeptCall path x b k (activate n p a st s).part }
    ensures invoke { (paths : Paths) → IsTree paths → (path : List Uid) → path ≡ paths (last_uid path) → (x : ℕ) (b : Binding) (k : ℕ) (n : ℕ) (h : Head) (y : ℕ) (a : Binding) (i : ℕ) (ends : List (Uid × End)) (op : Op) (s : Server)
        → AreInTurn n ends s → IsGoodServer paths s → IsKeptCall path x b k s → IsKeptCall path x b k (invoke n h y a i ends op s).part }
    ensures vote { (paths : Paths) → IsTree paths → (path : List Uid) → path ≡ paths (last_uid path) → (x : ℕ) (b : Binding) (k : ℕ) (n : ℕ) (p : Path) (i : ℕ) (ties : List (ℕ × Binding)) (ends : List (Uid × End)) (s : Server)
        → AreInTurn n ends s → IsGoodServer paths s → IsKeptCall path x b k s → IsKeptCall path x b k (vote n p i ties ends s).part }
    ensures told { (paths : Paths) → IsTree paths → (path : List Uid) → path ≡ paths (last_uid path) → (x : ℕ) (b : Binding) (k : ℕ) (n : ℕ) (ends : List (Uid × End)) (s : Server)
        → AreInTurn n ends s → IsGoodServer paths s → IsKeptCall path x b k s → IsKeptCall path x b k (told n ends s).part }
{}
