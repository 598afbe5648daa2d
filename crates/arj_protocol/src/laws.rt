// Laws of the protocol that hold whatever messages come.
ghost use Rattle.std.specs.Prelude.{◌≡◌, ◌==◌, ◌<◌, ◌^◌, ℕ, Bool, false, true, List, [], ◌++◌, length, Option, Some, None};
ghost use Rattle.std.specs.Ordering.{is_eq, is_lt};
ghost use Rattle.arj_base.specs.declared.mode.End.{End};
ghost use Rattle.arj_base.specs.declared.binding.Binding.{Binding};
ghost use Rattle.arj_base.specs.declared.path.Path.{Path};
ghost use Rattle.arj_base.specs.declared.state.ObjectState.{ObjectState};
ghost use Rattle.arj_base.specs.declared.uid.Uid.{Uid};
ghost use Rattle.arj_base.specs.Order.{binding_order};
ghost use Rattle.arj_base.specs.Path.{tops_of, uids_of};
ghost use Rattle.arj_base.specs.Uid.{entry, nobody, uid_eq};
ghost use Rattle.arj_class.specs.declared.op.Op.{Op};
ghost use Rattle.arj_class.specs.declared.value.Value.{Value};
ghost use Rattle.arj_class.specs.Forms.{ValueInForm, payload_of};
ghost use Rattle.arj_class.specs.Table.{class_of};
ghost use Rattle.arj_entry.specs.declared.entry.Entry.{Entry};
ghost use Rattle.arj_entry.specs.Entry.{entry_payload};
ghost use Rattle.arj_journal.specs.declared.body.Part.TheVariants as part;
ghost use Rattle.arj_journal.specs.declared.header.Header.{Header};
ghost use Rattle.arj_msg.specs.Ask.{asks, request};
ghost use Rattle.arj_msg.specs.declared.ask.Ask.{Ask};
ghost use Rattle.arj_msg.specs.declared.message.Asked.{Asked};
ghost use Rattle.arj_msg.specs.declared.message.Head.{Head};
ghost use Rattle.arj_msg.specs.declared.message.Message.{Message};
ghost use Rattle.arj_protocol.specs.Ask.{Reply, actor, answers, response, top_of, top_path};
ghost use Rattle.arj_protocol.specs.Asking.{again_all, heard};
ghost use Rattle.arj_protocol.specs.Confirm.{Grants, Marks, confirm, recovered_lines, recovered_naming};
ghost use Rattle.arj_protocol.specs.Coord.{Coord, Doing};
ghost use Rattle.arj_protocol.specs.Effect.{Disk, Effect, Intent, Pair, is_prepared};
ghost use Rattle.arj_protocol.specs.Ending.{acked, answer_query};
ghost use Rattle.arj_protocol.specs.Follow.{AreEntries, FitsStep, StepFollows, alone};
ghost use Rattle.arj_protocol.specs.Laws.{naming_rows, rows_after, server_rows, AreOfActions, AreUnknownAt, Grows, Holders, IsPathOf, LeavesCopy, LeavesObject, Local, NamingTable, OnlyEnds, OnlyTold, ServerTable, UnknownToNaming, UnknownToServer, effects_of, speaks};
ghost use Rattle.arj_protocol.specs.Naming as naming;
ghost use Rattle.arj_protocol.specs.Naming.{Naming};
ghost use Rattle.arj_protocol.specs.Node.{Parts, handle, whole};
ghost use Rattle.arj_protocol.specs.Order.{binding_eq, binding_less, uid_number};
ghost use Rattle.arj_protocol.specs.Says.{AreAll, is_coord_effect, is_naming_effect, is_server_effect};
ghost use Rattle.arj_protocol.specs.Server as server;
ghost use Rattle.arj_protocol.specs.Server.{Server, apply_ends, end_one, is_told, new_server};
ghost use Rattle.arj_protocol.specs.Step.{Input, Node, acts, step};
ghost use Rattle.arj_protocol.specs.Values.{entry_in, value_in};
ghost use Rattle.arj_protocol.specs.World as world;
ghost use Rattle.arj_protocol.specs.World.{World, bodies, numbered, run_event, steps};

/// A request and an answer are read back from their messages. It does nothing when it runs.
pub fn messages_read_back()
    ensures request { (h : Head) (a : Ask) → asks (request h a) ≡ Some (h, a) }
    ensures response { (a : Asked) (r : Reply) → answers (response a r) ≡ Some (a, r) }
    ensures apart { (a : Asked) (r : Reply) → asks (response a r) ≡ None }
{}

/// A value and a naming entry are read back from their payloads. It does nothing when it runs.
pub fn payloads_read_back()
    ensures value { (v : Value) → ValueInForm v → value_in (class_of v) (payload_of v) ≡ v }
    ensures entry { (e : Entry) → entry_in (entry_payload e) ≡ e }
{}

/// Uids and bindings may be compared as numbers: a Uid's number tells it from all others, and bindings whose counts have 32
/// bits stand in the order of their numbers. It does nothing when it runs.
pub fn names_compare_as_numbers()
    ensures uids { (u w : Uid) → (uid_number u == uid_number w) ≡ uid_eq u w }
    ensures uid { (u w : Uid) → uid_number u ≡ uid_number w → u ≡ w }
    ensures lesser { (b c : Binding) → b.count < 2 ^ 32 → c.count < 2 ^ 32 → binding_less b c ≡ is_lt (binding_order b c) }
    ensures same { (b c : Binding) → b.count < 2 ^ 32 → c.count < 2 ^ 32 → binding_eq b c ≡ is_eq (binding_order b c) }
{}

/// A step of a node, also one that a stop cuts, leaves all other nodes as they were, its frames have it as their sender,
/// and the lines that it appends are those of its effects. It does nothing when it runs.
pub fn steps_are_local()
    ensures local { (n : ℕ) (i : Input) (w : World) → Local n w (steps n i w) }
    ensures lines { (n : ℕ) (i : Input) (w : World) → (steps n i w).lines ≡ w.lines ++ numbered w.event (bodies n (length w.frames) (effects_of n i w)) }
{}

/// Whatever event is run, lines and frames are added behind those that are there. It does nothing when it runs.
pub fn events_only_add()
    ensures grows { (e : world.Asked) (w : World) → Grows w (run_event e w) }
{}

/// Each part has effects of its own alone: a server's lines are about locks on objects, copies and ends; naming's about
/// locks on entries, bindings, ends and entries that are prepared, with the work of these; a coordinator's speak of actions
/// by their labels, and it alone sends on its own and writes records. It does nothing when it runs.
pub fn parts_act_alone()
    ensures activate { (n : ℕ) (p : Path) (b : Binding) (st : ObjectState) (s : Server) → AreAll (is_server_effect n) (server.activate n p b st s).outs }
    ensures invoke { (n : ℕ) (h : Head) (x : ℕ) (b : Binding) (i : ℕ) (ends : List (Uid × End)) (op : Op) (s : Server)
        → AreAll (is_server_effect n) (server.invoke n h x b i ends op s).outs }
    ensures vote { (n : ℕ) (p : Path) (i : ℕ) (ties : List (ℕ × Binding)) (ends : List (Uid × End)) (s : Server)
        → AreAll (is_server_effect n) (server.vote n p i ties ends s).outs }
    ensures server_told { (n : ℕ) (ends : List (Uid × End)) (s : Server) → AreAll (is_server_effect n) (server.told n ends s).outs }
    ensures bind { (p : Path) (x : ℕ) (include : Bool) (avoid : Binding) (d : Pair) (n : Naming)
        → AreAll is_naming_effect (naming.bind p x include avoid d n).outs }
    ensures note { (p : Path) (x : ℕ) (b : Binding) (i g : ℕ) (n : Naming) → AreAll is_naming_effect (naming.note p x b i g n).outs }
    ensures confirm { (p : Path) (grants : Grants) (excluded included : Marks) (d : Pair) (n : Naming)
        → AreAll is_naming_effect (confirm p grants excluded included d n).outs }
    ensures naming_told { (u : Uid) (e : End) (d : Pair) (n : Naming) → AreAll is_naming_effect (naming.told u e d n).outs }
    ensures acts { (i : Input) (intents : List (Uid × Intent)) (c : Coord) → AreAll is_coord_effect (acts i intents c).outs }
    ensures heard { (from : ℕ) (a : Asked) (r : Reply) (intents : List (Uid × Intent)) (c : Coord) → AreAll is_coord_effect (heard from a r intents c).outs }
    ensures acked { (from : ℕ) (u : Uid) (intents : List (Uid × Intent)) (c : Coord) → AreAll is_coord_effect (acked from u intents c).outs }
    ensures query { (from : ℕ) (u : Uid) (intents : List (Uid × Intent)) (c : Coord) → AreAll is_coord_effect (answer_query from u intents c) }
    ensures again { (ds : List Doing) (c : Coord) → AreAll is_coord_effect (again_all ds c).outs }
{}

/// The locks of a server on an object change by the lines that its calls say, and by these alone. The path of a request is
/// that of its action. It does nothing when it runs.
pub fn server_locks_follow_lines()
    ensures activate { (h : Holders) (n x : ℕ) (p : Path) (b : Binding) (st : ObjectState) (s : Server)
        → ServerTable h n x s (server.activate n p b st s).outs (server.activate n p b st s).part }
    ensures invoke { (h : Holders) (n x : ℕ) (hd : Head) (y : ℕ) (b : Binding) (i : ℕ) (ends : List (Uid × End)) (op : Op) (s : Server)
        → IsPathOf h (actor hd.path) (uids_of hd.path) (tops_of hd.path) → AreOfActions ends
        → ServerTable h n x s (server.invoke n hd y b i ends op s).outs (server.invoke n hd y b i ends op s).part }
    ensures vote { (h : Holders) (n x : ℕ) (p : Path) (i : ℕ) (ties : List (ℕ × Binding)) (ends : List (Uid × End)) (s : Server) → AreOfActions ends
        → ServerTable h n x s (server.vote n p i ties ends s).outs (server.vote n p i ties ends s).part }
    ensures told { (h : Holders) (n x : ℕ) (ends : List (Uid × End)) (s : Server) → AreOfActions ends
        → ServerTable h n x s (server.told n ends s).outs (server.told n ends s).part }
{}

/// The locks of naming on an entry change by the lines that its calls say, and by these alone. They are held by the tops of
/// the paths. It does nothing when it runs.
pub fn naming_locks_follow_lines()
    ensures bind { (h : Holders) (x : ℕ) (p : Path) (y : ℕ) (include : Bool) (avoid : Binding) (d : Pair) (n : Naming)
        → IsPathOf h (top_of p) (top_path p) (tops_of p)
        → NamingTable h x n (naming.bind p y include avoid d n).outs (naming.bind p y include avoid d n).part }
    ensures note { (h : Holders) (x : ℕ) (p : Path) (y : ℕ) (b : Binding) (i g : ℕ) (n : Naming)
        → NamingTable h x n (naming.note p y b i g n).outs (naming.note p y b i g n).part }
    ensures confirm { (h : Holders) (x : ℕ) (p : Path) (grants : Grants) (excluded included : Marks) (d : Pair) (n : Naming)
        → IsPathOf h (top_of p) (top_path p) (tops_of p)
        → NamingTable h x n (confirm p grants excluded included d n).outs (confirm p grants excluded included d n).part }
    ensures told { (h : Holders) (x : ℕ) (u : Uid) (e : End) (d : Pair) (n : Naming) → uid_eq nobody u ≡ false
        → NamingTable h x n (naming.told u e d n).outs (naming.told u e d n).part }
    ensures hello { (h : Holders) (x node inc : ℕ) (n : Naming) → NamingTable h x n [] (naming.hello node inc n) }
{}

/// Over a whole step of a node that stays up, with all messages that it sends to itself, the locks of its server and of
/// naming are what the lines of the step make of those before; a server that starts has none, and naming has those that
/// its lines give back. The messages that are handled are by paths of their actions, with ends of actions. It does
/// nothing when it runs.
pub fn steps_follow_lines()
    ensures step { (h : Holders) (x : ℕ) (n : Node) (t : Parts) (hd : Header) (i : Input) → n.live ≡ Some t → FitsStep h n t i
        → StepFollows h n.number x t (step hd n i).outs (step hd n i).after.live }
    ensures server { (x inc : ℕ) → server_rows x (new_server inc) ≡ [] }
    ensures naming { (x inc : ℕ) (d : Pair) → AreEntries d.held
        → naming_rows x (recovered_naming inc d) ≡ rows_after alone 1 part.Naming (entry x) (recovered_lines (recovered_naming inc d)) [] }
{}

/// The rounds of a step handle all messages that a node sends to itself, whatever it did first: what follows a message
/// stands further on in the protocol. It does nothing when it runs.
pub fn rounds_leave_nothing()
    ensures empty { (n : ℕ) (t : Parts) (outs : List Effect) (d : Disk) → (whole n t outs d).queue ≡ [] }
{}

/// An end that was told before changes nothing, and one of which a part knows nothing changes nothing but the set of ended
/// actions; neither says a line. It does nothing when it runs.
pub fn unknown_ends_change_nothing()
    ensures again { (n : ℕ) (u : Uid) (e : End) (s : Server) → is_told u s ≡ true
        → ((end_one n u e s).outs ≡ []) × ((end_one n u e s).part ≡ s) }
    ensures server { (n : ℕ) (u : Uid) (e : End) (s : Server) → uid_eq nobody u ≡ false → UnknownToServer u s
        → ((end_one n u e s).outs ≡ []) × OnlyEnds s (end_one n u e s).part }
    ensures naming { (u : Uid) (e : End) (d : Pair) (n : Naming) → uid_eq nobody u ≡ false → UnknownToNaming u n → is_prepared u d ≡ false
        → ((naming.told u e d n).outs ≡ []) × OnlyTold n (naming.told u e d n).part }
{}

/// A message that doesn't speak of an object leaves its part of the server and of naming as it was, and so do ends of
/// which the object's part of the server knows nothing. It does nothing when it runs.
pub fn messages_leave_other_objects()
    ensures message { (x n : ℕ) (d : Disk) (t : Parts) (from : ℕ) (m : Message) → speaks x m ≡ false → LeavesObject x t (handle n d t from m) }
    ensures ends { (n x : ℕ) (ends : List (Uid × End)) (s : Server) → AreOfActions ends → AreUnknownAt x ends s → LeavesCopy x s (apply_ends n ends s).part }
{}
