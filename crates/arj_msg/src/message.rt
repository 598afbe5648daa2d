// The messages between nodes.
use arj_base::{Binding, Ends, Mode, NodeList, ObjectState, Path, Seq, States, Uid};
use arj_class::{Answer, Op};

/// Objects with the bindings that their action used.
pub type Binds = Seq<(u16, Binding)>;

/// Objects with the naming incarnations of their grants.
pub type Grants = Seq<(u16, u32)>;

/// Objects with stores.
pub type Marks = Seq<(u16, u8)>;

/// What an action met changed: the incarnation of a node, or the binding of an object to a server. Had, and now.
#[derive(Clone, Copy, PartialEq, Eq)]
pub enum What {
    /// A node has another incarnation.
    Inc { had: u32, now: u32 },
    /// An object has another binding.
    Bind { had: Binding, now: Binding },
}

/// Who asks: the path of the asking action, and the number of its request, by which it knows the answer.
#[derive(Clone, Copy)]
pub struct Head {
    pub path: Path,
    pub req: u32,
}

/// Who had asked: the action, and the number of its request.
#[derive(Clone, Copy, PartialEq, Eq)]
pub struct Asked {
    pub act: Uid,
    pub req: u32,
}

/// Asks naming for a server of an object, or with `include` for the write lock on its entry. `avoid` is the binding
/// whose server didn't serve, 0.0 if none.
#[derive(Clone, Copy)]
pub struct Bind {
    pub head: Head,
    pub x: u16,
    pub include: bool,
    pub avoid: Binding,
}

/// What naming answers to a Bind.
#[derive(Drop)]
pub enum BoundReply {
    /// The binding is recorded, its server active in this incarnation.
    Live {
        binding: Binding,
        server: u8,
        server_inc: u32,
        naming_inc: u32,
        stores: NodeList,
    },
    /// A new binding: the action activates the object at this server.
    Make {
        binding: Binding,
        server: u8,
        naming_inc: u32,
        stores: NodeList,
    },
    /// The entry is locked for an include.
    Write {
        naming_inc: u32,
        stores: NodeList,
    },
    /// Another action holds the entry.
    Conflict {
        holder: Uid,
        mode: Mode,
    },
}

/// Naming answers a Bind.
#[derive(Drop)]
pub struct Bound {
    pub asked: Asked,
    pub reply: BoundReply,
}

/// Asks a store for the committed state of an object.
#[derive(Clone, Copy)]
pub struct Load {
    pub head: Head,
    pub x: u16,
}

/// What a store answers to a Load.
#[derive(Drop)]
pub enum LoadedReply {
    /// The committed state.
    State(ObjectState),
    /// An action has prepared the object and isn't decided here.
    InDoubt { holder: Uid },
}

/// A store answers a Load.
#[derive(Drop)]
pub struct Loaded {
    pub asked: Asked,
    pub reply: LoadedReply,
}

/// Gives a server a copy of an object.
#[derive(Drop)]
pub struct Activate {
    pub head: Head,
    pub binding: Binding,
    pub state: ObjectState,
}

/// A server took a copy; it has this incarnation.
#[derive(Clone, Copy)]
pub struct Activated {
    pub asked: Asked,
    pub server_inc: u32,
}

/// Tells naming that a binding is in use.
#[derive(Clone, Copy)]
pub struct RecordMsg {
    pub head: Head,
    pub x: u16,
    pub binding: Binding,
    pub server_inc: u32,
    pub naming_inc: u32,
}

/// What naming answers to a RecordMsg.
#[derive(Clone, Copy)]
pub enum RecordedReply {
    /// The binding is recorded.
    Yes,
    /// It isn't: an incarnation or the binding changed.
    Changed(What),
}

/// Naming answers a RecordMsg.
#[derive(Clone, Copy)]
pub struct Recorded {
    pub asked: Asked,
    pub reply: RecordedReply,
}

/// Asks a server for one operation, after the ends that it may not know yet.
#[derive(Drop)]
pub struct Invoke {
    pub head: Head,
    pub x: u16,
    pub binding: Binding,
    pub server_inc: u32,
    pub ends: Ends,
    pub op: Op,
}

/// What a server answers to an Invoke.
#[derive(Drop)]
pub enum InvokedReply {
    /// The operation was done; this is its answer.
    Answered(Answer),
    /// Another action holds the object.
    Conflict { holder: Uid, mode: Mode },
    /// The server has another incarnation or binding.
    Changed(What),
}

/// A server answers an Invoke.
#[derive(Drop)]
pub struct Invoked {
    pub asked: Asked,
    pub reply: InvokedReply,
}

/// Asks a server for its vote: whether it still has the copies on which the top ran, and what they are now.
#[derive(Drop)]
pub struct Vote {
    pub head: Head,
    pub server_inc: u32,
    pub objects: Binds,
    pub ends: Ends,
}

/// What a server answers to a Vote.
#[derive(Drop)]
pub enum VotedReply {
    /// It has all; these are the states that the top changed.
    Yes(States),
    /// It has another incarnation or binding.
    Changed(What),
}

/// A server answers a Vote.
#[derive(Drop)]
pub struct Voted {
    pub asked: Asked,
    pub reply: VotedReply,
}

/// Asks a store to prepare states.
#[derive(Drop)]
pub struct Prepare {
    pub head: Head,
    pub states: States,
}

/// What a store answers to a Prepare.
#[derive(Clone, Copy)]
pub enum PreparedReply {
    /// All are prepared.
    Yes,
    /// Another action has prepared this object.
    InDoubt { x: u16, holder: Uid },
    /// The store holds this version of the object, which the new state doesn't follow.
    Old { x: u16, held: u64 },
}

/// A store answers a Prepare.
#[derive(Clone, Copy)]
pub struct Prepared {
    pub asked: Asked,
    pub reply: PreparedReply,
}

/// Asks naming to confirm the grants of a top, and to prepare entries without the excluded stores and with the
/// included ones.
#[derive(Drop)]
pub struct Confirm {
    pub head: Head,
    pub objects: Grants,
    pub excluded: Marks,
    pub included: Marks,
}

/// What naming answers to a Confirm.
#[derive(Clone, Copy)]
pub enum ConfirmedReply {
    /// All grants stand, and the changed entries are prepared.
    Yes,
    /// Another action holds an entry.
    Conflict { holder: Uid, mode: Mode },
    /// Naming has another incarnation.
    Changed(What),
    /// The object would have no store left.
    NoStores { x: u16 },
    /// The store is listed already.
    Listed { x: u16, node: u8 },
}

/// Naming answers a Confirm.
#[derive(Clone, Copy)]
pub struct Confirmed {
    pub asked: Asked,
    pub reply: ConfirmedReply,
}

/// Tells of ends of actions of a root, in the order in which they were decided; the last one is the one told. With
/// `ack` the teller waits for an Acked.
#[derive(Drop)]
pub struct Told {
    pub root: Uid,
    pub ack: bool,
    pub ends: Ends,
}

/// A Told about this action has been heard.
#[derive(Clone, Copy)]
pub struct Acked {
    pub act: Uid,
}

/// Asks how this action ended.
#[derive(Clone, Copy)]
pub struct Query {
    pub act: Uid,
}

/// A node is up again, in this incarnation.
#[derive(Clone, Copy)]
pub struct Hello {
    pub node: u8,
    pub inc: u32,
}

/// A message. Its kind in bytes is its place here, from 1: a request, then its answer, eight times; then four that
/// have no head.
#[derive(Drop)]
pub enum Message {
    Bind(Bind),
    Bound(Bound),
    Load(Load),
    Loaded(Loaded),
    Activate(Activate),
    Activated(Activated),
    RecordMsg(RecordMsg),
    Recorded(Recorded),
    Invoke(Invoke),
    Invoked(Invoked),
    Vote(Vote),
    Voted(Voted),
    Prepare(Prepare),
    Prepared(Prepared),
    Confirm(Confirm),
    Confirmed(Confirmed),
    Told(Told),
    Acked(Acked),
    Query(Query),
    Hello(Hello),
}
