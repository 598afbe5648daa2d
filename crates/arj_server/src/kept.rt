// What a server keeps of an action.
ghost use Rattle.std.specs.Prelude.{◌≡◌, ◌==◌, Some, IfOk, nat_lt};
ghost use Rattle.arj_protocol.specs.Server.{is_below};

use arj_base::Bytes;
use arj_class::Answer;
use arj_msg::InvokedReply;
use std::alloc::AllocError;
use std::marker::Model;

/// The last request of an action, with its answer. A repeat is answered with it.
#[derive(Drop)]
pub struct Kept {
    req: u32,
    answer: InvokedReply,
}

impl Model for Kept {
    ghost use Rattle.arj_protocol.specs.Server as server;

    ghost Value = { server.Kept };

    ghost view = { λ k. record { req = k.req; answer = k.answer } };
}

impl Kept {
    /// The answer of a request.
    pub fn new(req: u32, answer: InvokedReply) -> Kept
        ensures { result ≡ record { req = req; answer = answer } }
    {
        Kept { req, answer }
    }

    /// Whether this request is the one that is kept.
    pub fn is_of(&self, req: u32) -> bool
        ensures { result ≡ (self.now.req == req) }
    {
        self.req == req
    }

    /// Whether this request came before the one that is kept.
    pub fn is_after(&self, req: u32) -> bool
        ensures { result ≡ is_below req (Some self.now) }
    {
        req < self.req
    }

    /// The answer.
    pub fn answer(&self) -> Result<InvokedReply, AllocError>
        ensures { IfOk result (λ answer. answer ≡ self.now.answer) }
    {
        copy_reply(&self.answer)
    }
}

/// The same answer once more.
pub fn copy_reply(reply: &InvokedReply) -> Result<InvokedReply, AllocError>
    ensures { IfOk result (λ copy. copy ≡ reply.now) }
{
    Ok(match reply {
        InvokedReply::Answered(answer) => InvokedReply::Answered(copy_answer(answer)?),
        InvokedReply::Conflict { holder, mode } => InvokedReply::Conflict {
            holder: *holder,
            mode: *mode,
        },
        InvokedReply::Changed(what) => InvokedReply::Changed(*what),
    })
}

// The same answer of an operation.
fn copy_answer(answer: &Answer) -> Result<Answer, AllocError>
    ensures { IfOk result (λ copy. copy ≡ answer.now) }
{
    Ok(match answer {
        Answer::Done => Answer::Done,
        Answer::Number(number) => Answer::Number(*number),
        Answer::Text(bytes) => Answer::Text(copy_bytes(bytes)?),
        Answer::Over => Answer::Over,
        Answer::Short => Answer::Short,
        Answer::Full => Answer::Full,
        Answer::Nothing => Answer::Nothing,
        Answer::There => Answer::There,
        Answer::Gone => Answer::Gone,
    })
}

// The same bytes.
fn copy_bytes(bytes: &Bytes) -> Result<Bytes, AllocError>
    ensures { IfOk result (λ copy. copy ≡ bytes.now) }
{
    bytes.copy()
}
