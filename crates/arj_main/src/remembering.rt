// A source that remembers.
ghost use Rattle.std.specs.Prelude.{◌≡◌, ◌<◌, ◌≤◌, ◌↔◌, Some, [], length, take, IfOk, OnOk, OnErr, IfSome, IfNone, IsNone};
ghost use Rattle.arj_base.specs.Count.{Rose};
ghost use Rattle.arj_io.specs.Told.{Gives, Takes};

use arj_base::Bytes;
use arj_io::{Failed, Source};
use std::alloc::Global;

/// A source over another one, which remembers the bytes that it gave, all of them, for as long as there is memory for them. Contracts
/// see the other source, and what is remembered.
#[derive(Drop)]
pub struct Remembering<S> {
    inner: S,
    given: Option<Bytes>,
}

impl<S: Source + Drop> Remembering<S> {
    /// A source over this one, of which nothing was read.
    pub fn new(alloc: Global, inner: S) -> Self
        ensures source { result.inner ≡ inner }
        ensures nothing { result.given ≡ Some [] }
    {
        Remembering {
            inner,
            given: Some(Bytes::new(alloc)),
        }
    }

    /// The bytes that were given, first given first. None where memory was wanting.
    pub fn into_given(self) -> Option<Bytes>
        ensures { result ≡ self.given }
    {
        let Remembering { inner: _, given } = self;
        given
    }
}

impl<S: Source> Source for Remembering<S> {
    ghost left = { λ s. S.left s.inner };

    ghost faults = { λ s. S.faults s.inner };

    fn read(&mut self, buf: &mut [u8]) -> Result<usize, Failed>
        requires { 0 < length buf.old }
        ensures within { IfOk result (λ n. n ≤ length buf.new) }
        ensures moved { IfOk result (λ n. Gives (S.left self.old.inner) (take n buf.new) (S.left self.new.inner)) }
        ensures end { IfOk result (λ n. IfSome (S.left self.old.inner) (λ bytes. (n ≡ 0) ↔ (bytes ≡ []))) }
        ensures untold { OnOk result (IfNone (S.left self.old.inner) (IsNone (S.left self.new.inner))) }
        ensures kept { OnErr result (S.left self.new.inner ≡ S.left self.old.inner) }
        ensures steady { OnOk result (S.faults self.new.inner ≡ S.faults self.old.inner) }
        ensures failed { OnErr result (Rose (S.faults self.old.inner) (S.faults self.new.inner)) }
        ensures later { S.faults self.old.inner ≤ S.faults self.new.inner }
        // What it gives is remembered behind what it gave before.
        ensures remembered { IfOk result (λ n. Takes self.old.given (take n buf.new) self.new.given) }
        ensures same { OnErr result (self.new.given ≡ self.old.given) }
    {
        let count = self.inner.read(buf)?;
        remember(&mut self.given, &buf[..count]);
        Ok(count)
    }
}

// Puts a piece behind what is remembered, or gives up remembering.
fn remember(given: &mut Option<Bytes>, piece: &[u8])
    ensures { Takes given.old piece.now given.new }
{
    let kept = match given {
        Some(bytes) => bytes.extend(piece).is_ok(),
        None => false,
    };
    if !kept {
        *given = None;
    }
}
