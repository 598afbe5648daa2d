// A run over a source and a sink, line by line.
ghost use Rattle.std.specs.Prelude.{◌≡◌, ◌≢◌, ◌<◌, ◌≤◌, false, ℕ, List, [], ◌∷◌, ◌++◌, length, take, Option, None, OnOk, IfOk, IfErr, IsErrOf};
ghost use Rattle.arj_base.specs.Count.{Rose};
ghost use Rattle.arj_script.specs.Cutting.{in_hand};
ghost use Rattle.arj_script.specs.Grammar.{Start};
ghost use Rattle.arj_script.specs.Input.{AtEnd, AtRunEnd, ended_lines};
ghost use Rattle.arj_script.specs.declared.limits.TheConstants.{LINE_BYTES};
ghost use Rattle.arj_loop.specs.declared.limits.TheConstants.{READ_BYTES};
ghost use Rattle.arj_loop.specs.Input.{Arrived, Came, arrived, source_view};
ghost use Rattle.arj_loop.specs.Running.{StageOf, Gathers, Goes, IsGoing, IsAtLine, HasEnded, overflown, work};

use crate::asked::AskedSource;
use crate::ending::{BadLine, End};
use crate::gather::Gather;
use crate::limits::READ_BYTES;
use crate::machine::Machine;
use crate::run::Runner;
use arj_disk::{Disk, Rack};
use arj_io::{Failed, Sink};
use arj_journal::Lines;
use arj_script::{Full, LineCutter};
use std::alloc::{AllocError, Global};

/// What runs the lines, the line in hand, and the text that waits.
#[derive(Drop)]
pub struct Session<M> {
    pub runner: Runner<M>,
    pub cutter: LineCutter,
    pub gather: Gather,
}

impl<M> Session<M> {
    /// No byte has come.
    pub fn new(alloc: Global) -> Result<Session<M>, AllocError>
        ensures runner { IfOk result (λ session. (session.runner.reader ≡ Start) × (session.runner.machine ≡ None) × (session.runner.lines ≡ 0)) }
        ensures nothing { IfOk result (λ session. (session.cutter ≡ in_hand LINE_BYTES []) × (session.gather.waiting.items ≡ [])) }
    {
        let cutter = LineCutter::new(alloc)?;
        Ok(Session {
            runner: Runner::new(alloc),
            cutter,
            gather: Gather::new(alloc),
        })
    }

    /// Runs what comes from the source, line by line, until the run ends. The text of the lines that were run is written
    /// before more is read.
    pub fn run<S: AskedSource, K: Sink, D: Disk>(
        &mut self,
        source: &mut S,
        sink: &mut K,
        rack: &mut Rack<D>,
        journal: &mut Lines,
    ) -> End
    where
        M: Machine<D>,
        requires runner { (self.old.runner.reader ≡ Start) × (self.old.runner.machine ≡ None) × (self.old.runner.lines ≡ 0) }
        requires nothing { (self.old.cutter ≡ in_hand LINE_BYTES []) × (self.old.gather.waiting.items ≡ []) }
        requires fresh { journal.old ≡ [] }
        requires ready { M.ready rack.old }
        ensures ended { (given : Arrived) × Came (source_view (S.left source.old) (S.faults source.old)) (source_view (S.left source.new) (S.faults source.new)) given
            × HasEnded M.Machine rack.old (K.taken sink.old) given (work rack.new self.new journal.new (K.taken sink.new)) result }
        ensures fault { result ≡ End.Write → Rose (K.faults sink.old) (K.faults sink.new) }
        ensures steady { result ≢ End.Write → K.faults sink.new ≡ K.faults sink.old }
        ensures later { K.faults sink.old ≤ K.faults sink.new }
    {
        let mut came: usize = 0;
        loop {
            match self.gather.flush(sink) {
                Ok(()) => {}
                Err(Failed) => return End::Write,
            }
            let mut buffer = [0; READ_BYTES];
            let Ok(count) = source.ask(journal, sink, &mut buffer) else {
                return End::Fault;
            };
            if count == 0 {
                return self.last(sink, rack, journal);
            }
            match self.piece(&buffer[..count], sink, rack, journal) {
                Ok(()) => came += count,
                Err(end) => return end,
            }
        }
    }

    // Runs the lines that end in a piece.
    fn piece<K: Sink, D: Disk>(
        &mut self,
        piece: &[u8],
        sink: &mut K,
        rack: &mut Rack<D>,
        journal: &mut Lines,
    ) -> Result<(), End>
    where
        M: Machine<D>,
        requires going { Goes M.Machine (work rack.old self.old journal.old (K.taken sink.old)) }
        ensures went { OnOk result ((first : List D) (before : Option (List ℕ)) (used : List ℕ) → IsGoing M.Machine first before used (work rack.old self.old journal.old (K.taken sink.old))
            → IsGoing M.Machine first before (used ++ piece.now) (work rack.new self.new journal.new (K.taken sink.new))) }
        ensures ended { IfErr result (λ end. (first : List D) (before : Option (List ℕ)) (used earlier : List ℕ) → IsGoing M.Machine first before used (work rack.old self.old journal.old (K.taken sink.old))
            → length piece.now ≤ READ_BYTES → length (ended_lines earlier) ≤ length (ended_lines used)
            → HasEnded M.Machine first before (arrived (used ++ piece.now) earlier AtRunEnd) (work rack.new self.new journal.new (K.taken sink.new)) end) }
        ensures fault { IsErrOf result End.Write → Rose (K.faults sink.old) (K.faults sink.new) }
        ensures steady { OnOk result (K.faults sink.new ≡ K.faults sink.old) }
        ensures no_fault { IfErr result (λ end. end ≢ End.Write → K.faults sink.new ≡ K.faults sink.old) }
        ensures later { K.faults sink.old ≤ K.faults sink.new }
    {
        let mut rest = piece;
        while !rest.is_empty() {
            match self.feed(rest, sink, rack, journal) {
                Ok(count) => rest = &rest[count..],
                Err(end) => return Err(end),
            }
        }
        Ok(())
    }

    // Takes bytes from the front of these, and runs the line that they end, if they end one. Answers how many were taken.
    fn feed<K: Sink, D: Disk>(
        &mut self,
        bytes: &[u8],
        sink: &mut K,
        rack: &mut Rack<D>,
        journal: &mut Lines,
    ) -> Result<usize, End>
    where
        M: Machine<D>,
        requires some { 0 < length bytes.now }
        requires going { Goes M.Machine (work rack.old self.old journal.old (K.taken sink.old)) }
        ensures taken { IfOk result (λ count. (0 < count) × (count ≤ length bytes.now)) }
        ensures went { IfOk result (λ count. (first : List D) (before : Option (List ℕ)) (used : List ℕ) → IsGoing M.Machine first before used (work rack.old self.old journal.old (K.taken sink.old))
            → IsGoing M.Machine first before (used ++ take count bytes.now) (work rack.new self.new journal.new (K.taken sink.new))) }
        ensures ended { IfErr result (λ end. (first : List D) (before : Option (List ℕ)) (used earlier : List ℕ) → IsGoing M.Machine first before used (work rack.old self.old journal.old (K.taken sink.old))
            → length bytes.now ≤ READ_BYTES → length (ended_lines earlier) ≤ length (ended_lines used)
            → HasEnded M.Machine first before (arrived (used ++ bytes.now) earlier AtRunEnd) (work rack.new self.new journal.new (K.taken sink.new)) end) }
        ensures fault { IsErrOf result End.Write → Rose (K.faults sink.old) (K.faults sink.new) }
        ensures steady { OnOk result (K.faults sink.new ≡ K.faults sink.old) }
        ensures no_fault { IfErr result (λ end. end ≢ End.Write → K.faults sink.new ≡ K.faults sink.old) }
        ensures later { K.faults sink.old ≤ K.faults sink.new }
    {
        let fed = self.cutter.feed(bytes);
        match fed.full {
            Full::No => Ok(fed.used),
            Full::Long => Err(End::Bad(BadLine::TooLong)),
            Full::Line => match self.line(sink, rack, journal) {
                Ok(()) => {
                    self.cutter.clear();
                    Ok(fed.used)
                }
                Err(end) => Err(end),
            },
        }
    }

    // Runs the line that the input's end leaves in hand, if it leaves one.
    fn last<K: Sink, D: Disk>(
        &mut self,
        sink: &mut K,
        rack: &mut Rack<D>,
        journal: &mut Lines,
    ) -> End
    where
        M: Machine<D>,
        requires going { Goes M.Machine (work rack.old self.old journal.old (K.taken sink.old)) }
        ensures ended { (first : List D) (before : Option (List ℕ)) (used earlier : List ℕ) → IsGoing M.Machine first before used (work rack.old self.old journal.old (K.taken sink.old))
            → length (ended_lines earlier) ≤ length (ended_lines used) → HasEnded M.Machine first before (arrived used earlier AtEnd) (work rack.new self.new journal.new (K.taken sink.new)) result }
        ensures fault { result ≡ End.Write → Rose (K.faults sink.old) (K.faults sink.new) }
        ensures steady { result ≢ End.Write → K.faults sink.new ≡ K.faults sink.old }
        ensures later { K.faults sink.old ≤ K.faults sink.new }
    {
        if self.cutter.line().is_empty() {
            return self.runner.at_end();
        }
        match self.line(sink, rack, journal) {
            Ok(()) => self.runner.at_end(),
            Err(end) => end,
        }
    }

    // Runs the line in hand, and puts the text of its lines behind what waits.
    fn line<K: Sink, D: Disk>(
        &mut self,
        sink: &mut K,
        rack: &mut Rack<D>,
        journal: &mut Lines,
    ) -> Result<(), End>
    where
        M: Machine<D>,
        requires stage { (first : List D) × (done : List (List ℕ)) × StageOf M.Machine first rack.old done self.old.runner journal.old }
        requires going { overflown M.Machine self.old.runner.machine ≡ false }
        ensures going { OnOk result (overflown M.Machine self.new.runner.machine ≡ false) }
        ensures kept { OnOk result (self.new.cutter ≡ self.old.cutter) }
        ensures went { OnOk result ((first : List D) (done : List (List ℕ)) → StageOf M.Machine first rack.old done self.old.runner journal.old
            → StageOf M.Machine first rack.new (done ++ self.old.cutter.line ∷ []) self.new.runner journal.new) }
        ensures gathers { OnOk result ((before : Option (List ℕ)) → Gathers journal.old self.old.gather.waiting.items before (K.taken sink.old)
            → Gathers journal.new self.new.gather.waiting.items before (K.taken sink.new)) }
        ensures ended { IfErr result (λ end. (first : List D) (before : Option (List ℕ)) (given : Arrived) (done : List (List ℕ))
            → IsAtLine M.Machine first before given done (work rack.old self.old journal.old (K.taken sink.old)) → HasEnded M.Machine first before given (work rack.new self.new journal.new (K.taken sink.new)) end) }
        ensures fault { IsErrOf result End.Write → Rose (K.faults sink.old) (K.faults sink.new) }
        ensures steady { OnOk result (K.faults sink.new ≡ K.faults sink.old) }
        ensures no_fault { IfErr result (λ end. end ≢ End.Write → K.faults sink.new ≡ K.faults sink.old) }
        ensures later { K.faults sink.old ≤ K.faults sink.new }
    {
        let before = journal.as_slice().len();
        match self.runner.line(self.cutter.line(), rack, journal) {
            Ok(()) => {}
            Err(end) => return Err(end),
        }
        match self.gather.put_lines(&journal.as_slice()[before..], sink) {
            Ok(()) => {}
            Err(end) => return Err(end),
        }
        if self.runner.is_overflown::<D>() {
            return Err(End::Frames);
        }
        Ok(())
    }
}
