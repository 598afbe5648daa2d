// The run of a script, line by line.
ghost use Rattle.std.specs.Prelude.{◌≡◌, ◌≢◌, ◌≤◌, ◌<◌, ◌⊎◌, ◌+◌, true, false, ℕ, List, [], ◌∷◌, ◌++◌, length, None, OnOk, IfErr, IsErrOf, MatchBool, Some};
ghost use Rattle.arj_journal.specs.declared.body.Line.{Line};
ghost use Rattle.arj_journal.specs.ScriptForm.{EventInForm, HeaderInForm};
ghost use Rattle.arj_journal.specs.declared.event.Event.{Event as script_event};
ghost use Rattle.arj_journal.specs.declared.header.Header.{Header as script_header};
ghost use Rattle.arj_script.specs.Grammar.{HasForm, IsBadLine, Run, Start};
ghost use Rattle.arj_loop.specs.declared.ending.BadLine.{BadLine};
ghost use Rattle.arj_loop.specs.Forms.{IsBadBy};
ghost use Rattle.arj_loop.specs.Limits.{EndsAtFrames};
ghost use Rattle.arj_script.specs.declared.limits.TheConstants.{LINE_BYTES, SCRIPT_LINES};
ghost use Rattle.arj_loop.specs.Running.{StageOf, Started, Stepped, Refused, IsStanding, AsksTooMany, ChangedBy, HasRun, end_of, events_run, header_at, held_by, last_body, overflown};

use crate::ending::{BadLine, End};
use crate::machine::{EventFault, Machine, StartFault};
use crate::reading::read_item;
use arj_disk::{Disk, Rack};
use arj_journal::{Body, Event, Header, Lines, Which};
use arj_script::{Item, LINE_BYTES, Reader, SCRIPT_LINES};
use std::alloc::Global;

/// The reader, the machine once `run` was read, and how many lines were run.
#[derive(Drop)]
pub struct Runner<M> {
    alloc: Global,
    reader: Reader,
    machine: Option<M>,
    lines: u32,
}

impl<M> Runner<M> {
    /// No line was run.
    pub fn new(alloc: Global) -> Runner<M>
        ensures reader { result.reader ≡ Start }
        ensures machine { result.machine ≡ None }
        ensures lines { result.lines ≡ 0 }
    {
        Runner {
            alloc,
            reader: Reader::new(alloc),
            machine: None,
            lines: 0,
        }
    }

    /// Whether a frame didn't fit.
    pub fn is_overflown<D: Disk>(&self) -> bool
    where
        M: Machine<D>,
        ensures { result ≡ overflown M.Machine self.now.machine }
    {
        match &self.machine {
            Some(machine) => machine.is_over(),
            None => false,
        }
    }

    /// Hands the machine out, if `run` was read.
    pub fn take_machine(&mut self) -> Option<M>
        ensures { result ≡ self.old.machine }
    {
        self.machine.take()
    }

    /// How the run ends where the input was read to its end and every line was run.
    pub fn at_end(&self) -> End
        ensures { result ≡ end_of self.now.machine }
    {
        match &self.machine {
            Some(_) => End::Whole,
            None => End::Bad(BadLine::Missing),
        }
    }

    /// What the line outside events says that the end writes, if any.
    pub fn last_body(&self, end: End) -> Option<Body>
        requires { (why : BadLine) → end ≡ End.Bad why → self.now.lines ≤ SCRIPT_LINES }
        ensures { result ≡ last_body end self.now.lines }
    {
        match end {
            End::Bad(_) => Some(Body::Bad {
                line: self.lines + 1,
            }),
            End::Lines => Some(Body::Limit {
                which: Which::Lines,
            }),
            End::Labels => Some(Body::Limit {
                which: Which::Labels,
            }),
            End::Whole | End::Fault | End::Write | End::Memory | End::Frames | End::Format => None,
        }
    }

    // Whether the line is one too many. A line that is too long is bad wherever it stands.
    fn is_full(&self, line: &[u8]) -> bool
        ensures { MatchBool result ((SCRIPT_LINES ≤ self.now.lines) × (length line.now ≤ LINE_BYTES)) (length line.now ≤ LINE_BYTES → self.now.lines < SCRIPT_LINES) }
    {
        self.lines as usize >= SCRIPT_LINES && line.len() <= LINE_BYTES
    }

    // A line that asks for nothing.
    fn pass(&mut self) -> Result<(), End>
        requires { self.old.lines < SCRIPT_LINES }
        ensures passed { result ≡ Ok tt }
        ensures line { self.new ≡ record self.old { lines = self.old.lines + 1 } }
    {
        self.lines += 1;
        Ok(())
    }

    /// How many events were run.
    pub fn events<D: Disk>(&self) -> u32
    where
        M: Machine<D>,
        ensures { result ≡ events_run M.Machine self.now.machine }
    {
        match &self.machine {
            Some(machine) => machine.stepped(),
            None => 0,
        }
    }

    /// Runs a line. The end is Bad, Lines, Labels, Format or Memory. Where a frame didn't fit the line was run, and no other
    /// is to follow it.
    pub fn line<D: Disk>(
        &mut self,
        line: &[u8],
        rack: &mut Rack<D>,
        journal: &mut Lines,
    ) -> Result<(), End>
    where
        M: Machine<D>,
        requires stage { (first : List D) × (lines : List (List ℕ)) × StageOf M.Machine first rack.old lines self.old journal.old }
        requires going { overflown M.Machine self.old.machine ≡ false }
        ensures went { OnOk result ((first : List D) (lines : List (List ℕ)) → StageOf M.Machine first rack.old lines self.old journal.old
            → StageOf M.Machine first rack.new (lines ++ line.now ∷ []) self.new journal.new) }
        ensures grown { OnOk result ((added : List Line) × (journal.new ≡ journal.old ++ added)) }
        ensures full { OnOk result (overflown M.Machine self.new.machine ≡ true → EndsAtFrames journal.new) }
        ensures bad { (why : BadLine) → IsErrOf result (End.Bad why) → (self.old.lines < SCRIPT_LINES ⊎ (LINE_BYTES < length line.now))
            × IsBadLine self.old.reader line.now × IsBadBy why self.old.reader line.now }
        ensures many { IsErrOf result End.Lines → (SCRIPT_LINES ≤ self.old.lines) × (length line.now ≤ LINE_BYTES) }
        ensures kept { (((why : BadLine) × IsErrOf result (End.Bad why)) ⊎ IsErrOf result End.Lines) → (self.new.machine ≡ self.old.machine) × (self.new.lines ≡ self.old.lines)
            × (rack.new ≡ rack.old) }
        ensures labels { IsErrOf result End.Labels → (first : List D) (lines : List (List ℕ)) → StageOf M.Machine first rack.old lines self.old journal.old
            → (now : StageOf M.Machine first rack.new lines self.new journal.new) × (self.new.lines < SCRIPT_LINES) × AsksTooMany M.Machine now.header rack.new self.new.machine self.new.reader line.now }
        ensures labels_going { IsErrOf result End.Labels → overflown M.Machine self.new.machine ≡ false }
        ensures format { IsErrOf result End.Format → HasForm self.old.reader line.now Run × (self.old.lines < SCRIPT_LINES) × (self.old.machine ≡ None) × (self.new.machine ≡ None) × M.stopped rack.old rack.new × M.moved (header_at self.old.reader) [] rack.old rack.new }
        ensures still { IfErr result (λ end. end ≢ End.Memory → journal.new ≡ journal.old) }
        ensures only { IfErr result (λ end. (end ≢ End.Whole) × (end ≢ End.Fault) × (end ≢ End.Write) × (end ≢ End.Frames)) }
        ensures moved { (first : List D) (lines : List (List ℕ)) → (stage : StageOf M.Machine first rack.old lines self.old journal.old) → ChangedBy M.Machine stage.header self.old.reader line.now rack.old rack.new }
    {
        if self.is_full(line) {
            return Err(End::Lines);
        }
        match read_item(&mut self.reader, line) {
            Err(end) => Err(end),
            Ok(Item::Blank) => self.pass(),
            Ok(Item::Part) => self.pass(),
            Ok(Item::Run(header)) => self.start(header, rack),
            Ok(Item::Event(event)) => self.step(event, rack, journal),
        }
    }

    // Formats the disks. The end is Format or Memory.
    fn start<D: Disk>(&mut self, header: Header, rack: &mut Rack<D>) -> Result<(), End>
    where
        M: Machine<D>,
        requires form { HeaderInForm header }
        requires ready { M.ready rack.old }
        requires room { self.old.lines < SCRIPT_LINES }
        ensures started { OnOk result (Started M.Machine rack.old rack.new header self.new.machine) }
        ensures line { OnOk result ((self.new.reader ≡ self.old.reader) × (self.new.lines ≡ self.old.lines + 1)) }
        ensures format { IsErrOf result End.Format → (self.new.machine ≡ self.old.machine) × M.stopped rack.old rack.new }
        ensures only { IfErr result (λ end. (end ≡ End.Format) ⊎ (end ≡ End.Memory)) }
        ensures moved { M.moved header [] rack.old rack.new }
    {
        match M::format(self.alloc, header, rack) {
            Ok(machine) => {
                self.machine = Some(machine);
                self.lines += 1;
                Ok(())
            }
            Err(StartFault::Stopped) => Err(End::Format),
            Err(StartFault::Memory) => Err(End::Memory),
        }
    }

    // Runs an event. The end is Labels or Memory.
    fn step<D: Disk>(
        &mut self,
        event: Event,
        rack: &mut Rack<D>,
        journal: &mut Lines,
    ) -> Result<(), End>
    where
        M: Machine<D>,
        requires form { EventInForm event }
        requires step { IsStanding M.Machine rack.old journal.old self.old.machine }
        requires room { self.old.lines < SCRIPT_LINES }
        ensures ran { OnOk result (Stepped M.Machine (held_by rack.old self.old.machine journal.old) (held_by rack.new self.new.machine journal.new) event) }
        ensures line { OnOk result ((self.new.reader ≡ self.old.reader) × (self.new.lines ≡ self.old.lines + 1)) }
        ensures full { OnOk result (overflown M.Machine self.new.machine ≡ true → EndsAtFrames journal.new) }
        ensures labels { IsErrOf result End.Labels → Refused M.Machine (held_by rack.old self.old.machine journal.old) (held_by rack.new self.new.machine journal.new) event }
        ensures kept { IsErrOf result End.Labels → (journal.new ≡ journal.old) × (self.new.reader ≡ self.old.reader) × (self.new.lines ≡ self.old.lines) }
        ensures only { IfErr result (λ end. (end ≡ End.Labels) ⊎ (end ≡ End.Memory)) }
        ensures moved { (first : List D) (header : script_header) (events : List script_event) → HasRun M.Machine first header events (held_by rack.old self.old.machine journal.old) → M.moved header (event ∷ []) rack.old rack.new }
    {
        let Some(machine) = &mut self.machine else {
            unreachable!()
        };
        match machine.step(event, rack, journal) {
            Ok(()) => {
                self.lines += 1;
                Ok(())
            }
            Err(EventFault::Frames) => {
                self.lines += 1;
                Ok(())
            }
            Err(EventFault::Labels) => Err(End::Labels),
            Err(EventFault::Memory) => Err(End::Memory),
        }
    }
}
