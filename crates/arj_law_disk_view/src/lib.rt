//! The protocol is a run of the disk machine, object by object.
//!
//! `view/` has stores, entries and commits place by place, `names/` naming's memory, `running/` whole runs,
//! `deciding_lines/` the journal beside the machine.
#![tactic(auto)]
