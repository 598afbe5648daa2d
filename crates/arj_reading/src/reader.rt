// The reader of a whole journal.
ghost use Rattle.std.specs.Prelude.{◌≡◌, ◌<◌, ◌^◌, Some, None, Err, IfOk, IfErr, length};
ghost use Rattle.arj_reading.specs.Readable.{Readable, broken};
ghost use Rattle.arj_reading.specs.Reading.{HasRead};
ghost use Rattle.arj_reading.specs.declared.fault.CheckFault.TheVariants as check_fault;
ghost use Rattle.arj_reading.specs.declared.rule.Broken.{Broken as broken_type};

use crate::fault::CheckFault;
use crate::reading::Reading;
use crate::rule::Broken;
use crate::rules::rule_of;
use crate::take::take_line;
use arj_journal::{Header, Line};
use std::alloc::Global;

/// Reads a journal by the header of its script: what is read of it where each line keeps the rules, and else the first line
/// that breaks one.
pub fn read(alloc: Global, header: &Header, lines: &[Line]) -> Result<Reading, CheckFault>
    ensures read { IfOk result (λ reading. Readable header.now lines.now × HasRead lines.now reading) }
    ensures broken { (b : broken_type) → result ≡ Err (check_fault.Unreadable b) → broken header.now lines.now ≡ Some b }
{
    let mut reading = Reading::new(alloc);
    let mut last = 0;
    for (at, line) in lines.iter().enumerate() {
        if let Some(rule) = rule_of(&reading, header, last, line) {
            return Err(CheckFault::Unreadable(Broken { line: at + 1, rule }));
        }
        take_line(&mut reading, at, &line.body)?;
        last = line.event;
    }
    Ok(reading)
}
