// Which events of a script are crashes.
ghost use Rattle.std.specs.Prelude.{◌≡◌, ◌++◌, [], IfOk, OnOk, slice_get};
ghost use Rattle.std.specs.List.{cons_option};
ghost use Rattle.arj_pending.specs.Crashes.{crash_flags, flag_of as flag_of_line, is_crash_in, is_set};

use arj_seen::{Asked, ScriptLine};
use std::alloc::{AllocError, Global};

// Whether a line of a script asks for a crash, where it asks for an event.
fn flag_of(line: &ScriptLine) -> Option<bool>
    ensures { result ≡ flag_of_line line.now }
{
    match line.asked {
        Asked::Nothing => None,
        Asked::Settling => Some(false),
        Asked::Event => Some(line.text.as_slice().starts_with(b"crash ")),
    }
}

// One more, if there is one.
fn put(flags: &mut Vec<bool>, flag: Option<bool>) -> Result<(), AllocError>
    ensures { OnOk result (flags.new.items ≡ flags.old.items ++ cons_option flag []) }
{
    if let Some(flag) = flag {
        flags.push(flag)?;
    }
    Ok(())
}

/// Of each event of a script, from 1, whether it is a crash; the flag of event 0 says no.
pub fn crashes_of(alloc: Global, script: &[ScriptLine]) -> Result<Vec<bool>, AllocError>
    ensures { IfOk result (λ flags. flags.items ≡ crash_flags script.now) }
{
    let mut flags = Vec::new(alloc);
    flags.push(false)?;
    for line in script {
        put(&mut flags, flag_of(line))?;
    }
    Ok(flags)
}

/// Whether the event of a number is a crash.
pub fn is_crash(flags: &[bool], event: u32) -> bool
    ensures { result ≡ is_crash_in flags.now event }
{
    match flags.get(event as usize) {
        None => false,
        Some(flag) => *flag,
    }
}
