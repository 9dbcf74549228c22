//! A command's line, or its first fault.
ghost use Rattle.std.specs.Prelude.{◌≡◌, ◌+◌, ◌≤◌, false, IfOk, OnOk, length};
ghost use Rattle.kms_model.specs.Script.WellFormed.{IsFitCommand};
ghost use Rattle.kms_script.specs.Lines.{GivesLine, line_of};
ghost use Rattle.kms_words.specs.Named.{HasRoomForNames, NamesGrow};

use crate::overlong::{fault_of_many, has_many};
use crate::stop::Stop;
use kms_model::{Command, Why};
use kms_words::{Names, command_of, split_at_byte};
use std::alloc::Global;

/// The command that a line spells after the names so far, or its first fault in the order Form, Label, Limit: two
/// labels made that are equal, and more than 256 assignments. Of a line with more no name is kept. The names that were
/// there before stay, and the script's profile with them.
pub fn read_line(names: &mut Names, alloc: Global, line: &[u8]) -> Result<Command, Stop>
    requires once { names.old.names.is_twice ≡ false }
    requires room { HasRoomForNames names.old.names (length line.now + 2) }
    ensures value { GivesLine result (line_of names.old.names line.now) names.new.names }
    ensures fit { IfOk result IsFitCommand }
    ensures once { OnOk result (names.new.names.is_twice ≡ false) }
    ensures grows { OnOk result (NamesGrow names.old.names names.new.names (length line.now + 2)) }
    ensures before { names.new.before ≡ names.old.before }
{
    let (keyword, fields) = split_at_byte(line, b' ');
    if keyword == b"atomic".as_slice() && has_many(fields) {
        return Err(Stop::Fault(fault_of_many(names, alloc, fields)?));
    }
    let Some(command) = command_of(names, alloc, line)? else {
        return Err(Stop::Fault(Why::Form));
    };
    if names.is_twice() {
        return Err(Stop::Fault(Why::Label));
    }
    Ok(command)
}
