//! One line of a script alone.
ghost use Rattle.std.specs.Prelude.{◌≡◌, ◌≤◌, ◌<◌, ◌+◌, [], IfOk, OnErr, OnOk, length};
ghost use Rattle.std.specs.List.{IsDistinct};
ghost use Rattle.std.specs.Str.{bytes_eq};
ghost use Rattle.kms_model.specs.Script.CommandLines.{line_read, place, saying, unmade, words_in};
ghost use Rattle.kms_script.specs.Stated.{GivesCommand, line_error};

use crate::lines::read_line;
use crate::stop::Stop;
use kms_model::{Command, NoMemory, Seq, Topology, Why};
use kms_words::Names;
use std::alloc::Global;
use std::marker::Model;

/// Why a line is no command that may stand behind given names.
#[derive(Clone, Copy, Debug, PartialEq, Eq)]
pub enum LineError {
    /// The line spells no command.
    Form,
    /// Two of the line's `+LABEL` words are equal.
    Label,
    /// The line has more than 256 assignments.
    Limit,
    /// Memory ran out. This says nothing of the line.
    NoMemory,
}

impl From<NoMemory> for LineError {
    ghost use Rattle.std.specs.Prelude.{◌≡◌};
    ghost use Rattle.kms_script.specs.declared.one_line.LineError.TheVariants as errors;

    ghost from_gives = { λ _ e. e ≡ errors.NoMemory };

    fn from(_e: NoMemory) -> LineError {
        LineError::NoMemory
    }
}

/// The error of a line by what stopped its reader.
fn line_error(stop: Stop) -> LineError
    ensures { result ≡ line_error stop }
{
    match stop {
        Stop::Fault(Why::Label) => LineError::Label,
        Stop::Fault(Why::Limit) => LineError::Limit,
        Stop::Fault(_) => LineError::Form,
        Stop::NoMemory => LineError::NoMemory,
    }
}

/// The names that lines say, with an index of them, for lines that are read one after the other. Contracts see the
/// profile of the lines' script and the list of names: labels, and names of properties that no property of this profile
/// has, each once in order of first occurrence.
#[derive(Drop)]
pub struct NameIndex {
    names: Names,
}

impl Model for NameIndex {
    ghost use Rattle.std.specs.Prelude.{◌≡◌};
    ghost use Rattle.kms_words.specs.Named.{Indexed, kept};

    ghost Value = { Indexed };

    ghost view = { λ n. n.names.before };

    ghost invariant = { λ n. n.names ≡ kept n.names.before.profile n.names.before.words };
}

impl NameIndex {
    /// No names, of a script with a profile, 1 or 2.
    pub fn new(alloc: Global, profile: u32) -> NameIndex
        ensures { result ≡ record { profile = profile; words = [] } }
    {
        NameIndex {
            names: Names::new(alloc, profile),
        }
    }

    /// The index of names that differ, at most 4,294,967,296 of them, of a script with a profile.
    pub fn of(alloc: Global, profile: u32, names: &[Seq<u8>]) -> Result<NameIndex, NoMemory>
        requires differ { IsDistinct bytes_eq names.now }
        requires few { length names.now ≤ 4294967296 }
        ensures { IfOk result (λ index. index ≡ record { profile = profile; words = names.now }) }
    {
        Ok(NameIndex {
            names: Names::from_words(alloc, profile, names)?,
        })
    }

    /// The number of a name that is said. Want of memory leaves the names as they were.
    pub fn say(&mut self, alloc: Global, word: &[u8]) -> Result<u32, NoMemory>
        requires few { length self.old.words < 4294967295 }
        ensures number { IfOk result (λ n. n
            ≡ place word.now (unmade self.old.profile self.old.words)) }
        ensures words { OnOk result (self.new.words
            ≡ words_in (saying word.now (unmade self.old.profile self.old.words))) }
        ensures profile { self.new.profile ≡ self.old.profile }
        ensures unchanged { OnErr result (self.new ≡ self.old) }
    {
        match self.names.say(alloc, word) {
            Ok(number) => {
                self.names.keep(alloc);
                Ok(number)
            }
            Err(e) => {
                self.names.undo(alloc);
                Err(e)
            }
        }
    }

    /// The names.
    pub fn into_names(self) -> Seq<Seq<u8>>
        ensures names { result ≡ self.words }
        ensures differ { IsDistinct bytes_eq result }
    {
        self.names.into_words()
    }
}

/// The command that a line spells, without its line feed. The line's new labels and unknown names of properties go
/// behind the names; a name is known where a property of the device's profile has it. The refusals come in the order
/// Form, Label, Limit, and leave the names as they were; that earlier lines make the line's labels is no matter of this
/// call. Each object may have any index to 255, whatever the device has.
///
/// The names must differ, as they do after this call, and with the line's bytes be fewer than 4,294,967,295. A call
/// goes over all of them: for many lines take a `NameIndex` and `read_command_with`.
pub fn read_command(
    alloc: Global,
    topology: &Topology,
    names: &mut Seq<Seq<u8>>,
    line: &[u8],
) -> Result<Command, LineError>
    requires differ { IsDistinct bytes_eq names.old }
    requires few { length names.old + length line.now < 4294967295 }
    ensures value { GivesCommand result
        (line_read topology.now.profile names.old line.now) names.new }
    ensures differ { IsDistinct bytes_eq names.new }
    ensures few { length names.new ≤ length names.old + length line.now + 2 }
    ensures unchanged { OnErr result (names.new ≡ names.old) }
{
    let mut index = NameIndex::of(alloc, topology.profile, names.as_slice())?;
    let command = read_command_with(alloc, &mut index, line)?;
    *names = index.into_names();
    Ok(command)
}

/// The command that a line spells, without its line feed, as `read_command` gives it, with an index of the names of
/// earlier lines. A call takes no longer for those than to find this line's names among them.
///
/// The names must with the line's bytes be fewer than 4,294,967,295.
pub fn read_command_with(
    alloc: Global,
    index: &mut NameIndex,
    line: &[u8],
) -> Result<Command, LineError>
    requires few { length index.old.words + length line.now < 4294967295 }
    ensures value { GivesCommand result
        (line_read index.old.profile index.old.words line.now) index.new.words }
    ensures profile { index.new.profile ≡ index.old.profile }
    ensures few { length index.new.words ≤ length index.old.words + length line.now + 2 }
    ensures unchanged { OnErr result (index.new ≡ index.old) }
{
    match read_line(&mut index.names, alloc, line) {
        Ok(command) => {
            index.names.keep(alloc);
            Ok(command)
        }
        Err(stop) => {
            index.names.undo(alloc);
            Err(line_error(stop))
        }
    }
}
