//! The commands that lines name, found by their client and number.
ghost use Rattle.std.specs.Prelude.{◌≡◌, ◌≤◌, ◌&&◌, ◌++◌, ◌∷◌, [], ℕ, List, IfOk, OnOk, length};
ghost use Rattle.kms_audit.specs.Indexed.{AreAnswered, AreEntries, AreLacking, AreSpeaking, IsIndexOf, NotesEntry, speaks};
ghost use Rattle.kms_model.specs.declared.reports.Report.{Report};
ghost use Rattle.kms_model.specs.Report.RightAnswers.{answers_are_whole, client_is_whole, entry_place, has_answer, is_to_entry, no_client_is_silent};

use crate::lines::{EntryFields, ReplyFields};
use kms_model::{Answered, NoMemory, Report};
use std::alloc::Global;
use std::collections::{BTreeMap, BTreeSet};

/// What the J and R lines of a report tell of commands, whoever made them. A look-up takes a time that grows with the logarithm
/// of the number of lines, whatever they say.
#[derive(Drop)]
pub struct Index {
    /// How many entries there are before the first of each command.
    entries: BTreeMap<(u32, u32), u32>,
    /// The commands that have an R line.
    answered: BTreeSet<(u32, u32)>,
    /// The clients that have an R line.
    speaking: BTreeSet<u32>,
}

/// What entries lack.
#[derive(Drop)]
pub struct Lacking {
    /// The clients that have an entry without an R line.
    clients: BTreeSet<u32>,
    /// Whether one of them has no R line at all.
    has_silent: bool,
}

/// Notes the place of an entry, unless its command was an entry before.
fn note_entry(
    entries: &mut BTreeMap<(u32, u32), u32>,
    entry: EntryFields,
    place: u32,
) -> Result<(), NoMemory>
    ensures { OnOk result ((journal : List (ℕ × ℕ)) → length journal ≡ place
        → AreEntries journal entries.old → AreEntries (journal ++ entry ∷ []) entries.new) }
{
    if entries.contains_key(&entry) {
        return Ok(());
    }
    entries.insert(entry, place)?;
    Ok(())
}

/// The places of entries.
fn entries_of(alloc: Global, journal: &[EntryFields]) -> Result<BTreeMap<(u32, u32), u32>, NoMemory>
    requires { length journal.now ≤ 67108864 }
    ensures { IfOk result (AreEntries journal.now) }
{
    let mut entries = BTreeMap::new(alloc);
    for (place, entry) in journal.iter().enumerate() {
        note_entry(&mut entries, *entry, place as u32)?;
    }
    Ok(entries)
}

/// The commands that have an R line.
fn answered_of(alloc: Global, replies: &[ReplyFields]) -> Result<BTreeSet<(u32, u32)>, NoMemory>
    ensures { IfOk result (AreAnswered replies.now) }
{
    let mut answered = BTreeSet::new(alloc);
    for line in replies {
        answered.insert((line.0, line.1))?;
    }
    Ok(answered)
}

/// The clients that have an R line.
fn speaking_of(alloc: Global, replies: &[ReplyFields]) -> Result<BTreeSet<u32>, NoMemory>
    ensures { IfOk result (AreSpeaking replies.now) }
{
    let mut speaking = BTreeSet::new(alloc);
    for line in replies {
        speaking.insert(line.0)?;
    }
    Ok(speaking)
}

impl Index {
    /// That of a report.
    pub fn of(alloc: Global, report: &Report) -> Result<Index, NoMemory>
        requires { length report.now.journal ≤ 67108864 }
        ensures { IfOk result (IsIndexOf report.now) }
    {
        Ok(Index {
            entries: entries_of(alloc, report.journal.as_slice())?,
            answered: answered_of(alloc, report.replies.as_slice())?,
            speaking: speaking_of(alloc, report.replies.as_slice())?,
        })
    }

    /// How many entries there are before the one that a reply answers; none where it answers no entry.
    pub fn entry_place(&self, a: &Answered) -> Option<u32>
        ensures { (r : Report) → IsIndexOf r self.now → result ≡ entry_place r a.now }
    {
        self.entries.get(&(a.client, a.command)).copied()
    }

    /// Whether a reply answers an entry.
    pub fn is_to_entry(&self, a: &Answered) -> bool
        ensures { (r : Report) → IsIndexOf r self.now → result ≡ is_to_entry r a.now }
    {
        self.entry_place(a).is_some()
    }

    /// Whether an entry has an R line.
    fn has_answer(&self, entry: EntryFields) -> bool
        ensures { (r : Report) → IsIndexOf r self.now
            → result ≡ has_answer r (record { client = entry.0; command = entry.1 }) }
    {
        self.answered.contains(&entry)
    }

    /// Whether a client has an R line.
    fn speaks(&self, client: u32) -> bool
        ensures { (r : Report) → IsIndexOf r self.now → result ≡ speaks r client }
    {
        self.speaking.contains(&client)
    }

    /// What the entries of the report lack.
    pub fn lacks(&self, alloc: Global, journal: &[EntryFields]) -> Result<Lacking, NoMemory>
        ensures { IfOk result (λ l. (r : Report) → IsIndexOf r self.now → r.journal ≡ journal.now
            → AreLacking r l) }
    {
        let mut lacking = Lacking {
            clients: BTreeSet::new(alloc),
            has_silent: false,
        };
        for entry in journal {
            lacking.note(self, *entry)?;
        }
        Ok(lacking)
    }
}

impl Lacking {
    /// What an entry lacks.
    fn note(&mut self, index: &Index, entry: EntryFields) -> Result<(), NoMemory>
        ensures { OnOk result (NotesEntry index.now entry self.old self.new) }
    {
        self.has_silent |= !index.speaks(entry.0);
        if index.has_answer(entry) {
            return Ok(());
        }
        self.clients.insert(entry.0)?;
        Ok(())
    }

    /// Whether each entry of a client has an R line.
    fn is_whole(&self, client: u32) -> bool
        ensures { (r : Report) → AreLacking r self.now → result ≡ client_is_whole r client }
    {
        !self.clients.contains(&client)
    }

    /// Whether the first line behind those of a client may stand there.
    pub fn may_end(&self, client: u32) -> bool
        ensures { (r : Report) → AreLacking r self.now
            → result ≡ (client_is_whole r client && no_client_is_silent r) }
    {
        self.is_whole(client) && !self.has_silent
    }

    /// Whether each entry has an R line.
    pub fn is_nothing(&self) -> bool
        ensures { (r : Report) → AreLacking r self.now → result ≡ answers_are_whole r }
    {
        self.clients.is_empty()
    }
}
