//! The names that a script says: labels, and names of properties that no property has.
ghost use Rattle.std.specs.Prelude.{◌≡◌, ◌≤◌, ◌<◌, ◌+◌, ◌++◌, ◌^◌, ℕ, [], if◌then◌else◌, IfOk, OnOk, length, map};
ghost use Rattle.std.specs.List.{IsDistinct, list_any, position_or_len};
ghost use Rattle.std.specs.Str.{bytes_eq};
ghost use Rattle.kms_model.specs.Script.CommandLines.{place, saying, making, unmade, words_in};
ghost use Rattle.kms_words.specs.Named.{HasRoomForNames, NamesGrow, kept};
ghost use Rattle.kms_words.specs.Packed.{made_words, packed_all, packed_alone};

use crate::numbering::Numbering;
use crate::packing::push_packed;
use kms_model::{NoMemory, Seq};
use std::alloc::Global;
use std::collections::BTreeSet;
use std::marker::Model;

/// The names so far, and which of them were there before. Contracts see them as the definitions do.
#[derive(Drop)]
pub struct Names {
    /// The profile of the script's device, 1 or 2.
    profile: u32,
    /// Each name's number is its place in order of first occurrence.
    numbering: Numbering,
    /// How many of the names were there before.
    before: usize,
    /// The numbers of the labels under which a line makes a thing.
    made: BTreeSet<u32>,
    /// How often a label was made.
    count: u64,
    /// Whether a label was made that had been made before.
    is_twice: bool,
}

impl Model for Names {
    ghost use Rattle.kms_words.specs.Named.{HeldNames, held, AreMade};

    ghost Value = { HeldNames };

    ghost view = { λ n. held n.profile n.numbering n.before n.made.keys n.count n.is_twice };

    ghost invariant = { λ n. AreMade n.numbering n.before n.made.keys };
}

/// Adds the number of a label that a line makes.
fn push_where(numbers: &mut Vec<u128>, is_made: bool, word: &[u8]) -> Result<(), NoMemory>
    ensures { OnOk result (numbers.new.items
        ≡ numbers.old.items ++ (if is_made then packed_alone word.now else [])) }
{
    if is_made {
        push_packed(numbers, word)
    } else {
        Ok(())
    }
}

impl Names {
    /// No names, of a script with a profile.
    pub fn new(alloc: Global, profile: u32) -> Names
        ensures { result ≡ kept profile [] }
    {
        Names {
            profile,
            numbering: Numbering::new(alloc),
            before: 0,
            made: BTreeSet::new(alloc),
            count: 0,
            is_twice: false,
        }
    }

    /// The profile of the script's device.
    pub fn profile(&self) -> u32
        ensures { result ≡ self.now.names.profile }
    {
        self.profile
    }

    /// Tells the profile of the script's device. The names stay.
    pub fn set_profile(&mut self, profile: u32)
        ensures names { self.new.names ≡ record self.old.names { profile = profile } }
        ensures before { self.new.before ≡ record self.old.before { profile = profile } }
    {
        self.profile = profile;
    }

    /// How often a label was made.
    pub fn made(&self) -> u64
        ensures { result ≡ self.now.names.made }
    {
        self.count
    }

    /// Whether a label was made that had been made before.
    pub fn is_twice(&self) -> bool
        ensures { result ≡ self.now.names.is_twice }
    {
        self.is_twice
    }

    /// The number that a word has among the names, or would have if it were said next.
    pub fn number_of(&self, word: &[u8]) -> u32
        requires { HasRoomForNames self.now.names 1 }
        ensures { result ≡ position_or_len (bytes_eq word.now) (words_in self.now.names) }
    {
        match self.numbering.find(word) {
            Some(number) => number,
            None => self.numbering.len() as u32,
        }
    }

    /// The number of a name that is said.
    pub fn say(&mut self, alloc: Global, word: &[u8]) -> Result<u32, NoMemory>
        requires { HasRoomForNames self.old.names 1 }
        ensures number { IfOk result (λ n. n ≡ place word.now self.old.names) }
        ensures names { OnOk result (self.new.names ≡ saying word.now self.old.names) }
        ensures grows { OnOk result (NamesGrow self.old.names self.new.names 1) }
        ensures before { self.new.before ≡ self.old.before }
    {
        if let Some(number) = self.numbering.find(word) {
            return Ok(number);
        }
        let number = self.numbering.len() as u32;
        self.numbering.push(alloc, word)?;
        Ok(number)
    }

    /// The number of a label that a line makes.
    pub fn make(&mut self, alloc: Global, word: &[u8]) -> Result<u32, NoMemory>
        requires { HasRoomForNames self.old.names 1 }
        ensures number { IfOk result (λ n. n ≡ place word.now self.old.names) }
        ensures names { OnOk result (self.new.names ≡ making word.now self.old.names) }
        ensures grows { OnOk result (NamesGrow self.old.names self.new.names 1) }
        ensures before { self.new.before ≡ self.old.before }
    {
        let number = self.say(alloc, word)?;
        let is_new = self.made.insert(number)?;
        self.count += 1;
        self.is_twice |= !is_new;
        Ok(number)
    }

    /// Adds the numbers of the labels that lines make. Where no line makes any, no name is looked at.
    pub fn push_made(&self, numbers: &mut Vec<u128>) -> Result<(), NoMemory>
        requires { HasRoomForNames self.now.names 1 }
        ensures made { OnOk result (numbers.new.items
            ≡ numbers.old.items ++ packed_all (made_words self.now.names.all)) }
        ensures differ { OnOk result (IsDistinct bytes_eq (words_in self.now.names)) }
    {
        let words = self.numbering.words();
        if self.made.is_empty() {
            return Ok(());
        }
        let mut number = 0u32;
        for word in words {
            let is_made = self.made.contains(&number);
            push_where(numbers, is_made, word.as_slice())?;
            number += 1;
        }
        Ok(())
    }

    /// Lets all names stay: they are those before the next line, and no line makes one yet.
    pub fn keep(&mut self, alloc: Global)
        ensures names { self.new ≡ kept self.old.names.profile (words_in self.old.names) }
        ensures profile { self.new.before.profile ≡ self.old.before.profile }
    {
        self.before = self.numbering.len();
        self.undo(alloc);
    }

    /// Takes the names back that were not there before; no line makes one yet.
    pub fn undo(&mut self, alloc: Global)
        ensures { self.new ≡ kept self.old.before.profile self.old.before.words }
    {
        self.numbering.shorten(self.before);
        self.made = BTreeSet::new(alloc);
        self.count = 0;
        self.is_twice = false;
    }

    /// The words of all names, in order.
    pub fn into_words(self) -> Seq<Seq<u8>>
        ensures words { result ≡ words_in self.names }
        ensures differ { IsDistinct bytes_eq result }
    {
        self.numbering.into_words()
    }

    /// Names of words that differ, all of them there before, of which no line makes one.
    pub fn from_words(alloc: Global, profile: u32, words: &[Seq<u8>]) -> Result<Names, NoMemory>
        requires differ { IsDistinct bytes_eq words.now }
        requires few { length words.now ≤ 2 ^ 32 }
        ensures { IfOk result (λ names. names ≡ kept profile words.now) }
    {
        let mut names = Names::new(alloc, profile);
        for word in words {
            names.say(alloc, word.as_slice())?;
        }
        names.keep(alloc);
        Ok(names)
    }
}
