//! Words that have numbers.
ghost use Rattle.std.specs.Prelude.{◌≡◌, ◌≤◌, ◌<◌, ◌^◌, ◌-◌, ℕ, [], ◌∷◌, ◌++◌, None, OnOk, OnErr, length, take};
ghost use Rattle.std.specs.List.{IsDistinct};
ghost use Rattle.std.specs.Str.{bytes_eq};
ghost use Rattle.kms_words.specs.Numbered.{place_among};

use kms_model::{NoMemory, Seq};
use std::alloc::Global;
use std::collections::BTreeMap;
use std::marker::Model;

/// Words, each once, in the order in which they came: a word's number is its place. Contracts see the list of words.
/// Both maps of it, from numbers to words and back, take a time that the words cannot make worse: the second is in
/// the words' order.
#[derive(Drop)]
pub struct Numbering {
    words: Vec<Seq<u8>>,
    numbers: BTreeMap<Vec<u8>, u32>,
}

impl Model for Numbering {
    ghost use Rattle.std.specs.Prelude.{ℕ, List};
    ghost use Rattle.kms_words.specs.Numbered.{AreFound};

    ghost Value = { List (List ℕ) };

    ghost view = { λ n. n.words.items };

    ghost invariant = { λ n. AreFound n.words.items n.numbers.entries };
}

impl Numbering {
    /// No words.
    pub fn new(alloc: Global) -> Numbering
        ensures { result ≡ [] }
    {
        Numbering {
            words: Vec::new(alloc),
            numbers: BTreeMap::new(alloc),
        }
    }

    /// How many words there are.
    pub fn len(&self) -> usize
        ensures { result ≡ length self.now }
    {
        self.words.len()
    }

    /// The words, in order.
    pub fn words(&self) -> &[Seq<u8>]
        ensures words { result.now ≡ self.now }
        ensures differ { IsDistinct bytes_eq self.now }
    {
        self.words.as_slice()
    }

    /// The number of a word; none where it is not among the words.
    pub fn find(&self, word: &[u8]) -> Option<u32>
        ensures { result ≡ place_among word.now self.now }
    {
        self.numbers.get(word).copied()
    }

    /// Puts a word behind the others, of which none is equal to it. Want of memory leaves them as they were.
    pub fn push(&mut self, alloc: Global, word: &[u8]) -> Result<(), NoMemory>
        requires new { place_among word.now self.old ≡ None }
        requires few { length self.old < 2 ^ 32 }
        ensures added { OnOk result (self.new ≡ self.old ++ word.now ∷ []) }
        ensures unchanged { OnErr result (self.new ≡ self.old) }
    {
        let key = Vec::from_slice(alloc, word)?;
        let number = self.words.len() as u32;
        self.words
            .push(Seq::from_vec(Vec::from_slice(alloc, word)?))?;
        match self.numbers.insert(key, number) {
            Ok(_) => Ok(()),
            Err(_) => {
                self.words.pop();
                Err(NoMemory)
            }
        }
    }

    /// Takes the last word away, where there is one.
    fn drop_last(&mut self)
        ensures { self.new ≡ take (length self.old - 1) self.old }
    {
        if let Some(word) = self.words.pop() {
            self.numbers.remove(word.as_slice());
        }
    }

    /// Lets the first words stay, and no others.
    pub fn shorten(&mut self, count: usize)
        requires { count ≤ length self.old }
        ensures { self.new ≡ take count self.old }
    {
        'dropping: while self.len() > count {
            self.drop_last();
        }
    }

    /// The words as a list.
    pub fn into_words(self) -> Seq<Seq<u8>>
        ensures words { result ≡ self }
        ensures differ { IsDistinct bytes_eq result }
    {
        Seq::from_vec(self.words)
    }
}
