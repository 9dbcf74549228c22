//! The words of the command line.
ghost use Rattle.std.specs.Prelude.{◌≡◌, ◌≤◌, IfSome, is_some, map, string_bytes};
ghost use Rattle.std.specs.Str.{bytes_eq};
ghost use Rattle.kms_run.specs.Words.{AsksForFew, HasFewCommits, HasFewThreads, IsFewCount, action_of, asked, asked_of_one, audit_of, execution_of, generation_of, is_run, no_options, no_words, number_in_word, options_after, run_after, run_flag, suspension_of, translation_of, with_option, with_word_at};

use kms_model::Part;
use kms_report::Options;
use kms_script::read_dec;

/// The most commits that a generated script may have.
const MOST_COMMITS: u32 = 4000;

/// The most threads that may make a run.
const MOST_THREADS: u32 = 16;

/// What is done with the script that was read.
#[derive(Clone, Copy, PartialEq, Eq)]
pub enum Action {
    /// `one`: one thread does the steps of all actors.
    One,
    /// `replay`: the steps of the schedule behind the script are done.
    Replay,
    /// `run`: so many threads, a count from 1 to 16, do the steps of all actors, and one thread those that are left
    /// then.
    Run { threads: u32 },
}

impl Action {
    ghost use Rattle.std.specs.Prelude.{◌≡◌};
    ghost use Rattle.kms_run.specs.Words.{needs_threads, part_of};

    /// What may follow the script.
    pub fn part(self) -> Part
        ensures { result ≡ part_of self }
    {
        match self {
            Action::One | Action::Run { .. } => Part::Script,
            Action::Replay => Part::Schedule,
        }
    }

    /// Whether threads do the steps, which wait for one another.
    pub fn needs_threads(self) -> bool
        ensures { result ≡ needs_threads self }
    {
        matches!(self, Action::Run { .. })
    }
}

/// What is done with a script that is read, and what its report has besides its lines.
#[derive(Clone, Copy, PartialEq, Eq)]
pub struct Execution {
    pub action: Action,
    pub options: Options,
}

/// What `run` asks for.
#[derive(Clone, Copy, PartialEq, Eq)]
pub struct ThreadedRun {
    /// How many threads drive the players.
    pub threads: u32,
    /// What the report has besides its lines.
    pub options: Options,
}

/// A script that is generated.
#[derive(Clone, Copy, PartialEq, Eq)]
pub struct Generation {
    /// The number that its choices are made of.
    pub seed: u64,
    /// The count of its commits, from 1 to 4000.
    pub commits: u32,
    /// Whether it is run.
    pub run: bool,
}

/// A report without its options.
pub const NO_OPTIONS: Options = Options {
    trace: false,
    ppm: false,
};

/// What legal words ask for.
#[derive(Clone, Copy, PartialEq, Eq)]
pub enum Task {
    /// `one`, `replay` or `run`: a script is read and executed.
    Execute(Execution),
    /// `gen`: a script is generated, and nothing is read.
    Generate(Generation),
    /// `legacy`: a script with older calls is read and translated.
    Translate,
    /// `suspend`: a script is read and executed by one thread, and its device is turned off and brought back.
    Suspend,
    /// `audit`: a script and a report behind it are read, and the report is checked.
    Audit,
}

/// Whether a word is this text.
fn is_word(word: &String, text: &[u8]) -> bool
    ensures { result ≡ bytes_eq (string_bytes word.now) text.now }
{
    word.as_bytes() == text
}

/// The action that a word names, but for `run`.
fn action_of(word: &String) -> Option<Action>
    ensures value { result ≡ action_of (string_bytes word.now) }
    ensures few { IfSome result HasFewThreads }
{
    if is_word(word, b"one") {
        Some(Action::One)
    } else if is_word(word, b"replay") {
        Some(Action::Replay)
    } else {
        None
    }
}

/// Options with the one that a word names, which they do not have yet.
fn with_option(options: Options, word: &String) -> Option<Options>
    ensures { result ≡ with_option options (string_bytes word.now) }
{
    if is_word(word, b"--trace") && !options.trace {
        Some(Options {
            trace: true,
            ..options
        })
    } else if is_word(word, b"--ppm") && !options.ppm {
        Some(Options {
            ppm: true,
            ..options
        })
    } else {
        None
    }
}

/// The options that words name, each at most once, in any order.
#[tactic(auto, unfolding(crate::specs::Words::options_after))]
fn options_of(words: &[String]) -> Option<Options>
    ensures { result ≡ options_after no_options (map string_bytes words.now) }
{
    let mut options = NO_OPTIONS;
    for word in words {
        options = with_option(options, word)?;
    }
    Some(options)
}

/// What words of `one` and `replay` ask for.
#[tactic(auto, unfolding(crate::specs::Words::execution_of))]
fn execution_of(first: &String, rest: &[String]) -> Option<Execution>
    ensures value { result ≡ execution_of (string_bytes first.now) (map string_bytes rest.now) }
    ensures few { IfSome result (λ asks. HasFewThreads asks.action) }
{
    let action = action_of(first)?;
    let options = options_of(rest)?;
    Some(Execution { action, options })
}

/// The number from 1 to the most that a word spells.
#[tactic(auto, unfolding(crate::specs::Words::number_in_word))]
fn number_in_word(word: &String, most: u32) -> Option<u32>
    ensures value { result ≡ number_in_word most (string_bytes word.now) }
    ensures some { IfSome result (λ n. 1 ≤ n) }
    ensures few { IfSome result (λ n. n ≤ most) }
{
    let number = read_dec(word.as_bytes(), u64::from(most))?;
    if number == 0 {
        return None;
    }
    Some(number as u32)
}

/// What words behind `run` have told of the number of threads.
#[derive(Clone, Copy)]
enum Count {
    /// Nothing.
    Untold,
    /// That it is the next word.
    Awaited,
    /// The number.
    Told(u32),
}

/// What words behind `run` have told.
#[derive(Clone, Copy)]
struct RunWords {
    threads: Count,
    options: Options,
}

/// What words behind `run` tell with one more.
#[tactic(auto, unfolding(crate::specs::Words::with_word_at))]
fn with_word(told: RunWords, word: &String) -> Option<RunWords>
    requires few { IsFewCount told.threads }
    ensures value { result ≡ with_word_at told.threads told.options (string_bytes word.now) }
    ensures few { IfSome result (λ more. IsFewCount more.threads) }
{
    let RunWords { threads, options } = told;
    match threads {
        Count::Awaited => Some(RunWords {
            threads: Count::Told(number_in_word(word, MOST_THREADS)?),
            options,
        }),
        Count::Untold if is_word(word, b"--threads") => Some(RunWords {
            threads: Count::Awaited,
            options,
        }),
        Count::Untold | Count::Told(_) => Some(RunWords {
            threads,
            options: with_option(options, word)?,
        }),
    }
}

/// What the words behind `run` ask for: `--threads` and their number, once, and options, in any order.
#[tactic(auto, unfolding(crate::specs::Words::run_after))]
fn run_of_words(words: &[String]) -> Option<Execution>
    ensures value { result ≡ run_after no_words (map string_bytes words.now) }
    ensures few { IfSome result (λ asks. HasFewThreads asks.action) }
{
    let mut told = RunWords {
        threads: Count::Untold,
        options: NO_OPTIONS,
    };
    for word in words {
        told = with_word(told, word)?;
    }
    let Count::Told(threads) = told.threads else {
        return None;
    };
    Some(Execution {
        action: Action::Run { threads },
        options: told.options,
    })
}

/// Whether the words behind a number of commits ask to run the script: `--run` does, and no word does not.
fn run_flag(words: &[String]) -> Option<bool>
    ensures { result ≡ run_flag (map string_bytes words.now) }
{
    match words {
        [] => Some(false),
        [word] if is_word(word, b"--run") => Some(true),
        _ => None,
    }
}

/// What the words behind `gen` ask for.
#[tactic(auto, unfolding(crate::specs::Words::generation_of))]
fn generation_of(words: &[String]) -> Option<Generation>
    ensures value { result ≡ generation_of (map string_bytes words.now) }
    ensures few { IfSome result HasFewCommits }
{
    let [seed, commits, rest @ ..] = words else {
        return None;
    };
    let seed = read_dec(seed.as_bytes(), u64::MAX)?;
    let commits = number_in_word(commits, MOST_COMMITS)?;
    let run = run_flag(rest)?;
    Some(Generation { seed, commits, run })
}

/// What the words behind `legacy` ask for: there may be none.
fn translation_of(words: &[String]) -> Option<Task>
    ensures { result ≡ translation_of (map string_bytes words.now) }
{
    match words {
        [] => Some(Task::Translate),
        _ => None,
    }
}

/// What the words behind `suspend` ask for: there may be none.
fn suspension_of(words: &[String]) -> Option<Task>
    ensures { result ≡ suspension_of (map string_bytes words.now) }
{
    match words {
        [] => Some(Task::Suspend),
        _ => None,
    }
}

/// What the words behind `audit` ask for: there may be none.
fn audit_of(words: &[String]) -> Option<Task>
    ensures { result ≡ audit_of (map string_bytes words.now) }
{
    match words {
        [] => Some(Task::Audit),
        _ => None,
    }
}

/// What words ask for, of which the first names neither `gen` nor `run`.
#[tactic(auto, unfolding(crate::specs::Words::asked_of_one))]
fn asked_of_one(first: &String, rest: &[String]) -> Option<Task>
    ensures value { result ≡ asked_of_one (string_bytes first.now) (map string_bytes rest.now) }
    ensures few { IfSome result AsksForFew }
{
    if is_word(first, b"legacy") {
        return translation_of(rest);
    }
    if is_word(first, b"suspend") {
        return suspension_of(rest);
    }
    if is_word(first, b"audit") {
        return audit_of(rest);
    }
    Some(Task::Execute(execution_of(first, rest)?))
}

/// What words ask for; none where they are not legal. The legal words are `one` or `replay`, followed by `--trace` and
/// `--ppm`, each at most once, in any order; `run`, followed by these and by `--threads` and a number from 1 to 16 as two
/// words, once, in any order; `gen`, a seed below 2^64 and a number of commits from 1 to 4000, followed by `--run` or
/// nothing; and `legacy`, `suspend` or `audit` alone. A number has one spelling, in decimal digits. The program's own name is not
/// among the words.
#[tactic(auto, unfolding(crate::specs::Words::asked))]
pub fn read_words(words: &[String]) -> Option<Task>
    ensures value { result ≡ asked (map string_bytes words.now) }
    ensures few { IfSome result AsksForFew }
{
    let [first, rest @ ..] = words else {
        return None;
    };
    if is_word(first, b"gen") {
        return Some(Task::Generate(generation_of(rest)?));
    }
    if is_word(first, b"run") {
        return Some(Task::Execute(run_of_words(rest)?));
    }
    asked_of_one(first, rest)
}

/// Whether words are legal, as `read_words` tells. It takes no memory.
pub fn legal_words(words: &[String]) -> bool
    ensures { result ≡ is_some (asked (map string_bytes words.now)) }
{
    read_words(words).is_some()
}

/// Whether words are legal words of `run`. It takes no memory.
pub fn is_run(words: &[String]) -> bool
    ensures { result ≡ is_run (map string_bytes words.now) }
{
    match read_words(words) {
        Some(Task::Execute(asks)) => asks.action.needs_threads(),
        _ => false,
    }
}
