//! Tests of the program through its public calls, of what the cases of `kms_cases` cannot say: sources and sinks that fail, runs
//! by threads, a gate, and a report's digest. A text is handed on in pieces, and one function puts them together, calls the
//! program and compares: a test that owns strings drops them at each of its ends, and takes long to prove.
#![tactic(auto)]

#[cfg(test)]
mod asserting;
#[cfg(test)]
mod failing;
#[cfg(test)]
mod generated;
#[cfg(test)]
mod meeting;
#[cfg(test)]
mod runs;
#[cfg(test)]
mod statuses;
#[cfg(test)]
mod texts;
