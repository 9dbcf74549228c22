//! Tests of what is read and written, by public calls. Of `kms_script` and `kms_reading`, what the cases of `kms_cases` cannot say:
//! scripts, lines, steps and reports that are read, limits that no case can spell, and what is printed; and the files in which the
//! cases stand. Of frames, of what is kept of them, and of reports: what neither a clause nor the report of a script says.
#![tactic(auto)]

#[cfg(test)]
mod casebook;
#[cfg(test)]
mod frames;
#[cfg(test)]
mod printing;
#[cfg(test)]
mod reading;
#[cfg(test)]
mod reports;
#[cfg(test)]
mod schedules;
#[cfg(test)]
mod screens;
#[cfg(test)]
mod spots;
#[cfg(test)]
mod steps;
#[cfg(test)]
mod strands;
#[cfg(test)]
mod texts;
