//! Tests of the layer of requests and states by its public calls: refusals, what a request asks for, names, touches and
//! needs locked, duplicated states, pictures, and the device of one thread. Most are text: a device, and a course of its
//! commands with what is answered to each.
#![tactic(auto)]

#[cfg(test)]
mod answers;
#[cfg(test)]
mod commands;
#[cfg(test)]
mod courses;
#[cfg(test)]
mod devices;
#[cfg(test)]
mod early;
#[cfg(test)]
mod late;
#[cfg(test)]
mod locks;
#[cfg(test)]
mod numbers;
#[cfg(test)]
mod parts;
#[cfg(test)]
mod pictures;
#[cfg(test)]
mod resolving;
#[cfg(test)]
mod states;
