//! A client's flip events and their space.
ghost use Rattle.std.specs.Prelude.{◌≡◌, ◌≢◌, ◌<◌, ◌≤◌, ◌+◌, ◌*◌, length, OnOk, OnErr, IfErr, IsOk, Err};
ghost use Rattle.kms_signal.specs.Queues.{empty_queue, space_used, HasSpace, oldest, oldest_bytes, reserves, delivers, after_read};

use crate::bytes::{EVENT_BYTES, event_bytes};
use kms_model::{Event, NoMemory};
use std::alloc::Global;
use std::collections::VecDeque;
use std::marker::Model;

/// The space of a client for events, in bytes. (Kernel: `drm_file.c`, `event_space` of `struct drm_file`.)
pub const EVENT_SPACE: u32 = 4096;

/// How many events, reserved or unread, the space of a client holds.
const MOST_EVENTS: u32 = EVENT_SPACE / EVENT_BYTES;

/// Why no space is reserved.
#[derive(Clone, Copy, PartialEq, Eq)]
pub enum ReserveError {
    /// The space does not suffice.
    NoSpace {
        /// The space that reserved and unread events take, in bytes, from 0 to 4096.
        used: u32,
    },
    /// Memory ran out.
    NoMemory,
}

/// The flip events of a client: how many are reserved, and those that were delivered and not read. (Kernel: `drm_file.c`,
/// `struct drm_pending_event`.)
#[derive(Drop)]
pub struct EventQueue {
    reserved: u32,
    unread: VecDeque<Event>,
}

impl Model for EventQueue {
    ghost use Rattle.std.specs.Prelude.{◌+◌, ◌-◌, ◌≤◌};
    ghost use Rattle.std.specs.VecDeque.{deque_len, deque_capacity};
    ghost use Rattle.kms_signal.specs.Queues.{Queue};

    ghost Value = { Queue };

    ghost view = { λ s. record {
      reserved = s.reserved;
      unread = s.unread.items;
      room = deque_capacity s.unread - (s.reserved + deque_len s.unread);
    } };

    ghost invariant = { λ s. (s.reserved + deque_len s.unread ≤ deque_capacity s.unread)
        × (s.reserved + deque_len s.unread ≤ 128) };
}

impl EventQueue {
    /// The queue without events. It takes no memory.
    pub fn new(alloc: Global) -> EventQueue
        ensures { result ≡ empty_queue }
    {
        EventQueue {
            reserved: 0,
            unread: VecDeque::from_vec(Vec::new(alloc)),
        }
    }

    /// Takes the memory for so many further events, a count, and changes nothing else: a `reserve` of so many then finds
    /// memory. Want of memory leaves all as it was.
    pub fn make_room(&mut self, _alloc: Global, n: u32) -> Result<(), NoMemory>
        ensures reserved { self.new.reserved ≡ self.old.reserved }
        ensures unread { self.new.unread ≡ self.old.unread }
        ensures room { OnOk result (n ≤ self.new.room) }
        ensures kept { self.old.room ≤ self.new.room }
        ensures there { n ≤ self.old.room → IsOk result }
        ensures err { OnErr result (self.new ≡ self.old) }
    {
        self.unread
            .reserve_exact(self.reserved as usize + n as usize)?;
        Ok(())
    }

    /// Reserves the space of so many events, a count. `NoSpace` comes exactly where the space that is used and 32 bytes for
    /// each of these events pass 4096. Want of memory comes only where there was no room. A refusal leaves all as it was.
    pub fn reserve(&mut self, _alloc: Global, n: u32) -> Result<(), ReserveError>
        ensures no_space { 4096 < space_used self.old + 32 * n
            → result ≡ Err (ReserveError.NoSpace (space_used self.old)) }
        ensures space { HasSpace self.old n → IfErr result (λ e. e ≡ ReserveError.NoMemory) }
        ensures ok { OnOk result (self.new ≡ reserves self.old n self.new.room) }
        ensures room { OnOk result (self.old.room ≤ self.new.room + n) }
        ensures there { HasSpace self.old n → n ≤ self.old.room → IsOk result }
        ensures err { OnErr result (self.new ≡ self.old) }
    {
        let in_use = self.reserved + self.unread.len() as u32;
        if n > MOST_EVENTS - in_use {
            return Err(ReserveError::NoSpace {
                used: EVENT_BYTES * in_use,
            });
        }
        let wanted = self.reserved as usize + n as usize;
        if self.unread.reserve_exact(wanted).is_err() {
            return Err(ReserveError::NoMemory);
        }
        self.reserved += n;
        Ok(())
    }

    /// Delivers an event, for which one that is reserved gives its space and its memory. It is the newest unread one.
    pub fn deliver(&mut self, event: Event)
        requires { 0 < self.old.reserved }
        ensures { self.new ≡ delivers self.old event }
    {
        self.reserved -= 1;
        let Ok(()) = self.unread.push_back(event) else {
            unreachable!();
        };
    }

    /// Reads the oldest unread event, as its 32 bytes; none exactly where nothing is unread.
    pub fn read(&mut self) -> Option<[u8; 32]>
        ensures answer { result ≡ oldest_bytes self.old.unread }
        ensures after { self.new ≡ after_read self.old }
    {
        let event = self.unread.pop_front()?;
        Some(event_bytes(&event))
    }

    /// The event that the next `read` gives; none exactly where nothing is unread.
    pub fn oldest(&self) -> Option<Event>
        ensures { result ≡ oldest self.now.unread }
    {
        self.unread.front().copied()
    }

    /// How many events are reserved.
    pub fn reserved(&self) -> u32
        ensures { result ≡ self.now.reserved }
    {
        self.reserved
    }

    /// How many events are unread.
    pub fn unread(&self) -> u32
        ensures { result ≡ length self.now.unread }
    {
        self.unread.len() as u32
    }
}
