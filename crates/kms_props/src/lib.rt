//! The tables of properties, formats, registers and flags, the test of a device, and who sets properties in states.
//!
//! The tables of properties, of formats and of registers are `Table` values, proved equal to their definitions, and are read by
//! `first_row!` in the bodies of the look-ups; the flags are a type of `bitflags`. Names, codes and bits are those of the kernel's headers `drm_mode.h` and `drm_fourcc.h`; the ids of
//! properties are this device's own. No call takes memory.
#![tactic(auto)]

mod devices;
mod flags;
mod formats;
mod properties;
mod registers;
mod setting;
mod table;

pub use devices::check_topology;
pub use flags::{AtomicFlags, from_bits, is_nonblock, is_test, wants_event};
pub use formats::{FormatRow, code, format_table, fourcc};
pub use properties::{
    PropertyRow, is_immutable, lookup, name, property_table, range, row_in, row_of,
};
pub use registers::{Register, RegisterRow, Start, first_word, register_table};
pub use setting::Setter;
pub use table::Table;
