//! Files in which a person writes cases of the program. A line has a mark, a space and a text, and the text spells bytes.

mod cases;
mod faults;
mod lines;
mod reading;
mod spelling;

pub use cases::{Case, Ending};
pub use faults::{FileError, Why};
pub use reading::read_cases;
pub use spelling::show;
