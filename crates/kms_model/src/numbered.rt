//! The commands of a script by their numbers.
ghost use Rattle.std.specs.Prelude.{◌≡◌, option_copied};
ghost use Rattle.kms_model.specs.Device.Serial.{command_of, from_one};
ghost use Rattle.kms_model.specs.Machine.State.{request_in};

use crate::scripts::{Command, Request, Script};

/// The command of a client of a script with a number, both counted from 1, where there is one.
pub fn command_of(script: &Script, client: u32, number: u32) -> Option<&Command>
    ensures { option_copied result
        ≡ command_of script.now (record { client = client; command = number }) }
{
    let commands = from_one(script.clients.as_slice(), client)?;
    from_one(commands.as_slice(), number)
}

/// That command, by the same numbers, where it is a request.
pub fn request_of(script: &Script, client: u32, number: u32) -> Option<&Request>
    ensures { option_copied result
        ≡ request_in (command_of script.now (record { client = client; command = number })) }
{
    match command_of(script, client, number)? {
        Command::Atomic(request) => Some(request),
        _ => None,
    }
}

/// The item with a number, counted from 1, where there is one.
fn from_one<T>(items: &[T], number: u32) -> Option<&T>
    ensures { option_copied result ≡ from_one items.now number }
{
    items.get(number.checked_sub(1)? as usize)
}
