//! What is wrong with closing, destroying or signalling a thing.
ghost use Rattle.std.specs.Prelude.{◌≡◌, option_copied};
ghost use Rattle.kms_model.specs.Device.Execution.{close_refusal, destroy_refusal, is_blob, is_framebuffer, signal_refusal};

use kms_model::{Content, Denied, Thing};

/// Whether it is a blob.
fn is_blob(content: &Content) -> bool
    ensures { result ≡ is_blob content.now }
{
    matches!(content, Content::Mode(_) | Content::Blob(_))
}

/// Whether it is a framebuffer.
pub fn is_framebuffer(content: &Content) -> bool
    ensures { result ≡ is_framebuffer content.now }
{
    matches!(content, Content::Framebuffer { .. })
}

/// What is wrong with destroying a thing for a client, by its number from 1: `NOT_FOUND`, it is no open blob;
/// `NOT_OWNER`, it is another client's. The refusal's number is given.
pub fn destroy_refusal(client: u32, thing: Option<&Thing>) -> Option<u32>
    ensures { result ≡ destroy_refusal client (option_copied thing.entry) }
{
    match thing {
        Some(t) if !(is_blob(&t.content) && t.is_open) => Some(Denied::NOT_FOUND.0),
        Some(t) if t.owner != client => Some(Denied::NOT_OWNER.0),
        Some(_) => None,
        None => Some(Denied::NOT_FOUND.0),
    }
}

/// What is wrong with closing a thing for a client, by its number from 1: `NOT_FOUND`, it is no open framebuffer of
/// this client. The refusal's number is given.
pub fn close_refusal(client: u32, thing: Option<&Thing>) -> Option<u32>
    ensures { result ≡ close_refusal client (option_copied thing.entry) }
{
    match thing {
        Some(t) if is_framebuffer(&t.content) && t.is_open && t.owner == client => None,
        _ => Some(Denied::NOT_FOUND.0),
    }
}

/// What is wrong with signalling a thing: `NOT_SIGNALLABLE`, it is no fence that a `fence` command made. The refusal's
/// number is given.
pub fn signal_refusal(thing: Option<&Thing>) -> Option<u32>
    ensures { result ≡ signal_refusal (option_copied thing.entry) }
{
    match thing {
        Some(t) if matches!(&t.content, Content::Fence) => None,
        _ => Some(Denied::NOT_SIGNALLABLE.0),
    }
}
