//! Whose commits are, and which of them ask for events.
ghost use Rattle.std.specs.Prelude.{◌≡◌, ◌++◌, ◌∷◌, [], OnErr, OnOk};
ghost use Rattle.kms_audit.specs.Owned.{owner};

use kms_model::{NoMemory, Request, Seq};
use kms_props::wants_event;

/// Whose a commit is, and what its events tell.
#[derive(Clone, Copy, PartialEq, Eq)]
pub struct Owner {
    /// The client, counted from 1.
    pub client: u32,
    /// Whether its request asks for events.
    pub wants_event: bool,
    /// The request's number for them.
    pub user_data: u64,
}

/// Adds whose the next commit is.
pub fn push_owner(owners: &mut Seq<Owner>, client: u32, request: &Request) -> Result<(), NoMemory>
    ensures pushed { OnOk result (owners.new ≡ owners.old ++ owner client request.now ∷ []) }
    ensures unchanged { OnErr result (owners.new ≡ owners.old) }
{
    owners.push(Owner {
        client,
        wants_event: wants_event(request.flags),
        user_data: request.user_data,
    })?;
    Ok(())
}
