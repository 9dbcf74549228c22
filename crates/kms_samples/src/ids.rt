//! Ids of objects.
use kms_model::{FIRST_CONNECTOR_ID, FIRST_CRTC_ID, FIRST_PLANE_ID, ObjId};

/// The first CRTC.
pub const CRTC: ObjId = ObjId(FIRST_CRTC_ID);

/// The second CRTC.
pub const SECOND_CRTC: ObjId = ObjId(FIRST_CRTC_ID + 1);

/// The first plane.
pub const PLANE: ObjId = ObjId(FIRST_PLANE_ID);

/// The first connector.
pub const CONN: ObjId = ObjId(FIRST_CONNECTOR_ID);
