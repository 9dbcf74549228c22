//! What a property may be set to.

/// The values of a property. (Kernel: "KMS Properties"; the kinds of property of `drm_property.c`.)
#[derive(Clone, Copy, PartialEq, Eq)]
pub enum Range {
    /// A number between two bounds, both of them among the values. An enumeration is such a range.
    Numbers {
        /// The least value, from -2147483648.
        low: i128,
        /// The greatest value, to 4294967295.
        high: i128,
    },
    /// A label of an open thing of the property's kind, or the number that says that there is none. FB_ID takes a
    /// framebuffer, MODE_ID a blob that holds a legal mode and IN_FENCE_FD a fence; OUT_FENCE_PTR takes `+LABEL`
    /// with a label that is still to be made.
    Thing {
        /// The number that stands for no thing: -1 for a file descriptor, 0 for an id.
        none: i128,
    },
    /// `crtcN` of a CRTC of the device, or 0.
    CrtcName,
}
