//! Texts of scripts.

/// A script, or a part of one, as one literal: these pieces, one behind the other.
///
/// | piece | text |
/// |---|---|
/// | a literal | the literal |
/// | `single`, `single(PROFILE)` | the head of a script whose device is [`single`](crate::single), of profile 1 or this one |
/// | `screens` | the head of a script with two CRTCs, each with a primary plane and a connector of its own |
/// | `sharing` | the head of a script with two CRTCs, an overlay plane of both and a connector of each |
/// | `overlaid` | the head of a script with one CRTC, a primary and an overlay plane of it and a connector of it |
/// | `tiny(MODE)` | the line that makes the mode [`tiny`](crate::tiny) under a label, with the name `tiny` |
/// | `pixel(BUFFER, FB, COLOUR)` | the lines that make a buffer of one pixel of a colour, and a framebuffer of it |
/// | `made` | the lines that make the pixel `00616263` as `b`, its framebuffer `f` and the mode `m` |
/// | `screen(CRTC, MODE)` | what a request sets that turns a CRTC on, with the connector of the same index |
/// | `plane(PLANE, CRTC, FB)` | what a request sets that shows a framebuffer of one pixel on a CRTC |
/// | `light`, `light(CRTC, FB, MODE)` | `screen` and `plane` of one index: the assignments of [`light`](crate::light) |
/// | `lights`, `lights(CRTC, FB, MODE)` | the line of the request that sets that, and may be a modeset |
///
/// Labels and colours are literals of text, and profiles and indices are numbers. With no arguments, `light` and `lights` are
/// of CRTC 0 and of what `made` makes.
#[macro_export]
macro_rules! script {
    (@[$($text:tt)*]) => {
        concat!($($text),*)
    };
    (@[$($text:tt)*] single($profile:literal) $($more:tt)*) => {
        $crate::script!(
            @[$($text)* "kms " $profile "\ncrtcs 1\nplane primary 0 XR24\nconn 0\n"] $($more)*
        )
    };
    (@[$($text:tt)*] single $($more:tt)*) => {
        $crate::script!(@[$($text)*] single(1) $($more)*)
    };
    (@[$($text:tt)*] screens $($more:tt)*) => {
        $crate::script!(
            @[$($text)* "kms 1\ncrtcs 2\nplane primary 0 XR24\nplane primary 1 XR24\nconn 0\nconn 1\n"]
            $($more)*
        )
    };
    (@[$($text:tt)*] sharing $($more:tt)*) => {
        $crate::script!(
            @[$($text)* "kms 1\ncrtcs 2\nplane overlay 0,1 XR24\nconn 0\nconn 1\n"] $($more)*
        )
    };
    (@[$($text:tt)*] overlaid $($more:tt)*) => {
        $crate::script!(
            @[$($text)* "kms 1\ncrtcs 1\nplane primary 0 XR24\nplane overlay 0 XR24\nconn 0\n"] $($more)*
        )
    };
    (@[$($text:tt)*] tiny($mode:literal) $($more:tt)*) => {
        $crate::script!(
            @[$($text)* "mode " $mode " 1 1 1 1 1 0 1 1 1 1 0 60 0 0 tiny\n"] $($more)*
        )
    };
    (@[$($text:tt)*] pixel($buffer:literal, $fb:literal, $colour:literal) $($more:tt)*) => {
        $crate::script!(
            @[$($text)* "buffer " $buffer " 1 1 XR24 solid " $colour "\naddfb " $fb " " $buffer "\n"]
            $($more)*
        )
    };
    (@[$($text:tt)*] made $($more:tt)*) => {
        $crate::script!(@[$($text)*] pixel("b", "f", "00616263") tiny("m") $($more)*)
    };
    (@[$($text:tt)*] screen($crtc:literal, $mode:literal) $($more:tt)*) => {
        $crate::script!(
            @[
                $($text)* "crtc" $crtc ".ACTIVE=1 crtc" $crtc ".MODE_ID=@" $mode " conn" $crtc
                ".CRTC_ID=crtc" $crtc
            ]
            $($more)*
        )
    };
    (@[$($text:tt)*] plane($plane:literal, $crtc:literal, $fb:literal) $($more:tt)*) => {
        $crate::script!(
            @[
                $($text)* "plane" $plane ".FB_ID=@" $fb " plane" $plane ".CRTC_ID=crtc" $crtc
                " plane" $plane ".CRTC_W=1 plane" $plane ".CRTC_H=1"
                " plane" $plane ".SRC_W=65536 plane" $plane ".SRC_H=65536"
            ]
            $($more)*
        )
    };
    (@[$($text:tt)*] light($crtc:literal, $fb:literal, $mode:literal) $($more:tt)*) => {
        $crate::script!(@[$($text)*] screen($crtc, $mode) " " plane($crtc, $crtc, $fb) $($more)*)
    };
    (@[$($text:tt)*] light $($more:tt)*) => {
        $crate::script!(@[$($text)*] light(0, "f", "m") $($more)*)
    };
    (@[$($text:tt)*] lights($crtc:literal, $fb:literal, $mode:literal) $($more:tt)*) => {
        $crate::script!(@[$($text)*] "atomic 0x400 0 " light($crtc, $fb, $mode) "\n" $($more)*)
    };
    (@[$($text:tt)*] lights $($more:tt)*) => {
        $crate::script!(@[$($text)*] lights(0, "f", "m") $($more)*)
    };
    (@[$($text:tt)*] $piece:literal $($more:tt)*) => {
        $crate::script!(@[$($text)* $piece] $($more)*)
    };
    ($($pieces:tt)+) => {
        $crate::script!(@[] $($pieces)+)
    };
}
