//! What holds of every history of every script, for those who tell of it: each call does nothing and has the law as its
//! contract.
ghost use Rattle.kms_laws.specs.Told.{AnswersFollow, EventsAreTold, FramesStay, LatchesCanBeShown};

/// Each picture that a CRTC latched can be composed over the things that there are at the end of the history: each layer has
/// its place in the mode, and its framebuffer, open or closed, has a word for each pixel.
pub fn what_was_latched_can_be_composed()
    ensures { LatchesCanBeShown }
{}

/// What a CRTC showed has the same frame over the things of the one-thread device then and at any later moment.
pub fn shown_frames_stay()
    ensures { FramesStay }
{}

/// The events that a client has read are those that its replies tell, in order of time.
pub fn events_read_are_replies()
    ensures { EventsAreTold }
{}

/// The replies to a client are to its commands from the first on, none left out, and their places do not fall.
pub fn answers_follow_commands()
    ensures { AnswersFollow }
{}
