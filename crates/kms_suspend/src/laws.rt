//! What holds of each device that is turned off and brought back, over the definitions alone: each is the contract of a call
//! that does nothing but ask for the laws of histories that it rests on.
ghost use Rattle.kms_model.specs.Order.SleepAndWake.{SleepAndWake};
ghost use Rattle.kms_suspend.specs.Laws.{LongerIsWellFormed};

/// A script with both requests behind it is a script, where it has room for two commands and nothing that its device shows is
/// closed.
pub fn longer_scripts_are_well_formed()
    ensures { LongerIsWellFormed }
{
    kms_laws::things_have_their_labels();
    kms_laws::world_is_serial();
}

/// Behind the history that one thread makes of a script, where that is drained and nothing is closed, both requests are
/// accepted, and nothing else is done or answered; each CRTC with a mode goes off and shows again what it showed, no other
/// latches; and the device has its values again, but that MODE_ID may name another blob with the same mode.
pub fn devices_sleep_and_wake()
    ensures { SleepAndWake }
{
    longer_scripts_are_well_formed();
    kms_laws::one_is_over();
    kms_laws::histories_stay();
    kms_laws::finished_histories_are_over();
    kms_laws::things_have_their_labels();
    kms_laws::world_is_serial();
    kms_laws::tails_get_shorter();
    kms_laws::all_tails_get_shorter();
    kms_laws::dead_histories_name_a_fence();
    kms_laws::headline_holds();
    kms_laws::all_is_shown_once_cleaned();
}
