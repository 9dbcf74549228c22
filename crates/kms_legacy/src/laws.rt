//! What holds of every translation.
ghost use Rattle.kms_model.specs.Legacy.Translated.{OneTranslation};

/// A script with older calls has at most one translation.
pub fn there_is_one_translation()
    ensures { OneTranslation }
{}
