//! Laws of texts: lines that are read behind other names than those with which they were written, and generated scripts.
ghost use Rattle.kms_script.specs.Generated.{AreWellFormed};
ghost use Rattle.kms_script.specs.ReadAnew.{FormsNeedNoNames, RequestsAreReadBack};

/// Whether a line is a command does not depend on the names that are known before it.
pub fn forms_need_no_names()
    ensures { FormsNeedNoNames }
{}

/// The line of a request that makes no label is read back, behind any names of the same profile, as that request with the
/// numbers that its names have then.
pub fn requests_are_read_back()
    ensures { RequestsAreReadBack }
{}

/// Each generated script is one that a machine can be made of, and that some text spells. (`kms_gen` makes them.)
pub fn generated_scripts_are_well_formed()
    ensures { AreWellFormed }
{}
