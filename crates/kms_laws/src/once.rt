//! What happens once: a script makes each label once. It is proved over the definitions alone.
ghost use Rattle.kms_laws.specs.Once.{EachHasItsLabel, LabelsAreNames, MakesLabelsOnce};

/// Two commands of a well-formed script that make the same label are one: no text that makes a label twice is a script.
pub fn labels_are_made_once()
    ensures { MakesLabelsOnce }
{}

/// Each thing of a history is the one that was made under its label, so no two have one label; and its label is a label among
/// the script's names.
pub fn things_have_their_labels()
    ensures own { EachHasItsLabel }
    ensures names { LabelsAreNames }
{}
