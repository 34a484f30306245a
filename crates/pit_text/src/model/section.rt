ghost use Rattle.std.specs.Prelude.{◌≡◌};
ghost use Rattle.pit_text.specs.Keys.{section_number};
ghost use Rattle.pit_text.specs.Model.{section_of};

/// A section of a model text.
#[derive(Clone, Copy, Debug, PartialEq, Eq)]
pub enum Section {
    /// `OBJECTIVE_FUNCTION`
    Objective,
    /// `RESOURCE_CONSTRAINT_COEFFICIENTS`
    Coefficients,
    /// `RESOURCE_CONSTRAINT_LIMITS`
    Limits,
}

impl Section {
    pub(crate) fn number(self) -> usize
        ensures { result ≡ section_number self }
    {
        self as usize
    }
}

/// The section that a line begins, by its first field.
#[tactic(auto, unfolding(crate::specs::Model::section_of))]
pub fn section_of(field: &[u8]) -> Option<Section>
    ensures { result ≡ section_of field.now }
{
    if field == b"OBJECTIVE_FUNCTION".as_slice() {
        Some(Section::Objective)
    } else if field == b"RESOURCE_CONSTRAINT_COEFFICIENTS".as_slice() {
        Some(Section::Coefficients)
    } else if field == b"RESOURCE_CONSTRAINT_LIMITS".as_slice() {
        Some(Section::Limits)
    } else {
        None
    }
}
