//! Names.
ghost use Rattle.std.specs.Prelude.{◌≡◌};
ghost use Rattle.text_rows.specs.Names as spec;

use crate::rules::NO_NAME;
use tm_types::Name;

/// The name that the text is: rule 7 where it is none.
#[tactic(auto, unfolding(crate::specs::Names::name_of))]
pub fn name_of(text: &[u8]) -> Result<Name, u8>
    ensures { result ≡ spec.name_of text.now }
{
    match Name::read(text) {
        Some(name) => Ok(name),
        None => Err(NO_NAME),
    }
}
