//! The formats of terminals.
ghost use Rattle.std.specs.Prelude.{◌≡◌, All, IfSome};
ghost use Rattle.std.specs.Option.{option_copied};
ghost use Rattle.model_system.specs.FormatRule.{KeepsRule};
ghost use Rattle.model_system.specs.SystemFormats as spec;

use model_system::{Format, Screen, SystemFormat};
use tm_types::Name;

/// The name of the format that a terminal has.
pub(crate) fn format_name(screens: &[Screen], terminal: &Name) -> Option<Name>
    ensures { result ≡ spec.format_name screens.now terminal.now }
{
    for screen in screens {
        if screen.terminal == *terminal {
            return Some(screen.format);
        }
    }
    None
}

/// The format of this name, of formats that keep their rule.
pub(crate) fn format_named<'a>(formats: &'a [SystemFormat], name: &Name) -> Option<&'a Format>
    requires { All (λ format. KeepsRule format.format) formats.now }
    ensures value { option_copied result ≡ spec.format_named formats.now name.now }
    ensures kept { IfSome result (λ format. KeepsRule format.now) }
{
    for format in formats {
        if format.name == *name {
            return Some(&format.format);
        }
    }
    None
}
