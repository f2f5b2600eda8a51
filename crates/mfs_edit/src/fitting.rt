//! Values that are set into places.
ghost use Rattle.std.specs.Prelude.{◌≡◌, ◌-◌, ◌++◌, length, take, drop, replicate};
ghost use Rattle.model_system.specs.FittedValues.{fitted_value};

use model_system::Justify;

/// Sets a value into a place, as the definition says; the place keeps its length.
pub(crate) fn set_fitted(place: &mut [u8], justify: Justify, fill: u8, value: &[u8])
    ensures { place.new ≡ fitted_value justify fill (length place.old) value.now }
{
    match justify {
        Justify::Left => set_left(place, fill, value),
        Justify::Right => set_right(place, fill, value),
    }
}

fn set_left(place: &mut [u8], fill: u8, value: &[u8])
    ensures { place.new ≡ take (length place.old) value.now ++ replicate (length place.old - length value.now) fill }
{
    let kept = value.len().min(place.len());
    place[..kept].copy_from_slice(&value[..kept]);
    place[kept..].fill(fill);
}

fn set_right(place: &mut [u8], fill: u8, value: &[u8])
    ensures { place.new ≡ replicate (length place.old - length value.now) fill ++ drop (length value.now - length place.old) value.now }
{
    let kept = value.len().min(place.len());
    let filled = place.len() - kept;
    place[..filled].fill(fill);
    place[filled..].copy_from_slice(&value[value.len() - kept..]);
}
