ghost use Rattle.std.specs.Prelude.{◌≡◌};
ghost use Rattle.text_drops.specs.Drop.{drop_of, scale_of};

use crate::{CELSIUS, Drop};

// The drop of a unit and of so many tenths of a degree.
pub fn drop_of(unit: u8, tenths: u16) -> Drop
    ensures { result ≡ drop_of (scale_of unit) tenths }
{
    let degrees = (tenths as f64) / 10.0;
    if unit == CELSIUS {
        Drop::Celsius(degrees)
    } else {
        Drop::Fahrenheit(degrees)
    }
}
