// A drop, the temperature at which a drum is emptied, in Celsius or Fahrenheit, and whether two drops are near enough to be the same.
#![tactic(auto)]

pub mod inner;

ghost use Rattle.std.specs.Prelude.{◌≡◌};
ghost use Rattle.text_drops.specs.Drop.{in_fahrenheit, near};

// The units that a drop is written in.
pub const CELSIUS: u8 = 67;

pub const FAHRENHEIT: u8 = 70;

// A drop in degrees of its own scale.
#[derive(Clone, Copy)]
pub enum Drop {
    Celsius(f64),
    Fahrenheit(f64),
}

// The drop in degrees Fahrenheit.
pub fn in_fahrenheit(drop: Drop) -> f64
    ensures { result ≡ in_fahrenheit drop }
{
    match drop {
        Drop::Celsius(c) => c * 9.0 / 5.0 + 32.0,
        Drop::Fahrenheit(f) => f,
    }
}

// Whether two drops differ by no more than half a degree Fahrenheit.
pub fn near(a: Drop, b: Drop) -> bool
    ensures { result ≡ near a b }
{
    let difference = in_fahrenheit(a) - in_fahrenheit(b);
    (difference <= 0.5) & (-0.5 <= difference)
}
