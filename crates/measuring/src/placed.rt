// Eight lines, each in a code by its place. They are written out, so that each place says its own code.
ghost use Rattle.std.specs.Prelude.{◌≡◌};
ghost use Rattle.measuring.specs.Placed.{eight_of, AreLines};

use crate::units::Units;
use margin::Instrument;
use valuation::Line;

// The first place's code.
const FIRST: u16 = 1_000;

pub(crate) fn instruments(units: &[Units]) -> Option<[Instrument; 8]>
    ensures { result ≡ eight_of units.now }
{
    match *units {
        [a, b, c, d, e, f, g, h] => Some([
            a.instrument(FIRST),
            b.instrument(FIRST + 1),
            c.instrument(FIRST + 2),
            d.instrument(FIRST + 3),
            e.instrument(FIRST + 4),
            f.instrument(FIRST + 5),
            g.instrument(FIRST + 6),
            h.instrument(FIRST + 7),
        ]),
        _ => None,
    }
}

// The lines, where none has too many units.
pub(crate) fn lines(units: &[Units]) -> Option<[Line; 8]>
    ensures { AreLines units.now result }
{
    match *units {
        [a, b, c, d, e, f, g, h] => Some([
            a.line(FIRST)?,
            b.line(FIRST + 1)?,
            c.line(FIRST + 2)?,
            d.line(FIRST + 3)?,
            e.line(FIRST + 4)?,
            f.line(FIRST + 5)?,
            g.line(FIRST + 6)?,
            h.line(FIRST + 7)?,
        ]),
        _ => None,
    }
}
