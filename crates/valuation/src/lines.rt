// The lines of a portfolio, each in a code of its own.
ghost use Rattle.std.specs.Prelude.{◌≤◌, length};
ghost use Rattle.margin.specs.Sheets.{Apart};
ghost use Rattle.valuation.specs.Keys.{line_code};
ghost use Rattle.valuation.specs.Apart.{Apart-prop};

use crate::line::Line;

#[derive(Clone, Copy)]
pub struct Lines<'a> {
    pub lines: &'a [Line],
    ghost few: { length lines.now ≤ 8192 },
    ghost apart: { Apart line_code lines.now } by { Apart-prop line_code lines.now },
}
