ghost use Rattle.std.specs.Prelude.{◌≡◌};
ghost use Rattle.line_format.specs.Fault.{on_line, at_column};

use terms::{Layer, Refusal};
use thiserror::Error;

/// Lines are numbered from 1 to this, a number of ten digits, which all later lines share.
pub const LAST_LINE_NUMBER: u64 = 9_999_999_999;

/// Why a line is refused, and at which column, counted from 1: the first of the leftmost part at
/// fault.
#[derive(Clone, Copy, PartialEq, Eq, Debug, Error)]
#[error("refusal {}, column {column}", .refusal.number())]
pub struct Fault {
    /// The reason.
    pub refusal: Refusal,
    /// The column at fault, 1 to 46.
    pub column: u8,
}

/// A fault with the number of its line, and with the layer that met it, which follows from the
/// refusal.
#[derive(Clone, Copy, PartialEq, Eq, Debug, Error)]
#[error("line {line}: layer {}, refusal {}, column {column}", .layer.number(), .refusal.number())]
pub struct LineFault {
    /// The number of the line, counted from 1.
    pub line: u64,
    /// The layer that met it.
    pub layer: Layer,
    /// The reason.
    pub refusal: Refusal,
    /// The column at fault, 1 to 46.
    pub column: u8,
}

// What stands at a column, or why that column is at fault.
pub(crate) fn at_column<X>(column: u8, value: Result<X, Refusal>) -> Result<X, Fault>
    ensures { result ≡ at_column column value }
{
    value.map_err(|refusal| Fault { refusal, column })
}

/// The answer to the line of a number, counted from 1: a fault is told with that number and its
/// layer.
pub fn on_line<X: Drop>(line: u64, answer: Result<X, Fault>) -> Result<X, LineFault>
    ensures { result ≡ on_line line answer }
{
    answer.map_err(|Fault { refusal, column }| LineFault {
        line,
        layer: refusal.layer(),
        refusal,
        column,
    })
}
