//! The forms of the patterns.
ghost use Rattle.std.specs.Prelude.{IfSome, IfNone};
ghost use Rattle.time_patterns.specs.declared.form.Form.{Form};
ghost use Rattle.time_patterns.specs.Forms.{IsForm};

use crate::field::Field;
use crate::form::Form;
use crate::shape::Shape;

// Milliseconds and microseconds after a byte.
const MILLIS_COMMA: Option<Field> = Some(Field {
    before: Some(b','),
    digits: 3,
});

const MILLIS_POINT: Option<Field> = Some(Field {
    before: Some(b'.'),
    digits: 3,
});

const MICROS_COMMA: Option<Field> = Some(Field {
    before: Some(b','),
    digits: 6,
});

const MICROS_POINT: Option<Field> = Some(Field {
    before: Some(b'.'),
    digits: 6,
});

// A form: its tick and its unit in microseconds, its shape, its fraction and its last byte.
macro_rules! form {
    ($tick:literal, $unit:literal, $shape:ident, $fraction:expr, $close:expr) => {
        Form {
            shape: Shape::$shape,
            fraction: $fraction,
            close: $close,
            unit: $unit,
            tick: $tick,
        }
    };
}

/// The forms of the patterns in order, the first of pattern 1. The patterns 1 to 10 count
/// milliseconds, 11 to 26 microseconds.
pub static FORMS: [Form; 26] = [
    form!(1000, 1000, Dashed, MILLIS_COMMA, None),
    form!(1000, 1000, Dashed, MILLIS_POINT, None),
    form!(1000, 1000, Lettered, MILLIS_POINT, Some(b'Z')),
    form!(1000, 1000, Lettered, MILLIS_POINT, None),
    form!(1000, 1000, Bracketed, MILLIS_COMMA, Some(b']')),
    form!(1000, 1_000_000, Lettered, None, Some(b'Z')),
    form!(1000, 1_000_000, Lettered, None, None),
    form!(1000, 1_000_000, Dashed, None, None),
    form!(1000, 1_000_000, Slashed, None, None),
    form!(1000, 1_000_000, Short, None, None),
    form!(1, 1, Dashed, MICROS_COMMA, None),
    form!(1, 1, Dashed, MICROS_POINT, None),
    form!(1, 1, Lettered, MICROS_POINT, Some(b'Z')),
    form!(1, 1, Lettered, MICROS_POINT, None),
    form!(1, 1, Bracketed, MICROS_COMMA, Some(b']')),
    form!(1, 1, Slashed, MICROS_POINT, None),
    form!(1, 1000, Dashed, MILLIS_COMMA, None),
    form!(1, 1000, Dashed, MILLIS_POINT, None),
    form!(1, 1000, Lettered, MILLIS_POINT, Some(b'Z')),
    form!(1, 1000, Lettered, MILLIS_POINT, None),
    form!(1, 1000, Bracketed, MILLIS_COMMA, Some(b']')),
    form!(1, 1_000_000, Lettered, None, Some(b'Z')),
    form!(1, 1_000_000, Lettered, None, None),
    form!(1, 1_000_000, Dashed, None, None),
    form!(1, 1_000_000, Slashed, None, None),
    form!(1, 1_000_000, Short, None, None),
];

/// The form of the pattern, if the number is one of a pattern.
pub fn form_of(pattern: u8) -> Option<Form>
    ensures some { IfSome result (λ f. IsForm pattern f) }
    ensures none { IfNone result ((form : Form) → ¬ IsForm pattern form) }
{
    if pattern == 0 || pattern > 26 {
        return None;
    }
    Some(FORMS[usize::from(pattern) - 1])
}
