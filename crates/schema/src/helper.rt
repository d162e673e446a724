//! The helpers that a program may call.

ghost use Rattle.std.specs.Prelude.{◌≡◌, Some, IfSome};
ghost use Rattle.schema.specs.Helper.{number_of_helper, helper_of, arguments_of, answer_of};

/// A helper of the database.
#[derive(Clone, Copy, Debug, PartialEq, Eq)]
pub enum Helper {
    /// Reads a row.
    RowGet,
    /// Writes a row.
    RowPut,
    /// Removes a row.
    RowDelete,
    /// Counts the rows of an interval of keys.
    RangeCount,
    /// Finds the row of the least key of an interval.
    RangeNext,
    /// Drops the call's writes at its end.
    Cancel,
}

/// The kind of value that a helper takes in a register.
#[derive(Clone, Copy, Debug, PartialEq, Eq)]
pub enum ArgumentKind {
    /// The number of a table.
    Table,
    /// A key, the bound of an interval, or a code.
    Number,
    /// A buffer of the table's width, which is read.
    RowRead,
    /// A buffer of the table's width, which is written.
    RowWritten,
    /// A buffer of 8 bytes, to which a key is written.
    KeyWritten,
}

/// The kind of value that a helper answers in r0.
#[derive(Clone, Copy, Debug, PartialEq, Eq)]
pub enum AnswerKind {
    /// 1 where there was a row, and else 0.
    Flag,
    /// 0.
    Zero,
    /// Any number.
    Count,
}

impl Helper {
    /// The helper of this number, or none.
    pub fn from_number(number: i32) -> Option<Helper>
        ensures exact { result ≡ helper_of number }
        ensures numbered { IfSome result (λ helper. number_of_helper helper ≡ number) }
    {
        match number {
            1 => Some(Helper::RowGet),
            2 => Some(Helper::RowPut),
            3 => Some(Helper::RowDelete),
            4 => Some(Helper::RangeCount),
            5 => Some(Helper::RangeNext),
            6 => Some(Helper::Cancel),
            _ => None,
        }
    }

    /// The number by which a program calls the helper, 1 to 6.
    pub fn number(self) -> i32
        ensures number { result ≡ number_of_helper self }
        ensures back { helper_of result ≡ Some self }
    {
        match self {
            Helper::RowGet => 1,
            Helper::RowPut => 2,
            Helper::RowDelete => 3,
            Helper::RangeCount => 4,
            Helper::RangeNext => 5,
            Helper::Cancel => 6,
        }
    }

    /// Returns the kinds of the values that the helper takes in r1, r2 and so on.
    pub fn arguments(self) -> &'static [ArgumentKind]
        ensures { result.now ≡ arguments_of self }
    {
        match self {
            Helper::RowGet => &[
                ArgumentKind::Table,
                ArgumentKind::Number,
                ArgumentKind::RowWritten,
            ],
            Helper::RowPut => &[
                ArgumentKind::Table,
                ArgumentKind::Number,
                ArgumentKind::RowRead,
            ],
            Helper::RowDelete => &[ArgumentKind::Table, ArgumentKind::Number],
            Helper::RangeCount => &[
                ArgumentKind::Table,
                ArgumentKind::Number,
                ArgumentKind::Number,
            ],
            Helper::RangeNext => &[
                ArgumentKind::Table,
                ArgumentKind::Number,
                ArgumentKind::Number,
                ArgumentKind::KeyWritten,
                ArgumentKind::RowWritten,
            ],
            Helper::Cancel => &[ArgumentKind::Number],
        }
    }

    /// Returns the kind of the value that the helper answers in r0.
    pub fn answer(self) -> AnswerKind
        ensures { result ≡ answer_of self }
    {
        match self {
            Helper::RowGet => AnswerKind::Flag,
            Helper::RowPut => AnswerKind::Zero,
            Helper::RowDelete => AnswerKind::Zero,
            Helper::RangeCount => AnswerKind::Count,
            Helper::RangeNext => AnswerKind::Flag,
            Helper::Cancel => AnswerKind::Zero,
        }
    }
}
