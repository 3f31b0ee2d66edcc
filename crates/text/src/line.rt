//! A line of a sheet text, its fields, and a fault in it. All but a fault borrow the text.

/// A line of the text and its number, from 1.
#[derive(Clone, Copy)]
pub struct TextLine<'a> {
    pub number: usize,
    pub bytes: &'a [u8],
}

/// What is left of a line's fields: each has a blank in front, the next one at the place `at` of the line's bytes.
#[derive(Clone, Copy)]
pub struct Fields<'a> {
    pub bytes: &'a [u8],
    pub line: usize,
    pub at: usize,
}

/// A field, without the minus in front of a negative one, and the line and the column, from 1, that it starts at.
#[derive(Clone, Copy)]
pub enum Field<'a> {
    Unsigned {
        digits: &'a [u8],
        line: usize,
        column: usize,
    },
    Negative {
        digits: &'a [u8],
        line: usize,
        column: usize,
    },
}

/// A line of an allowed form, by its letter. A case has its fields as one part of the text, to be read one by one.
#[derive(Clone, Copy)]
pub enum Line<'a> {
    Node(Fields<'a>),
    Variables(Fields<'a>),
    Branch(Fields<'a>),
    Earth(Fields<'a>),
    Law(Fields<'a>),
    /// A repeat of singles between two nodes.
    Repeat(Fields<'a>),
    Comment { text: &'a [u8], line: usize },
    Empty { line: usize },
}

/// The column, from 1, at which the line first differs from all that are allowed.
#[derive(Clone, Copy, Debug, PartialEq, Eq)]
pub struct Fault {
    pub column: usize,
}
