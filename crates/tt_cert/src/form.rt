//! The forms of certificate files.

ghost use Rattle.std.specs.Prelude.{◌≡◌};
ghost use Rattle.tt_cert.specs.Forms.{IsFormNumber, form_number, form_numbered, form_of, most_contexts as form_contexts};

/// The number of the form that is written.
pub const NEWEST_FORM: u16 = 4;

/// A form of certificate files. Form 4 is written, all are read.
#[derive(Clone, Copy, PartialEq, Eq)]
pub enum Form {
    /// Each state is listed, without its storage cells; at most 4,095 contexts besides the main
    /// one.
    One,
    /// States may be left out; otherwise as the first.
    Two,
    /// As the second, with storage cells.
    Three,
    /// As the third, with up to 65,534 contexts besides the main one.
    Four,
}

impl Form {
    /// Returns the form with this number, if there is one.
    pub(crate) fn with_number(number: u16) -> Option<Form>
        ensures { result ≡ form_of number }
    {
        match number {
            1 => Some(Form::One),
            2 => Some(Form::Two),
            3 => Some(Form::Three),
            4 => Some(Form::Four),
            _ => None,
        }
    }

    /// Returns the form with this number, which is one of 1 to 4.
    pub fn numbered(number: u16) -> Form
        requires { IsFormNumber number }
        ensures { result ≡ form_numbered number }
    {
        match number {
            1 => Form::One,
            2 => Form::Two,
            3 => Form::Three,
            _ => Form::Four,
        }
    }

    /// Returns the number by which a header names the form.
    pub fn number(self) -> u16
        ensures value { result ≡ form_number self }
        ensures known { IsFormNumber result }
    {
        match self {
            Form::One => 1,
            Form::Two => 2,
            Form::Three => 3,
            Form::Four => 4,
        }
    }

    /// Returns how many contexts a section of this form may have at most, besides the main one.
    pub fn most_contexts(self) -> u16
        ensures { result ≡ form_contexts self }
    {
        match self {
            Form::One | Form::Two | Form::Three => 4_095,
            Form::Four => 65_534,
        }
    }
}
