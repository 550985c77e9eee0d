// Walking over a sheet token by token.
ghost use Rattle.std.specs.Prelude.{◌≡◌, length, ◌==◌};
ghost use Rattle.sheet.specs.Tokens.{heard, lexeme, after, rest_of};

use crate::cursor::Cursor;
use crate::token::{Token, first_token};

// A token, and the place in the sheet where it begins. Every token has its place, though no fault needs it yet.
#[derive(Clone, Copy)]
pub(crate) struct Placed<'a> {
    pub(crate) token: Token<'a>,
    pub(crate) place: usize,
}

impl<'a> Cursor<'a> {
    // The place before the first byte.
    pub(crate) fn new(text: &'a [u8]) -> Cursor<'a>
        ensures { rest_of result ≡ text.now }
    {
        Cursor { text, place: 0 }
    }

    // The next token, which stands in the sheet at the place that the answer says.
    pub(crate) fn next(&mut self) -> Placed<'a>
        ensures token { heard result.token ≡ lexeme (rest_of self.old) }
        ensures place { result.place ≡ self.old.place }
        ensures rest { rest_of self.new ≡ after (rest_of self.old) }
        ensures text { self.new.text.now ≡ self.old.text.now }
    {
        let place = self.place;
        let (token, length) = first_token(&self.text[place..]);
        self.place = place + length;
        Placed { token, place }
    }

    // Whether no byte is left.
    pub(crate) fn at_end(&self) -> bool
        ensures { result ≡ (length (rest_of self.now) == 0) }
    {
        self.place == self.text.len()
    }
}
