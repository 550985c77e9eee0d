// The tokens of a sheet.
ghost use Rattle.std.specs.Prelude.{◌≡◌, ◌≤◌, length};
ghost use Rattle.sheet.specs.Tokens.{digit, digits_front, heard, lexeme, span};

use model::names::letters;

// A word and a number are parts of the sheet.
#[derive(Clone, Copy)]
pub(crate) enum Token<'a> {
    Open,
    Close,
    Gap,
    End,
    Word(&'a [u8]),
    Number(&'a [u8]),
    Stray,
}

// Whether a byte may stand in a number, by cases as for letters.
fn is_digit(byte: u8) -> bool
    ensures { result ≡ digit byte }
{
    matches!(byte as char, '0'..='9')
}

// How many bytes in front are digits.
fn digits(bytes: &[u8]) -> usize
    ensures value { result ≡ digits_front bytes.now }
    ensures within { result ≤ length bytes.now }
{
    bytes.iter().take_while(|byte| is_digit(**byte)).count()
}

// The first token, and how many bytes it has. Where none is left it is a stray of no byte, and no Option:
// no form has either, so the two need no cases of their own.
pub(crate) fn first_token<'a>(bytes: &'a [u8]) -> (Token<'a>, usize)
    ensures token { heard result.0 ≡ lexeme bytes.now }
    ensures span { result.1 ≡ span bytes.now }
    ensures within { result.1 ≤ length bytes.now }
{
    let [first, ..] = bytes else {
        return (Token::Stray, 0);
    };
    match *first as char {
        'a'..='z' => {
            let n = letters(bytes);
            (Token::Word(&bytes[..n]), n)
        }
        '0'..='9' => {
            let n = digits(bytes);
            (Token::Number(&bytes[..n]), n)
        }
        '(' => (Token::Open, 1),
        ')' => (Token::Close, 1),
        ' ' => (Token::Gap, 1),
        '\n' => (Token::End, 1),
        _ => (Token::Stray, 1),
    }
}
