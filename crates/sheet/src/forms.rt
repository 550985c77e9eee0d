// The forms of a sheet's lines.
ghost use Rattle.std.specs.Prelude.{◌≡◌};
ghost use Rattle.sheet.specs.Faults.{reading};
ghost use Rattle.sheet.specs.Tokens.{rest_of};
ghost use Rattle.sheet.specs.Heads.{Heads, head};
ghost use Rattle.sheet.specs.Forms.{number_of, name_of, opening_of, field_of, cores_of, title_of, part_of, stage_of, formed, Passes};

use crate::cursor::Cursor;
use crate::token::Token;
use model::fault::{Cause, Fault, Layer};
use model::limits::NAME_BYTES;
use model::stage::Stage;

// The most digits of a number.
const MOST_DIGITS: usize = 5;

// The words that begin a form.
#[derive(Clone, Copy, PartialEq, Eq)]
enum Head {
    Cores,
    Stage,
    Cost,
    Period,
}

// The head word that these bytes spell. Its clause speaks of single bytes, as the patterns do; the function below
// says the same in whole words, once for all arms.
fn spelled(word: &[u8]) -> Option<Head>
    ensures { Heads result word.now }
{
    match word {
        b"cores" => Some(Head::Cores),
        b"stage" => Some(Head::Stage),
        b"cost" => Some(Head::Cost),
        b"period" => Some(Head::Period),
        _ => None,
    }
}

// The head word that a word is, if it is one.
fn head_of(word: &[u8]) -> Option<Head>
    ensures { result ≡ head word.now }
{
    spelled(word)
}

// The value of a number token, if it is a number of a sheet. No `parse`: it takes a `str` and more forms.
fn number(digits: &[u8]) -> Option<u32>
    ensures { result ≡ number_of digits.now }
{
    match digits {
        [] | [b'0', _, ..] => return None,
        _ => {}
    }
    if digits.len() > MOST_DIGITS {
        return None;
    }
    let mut value = 0;
    for digit in digits {
        value = value * 10 + u32::from(digit.saturating_sub(b'0'));
    }
    Some(value)
}

// The name that a word is, with zeros behind it, unless it is too long.
fn name(word: &[u8]) -> Option<[u8; NAME_BYTES]>
    ensures { result ≡ name_of word.now }
{
    if word.len() > NAME_BYTES {
        return None;
    }
    let mut bytes = [0; NAME_BYTES];
    bytes[0..word.len()].copy_from_slice(word);
    Some(bytes)
}

// The fault of a line that has not its form. The number of the line goes beside the cursor and not in it:
// it stands still while a line is read, which each of the contracts below would have to say.
fn no_form(line: usize) -> Fault
    ensures { result ≡ reading Cause.NoForm line }
{
    Cause::NoForm.at(line, Layer::Reading)
}

// A bracket, the head word and a space.
#[tactic(auto, unfolding(crate::specs::Forms::opening_of))]
fn opening(cursor: &mut Cursor, wanted: Head, line: usize) -> Result<(), Fault>
    ensures { Passes (formed line (opening_of wanted (rest_of cursor.old))) result (rest_of cursor.new) }
{
    let Token::Open = cursor.next().token else {
        return Err(no_form(line));
    };
    let Token::Word(word) = cursor.next().token else {
        return Err(no_form(line));
    };
    let Some(found) = head_of(word) else {
        return Err(no_form(line));
    };
    if found != wanted {
        return Err(no_form(line));
    }
    let Token::Gap = cursor.next().token else {
        return Err(no_form(line));
    };
    Ok(())
}

// A head word with its number, as `(cost 5)`.
#[tactic(auto, unfolding(crate::specs::Forms::field_of))]
fn field(cursor: &mut Cursor, wanted: Head, line: usize) -> Result<u32, Fault>
    ensures { Passes (formed line (field_of wanted (rest_of cursor.old))) result (rest_of cursor.new) }
{
    opening(cursor, wanted, line)?;
    let Token::Number(digits) = cursor.next().token else {
        return Err(no_form(line));
    };
    let Some(value) = number(digits) else {
        return Err(no_form(line));
    };
    let Token::Close = cursor.next().token else {
        return Err(no_form(line));
    };
    Ok(value)
}

// The line of the core count, as `(cores 2)`.
#[tactic(auto, unfolding(crate::specs::Forms::cores_of))]
pub(crate) fn cores_line(cursor: &mut Cursor, line: usize) -> Result<u32, Fault>
    ensures { Passes (formed line (cores_of (rest_of cursor.old))) result (rest_of cursor.new) }
{
    let count = field(cursor, Head::Cores, line)?;
    let Token::End = cursor.next().token else {
        return Err(no_form(line));
    };
    Ok(count)
}

// The front of a stage's line, as `(stage audio`.
#[tactic(auto, unfolding(crate::specs::Forms::title_of))]
fn title(cursor: &mut Cursor, line: usize) -> Result<[u8; NAME_BYTES], Fault>
    ensures { Passes (formed line (title_of (rest_of cursor.old))) result (rest_of cursor.new) }
{
    opening(cursor, Head::Stage, line)?;
    let Token::Word(letters) = cursor.next().token else {
        return Err(no_form(line));
    };
    let Some(name) = name(letters) else {
        return Err(no_form(line));
    };
    Ok(name)
}

// A space, and a head word with its number.
#[tactic(auto, unfolding(crate::specs::Forms::part_of))]
fn part(cursor: &mut Cursor, wanted: Head, line: usize) -> Result<u32, Fault>
    ensures { Passes (formed line (part_of wanted (rest_of cursor.old))) result (rest_of cursor.new) }
{
    let Token::Gap = cursor.next().token else {
        return Err(no_form(line));
    };
    field(cursor, wanted, line)
}

// The line of a stage, as `(stage audio (cost 1) (period 4))`.
#[tactic(auto, unfolding(crate::specs::Forms::stage_of))]
pub(crate) fn stage_line(cursor: &mut Cursor, line: usize) -> Result<Stage, Fault>
    ensures { Passes (formed line (stage_of (rest_of cursor.old))) result (rest_of cursor.new) }
{
    let name = title(cursor, line)?;
    let cost = part(cursor, Head::Cost, line)?;
    let period = part(cursor, Head::Period, line)?;
    let Token::Close = cursor.next().token else {
        return Err(no_form(line));
    };
    let Token::End = cursor.next().token else {
        return Err(no_form(line));
    };
    Ok(Stage { name, cost, period })
}
