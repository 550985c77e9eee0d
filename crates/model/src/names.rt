// The names of stages.
ghost use Rattle.std.specs.Prelude.{◌≡◌, ◌≤◌, length};
ghost use Rattle.std.specs.List.{prefix_len};
ghost use Rattle.model.specs.Names.{letter, letters_of, all_zero, lawful_name};

use crate::limits::NAME_BYTES;

// Whether a byte may stand in a name. The letters are cases, here and where digits are, so that they are read off.
pub fn is_letter(byte: u8) -> bool
    ensures { result ≡ letter byte }
{
    matches!(byte as char, 'a'..='z')
}

// How many bytes in front are letters.
pub fn letters(bytes: &[u8]) -> usize
    ensures value { result ≡ prefix_len letter bytes.now }
    ensures within { result ≤ length bytes.now }
{
    bytes.iter().take_while(|byte| is_letter(**byte)).count()
}

// A name without the zeros behind it.
pub fn word(name: &[u8; NAME_BYTES]) -> &[u8]
    ensures { result.now ≡ letters_of name.now }
{
    &name[..letters(name)]
}

fn zeros(bytes: &[u8]) -> bool
    ensures { result ≡ all_zero bytes.now }
{
    bytes.iter().all(|byte| *byte == 0)
}

// Whether the bytes are letters, at least one, and zeros behind them.
pub fn is_name(name: &[u8; NAME_BYTES]) -> bool
    ensures { result ≡ lawful_name name.now }
{
    let n = letters(name);
    n > 0 && zeros(&name[n..])
}
