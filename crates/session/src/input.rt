// Standard input, up to a fixed number of bytes.
ghost use Rattle.std.specs.Prelude.{◌≡◌, take, IfOk, IfSome};
ghost use Rattle.session.specs.Sessions.{most_input};

use arrayvec::ArrayVec;
use std::io;
use std::io::Read;

// The most bytes that the program reads: what comes behind them is left unread.
pub const MOST_INPUT: usize = 4_096;

// Reads until the input ends or has given so many bytes.
pub fn read_input<R: Read>(from: &mut R) -> io::Result<ArrayVec<u8, MOST_INPUT>>
    ensures { IfOk result (λ input. IfSome (R.remaining from.old) (λ bytes. input.items ≡ take most_input bytes)) }
{
    let mut input = ArrayVec::new();
    io::copy(&mut from.take(MOST_INPUT as u64), &mut input)?;
    Ok(input)
}
