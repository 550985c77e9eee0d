// A place in a sheet.
ghost use Rattle.std.specs.Prelude.{◌≤◌, length};

// The bytes before the place have been read. The whole text stays beside it, since a token tells its place there.
#[derive(Clone, Copy)]
pub(crate) struct Cursor<'a> {
    pub(crate) text: &'a [u8],
    pub(crate) place: usize,
    ghost within: { place ≤ length text.now },
}
