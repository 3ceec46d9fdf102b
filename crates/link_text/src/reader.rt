// A reader over the text of a link list, in its place.
ghost use Rattle.std.specs.Prelude.{◌≤◌, length};

mod lines;

// The text from `position` on is still to be read; a rule of the project makes the reader these two.
#[derive(Drop)]
pub struct Reader<'a> {
    text: &'a [u8],
    position: usize,
    ghost within: { position ≤ length text.now },
}
