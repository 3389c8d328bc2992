// Bytes as they are, and words of a list likewise.
ghost use Rattle.std.specs.Prelude.{◌∷◌, [], ◌+◌, ◌≤◌, ◌<◌, length};
ghost use Rattle.text.specs.Text.{Appended};

// One byte.
pub fn put_byte(text: &mut [u8], at: usize, byte: u8) -> usize
    requires { at < length text.old }
    ensures { Appended at (byte ∷ []) text.old text.new result }
{
    text[at] = byte;
    at + 1
}

// The elements of xs: bytes of a text, or words of a list.
pub fn put<T: Copy>(text: &mut [T], at: usize, xs: &[T]) -> usize
    requires { at + length xs.now ≤ length text.old }
    ensures { Appended at xs.now text.old text.new result }
{
    let end = at + xs.len();
    text[at..end].copy_from_slice(xs);
    end
}
