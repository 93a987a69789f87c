// A text is cut at a byte: a sheet at byte 10 into lines, a line at spaces into words.
// What is handed on is the very part of the caller's text, without that byte.
ghost use Rattle.std.specs.Prelude.{◌≡◌, ◌+◌, ◌≤◌, length, drop};
ghost use Rattle.sheet.specs.Pieces.{front_to};
ghost use Rattle.reader.specs.Parts.{line_at};

// How many bytes stand before the next byte b; or all of them.
fn front_len(text: &[u8], b: u8) -> usize
    ensures { result ≡ length (front_to b text.now) }
{
    text.iter().take_while(|&&x| x != b).count()
}

// The part from `at` up to, and without, the next byte b; or to the end.
#[tactic(auto, using(crate::proofs::Cuts::cutting))]
pub(crate) fn piece_from(text: &[u8], at: usize, b: u8) -> &[u8]
    requires { at ≤ length text.now }
    ensures { (result.now ≡ front_to b (drop at text.now)) × (at + length result.now ≤ length text.now) }
{
    let rest = &text[at..];
    &rest[..front_len(rest, b)]
}

// The line that begins at `at`, without its byte 10.
pub(crate) fn line_from(sheet: &[u8], at: usize) -> &[u8]
    requires { at ≤ length sheet.now }
    ensures { (result.now ≡ line_at at sheet.now) × (at + length result.now ≤ length sheet.now) }
{
    piece_from(sheet, at, b'\n')
}
