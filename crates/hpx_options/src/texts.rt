//! What the program prints of its command line.
ghost use Rattle.std.specs.Prelude.{◌≡◌};
ghost use Rattle.hpx_options.specs.Texts.{help_text, version_text, bad_word_text};

use arrayvec::ArrayString;
use itoa::Buffer;

/// What `--hpx:help` prints.
pub fn help() -> &'static [u8]
    ensures { result.now ≡ help_text }
{
    b"usage: hpx APPLICATION [OPTIONS]\n"
}

/// What `--hpx:version` prints.
pub fn version() -> &'static [u8]
    ensures { result.now ≡ version_text }
{
    b"hpx profile 1\n"
}

/// The line for the place of a word that is refused. It takes no memory.
pub fn bad_word(place: u32) -> ArrayString<64>
    ensures { result.bytes ≡ bad_word_text place }
{
    let mut line = ArrayString::new();
    line.push_str("hpx: bad word ");
    line.push_str(Buffer::new().format(place));
    line.push_str("\n");
    line
}
