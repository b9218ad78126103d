// An accepted site file and a board of its site.
#![tactic(auto)]

ghost use Rattle.std.specs.Prelude.{length};
ghost use Rattle.site.specs.Ready.{Ready};

use crate::Sizes;
use site_layout::SiteFile;

// What a call that looks at both takes: the file with its sizes, and a board of the file's length.
#[derive(Clone, Copy)]
pub struct Hall<'a> {
    pub file: SiteFile<'a>,
    pub board: &'a [u8],
    pub sizes: Sizes,
    pub ghost ready: { Ready file.bytes.now (length board.now) sizes },
}
