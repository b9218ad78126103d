// What a picture is drawn from.
#![tactic(auto)]

ghost use Rattle.draw.specs.Drawable.{Drawable};

use site::Sizes;
use site_layout::SiteFile;

// An accepted site file that has a centre for each cell, and its sizes.
#[derive(Clone, Copy)]
pub struct Drawing<'a> {
    pub file: SiteFile<'a>,
    pub sizes: Sizes,
    pub ghost drawable: { Drawable file.bytes.now sizes },
}
