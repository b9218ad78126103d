// The motions of a site file by their number.
#![tactic(auto)]

ghost use Rattle.site_read.specs.Motions.{Index};

use site_layout::SiteFile;

// A site file, and where the field of each of its motions starts, as `fill_index` finds it.
#[derive(Clone, Copy)]
pub struct Motions<'a> {
    pub file: SiteFile<'a>,
    pub starts: &'a [u16],
    pub ghost indexed: { Index file.bytes.now starts.now },
}
