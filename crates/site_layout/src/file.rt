// A site file whose fields are laid out well.
#![tactic(auto)]

ghost use Rattle.site_layout.specs.Laid.{Laid};

// The bytes of a site file that none of the refusals 2 to 4 applies to: its states, motions and centres can be read.
#[derive(Clone, Copy)]
pub struct SiteFile<'a> {
    pub bytes: &'a [u8],
    pub ghost laid: { Laid bytes.now },
}
