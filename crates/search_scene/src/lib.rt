// What a search reads: an accepted site file with a board, and the site in arrays.
#![tactic(auto)]

ghost use Rattle.search_site.specs.Decoded.{StatesDecoded, MotionsDecoded};
ghost use Rattle.search_scene.specs.Arrays.{InArrays};

use site::Hall;

// A hall, and its states and motions as `search_site` decodes them.
#[derive(Clone, Copy)]
pub struct Scene<'a> {
    pub hall: Hall<'a>,
    pub states: &'a [u16],
    pub motions: &'a [u16],
    pub ghost arrays: { InArrays hall.file.bytes.now hall.sizes states.now motions.now },
    pub ghost states_decoded: { StatesDecoded hall.file.bytes.now states.now },
    pub ghost motions_decoded: { MotionsDecoded hall.file.bytes.now motions.now },
}
